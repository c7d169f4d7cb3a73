ghost use Rattle.std.specs.Prelude.{◌≡◌, ℕ, ◌<◌, List, [], ◌∷◌, ◌++◌, Some, None, position, length, slice_get, IfOk, OnErr};
ghost use Rattle.std.specs.Str.{bytes_eq};
ghost use Rattle.ams_token.specs.NameTable.{known_names, with_name};

use indexmap::IndexSet;
use std::alloc::{AllocError, Global};
use std::marker::Model;

/// The numbers of the names that the grammar knows.
pub const EVENT_NUMBER: u32 = 0;

pub const DOT_NUMBER: u32 = 1;

pub const ABOVE_NUMBER: u32 = 2;

pub const RAMP_NUMBER: u32 = 3;

/// The texts of a program, each of them once, with their numbers in the order in which they were first met.
#[derive(Drop)]
pub struct Names {
    texts: IndexSet<String>,
}

impl Model for Names {
    ghost use Rattle.std.specs.Prelude.{List, ℕ, map, length, ◌≤◌, ◌^◌};
    ghost use Rattle.std.specs.String.{string_bytes};

    ghost Value = { List (List ℕ) };

    ghost view = { λ n. map string_bytes n.texts.keys };

    ghost invariant = { λ n. length n.texts.keys ≤ 2 ^ 32 };
}

impl Names {
    /// The table of the names that the grammar knows: `event`, `dot`, `above` and `ramp`.
    pub fn new(alloc: Global) -> Result<Names, AllocError>
        ensures { IfOk result (λ names. names ≡ known_names) }
    {
        let mut names = Names {
            texts: IndexSet::new(alloc),
        };
        names.number(alloc, "event")?;
        names.number(alloc, "dot")?;
        names.number(alloc, "above")?;
        names.number(alloc, "ramp")?;
        Ok(names)
    }

    pub fn len(&self) -> usize
        ensures { result ≡ length self.now }
    {
        self.texts.len()
    }

    /// The number of a text, where it is in the table.
    pub fn find(&self, text: &str) -> Option<u32>
        ensures { result ≡ position (bytes_eq text.now) self.now }
    {
        match self.texts.get_index_of(text) {
            Some(at) => Some(at as u32),
            None => None,
        }
    }

    /// The number of a text, which is put at the end where it is not in the table yet. The only error is want of memory.
    pub fn number(&mut self, alloc: Global, text: &str) -> Result<u32, AllocError>
        ensures ok { IfOk result (λ n. (self.new ≡ with_name self.old text.now) × (slice_get self.new n ≡ Some text.now)) }
        ensures err { OnErr result (self.new ≡ self.old) }
    {
        match self.find(text) {
            Some(number) => Ok(number),
            None => {
                let number = self.add(alloc, text)?;
                Ok(number)
            }
        }
    }

    fn add(&mut self, alloc: Global, text: &str) -> Result<u32, AllocError>
        requires { position (bytes_eq text.now) self.old ≡ None }
        ensures ok { IfOk result (λ n. (n ≡ length self.old) × (self.new ≡ self.old ++ text.now ∷ [])) }
        ensures err { OnErr result (self.new ≡ self.old) }
    {
        let Ok(number) = u32::try_from(self.texts.len()) else {
            return Err(AllocError);
        };
        self.texts.insert(String::from_str(alloc, text)?)?;
        Ok(number)
    }

    pub fn text(&self, number: u32) -> &str
        requires { number < length self.now }
        ensures { slice_get self.now number ≡ Some result.now }
    {
        match self.texts.get_index(number as usize) {
            Some(text) => text.as_str(),
            None => "",
        }
    }

    /// Each text has one number.
    pub fn has_one_number(&self)
        ensures { (n : ℕ) (text : List ℕ) → slice_get self.now n ≡ Some text → position (bytes_eq text) self.now ≡ Some n }
    {
        let _len = self.texts.len();
    }
}
