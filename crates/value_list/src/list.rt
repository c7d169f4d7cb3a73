//! A list of values with an index.
ghost use Rattle.std.specs.Prelude.{◌≡◌, [], ◌∷◌, ◌++◌, length, OnOk};
ghost use Rattle.std.specs.List.{list_any};
ghost use Rattle.ams_value.specs.Values.{equals};

use crate::index::ValueIndex;
use ams_value::Val;
use sqlite_items::Items;
use std::alloc::{AllocError, Global};
use std::marker::Model;

/// A list of values. Contracts see it as the list; whether a value stands in it is found without looking at the others.
#[derive(Drop)]
pub struct ValueList {
    all: Items<Val>,
    index: ValueIndex,
}

impl Model for ValueList {
    ghost use Rattle.std.specs.Prelude.{List};
    ghost use Rattle.ams_value.specs.declared.val.Val.{Val};
    ghost use Rattle.value_list.specs.Index.{IsIndexOf};

    ghost Value = { List Val };

    ghost view = { λ l. l.all };

    ghost invariant = { λ l. IsIndexOf l.all l.index };
}

impl ValueList {
    pub fn new(alloc: Global) -> ValueList
        ensures { result ≡ [] }
    {
        ValueList {
            all: Items::new(alloc),
            index: ValueIndex::new(alloc),
        }
    }

    pub fn len(&self) -> usize
        ensures { result ≡ length self.now }
    {
        self.all.len()
    }

    pub fn as_slice(&self) -> &[Val]
        ensures { result.now ≡ self.now }
    {
        self.all.as_slice()
    }

    pub fn contains(&self, value: &Val) -> bool
        ensures { result ≡ list_any (equals value.now) self.now }
    {
        self.index.contains(value)
    }

    /// Puts a value behind the others.
    pub fn push(&mut self, value: &Val) -> Result<(), AllocError>
        ensures { OnOk result (self.new ≡ self.old ++ value.now ∷ []) }
    {
        self.all.push(*value)?;
        match self.index.insert(value) {
            Ok(()) => Ok(()),
            Err(error) => {
                self.all.pop();
                Err(error)
            }
        }
    }
}
