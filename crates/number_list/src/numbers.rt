//! A list of numbers with an index.
ghost use Rattle.std.specs.Prelude.{◌≡◌, [], ◌∷◌, ◌++◌, length, position, nat_eq, None, IsSome, IfOk, OnOk};
ghost use Rattle.std.specs.List.{list_any};
ghost use Rattle.number_list.specs.Firsts.{AreFirsts};

use indexmap::IndexSet;
use sqlite_items::Items;
use std::alloc::{AllocError, Global};
use std::marker::Model;

/// A list of numbers. Contracts see it as the list; the first place of a number is found without looking at the others.
#[derive(Drop)]
pub struct NumberList {
    all: Items<u32>,
    different: IndexSet<u32>,
    /// The first place of each different number.
    firsts: Items<usize>,
}

impl Model for NumberList {
    ghost use Rattle.std.specs.Prelude.{List, ℕ};
    ghost use Rattle.number_list.specs.Firsts.{AreFirsts};

    ghost Value = { List ℕ };

    ghost view = { λ l. l.all };

    ghost invariant = { λ l. AreFirsts l.all l.different.keys l.firsts };
}

impl NumberList {
    pub fn new(alloc: Global) -> NumberList
        ensures { result ≡ [] }
    {
        NumberList {
            all: Items::new(alloc),
            different: IndexSet::new(alloc),
            firsts: Items::new(alloc),
        }
    }

    pub fn len(&self) -> usize
        ensures { result ≡ length self.now }
    {
        self.all.len()
    }

    /// The first place of a number, where it stands in the list.
    pub fn find(&self, number: u32) -> Option<usize>
        ensures { result ≡ position (nat_eq number) self.now }
    {
        match self.different.get_index_of(&number) {
            Some(index) => Some(self.firsts.as_slice()[index]),
            None => None,
        }
    }

    #[tactic(auto, using(crate::proofs::Behind::stands))]
    pub fn contains(&self, number: u32) -> bool
        ensures { result ≡ list_any (nat_eq number) self.now }
    {
        self.find(number).is_some()
    }

    #[tactic(auto, using(crate::proofs::Behind::old_number))]
    fn push_old(&mut self, number: u32) -> Result<(), AllocError>
        requires { IsSome (position (nat_eq number) self.old) }
        ensures { OnOk result (self.new ≡ self.old ++ number ∷ []) }
    {
        self.all.push(number)
    }

    fn push_new(&mut self, number: u32) -> Result<(), AllocError>
        requires { position (nat_eq number) self.old ≡ None }
        ensures { OnOk result (self.new ≡ self.old ++ number ∷ []) }
    {
        let place = self.all.len();
        self.firsts.push(place)?;
        let Ok(()) = self.all.push(number) else {
            self.firsts.pop();
            return Err(AllocError);
        };
        let Ok(_) = self.different.insert(number) else {
            self.all.pop();
            self.firsts.pop();
            return Err(AllocError);
        };
        Ok(())
    }

    /// Puts a number behind the others.
    pub fn push(&mut self, number: u32) -> Result<(), AllocError>
        ensures { OnOk result (self.new ≡ self.old ++ number ∷ []) }
    {
        match self.find(number) {
            Some(_) => self.push_old(number),
            None => self.push_new(number),
        }
    }

    /// The list with a number behind the others.
    pub fn with(self, number: u32) -> Result<NumberList, AllocError>
        ensures { IfOk result (λ list. list ≡ self ++ number ∷ []) }
    {
        let mut list = self;
        list.push(number)?;
        Ok(list)
    }

    pub fn into_items(self) -> Items<u32>
        ensures { result ≡ self }
    {
        let NumberList {
            all,
            different: _,
            firsts: _,
        } = self;
        all
    }
}
