//! Regions inside one another.
ghost use Rattle.std.specs.Prelude.{◌≡◌, ◌++◌, ◌∷◌, [], IfOk, OnOk, is_none};
ghost use Rattle.name_scope.specs.Scopes.{lookup, among, declared_in, visible, with_name, inside};
ghost use Rattle.name_scope.specs.declared.scope.Scope.{Scope as Seen};

use crate::region::Region;
use crate::thing::Thing;
use sqlite_items::Items;
use std::alloc::{AllocError, Global};
use std::mem;

/// The innermost region of a place in the text, and those round it, the outermost one first.
#[derive(Drop)]
pub struct Scope {
    pub outer: Items<Region>,
    pub inner: Region,
}

/// An expression finds no label, and a label hides nothing.
fn visible(thing: Option<Thing>) -> Option<Thing>
    ensures { result ≡ visible thing }
{
    match thing {
        Some(Thing::Label) => None,
        _ => thing,
    }
}

fn among(regions: &[Region], name: u32) -> Option<Thing>
    ensures { result ≡ among regions.now name }
{
    let [region, inner @ ..] = regions else {
        return None;
    };
    match among(inner, name) {
        Some(thing) => Some(thing),
        None => visible(region.find(name)),
    }
}

impl Scope {
    /// A region with nothing round it.
    pub fn new(alloc: Global) -> Scope
        ensures { result ≡ record { outer = []; inner = [] } }
    {
        Scope {
            outer: Items::new(alloc),
            inner: Region::new(alloc),
        }
    }

    /// What a name stands for.
    pub fn find(&self, name: u32) -> Option<Thing>
        ensures { result ≡ lookup self.now name }
    {
        match visible(self.inner.find(name)) {
            Some(thing) => Some(thing),
            None => among(self.outer.as_slice(), name),
        }
    }

    /// Declares a name in the innermost region, where that doesn't yet, and answers whether it is new.
    pub fn declare(&mut self, name: u32, thing: Thing) -> Result<bool, AllocError>
        ensures is_new { IfOk result (λ is_new. is_new ≡ is_none (declared_in self.old.inner name)) }
        ensures ok { OnOk result (self.new ≡ with_name self.old name thing) }
    {
        self.inner.declare(name, thing)
    }

    /// Begins a region inside the innermost one.
    pub fn enter(&mut self, alloc: Global) -> Result<(), AllocError>
        ensures { OnOk result (self.new ≡ inside self.old) }
    {
        let region = mem::replace(&mut self.inner, Region::new(alloc));
        self.outer.push(region)
    }

    /// Ends the innermost region: what was declared in it is forgotten.
    pub fn leave(&mut self)
        ensures { (before : Seen) → self.old.outer ≡ before.outer ++ before.inner ∷ [] → self.new ≡ before }
    {
        if let Some(region) = self.outer.pop() {
            self.inner = region;
        }
    }
}
