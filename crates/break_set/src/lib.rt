//! The break elements that a cycle has executed: at most one for each selector.
#![tactic(auto)]

ghost use Rattle.std.specs.Prelude.{IsTrue, ◌≡◌, ℕ, ◌↔◌, ◌++◌, ◌∷◌, [], Ok, Err, OnOk, OnErr};
ghost use Rattle.step_data.specs.Selectors.{has_selector};
ghost use Rattle.break_set.specs.Breaks.{OnePerSelector, code_of};

use std::alloc::Global;
use std::marker::Model;
use step_data::{BreakList, Element};

/// Why an element isn't added.
#[derive(Clone, Copy, Debug, PartialEq, Eq)]
pub enum AddFault {
    /// An element for this selector is there already.
    Double(u32),
    /// There was no memory.
    Memory,
}

impl AddFault {
    /// The number of the fault's message; want of memory has none.
    pub fn code(self) -> Option<u8>
        ensures { result ≡ code_of self }
    {
        match self {
            AddFault::Double(_) => Some(message_codes::DOUBLE_BREAK),
            AddFault::Memory => None,
        }
    }
}

/// Break elements in the order in which they were executed, no two for one selector.
#[derive(Drop)]
pub struct BreakSet {
    elements: BreakList,
}

impl Model for BreakSet {
    ghost use Rattle.std.specs.Prelude.{IsTrue, List};
    ghost use Rattle.step_data.specs.declared.breaks.Element.{Element};
    ghost use Rattle.break_set.specs.Breaks.{OnePerSelector};

    ghost Value = { List Element };

    ghost view = { λ a. a.elements };

    ghost invariant = { λ a. OnePerSelector a.elements };
}

impl BreakSet {
    /// No element.
    pub fn new(alloc: Global) -> BreakSet
        ensures { result ≡ [] }
    {
        BreakSet {
            elements: BreakList::new(alloc),
        }
    }

    /// Some element is for this selector.
    pub fn has(&self, selector: u32) -> bool
        ensures { result ≡ has_selector selector self.now }
    {
        self.elements
            .as_slice()
            .iter()
            .any(|element| element.selector == selector)
    }

    /// Adds an element at the end.
    pub fn add(&mut self, element: Element) -> Result<(), AddFault>
        ensures ok { OnOk result (self.new ≡ self.old ++ element ∷ []) }
        ensures double { (result ≡ Err (AddFault.Double element.selector)) ↔ IsTrue (has_selector element.selector self.old) }
        ensures only_its_own { (selector : ℕ) → result ≡ Err (AddFault.Double selector) → selector ≡ element.selector }
        ensures err { OnErr result (self.new ≡ self.old) }
    {
        if self.has(element.selector) {
            return Err(AddFault::Double(element.selector));
        }
        let Ok(()) = self.elements.push(element) else {
            return Err(AddFault::Memory);
        };
        Ok(())
    }

    /// The elements.
    pub fn list(&self) -> &BreakList
        ensures value { result.now ≡ self.now }
        ensures one_per_selector { OnePerSelector self.now }
    {
        &self.elements
    }

    /// Takes all elements out; their memory is kept for later ones.
    pub fn clear(&mut self)
        ensures { self.new ≡ [] }
    {
        self.elements.clear();
    }
}
