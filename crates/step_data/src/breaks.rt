ghost use Rattle.std.specs.Prelude.{◌≡◌, ◌<◌, ◌++◌, ◌∷◌, [], length, take, slice_get, slice_set, OnOk, OnErr, Some};

use fix_core::Fix;
use std::alloc::{AllocError, Global};
use std::marker::Model;

/// One executed element of a break: in place of the selector's augmentation equation the quantity has the value.
#[derive(Clone, Copy, PartialEq, Eq)]
pub struct Element {
    /// The unknown whose augmentation equation is replaced.
    pub selector: u32,
    pub quantity: u32,
    pub value: Fix,
}

/// A threshold `q'above(level)` with the value that it has (IEEE 1076.1, attribute 'ABOVE).
#[derive(Clone, Copy, PartialEq, Eq)]
pub struct ThresholdState {
    pub unknown: u32,
    pub level: Fix,
    pub on: bool,
}

/// Break elements in the order in which they were executed.
#[derive(Drop)]
pub struct BreakList {
    elements: Vec<Element>,
}

impl Model for BreakList {
    ghost use Rattle.std.specs.Prelude.{List};
    ghost use Rattle.step_data.specs.declared.breaks.Element.{Element};

    ghost Value = { List Element };

    ghost view = { λ a. a.elements.items };
}

impl BreakList {
    /// An empty list.
    pub fn new(alloc: Global) -> BreakList
        ensures { result ≡ [] }
    {
        BreakList {
            elements: Vec::new(alloc),
        }
    }

    /// Adds an element at the end; where no memory is found the list stays as it is.
    pub fn push(&mut self, element: Element) -> Result<(), AllocError>
        ensures ok { OnOk result (self.new ≡ self.old ++ element ∷ []) }
        ensures err { OnErr result (self.new ≡ self.old) }
    {
        self.elements.push(element)?;
        Ok(())
    }

    pub fn len(&self) -> usize
        ensures { result ≡ length self.now }
    {
        self.elements.len()
    }

    /// The element of a place.
    pub fn get(&self, i: usize) -> Element
        requires { i < length self.now }
        ensures { slice_get self.now i ≡ Some result }
    {
        self.elements[i]
    }

    /// Replaces the element of a place.
    pub fn set(&mut self, i: usize, element: Element)
        requires { i < length self.old }
        ensures { self.new ≡ slice_set self.old i element }
    {
        self.elements[i] = element;
    }

    /// Takes all elements out; their memory is kept for later ones.
    pub fn clear(&mut self)
        ensures { self.new ≡ [] }
    {
        self.elements.clear();
    }

    /// The elements.
    pub fn as_slice(&self) -> &[Element]
        ensures { result.now ≡ self.now }
    {
        self.elements.as_slice()
    }
}

/// The thresholds by their number.
#[derive(Drop)]
pub struct ThresholdList {
    thresholds: Vec<ThresholdState>,
}

impl Model for ThresholdList {
    ghost use Rattle.std.specs.Prelude.{List};
    ghost use Rattle.step_data.specs.declared.breaks.ThresholdState.{ThresholdState};

    ghost Value = { List ThresholdState };

    ghost view = { λ a. a.thresholds.items };
}

impl ThresholdList {
    /// An empty list.
    pub fn new(alloc: Global) -> ThresholdList
        ensures { result ≡ [] }
    {
        ThresholdList {
            thresholds: Vec::new(alloc),
        }
    }

    /// Adds a threshold at the end; where no memory is found the list stays as it is.
    pub fn push(&mut self, threshold: ThresholdState) -> Result<(), AllocError>
        ensures ok { OnOk result (self.new ≡ self.old ++ threshold ∷ []) }
        ensures err { OnErr result (self.new ≡ self.old) }
    {
        self.thresholds.push(threshold)?;
        Ok(())
    }

    pub fn len(&self) -> usize
        ensures { result ≡ length self.now }
    {
        self.thresholds.len()
    }

    /// The threshold of a number.
    pub fn get(&self, k: usize) -> ThresholdState
        requires { k < length self.now }
        ensures { slice_get self.now k ≡ Some result }
    {
        self.thresholds[k]
    }

    /// Replaces the threshold of a number.
    pub fn set(&mut self, k: usize, threshold: ThresholdState)
        requires { k < length self.old }
        ensures { self.new ≡ slice_set self.old k threshold }
    {
        self.thresholds[k] = threshold;
    }

    /// The thresholds.
    pub fn as_slice(&self) -> &[ThresholdState]
        ensures { result.now ≡ self.now }
    {
        self.thresholds.as_slice()
    }
}
