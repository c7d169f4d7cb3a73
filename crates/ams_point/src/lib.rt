//! Points: a list of fixed-point numbers, one for each unknown of a system.
#![tactic(auto)]

ghost use Rattle.std.specs.Prelude.{◌≡◌, ◌<◌, ◌↔◌, length, pos, replicate, slice_index_or, slice_set, [], IfOk, IsTrue};
ghost use Rattle.std.specs.Borrow.{sem};
ghost use Rattle.ams_point.specs.Lending.{LendsValues};

use fix_core::Fix;
use std::alloc::{AllocError, Global};
use std::marker::Model;

/// A list of numbers whose length never changes. Contracts see it as the list of its units.
#[derive(Drop)]
pub struct Point {
    values: Vec<Fix>,
}

impl Model for Point {
    ghost use Rattle.std.specs.Prelude.{ℤ, List};

    ghost Value = { List ℤ };

    ghost view = { λ a. a.values.items };
}

impl Point {
    /// So many zeros.
    pub fn new(alloc: Global, n: usize) -> Result<Point, AllocError>
        ensures { IfOk result (λ point. point ≡ replicate n (pos 0)) }
    {
        let zero = Fix::exactly(0);
        let values = vec![in alloc; zero; n]?;
        Ok(Point { values })
    }

    /// How many values there are.
    pub fn len(&self) -> usize
        ensures { result ≡ length self.now }
    {
        self.values.len()
    }

    /// There is no value.
    pub fn is_empty(&self) -> bool
        ensures { IsTrue result ↔ (self.now ≡ []) }
    {
        self.values.is_empty()
    }

    /// The value of a place.
    pub fn get(&self, i: usize) -> Fix
        requires { i < length self.now }
        ensures { result ≡ slice_index_or self.now i (pos 0) }
    {
        self.values[i]
    }

    /// Writes the value of a place.
    pub fn set(&mut self, i: usize, v: Fix)
        requires { i < length self.old }
        ensures { self.new ≡ slice_set self.old i v }
    {
        self.values[i] = v;
    }

    /// Takes over the other point's values, without memory.
    pub fn copy_from(&mut self, other: &Point)
        requires { length self.old ≡ length other.now }
        ensures { self.new ≡ other.now }
    {
        self.copy_from_slice(other.values.as_slice());
    }

    /// Takes over the values of a slice, without memory.
    pub fn copy_from_slice(&mut self, values: &[Fix])
        requires { length self.old ≡ length values.now }
        ensures { self.new ≡ values.now }
    {
        self.values.as_mut_slice().copy_from_slice(values);
    }

    /// The values.
    pub fn as_slice(&self) -> &[Fix]
        ensures { result.now ≡ self.now }
    {
        self.values.as_slice()
    }

    /// The values, to be written; their number stays.
    pub fn as_mut_slice(&mut self) -> &mut [Fix]
        ensures* writes_back { sem 𝓛 (LendsValues self.entry result) }
        ensures value { result.now ≡ self.old }
    {
        self.values.as_mut_slice()
    }

    /// The two points have the same values in the same order.
    pub fn is_same(&self, other: &Point) -> bool
        ensures { IsTrue result ↔ (self.now ≡ other.now) }
    {
        self.values.as_slice() == other.values.as_slice()
    }
}
