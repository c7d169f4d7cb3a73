//! A value in the hand of a function that may still fail.
//!
//! A function that returns early drops what it has made so far, and a check follows such a drop through every variant of the
//! value's type, at each place where the function may return. What is held is dropped by one call instead.
#![tactic(auto)]

ghost use Rattle.std.specs.Prelude.{◌≡◌};

use std::marker::Model;

/// A value that contracts see as itself.
pub struct Held<T> {
    inner: T,
}

impl<T> Model for Held<T> {
    ghost Value = { T };

    ghost coded = { T.code };

    ghost view = { λ h. h.inner };
}

impl<T: Drop> Drop for Held<T> {
    fn drop(self) {
        let Held { inner: _ } = self;
    }
}

impl<T> Held<T> {
    pub fn new(inner: T) -> Held<T>
        ensures { result ≡ inner }
    {
        Held { inner }
    }

    pub fn into_inner(self) -> T
        ensures { result ≡ self }
    {
        let Held { inner } = self;
        inner
    }
}
