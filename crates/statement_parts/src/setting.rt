//! What statements are read with.
ghost use Rattle.std.specs.Prelude.{◌≡◌};

use ams_token::Names;
use flat_design::Enumeration;
use std::marker::Model;

/// What the statements of an architecture are read with: the texts of names, the enumeration types, and the names whose
/// `'dot` stands in an equation.
#[derive(Drop)]
pub struct Setting<'a> {
    names: &'a Names,
    enumerations: &'a [Enumeration],
    selectors: &'a [u32],
}

impl<'a> Model for Setting<'a> {
    ghost use Rattle.unit_meaning.specs.Settings.{Setting as Meant};

    ghost Value = { Meant };

    ghost view = { λ s. record { texts = s.names.now; enumerations = s.enumerations.now; selectors = s.selectors.now } };
}

impl<'a> Setting<'a> {
    pub fn new(
        names: &'a Names,
        enumerations: &'a [Enumeration],
        selectors: &'a [u32],
    ) -> Setting<'a>
        ensures { result ≡ record { texts = names.now; enumerations = enumerations.now; selectors = selectors.now } }
    {
        Setting {
            names,
            enumerations,
            selectors,
        }
    }

    pub fn names(&self) -> &Names
        ensures { result.now ≡ self.now.texts }
    {
        self.names
    }

    pub fn enumerations(&self) -> &[Enumeration]
        ensures { result.now ≡ self.now.enumerations }
    {
        self.enumerations
    }

    pub fn selectors(&self) -> &[u32]
        ensures { result.now ≡ self.now.selectors }
    {
        self.selectors
    }
}
