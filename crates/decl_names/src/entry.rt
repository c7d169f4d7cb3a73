//! What a declaration declares its names as.
use ams_value::Val;
use elab_meaning::Valued;
use fix_core::Fix;
use flat_design::QuantityKind;
use name_scope::{Access, QuantityClass, Subtype};

/// What each name of a declaration is declared as.
#[derive(Clone, Copy)]
pub enum Entry {
    Signal(Access, Valued),
    /// A constant, with its value where it is known here.
    Constant(Subtype, Option<Val>),
    /// A terminal of the nature of this number.
    Node(u32),
    /// A quantity with its initial value.
    Quantity(QuantityKind, QuantityClass, Fix),
    Type(Subtype),
}
