use ams_value::Val;
use fix_core::Tick;

/// A transaction of a driver: it has the value from this time on (IEEE 1076, drivers).
#[derive(Clone, Copy, PartialEq, Eq)]
pub struct Trans {
    pub at: Tick,
    pub value: Val,
}

/// What fills the places of a list that hold no transaction.
impl Default for Trans {
    fn default() -> Trans {
        Trans {
            at: Tick::new(0).unwrap(),
            value: Val::Bool(false),
        }
    }
}
