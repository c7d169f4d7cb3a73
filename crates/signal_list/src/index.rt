//! Which signals there are.
ghost use Rattle.std.specs.Prelude.{◌≡◌, ◌||◌, nat_eq, false, OnErr, OnOk};
ghost use Rattle.flat_expr.specs.Expr.{same_signal};
ghost use Rattle.flat_expr.specs.declared.expr.SignalName.{SignalName as Signal};
ghost use Rattle.indexmap.specs.IndexSet.{insert_key};
ghost use Rattle.signal_list.specs.Index.{holds};

use flat_expr::SignalName;
use indexmap::IndexSet;
use std::alloc::{AllocError, Global};

/// A set of signals.
#[derive(Drop)]
pub struct SignalIndex {
    signals: IndexSet<u32>,
    thresholds: IndexSet<u32>,
    has_domain: bool,
}

fn add_number(numbers: &mut IndexSet<u32>, number: u32) -> Result<(), AllocError>
    ensures ok { OnOk result (numbers.new.keys ≡ insert_key nat_eq numbers.old.keys number) }
    ensures err { OnErr result (numbers.new.keys ≡ numbers.old.keys) }
{
    match numbers.insert(number) {
        Ok(_) => Ok(()),
        Err(_) => Err(AllocError),
    }
}

impl SignalIndex {
    pub fn new(alloc: Global) -> SignalIndex
        ensures { (signal : Signal) → holds result signal ≡ false }
    {
        SignalIndex {
            signals: IndexSet::new(alloc),
            thresholds: IndexSet::new(alloc),
            has_domain: false,
        }
    }

    pub fn contains(&self, signal: SignalName) -> bool
        ensures { result ≡ holds self.now signal }
    {
        match signal {
            SignalName::Signal(number) => self.signals.contains(&number),
            SignalName::Threshold(number) => self.thresholds.contains(&number),
            SignalName::Domain => self.has_domain,
        }
    }

    /// Puts a signal among the others.
    pub fn insert(&mut self, signal: SignalName) -> Result<(), AllocError>
        ensures ok { OnOk result ((other : Signal) → holds self.new other ≡ (same_signal other signal || holds self.old other)) }
        ensures err { OnErr result ((other : Signal) → holds self.new other ≡ holds self.old other) }
    {
        match signal {
            SignalName::Signal(number) => add_number(&mut self.signals, number),
            SignalName::Threshold(number) => add_number(&mut self.thresholds, number),
            SignalName::Domain => {
                self.has_domain = true;
                Ok(())
            }
        }
    }
}
