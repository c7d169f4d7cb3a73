//! A list of signals with an index.
ghost use Rattle.std.specs.Prelude.{◌≡◌, [], IfOk, OnOk};
ghost use Rattle.std.specs.List.{fold};
ghost use Rattle.unit_meaning.specs.Bare as spec;
ghost use Rattle.unit_meaning.specs.Bare.{with_signal};

use crate::index::SignalIndex;
use flat_expr::SignalName;
use sqlite_items::Items;
use std::alloc::{AllocError, Global};
use std::marker::Model;

/// A list of signals, each once. Contracts see it as the list.
#[derive(Drop)]
pub struct SignalList {
    all: Items<SignalName>,
    index: SignalIndex,
}

impl Model for SignalList {
    ghost use Rattle.std.specs.Prelude.{List};
    ghost use Rattle.flat_expr.specs.declared.expr.SignalName.{SignalName};
    ghost use Rattle.signal_list.specs.Index.{IsIndexOf};

    ghost Value = { List SignalName };

    ghost view = { λ l. l.all };

    ghost invariant = { λ l. IsIndexOf l.all l.index };
}

impl SignalList {
    pub fn new(alloc: Global) -> SignalList
        ensures { result ≡ [] }
    {
        SignalList {
            all: Items::new(alloc),
            index: SignalIndex::new(alloc),
        }
    }

    /// Puts a signal behind the others, where it isn't among them.
    pub fn add(&mut self, signal: SignalName) -> Result<(), AllocError>
        ensures { OnOk result (self.new ≡ with_signal self.old signal) }
    {
        if self.index.contains(signal) {
            return Ok(());
        }
        self.all.push(signal)?;
        match self.index.insert(signal) {
            Ok(()) => Ok(()),
            Err(error) => {
                self.all.pop();
                Err(error)
            }
        }
    }

    /// Puts each of these behind the others, where it isn't among them.
    pub fn add_all(&mut self, signals: &[SignalName]) -> Result<(), AllocError>
        ensures { OnOk result (self.new ≡ fold with_signal self.old signals.now) }
    {
        for signal in signals {
            self.add(*signal)?;
        }
        Ok(())
    }

    pub fn into_items(self) -> Items<SignalName>
        ensures { result ≡ self }
    {
        let SignalList { all, index: _ } = self;
        all
    }
}

/// Each of these signals once, in the order of their first appearance.
pub fn once(alloc: Global, signals: &[SignalName]) -> Result<Items<SignalName>, AllocError>
    ensures { IfOk result (λ all. all ≡ spec.once signals.now) }
{
    let mut all = SignalList::new(alloc);
    all.add_all(signals)?;
    Ok(all.into_items())
}
