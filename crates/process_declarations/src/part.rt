//! What is read of the declarations of a process.
ghost use Rattle.std.specs.Prelude.{◌≡◌, true, OnOk};
ghost use Rattle.elab_meaning.specs.Parts.{closed, judged};
ghost use Rattle.unit_meaning.specs.Cases.{beside};
ghost use Rattle.unit_meaning.specs.Processes as spec;
ghost use Rattle.unit_meaning.specs.Sequential.{with_notes};
ghost use Rattle.unit_meaning.specs.Settings.{sealed};
ghost use Rattle.process_declarations.specs.Parts.{fine_part};

use ams_token::Place;
use elab_meaning::{Cause, Notes, Part, Valued};
use expr_types::note;
use sqlite_items::Items;
use std::alloc::{AllocError, Global};
use unit_meaning::Draft;

/// What is read of the declarative part of a process (IEEE 1076, 11.3): the draft with the variables so far, and whether
/// each declaration so far keeps the rules.
#[derive(Drop)]
pub struct DeclarativePart {
    pub draft: Draft,
    pub is_fine: bool,
}

impl DeclarativePart {
    /// Nothing is declared yet; these notes were made before.
    pub fn new(alloc: Global, notes: Notes) -> DeclarativePart
        ensures { result ≡ record { draft = spec.no_draft notes; is_fine = true } }
    {
        DeclarativePart {
            draft: Draft {
                notes,
                variables: Items::new(alloc),
                drivers: Items::new(alloc),
                waits: Items::new(alloc),
            },
            is_fine: true,
        }
    }

    /// Adds a declaration at this place, which is noted where it breaks a rule itself.
    #[tactic(auto, using(crate::proofs::Fine::beside_kept, crate::proofs::Fine::beside_hidden))]
    pub fn add(&mut self, place: Place, part: &Part<Valued>) -> Result<(), AllocError>
        ensures draft { OnOk result (self.new.draft ≡ with_notes (closed place part.now self.old.draft.notes) self.old.draft) }
        ensures fine { OnOk result (fine_part self.new.is_fine ≡ beside (fine_part self.old.is_fine) (sealed (judged spec.fine_of part.now))) }
    {
        match part {
            Part::Kept(_) => Ok(()),
            Part::Wrong => {
                self.is_fine = false;
                note(&mut self.draft.notes, place, Cause::WrongType)
            }
            Part::Hidden => {
                self.is_fine = false;
                Ok(())
            }
        }
    }
}
