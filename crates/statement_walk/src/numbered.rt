//! Statements that are no instances (IEEE 1076, 14.6).
ghost use Rattle.std.specs.Prelude.{◌≡◌, OnOk};
ghost use Rattle.unit_meaning.specs.Concurrent as concurrents;
ghost use Rattle.unit_meaning.specs.Walk as spec;
ghost use Rattle.expr_types.specs.Known.{IsSoundScope};

use ams_tree::{ConcurrentStatement, Name};
use concurrent_types::concurrent;
use name_scope::Scope;
use statement_parts::Setting;
use std::alloc::{AllocError, Global};
use unit_meaning::Site;
use walk_steps::{add_statement, statement_notes};

/// Puts what a statement makes behind the flat design so far. Its dots and thresholds get their numbers by their first
/// appearance.
pub fn number_statement(
    alloc: Global,
    setting: &Setting<'_>,
    scope: &mut Scope,
    label: &Option<Name>,
    statement: &ConcurrentStatement,
    site: &mut Site,
) -> Result<(), AllocError>
    requires { IsSoundScope scope.old }
    ensures ok { OnOk result (site.new ≡ spec.with_statement (concurrents.concurrent setting.now scope.old label.now statement.now (spec.numbering site.old)) site.old) }
    ensures scope { OnOk result (scope.new ≡ scope.old) }
{
    let mut notes = statement_notes(alloc, site);
    match concurrent(alloc, setting, scope, label, statement, &mut notes) {
        Ok(made) => add_statement(notes, made, site),
        Err(error) => {
            drop(notes);
            Err(error)
        }
    }
}
