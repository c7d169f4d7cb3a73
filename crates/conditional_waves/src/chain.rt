//! The statement that an assignment with conditions stands for (IEEE 1076, 11.6).
ghost use Rattle.std.specs.Prelude.{◌≡◌, [], ◌∷◌, ◌++◌, IfOk, OnOk};
ghost use Rattle.flat_expr.specs.declared.expr.SignalName.{SignalName as Signal};
ghost use Rattle.flat_expr.specs.declared.statement.Statement.TheVariants as statement;
ghost use Rattle.std.specs.List.{flat_map, fold};
ghost use Rattle.unit_meaning.specs.Bare as bare;
ghost use Rattle.unit_meaning.specs.Processes as spec;
ghost use Rattle.conditional_waves.specs.Waves.{reads_of};

use crate::wave::Wave;
use crate::waves::Waves;
use flat_expr::{Branch, FlatExpr, SignalName, Statement};
use held_value::Held;
use signal_list::SignalList;
use sqlite_items::Items;
use std::alloc::{AllocError, Global};

fn single(alloc: Global, statement: Statement) -> Result<Items<Statement>, AllocError>
    ensures { IfOk result (λ all. all ≡ statement ∷ []) }
{
    let mut all = Items::new(alloc);
    all.push(statement)?;
    Ok(all)
}

fn branch(alloc: Global, condition: FlatExpr, assigns: Statement) -> Result<Branch, AllocError>
    ensures { IfOk result (λ made. made ≡ record { condition = condition; body = assigns ∷ [] }) }
{
    let condition = Held::new(condition);
    let body = single(alloc, assigns)?;
    Ok(Branch {
        condition: condition.into_inner(),
        body,
    })
}

fn add_branch(
    alloc: Global,
    condition: FlatExpr,
    assigns: Statement,
    branches: &mut Items<Branch>,
) -> Result<(), AllocError>
    ensures { OnOk result (branches.new ≡ branches.old ++ record { condition = condition; body = assigns ∷ [] } ∷ []) }
{
    let branch = branch(alloc, condition, assigns)?;
    branches.push(branch)
}

/// An if statement whose branches are the waveforms with conditions; one without is its else.
fn choosing(alloc: Global, waves: Waves) -> Result<Statement, AllocError>
    ensures { IfOk result (λ made. made ≡ spec.choosing [] waves) }
{
    let mut branches = Items::new(alloc);
    for wave in waves.into_vec() {
        let (assigns, when) = wave.into_parts();
        match when {
            Some(condition) => add_branch(alloc, condition, assigns, &mut branches)?,
            None => return Ok(Statement::If(branches, single(alloc, assigns)?)),
        }
    }
    Ok(Statement::If(branches, Items::new(alloc)))
}

/// The statement of all waveforms: a single one without a condition is just assigned.
pub fn equivalent(alloc: Global, first: Waves, last: Wave) -> Result<Statement, AllocError>
    ensures { IfOk result (λ made. made ≡ spec.equivalent (first ++ last ∷ [])) }
{
    if first.is_empty() && !last.has_condition() {
        let (assigns, _) = last.into_parts();
        return Ok(assigns);
    }
    choosing(alloc, first.with(last)?)
}

fn add_reads(waves: &[Wave], all: &mut SignalList) -> Result<(), AllocError>
    ensures { OnOk result (all.new ≡ fold bare.with_signal all.old (flat_map reads_of waves.now)) }
{
    for wave in waves {
        all.add_all(wave.reads())?;
    }
    Ok(())
}

/// The signals of all waveforms, each once.
pub fn signals(alloc: Global, first: &Waves, last: &Wave) -> Result<Items<SignalName>, AllocError>
    ensures { IfOk result (λ all. all ≡ bare.once (flat_map reads_of (first.now ++ last.now ∷ []))) }
{
    let mut all = SignalList::new(alloc);
    add_reads(first.as_slice(), &mut all)?;
    all.add_all(last.reads())?;
    Ok(all.into_items())
}
