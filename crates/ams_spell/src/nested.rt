//! Statements in statements.

ghost use Rattle.std.specs.Prelude.{◌≡◌, ◌++◌, OnOk, map};
ghost use Rattle.ams_token.specs.declared.token.TokenKind.TheVariants as kind;
ghost use Rattle.ams_token.specs.declared.word.Word.TheVariants as w;
ghost use Rattle.expr_spell.specs.Kinds.{joined, separated};
ghost use Rattle.ams_spell.specs.Parts.{◌⊕◌, word};
ghost use Rattle.ams_spell.specs.Statements as spec;

use crate::parts::{Spell, put_ending, put_word};
use crate::statements::{
    put_break_statement, put_choices, put_jump, put_null, put_signal, put_variable, put_wait,
};
use ams_token::{TokenKind, Word};
use ams_tree::{Alternative, Branch, Seq};
use sqlite_items::Items;
use std::alloc::AllocError;

impl Spell for Seq {
    ghost kinds = { spec.statement_kinds };

    fn spell(&self, out: &mut Items<TokenKind>) -> Result<(), AllocError> {
        put_statement(out, self)
    }
}

#[cycle(statements)]
fn put_statement(out: &mut Items<TokenKind>, statement: &Seq) -> Result<(), AllocError>
    ensures { OnOk result (out.new ≡ out.old ++ spec.statement_kinds statement.now) }
{
    match statement {
        Seq::Signal(target, delay, wave) => put_signal(out, target, delay, wave),
        Seq::Variable(target, value) => put_variable(out, target, value),
        Seq::If(_, branches, None) => {
            put_branches(out, branches.as_slice())?;
            put_ending(out, Word::If)
        }
        Seq::If(_, branches, Some(body)) => {
            put_branches(out, branches.as_slice())?;
            put_word(out, Word::Else)?;
            put_body(out, body.as_slice())?;
            put_ending(out, Word::If)
        }
        Seq::Case(_, selector, alternatives) => {
            put_word(out, Word::Case)?;
            selector.spell(out)?;
            put_word(out, Word::Is)?;
            put_alternatives(out, alternatives.as_slice())?;
            put_ending(out, Word::Case)
        }
        Seq::Loop(_, iteration, body) => {
            iteration.spell(out)?;
            put_word(out, Word::Loop)?;
            put_body(out, body.as_slice())?;
            put_ending(out, Word::Loop)
        }
        Seq::Exit(_, condition) => put_jump(out, Word::Exit, condition),
        Seq::Next(_, condition) => put_jump(out, Word::Next, condition),
        Seq::Wait(_, on, until, time) => put_wait(out, on, until, time),
        Seq::Assert(assertion) => assertion.spell(out),
        Seq::Report(_, report) => report.spell(out),
        Seq::Break(_, elements, condition) => put_break_statement(out, elements, condition),
        Seq::Null(_) => put_null(out),
    }
}

#[cycle(statements)]
fn put_body(out: &mut Items<TokenKind>, body: &[Seq]) -> Result<(), AllocError>
    ensures { OnOk result (out.new ≡ out.old ++ joined (map spec.statement_kinds body.now)) }
{
    for statement in body {
        put_statement(out, statement)?;
    }
    Ok(())
}

#[cycle(statements)]
fn put_branch(out: &mut Items<TokenKind>, branch: &Branch) -> Result<(), AllocError>
    ensures { OnOk result (out.new ≡ out.old ++ spec.branch_kinds branch.now) }
{
    branch.condition.spell(out)?;
    put_word(out, Word::Then)?;
    put_body(out, branch.body.as_slice())
}

#[cycle(statements)]
fn put_branches(out: &mut Items<TokenKind>, branches: &[Branch]) -> Result<(), AllocError>
    ensures { OnOk result (out.new ≡ out.old ++ (word w.If ⊕ separated (kind.Word w.Elsif) (map spec.branch_kinds branches.now))) }
{
    put_word(out, Word::If)?;
    let [first, more @ ..] = branches else {
        return Ok(());
    };
    put_branch(out, first)?;
    for branch in more {
        put_word(out, Word::Elsif)?;
        put_branch(out, branch)?;
    }
    Ok(())
}

#[cycle(statements)]
fn put_alternative(out: &mut Items<TokenKind>, alternative: &Alternative) -> Result<(), AllocError>
    ensures { OnOk result (out.new ≡ out.old ++ spec.alternative_kinds alternative.now) }
{
    put_choices(out, &alternative.choices)?;
    put_body(out, alternative.body.as_slice())
}

#[cycle(statements)]
fn put_alternatives(
    out: &mut Items<TokenKind>,
    alternatives: &[Alternative],
) -> Result<(), AllocError>
    ensures { OnOk result (out.new ≡ out.old ++ joined (map spec.alternative_kinds alternatives.now)) }
{
    for alternative in alternatives {
        put_alternative(out, alternative)?;
    }
    Ok(())
}
