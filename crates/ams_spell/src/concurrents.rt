ghost use Rattle.std.specs.Prelude.{◌≡◌, ◌++◌, OnOk, map};
ghost use Rattle.ams_token.specs.declared.word.Word.TheVariants as w;
ghost use Rattle.ams_token.specs.declared.mark.Mark.TheVariants as m;
ghost use Rattle.expr_spell.specs.Kinds.{optional, joined, name};
ghost use Rattle.ams_spell.specs.Parts.{◌⊕◌, mark, word, present};
ghost use Rattle.ams_spell.specs.Declarations.{process_declaration_kinds};
ghost use Rattle.ams_spell.specs.Statements.{waveform_kinds, when_kinds, statement_kinds};
ghost use Rattle.ams_spell.specs.Concurrents as spec;

use crate::parts::{
    Spell, put_all, put_ending, put_mark, put_optional, put_present, put_separated, put_word,
};
use crate::statements::{put_break, put_choices, put_name_list, put_on, put_waveform, put_when};
use ams_token::{Mark, TokenKind, Word};
use ams_tree::{
    Association, Concurrent, ConcurrentStatement, ConditionalWaveform, Equation, Expr, Instance,
    Name, Process, SimultaneousAlternative, SimultaneousBranch, WaveformElement,
};
use sqlite_items::Items;
use std::alloc::AllocError;

impl Spell for Equation {
    ghost kinds = { spec.equation_kinds };

    fn spell(&self, out: &mut Items<TokenKind>) -> Result<(), AllocError> {
        self.left.spell(out)?;
        put_mark(out, Mark::DoubleEqual)?;
        self.right.spell(out)?;
        put_mark(out, Mark::Semicolon)
    }
}

impl Spell for ConditionalWaveform {
    ghost kinds = { spec.conditional_kinds };

    fn spell(&self, out: &mut Items<TokenKind>) -> Result<(), AllocError> {
        put_waveform(out, &self.elements)?;
        put_word(out, Word::When)?;
        self.condition.spell(out)?;
        put_word(out, Word::Else)
    }
}

fn put_formal(out: &mut Items<TokenKind>, formal: &Option<Name>) -> Result<(), AllocError>
    ensures { OnOk result (out.new ≡ out.old ++ optional spec.formal_kinds formal.now) }
{
    if let Some(formal) = formal {
        formal.spell(out)?;
        put_mark(out, Mark::Arrow)?;
    }
    Ok(())
}

impl Spell for Association {
    ghost kinds = { spec.association_kinds };

    fn spell(&self, out: &mut Items<TokenKind>) -> Result<(), AllocError> {
        match self {
            Association::Actual(formal, actual) => {
                put_formal(out, formal)?;
                actual.spell(out)
            }
            Association::Open(formal, _) => {
                put_formal(out, formal)?;
                put_word(out, Word::Open)
            }
        }
    }
}

fn put_map(out: &mut Items<TokenKind>, all: &Items<Association>) -> Result<(), AllocError>
    ensures { OnOk result (out.new ≡ out.old ++ spec.map_kinds all.now) }
{
    put_word(out, Word::Map)?;
    put_mark(out, Mark::LeftParen)?;
    put_separated(out, TokenKind::Mark(Mark::Comma), all.as_slice())?;
    put_mark(out, Mark::RightParen)
}

fn put_optional_map(
    out: &mut Items<TokenKind>,
    before: Word,
    all: &Option<Items<Association>>,
) -> Result<(), AllocError>
    ensures { OnOk result (out.new ≡ out.old ++ optional (λ all. word before ⊕ spec.map_kinds all) all.now) }
{
    if let Some(all) = all {
        put_word(out, before)?;
        put_map(out, all)?;
    }
    Ok(())
}

impl Spell for SimultaneousBranch {
    ghost kinds = { spec.simultaneous_branch_kinds };

    fn spell(&self, out: &mut Items<TokenKind>) -> Result<(), AllocError> {
        self.condition.spell(out)?;
        put_word(out, Word::Use)?;
        put_all(out, self.equations.as_slice())
    }
}

impl Spell for SimultaneousAlternative {
    ghost kinds = { spec.simultaneous_alternative_kinds };

    fn spell(&self, out: &mut Items<TokenKind>) -> Result<(), AllocError> {
        put_choices(out, &self.choices)?;
        put_all(out, self.equations.as_slice())
    }
}

fn put_sensitivity(
    out: &mut Items<TokenKind>,
    names: &Option<Items<Expr>>,
) -> Result<(), AllocError>
    ensures { OnOk result (out.new ≡ out.old ++ optional spec.sensitivity_kinds names.now) }
{
    if let Some(names) = names {
        put_mark(out, Mark::LeftParen)?;
        put_name_list(out, names.as_slice())?;
        put_mark(out, Mark::RightParen)?;
    }
    Ok(())
}

// up to "begin"
fn put_process_head(out: &mut Items<TokenKind>, process: &Process) -> Result<(), AllocError>
    ensures { OnOk result (out.new ≡ out.old ++ (word w.Process ⊕ optional spec.sensitivity_kinds process.now.sensitivity ⊕ present (word w.Is) process.now.word_is ⊕ joined (map process_declaration_kinds process.now.declarations) ⊕ word w.Begin)) }
{
    put_word(out, Word::Process)?;
    put_sensitivity(out, &process.sensitivity)?;
    put_present(out, Word::Is, process.word_is)?;
    put_all(out, process.declarations.as_slice())?;
    put_word(out, Word::Begin)
}

// from "end" on
fn put_process_end(out: &mut Items<TokenKind>, end: &Option<Name>) -> Result<(), AllocError>
    ensures { OnOk result (out.new ≡ out.old ++ (word w.End ⊕ word w.Process ⊕ optional name end.now ⊕ mark m.Semicolon)) }
{
    put_word(out, Word::End)?;
    put_word(out, Word::Process)?;
    put_optional(out, end)?;
    put_mark(out, Mark::Semicolon)
}

impl Spell for Process {
    ghost kinds = { spec.process_kinds };

    fn spell(&self, out: &mut Items<TokenKind>) -> Result<(), AllocError> {
        put_process_head(out, self)?;
        put_all(out, self.body.as_slice())?;
        put_process_end(out, &self.end)
    }
}

fn put_library(out: &mut Items<TokenKind>, library: &Option<Name>) -> Result<(), AllocError>
    ensures { OnOk result (out.new ≡ out.old ++ optional (λ x. name x ⊕ mark m.Point) library.now) }
{
    if let Some(library) = library {
        library.spell(out)?;
        put_mark(out, Mark::Point)?;
    }
    Ok(())
}

fn put_architecture(
    out: &mut Items<TokenKind>,
    architecture: &Option<Name>,
) -> Result<(), AllocError>
    ensures { OnOk result (out.new ≡ out.old ++ optional (λ x. mark m.LeftParen ⊕ name x ⊕ mark m.RightParen) architecture.now) }
{
    if let Some(architecture) = architecture {
        put_mark(out, Mark::LeftParen)?;
        architecture.spell(out)?;
        put_mark(out, Mark::RightParen)?;
    }
    Ok(())
}

fn put_maps(out: &mut Items<TokenKind>, instance: &Instance) -> Result<(), AllocError>
    ensures { OnOk result (out.new ≡ out.old ++ (optional (λ all. word w.Generic ⊕ spec.map_kinds all) instance.now.generics ⊕ optional (λ all. word w.Port ⊕ spec.map_kinds all) instance.now.ports ⊕ mark m.Semicolon)) }
{
    put_optional_map(out, Word::Generic, &instance.generics)?;
    put_optional_map(out, Word::Port, &instance.ports)?;
    put_mark(out, Mark::Semicolon)
}

impl Spell for Instance {
    ghost kinds = { spec.instance_kinds };

    fn spell(&self, out: &mut Items<TokenKind>) -> Result<(), AllocError> {
        put_word(out, Word::Entity)?;
        put_library(out, &self.library)?;
        self.entity.spell(out)?;
        put_architecture(out, &self.architecture)?;
        put_maps(out, self)
    }
}

fn put_waves(
    out: &mut Items<TokenKind>,
    waves: &Items<ConditionalWaveform>,
    wave: &Items<WaveformElement>,
    condition: &Option<Expr>,
) -> Result<(), AllocError>
    ensures { OnOk result (out.new ≡ out.old ++ (joined (map spec.conditional_kinds waves.now) ⊕ waveform_kinds wave.now ⊕ optional when_kinds condition.now ⊕ mark m.Semicolon)) }
{
    put_all(out, waves.as_slice())?;
    put_waveform(out, wave)?;
    put_when(out, condition)?;
    put_mark(out, Mark::Semicolon)
}

fn put_other(out: &mut Items<TokenKind>, other: &Option<Items<Equation>>) -> Result<(), AllocError>
    ensures { OnOk result (out.new ≡ out.old ++ optional (λ xs. word w.Else ⊕ spec.equations_kinds xs) other.now) }
{
    if let Some(equations) = other {
        put_word(out, Word::Else)?;
        put_all(out, equations.as_slice())?;
    }
    Ok(())
}

impl Spell for ConcurrentStatement {
    ghost kinds = { spec.concurrent_statement_kinds };

    fn spell(&self, out: &mut Items<TokenKind>) -> Result<(), AllocError> {
        match self {
            ConcurrentStatement::Process(process) => process.spell(out),
            ConcurrentStatement::Assign(target, delay, waves, wave, condition) => {
                target.spell(out)?;
                put_mark(out, Mark::LessEqual)?;
                put_optional(out, delay)?;
                put_waves(out, waves, wave, condition)
            }
            ConcurrentStatement::Assert(assertion) => assertion.spell(out),
            ConcurrentStatement::Break(_, elements, on, condition) => {
                put_word(out, Word::Break)?;
                put_break(out, elements)?;
                put_on(out, on)?;
                put_when(out, condition)?;
                put_mark(out, Mark::Semicolon)
            }
            ConcurrentStatement::Equation(equation) => equation.spell(out),
            ConcurrentStatement::Instance(instance) => instance.spell(out),
            ConcurrentStatement::If(_, branches, other) => {
                put_word(out, Word::If)?;
                put_separated(out, TokenKind::Word(Word::Elsif), branches.as_slice())?;
                put_other(out, other)?;
                put_ending(out, Word::Use)
            }
            ConcurrentStatement::Case(_, selector, alternatives) => {
                put_word(out, Word::Case)?;
                selector.spell(out)?;
                put_word(out, Word::Use)?;
                put_all(out, alternatives.as_slice())?;
                put_ending(out, Word::Case)
            }
        }
    }
}

fn put_label(out: &mut Items<TokenKind>, label: &Option<Name>) -> Result<(), AllocError>
    ensures { OnOk result (out.new ≡ out.old ++ optional spec.label_kinds label.now) }
{
    if let Some(label) = label {
        label.spell(out)?;
        put_mark(out, Mark::Colon)?;
    }
    Ok(())
}

impl Spell for Concurrent {
    ghost kinds = { spec.concurrent_kinds };

    fn spell(&self, out: &mut Items<TokenKind>) -> Result<(), AllocError> {
        put_label(out, &self.label)?;
        self.statement.spell(out)
    }
}
