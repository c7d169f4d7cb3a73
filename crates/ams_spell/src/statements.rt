ghost use Rattle.std.specs.Prelude.{◌≡◌, ◌++◌, OnOk};
ghost use Rattle.ams_token.specs.declared.word.Word.TheVariants as w;
ghost use Rattle.ams_token.specs.declared.mark.Mark.TheVariants as m;
ghost use Rattle.expr_spell.specs.Kinds.{optional, name};
ghost use Rattle.expr_spell.specs.Spelling.{spelling};
ghost use Rattle.ams_spell.specs.Parts.{◌⊕◌, mark, word};
ghost use Rattle.ams_spell.specs.Statements as spec;

use crate::parts::{Spell, put_behind, put_mark, put_optional, put_separated, put_word};
use ams_token::{Mark, TokenKind, Word};
use ams_tree::{
    Assertion, BreakElement, Choice, DelayMechanism, Expr, Iteration, Name, Report, WaveformElement,
};
use sqlite_items::Items;
use std::alloc::AllocError;

impl Spell for DelayMechanism {
    ghost kinds = { spec.delay_kinds };

    fn spell(&self, out: &mut Items<TokenKind>) -> Result<(), AllocError> {
        match self {
            DelayMechanism::Transport(_) => put_word(out, Word::Transport),
            DelayMechanism::Reject(_, limit) => {
                put_word(out, Word::Reject)?;
                limit.spell(out)?;
                put_word(out, Word::Inertial)
            }
            DelayMechanism::Inertial(_) => put_word(out, Word::Inertial),
        }
    }
}

impl Spell for WaveformElement {
    ghost kinds = { spec.element_kinds };

    fn spell(&self, out: &mut Items<TokenKind>) -> Result<(), AllocError> {
        self.value.spell(out)?;
        put_behind(out, TokenKind::Word(Word::After), &self.after)
    }
}

impl Spell for Assertion {
    ghost kinds = { spec.assertion_kinds };

    fn spell(&self, out: &mut Items<TokenKind>) -> Result<(), AllocError> {
        put_word(out, Word::Assert)?;
        self.condition.spell(out)?;
        put_behind(out, TokenKind::Word(Word::Report), &self.text)?;
        put_behind(out, TokenKind::Word(Word::Severity), &self.severity)?;
        put_mark(out, Mark::Semicolon)
    }
}

impl Spell for Report {
    ghost kinds = { spec.report_kinds };

    fn spell(&self, out: &mut Items<TokenKind>) -> Result<(), AllocError> {
        put_word(out, Word::Report)?;
        self.text.spell(out)?;
        put_behind(out, TokenKind::Word(Word::Severity), &self.severity)?;
        put_mark(out, Mark::Semicolon)
    }
}

fn put_selector(out: &mut Items<TokenKind>, selector: &Option<Expr>) -> Result<(), AllocError>
    ensures { OnOk result (out.new ≡ out.old ++ optional (λ x. word w.For ⊕ spelling x ⊕ word w.Use) selector.now) }
{
    if let Some(selector) = selector {
        put_word(out, Word::For)?;
        selector.spell(out)?;
        put_word(out, Word::Use)?;
    }
    Ok(())
}

impl Spell for BreakElement {
    ghost kinds = { spec.break_element_kinds };

    fn spell(&self, out: &mut Items<TokenKind>) -> Result<(), AllocError> {
        put_selector(out, &self.selector)?;
        self.quantity.spell(out)?;
        put_mark(out, Mark::Arrow)?;
        self.value.spell(out)
    }
}

impl Spell for Choice {
    ghost kinds = { spec.choice_kinds };

    fn spell(&self, out: &mut Items<TokenKind>) -> Result<(), AllocError> {
        match self {
            Choice::Value(value) => value.spell(out),
            Choice::Others(_) => put_word(out, Word::Others),
        }
    }
}

impl Spell for Iteration {
    ghost kinds = { spec.iteration_kinds };

    fn spell(&self, out: &mut Items<TokenKind>) -> Result<(), AllocError> {
        match self {
            Iteration::Endless => Ok(()),
            Iteration::While(condition) => {
                put_word(out, Word::While)?;
                condition.spell(out)
            }
            Iteration::For(parameter, range) => {
                put_word(out, Word::For)?;
                parameter.spell(out)?;
                put_word(out, Word::In)?;
                range.spell(out)
            }
        }
    }
}

pub fn put_waveform(
    out: &mut Items<TokenKind>,
    elements: &Items<WaveformElement>,
) -> Result<(), AllocError>
    ensures { OnOk result (out.new ≡ out.old ++ spec.waveform_kinds elements.now) }
{
    put_separated(out, TokenKind::Mark(Mark::Comma), elements.as_slice())
}

pub fn put_break(
    out: &mut Items<TokenKind>,
    elements: &Items<BreakElement>,
) -> Result<(), AllocError>
    ensures { OnOk result (out.new ≡ out.old ++ spec.break_kinds elements.now) }
{
    put_separated(out, TokenKind::Mark(Mark::Comma), elements.as_slice())
}

pub fn put_choices(out: &mut Items<TokenKind>, choices: &Items<Choice>) -> Result<(), AllocError>
    ensures { OnOk result (out.new ≡ out.old ++ spec.choices_kinds choices.now) }
{
    put_word(out, Word::When)?;
    put_separated(out, TokenKind::Mark(Mark::Bar), choices.as_slice())?;
    put_mark(out, Mark::Arrow)
}

/// Names with commas between them.
pub fn put_name_list(out: &mut Items<TokenKind>, names: &[Expr]) -> Result<(), AllocError>
    ensures { OnOk result (out.new ≡ out.old ++ spec.name_list_kinds names.now) }
{
    put_separated(out, TokenKind::Mark(Mark::Comma), names)
}

/// The names behind `on`, where there are any.
pub fn put_on(out: &mut Items<TokenKind>, names: &Items<Expr>) -> Result<(), AllocError>
    ensures { OnOk result (out.new ≡ out.old ++ spec.on_kinds names.now) }
{
    let [_, ..] = names.as_slice() else {
        return Ok(());
    };
    put_word(out, Word::On)?;
    put_name_list(out, names.as_slice())
}

/// The condition behind `when`, where there is one.
pub fn put_when(out: &mut Items<TokenKind>, condition: &Option<Expr>) -> Result<(), AllocError>
    ensures { OnOk result (out.new ≡ out.old ++ optional spec.when_kinds condition.now) }
{
    put_behind(out, TokenKind::Word(Word::When), condition)
}

pub fn put_signal(
    out: &mut Items<TokenKind>,
    target: &Name,
    delay: &Option<DelayMechanism>,
    wave: &Items<WaveformElement>,
) -> Result<(), AllocError>
    ensures { OnOk result (out.new ≡ out.old ++ (name target.now ⊕ mark m.LessEqual ⊕ optional spec.delay_kinds delay.now ⊕ spec.waveform_kinds wave.now ⊕ mark m.Semicolon)) }
{
    target.spell(out)?;
    put_mark(out, Mark::LessEqual)?;
    put_optional(out, delay)?;
    put_waveform(out, wave)?;
    put_mark(out, Mark::Semicolon)
}

pub fn put_variable(
    out: &mut Items<TokenKind>,
    target: &Name,
    value: &Expr,
) -> Result<(), AllocError>
    ensures { OnOk result (out.new ≡ out.old ++ (name target.now ⊕ mark m.Assign ⊕ spelling value.now ⊕ mark m.Semicolon)) }
{
    target.spell(out)?;
    put_mark(out, Mark::Assign)?;
    value.spell(out)?;
    put_mark(out, Mark::Semicolon)
}

/// `exit` or `next`.
pub fn put_jump(
    out: &mut Items<TokenKind>,
    jump: Word,
    condition: &Option<Expr>,
) -> Result<(), AllocError>
    ensures { OnOk result (out.new ≡ out.old ++ (word jump ⊕ optional spec.when_kinds condition.now ⊕ mark m.Semicolon)) }
{
    put_word(out, jump)?;
    put_when(out, condition)?;
    put_mark(out, Mark::Semicolon)
}

pub fn put_wait(
    out: &mut Items<TokenKind>,
    on: &Items<Expr>,
    until: &Option<Expr>,
    time: &Option<Expr>,
) -> Result<(), AllocError>
    ensures { OnOk result (out.new ≡ out.old ++ (word w.Wait ⊕ spec.on_kinds on.now ⊕ optional (λ x. word w.Until ⊕ spelling x) until.now ⊕ optional (λ x. word w.For ⊕ spelling x) time.now ⊕ mark m.Semicolon)) }
{
    put_word(out, Word::Wait)?;
    put_on(out, on)?;
    put_behind(out, TokenKind::Word(Word::Until), until)?;
    put_behind(out, TokenKind::Word(Word::For), time)?;
    put_mark(out, Mark::Semicolon)
}

pub fn put_break_statement(
    out: &mut Items<TokenKind>,
    elements: &Items<BreakElement>,
    condition: &Option<Expr>,
) -> Result<(), AllocError>
    ensures { OnOk result (out.new ≡ out.old ++ (word w.Break ⊕ spec.break_kinds elements.now ⊕ optional spec.when_kinds condition.now ⊕ mark m.Semicolon)) }
{
    put_word(out, Word::Break)?;
    put_break(out, elements)?;
    put_when(out, condition)?;
    put_mark(out, Mark::Semicolon)
}

pub fn put_null(out: &mut Items<TokenKind>) -> Result<(), AllocError>
    ensures { OnOk result (out.new ≡ out.old ++ (word w.Null ⊕ mark m.Semicolon)) }
{
    put_word(out, Word::Null)?;
    put_mark(out, Mark::Semicolon)
}
