ghost use Rattle.std.specs.Prelude.{◌≡◌, ◌++◌, OnOk};
ghost use Rattle.ams_token.specs.declared.word.Word.TheVariants as w;
ghost use Rattle.ams_token.specs.declared.mark.Mark.TheVariants as m;
ghost use Rattle.expr_spell.specs.Kinds.{optional, name};
ghost use Rattle.expr_spell.specs.Spelling.{spelling};
ghost use Rattle.ams_spell.specs.Parts.{◌⊕◌, mark, word, names};
ghost use Rattle.ams_spell.specs.Declarations as spec;

use crate::parts::{Spell, put_behind, put_mark, put_names, put_optional, put_present, put_word};
use ams_token::{Mark, TokenKind, Word};
use ams_tree::{
    Bounds, Declaration, Direction, Expr, Generic, Mode, Name, Port, ProcessDeclaration, Range,
    SubtypeIndication,
};
use sqlite_items::Items;
use std::alloc::AllocError;

impl Spell for Direction {
    ghost kinds = { spec.direction_kinds };

    fn spell(&self, out: &mut Items<TokenKind>) -> Result<(), AllocError> {
        match self {
            Direction::To => put_word(out, Word::To),
            Direction::Downto => put_word(out, Word::Downto),
        }
    }
}

impl Spell for Mode {
    ghost kinds = { spec.mode_kinds };

    fn spell(&self, out: &mut Items<TokenKind>) -> Result<(), AllocError> {
        match self {
            Mode::In => put_word(out, Word::In),
            Mode::Out => put_word(out, Word::Out),
        }
    }
}

impl Spell for Range {
    ghost kinds = { spec.range_kinds };

    fn spell(&self, out: &mut Items<TokenKind>) -> Result<(), AllocError> {
        self.left.spell(out)?;
        self.direction.spell(out)?;
        self.right.spell(out)
    }
}

impl Spell for Bounds {
    ghost kinds = { spec.bounds_kinds };

    fn spell(&self, out: &mut Items<TokenKind>) -> Result<(), AllocError> {
        put_word(out, Word::Range)?;
        self.low.spell(out)?;
        put_word(out, Word::To)?;
        self.high.spell(out)
    }
}

fn put_index(out: &mut Items<TokenKind>, index: &Option<Range>) -> Result<(), AllocError>
    ensures { OnOk result (out.new ≡ out.old ++ optional spec.index_kinds index.now) }
{
    if let Some(range) = index {
        put_mark(out, Mark::LeftParen)?;
        range.spell(out)?;
        put_mark(out, Mark::RightParen)?;
    }
    Ok(())
}

impl Spell for SubtypeIndication {
    ghost kinds = { spec.indication_kinds };

    fn spell(&self, out: &mut Items<TokenKind>) -> Result<(), AllocError> {
        self.mark.spell(out)?;
        put_index(out, &self.index)?;
        put_optional(out, &self.bounds)
    }
}

fn put_default(out: &mut Items<TokenKind>, value: &Option<Expr>) -> Result<(), AllocError>
    ensures { OnOk result (out.new ≡ out.old ++ optional spec.default_kinds value.now) }
{
    put_behind(out, TokenKind::Mark(Mark::Assign), value)
}

// names, and the colon behind them
fn put_declared(out: &mut Items<TokenKind>, ids: &Items<Name>) -> Result<(), AllocError>
    ensures { OnOk result (out.new ≡ out.old ++ (names ids.now ⊕ mark m.Colon)) }
{
    put_names(out, ids)?;
    put_mark(out, Mark::Colon)
}

// a declaration of objects that may have a value
fn put_objects(
    out: &mut Items<TokenKind>,
    class: Word,
    ids: &Items<Name>,
    indication: &SubtypeIndication,
    value: &Option<Expr>,
) -> Result<(), AllocError>
    ensures { OnOk result (out.new ≡ out.old ++ (word class ⊕ names ids.now ⊕ mark m.Colon ⊕ spec.indication_kinds indication.now ⊕ optional spec.default_kinds value.now ⊕ mark m.Semicolon)) }
{
    put_word(out, class)?;
    put_declared(out, ids)?;
    indication.spell(out)?;
    put_default(out, value)?;
    put_mark(out, Mark::Semicolon)
}

fn put_value(out: &mut Items<TokenKind>, value: &Expr) -> Result<(), AllocError>
    ensures { OnOk result (out.new ≡ out.old ++ (mark m.Assign ⊕ spelling value.now)) }
{
    put_mark(out, Mark::Assign)?;
    value.spell(out)
}

fn put_constants(
    out: &mut Items<TokenKind>,
    ids: &Items<Name>,
    indication: &SubtypeIndication,
    value: &Expr,
) -> Result<(), AllocError>
    ensures { OnOk result (out.new ≡ out.old ++ (word w.Constant ⊕ names ids.now ⊕ mark m.Colon ⊕ spec.indication_kinds indication.now ⊕ mark m.Assign ⊕ spelling value.now ⊕ mark m.Semicolon)) }
{
    put_word(out, Word::Constant)?;
    put_declared(out, ids)?;
    indication.spell(out)?;
    put_value(out, value)?;
    put_mark(out, Mark::Semicolon)
}

impl Spell for Generic {
    ghost kinds = { spec.generic_kinds };

    fn spell(&self, out: &mut Items<TokenKind>) -> Result<(), AllocError> {
        put_present(out, Word::Constant, self.constant.is_some())?;
        put_declared(out, &self.names)?;
        put_present(out, Word::In, self.mode_in)?;
        self.indication.spell(out)?;
        put_default(out, &self.default)
    }
}

impl Spell for Port {
    ghost kinds = { spec.port_kinds };

    fn spell(&self, out: &mut Items<TokenKind>) -> Result<(), AllocError> {
        match self {
            Port::Signal(place, ids, mode, indication, value) => {
                put_present(out, Word::Signal, place.is_some())?;
                put_declared(out, ids)?;
                put_optional(out, mode)?;
                indication.spell(out)?;
                put_default(out, value)
            }
            Port::Terminal(_, ids, nature) => {
                put_word(out, Word::Terminal)?;
                put_declared(out, ids)?;
                nature.spell(out)
            }
            Port::Quantity(_, ids, mode, indication) => {
                put_word(out, Word::Quantity)?;
                put_declared(out, ids)?;
                put_optional(out, mode)?;
                indication.spell(out)
            }
        }
    }
}

// the terminals of a branch, behind the word before them
fn put_ends(out: &mut Items<TokenKind>, from: &Name, to: &Option<Name>) -> Result<(), AllocError>
    ensures { OnOk result (out.new ≡ out.old ++ (name from.now ⊕ optional spec.to_kinds to.now ⊕ mark m.Semicolon)) }
{
    from.spell(out)?;
    put_behind(out, TokenKind::Word(Word::To), to)?;
    put_mark(out, Mark::Semicolon)
}

fn put_through(out: &mut Items<TokenKind>, through: &Option<Items<Name>>) -> Result<(), AllocError>
    ensures { OnOk result (out.new ≡ out.old ++ optional spec.through_kinds through.now) }
{
    if let Some(through) = through {
        put_names(out, through)?;
        put_word(out, Word::Through)?;
    }
    Ok(())
}

/// A word, and the name behind it.
pub fn put_name_after(out: &mut Items<TokenKind>, before: Word, id: &Name) -> Result<(), AllocError>
    ensures { OnOk result (out.new ≡ out.old ++ (word before ⊕ name id.now)) }
{
    put_word(out, before)?;
    id.spell(out)
}

fn put_nature(
    out: &mut Items<TokenKind>,
    across: &Name,
    through: &Name,
    reference: &Name,
) -> Result<(), AllocError>
    ensures { OnOk result (out.new ≡ out.old ++ (name across.now ⊕ word w.Across ⊕ name through.now ⊕ word w.Through ⊕ name reference.now ⊕ word w.Reference ⊕ mark m.Semicolon)) }
{
    across.spell(out)?;
    put_name_after(out, Word::Across, through)?;
    put_name_after(out, Word::Through, reference)?;
    put_word(out, Word::Reference)?;
    put_mark(out, Mark::Semicolon)
}

/// A word, the name behind it, and "is".
pub fn put_head(out: &mut Items<TokenKind>, before: Word, id: &Name) -> Result<(), AllocError>
    ensures { OnOk result (out.new ≡ out.old ++ (word before ⊕ name id.now ⊕ word w.Is)) }
{
    put_name_after(out, before, id)?;
    put_word(out, Word::Is)
}

fn put_enumeration(
    out: &mut Items<TokenKind>,
    id: &Name,
    literals: &Items<Name>,
) -> Result<(), AllocError>
    ensures { OnOk result (out.new ≡ out.old ++ (word w.Type ⊕ name id.now ⊕ word w.Is ⊕ mark m.LeftParen ⊕ names literals.now ⊕ mark m.RightParen ⊕ mark m.Semicolon)) }
{
    put_head(out, Word::Type, id)?;
    put_mark(out, Mark::LeftParen)?;
    put_names(out, literals)?;
    put_mark(out, Mark::RightParen)?;
    put_mark(out, Mark::Semicolon)
}

// quantities of a branch, and the word behind them
fn put_quantities(
    out: &mut Items<TokenKind>,
    ids: &Items<Name>,
    class: Word,
) -> Result<(), AllocError>
    ensures { OnOk result (out.new ≡ out.old ++ (word w.Quantity ⊕ names ids.now ⊕ word class)) }
{
    put_word(out, Word::Quantity)?;
    put_names(out, ids)?;
    put_word(out, class)
}

impl Spell for Declaration {
    ghost kinds = { spec.declaration_kinds };

    fn spell(&self, out: &mut Items<TokenKind>) -> Result<(), AllocError> {
        match self {
            Declaration::Signal(_, ids, indication, value) => {
                put_objects(out, Word::Signal, ids, indication, value)
            }
            Declaration::Constant(_, ids, indication, value) => {
                put_constants(out, ids, indication, value)
            }
            Declaration::Terminal(_, ids, nature) => {
                put_word(out, Word::Terminal)?;
                put_declared(out, ids)?;
                nature.spell(out)?;
                put_mark(out, Mark::Semicolon)
            }
            Declaration::Quantity(_, ids, indication, value) => {
                put_objects(out, Word::Quantity, ids, indication, value)
            }
            Declaration::Across(_, across, through, from, to) => {
                put_quantities(out, across, Word::Across)?;
                put_through(out, through)?;
                put_ends(out, from, to)
            }
            Declaration::Through(_, ids, from, to) => {
                put_quantities(out, ids, Word::Through)?;
                put_ends(out, from, to)
            }
            Declaration::Nature(_, id, across, through, reference) => {
                put_head(out, Word::Nature, id)?;
                put_nature(out, across, through, reference)
            }
            Declaration::Enumeration(_, id, literals) => put_enumeration(out, id, literals),
            Declaration::Subtype(_, id, indication) => {
                put_head(out, Word::Subtype, id)?;
                indication.spell(out)?;
                put_mark(out, Mark::Semicolon)
            }
        }
    }
}

impl Spell for ProcessDeclaration {
    ghost kinds = { spec.process_declaration_kinds };

    fn spell(&self, out: &mut Items<TokenKind>) -> Result<(), AllocError> {
        match self {
            ProcessDeclaration::Variable(_, ids, indication, value) => {
                put_objects(out, Word::Variable, ids, indication, value)
            }
            ProcessDeclaration::Constant(_, ids, indication, value) => {
                put_constants(out, ids, indication, value)
            }
        }
    }
}
