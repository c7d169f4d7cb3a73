//! Trees that tokens spell, and the parts that many of them have.

ghost use Rattle.std.specs.Prelude.{◌≡◌, ◌++◌, List, ◌∷◌, OnOk, map};
ghost use Rattle.ams_token.specs.declared.token.TokenKind.{TokenKind};
ghost use Rattle.expr_spell.specs.Kinds as kinds_of;
ghost use Rattle.expr_spell.specs.Kinds.{joined, separated, optional};
ghost use Rattle.expr_spell.specs.Spelling.{spelling};
ghost use Rattle.ams_spell.specs.Parts as spec;

use ams_token::{Mark, TokenKind, Word};
use ams_tree::{Expr, Literal, Name};
pub use expr_spell::put_mark;
use expr_spell::{literal_kind, put_expr, put_name};
use sqlite_items::Items;
use std::alloc::AllocError;

/// A tree that tokens spell.
pub trait Spell {
    ghost kinds: { Self → List TokenKind };

    /// Puts the kinds of the tokens behind those that are there.
    fn spell(&self, out: &mut Items<TokenKind>) -> Result<(), AllocError>
        ensures { OnOk result (out.new ≡ out.old ++ kinds self.now) };
}

impl Spell for Name {
    ghost kinds = { kinds_of.name };

    fn spell(&self, out: &mut Items<TokenKind>) -> Result<(), AllocError> {
        put_name(out, self)
    }
}

impl Spell for Literal {
    ghost kinds = { spec.literal_kinds };

    fn spell(&self, out: &mut Items<TokenKind>) -> Result<(), AllocError> {
        out.push(literal_kind(self.value))
    }
}

impl Spell for Expr {
    ghost kinds = { spelling };

    fn spell(&self, out: &mut Items<TokenKind>) -> Result<(), AllocError> {
        put_expr(out, self)
    }
}

pub fn put_word(out: &mut Items<TokenKind>, word: Word) -> Result<(), AllocError>
    ensures { OnOk result (out.new ≡ out.old ++ spec.word word) }
{
    out.push(TokenKind::Word(word))
}

/// One after the other.
pub fn put_all<T: Spell>(out: &mut Items<TokenKind>, items: &[T]) -> Result<(), AllocError>
    ensures { OnOk result (out.new ≡ out.old ++ joined (map T.kinds items.now)) }
{
    for item in items {
        item.spell(out)?;
    }
    Ok(())
}

/// With a token between them.
pub fn put_separated<T: Spell>(
    out: &mut Items<TokenKind>,
    separator: TokenKind,
    items: &[T],
) -> Result<(), AllocError>
    ensures { OnOk result (out.new ≡ out.old ++ separated separator (map T.kinds items.now)) }
{
    let [first, more @ ..] = items else {
        return Ok(());
    };
    first.spell(out)?;
    for item in more {
        out.push(separator)?;
        item.spell(out)?;
    }
    Ok(())
}

/// What is there, where it is there.
pub fn put_optional<T: Spell>(
    out: &mut Items<TokenKind>,
    item: &Option<T>,
) -> Result<(), AllocError>
    ensures { OnOk result (out.new ≡ out.old ++ optional T.kinds item.now) }
{
    if let Some(item) = item {
        item.spell(out)?;
    }
    Ok(())
}

/// The same behind a token.
pub fn put_behind<T: Spell>(
    out: &mut Items<TokenKind>,
    before: TokenKind,
    item: &Option<T>,
) -> Result<(), AllocError>
    ensures { OnOk result (out.new ≡ out.old ++ optional (λ x. before ∷ T.kinds x) item.now) }
{
    if let Some(item) = item {
        out.push(before)?;
        item.spell(out)?;
    }
    Ok(())
}

pub fn put_names(out: &mut Items<TokenKind>, names: &Items<Name>) -> Result<(), AllocError>
    ensures { OnOk result (out.new ≡ out.old ++ spec.names names.now) }
{
    put_separated(out, TokenKind::Mark(Mark::Comma), names.as_slice())
}

/// A word that a flag says to be there.
pub fn put_present(out: &mut Items<TokenKind>, word: Word, present: bool) -> Result<(), AllocError>
    ensures { OnOk result (out.new ≡ out.old ++ spec.present (spec.word word) present) }
{
    if present {
        put_word(out, word)?;
    }
    Ok(())
}

/// "end", this word, ";"
pub fn put_ending(out: &mut Items<TokenKind>, word: Word) -> Result<(), AllocError>
    ensures { OnOk result (out.new ≡ out.old ++ spec.ending_kinds word) }
{
    put_word(out, Word::End)?;
    put_word(out, word)?;
    put_mark(out, Mark::Semicolon)
}
