ghost use Rattle.std.specs.Prelude.{◌≡◌, ◌++◌, OnOk, map};
ghost use Rattle.ams_token.specs.declared.word.Word.TheVariants as w;
ghost use Rattle.expr_spell.specs.Kinds.{joined, name};
ghost use Rattle.ams_spell.specs.Parts.{◌⊕◌, word};
ghost use Rattle.ams_spell.specs.Designs as spec;

use crate::declarations::{put_head, put_name_after};
use crate::parts::{
    Spell, put_all, put_mark, put_names, put_optional, put_present, put_separated, put_word,
};
use ams_token::{Mark, TokenKind, Word};
use ams_tree::{Architecture, DesignFile, DesignUnit, Entity, Name, Path};
use sqlite_items::Items;
use std::alloc::AllocError;

fn put_prefix(out: &mut Items<TokenKind>, prefix: &Name) -> Result<(), AllocError>
    ensures { OnOk result (out.new ≡ out.old ++ spec.prefix_kinds prefix.now) }
{
    prefix.spell(out)?;
    put_mark(out, Mark::Point)
}

fn put_prefixes(out: &mut Items<TokenKind>, names: &[Name]) -> Result<(), AllocError>
    ensures { OnOk result (out.new ≡ out.old ++ joined (map spec.prefix_kinds names.now)) }
{
    for prefix in names {
        put_prefix(out, prefix)?;
    }
    Ok(())
}

impl Spell for Path {
    ghost kinds = { spec.path_kinds };

    fn spell(&self, out: &mut Items<TokenKind>) -> Result<(), AllocError> {
        if !self.all {
            return put_separated(out, TokenKind::Mark(Mark::Point), self.names.as_slice());
        }
        put_prefixes(out, self.names.as_slice())?;
        put_word(out, Word::All)
    }
}

fn put_clause<T: Spell>(
    out: &mut Items<TokenKind>,
    before: Word,
    items: &[T],
) -> Result<(), AllocError>
    ensures { OnOk result (out.new ≡ out.old ++ spec.clause_kinds before (map T.kinds items.now)) }
{
    let [_, ..] = items else {
        return Ok(());
    };
    put_word(out, before)?;
    put_mark(out, Mark::LeftParen)?;
    put_separated(out, TokenKind::Mark(Mark::Semicolon), items)?;
    put_mark(out, Mark::RightParen)?;
    put_mark(out, Mark::Semicolon)
}

fn put_end(
    out: &mut Items<TokenKind>,
    unit: Word,
    said: bool,
    again: &Option<Name>,
) -> Result<(), AllocError>
    ensures { OnOk result (out.new ≡ out.old ++ spec.end_kinds unit said again.now) }
{
    put_word(out, Word::End)?;
    put_present(out, unit, said)?;
    put_optional(out, again)?;
    put_mark(out, Mark::Semicolon)
}

impl Spell for Entity {
    ghost kinds = { spec.entity_kinds };

    fn spell(&self, out: &mut Items<TokenKind>) -> Result<(), AllocError> {
        put_head(out, Word::Entity, &self.name)?;
        put_clause(out, Word::Generic, self.generics.as_slice())?;
        put_clause(out, Word::Port, self.ports.as_slice())?;
        put_end(out, Word::Entity, self.word_end, &self.end)
    }
}

fn put_architecture_head(
    out: &mut Items<TokenKind>,
    architecture: &Architecture,
) -> Result<(), AllocError>
    ensures { OnOk result (out.new ≡ out.old ++ (word w.Architecture ⊕ name architecture.now.name ⊕ word w.Of ⊕ name architecture.now.entity ⊕ word w.Is)) }
{
    put_name_after(out, Word::Architecture, &architecture.name)?;
    put_head(out, Word::Of, &architecture.entity)
}

impl Spell for Architecture {
    ghost kinds = { spec.architecture_kinds };

    fn spell(&self, out: &mut Items<TokenKind>) -> Result<(), AllocError> {
        put_architecture_head(out, self)?;
        put_all(out, self.declarations.as_slice())?;
        put_word(out, Word::Begin)?;
        put_all(out, self.statements.as_slice())?;
        put_end(out, Word::Architecture, self.word_end, &self.end)
    }
}

impl Spell for DesignUnit {
    ghost kinds = { spec.unit_kinds };

    fn spell(&self, out: &mut Items<TokenKind>) -> Result<(), AllocError> {
        match self {
            DesignUnit::Library(ids) => {
                put_word(out, Word::Library)?;
                put_names(out, ids)?;
                put_mark(out, Mark::Semicolon)
            }
            DesignUnit::Use(paths) => {
                put_word(out, Word::Use)?;
                put_separated(out, TokenKind::Mark(Mark::Comma), paths.as_slice())?;
                put_mark(out, Mark::Semicolon)
            }
            DesignUnit::Entity(entity) => entity.spell(out),
            DesignUnit::Architecture(architecture) => architecture.spell(out),
        }
    }
}

impl Spell for DesignFile {
    ghost kinds = { spec.file_kinds };

    fn spell(&self, out: &mut Items<TokenKind>) -> Result<(), AllocError> {
        put_all(out, self.units.as_slice())
    }
}
