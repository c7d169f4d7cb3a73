ghost use Rattle.std.specs.Prelude.{◌≡◌, List, IfOk};
ghost use Rattle.ams_token.specs.declared.token.Token.{Token};
ghost use Rattle.ams_tree.specs.Answer.{Spells};
ghost use Rattle.ams_tree.specs.Declarations as declarations;
ghost use Rattle.ams_tree.specs.Statements as statements;
ghost use Rattle.ams_tree.specs.Concurrents as concurrents;
ghost use Rattle.ams_tree.specs.Designs as designs;
ghost use Rattle.expr_spell.specs.Kinds.{kinds};
ghost use Rattle.ams_spell.specs.Declarations.{declaration_kinds};
ghost use Rattle.ams_spell.specs.Statements.{statement_kinds};
ghost use Rattle.ams_spell.specs.Concurrents.{concurrent_kinds};
ghost use Rattle.ams_spell.specs.Designs.{file_kinds};

use crate::parts::Spell;
use ams_token::TokenKind;
use ams_tree::{Concurrent, Declaration, DesignFile, Seq};
use sqlite_items::Items;
use std::alloc::{AllocError, Global};

fn spelled<T: Spell>(alloc: Global, tree: &T) -> Result<Items<TokenKind>, AllocError>
    ensures { IfOk result (λ spelled. spelled ≡ T.kinds tree.now) }
{
    let mut out = Items::new(alloc);
    tree.spell(&mut out)?;
    Ok(out)
}

/// The kinds of the tokens that spell a design file, their places aside. The only error is want of memory.
pub fn spell(alloc: Global, file: &DesignFile) -> Result<Items<TokenKind>, AllocError>
    ensures kinds { IfOk result (λ spelled. spelled ≡ file_kinds file.now) }
    // They are those of each list of tokens that spells it.
    ensures spelled { (tokens : List Token) → Spells designs.design_file file.now tokens → IfOk result (λ spelled. spelled ≡ kinds tokens) }
{
    spelled(alloc, file)
}

/// The same of a declaration of an architecture.
pub fn spell_declaration(
    alloc: Global,
    declaration: &Declaration,
) -> Result<Items<TokenKind>, AllocError>
    ensures kinds { IfOk result (λ spelled. spelled ≡ declaration_kinds declaration.now) }
    ensures spelled { (tokens : List Token) → Spells declarations.declaration declaration.now tokens → IfOk result (λ spelled. spelled ≡ kinds tokens) }
{
    spelled(alloc, declaration)
}

/// The same of a sequential statement.
pub fn spell_statement(alloc: Global, statement: &Seq) -> Result<Items<TokenKind>, AllocError>
    ensures kinds { IfOk result (λ spelled. spelled ≡ statement_kinds statement.now) }
    ensures spelled { (tokens : List Token) → Spells statements.statement statement.now tokens → IfOk result (λ spelled. spelled ≡ kinds tokens) }
{
    spelled(alloc, statement)
}

/// The same of a concurrent statement, with its label.
pub fn spell_concurrent(
    alloc: Global,
    concurrent: &Concurrent,
) -> Result<Items<TokenKind>, AllocError>
    ensures kinds { IfOk result (λ spelled. spelled ≡ concurrent_kinds concurrent.now) }
    ensures spelled { (tokens : List Token) → Spells concurrents.concurrent concurrent.now tokens → IfOk result (λ spelled. spelled ≡ kinds tokens) }
{
    spelled(alloc, concurrent)
}
