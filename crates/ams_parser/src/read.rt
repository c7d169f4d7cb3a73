ghost use Rattle.std.specs.Prelude.{◌≡◌, ◌++◌, ℕ, List};
ghost use Rattle.ams_token.specs.declared.token.Token.{Token};
ghost use Rattle.ams_tree.specs.declared.design.DesignFile.{DesignFile};
ghost use Rattle.ams_tree.specs.Designs as grammar;
ghost use Rattle.ams_tree.specs.Answer.{Spells, SpellsWithin, Begins, BeginsWithin};
ghost use Rattle.parse_steps.specs.Reply.{most_levels, most_operators};
ghost use Rattle.ams_parser.specs.Whole.{AnswersWhole, IsWhole};

use crate::files::design_file;
use ams_token::{Token, Tokens};
use ams_tree::DesignFile;
use parse_steps::{MOST_LEVELS, MOST_OPERATORS, ParseFault, Reader, fault_at};
use std::alloc::Global;

/// Reads all tokens as one design file.
pub fn parse(alloc: Global, tokens: &Tokens) -> Result<DesignFile, ParseFault>
    // A file that spells all tokens, or the first place where none goes on or a limit is passed.
    ensures answer { AnswersWhole grammar.design_file most_levels most_operators tokens.now.list.items result }
    // What a file within the limits spells is read as that file.
    ensures back { (file : DesignFile) → SpellsWithin grammar.design_file most_levels most_operators file tokens.now.list.items → IsWhole file result }
{
    whole(alloc, tokens.list.as_slice())
}

fn whole(alloc: Global, tokens: &[Token]) -> Result<DesignFile, ParseFault>
    ensures answer { AnswersWhole grammar.design_file most_levels most_operators tokens.now result }
    ensures back { (file : DesignFile) → SpellsWithin grammar.design_file most_levels most_operators file tokens.now → IsWhole file result }
{
    let mut reader = Reader::new(tokens, MOST_OPERATORS);
    match design_file(alloc, &mut reader, MOST_LEVELS) {
        Ok(file) => {
            let left = reader.left();
            if left > 0 {
                return Err(ParseFault::Syntax(tokens.len() - left));
            }
            Ok(file)
        }
        Err(stop) => Err(fault_at(stop, tokens.len())),
    }
}

/// Two design files that the same tokens spell are equal.
pub fn one_tree()
    ensures { (x y : DesignFile) (tokens : List Token) → Spells grammar.design_file x tokens → Spells grammar.design_file y tokens → x ≡ y }
{}

/// Each front of what begins a design file begins one, within the same limits: so the first place past a limit is the
/// least one.
pub fn fronts_begin()
    ensures begins { (front back : List Token) → Begins grammar.design_file (front ++ back) → Begins grammar.design_file front }
    ensures within { (levels operators : ℕ) (front back : List Token) → BeginsWithin grammar.design_file levels operators (front ++ back) → BeginsWithin grammar.design_file levels operators front }
    ensures spelled { (x : DesignFile) (tokens : List Token) → Spells grammar.design_file x tokens → Begins grammar.design_file tokens }
{}
