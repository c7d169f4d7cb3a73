//! From a text to the flat design of its top.
ghost use Rattle.std.specs.Prelude.{◌≢◌, Err};
ghost use Rattle.ams_tree.specs.Designs as grammar;
ghost use Rattle.ams_lexer.specs.Texts.{HasTokens, IsFaultOf};
ghost use Rattle.parse_steps.specs.Reply.{most_levels, most_operators};
ghost use Rattle.ams_parser.specs.Whole.{AnswersWhole};
ghost use Rattle.ams_lexer.specs.declared.fault.LexFault.TheVariants as lexing;
ghost use Rattle.parse_steps.specs.declared.fault.ParseFault.TheVariants as parsing;
ghost use Rattle.design_reading.specs.Reading.{NoTokens, NoFile, TokensGive, Gives, Reads, Notes};

use crate::file::design_of_file;
use crate::unread::Unread;
use ams_lexer::{LexFault, lex};
use ams_parser::parse;
use ams_token::Tokens;
use flat_design::Flat;
use parse_steps::ParseFault;
use refusal_note::{lex_note, parse_note};
use std::alloc::Global;

/// Tokens are no design file.
fn unparsed(alloc: Global, tokens: &Tokens, fault: &ParseFault) -> Unread
    requires found { AnswersWhole grammar.design_file most_levels most_operators tokens.now.list.items (Err fault.now) }
    requires told { fault.now ≢ parsing.Memory }
    ensures { Notes (NoFile tokens.now) result }
{
    match parse_note(alloc, tokens, fault) {
        Ok(note) => Unread::Refused(note),
        Err(_) => Unread::Memory,
    }
}

/// The flat design of a top in the file that tokens are.
fn design_of_tokens(alloc: Global, tokens: &Tokens, top: &str) -> Result<Flat, Unread>
    ensures { Reads (TokensGive tokens.now top.now) result }
{
    match parse(alloc, tokens) {
        Ok(file) => design_of_file(alloc, &tokens.names, &file, top),
        Err(ParseFault::Syntax(number)) => {
            Err(unparsed(alloc, tokens, &ParseFault::Syntax(number)))
        }
        Err(ParseFault::TooDeep(number)) => {
            Err(unparsed(alloc, tokens, &ParseFault::TooDeep(number)))
        }
        Err(ParseFault::Memory) => Err(Unread::Memory),
    }
}

/// A text has no tokens.
fn unlexed(alloc: Global, text: &[u8], fault: LexFault) -> Unread
    requires found { IsFaultOf text.now fault }
    requires told { fault ≢ lexing.Memory }
    ensures { Notes (NoTokens text.now) result }
{
    match lex_note(alloc, fault) {
        Ok(note) => Unread::Refused(note),
        Err(_) => Unread::Memory,
    }
}

/// The flat design of a top in a text, or the note of the first refusal.
pub fn read_design(alloc: Global, text: &[u8], top: &str) -> Result<Flat, Unread>
    ensures { Reads (Gives text.now top.now) result }
{
    match lex(alloc, text) {
        Ok(tokens) => design_of_tokens(alloc, &tokens, top),
        Err(LexFault::Memory) => Err(Unread::Memory),
        Err(LexFault::BadCharacter(place)) => {
            Err(unlexed(alloc, text, LexFault::BadCharacter(place)))
        }
        Err(LexFault::BadLiteral(place)) => {
            Err(unlexed(alloc, text, LexFault::BadLiteral(place)))
        }
        Err(LexFault::UnclosedString(place)) => {
            Err(unlexed(alloc, text, LexFault::UnclosedString(place)))
        }
        Err(LexFault::NotAscii(place)) => Err(unlexed(alloc, text, LexFault::NotAscii(place))),
    }
}
