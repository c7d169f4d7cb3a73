ghost use Rattle.std.specs.Prelude.{◌≡◌, ℕ, ◌<◌, ◌≤◌, ◌^◌, List, length, IfOk, OnOk, IfErr, IsErrAnd, Bool, false, Option, Some, None, ◌+◌, ◌-◌};
ghost use Rattle.ams_lexer.specs.Texts.{Cut, IsCut, HasTokens, IsFaultOf, IsRefusal, fault_place, fault_of, place_at};
ghost use Rattle.ams_lexer.specs.Progress.{IsProgress, skipped, IsPushed};

use crate::fault::LexFault;
use crate::kinds::{kind_of, takes_attribute};
use crate::pieces::{Cause, next_piece};
use ams_token::{Names, Place, Token, TokenKind, Tokens};
use std::alloc::{AllocError, Global};

/// A text that is cut up to the byte `at`, in a line that begins at the byte `line_start`.
#[derive(Drop)]
struct Lexer {
    alloc: Global,
    at: usize,
    /// Whether a tick is an attribute tick.
    attribute: bool,
    line: u32,
    line_start: usize,
    tokens: Vec<Token>,
    names: Names,
    scratch: String,
}

impl Lexer {
    fn new(alloc: Global) -> Result<Lexer, AllocError>
        ensures { IfOk result (λ l. (l.at ≡ 0) × ((text : List ℕ) → IsProgress text l)) }
    {
        Ok(Lexer {
            alloc,
            at: 0,
            attribute: false,
            line: 1,
            line_start: 0,
            tokens: Vec::new(alloc),
            names: Names::new(alloc)?,
            scratch: String::new(alloc),
        })
    }

    fn place(&self, offset: usize) -> Place
        requires start { self.now.line_start ≤ self.now.at }
        requires short { self.now.at + offset + 1 < 2 ^ 32 }
        ensures { result ≡ place_at self.now.line (self.now.at + offset + 1 - self.now.line_start) }
    {
        Place {
            line: self.line,
            column: (self.at + offset + 1 - self.line_start) as u32,
        }
    }

    /// The fault at so many bytes behind the place that was reached.
    fn fault(&self, cause: Cause, offset: usize) -> LexFault
        requires start { self.now.line_start ≤ self.now.at }
        requires short { self.now.at + offset + 1 < 2 ^ 32 }
        ensures { result ≡ fault_of cause (place_at self.now.line (self.now.at + offset + 1 - self.now.line_start)) }
    {
        let place = self.place(offset);
        match cause {
            Cause::BadCharacter => LexFault::BadCharacter(place),
            Cause::BadLiteral => LexFault::BadLiteral(place),
            Cause::UnclosedString => LexFault::UnclosedString(place),
            Cause::NotAscii => LexFault::NotAscii(place),
        }
    }

    /// Goes past a separator or a comment of this size, which begins with this byte.
    fn skip(&mut self, first: u8, size: usize)
        requires some { 0 < size }
        requires room { self.old.at + size + 1 < 2 ^ 32 }
        requires line { self.old.line ≤ self.old.at + 1 }
        ensures { self.new ≡ skipped self.old first size }
    {
        if first == b'\n' {
            self.line += 1;
            self.line_start = self.at + 1;
        }
        self.at += size;
    }

    /// Adds a token of this size.
    fn push(&mut self, kind: TokenKind, size: usize) -> Result<(), LexFault>
        requires room { self.old.at + size + 1 < 2 ^ 32 }
        requires start { self.old.line_start ≤ self.old.at }
        ensures ok { OnOk result (IsPushed self.old self.new kind size) }
        ensures err { IfErr result (λ e. e ≡ LexFault.Memory) }
    {
        let token = Token {
            kind,
            place: self.place(0),
            from: self.at as u32,
            to: (self.at + size) as u32,
        };
        self.tokens.push(token)?;
        self.attribute = takes_attribute(kind);
        self.at += size;
        Ok(())
    }

    /// Goes past the next piece of the text.
    fn advance(&mut self, text: &[u8]) -> Result<(), LexFault>
        requires within { self.old.at < length text.now }
        requires short { length text.now + 1 < 2 ^ 32 }
        requires progress { IsProgress text.now self.old }
        ensures ok { OnOk result (IsProgress text.now self.new × (self.old.at < self.new.at) × (self.new.at ≤ length text.now)) }
        ensures err { IfErr result (IsFaultOf text.now) }
    {
        let (_, rest) = text.split_at(self.at);
        let first = rest[0];
        let (piece, size) = match next_piece(self.attribute, first, rest) {
            Ok(found) => found,
            Err(refused) => return Err(self.fault(refused.0, refused.1)),
        };
        let (bytes, _) = rest.split_at(size);
        match kind_of(self.alloc, &mut self.names, &mut self.scratch, piece, bytes)? {
            Some(kind) => self.push(kind, size),
            None => {
                self.skip(first, size);
                Ok(())
            }
        }
    }
}

fn lex_text(alloc: Global, text: &[u8]) -> Result<Tokens, LexFault>
    ensures tokens { IfOk result (HasTokens text.now) }
    ensures fault { IfErr result (IsFaultOf text.now) }
{
    if text.len() >= u32::MAX as usize {
        return Err(LexFault::Memory);
    }
    let mut lexer = Lexer::new(alloc)?;
    while lexer.at < text.len() {
        lexer.advance(text)?;
    }
    let end = lexer.place(0);
    let Lexer { tokens, names, .. } = lexer;
    Ok(Tokens {
        list: tokens,
        names,
        end,
    })
}

/// The tokens of a text, in their order and with their places, or its first fault.
pub fn lex(alloc: Global, text: &[u8]) -> Result<Tokens, LexFault>
    // The whole text is cut into separators, comments and these tokens.
    ensures tokens { IfOk result (HasTokens text.now) }

    // The text is cut so up to this fault, which stands at this place.
    ensures fault { IfErr result (IsFaultOf text.now) }

    // A text that is cut to its end is refused for want of memory alone.
    ensures accepted { (cuts : List Cut) → IsCut false text.now cuts None → IfErr result (λ e. e ≡ LexFault.Memory) }

    // A text that is cut up to a fault has this answer, unless memory ran out.
    ensures refused { (cuts : List Cut) (x : Cause) (offset : ℕ) → IsCut false text.now cuts (Some (x, offset)) → IsErrAnd result (IsRefusal x (fault_place text.now cuts offset)) }
{
    lex_text(alloc, text)
}

/// A text is cut into separators, comments and tokens in one way, to its end or to one fault.
pub fn has_one_cut()
    ensures { (cuts others : List Cut) (attribute : Bool) (text : List ℕ) (end other : Option (Cause × ℕ)) → IsCut attribute text cuts end → IsCut attribute text others other → (cuts ≡ others) × (end ≡ other) }
{}
