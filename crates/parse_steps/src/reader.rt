ghost use Rattle.std.specs.Prelude.{◌≡◌, ◌∷◌, length};
ghost use Rattle.ams_token.specs.Classes.{kind_class};
ghost use Rattle.ams_tree.specs.Terminals.{of_class};
ghost use Rattle.parse_steps.specs.Reading as reading;
ghost use Rattle.parse_steps.specs.Reading.{Reads, state};

use ams_token::{Place, Token, TokenKind};
use std::alloc::AllocError;
use std::marker::Model;

/// Why no tree was read. The number tells how many tokens were left.
#[derive(Clone, Copy, Debug, Drop)]
pub enum Stop {
    Memory,
    /// The next token goes on with no text of the grammar.
    Syntax(usize),
    /// The next token goes past a limit.
    TooDeep(usize),
}

impl From<AllocError> for Stop {
    ghost use Rattle.std.specs.Prelude.{◌≡◌};
    ghost use Rattle.parse_steps.specs.declared.reader.Stop.TheVariants.{Memory};

    ghost from_gives = { λ _ e. e ≡ Memory };

    fn from(_: AllocError) -> Stop {
        Stop::Memory
    }
}

/// The tokens that are left, and how many operators may still come.
#[derive(Drop)]
pub struct Reader<'t> {
    rest: &'t [Token],
    operators: u32,
}

impl<'t> Model for Reader<'t> {
    ghost use Rattle.parse_steps.specs.State.{State};

    ghost Value = { State };

    ghost view = { λ r. record { rest = r.rest.now; operators = r.operators } };
}

impl<'t> Reader<'t> {
    pub fn new(rest: &'t [Token], operators: u32) -> Reader<'t>
        ensures { result ≡ state rest.now operators }
    {
        Reader { rest, operators }
    }

    pub fn left(&self) -> usize
        ensures { result ≡ length self.now.rest }
    {
        self.rest.len()
    }

    pub fn peek(&self) -> Option<Token>
        ensures { result ≡ reading.peek self.now.rest }
    {
        self.rest.first().copied()
    }

    /// Whether the next token is of this kind.
    #[tactic(auto, unfolding(ams_tree::specs::Terminals::of_class))]
    pub fn at(&self, kind: TokenKind) -> bool
        ensures { result ≡ reading.at (of_class (kind_class kind)) self.now.rest }
    {
        match self.peek() {
            Some(token) => token.kind.is(kind),
            None => false,
        }
    }

    /// Whether the token behind the next one is of this kind.
    #[tactic(auto, unfolding(ams_tree::specs::Terminals::of_class))]
    pub fn at_second(&self, kind: TokenKind) -> bool
        ensures { result ≡ reading.at (of_class (kind_class kind)) (reading.tail self.now.rest) }
    {
        match self.rest {
            [_, second, ..] => second.kind.is(kind),
            _ => false,
        }
    }

    /// The place of the next token, where it is of this kind.
    #[tactic(auto, unfolding(ams_tree::specs::Terminals::of_class))]
    pub fn place(&self, kind: TokenKind) -> Option<Place>
        ensures { result ≡ reading.seen (of_class (kind_class kind)) self.now.rest }
    {
        match self.peek() {
            Some(token) => {
                if token.kind.is(kind) {
                    Some(token.place)
                } else {
                    None
                }
            }
            None => None,
        }
    }

    fn advance(&mut self)
        ensures { self.new ≡ reading.advance self.old }
    {
        if let [_, rest @ ..] = self.rest {
            self.rest = rest;
        }
    }

    /// Takes the next token, which opens a level or counts as an operator, unless a limit refuses it.
    pub fn take(&mut self, allowed: bool, cost: u32) -> Result<(), Stop>
        ensures { Reads (reading.take allowed cost self.old) result self.new }
    {
        if !allowed || cost > self.operators {
            return Err(Stop::TooDeep(self.left()));
        }
        self.operators -= cost;
        self.advance();
        Ok(())
    }

    /// Takes the next token, which has to be of this kind, and counts it.
    #[tactic(auto, using(crate::proofs::Steps::terminal_seen))]
    pub fn expect_within(
        &mut self,
        kind: TokenKind,
        allowed: bool,
        cost: u32,
    ) -> Result<Place, Stop>
        ensures { Reads (reading.terminal allowed cost (of_class (kind_class kind)) self.old) result self.new }
    {
        let Some(place) = self.place(kind) else {
            return Err(Stop::Syntax(self.left()));
        };
        self.take(allowed, cost)?;
        Ok(place)
    }

    /// Takes the next token, which has to be of this kind.
    pub fn expect(&mut self, kind: TokenKind) -> Result<Place, Stop>
        ensures { Reads (reading.one (of_class (kind_class kind)) self.old) result self.new }
    {
        self.expect_within(kind, true, 0)
    }

    /// A reader of the same tokens, with its own count of operators.
    pub fn fresh(&self, operators: u32) -> Reader<'t>
        ensures { result ≡ state self.now.rest operators }
    {
        Reader {
            rest: self.rest,
            operators,
        }
    }

    /// Goes on where another reader has come to.
    pub fn resume(&mut self, other: &Reader<'t>)
        ensures { self.new ≡ state other.now.rest self.old.operators }
    {
        self.rest = other.rest;
    }
}
