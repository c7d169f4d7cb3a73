ghost use Rattle.std.specs.Prelude.{◌≡◌};
ghost use Rattle.ams_lexer.specs.declared.fault.LexFault.TheVariants.{Memory};
ghost use Rattle.ams_lexer.specs.Faults.{code_of};

use ams_token::Place;
use message_codes::{BAD_CHARACTER, BAD_LITERAL, NOT_ASCII, UNCLOSED_STRING};
use std::alloc::{AllocError, AllocFailed};

/// Why a text has no tokens, and where. Lines and columns are from 1, and each byte is one column.
#[derive(Clone, Copy, Debug, PartialEq, Eq)]
pub enum LexFault {
    BadCharacter(Place),
    BadLiteral(Place),
    UnclosedString(Place),
    NotAscii(Place),
    /// Memory ran out, or the text is too long to be numbered by 32 bits.
    Memory,
}

impl LexFault {
    /// The number of the message that refuses the text. Want of memory refuses none.
    pub fn code(self) -> Option<u8>
        ensures { result ≡ code_of self }
    {
        match self {
            LexFault::BadCharacter(_) => Some(BAD_CHARACTER),
            LexFault::BadLiteral(_) => Some(BAD_LITERAL),
            LexFault::UnclosedString(_) => Some(UNCLOSED_STRING),
            LexFault::NotAscii(_) => Some(NOT_ASCII),
            LexFault::Memory => None,
        }
    }
}

impl From<AllocError> for LexFault {
    ghost from_gives = { λ _ e. e ≡ Memory };

    fn from(_: AllocError) -> Self {
        LexFault::Memory
    }
}

impl<T: Drop> From<AllocFailed<T>> for LexFault {
    ghost from_gives = { λ _ e. e ≡ Memory };

    fn from(_: AllocFailed<T>) -> Self {
        LexFault::Memory
    }
}
