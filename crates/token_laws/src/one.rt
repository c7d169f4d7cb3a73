//! What two readings of one text have in common.
ghost use Rattle.token_laws.specs.Once.{LexesOnce};

use ams_lexer::has_one_cut;

/// Two lists of tokens of one text are equal, and so are two first faults; no text has both.
pub fn texts_are_lexed_once()
    ensures { LexesOnce }
{
    has_one_cut();
}
