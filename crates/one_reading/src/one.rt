//! A text gives one flat design, or one note.
ghost use Rattle.one_reading.specs.Once.{GivesOnce};

use file_laws::files_are_read_once;
use token_laws::texts_are_lexed_once;

/// What a text gives with the name of a top is one flat design, or one note.
pub fn texts_are_read_once()
    ensures { GivesOnce }
{
    texts_are_lexed_once();
    files_are_read_once();
}
