//! What a call leaves where nothing fails.
ghost use Rattle.sim_top.specs.Whole.{OutputsAreWhole};

use one_reading::texts_are_read_once;

/// Accepted words in mode lockstep, a text that isn't too long, and a source and sinks that don't fail leave all of the text's output, unless memory runs out.
pub fn outputs_are_whole()
    ensures { OutputsAreWhole }
{
    texts_are_read_once();
}
