ghost use Rattle.std.specs.Prelude.{◌≡◌};
ghost use Rattle.lockstep_model.specs.Walk.{reply_of};
ghost use Rattle.engine_replies.specs.Replying.{reply_by};

use lockstep_model::Answer;
use step_data::Attempt;

/// The reply to the last ask, beside the attempt that was found.
#[derive(Clone, Copy, Debug, PartialEq, Eq)]
pub enum Reply {
    None,
    /// The attempt is there.
    Here,
    Nothing,
    Consumed(bool),
}

impl Reply {
    /// The answer with the attempt that was found.
    pub fn answer<'a>(self, found: &'a Attempt) -> Answer<'a>
        ensures { reply_of result ≡ reply_by self found.now }
    {
        match self {
            Reply::None => Answer::None,
            Reply::Here => Answer::Here(found),
            Reply::Nothing => Answer::Nothing,
            Reply::Consumed(consumed) => Answer::Consumed(consumed),
        }
    }
}
