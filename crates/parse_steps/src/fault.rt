ghost use Rattle.std.specs.Prelude.{◌≡◌, ◌≤◌};
ghost use Rattle.parse_steps.specs.Reading.{stop_left};
ghost use Rattle.parse_steps.specs.Reply.{fault_of};

use crate::reader::Stop;

/// Why no tree was read. The number is the place of a token, or how many tokens there are.
#[derive(Clone, Copy, Debug, PartialEq, Eq, Drop)]
pub enum ParseFault {
    Memory,
    /// The tokens before this place begin a text of the rule, and with the token there they begin none.
    Syntax(usize),
    /// The token at this place is the first past a limit.
    TooDeep(usize),
}

/// The same, with the place among `len` tokens.
pub fn fault_at(stop: Stop, len: usize) -> ParseFault
    requires { stop_left stop ≤ len }
    ensures { result ≡ fault_of len stop }
{
    match stop {
        Stop::Memory => ParseFault::Memory,
        Stop::Syntax(left) => ParseFault::Syntax(len - left),
        Stop::TooDeep(left) => ParseFault::TooDeep(len - left),
    }
}
