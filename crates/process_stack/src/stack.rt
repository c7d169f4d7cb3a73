//! The stack.
ghost use Rattle.std.specs.Prelude.{◌≡◌, ◌<◌, ◌+◌, ◌-◌, ◌++◌, ◌∷◌, ◌^◌, [], length, take, Some, None, OnOk, OnErr, pos};
ghost use Rattle.process_laws.specs.Resumed.{AreOf};
ghost use Rattle.process_place.specs.Moves.{behind_loop_at, end_of_turn_at};
ghost use Rattle.process_stack.specs.Stacks.{Stacked, round_of, place_of};

use crate::text::{inner_body, innermost, is_loop};
use flat_expr::Statement;
use std::alloc::{AllocError, Global};
use std::marker::Model;

/// A statement round a place: its number in its list, the number of the branch that is gone into, and of a for loop the
/// last value of its parameter.
#[derive(Clone, Copy)]
pub struct Frame {
    pub statement: usize,
    pub branch: usize,
    pub last: i32,
}

/// The statements round a place, the outermost first, and the number of the statement that comes next. Where the first
/// turn of the innermost loop is to come, the value of its parameter is there.
#[derive(Drop)]
pub struct ProcessStack {
    frames: Vec<Frame>,
    next: usize,
    first: Option<i32>,
}

impl Model for ProcessStack {
    ghost use Rattle.process_stack.specs.Stacks.{Stacked};

    ghost Value = { Stacked };

    ghost view = { λ a. record { frames = a.frames.items; next = a.next; first = a.first } };
}

impl ProcessStack {
    /// At the first statement.
    pub fn new(alloc: Global) -> ProcessStack
        ensures { result ≡ record { frames = []; next = 0; first = None } }
    {
        ProcessStack {
            frames: Vec::new(alloc),
            next: 0,
            first: None,
        }
    }

    /// The statements round the place.
    pub fn frames(&self) -> &[Frame]
        ensures { result.now ≡ self.now.frames }
    {
        self.frames.as_slice()
    }

    /// The number of the statement that comes next.
    pub fn next(&self) -> usize
        ensures { result ≡ self.now.next }
    {
        self.next
    }

    /// Goes back to the first statement.
    pub fn restart(&mut self)
        ensures { self.new ≡ record { frames = []; next = 0; first = None } }
    {
        self.frames.clear();
        self.next = 0;
        self.first = None;
    }

    /// Goes behind the next statement.
    pub fn advance(&mut self)
        requires { self.old.next + 1 < 2 ^ 64 }
        ensures { self.new ≡ record self.old { next = self.old.next + 1 } }
    {
        self.next += 1;
    }

    /// Goes into a branch of the next statement, to a statement of it.
    pub fn enter(&mut self, branch: usize, next: usize) -> Result<(), AllocError>
        ensures ok { OnOk result (self.new ≡ record self.old { frames = self.old.frames ++ record { statement = self.old.next; branch = branch; last = pos 0 } ∷ []; next = next }) }
        ensures err { OnErr result (self.new ≡ self.old) }
    {
        self.frames.push(Frame {
            statement: self.next,
            branch,
            last: 0,
        })?;
        self.next = next;
        Ok(())
    }

    /// Goes into the next statement, a for loop, before its first turn.
    pub fn begin_loop(&mut self, first: i32, last: i32) -> Result<(), AllocError>
        ensures ok { OnOk result (self.new ≡ record { frames = self.old.frames ++ record { statement = self.old.next; branch = 0; last = last } ∷ []; next = 0; first = Some first }) }
        ensures err { OnErr result (self.new ≡ self.old) }
    {
        self.frames.push(Frame {
            statement: self.next,
            branch: 0,
            last,
        })?;
        self.next = 0;
        self.first = Some(first);
        Ok(())
    }

    /// Takes the first turn of the loop, if it is to come, and answers the value of its parameter.
    pub fn take_first(&mut self) -> Option<i32>
        ensures value { result ≡ self.old.first }
        ensures stack { self.new ≡ record self.old { first = None } }
    {
        let first = self.first;
        self.first = None;
        first
    }

    /// Goes to the first statement of the innermost list again.
    pub fn turn(&mut self)
        ensures { self.new ≡ record self.old { next = 0 } }
    {
        self.next = 0;
    }

    /// Goes out of the statement round the place, to a statement of the list that it stands in.
    pub fn leave(&mut self, next: usize)
        ensures { self.new ≡ record self.old { frames = take (length self.old.frames - 1) self.old.frames; next = next } }
    {
        self.frames.truncate(self.frames.len().saturating_sub(1));
        self.next = next;
    }

    /// Goes behind the innermost loop, or behind the whole text where there is none.
    pub fn leave_loop(&mut self, text: &[Statement])
        requires round { AreOf text.now (round_of text.now self.old.frames) }
        requires first { self.old.first ≡ None }
        ensures place { place_of text.now self.new ≡ behind_loop_at text.now (round_of text.now self.old.frames) }
        ensures first { self.new.first ≡ None }
    {
        match innermost(text, self.frames.as_slice()) {
            Some(round) => {
                self.leave(round.behind);
                if !is_loop(round.statement) {
                    self.leave_loop(text);
                }
            }
            None => self.next = text.len(),
        }
    }

    /// Goes to the end of the innermost loop's body, or behind the whole text where there is none.
    pub fn end_turn(&mut self, text: &[Statement])
        requires round { AreOf text.now (round_of text.now self.old.frames) }
        requires first { self.old.first ≡ None }
        ensures place { place_of text.now self.new ≡ end_of_turn_at text.now (round_of text.now self.old.frames) }
        ensures first { self.new.first ≡ None }
    {
        match innermost(text, self.frames.as_slice()) {
            Some(round) => {
                if is_loop(round.statement) {
                    self.next = inner_body(round.statement, round.frame.branch).len();
                } else {
                    self.leave(0);
                    self.end_turn(text);
                }
            }
            None => self.next = text.len(),
        }
    }
}
