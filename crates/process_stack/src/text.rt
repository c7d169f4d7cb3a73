//! The lists of statements in a text.
ghost use Rattle.std.specs.Prelude.{◌≡◌, ◌+◌, ◌<◌, ◌^◌, slice_get, IsSome};
ghost use Rattle.std.specs.Option.{option_copied};
ghost use Rattle.flat_expr.specs.declared.statement.Statement.{out-Statement};
ghost use Rattle.cycle_meaning.specs.Task.{branch_body, alternative_body};
ghost use Rattle.design_rules.specs.Ways.{inner_body};
ghost use Rattle.process_laws.specs.Resumed.{body_in, AreOf};
ghost use Rattle.process_stack.specs.Stacks.{is_loop, body_inside, round_of, IsInnermost};

use crate::stack::Frame;
use flat_expr::{Alternative, Branch, Statement};

#[tactic(auto, using(crate::proofs::Rounds::branches))]
fn branch_body<'a>(branches: &'a [Branch], last: &'a [Statement], number: usize) -> &'a [Statement]
    ensures { result.now ≡ branch_body branches.now last.now number }
{
    if number < branches.len() {
        branches[number].body.as_slice()
    } else {
        last
    }
}

#[tactic(auto, using(crate::proofs::Rounds::alternatives))]
fn alternative_body<'a>(alternatives: &'a [Alternative], number: usize) -> &'a [Statement]
    ensures { result.now ≡ alternative_body alternatives.now number }
{
    if number < alternatives.len() {
        alternatives[number].body.as_slice()
    } else {
        &[]
    }
}

/// The statement with a number, if there is one.
#[tactic(auto, using(crate::proofs::Rounds::statements_there))]
pub fn statement_at<'a>(list: &'a [Statement], number: usize) -> Option<&'a Statement>
    ensures value { option_copied result ≡ slice_get list.now number }
    ensures small { IsSome result → number + 1 < 2 ^ 64 }
{
    if number < list.len() {
        Some(&list[number])
    } else {
        None
    }
}

/// The statements of a branch; none where the statement has no such branch. The body of a loop is branch 0.
pub fn inner_body<'a>(statement: &'a Statement, branch: usize) -> &'a [Statement]
    ensures { result.now ≡ inner_body branch (out-Statement statement.now) }
{
    match statement {
        Statement::If(branches, last) => branch_body(branches.as_slice(), last.as_slice(), branch),
        Statement::Case(_, alternatives) => alternative_body(alternatives.as_slice(), branch),
        Statement::Loop(_, body) => body.as_slice(),
        Statement::For(_, _, _, _, body) => body.as_slice(),
        _ => &[],
    }
}

pub(crate) fn is_loop(statement: &Statement) -> bool
    ensures { result ≡ is_loop (out-Statement statement.now) }
{
    match statement {
        Statement::Loop(_, _) => true,
        Statement::For(_, _, _, _, _) => true,
        _ => false,
    }
}

/// The statements of a branch of a statement of a list.
fn body_inside<'a>(list: &'a [Statement], frame: &Frame) -> &'a [Statement]
    ensures { result.now ≡ body_inside list.now frame.now }
{
    match statement_at(list, frame.statement) {
        Some(statement) => inner_body(statement, frame.branch),
        None => &[],
    }
}

/// The list of statements that these frames lead to, the outermost first.
pub fn body_at<'a>(text: &'a [Statement], frames: &[Frame]) -> &'a [Statement]
    ensures { result.now ≡ body_in text.now (round_of text.now frames.now) }
{
    let mut body = text;
    for frame in frames {
        body = body_inside(body, frame);
    }
    body
}

/// The statement round a place, with its frame, and the number of the statement behind it.
#[derive(Clone, Copy)]
pub struct Round<'a> {
    pub statement: &'a Statement,
    pub frame: Frame,
    pub behind: usize,
}

/// The innermost statement round a place; none where the place is in the text's own list.
pub fn innermost<'a>(text: &'a [Statement], frames: &[Frame]) -> Option<Round<'a>>
    requires { AreOf text.now (round_of text.now frames.now) }
    ensures { IsInnermost text.now frames.now result }
{
    match frames.last().copied() {
        Some(frame) => {
            let list = body_at(text, &frames[..frames.len() - 1]);
            match statement_at(list, frame.statement) {
                Some(statement) => Some(Round {
                    statement,
                    frame,
                    behind: frame.statement + 1,
                }),
                None => None,
            }
        }
        None => None,
    }
}
