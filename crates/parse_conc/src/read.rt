ghost use Rattle.std.specs.Prelude.{◌≡◌, ◌≤◌, ◌-◌, ◌++◌, ℕ, List, length, drop};
ghost use Rattle.ams_token.specs.declared.token.Token.{Token};
ghost use Rattle.ams_tree.specs.declared.concurrent.Concurrent.{Concurrent};
ghost use Rattle.ams_tree.specs.Concurrents as grammar;
ghost use Rattle.ams_tree.specs.Answer.{Spells, SpellsWithin, Begins, BeginsWithin};
ghost use Rattle.parse_steps.specs.Reply.{Answers, IsTree, most_levels, most_operators};

use crate::statements::any_concurrent;
use ams_token::{Token, Tokens};
use ams_tree::Concurrent;
use parse_steps::{MOST_LEVELS, MOST_OPERATORS, ParseFault, Reader, fault_at};
use std::alloc::Global;

/// Reads the concurrent statement that begins at a place, as far as the tokens go on with one, where `depth` levels are open.
/// Answers the tree with the place behind it.
pub fn concurrent(
    alloc: Global,
    tokens: &Tokens,
    at: usize,
    depth: u32,
) -> Result<(Concurrent, usize), ParseFault>
    requires place { at ≤ length tokens.now.list.items }
    requires open { depth ≤ most_levels }
    // The longest front that begins a concurrent statement is one, or the first place where none goes on or a limit is passed.
    ensures answer { Answers grammar.concurrent (most_levels - depth) tokens.now.list.items at result }
    // What a tree within the limits spells is read as that tree.
    ensures back { (tree : Concurrent) → SpellsWithin grammar.concurrent (most_levels - depth) most_operators tree (drop at tokens.now.list.items) → IsTree tree (length tokens.now.list.items) result }
{
    read(alloc, tokens.list.as_slice(), at, MOST_LEVELS - depth)
}

fn read(
    alloc: Global,
    tokens: &[Token],
    at: usize,
    levels: u32,
) -> Result<(Concurrent, usize), ParseFault>
    requires { at ≤ length tokens.now }
    ensures answer { Answers grammar.concurrent levels tokens.now at result }
    ensures back { (tree : Concurrent) → SpellsWithin grammar.concurrent levels most_operators tree (drop at tokens.now) → IsTree tree (length tokens.now) result }
{
    let mut reader = Reader::new(&tokens[at..], MOST_OPERATORS);
    match any_concurrent(alloc, &mut reader, levels) {
        Ok(tree) => Ok((tree, tokens.len() - reader.left())),
        Err(stop) => Err(fault_at(stop, tokens.len())),
    }
}

/// Two trees that the same tokens spell are equal.
pub fn one_tree()
    ensures { (x y : Concurrent) (tokens : List Token) → Spells grammar.concurrent x tokens → Spells grammar.concurrent y tokens → x ≡ y }
{}

/// Each front of what begins a concurrent statement begins one, within the same limits: so the first place past a limit is the
/// least one.
pub fn fronts_begin()
    ensures begins { (front back : List Token) → Begins grammar.concurrent (front ++ back) → Begins grammar.concurrent front }
    ensures within { (levels operators : ℕ) (front back : List Token) → BeginsWithin grammar.concurrent levels operators (front ++ back) → BeginsWithin grammar.concurrent levels operators front }
    ensures spelled { (x : Concurrent) (tokens : List Token) → Spells grammar.concurrent x tokens → Begins grammar.concurrent tokens }
{}
