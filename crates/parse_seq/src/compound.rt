//! Statements in which others stand. Each rule takes the reading of a statement inside as a parameter, so that each is
//! proved by itself.

ghost use Rattle.std.specs.Prelude.{◌≡◌};
ghost use Rattle.ams_tree.specs.Expressions.{below};
ghost use Rattle.parse_steps.specs.Reading.{Reads};
ghost use Rattle.parse_steps.specs.Reply.{most_operators};
ghost use Rattle.parse_expr.specs.Parsing.{expression};
ghost use Rattle.parse_seq.specs.Parsing as spec;
ghost use Rattle.parse_seq.specs.Parsing.{nested, at_level};
ghost use Rattle.parse_seq.specs.Nests.{Nests};

use crate::simple::simple_statement;
use crate::tokens::{begins_simple, begins_statement};
use ams_token::{Place, TokenKind, Word};
use ams_tree::{Alternative, Branch, Expr, Iteration, Seq};
use held_value::Held;
use parse_expr::outermost;
use parse_parts::{choices, ending, name, range};
use parse_steps::{Reader, Stop};
use sqlite_items::Items;
use std::alloc::Global;

#[derive(Clone, Copy)]
pub struct Statements<F> {
    pub alloc: Global,
    /// How many levels may still open.
    pub levels: u32,
    pub nested: F,
}

impl<F: Fn(Global, &mut Reader<'_>, u32) -> Result<Seq, Stop>> Statements<F> {
    fn inner(&self, reader: &mut Reader<'_>) -> Result<Seq, Stop>
        requires { Nests self.now.levels (F.pre self.now.nested) (F.post self.now.nested) }
        ensures { Reads (nested most_operators self.now.levels reader.old) result reader.new }
    {
        (self.nested)(self.alloc, reader, self.levels)
    }

    /// How many levels may open inside the statement.
    #[tactic(auto, using(crate::proofs::Below::one_less))]
    fn inside(&self) -> u32
        ensures { result ≡ below self.now.levels }
    {
        self.levels.saturating_sub(1)
    }

    fn expression(&self, reader: &mut Reader<'_>) -> Result<Expr, Stop>
        ensures { Reads (expression most_operators (below self.now.levels) reader.old) result reader.new }
    {
        outermost(self.alloc, reader, self.inside())
    }

    #[tactic(auto, using(parse_steps::proofs::Steps::terminal_seen), unfolding(crate::specs::Parsing::body))]
    fn body(&self, reader: &mut Reader<'_>) -> Result<Items<Seq>, Stop>
        requires { Nests self.now.levels (F.pre self.now.nested) (F.post self.now.nested) }
        ensures { Reads (at_level spec.body self.now.levels reader.old) result reader.new }
    {
        let mut all = Items::new(self.alloc);
        for _turn in 0..reader.left() {
            if !begins_statement(reader.peek()) {
                return Ok(all);
            }
            all.push(self.inner(reader)?)?;
        }
        Ok(all)
    }

    #[tactic(auto, using(parse_steps::proofs::Steps::terminal_seen), unfolding(crate::specs::Parsing::branch))]
    fn branch(&self, reader: &mut Reader<'_>) -> Result<Branch, Stop>
        requires { Nests self.now.levels (F.pre self.now.nested) (F.post self.now.nested) }
        ensures { Reads (at_level spec.branch self.now.levels reader.old) result reader.new }
    {
        let condition = Held::new(self.expression(reader)?);
        reader.expect(TokenKind::Word(Word::Then))?;
        let body = self.body(reader)?;
        Ok(Branch {
            condition: condition.into_inner(),
            body,
        })
    }

    #[tactic(auto, using(parse_steps::proofs::Steps::terminal_seen), unfolding(crate::specs::Parsing::more_branches))]
    fn more_branches(
        &self,
        reader: &mut Reader<'_>,
        mut all: Items<Branch>,
    ) -> Result<Items<Branch>, Stop>
        requires { Nests self.now.levels (F.pre self.now.nested) (F.post self.now.nested) }
        ensures { Reads (at_level spec.more_branches self.now.levels all reader.old) result reader.new }
    {
        for _turn in 0..reader.left() {
            if !reader.at(TokenKind::Word(Word::Elsif)) {
                return Ok(all);
            }
            reader.expect(TokenKind::Word(Word::Elsif))?;
            all.push(self.branch(reader)?)?;
        }
        Ok(all)
    }

    #[tactic(auto, using(parse_steps::proofs::Steps::terminal_seen), unfolding(crate::specs::Parsing::otherwise))]
    fn otherwise(&self, reader: &mut Reader<'_>) -> Result<Option<Items<Seq>>, Stop>
        requires { Nests self.now.levels (F.pre self.now.nested) (F.post self.now.nested) }
        ensures { Reads (at_level spec.otherwise self.now.levels reader.old) result reader.new }
    {
        if !reader.at(TokenKind::Word(Word::Else)) {
            return Ok(None);
        }
        reader.expect(TokenKind::Word(Word::Else))?;
        Ok(Some(self.body(reader)?))
    }

    #[tactic(auto, using(parse_steps::proofs::Steps::terminal_seen), unfolding(crate::specs::Parsing::rest_of_if))]
    fn rest_of_if(&self, reader: &mut Reader<'_>, place: Place, first: Branch) -> Result<Seq, Stop>
        requires { Nests self.now.levels (F.pre self.now.nested) (F.post self.now.nested) }
        ensures { Reads (at_level spec.rest_of_if self.now.levels place first reader.old) result reader.new }
    {
        let mut all = Items::new(self.alloc);
        all.push(first)?;
        let all = self.more_branches(reader, all)?;
        let other = Held::new(self.otherwise(reader)?);
        ending(reader, Word::If)?;
        Ok(Seq::If(place, all, other.into_inner()))
    }

    #[tactic(auto, using(parse_steps::proofs::Steps::terminal_seen), unfolding(crate::specs::Parsing::if_statement))]
    fn if_statement(&self, reader: &mut Reader<'_>) -> Result<Seq, Stop>
        requires { Nests self.now.levels (F.pre self.now.nested) (F.post self.now.nested) }
        ensures { Reads (at_level spec.if_statement self.now.levels reader.old) result reader.new }
    {
        let place = reader.expect_within(TokenKind::Word(Word::If), self.levels > 0, 0)?;
        let first = self.branch(reader)?;
        self.rest_of_if(reader, place, first)
    }

    #[tactic(auto, using(parse_steps::proofs::Steps::terminal_seen), unfolding(crate::specs::Parsing::alternative))]
    fn alternative(&self, reader: &mut Reader<'_>) -> Result<Alternative, Stop>
        requires { Nests self.now.levels (F.pre self.now.nested) (F.post self.now.nested) }
        ensures { Reads (at_level spec.alternative self.now.levels reader.old) result reader.new }
    {
        let choices = choices(self.alloc, reader, self.inside())?;
        let body = self.body(reader)?;
        Ok(Alternative { choices, body })
    }

    #[tactic(auto, using(parse_steps::proofs::Steps::terminal_seen), unfolding(crate::specs::Parsing::more_alternatives))]
    fn more_alternatives(
        &self,
        reader: &mut Reader<'_>,
        mut all: Items<Alternative>,
    ) -> Result<Items<Alternative>, Stop>
        requires { Nests self.now.levels (F.pre self.now.nested) (F.post self.now.nested) }
        ensures { Reads (at_level spec.more_alternatives self.now.levels all reader.old) result reader.new }
    {
        for _turn in 0..reader.left() {
            if !reader.at(TokenKind::Word(Word::When)) {
                return Ok(all);
            }
            all.push(self.alternative(reader)?)?;
        }
        Ok(all)
    }

    #[tactic(auto, using(parse_steps::proofs::Steps::terminal_seen), unfolding(crate::specs::Parsing::alternatives))]
    fn alternatives(&self, reader: &mut Reader<'_>) -> Result<Items<Alternative>, Stop>
        requires { Nests self.now.levels (F.pre self.now.nested) (F.post self.now.nested) }
        ensures { Reads (at_level spec.alternatives self.now.levels reader.old) result reader.new }
    {
        let mut all = Items::new(self.alloc);
        all.push(self.alternative(reader)?)?;
        self.more_alternatives(reader, all)
    }

    #[tactic(auto, using(parse_steps::proofs::Steps::terminal_seen), unfolding(crate::specs::Parsing::case_statement))]
    fn case_statement(&self, reader: &mut Reader<'_>) -> Result<Seq, Stop>
        requires { Nests self.now.levels (F.pre self.now.nested) (F.post self.now.nested) }
        ensures { Reads (at_level spec.case_statement self.now.levels reader.old) result reader.new }
    {
        let place = reader.expect_within(TokenKind::Word(Word::Case), self.levels > 0, 0)?;
        let value = Held::new(self.expression(reader)?);
        reader.expect(TokenKind::Word(Word::Is))?;
        let all = self.alternatives(reader)?;
        ending(reader, Word::Case)?;
        Ok(Seq::Case(place, value.into_inner(), all))
    }

    #[tactic(auto, using(parse_steps::proofs::Steps::terminal_seen), unfolding(crate::specs::Parsing::rest_of_loop))]
    fn rest_of_loop(
        &self,
        reader: &mut Reader<'_>,
        place: Place,
        iteration: Iteration,
    ) -> Result<Seq, Stop>
        requires { Nests self.now.levels (F.pre self.now.nested) (F.post self.now.nested) }
        ensures { Reads (at_level spec.rest_of_loop self.now.levels place iteration reader.old) result reader.new }
    {
        let iteration = Held::new(iteration);
        let body = self.body(reader)?;
        ending(reader, Word::Loop)?;
        Ok(Seq::Loop(place, iteration.into_inner(), body))
    }

    #[tactic(auto, using(parse_steps::proofs::Steps::terminal_seen), unfolding(crate::specs::Parsing::parameter))]
    fn parameter(&self, reader: &mut Reader<'_>) -> Result<Iteration, Stop>
        ensures { Reads (at_level spec.parameter self.now.levels reader.old) result reader.new }
    {
        let name = name(reader)?;
        reader.expect(TokenKind::Word(Word::In))?;
        let range = range(self.alloc, reader, self.inside())?;
        Ok(Iteration::For(name, range))
    }

    #[tactic(auto, using(parse_steps::proofs::Steps::terminal_seen), unfolding(crate::specs::Parsing::while_loop))]
    fn while_loop(&self, reader: &mut Reader<'_>) -> Result<Seq, Stop>
        requires { Nests self.now.levels (F.pre self.now.nested) (F.post self.now.nested) }
        ensures { Reads (at_level spec.while_loop self.now.levels reader.old) result reader.new }
    {
        let place = reader.expect_within(TokenKind::Word(Word::While), self.levels > 0, 0)?;
        let condition = Held::new(self.expression(reader)?);
        reader.expect(TokenKind::Word(Word::Loop))?;
        self.rest_of_loop(reader, place, Iteration::While(condition.into_inner()))
    }

    #[tactic(auto, using(parse_steps::proofs::Steps::terminal_seen), unfolding(crate::specs::Parsing::for_loop))]
    fn for_loop(&self, reader: &mut Reader<'_>) -> Result<Seq, Stop>
        requires { Nests self.now.levels (F.pre self.now.nested) (F.post self.now.nested) }
        ensures { Reads (at_level spec.for_loop self.now.levels reader.old) result reader.new }
    {
        let place = reader.expect_within(TokenKind::Word(Word::For), self.levels > 0, 0)?;
        let iteration = Held::new(self.parameter(reader)?);
        reader.expect(TokenKind::Word(Word::Loop))?;
        self.rest_of_loop(reader, place, iteration.into_inner())
    }

    #[tactic(auto, using(parse_steps::proofs::Steps::terminal_seen), unfolding(crate::specs::Parsing::plain_loop))]
    fn plain_loop(&self, reader: &mut Reader<'_>) -> Result<Seq, Stop>
        requires { Nests self.now.levels (F.pre self.now.nested) (F.post self.now.nested) }
        ensures { Reads (at_level spec.plain_loop self.now.levels reader.old) result reader.new }
    {
        let place = reader.expect_within(TokenKind::Word(Word::Loop), self.levels > 0, 0)?;
        self.rest_of_loop(reader, place, Iteration::Endless)
    }

    #[tactic(auto, using(parse_steps::proofs::Steps::terminal_seen), unfolding(crate::specs::Parsing::compound_statement))]
    fn compound_statement(&self, reader: &mut Reader<'_>) -> Result<Seq, Stop>
        requires { Nests self.now.levels (F.pre self.now.nested) (F.post self.now.nested) }
        ensures { Reads (at_level spec.compound_statement self.now.levels reader.old) result reader.new }
    {
        if reader.at(TokenKind::Word(Word::If)) {
            return self.if_statement(reader);
        }
        if reader.at(TokenKind::Word(Word::Case)) {
            return self.case_statement(reader);
        }
        if reader.at(TokenKind::Word(Word::While)) {
            return self.while_loop(reader);
        }
        if reader.at(TokenKind::Word(Word::For)) {
            return self.for_loop(reader);
        }
        self.plain_loop(reader)
    }

    #[tactic(auto, using(parse_steps::proofs::Steps::terminal_seen), unfolding(crate::specs::Parsing::any_statement))]
    fn any(&self, reader: &mut Reader<'_>) -> Result<Seq, Stop>
        requires { Nests self.now.levels (F.pre self.now.nested) (F.post self.now.nested) }
        ensures { Reads (spec.any_statement (nested most_operators self.now.levels) most_operators self.now.levels reader.old) result reader.new }
    {
        if begins_simple(reader.peek()) {
            return simple_statement(self.alloc, reader, self.levels);
        }
        self.compound_statement(reader)
    }
}

/// The statement inside another one, where `levels` more could open before that.
#[tactic(auto, unfolding(crate::specs::Parsing::nested))]
fn nested(alloc: Global, reader: &mut Reader<'_>, levels: u32) -> Result<Seq, Stop>
    ensures { Reads (nested most_operators levels reader.old) result reader.new }
{
    if levels == 0 {
        return Err(Stop::TooDeep(reader.left()));
    }
    Statements {
        alloc,
        levels: levels - 1,
        nested,
    }
    .any(reader)
}

/// A statement, in which `levels` may be open.
#[tactic(auto, unfolding(crate::specs::Parsing::statement))]
pub fn any_statement(alloc: Global, reader: &mut Reader<'_>, levels: u32) -> Result<Seq, Stop>
    ensures { Reads (spec.statement most_operators levels reader.old) result reader.new }
{
    Statements {
        alloc,
        levels,
        nested,
    }
    .any(reader)
}
