//! The rules of expressions, which take the reading of the expression in parentheses as a parameter, so that each is
//! proved by itself.

ghost use Rattle.std.specs.Prelude.{◌≡◌, IfOk};
ghost use Rattle.ams_tree.specs.Terminals as terminals;
ghost use Rattle.ams_tree.specs.Expressions.{allows};
ghost use Rattle.parse_steps.specs.Reading.{Reads};
ghost use Rattle.parse_expr.specs.Parsing as spec;
ghost use Rattle.parse_expr.specs.Parsing.{nested, inside};
ghost use Rattle.parse_expr.specs.Nests.{Nests};

use crate::tokens::{
    adding, literal_of, multiplying, name_of, number_of, prefix, relating, shifting, sign,
};
use ams_token::{Mark, Place, TokenKind, Word};
use ams_tree::{Attribute, BinaryOperator, Expr, Name, UnaryOperator};
use held_value::Held;
use parse_steps::{MOST_OPERATORS, Reader, Stop};
use sqlite_items::{Boxed, Items};
use std::alloc::{AllocError, Global};

fn unary(alloc: Global, op: (UnaryOperator, Place), x: Expr) -> Result<Expr, AllocError>
    ensures { IfOk result (λ e. e ≡ Expr.Unary op.0 op.1 x) }
{
    Ok(Expr::Unary(op.0, op.1, Boxed::new(alloc, x)?))
}

fn binary(alloc: Global, op: BinaryOperator, x: Expr, y: Expr) -> Result<Expr, AllocError>
    ensures { IfOk result (λ e. e ≡ Expr.Binary op x y) }
{
    let y = Held::new(y);
    let x = Boxed::new(alloc, x)?;
    Ok(Expr::Binary(op, x, Boxed::new(alloc, y.into_inner())?))
}

#[tactic(auto, using(parse_steps::proofs::Steps::terminal_seen), unfolding(crate::specs::Parsing::unit))]
fn unit(reader: &mut Reader<'_>) -> Result<Option<Name>, Stop>
    ensures { Reads (spec.unit reader.old) result reader.new }
{
    let Some(name) = name_of(reader.peek()) else {
        return Ok(None);
    };
    reader.take(true, 0)?;
    Ok(Some(name))
}

#[derive(Clone, Copy)]
pub struct Rules<F> {
    pub alloc: Global,
    /// How many parentheses may still open.
    pub levels: u32,
    /// Whether the expressions in parentheses are those of a name in a list, and so outermost ones.
    pub listed: bool,
    pub nested: F,
}

impl<F: Fn(Global, &mut Reader<'_>, u32) -> Result<Expr, Stop>> Rules<F> {
    #[tactic(auto, unfolding(crate::specs::Parsing::inside))]
    fn nested(&self, reader: &mut Reader<'_>) -> Result<Expr, Stop>
        requires { Nests self.now.levels (F.pre self.now.nested) (F.post self.now.nested) }
        ensures { Reads (inside self.now.listed self.now.levels reader.old) result reader.new }
    {
        if !self.listed {
            return (self.nested)(self.alloc, reader, self.levels);
        }
        let mut inner = reader.fresh(MOST_OPERATORS);
        let found = (self.nested)(self.alloc, &mut inner, self.levels)?;
        reader.resume(&inner);
        Ok(found)
    }

    #[tactic(auto, using(parse_steps::proofs::Steps::terminal_seen), unfolding(crate::specs::Parsing::grouped))]
    fn grouped(&self, reader: &mut Reader<'_>) -> Result<(Place, Expr), Stop>
        requires { Nests self.now.levels (F.pre self.now.nested) (F.post self.now.nested) }
        ensures { Reads (spec.grouped (allows self.now.levels) (inside self.now.listed self.now.levels) reader.old) result reader.new }
    {
        let place = reader.expect_within(TokenKind::Mark(Mark::LeftParen), self.levels > 0, 0)?;
        let inner = Held::new(self.nested(reader)?);
        reader.expect(TokenKind::Mark(Mark::RightParen))?;
        Ok((place, inner.into_inner()))
    }

    #[tactic(auto, using(parse_steps::proofs::Steps::terminal_seen), unfolding(crate::specs::Parsing::ramp_fall))]
    fn ramp_fall(&self, reader: &mut Reader<'_>) -> Result<Option<Boxed<Expr>>, Stop>
        requires { Nests self.now.levels (F.pre self.now.nested) (F.post self.now.nested) }
        ensures { Reads (spec.ramp_fall (allows self.now.levels) (inside self.now.listed self.now.levels) reader.old) result reader.new }
    {
        if !reader.at(TokenKind::Mark(Mark::Comma)) {
            return Ok(None);
        }
        reader.expect(TokenKind::Mark(Mark::Comma))?;
        let time = self.nested(reader)?;
        Ok(Some(Boxed::new(self.alloc, time)?))
    }

    #[tactic(auto, using(parse_steps::proofs::Steps::terminal_seen), unfolding(crate::specs::Parsing::ramp_times))]
    fn ramp_times(&self, reader: &mut Reader<'_>) -> Result<Attribute, Stop>
        requires { Nests self.now.levels (F.pre self.now.nested) (F.post self.now.nested) }
        ensures { Reads (spec.ramp_times (allows self.now.levels) (inside self.now.listed self.now.levels) reader.old) result reader.new }
    {
        reader.expect_within(TokenKind::Mark(Mark::LeftParen), self.levels > 0, 0)?;
        let rise = Boxed::new(self.alloc, self.nested(reader)?)?;
        let fall = Held::new(self.ramp_fall(reader)?);
        reader.expect(TokenKind::Mark(Mark::RightParen))?;
        Ok(Attribute::Ramp(Some(rise), fall.into_inner()))
    }

    #[tactic(auto, using(parse_steps::proofs::Steps::terminal_seen), unfolding(crate::specs::Parsing::ramped))]
    fn ramped(&self, reader: &mut Reader<'_>) -> Result<Attribute, Stop>
        requires { Nests self.now.levels (F.pre self.now.nested) (F.post self.now.nested) }
        ensures { Reads (spec.ramped (allows self.now.levels) (inside self.now.listed self.now.levels) reader.old) result reader.new }
    {
        reader.expect(TokenKind::RAMP)?;
        if reader.at(TokenKind::Mark(Mark::LeftParen)) {
            return self.ramp_times(reader);
        }
        Ok(Attribute::Ramp(None, None))
    }

    #[tactic(auto, using(parse_steps::proofs::Steps::terminal_seen), unfolding(crate::specs::Parsing::attribute))]
    fn attribute(&self, reader: &mut Reader<'_>) -> Result<Attribute, Stop>
        requires { Nests self.now.levels (F.pre self.now.nested) (F.post self.now.nested) }
        ensures { Reads (spec.attribute (allows self.now.levels) (inside self.now.listed self.now.levels) reader.old) result reader.new }
    {
        if reader.at(TokenKind::EVENT) {
            reader.expect(TokenKind::EVENT)?;
            return Ok(Attribute::Event);
        }
        if reader.at(TokenKind::DOT) {
            reader.expect(TokenKind::DOT)?;
            return Ok(Attribute::Dot);
        }
        if reader.at(TokenKind::Word(Word::Reference)) {
            reader.expect(TokenKind::Word(Word::Reference))?;
            return Ok(Attribute::Reference);
        }
        if reader.at(TokenKind::ABOVE) {
            reader.expect(TokenKind::ABOVE)?;
            let level = self.grouped(reader)?;
            return Ok(Attribute::Above(Boxed::new(self.alloc, level.1)?));
        }
        self.ramped(reader)
    }

    #[tactic(auto, using(parse_steps::proofs::Steps::terminal_seen), unfolding(crate::specs::Parsing::named))]
    pub fn named(&self, reader: &mut Reader<'_>, cost: u32, name: Name) -> Result<Expr, Stop>
        requires { Nests self.now.levels (F.pre self.now.nested) (F.post self.now.nested) }
        ensures { Reads (spec.named (allows self.now.levels) (inside self.now.listed self.now.levels) cost name reader.old) result reader.new }
    {
        if reader.at(TokenKind::Mark(Mark::LeftParen)) {
            return Ok(Expr::Call(name, self.arguments(reader, cost)?));
        }
        if reader.at(TokenKind::Mark(Mark::Tick)) {
            reader.expect_within(TokenKind::Mark(Mark::Tick), true, cost)?;
            return Ok(Expr::Attribute(name, self.attribute(reader)?));
        }
        Ok(Expr::Name(name))
    }

    #[tactic(auto, using(parse_steps::proofs::Steps::terminal_seen), unfolding(crate::specs::Parsing::primary, crate::specs::Parsing::number))]
    fn primary(&self, reader: &mut Reader<'_>) -> Result<Expr, Stop>
        requires { Nests self.now.levels (F.pre self.now.nested) (F.post self.now.nested) }
        ensures { Reads (spec.primary (allows self.now.levels) (inside self.now.listed self.now.levels) reader.old) result reader.new }
    {
        if let Some(number) = number_of(reader.peek()) {
            reader.take(true, 0)?;
            return Ok(Expr::Number(number, unit(reader)?));
        }
        if let Some(literal) = literal_of(reader.peek()) {
            reader.take(true, 0)?;
            return Ok(Expr::Literal(literal));
        }
        if let Some(name) = name_of(reader.peek()) {
            reader.take(true, 0)?;
            return self.named(reader, 1, name);
        }
        let (place, inner) = self.grouped(reader)?;
        Ok(Expr::Paren(place, Boxed::new(self.alloc, inner)?))
    }

    #[tactic(auto, using(parse_steps::proofs::Steps::terminal_seen), unfolding(crate::specs::Parsing::power))]
    fn power(&self, reader: &mut Reader<'_>) -> Result<Expr, Stop>
        requires { Nests self.now.levels (F.pre self.now.nested) (F.post self.now.nested) }
        ensures { Reads (spec.power (allows self.now.levels) (inside self.now.listed self.now.levels) reader.old) result reader.new }
    {
        let base = Held::new(self.primary(reader)?);
        if !reader.at(TokenKind::Mark(Mark::DoubleStar)) {
            return Ok(base.into_inner());
        }
        reader.expect_within(TokenKind::Mark(Mark::DoubleStar), true, 1)?;
        let exponent = self.primary(reader)?;
        Ok(binary(
            self.alloc,
            BinaryOperator::Power,
            base.into_inner(),
            exponent,
        )?)
    }

    #[tactic(auto, using(parse_steps::proofs::Steps::terminal_seen), unfolding(crate::specs::Parsing::factor))]
    fn factor(&self, reader: &mut Reader<'_>) -> Result<Expr, Stop>
        requires { Nests self.now.levels (F.pre self.now.nested) (F.post self.now.nested) }
        ensures { Reads (spec.factor (allows self.now.levels) (inside self.now.listed self.now.levels) reader.old) result reader.new }
    {
        let Some(op) = prefix(reader.peek()) else {
            return self.power(reader);
        };
        reader.take(true, 1)?;
        let operand = self.primary(reader)?;
        Ok(unary(self.alloc, op, operand)?)
    }

    #[tactic(auto, using(parse_steps::proofs::Steps::terminal_seen), unfolding(crate::specs::Parsing::signed))]
    fn signed(&self, reader: &mut Reader<'_>) -> Result<Expr, Stop>
        requires { Nests self.now.levels (F.pre self.now.nested) (F.post self.now.nested) }
        ensures { Reads (spec.signed (allows self.now.levels) (inside self.now.listed self.now.levels) reader.old) result reader.new }
    {
        let Some(op) = sign(reader.peek()) else {
            return self.term(reader);
        };
        reader.take(true, 1)?;
        let operand = self.term(reader)?;
        Ok(unary(self.alloc, op, operand)?)
    }

    #[tactic(auto, using(parse_steps::proofs::Steps::terminal_seen), unfolding(crate::specs::Parsing::shift))]
    fn shift(&self, reader: &mut Reader<'_>) -> Result<Expr, Stop>
        requires { Nests self.now.levels (F.pre self.now.nested) (F.post self.now.nested) }
        ensures { Reads (spec.shift (allows self.now.levels) (inside self.now.listed self.now.levels) reader.old) result reader.new }
    {
        let left = Held::new(self.simple(reader)?);
        let Some(op) = shifting(reader.peek()) else {
            return Ok(left.into_inner());
        };
        reader.take(true, 1)?;
        let right = self.simple(reader)?;
        Ok(binary(self.alloc, op, left.into_inner(), right)?)
    }

    #[tactic(auto, using(parse_steps::proofs::Steps::terminal_seen), unfolding(crate::specs::Parsing::rel))]
    fn rel(&self, reader: &mut Reader<'_>) -> Result<Expr, Stop>
        requires { Nests self.now.levels (F.pre self.now.nested) (F.post self.now.nested) }
        ensures { Reads (spec.rel (allows self.now.levels) (inside self.now.listed self.now.levels) reader.old) result reader.new }
    {
        let left = Held::new(self.shift(reader)?);
        let Some(op) = relating(reader.peek()) else {
            return Ok(left.into_inner());
        };
        reader.take(true, 1)?;
        let right = self.shift(reader)?;
        Ok(binary(self.alloc, op, left.into_inner(), right)?)
    }

    #[tactic(auto, using(parse_steps::proofs::Steps::terminal_seen), unfolding(crate::specs::Parsing::term))]
    fn term(&self, reader: &mut Reader<'_>) -> Result<Expr, Stop>
        requires { Nests self.now.levels (F.pre self.now.nested) (F.post self.now.nested) }
        ensures { Reads (spec.term (allows self.now.levels) (inside self.now.listed self.now.levels) reader.old) result reader.new }
    {
        let first = self.factor(reader)?;
        self.more_factors(reader, first)
    }

    #[tactic(auto, using(parse_steps::proofs::Steps::terminal_seen), unfolding(crate::specs::Parsing::simple))]
    pub fn simple(&self, reader: &mut Reader<'_>) -> Result<Expr, Stop>
        requires { Nests self.now.levels (F.pre self.now.nested) (F.post self.now.nested) }
        ensures { Reads (spec.simple (allows self.now.levels) (inside self.now.listed self.now.levels) reader.old) result reader.new }
    {
        let first = self.signed(reader)?;
        self.more_terms(reader, first)
    }

    #[tactic(auto, using(parse_steps::proofs::Steps::terminal_seen), unfolding(crate::specs::Parsing::logical))]
    pub fn logical(&self, reader: &mut Reader<'_>) -> Result<Expr, Stop>
        requires { Nests self.now.levels (F.pre self.now.nested) (F.post self.now.nested) }
        ensures { Reads (spec.logical (allows self.now.levels) (inside self.now.listed self.now.levels) reader.old) result reader.new }
    {
        let first = self.rel(reader)?;
        self.more_relations(reader, first)
    }

    #[tactic(auto, using(parse_steps::proofs::Steps::terminal_seen), unfolding(crate::specs::Parsing::more_factors))]
    fn more_factors(&self, reader: &mut Reader<'_>, left: Expr) -> Result<Expr, Stop>
        requires { Nests self.now.levels (F.pre self.now.nested) (F.post self.now.nested) }
        ensures { Reads (spec.more_factors (allows self.now.levels) (inside self.now.listed self.now.levels) left reader.old) result reader.new }
    {
        let mut left = Held::new(left);
        for _turn in 0..reader.left() {
            let Some(op) = multiplying(reader.peek()) else {
                return Ok(left.into_inner());
            };
            reader.take(true, 1)?;
            let right = self.factor(reader)?;
            left = Held::new(binary(self.alloc, op, left.into_inner(), right)?);
        }
        Ok(left.into_inner())
    }

    #[tactic(auto, using(parse_steps::proofs::Steps::terminal_seen), unfolding(crate::specs::Parsing::more_terms))]
    fn more_terms(&self, reader: &mut Reader<'_>, left: Expr) -> Result<Expr, Stop>
        requires { Nests self.now.levels (F.pre self.now.nested) (F.post self.now.nested) }
        ensures { Reads (spec.more_terms (allows self.now.levels) (inside self.now.listed self.now.levels) left reader.old) result reader.new }
    {
        let mut left = Held::new(left);
        for _turn in 0..reader.left() {
            let Some(op) = adding(reader.peek()) else {
                return Ok(left.into_inner());
            };
            reader.take(true, 1)?;
            let right = self.term(reader)?;
            left = Held::new(binary(self.alloc, op, left.into_inner(), right)?);
        }
        Ok(left.into_inner())
    }

    #[tactic(auto, using(parse_steps::proofs::Steps::terminal_seen), unfolding(crate::specs::Parsing::arguments))]
    fn arguments(&self, reader: &mut Reader<'_>, cost: u32) -> Result<Items<Expr>, Stop>
        requires { Nests self.now.levels (F.pre self.now.nested) (F.post self.now.nested) }
        ensures { Reads (spec.arguments (allows self.now.levels) (inside self.now.listed self.now.levels) cost reader.old) result reader.new }
    {
        reader.expect_within(TokenKind::Mark(Mark::LeftParen), self.levels > 0, cost)?;
        let mut all = Items::new(self.alloc);
        all.push(self.nested(reader)?)?;
        let all = self.more_arguments(reader, all)?;
        reader.expect(TokenKind::Mark(Mark::RightParen))?;
        Ok(all)
    }

    #[tactic(auto, using(parse_steps::proofs::Steps::terminal_seen), unfolding(crate::specs::Parsing::more_arguments))]
    fn more_arguments(
        &self,
        reader: &mut Reader<'_>,
        mut all: Items<Expr>,
    ) -> Result<Items<Expr>, Stop>
        requires { Nests self.now.levels (F.pre self.now.nested) (F.post self.now.nested) }
        ensures { Reads (spec.more_arguments (allows self.now.levels) (inside self.now.listed self.now.levels) all reader.old) result reader.new }
    {
        for _turn in 0..reader.left() {
            if !reader.at(TokenKind::Mark(Mark::Comma)) {
                return Ok(all);
            }
            reader.expect(TokenKind::Mark(Mark::Comma))?;
            all.push(self.nested(reader)?)?;
        }
        Ok(all)
    }

    #[tactic(auto, using(parse_steps::proofs::Steps::terminal_seen), unfolding(crate::specs::Parsing::once))]
    fn once(
        &self,
        reader: &mut Reader<'_>,
        word: Word,
        op: BinaryOperator,
        left: Expr,
    ) -> Result<Expr, Stop>
        requires { Nests self.now.levels (F.pre self.now.nested) (F.post self.now.nested) }
        ensures { Reads (spec.once (allows self.now.levels) (inside self.now.listed self.now.levels) (terminals.word word) op left reader.old) result reader.new }
    {
        let left = Held::new(left);
        reader.expect_within(TokenKind::Word(word), true, 1)?;
        let right = self.rel(reader)?;
        Ok(binary(self.alloc, op, left.into_inner(), right)?)
    }

    #[tactic(auto, using(parse_steps::proofs::Steps::terminal_seen), unfolding(crate::specs::Parsing::chain))]
    fn chain(
        &self,
        reader: &mut Reader<'_>,
        word: Word,
        op: BinaryOperator,
        left: Expr,
    ) -> Result<Expr, Stop>
        requires { Nests self.now.levels (F.pre self.now.nested) (F.post self.now.nested) }
        ensures { Reads (spec.chain (allows self.now.levels) (inside self.now.listed self.now.levels) (terminals.word word) op left reader.old) result reader.new }
    {
        let first = self.once(reader, word, op, left)?;
        self.more_links(reader, word, op, first)
    }

    #[tactic(auto, using(parse_steps::proofs::Steps::terminal_seen), unfolding(crate::specs::Parsing::more_links))]
    fn more_links(
        &self,
        reader: &mut Reader<'_>,
        word: Word,
        op: BinaryOperator,
        left: Expr,
    ) -> Result<Expr, Stop>
        requires { Nests self.now.levels (F.pre self.now.nested) (F.post self.now.nested) }
        ensures { Reads (spec.more_links (allows self.now.levels) (inside self.now.listed self.now.levels) (terminals.word word) op left reader.old) result reader.new }
    {
        let mut left = Held::new(left);
        for _turn in 0..reader.left() {
            if !reader.at(TokenKind::Word(word)) {
                return Ok(left.into_inner());
            }
            reader.expect_within(TokenKind::Word(word), true, 1)?;
            let right = self.rel(reader)?;
            left = Held::new(binary(self.alloc, op, left.into_inner(), right)?);
        }
        Ok(left.into_inner())
    }

    #[tactic(auto, using(parse_steps::proofs::Steps::terminal_seen), unfolding(crate::specs::Parsing::more_relations))]
    fn more_relations(&self, reader: &mut Reader<'_>, left: Expr) -> Result<Expr, Stop>
        requires { Nests self.now.levels (F.pre self.now.nested) (F.post self.now.nested) }
        ensures { Reads (spec.more_relations (allows self.now.levels) (inside self.now.listed self.now.levels) left reader.old) result reader.new }
    {
        if reader.at(TokenKind::Word(Word::And)) {
            return self.chain(reader, Word::And, BinaryOperator::And, left);
        }
        if reader.at(TokenKind::Word(Word::Or)) {
            return self.chain(reader, Word::Or, BinaryOperator::Or, left);
        }
        if reader.at(TokenKind::Word(Word::Xor)) {
            return self.chain(reader, Word::Xor, BinaryOperator::Xor, left);
        }
        if reader.at(TokenKind::Word(Word::Xnor)) {
            return self.chain(reader, Word::Xnor, BinaryOperator::Xnor, left);
        }
        if reader.at(TokenKind::Word(Word::Nand)) {
            return self.once(reader, Word::Nand, BinaryOperator::Nand, left);
        }
        if reader.at(TokenKind::Word(Word::Nor)) {
            return self.once(reader, Word::Nor, BinaryOperator::Nor, left);
        }
        Ok(left)
    }
}

/// The expression in parentheses, where `levels` more could open before them.
#[tactic(auto, unfolding(crate::specs::Parsing::nested, crate::specs::Parsing::inside))]
pub fn nested(alloc: Global, reader: &mut Reader<'_>, levels: u32) -> Result<Expr, Stop>
    ensures { Reads (nested levels reader.old) result reader.new }
{
    if levels == 0 {
        return Err(Stop::TooDeep(reader.left()));
    }
    Rules {
        alloc,
        levels: levels - 1,
        listed: false,
        nested,
    }
    .logical(reader)
}
