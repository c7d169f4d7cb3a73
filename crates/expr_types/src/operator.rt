//! Operators and parentheses.
ghost use Rattle.std.specs.Prelude.{◌≡◌, Some, IfOk, IfSome};
ghost use Rattle.flat_expr.specs.declared.expr.FlatExpr.TheVariants as e;
ghost use Rattle.elab_meaning.specs.Expressions as spec;
ghost use Rattle.elab_meaning.specs.Notes as noted;
ghost use Rattle.elab_meaning.specs.Kinds.{unary_kind, binary_kind, value_type};
ghost use Rattle.elab_meaning.specs.Values.{unary_value, joined_value};
ghost use Rattle.elab_meaning.specs.declared.fault.Notes.{Notes};
ghost use Rattle.expr_types.specs.Known.{Finds, IsSound};

use crate::kinds::{binary_kind, unary_kind, value_type};
use crate::noting::wrong;
use crate::value::{joined_value, unary_value};
use ams_token::Place;
use ams_tree::{BinaryOperator as Binary, UnaryOperator as Unary};
use ams_value::{BinaryOperator, UnaryOperator, results_are_typed};
use elab_meaning::{Notes, Typed};
use flat_expr::FlatExpr;
use name_scope::Kind;
use std::alloc::{AllocError, Global};

fn prefix(op: Unary) -> UnaryOperator
    ensures { result ≡ spec.prefix op }
{
    match op {
        Unary::Plus => UnaryOperator::Plus,
        Unary::Minus => UnaryOperator::Minus,
        Unary::Abs => UnaryOperator::Abs,
        Unary::Not => UnaryOperator::Not,
    }
}

fn infix_of(op: Binary) -> BinaryOperator
    ensures { result ≡ spec.infix_of op }
{
    match op {
        Binary::And => BinaryOperator::And,
        Binary::Or => BinaryOperator::Or,
        Binary::Xor => BinaryOperator::Xor,
        Binary::Xnor => BinaryOperator::Xnor,
        Binary::Nand => BinaryOperator::Nand,
        Binary::Nor => BinaryOperator::Nor,
        Binary::Equal => BinaryOperator::Equal,
        Binary::NotEqual => BinaryOperator::NotEqual,
        Binary::Less => BinaryOperator::Less,
        Binary::LessEqual => BinaryOperator::LessEqual,
        Binary::Greater => BinaryOperator::Greater,
        Binary::GreaterEqual => BinaryOperator::GreaterEqual,
        Binary::ShiftLeftLogical => BinaryOperator::Sll,
        Binary::ShiftRightLogical => BinaryOperator::Srl,
        Binary::ShiftLeftArithmetic => BinaryOperator::Sla,
        Binary::ShiftRightArithmetic => BinaryOperator::Sra,
        Binary::RotateLeft => BinaryOperator::Rol,
        Binary::RotateRight => BinaryOperator::Ror,
        Binary::Add => BinaryOperator::Add,
        Binary::Subtract => BinaryOperator::Subtract,
        Binary::Concat => BinaryOperator::Concat,
        Binary::Multiply => BinaryOperator::Multiply,
        Binary::Divide => BinaryOperator::Divide,
        Binary::Mod => BinaryOperator::Mod,
        Binary::Rem => BinaryOperator::Rem,
        Binary::Power => BinaryOperator::Power,
    }
}

#[tactic(auto, using(crate::proofs::Sound::may_unary, crate::proofs::Sound::unary_sound))]
fn prefixed(
    alloc: Global,
    op: UnaryOperator,
    place: Place,
    operand: Typed,
    kind: Kind,
) -> Result<Typed, AllocError>
    requires kind { unary_kind op operand.kind ≡ Some kind }
    requires sound { IsSound operand }
    ensures made { IfOk result (λ t. t ≡ record { place = place; kind = kind; expr = e.Unary op (value_type kind) operand.expr; value = unary_value op operand.value }) }
    ensures sound { IfOk result IsSound }
{
    results_are_typed();
    let value = unary_value(op, operand.value);
    Ok(Typed {
        place,
        kind,
        expr: FlatExpr::unary(alloc, op, value_type(kind), operand.expr)?,
        value,
    })
}

/// An operator before an expression; none where that breaks a rule.
pub fn unary_at(
    alloc: Global,
    op: Unary,
    place: Place,
    operand: Option<Typed>,
    notes: &mut Notes,
) -> Result<Option<Typed>, AllocError>
    requires { IfSome operand IsSound }
    ensures found { Finds (spec.unary_at (spec.prefix op) place operand notes.old) result notes.new }
    ensures sound { IfOk result (λ t. IfSome t IsSound) }
{
    let Some(operand) = operand else {
        return Ok(None);
    };
    let op = prefix(op);
    match unary_kind(op, operand.kind) {
        Some(kind) => Ok(Some(prefixed(alloc, op, place, operand, kind)?)),
        None => {
            drop(operand);
            wrong(notes, place)
        }
    }
}

#[tactic(auto, using(crate::proofs::Sound::may_join, crate::proofs::Sound::joined_sound))]
fn joined(
    alloc: Global,
    op: BinaryOperator,
    left: Typed,
    right: Typed,
    kind: Kind,
) -> Result<Typed, AllocError>
    requires kind { binary_kind op left.kind right.kind ≡ Some kind }
    requires left { IsSound left }
    requires right { IsSound right }
    ensures made { IfOk result (λ t. t ≡ record { place = left.place; kind = kind; expr = e.Binary op (value_type kind) left.expr right.expr; value = joined_value op left.kind right.kind left.value right.value }) }
    ensures sound { IfOk result IsSound }
{
    results_are_typed();
    let place = left.place;
    let value = joined_value(op, left.kind, right.kind, left.value, right.value);
    Ok(Typed {
        place,
        kind,
        expr: FlatExpr::binary(alloc, op, value_type(kind), left.expr, right.expr)?,
        value,
    })
}

/// Two operands that the operator between them has no meaning for.
fn unfit(left: Typed, right: Typed, notes: &mut Notes) -> Result<Option<Typed>, AllocError>
    ensures found { Finds (noted.wrong left.place notes.old) result notes.new }
    ensures sound { IfOk result (λ t. IfSome t IsSound) }
{
    let place = left.place;
    drop(left);
    drop(right);
    wrong(notes, place)
}

/// An operator between two expressions; none where one of them breaks a rule.
pub fn binary_at(
    alloc: Global,
    op: Binary,
    left: Option<Typed>,
    right: Option<Typed>,
    notes: &mut Notes,
) -> Result<Option<Typed>, AllocError>
    requires left { IfSome left IsSound }
    requires right { IfSome right IsSound }
    ensures found { Finds (spec.binary_at (spec.infix_of op) left right notes.old) result notes.new }
    ensures sound { IfOk result (λ t. IfSome t IsSound) }
{
    let Some(left) = left else {
        drop(right);
        return Ok(None);
    };
    let Some(right) = right else {
        drop(left);
        return Ok(None);
    };
    let op = infix_of(op);
    match binary_kind(op, left.kind, right.kind) {
        Some(kind) => Ok(Some(joined(alloc, op, left, right, kind)?)),
        None => unfit(left, right, notes),
    }
}

/// An expression in parentheses.
pub fn parenthesized(place: Place, inner: Option<Typed>) -> Option<Typed>
    requires { IfSome inner IsSound }
    ensures made { (n : Notes) → spec.parenthesized place inner n ≡ (n, result) }
    ensures sound { IfSome result IsSound }
{
    let inner = inner?;
    Some(Typed {
        place,
        kind: inner.kind,
        expr: inner.expr,
        value: inner.value,
    })
}
