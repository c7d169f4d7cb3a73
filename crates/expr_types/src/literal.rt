//! Literals.
ghost use Rattle.std.specs.Prelude.{◌≡◌, ℕ, ◌+◌, ◌<◌, ◌≤◌, ◌*◌, ◌/◌, ◌^◌, Some, IfOk, IfSome, length};
ghost use Rattle.std.specs.List.{fold};
ghost use Rattle.flat_expr.specs.declared.expr.FlatExpr.TheVariants as e;
ghost use Rattle.elab_meaning.specs.declared.typed.StaticValue.TheVariants as known;
ghost use Rattle.fix_core.specs.Units.{most_ticks};
ghost use Rattle.ams_value.specs.Ranges.{most_integer};
ghost use Rattle.elab_meaning.specs.Literals as spec;
ghost use Rattle.elab_meaning.specs.Notes as noted;
ghost use Rattle.name_scope.specs.declared.thing.Kind.TheVariants.{Of};
ghost use Rattle.name_scope.specs.Scopes.{lookup};
ghost use Rattle.ams_value.specs.Types.{IsValue, type_of};
ghost use Rattle.ams_tree.specs.declared.expression.NumberValue.TheVariants as written;
ghost use Rattle.expr_types.specs.Known.{Finds, IsSound, limited};

use crate::noting::{note, wrong};
use ams_token::{Decimal, Integer, Names, Place};
use ams_tree::{Literal, LiteralValue, Name, Number, NumberValue};
use ams_value::{Val, ValueType};
use elab_meaning::{Cause, Notes, Scale, StaticValue, Typed};
use fix_core::Fix;
use flat_expr::FlatExpr;
use name_scope::{Kind, Scope, Thing};
use std::alloc::AllocError;

/// The text of a name or of a string by its number.
pub fn text_of(names: &Names, number: u32) -> &str
    ensures { result.now ≡ noted.text_of names.now number }
{
    if (number as usize) < names.len() {
        names.text(number)
    } else {
        ""
    }
}

pub fn literal(place: Place, value: &Val) -> Typed
    requires { IsValue value.now }
    ensures made { result ≡ record { place = place; kind = Of (type_of value.now); expr = e.Literal value.now; value = known.Known value.now } }
    ensures sound { IsSound result }
{
    Typed {
        place,
        kind: Kind::Of(ValueType::of(*value)),
        expr: FlatExpr::Literal(*value),
        value: StaticValue::Known(*value),
    }
}

fn in_range(
    place: Place,
    value: &Option<Val>,
    notes: &mut Notes,
) -> Result<Option<Typed>, AllocError>
    requires { IfSome value.now IsValue }
    ensures found { Finds (spec.in_range place value.now notes.old) result notes.new }
    ensures sound { IfOk result (λ t. IfSome t IsSound) }
{
    match value {
        Some(value) => Ok(Some(literal(place, value))),
        None => wrong(notes, place),
    }
}

/// So many times a base to a power, where that is at most the limit.
#[tactic(auto, using(crate::proofs::Powers::raised_last, crate::proofs::Powers::raised_step, crate::proofs::Powers::raised_over, crate::proofs::Powers::raised_none))]
fn raised(digits: u128, base: u32, exponent: u64, limit: u128) -> Option<u128>
    ensures { result ≡ limited limit (digits * base ^ exponent) }
{
    if digits == 0 {
        return limited(limit, digits);
    }
    if exponent == 0 {
        return limited(limit, digits);
    }
    match digits.checked_mul(u128::from(base)) {
        Some(next) => raised(next, base, exponent - 1, limit),
        None => None,
    }
}

fn limited(limit: u128, value: u128) -> Option<u128>
    ensures { result ≡ limited limit value }
{
    if value <= limit { Some(value) } else { None }
}

/// A number without its last decimal digits, so many.
#[tactic(auto, using(crate::proofs::Powers::lowered_none, crate::proofs::Powers::lowered_last, crate::proofs::Powers::lowered_step))]
fn lowered(m: u128, digits: u64) -> u128
    ensures { result ≡ m / 10 ^ digits }
{
    if m == 0 {
        return m;
    }
    if digits == 0 {
        return m;
    }
    lowered(m / 10, digits - 1)
}

fn integer_of(integer: Integer) -> Option<u128>
    ensures { result ≡ limited most_integer (spec.integer_value integer) }
{
    raised(
        integer.digits,
        u32::from(integer.base),
        u64::from(integer.exponent),
        2_147_483_647,
    )
}

fn integer_literal(integer: Integer) -> Option<Val>
    ensures value { result ≡ spec.integer_literal integer }
    ensures sound { IfSome result IsValue }
{
    match integer_of(integer) {
        Some(value) => Some(Val::Int(value as i32)),
        None => None,
    }
}

fn real_literal(real: Decimal) -> Option<Val>
    ensures value { result ≡ spec.real_literal real }
    ensures sound { IfSome result IsValue }
{
    if real.digits < 100_000_000_000_000_000_000_000_000_000_000 {
        if let Ok(units) = Fix::from_decimal(real.digits, real.power) {
            return Some(Val::Real(units));
        }
    }
    None
}

fn number_literal(value: NumberValue) -> Option<Val>
    ensures value { result ≡ spec.number_literal value }
    ensures sound { IfSome result IsValue }
{
    match value {
        NumberValue::Int(integer) => integer_literal(integer),
        NumberValue::Real(real) => real_literal(real),
    }
}

fn scale_of(text: &str) -> Option<Scale>
    ensures { result ≡ spec.scale_of text.now }
{
    if text == "fs" {
        Some(Scale {
            factor: 1,
            power: -3,
        })
    } else if text == "ps" {
        Some(Scale {
            factor: 1,
            power: 0,
        })
    } else if text == "ns" {
        Some(Scale {
            factor: 1,
            power: 3,
        })
    } else if text == "us" {
        Some(Scale {
            factor: 1,
            power: 6,
        })
    } else if text == "ms" {
        Some(Scale {
            factor: 1,
            power: 9,
        })
    } else if text == "sec" {
        Some(Scale {
            factor: 1,
            power: 12,
        })
    } else if text == "min" {
        Some(Scale {
            factor: 6,
            power: 13,
        })
    } else if text == "hr" {
        Some(Scale {
            factor: 36,
            power: 14,
        })
    } else {
        None
    }
}

/// So many times ten to a power, without what stands behind the point, where that is a time.
fn truncated(m: u128, power: i64) -> Option<u128>
    ensures { result ≡ limited most_ticks (spec.truncated m power) }
{
    if power < 0 {
        limited(1_000_000_000_000_000_000, lowered(m, power.unsigned_abs()))
    } else {
        raised(m, 10, power.unsigned_abs(), 1_000_000_000_000_000_000)
    }
}

fn ticks_at(m: u128, power: i64) -> Option<Val>
    ensures value { result ≡ spec.ticks_at m power }
    ensures sound { IfSome result IsValue }
{
    match truncated(m, power) {
        Some(ticks) => Some(Val::Time(ticks as i64)),
        None => None,
    }
}

fn whole_time(integer: Integer, scale: Scale) -> Option<Val>
    ensures value { result ≡ spec.time_literal (written.Int integer) scale }
    ensures sound { IfSome result IsValue }
{
    match integer_of(integer) {
        Some(value) => ticks_at(value * u128::from(scale.factor), i64::from(scale.power)),
        None => None,
    }
}

fn real_time(real: Decimal, scale: Scale) -> Option<Val>
    requires { scale.factor ≤ 36 }
    ensures value { result ≡ spec.time_literal (written.Real real) scale }
    ensures sound { IfSome result IsValue }
{
    if real.digits < 100_000_000_000_000_000_000_000_000_000_000 {
        ticks_at(
            real.digits * u128::from(scale.factor),
            i64::from(real.power) + i64::from(scale.power),
        )
    } else {
        None
    }
}

fn time_literal(value: NumberValue, scale: Scale) -> Option<Val>
    requires { scale.factor ≤ 36 }
    ensures value { result ≡ spec.time_literal value scale }
    ensures sound { IfSome result IsValue }
{
    match value {
        NumberValue::Int(integer) => whole_time(integer, scale),
        NumberValue::Real(real) => real_time(real, scale),
    }
}

/// A number before a name that is no unit.
fn no_unit(
    place: Place,
    unit: Name,
    thing: &Option<Thing>,
    notes: &mut Notes,
) -> Result<Option<Typed>, AllocError>
    ensures found { Finds (spec.no_unit place unit thing.now notes.old) result notes.new }
    ensures sound { IfOk result (λ t. IfSome t IsSound) }
{
    match thing {
        None => {
            note(notes, unit.place, Cause::Unknown(unit.number))?;
            Ok(None)
        }
        Some(_) => wrong(notes, place),
    }
}

fn scaled_at(
    number: &Number,
    unit: Name,
    thing: &Option<Thing>,
    scale: Option<Scale>,
    notes: &mut Notes,
) -> Result<Option<Typed>, AllocError>
    requires { IfSome scale (λ s. s.factor ≤ 36) }
    ensures found { Finds (spec.scaled_at number.now.place number.now.value unit thing.now scale notes.old) result notes.new }
    ensures sound { IfOk result (λ t. IfSome t IsSound) }
{
    match scale {
        Some(scale) => in_range(number.place, &time_literal(number.value, scale), notes),
        None => no_unit(number.place, unit, thing, notes),
    }
}

fn time_at(
    number: &Number,
    unit: Name,
    thing: &Option<Thing>,
    scale: Option<Scale>,
    notes: &mut Notes,
) -> Result<Option<Typed>, AllocError>
    requires { IfSome scale (λ s. s.factor ≤ 36) }
    ensures found { Finds (spec.time_at number.now.place number.now.value (spec.number_literal number.now.value) unit thing.now scale notes.old) result notes.new }
    ensures sound { IfOk result (λ t. IfSome t IsSound) }
{
    match number_literal(number.value) {
        Some(_) => scaled_at(number, unit, thing, scale, notes),
        None => wrong(notes, number.place),
    }
}

/// A number, with the name behind it where one is written.
pub fn number_at(
    names: &Names,
    scope: &Scope,
    number: &Number,
    unit: &Option<Name>,
    notes: &mut Notes,
) -> Result<Option<Typed>, AllocError>
    ensures found { Finds (spec.number_at names.now (lookup scope.now) number.now.place number.now.value unit.now notes.old) result notes.new }
    ensures sound { IfOk result (λ t. IfSome t IsSound) }
{
    match unit {
        None => in_range(number.place, &number_literal(number.value), notes),
        Some(unit) => {
            let scale = scale_of(text_of(names, unit.number));
            time_at(number, *unit, &scope.find(unit.number), scale, notes)
        }
    }
}

fn char_literal(c: u8) -> Option<Val>
    ensures value { result ≡ spec.char_literal c }
    ensures sound { IfSome result IsValue }
{
    if c < 48 {
        None
    } else if c < 50 {
        Some(Val::Bit(48 < c))
    } else {
        None
    }
}

/// A content with one more element behind it.
#[tactic(auto, using(crate::proofs::Powers::even_bound, crate::proofs::Powers::odd_bound))]
fn with_element(content: Option<u64>, c: u8) -> Option<u64>
    requires { IfSome content (λ a. a < 9223372036854775808) }
    ensures value { result ≡ spec.with_element content c }
    ensures bound { (i : ℕ) → IfSome content (λ a. a < 2 ^ i) → IfSome result (λ a. a < 2 ^ (i + 1)) }
{
    let content = content?;
    if c == 48 {
        Some(2 * content)
    } else if c == 49 {
        Some(2 * content + 1)
    } else {
        None
    }
}

/// The content of a vector of these elements, the last one as the lowest bit.
#[tactic(auto, using(crate::proofs::Powers::small_content))]
fn content_of(text: &[u8]) -> Option<u64>
    requires { length text.now ≤ 64 }
    ensures value { result ≡ fold spec.with_element (Some 0) text.now }
    ensures bound { IfSome result (λ content. content < 2 ^ length text.now) }
{
    let mut content = Some(0);
    for c in text {
        content = with_element(content, *c);
    }
    content
}

fn vector_literal(text: &[u8]) -> Option<Val>
    ensures value { result ≡ spec.vector_literal text.now }
    ensures sound { IfSome result IsValue }
{
    if text.len() > 64 {
        return None;
    }
    match content_of(text) {
        Some(content) => Some(Val::Bits(text.len() as u8, content)),
        None => None,
    }
}

fn content_literal(names: &Names, content: LiteralValue) -> Option<Val>
    ensures value { result ≡ spec.content_literal names.now content }
    ensures sound { IfSome result IsValue }
{
    match content {
        LiteralValue::Char(c) => char_literal(c),
        LiteralValue::Str(text) | LiteralValue::Bits(text) => {
            vector_literal(text_of(names, text).as_bytes())
        }
    }
}

/// A character, a string or a bit string.
pub fn literal_at(
    names: &Names,
    written: &Literal,
    notes: &mut Notes,
) -> Result<Option<Typed>, AllocError>
    ensures found { Finds (spec.literal_at names.now written.now.place written.now.value notes.old) result notes.new }
    ensures sound { IfOk result (λ t. IfSome t IsSound) }
{
    in_range(written.place, &content_literal(names, written.value), notes)
}
