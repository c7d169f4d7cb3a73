//! The predefined names (IEEE 1076, 16.3; IEEE 1076.1.1).
ghost use Rattle.std.specs.Prelude.{◌≡◌, [], ◌∷◌, ◌≤◌, unsigned_abs, Some, None, IfOk, OnOk};
ghost use Rattle.fix_core.specs.Units.{most_units};
ghost use Rattle.ams_value.specs.declared.val.Val.TheVariants as val;
ghost use Rattle.ams_value.specs.declared.value_type.ValueType.TheVariants as t;
ghost use Rattle.name_scope.specs.declared.thing.Thing.TheVariants as thing;
ghost use Rattle.unit_meaning.specs.Units as spec;
ghost use Rattle.expr_types.specs.Known.{IsSoundScope, IsSoundThing};
ghost use Rattle.start_scope.specs.Predefined as group;

use ams_token::Names;
use ams_value::{MOST_INTEGER, Val, ValueType};
use fix_core::Fix;
use flat_design::Terminal;
use flat_expr::{Constraint, Function};
use name_scope::{Kind, Scope, Subtype, SubtypeConstraint, Thing};
use std::alloc::{AllocError, Global};

/// The number of DOMAIN_TYPE among the enumeration types.
const DOMAIN_TYPE: u16 = 0;

/// The ratio of a circle's circumference to its diameter, in units.
const PI_UNITS: i128 = 3_141_592_653_590;

/// Twice the same number before it is rounded, in units.
const TWO_PI_UNITS: i128 = 6_283_185_307_180;

fn whole(kind: ValueType) -> Thing
    ensures { result ≡ thing.Type (spec.whole kind) None }
{
    Thing::Type(
        Subtype {
            kind: Kind::Of(kind),
            constraint: SubtypeConstraint::Range(Constraint::Whole),
        },
        None,
    )
}

/// A type whose name converts to it too.
fn convertible(kind: ValueType, conversion: Function) -> Thing
    ensures { result ≡ thing.Type (spec.whole kind) (Some conversion) }
{
    Thing::Type(
        Subtype {
            kind: Kind::Of(kind),
            constraint: SubtypeConstraint::Range(Constraint::Whole),
        },
        Some(conversion),
    )
}

/// The integers from this one on.
fn from_integer(low: i32) -> Thing
    ensures { result ≡ thing.Type (spec.from_integer low) None }
{
    Thing::Type(
        Subtype {
            kind: Kind::Of(ValueType::Integer),
            constraint: SubtypeConstraint::Range(Constraint::Integer(low, MOST_INTEGER as i32)),
        },
        None,
    )
}

fn real_constant(units: i128) -> Thing
    requires { unsigned_abs units ≤ most_units }
    ensures value { result ≡ thing.Constant (spec.whole t.Real) (Some (val.Real units)) }
    ensures sound { IsSoundThing result }
{
    let subtype = Subtype {
        kind: Kind::Of(ValueType::Real),
        constraint: SubtypeConstraint::Range(Constraint::Whole),
    };
    Thing::Constant(subtype, Some(Val::Real(Fix::exactly(units))))
}

/// Declares a predefined name, where it stands anywhere in the text.
#[tactic(auto, using(decl_names::proofs::Sound::still_sound))]
fn add(names: &Names, text: &str, thing: Thing, scope: &mut Scope) -> Result<(), AllocError>
    requires scope { IsSoundScope scope.old }
    requires thing { IsSoundThing thing }
    ensures ok { OnOk result (scope.new ≡ group.with_all names.now ((text.now, thing) ∷ []) scope.old) }
    ensures sound { OnOk result (IsSoundScope scope.new) }
{
    let Some(number) = names.find(text) else {
        return Ok(());
    };
    scope.declare(number, thing)?;
    Ok(())
}

fn add_types(names: &Names, scope: &mut Scope) -> Result<(), AllocError>
    requires { IsSoundScope scope.old }
    ensures ok { OnOk result (scope.new ≡ group.with_all names.now group.types scope.old) }
    ensures sound { OnOk result (IsSoundScope scope.new) }
{
    add(names, "boolean", whole(ValueType::Boolean), scope)?;
    add(names, "bit", whole(ValueType::Bit), scope)?;
    let integer = convertible(ValueType::Integer, Function::Integer);
    add(names, "integer", integer, scope)?;
    add(names, "natural", from_integer(0), scope)?;
    add(names, "positive", from_integer(1), scope)
}

fn add_more_types(names: &Names, scope: &mut Scope) -> Result<(), AllocError>
    requires { IsSoundScope scope.old }
    ensures ok { OnOk result (scope.new ≡ group.with_all names.now group.more_types scope.old) }
    ensures sound { OnOk result (IsSoundScope scope.new) }
{
    let real = convertible(ValueType::Real, Function::Real);
    add(names, "real", real, scope)?;
    add(names, "voltage", whole(ValueType::Real), scope)?;
    add(names, "current", whole(ValueType::Real), scope)?;
    add(names, "time", whole(ValueType::Time), scope)?;
    let domain = whole(ValueType::Enumeration(DOMAIN_TYPE));
    add(names, "domain_type", domain, scope)?;
    add(names, "bit_vector", Thing::BitVector, scope)
}

fn add_functions(names: &Names, scope: &mut Scope) -> Result<(), AllocError>
    requires { IsSoundScope scope.old }
    ensures ok { OnOk result (scope.new ≡ group.with_all names.now group.functions scope.old) }
    ensures sound { OnOk result (IsSoundScope scope.new) }
{
    add(names, "false", Thing::Literal(Val::Bool(false)), scope)?;
    add(names, "true", Thing::Literal(Val::Bool(true)), scope)?;
    add(names, "exp", Thing::Function(Function::Exp), scope)?;
    add(names, "sin", Thing::Function(Function::Sin), scope)?;
    add(names, "cos", Thing::Function(Function::Cos), scope)?;
    add(names, "sqrt", Thing::Function(Function::Sqrt), scope)
}

fn add_constants(names: &Names, scope: &mut Scope) -> Result<(), AllocError>
    requires { IsSoundScope scope.old }
    ensures ok { OnOk result (scope.new ≡ group.with_all names.now group.constants scope.old) }
    ensures sound { OnOk result (IsSoundScope scope.new) }
{
    add(names, "math_pi", real_constant(PI_UNITS), scope)?;
    add(names, "math_2_pi", real_constant(TWO_PI_UNITS), scope)?;
    add(names, "now", Thing::Now, scope)?;
    add(names, "domain", Thing::Domain, scope)?;
    add(names, "electrical", Thing::Nature(0), scope)?;
    let reference = Thing::Terminal(Terminal::Reference, 0);
    add(names, "electrical_ref", reference, scope)
}

fn add_domains(names: &Names, scope: &mut Scope) -> Result<(), AllocError>
    requires { IsSoundScope scope.old }
    ensures ok { OnOk result (scope.new ≡ group.with_all names.now group.domains scope.old) }
    ensures sound { OnOk result (IsSoundScope scope.new) }
{
    let quiescent = Thing::Literal(Val::Enum(DOMAIN_TYPE, 0));
    add(names, "quiescent_domain", quiescent, scope)?;
    let time = Thing::Literal(Val::Enum(DOMAIN_TYPE, 1));
    add(names, "time_domain", time, scope)?;
    let frequency = Thing::Literal(Val::Enum(DOMAIN_TYPE, 2));
    add(names, "frequency_domain", frequency, scope)
}

/// A scope with the predefined names round it, those of them that stand in the text.
#[tactic(auto, using(crate::proofs::Inside::inside_sound))]
pub fn start_of(alloc: Global, names: &Names) -> Result<Scope, AllocError>
    ensures value { IfOk result (λ scope. scope ≡ spec.start_of names.now) }
    ensures sound { IfOk result IsSoundScope }
{
    let mut scope = Scope::new(alloc);
    add_types(names, &mut scope)?;
    add_more_types(names, &mut scope)?;
    add_functions(names, &mut scope)?;
    add_constants(names, &mut scope)?;
    add_domains(names, &mut scope)?;
    scope.enter(alloc)?;
    Ok(scope)
}
