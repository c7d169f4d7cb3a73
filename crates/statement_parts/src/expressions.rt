//! Expressions in statements.
ghost use Rattle.std.specs.Prelude.{◌≡◌};
ghost use Rattle.unit_meaning.specs.Settings as spec;
ghost use Rattle.expr_types.specs.Known.{Finds, IsSoundScope};

use crate::parts::part_of;
use crate::setting::Setting;
use ams_tree::Expr;
use ams_value::ValueType;
use elab_meaning::{Context, Notes, Part, Surrounding, Typed};
use expr_types::{expression, same_kind};
use flat_expr::FlatExpr;
use name_scope::{Kind, Scope};
use std::alloc::{AllocError, Global};

/// In a process.
pub const RUNNING: Context = Context {
    surrounding: Surrounding::Process,
    is_static: false,
};

/// An expression of any type.
pub fn typed(
    alloc: Global,
    setting: &Setting<'_>,
    scope: &Scope,
    context: Context,
    expr: &Expr,
    notes: &mut Notes,
) -> Result<Part<Typed>, AllocError>
    requires { IsSoundScope scope.now }
    ensures { Finds (spec.typed setting.now scope.now context expr.now notes.old) result notes.new }
{
    let found = expression(alloc, setting.names(), scope, context, expr, notes)?;
    Ok(part_of(found))
}

fn of_kind(kind: Kind, typed: Typed) -> Part<FlatExpr>
    ensures { result ≡ spec.of_kind kind typed }
{
    if same_kind(typed.kind, kind) {
        Part::Kept(typed.expr)
    } else {
        drop(typed);
        Part::Wrong
    }
}

/// An expression of this type.
pub fn must_be(
    alloc: Global,
    setting: &Setting<'_>,
    scope: &Scope,
    context: Context,
    kind: Kind,
    expr: &Expr,
    notes: &mut Notes,
) -> Result<Part<FlatExpr>, AllocError>
    requires { IsSoundScope scope.now }
    ensures { Finds (spec.must_be setting.now scope.now context kind expr.now notes.old) result notes.new }
{
    match typed(alloc, setting, scope, context, expr, notes)? {
        Part::Kept(typed) => Ok(of_kind(kind, typed)),
        Part::Wrong => Ok(Part::Wrong),
        Part::Hidden => Ok(Part::Hidden),
    }
}

/// An expression of this type, which may be left out.
pub fn may_be(
    alloc: Global,
    setting: &Setting<'_>,
    scope: &Scope,
    context: Context,
    kind: Kind,
    expr: &Option<Expr>,
    notes: &mut Notes,
) -> Result<Part<Option<FlatExpr>>, AllocError>
    requires { IsSoundScope scope.now }
    ensures { Finds (spec.may_be setting.now scope.now context kind expr.now notes.old) result notes.new }
{
    let Some(expr) = expr else {
        return Ok(Part::Kept(None));
    };
    match must_be(alloc, setting, scope, context, kind, expr, notes)? {
        Part::Kept(expr) => Ok(Part::Kept(Some(expr))),
        Part::Wrong => Ok(Part::Wrong),
        Part::Hidden => Ok(Part::Hidden),
    }
}

/// A condition of a process, which may be left out.
pub fn condition(
    alloc: Global,
    setting: &Setting<'_>,
    scope: &Scope,
    expr: &Option<Expr>,
    notes: &mut Notes,
) -> Result<Part<Option<FlatExpr>>, AllocError>
    requires { IsSoundScope scope.now }
    ensures { Finds (spec.condition setting.now scope.now expr.now notes.old) result notes.new }
{
    let kind = Kind::Of(ValueType::Boolean);
    may_be(alloc, setting, scope, RUNNING, kind, expr, notes)
}
