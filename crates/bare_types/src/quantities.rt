//! Elements of breaks (IEEE 1076.1, break statement).
ghost use Rattle.std.specs.Prelude.{◌≡◌, nat_eq};
ghost use Rattle.std.specs.List.{list_any};
ghost use Rattle.elab_meaning.specs.Parts.{both, found_thing, judged};
ghost use Rattle.name_scope.specs.Scopes.{lookup};
ghost use Rattle.ams_tree.specs.declared.expression.Expr.{out-Expr};
ghost use Rattle.unit_meaning.specs.Bare as spec;
ghost use Rattle.expr_types.specs.Known.{Finds, IsSoundScope};

use crate::wrong::wrong_name;
use ams_tree::{BreakElement as Written, Expr, Name};
use ams_value::ValueType;
use elab_meaning::{Notes, Part};
use flat_expr::{BreakElement, FlatExpr};
use name_scope::{Kind, Scope, Thing};
use sqlite_items::Items;
use statement_parts::{RUNNING, Setting, both, found_thing, must_be, put};
use std::alloc::{AllocError, Global};

fn quantity_of(name: u32, thing: &Thing) -> Part<(u32, u32)>
    ensures { result ≡ spec.named_quantity name thing.now }
{
    match thing {
        Thing::Quantity(quantity, _) => Part::Kept((*quantity, name)),
        _ => Part::Wrong,
    }
}

fn named_quantity(
    scope: &Scope,
    name: Name,
    notes: &mut Notes,
) -> Result<Part<(u32, u32)>, AllocError>
    ensures { let found = found_thing name (lookup scope.now name.number) notes.old in Finds (found.0, judged (spec.named_quantity name.number) found.1) result notes.new }
{
    match found_thing(name, &scope.find(name.number), notes) {
        Ok(Part::Kept(thing)) => Ok(quantity_of(name.number, &thing)),
        Ok(Part::Wrong) => Ok(Part::Wrong),
        Ok(Part::Hidden) => Ok(Part::Hidden),
        Err(error) => Err(error),
    }
}

/// A quantity by its name: its number and the number of its name.
fn quantity_at(
    alloc: Global,
    setting: &Setting<'_>,
    scope: &Scope,
    expr: &Expr,
    notes: &mut Notes,
) -> Result<Part<(u32, u32)>, AllocError>
    requires { IsSoundScope scope.now }
    ensures { Finds (spec.quantity_at setting.now scope.now (out-Expr expr.now) notes.old) result notes.new }
{
    match expr {
        Expr::Name(name) => named_quantity(scope, *name, notes),
        _ => wrong_name(alloc, setting, scope, expr, notes),
    }
}

fn same_quantity(quantity: &Part<(u32, u32)>) -> Part<(u32, u32)>
    ensures { result ≡ quantity.now }
{
    match quantity {
        Part::Kept(quantity) => Part::Kept(*quantity),
        Part::Wrong => Part::Wrong,
        Part::Hidden => Part::Hidden,
    }
}

fn selector_at(
    alloc: Global,
    setting: &Setting<'_>,
    scope: &Scope,
    expr: &Option<Expr>,
    quantity: &Part<(u32, u32)>,
    notes: &mut Notes,
) -> Result<Part<(u32, u32)>, AllocError>
    requires { IsSoundScope scope.now }
    ensures { Finds (spec.selector_at setting.now scope.now expr.now quantity.now notes.old) result notes.new }
{
    match expr {
        None => Ok(same_quantity(quantity)),
        Some(expr) => quantity_at(alloc, setting, scope, expr, notes),
    }
}

fn is_selector(setting: &Setting<'_>, name: u32) -> bool
    ensures { result ≡ list_any (nat_eq name) setting.now.selectors }
{
    setting.selectors().iter().any(|other| name == *other)
}

fn selecting(
    setting: &Setting<'_>,
    selector: Part<(u32, u32)>,
    set: Part<((u32, u32), FlatExpr)>,
) -> Part<BreakElement>
    ensures { result ≡ both (spec.selecting setting.now) selector set }
{
    match both(selector, set) {
        Part::Kept(((selector, name), ((quantity, _), value))) => {
            if is_selector(setting, name) {
                Part::Kept(BreakElement {
                    selector,
                    quantity,
                    value,
                })
            } else {
                drop(value);
                Part::Wrong
            }
        }
        Part::Wrong => Part::Wrong,
        Part::Hidden => Part::Hidden,
    }
}

fn break_element(
    alloc: Global,
    setting: &Setting<'_>,
    scope: &Scope,
    element: &Written,
    notes: &mut Notes,
) -> Result<Part<BreakElement>, AllocError>
    requires { IsSoundScope scope.now }
    ensures { Finds (spec.break_element setting.now scope.now element.now notes.old) result notes.new }
{
    let quantity = quantity_at(alloc, setting, scope, &element.quantity, notes)?;
    let selector = selector_at(alloc, setting, scope, &element.selector, &quantity, notes)?;
    let kind = Kind::Of(ValueType::Real);
    let value = must_be(alloc, setting, scope, RUNNING, kind, &element.value, notes)?;
    Ok(selecting(setting, selector, both(quantity, value)))
}

/// The elements of a break.
#[tactic(auto, using(statement_parts::proofs::Puts::put_ahead, statement_parts::proofs::Puts::put_none, statement_parts::proofs::Puts::put_first))]
pub fn break_elements(
    alloc: Global,
    setting: &Setting<'_>,
    scope: &Scope,
    elements: &[Written],
    notes: &mut Notes,
) -> Result<Part<Items<BreakElement>>, AllocError>
    requires { IsSoundScope scope.now }
    ensures { Finds (spec.break_elements setting.now scope.now elements.now notes.old) result notes.new }
{
    let mut all = Part::Kept(Items::new(alloc));
    for element in elements {
        let one = break_element(alloc, setting, scope, element, notes)?;
        all = put(all, one)?;
    }
    Ok(all)
}
