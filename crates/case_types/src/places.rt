//! Places of expressions.
ghost use Rattle.std.specs.Prelude.{◌≡◌};
ghost use Rattle.unit_meaning.specs.Cases as spec;

use ams_token::Place;
use ams_tree::Expr;

/// The place of an expression's first token.
pub fn place_of(expr: &Expr) -> Place
    ensures { result ≡ spec.place_of expr.now }
{
    match expr {
        Expr::Number(number, _) => number.place,
        Expr::Literal(literal) => literal.place,
        Expr::Name(name) | Expr::Call(name, _) | Expr::Attribute(name, _) => name.place,
        Expr::Paren(place, _) | Expr::Unary(_, place, _) => *place,
        Expr::Binary(_, left, _) => place_of(left.get()),
    }
}
