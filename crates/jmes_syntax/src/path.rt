ghost use Rattle.std.specs.Prelude.{◌↔◌, IsTrue};
ghost use Rattle.std.specs.List.{AllByRecursion};
ghost use Rattle.jmes_syntax.specs.Paths.{IsField, IsPath};

use crate::{Expr, Step};

fn are_fields(steps: &[Step<Expr>]) -> bool
    ensures { IsTrue result ↔ AllByRecursion IsField steps.now }
{
    for step in steps {
        match step {
            Step::Field(_) => {}
            _ => return false,
        }
    }
    true
}

/// Whether the expression is a chain of names, quoted or not.
pub fn is_path(expr: &Expr) -> bool
    ensures { IsTrue result ↔ IsPath expr.now }
{
    match expr {
        Expr::Operand(operand) => {
            operand.negations == 0
                && operand.chain.flattened.is_empty()
                && are_fields(operand.chain.first.as_slice())
        }
        _ => false,
    }
}
