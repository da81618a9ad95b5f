ghost use Rattle.std.specs.Prelude.{◌≡◌, IfOk};
ghost use Rattle.jmes_syntax.specs.Chains.{with_step, linked, empty_chain};

use crate::{Chain, Expr, Step};
use json_doc::{List, OutOfMemory};
use std::alloc::Global;

/// What a chain is made of: steps and the flattens `[]` between its segments.
#[derive(Drop)]
pub enum Link {
    Step(Step<Expr>),
    Flatten,
}

// The chain with a step more in its last segment.
fn with_step(chain: Chain<Expr>, step: Step<Expr>) -> Result<Chain<Expr>, OutOfMemory>
    ensures { IfOk result (λ more. more ≡ with_step chain.first chain.flattened step) }
{
    let Chain {
        mut first,
        flattened,
    } = chain;
    let mut segments = flattened.into_vec();
    match segments.pop() {
        None => {
            first.push(step)?;
            Ok(Chain {
                first,
                flattened: List::from_vec(segments),
            })
        }
        Some(mut segment) => {
            segment.push(step)?;
            let mut flattened = List::from_vec(segments);
            flattened.push(segment)?;
            Ok(Chain { first, flattened })
        }
    }
}

/// The chain with this at its end.
pub fn with_link(alloc: Global, chain: Chain<Expr>, link: Link) -> Result<Chain<Expr>, OutOfMemory>
    ensures { IfOk result (λ more. more ≡ linked chain link) }
{
    match link {
        Link::Step(step) => with_step(chain, step),
        Link::Flatten => {
            let Chain {
                first,
                mut flattened,
            } = chain;
            flattened.push(List::new(alloc))?;
            Ok(Chain { first, flattened })
        }
    }
}

/// The chain without any step.
pub fn empty_chain(alloc: Global) -> Chain<Expr>
    ensures { result ≡ empty_chain }
{
    Chain {
        first: List::new(alloc),
        flattened: List::new(alloc),
    }
}
