ghost use Rattle.std.specs.Prelude.{◌≡◌};
ghost use Rattle.std.specs.Option.{option_copied};
ghost use Rattle.texts.specs.Calls.{Gives};
ghost use Rattle.jmes_syntax.specs.Tokens.{number_at, past};
ghost use Rattle.jmes_syntax.specs.Brackets.{begins_index, behind_index, index_at, slice_at, step_at};

use crate::stop::Stop;
use crate::token::{Mark, Token, strip};
use crate::{Expr, Slice, Step, Whole};

/// The tokens behind this mark, which is due in front.
pub fn pass(tokens: &[Token], mark: Mark) -> Result<&[Token], Stop>
    ensures { Gives (λ rest. rest.now) result (past mark tokens.now) }
{
    match strip(tokens, mark) {
        Some(rest) => Ok(rest),
        None => Err(Stop::Syntax(tokens.len())),
    }
}

// The number in front, where one stands there, and what is behind it.
fn number_at(tokens: &[Token]) -> (Option<Whole>, &[Token])
    ensures { (result.0, result.1.now) ≡ number_at tokens.now }
{
    match tokens.split_first() {
        Some((Token::Number(number), rest)) => (Some(*number), rest),
        _ => (None, tokens),
    }
}

// Whether what stands behind `[` in front of a chain is an index, a slice or `*]`, and no list.
fn begins_index(tokens: &[Token]) -> bool
    ensures { result ≡ begins_index tokens.now }
{
    if let Some(rest) = strip(tokens, Mark::Star) {
        return strip(rest, Mark::CloseBracket).is_some();
    }
    number_at(tokens).0.is_some() || strip(tokens, Mark::Colon).is_some()
}

/// What is behind `[` in front of a chain, where an index, a slice or `*]` stands there and no list.
pub fn strip_index(tokens: &[Token]) -> Option<&[Token]>
    ensures { behind_index tokens.now ≡ option_copied result }
{
    let rest = strip(tokens, Mark::OpenBracket)?;
    if begins_index(rest) { Some(rest) } else { None }
}

/// The index, the slice or `*` behind `[`, and what is behind its `]`.
pub fn read_index(tokens: &[Token]) -> Result<(Step<Expr>, &[Token]), Stop>
    ensures { Gives (λ x. (x.0, x.1.now)) result (index_at tokens.now) }
{
    if let Some(rest) = strip(tokens, Mark::Star) {
        return Ok((Step::Elements, pass(rest, Mark::CloseBracket)?));
    }
    let (number, rest) = number_at(tokens);
    if let Some(more) = strip(rest, Mark::Colon) {
        return read_slice(number, more);
    }
    match number {
        Some(at) => Ok((Step::Index(at), pass(rest, Mark::CloseBracket)?)),
        None => Err(Stop::Syntax(tokens.len())),
    }
}

/// A step that isn't written.
const ONE: Whole = Whole {
    is_negative: false,
    magnitude: 1,
};

// A slice behind its first colon.
fn read_slice(start: Option<Whole>, tokens: &[Token]) -> Result<(Step<Expr>, &[Token]), Stop>
    ensures { Gives (λ x. (x.0, x.1.now)) result (slice_at start tokens.now) }
{
    let (stop, rest) = number_at(tokens);
    if let Some(more) = strip(rest, Mark::Colon) {
        return read_step(start, stop, more);
    }
    let step = ONE;
    let slice = Slice { start, stop, step };
    Ok((Step::Slice(slice), pass(rest, Mark::CloseBracket)?))
}

// A slice behind its second colon.
fn read_step(
    start: Option<Whole>,
    stop: Option<Whole>,
    tokens: &[Token],
) -> Result<(Step<Expr>, &[Token]), Stop>
    ensures { Gives (λ x. (x.0, x.1.now)) result (step_at start stop tokens.now) }
{
    let (written, rest) = number_at(tokens);
    let step = written.unwrap_or(ONE);
    if step.magnitude == 0 {
        return Err(Stop::Syntax(tokens.len()));
    }
    let slice = Slice { start, stop, step };
    Ok((Step::Slice(slice), pass(rest, Mark::CloseBracket)?))
}
