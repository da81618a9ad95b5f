ghost use Rattle.std.specs.Prelude.{◌≡◌, ◌<◌, ◌≤◌, ◌+◌, [], IfOk, IfErr, Ok, Err};
ghost use Rattle.jmes_syntax.specs.Reading.{Stops, seen};
ghost use Rattle.texts.specs.Calls.{Finds, Gives};
ghost use Rattle.jmes_syntax.specs.Scan.{
  comparator_at,
  negations_at,
  any_name_at,
  key_at,
  index_in,
  flatten_in,
  Joined,
  Side,
  Comparison,
  Comparisons,
  OperandAt,
  ChainAt,
  First,
  LinkAt,
  Enclosed,
  Part,
  Named,
  Items,
  Members,
  ArgumentAt,
  Arguments,
};
ghost use Rattle.jmes_syntax.specs.Scans.{Whole};
ghost use Rattle.jmes_syntax.specs.Trees.{mark_of, joined, one_of, comparison, comparator_of, takes};
ghost use Rattle.jmes_syntax.specs.declared.stop.Stop.TheVariants.{Syntax};

use crate::brackets::{pass, read_index, strip_index};
use crate::chains::{Link, empty_chain, with_link};
use crate::stop::Stop;
use crate::token::{Mark, Token, literal_at, name_at, quoted_at, strip};
use crate::{Argument, Arity, Chain, Comparator, Compared, Expr, Function, Operand, Step};
use json_doc::{List, Pair, Text};
use std::alloc::Global;

/// How many brackets may stand in one another, `()`, `[]` and `{}` of whatever kind.
const MOST_DEEP: usize = 100;

/// The operators that join any number of sides, from the loosest.
#[derive(Clone, Copy)]
pub enum Level {
    Pipe,
    Or,
    And,
}

fn mark_of(level: Level) -> Mark
    ensures { result ≡ mark_of level }
{
    match level {
        Level::Pipe => Mark::Pipe,
        Level::Or => Mark::Or,
        Level::And => Mark::And,
    }
}

// These sides joined.
fn joined(level: Level, sides: List<Expr>) -> Expr
    ensures { result ≡ joined level sides }
{
    match level {
        Level::Pipe => Expr::Pipe(sides),
        Level::Or => Expr::Or(sides),
        Level::And => Expr::And(sides),
    }
}

// The sides joined, or the one side that stands alone.
fn one_of(level: Level, sides: List<Expr>) -> Expr
    ensures { result ≡ one_of level sides }
{
    let mut sides = sides.into_vec();
    if sides.len() != 1 {
        return joined(level, List::from_vec(sides));
    }
    match sides.pop() {
        Some(side) => side,
        None => joined(level, List::from_vec(sides)),
    }
}

/// The expression of all these tokens; behind the last the text ends, or else no token stands.
pub fn read_whole(alloc: Global, tokens: &[Token], is_end: bool) -> Result<Expr, Stop>
    ensures read { IfOk result (λ e. Whole tokens.now is_end (Ok e)) }
    ensures fault { IfErr result (Stops (λ s. Whole tokens.now is_end (Err s))) }
{
    let (expr, rest) = read_joined(alloc, Level::Pipe, 0, tokens)?;
    if rest.is_empty() && is_end {
        Ok(expr)
    } else {
        Err(Stop::Syntax(rest.len()))
    }
}

// An expression whose operators are at this level or tighter, where `depth` brackets are open, and
// the tokens behind it.
#[cycle(read)]
fn read_joined(
    alloc: Global,
    level: Level,
    depth: usize,
    tokens: &[Token],
) -> Result<(Expr, &[Token]), Stop>
    ensures read { IfOk result (λ x. Joined level depth tokens.now (Ok (x.0, x.1.now))) }
    ensures fault { IfErr result (Stops (λ s. Joined level depth tokens.now (Err s))) }
{
    let mut sides = List::new(alloc);
    let mut rest = tokens;
    loop {
        let (side, after) = read_side(alloc, level, depth, rest)?;
        sides.push(side)?;
        match strip(after, mark_of(level)) {
            Some(more) => rest = more,
            None => return Ok((one_of(level, sides), after)),
        }
    }
}

#[cycle(read)]
fn read_side(
    alloc: Global,
    level: Level,
    depth: usize,
    tokens: &[Token],
) -> Result<(Expr, &[Token]), Stop>
    ensures read { IfOk result (λ x. Side level depth tokens.now (Ok (x.0, x.1.now))) }
    ensures fault { IfErr result (Stops (λ s. Side level depth tokens.now (Err s))) }
{
    match level {
        Level::Pipe => read_joined(alloc, Level::Or, depth, tokens),
        Level::Or => read_joined(alloc, Level::And, depth, tokens),
        Level::And => read_comparison(alloc, depth, tokens),
    }
}

fn comparison(first: Operand<Expr>, compared: List<Compared<Expr>>) -> Expr
    ensures { result ≡ comparison first compared }
{
    if compared.is_empty() {
        Expr::Operand(first)
    } else {
        Expr::Compare(first, compared)
    }
}

#[cycle(read)]
fn read_comparison(alloc: Global, depth: usize, tokens: &[Token]) -> Result<(Expr, &[Token]), Stop>
    ensures read { IfOk result (λ x. Comparison depth tokens.now (Ok (x.0, x.1.now))) }
    ensures fault { IfErr result (Stops (λ s. Comparison depth tokens.now (Err s))) }
{
    let (first, rest) = read_operand(alloc, depth, tokens)?;
    let (compared, rest) = read_compared(alloc, depth, rest)?;
    Ok((comparison(first, compared), rest))
}

// The comparator of a mark.
fn comparator_of(mark: Mark) -> Option<Comparator>
    ensures { result ≡ comparator_of mark }
{
    match mark {
        Mark::Equal => Some(Comparator::Equal),
        Mark::NotEqual => Some(Comparator::NotEqual),
        Mark::Less => Some(Comparator::Less),
        Mark::LessOrEqual => Some(Comparator::LessOrEqual),
        Mark::Greater => Some(Comparator::Greater),
        Mark::GreaterOrEqual => Some(Comparator::GreaterOrEqual),
        _ => None,
    }
}

fn comparator_at(tokens: &[Token]) -> Option<(Comparator, &[Token])>
    ensures { Finds (λ x. (x.0, x.1.now)) result (comparator_at tokens.now) }
{
    match tokens.split_first() {
        Some((Token::Mark(mark), rest)) => {
            let comparator = comparator_of(*mark)?;
            Some((comparator, rest))
        }
        _ => None,
    }
}

// The comparators in front with their right sides.
#[cycle(read)]
fn read_compared(
    alloc: Global,
    depth: usize,
    tokens: &[Token],
) -> Result<(List<Compared<Expr>>, &[Token]), Stop>
    ensures read { IfOk result (λ x. Comparisons depth [] tokens.now (Ok (x.0, x.1.now))) }
    ensures fault { IfErr result (Stops (λ s. Comparisons depth [] tokens.now (Err s))) }
{
    let mut all = List::new(alloc);
    let mut rest = tokens;
    loop {
        let Some((comparator, more)) = comparator_at(rest) else {
            return Ok((all, rest));
        };
        let (right, after) = read_operand(alloc, depth, more)?;
        all.push(Compared { comparator, right })?;
        rest = after;
    }
}

// How many `!` stand in front, and what is behind them.
fn negations_at(tokens: &[Token]) -> (u64, &[Token])
    ensures { (result.0, result.1.now) ≡ negations_at tokens.now }
{
    let mut count: u64 = 0;
    let mut rest = tokens;
    while let Some(more) = strip(rest, Mark::Not) {
        count += 1;
        rest = more;
    }
    (count, rest)
}

#[cycle(read)]
fn read_operand(
    alloc: Global,
    depth: usize,
    tokens: &[Token],
) -> Result<(Operand<Expr>, &[Token]), Stop>
    ensures read { IfOk result (λ x. OperandAt depth tokens.now (Ok (x.0, x.1.now))) }
    ensures fault { IfErr result (Stops (λ s. OperandAt depth tokens.now (Err s))) }
{
    let (negations, rest) = negations_at(tokens);
    let (chain, rest) = read_chain(alloc, depth, rest)?;
    Ok((Operand { negations, chain }, rest))
}

#[cycle(read)]
fn read_chain(
    alloc: Global,
    depth: usize,
    tokens: &[Token],
) -> Result<(Chain<Expr>, &[Token]), Stop>
    ensures read { IfOk result (λ x. ChainAt depth tokens.now (Ok (x.0, x.1.now))) }
    ensures fault { IfErr result (Stops (λ s. ChainAt depth tokens.now (Err s))) }
{
    let (first, after) = read_first(alloc, depth, tokens)?;
    let mut chain = with_link(alloc, empty_chain(alloc), first)?;
    let mut rest = after;
    loop {
        let Some((link, after)) = read_link(alloc, depth, rest)? else {
            return Ok((chain, rest));
        };
        chain = with_link(alloc, chain, link)?;
        rest = after;
    }
}

// What a chain begins with.
#[cycle(read)]
fn read_first(alloc: Global, depth: usize, tokens: &[Token]) -> Result<(Link, &[Token]), Stop>
    ensures read { IfOk result (λ x. First depth tokens.now (Ok (x.0, x.1.now))) }
    ensures fault { IfErr result (Stops (λ s. First depth tokens.now (Err s))) }
{
    if let Some(rest) = strip(tokens, Mark::OpenGroup) {
        let (inner, rest) = read_enclosed(alloc, depth, Mark::CloseGroup, rest)?;
        return Ok((Link::Step(Step::Group(inner)), rest));
    }
    if let Some(rest) = strip(tokens, Mark::OpenFilter) {
        let (test, rest) = read_enclosed(alloc, depth, Mark::CloseBracket, rest)?;
        return Ok((Link::Step(Step::FilterProjection(test)), rest));
    }
    if let Some(rest) = strip_index(tokens) {
        let (index, rest) = read_inside(depth, rest)?;
        return Ok((Link::Step(index), rest));
    }
    if let Some(rest) = strip(tokens, Mark::Flatten) {
        let (flatten, rest) = read_flatten(depth, rest)?;
        return Ok((flatten, rest));
    }
    if let Some(rest) = strip(tokens, Mark::Current) {
        return Ok((Link::Step(Step::Current), rest));
    }
    if let Some((doc, rest)) = literal_at(tokens) {
        let doc = json_doc::copy(alloc, doc)?;
        return Ok((Link::Step(Step::Literal(doc)), rest));
    }
    let (step, rest) = read_part(alloc, depth, tokens)?;
    Ok((Link::Step(step), rest))
}

// What goes on with a chain, where something does.
#[cycle(read)]
fn read_link(
    alloc: Global,
    depth: usize,
    tokens: &[Token],
) -> Result<Option<(Link, &[Token])>, Stop>
    ensures read { IfOk result (λ x. LinkAt depth tokens.now (Ok (seen (λ y. (y.0, y.1.now)) x))) }
    ensures fault { IfErr result (Stops (λ s. LinkAt depth tokens.now (Err s))) }
{
    if let Some(rest) = strip(tokens, Mark::Dot) {
        let (step, rest) = read_part(alloc, depth, rest)?;
        return Ok(Some((Link::Step(step), rest)));
    }
    if let Some(rest) = strip(tokens, Mark::OpenBracket) {
        let (index, rest) = read_inside(depth, rest)?;
        return Ok(Some((Link::Step(index), rest)));
    }
    if let Some(rest) = strip(tokens, Mark::OpenFilter) {
        let (test, rest) = read_enclosed(alloc, depth, Mark::CloseBracket, rest)?;
        return Ok(Some((Link::Step(Step::FilterProjection(test)), rest)));
    }
    if let Some(rest) = strip(tokens, Mark::Flatten) {
        let (flatten, rest) = read_flatten(depth, rest)?;
        return Ok(Some((flatten, rest)));
    }
    Ok(None)
}

// The depth inside a bracket that is opened here; `left` counts the tokens from that bracket on.
fn deeper(depth: usize, left: usize) -> Result<usize, Stop>
    ensures inside { IfOk result (λ inside. (depth < 100) × (inside ≡ depth + 1)) }
    ensures too_deep { IfErr result (λ s. (100 ≤ depth) × (s ≡ Syntax left)) }
{
    if depth < MOST_DEEP {
        Ok(depth + 1)
    } else {
        Err(Stop::Syntax(left))
    }
}

// The index, the slice or `*` behind `[`, and what is behind its `]`.
fn read_inside(depth: usize, tokens: &[Token]) -> Result<(Step<Expr>, &[Token]), Stop>
    ensures { Gives (λ x. (x.0, x.1.now)) result (index_in depth tokens.now) }
{
    deeper(depth, tokens.len() + 1)?;
    read_index(tokens)
}

// `[]`, which opens a bracket too, in front of these tokens.
fn read_flatten(depth: usize, rest: &[Token]) -> Result<(Link, &[Token]), Stop>
    ensures { Gives (λ x. (x.0, x.1.now)) result (flatten_in depth rest.now) }
{
    deeper(depth, rest.len() + 1)?;
    Ok((Link::Flatten, rest))
}

// An expression up to this mark, behind the one that opens.
#[cycle(read)]
fn read_enclosed(
    alloc: Global,
    depth: usize,
    close: Mark,
    tokens: &[Token],
) -> Result<(Expr, &[Token]), Stop>
    ensures read { IfOk result (λ x. Enclosed close depth tokens.now (Ok (x.0, x.1.now))) }
    ensures fault { IfErr result (Stops (λ s. Enclosed close depth tokens.now (Err s))) }
{
    let inside = deeper(depth, tokens.len() + 1)?;
    let (expr, rest) = read_joined(alloc, Level::Pipe, inside, tokens)?;
    Ok((expr, pass(rest, close)?))
}

// What may stand behind a dot.
#[cycle(read)]
fn read_part(alloc: Global, depth: usize, tokens: &[Token]) -> Result<(Step<Expr>, &[Token]), Stop>
    ensures read { IfOk result (λ x. Part depth tokens.now (Ok (x.0, x.1.now))) }
    ensures fault { IfErr result (Stops (λ s. Part depth tokens.now (Err s))) }
{
    if let Some(rest) = strip(tokens, Mark::Star) {
        return Ok((Step::Values, rest));
    }
    if let Some(rest) = strip(tokens, Mark::OpenBracket) {
        let (items, rest) = read_items(alloc, depth, rest)?;
        return Ok((Step::List(items), rest));
    }
    if let Some(rest) = strip(tokens, Mark::OpenBrace) {
        let (members, rest) = read_members(alloc, depth, rest)?;
        return Ok((Step::Hash(members), rest));
    }
    if let Some((name, rest)) = name_at(tokens) {
        return read_named(alloc, depth, name, rest);
    }
    if let Some((name, rest)) = quoted_at(tokens) {
        return Ok((Step::Field(name.copy(alloc)?), rest));
    }
    Err(Stop::Syntax(tokens.len()))
}

// A field, or a call where `(` stands behind the name.
#[cycle(read)]
fn read_named<'a>(
    alloc: Global,
    depth: usize,
    name: &Text,
    tokens: &'a [Token],
) -> Result<(Step<Expr>, &'a [Token]), Stop>
    ensures read { IfOk result (λ x. Named depth name.now tokens.now (Ok (x.0, x.1.now))) }
    ensures fault { IfErr result (Stops (λ s. Named depth name.now tokens.now (Err s))) }
{
    let Some(rest) = strip(tokens, Mark::OpenGroup) else {
        return Ok((Step::Field(name.copy(alloc)?), tokens));
    };
    let Some(function) = Function::named(name) else {
        return Err(Stop::UnknownFunction(tokens.len() + 1));
    };
    let inside = deeper(depth, tokens.len())?;
    let (arguments, rest) = read_arguments(alloc, inside, rest)?;
    if takes(function.arity(), arguments.len()) {
        Ok((Step::Call(function, arguments), rest))
    } else {
        Err(Stop::Arity(tokens.len() + 1))
    }
}

fn takes(arity: Arity, count: usize) -> bool
    ensures { result ≡ takes arity count }
{
    match arity {
        Arity::Exactly(n) => count as u64 == n,
        Arity::AtLeast(n) => n <= count as u64,
    }
}

// The expressions of a list, behind its opening bracket.
#[cycle(read)]
fn read_items(alloc: Global, depth: usize, tokens: &[Token]) -> Result<(List<Expr>, &[Token]), Stop>
    ensures read { IfOk result (λ x. Items depth tokens.now (Ok (x.0, x.1.now))) }
    ensures fault { IfErr result (Stops (λ s. Items depth tokens.now (Err s))) }
{
    let inside = deeper(depth, tokens.len() + 1)?;
    let mut items = List::new(alloc);
    let mut rest = tokens;
    loop {
        let (item, after) = read_joined(alloc, Level::Pipe, inside, rest)?;
        items.push(item)?;
        if let Some(end) = strip(after, Mark::CloseBracket) {
            return Ok((items, end));
        }
        rest = pass(after, Mark::Comma)?;
    }
}

// The name in front, quoted or not, and what is behind it.
fn any_name_at(tokens: &[Token]) -> Option<(&Text, &[Token])>
    ensures { Finds (λ x. (x.0.now, x.1.now)) result (any_name_at tokens.now) }
{
    match name_at(tokens) {
        Some(named) => Some(named),
        None => quoted_at(tokens),
    }
}

// A key of a hash, and what is behind its colon.
fn read_key(alloc: Global, tokens: &[Token]) -> Result<(Text, &[Token]), Stop>
    ensures read { IfOk result (λ x. key_at tokens.now ≡ Ok (x.0, x.1.now)) }
    ensures fault { IfErr result (Stops (λ s. key_at tokens.now ≡ Err s)) }
{
    let Some((name, rest)) = any_name_at(tokens) else {
        return Err(Stop::Syntax(tokens.len()));
    };
    let rest = pass(rest, Mark::Colon)?;
    Ok((name.copy(alloc)?, rest))
}

// The members of a hash, behind its opening brace.
#[cycle(read)]
fn read_members(
    alloc: Global,
    depth: usize,
    tokens: &[Token],
) -> Result<(List<Pair<Expr>>, &[Token]), Stop>
    ensures read { IfOk result (λ x. Members depth tokens.now (Ok (x.0, x.1.now))) }
    ensures fault { IfErr result (Stops (λ s. Members depth tokens.now (Err s))) }
{
    let inside = deeper(depth, tokens.len() + 1)?;
    let mut members = List::new(alloc);
    let mut rest = tokens;
    loop {
        let (key, after) = read_key(alloc, rest)?;
        let (value, after) = read_joined(alloc, Level::Pipe, inside, after)?;
        members.push(Pair { key, value })?;
        if let Some(end) = strip(after, Mark::CloseBrace) {
            return Ok((members, end));
        }
        rest = pass(after, Mark::Comma)?;
    }
}

// An argument: an expression, or an expref to one.
#[cycle(read)]
fn read_argument(
    alloc: Global,
    depth: usize,
    tokens: &[Token],
) -> Result<(Argument<Expr>, &[Token]), Stop>
    ensures read { IfOk result (λ x. ArgumentAt depth tokens.now (Ok (x.0, x.1.now))) }
    ensures fault { IfErr result (Stops (λ s. ArgumentAt depth tokens.now (Err s))) }
{
    if let Some(rest) = strip(tokens, Mark::Expref) {
        let (expr, rest) = read_joined(alloc, Level::Pipe, depth, rest)?;
        return Ok((Argument::Expref(expr), rest));
    }
    let (expr, rest) = read_joined(alloc, Level::Pipe, depth, tokens)?;
    Ok((Argument::Value(expr), rest))
}

// The arguments of a call, behind `(`.
#[cycle(read)]
fn read_arguments(
    alloc: Global,
    depth: usize,
    tokens: &[Token],
) -> Result<(List<Argument<Expr>>, &[Token]), Stop>
    ensures read { IfOk result (λ x. Arguments depth tokens.now (Ok (x.0, x.1.now))) }
    ensures fault { IfErr result (Stops (λ s. Arguments depth tokens.now (Err s))) }
{
    let mut arguments = List::new(alloc);
    if let Some(end) = strip(tokens, Mark::CloseGroup) {
        return Ok((arguments, end));
    }
    let mut rest = tokens;
    loop {
        let (argument, after) = read_argument(alloc, depth, rest)?;
        arguments.push(argument)?;
        if let Some(end) = strip(after, Mark::CloseGroup) {
            return Ok((arguments, end));
        }
        rest = pass(after, Mark::Comma)?;
    }
}
