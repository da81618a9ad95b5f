//! What operators give.
ghost use Rattle.std.specs.Prelude.{◌≡◌};
ghost use Rattle.jmes_eval.specs.Kinds.{number_of};
ghost use Rattle.jmes_eval.specs.Meaning.{compared, holds, negated, ordered};
ghost use Rattle.jmes_eval.specs.Inside.{seen_doc};

use crate::equality::same;
use crate::kinds::is_true;
use crate::seen::Seen;
use jmes_syntax::Comparator;
use json_doc::Doc;
use std::cmp::Ordering;

/// A value behind so many `!`.
pub(crate) fn negated(negations: u64, seen: Seen<'_>) -> Seen<'_>
    ensures { seen_doc result ≡ negated negations (seen_doc seen.entry) }
{
    if negations == 0 {
        return seen;
    }
    let truth = is_true(seen.doc());
    if negations % 2 == 0 {
        return Seen::Made(Doc::Flag(truth));
    }
    Seen::Made(Doc::Flag(!truth))
}

/// What a comparison gives: null where an order is asked of what is no number.
pub(crate) fn compared(comparator: Comparator, left: &Doc, right: &Doc) -> Doc
    ensures { result ≡ compared comparator left.now right.now }
{
    match comparator {
        Comparator::Equal => Doc::Flag(same(left, right)),
        Comparator::NotEqual => Doc::Flag(!same(left, right)),
        Comparator::Less => in_order(left, right, Comparator::Less),
        Comparator::LessOrEqual => in_order(left, right, Comparator::LessOrEqual),
        Comparator::Greater => in_order(left, right, Comparator::Greater),
        Comparator::GreaterOrEqual => in_order(left, right, Comparator::GreaterOrEqual),
    }
}

fn in_order(left: &Doc, right: &Doc, comparator: Comparator) -> Doc
    ensures { result ≡ ordered (holds comparator) (number_of left.now) (number_of right.now) }
{
    match (left, right) {
        (Doc::Number(left), Doc::Number(right)) => Doc::Flag(holds(comparator, left.cmp(right))),
        _ => Doc::Null,
    }
}

fn holds(comparator: Comparator, order: Ordering) -> bool
    ensures { result ≡ holds comparator order }
{
    match comparator {
        Comparator::Equal => order == Ordering::Equal,
        Comparator::NotEqual => order != Ordering::Equal,
        Comparator::Less => order == Ordering::Less,
        Comparator::LessOrEqual => order != Ordering::Greater,
        Comparator::Greater => order == Ordering::Greater,
        Comparator::GreaterOrEqual => order != Ordering::Less,
    }
}
