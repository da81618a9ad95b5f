//! The order of numbers and of texts.
ghost use Rattle.std.specs.Prelude.{◌≡◌};
ghost use Rattle.jmes_eval.specs.Orders.{key_cmp, rank_of};

use json_doc::Doc;
use std::cmp::Ordering;

/// Numbers by value, texts by code points; of two kinds, numbers come behind texts and both behind all
/// others.
pub(crate) fn compare(a: &Doc, b: &Doc) -> Ordering
    ensures { result ≡ key_cmp a.now b.now }
{
    match (a, b) {
        (Doc::Number(a), Doc::Number(b)) => a.cmp(b),
        (Doc::Str(a), Doc::Str(b)) => texts::compare(a.as_str(), b.as_str()),
        _ => rank(a).cmp(&rank(b)),
    }
}

fn rank(doc: &Doc) -> u8
    ensures { result ≡ rank_of doc.now }
{
    match doc {
        Doc::Number(_) => 2,
        Doc::Str(_) => 1,
        _ => 0,
    }
}
