//! The order of texts.
ghost use Rattle.std.specs.Prelude.{◌≡◌, ℕ, ◌↔◌, ◌⊎◌, ◌≤◌, List, IfNone, IfSome, OnOk, AllPairs, All, Contains, length, take, drop, encode_utf8_all};
ghost use Rattle.std.specs.Str.{chars};
ghost use Rattle.std.specs.Cmp.{partial_order_from_own_ties};
ghost use Rattle.std.specs.Cmp.Lexicographic.{slice_cmp};
ghost use Rattle.std.specs.Cmp.Rules.{comparing};
ghost use Rattle.std.specs.Ordering.{as_partial_cmp, nat_cmp};
ghost use Rattle.std.proofs.Common.{rules};
ghost use Rattle.texts.specs.Order.{text_cmp, IsBefore};

use crate::{OutOfMemory, Text};
use std::cmp::Ordering;

/// The order by code points, which is that of the bytes.
pub fn compare(a: &str, b: &str) -> Ordering
    ensures { result ≡ text_cmp (chars a.now) (chars b.now) }
{
    a.cmp(b)
}

/// The order by code points is that of the bytes in UTF-8 (RFC 3629, section 1).
pub fn order_is_that_of_bytes()
    ensures { (a b : List ℕ) → slice_cmp nat_cmp (encode_utf8_all a) (encode_utf8_all b) ≡ text_cmp a b }
{}

impl Ord for Text {
    ghost cmp = { slice_cmp nat_cmp };

    ghost total = { Prim.search (comparing, rules) };

    ghost matches_partial_cmp = { Prim.search (comparing, rules) };

    ghost matches_eq = { Prim.search (comparing, rules) };

    fn cmp(&self, other: &Text) -> Ordering {
        self.as_str().cmp(other.as_str())
    }
}

impl PartialOrd for Text {
    ghost partial_cmp = { as_partial_cmp (slice_cmp nat_cmp) };

    ghost laws = { partial_order_from_own_ties (Prim.search (comparing, rules)) (Prim.search (comparing, rules)) };

    fn partial_cmp(&self, other: &Text) -> Option<Ordering> {
        Some(self.cmp(other))
    }
}

/// Puts a text into its place, where it isn't there.
pub fn put_in_order(texts: &mut Vec<Text>, text: Text) -> Result<(), OutOfMemory>
    requires { AllPairs IsBefore texts.old.items }
    ensures ascending { OnOk result (AllPairs IsBefore texts.new.items) }
    ensures exact { OnOk result ((other : List ℕ) → Contains texts.new.items other
        ↔ (Contains texts.old.items other ⊎ (other ≡ text))) }
{
    let Some(at) = place_of(texts.as_slice(), &text) else {
        return Ok(());
    };
    texts.insert(at, text)?;
    Ok(())
}

/// Where a text belongs; None where it is there.
fn place_of(texts: &[Text], text: &Text) -> Option<usize>
    requires { AllPairs IsBefore texts.now }
    ensures there { IfNone result (Contains texts.now text.now) }
    ensures within { IfSome result (λ at. at ≤ length texts.now) }
    ensures above { IfSome result (λ at. All (λ other. IsBefore other text.now) (take at texts.now)) }
    ensures below { IfSome result (λ at. All (IsBefore text.now) (drop at texts.now)) }
{
    for (at, other) in texts.iter().enumerate() {
        match other.cmp(text) {
            Ordering::Less => {}
            Ordering::Equal => return None,
            Ordering::Greater => return Some(at),
        }
    }
    Some(texts.len())
}
