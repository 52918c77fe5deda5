//! The clients that have keys, one after the other.

ghost use Rattle.std.specs.Prelude.{◌≡◌, ◌<◌, ℕ, None, true, IfSome, IfNone};
ghost use Rattle.std.specs.Option.{is_some};
ghost use Rattle.std.specs.Ordering.{nat_cmp};
ghost use Rattle.std.specs.BTreeMap as tree;
ghost use Rattle.linda_shared_outbox.specs.Waiting.{IsAbove};

use std::collections::BTreeMap;
use std::ops::Bound;

/// The least client above the last one that has a key, or the least of all that have one.
pub(crate) fn next_key(keys: &BTreeMap<u32, usize>, last: Option<u32>) -> Option<u32>
    ensures found { IfSome result (λ next. is_some (tree.get nat_cmp keys.now next)
        ≡ true) }
    ensures above { IfSome result (λ next. IsAbove last next) }
    ensures least { IfSome result (λ next. (c : ℕ) → IsAbove last c → c < next
        → tree.get nat_cmp keys.now c ≡ None) }
    ensures none { IfNone result ((c : ℕ) → IsAbove last c
        → tree.get nat_cmp keys.now c ≡ None) }
{
    let Some(last) = last else {
        return first_key(keys);
    };
    let above = (Bound::Excluded(last), Bound::Unbounded);
    let (next, _) = keys.range(above).next()?;
    Some(*next)
}

// The least client that has a key.
fn first_key(keys: &BTreeMap<u32, usize>) -> Option<u32>
    ensures found { IfSome result (λ next. is_some (tree.get nat_cmp keys.now next)
        ≡ true) }
    ensures least { IfSome result (λ next. (c : ℕ) → c < next
        → tree.get nat_cmp keys.now c ≡ None) }
    ensures none { IfNone result ((c : ℕ) → tree.get nat_cmp keys.now c ≡ None) }
{
    let (first, _) = keys.range(0..).next()?;
    Some(*first)
}
