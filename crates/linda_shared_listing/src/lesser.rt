//! The lesser of two numbers that may be there.

ghost use Rattle.std.specs.Prelude.{◌≡◌};
ghost use Rattle.linda_shared_listing.specs.Firsts.{lesser_of};

/// The lesser of two numbers; the one that is there if the other is not.
pub(crate) fn lesser(one: Option<u32>, other: Option<u32>) -> Option<u32>
    ensures { result ≡ lesser_of one other }
{
    match (one, other) {
        (Some(one), Some(other)) => Some(one.min(other)),
        (Some(one), None) => Some(one),
        (None, _) => other,
    }
}

/// The same of ids.
pub(crate) fn lesser_id(one: Option<u64>, other: Option<u64>) -> Option<u64>
    ensures { result ≡ lesser_of one other }
{
    match (one, other) {
        (Some(one), Some(other)) => Some(one.min(other)),
        (Some(one), None) => Some(one),
        (None, _) => other,
    }
}
