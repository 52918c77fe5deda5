//! The clients for which a reply is kept, one after the other.

ghost use Rattle.std.specs.Prelude.{◌≡◌, ◌≤◌, IfSome};
ghost use Rattle.linda_snap.specs.Rising.{entries_from, first_after};
ghost use Rattle.linda_shared_listing.specs.Taken.{first_client};

use linda_book::Book;
use linda_snap::kept_after;

/// The client before this one, if there is one.
pub(crate) fn before(from: u32) -> Option<u32>
    ensures { first_after result ≡ from }
{
    if from == 0 {
        return None;
    }
    Some(from - 1)
}

/// The first client of the book above this one.
pub(crate) fn kept_client_after(book: &Book, last: Option<u32>) -> Option<u32>
    ensures first { result ≡ first_client (entries_from (first_after last) book.now) }
    ensures above { IfSome result (λ client. first_after last ≤ client) }
{
    match kept_after(book, last) {
        Some((client, _)) => Some(client),
        None => None,
    }
}
