//! Tuples that are listed a piece at a time, each piece of those that are there at its own moment.

ghost use Rattle.std.specs.Prelude.{◌≡◌, ◌++◌, ◌∷◌, ℕ, List, [], true, Some, OnOk, IfOk, map};
ghost use Rattle.linda_hold.specs.Holds.{HeldFor};
ghost use Rattle.linda_shared_listing.specs.Gathered.{Tuples, IsGathered};
ghost use Rattle.linda_shared_listing.specs.Listing.{IsPage};

use crate::listed::{ListedTuple, TuplePage, TupleQuery};
use linda_codec::tuple_len;
use linda_tuple::Form;
use std::alloc::{AllocError, Global};

/// The tuples of the pieces so far, and which are asked for next.
#[derive(Drop)]
pub struct Gathered {
    query: TupleQuery,
    rows: Vec<ListedTuple>,
    next: Option<u64>,
}

impl Gathered {
    /// No piece came yet of those that are asked for.
    pub fn new(alloc: Global, query: TupleQuery) -> Gathered
        ensures query { result.query ≡ query }
        ensures rows { result.rows.items ≡ [] }
        ensures next { result.next ≡ Some query.from }
        ensures begins { IsGathered query.tag query.from [] [] result.next }
    {
        let next = Some(query.from());
        Gathered {
            query,
            rows: Vec::new(alloc),
            next,
        }
    }

    /// What the next piece is asked for.
    pub fn query(&self) -> &TupleQuery
        ensures { result.now ≡ self.now.query }
    {
        &self.query
    }

    /// This piece follows. Returns whether another one is to be asked for.
    ///
    /// # Errors
    ///
    /// `AllocError` if memory runs out.
    pub fn add_piece(&mut self, piece: TuplePage) -> Result<bool, AllocError>
        ensures rows { OnOk result (self.new.rows.items ≡ self.old.rows.items ++ piece.rows.items) }
        ensures next { OnOk result (self.new.next ≡ piece.next) }
        ensures tag { OnOk result (self.new.query.tag ≡ self.old.query.tag) }
        ensures goes_on { IfOk result (λ more. more ≡ true
            → self.new.next ≡ Some self.new.query.from) }
        // Pieces that were each a page when they were listed are gathered.
        ensures gathers { (from : ℕ) (bags : List Tuples) (bag : Tuples) (holds : HeldFor)
            → IsGathered self.old.query.tag from bags
            (map (λ row. row.id) self.old.rows.items) (Some self.old.query.from)
            → IsPage bag holds self.old.query piece
            → OnOk result (IsGathered self.old.query.tag from (bags ++ bag ∷ [])
            (map (λ row. row.id) self.new.rows.items) self.new.next) }
    {
        let TuplePage { mut rows, next } = piece;
        let many = rows.len();
        let bytes = bytes_of(&rows);
        self.rows.append(&mut rows)?;
        self.next = next;
        let Some(from) = next else {
            return Ok(false);
        };
        Ok(self.query.go_on(from, many, bytes))
    }

    /// The page of all that was gathered.
    pub fn into_page(self) -> TuplePage
        ensures { (result.rows ≡ self.rows) × (result.next ≡ self.next) }
    {
        let Gathered { rows, next, .. } = self;
        TuplePage { rows, next }
    }
}

// How many bytes the tuples spell in the second form.
fn bytes_of(rows: &[ListedTuple]) -> usize {
    let mut bytes: usize = 0;
    for row in rows {
        bytes = bytes.saturating_add(tuple_len(Form::Two, &row.tuple));
    }
    bytes
}
