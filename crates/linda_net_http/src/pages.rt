//! Pages that are asked for, as a trait of those who have them.

ghost use Rattle.std.specs.Prelude.{ℕ, List, IfOk};
ghost use Rattle.std.specs.String.{string_bytes};
ghost use Rattle.linda_net_http.specs.declared.pages.PageStatus.{PageStatus};

use std::alloc::AllocError;
use std::sync::Wait;
use std::time::Clock;

/// Which page is asked for: what is before the first question mark, and what is after it, as it
/// was sent. Both are any bytes.
#[derive(Clone, Copy)]
pub struct PageQuery<'a> {
    pub path: &'a [u8],
    pub query: &'a [u8],
}

/// What was said to somebody who asked for a page.
#[derive(Clone, Copy)]
pub enum PageStatus {
    /// The page, which is of this kind.
    Page(&'static str),
    /// There is such a page, but not for this query: what was spelled says why.
    BadQuery,
    /// There is such a page, but not now: what was spelled says why.
    Unavailable,
    /// There is no such page.
    NotFound,
}

/// Who has the pages that are asked for.
pub trait PageSource {
    // What is said of a path and a query, what was there, and what is there then.
    ghost tells: { Self → List ℕ → List ℕ → PageStatus → List ℕ → List ℕ → Type 0 };

    /// Writes the page that is asked for after what is there, and returns of which kind it is; or
    /// why there is none.
    ///
    /// # Errors
    ///
    /// Memory ran out: some of the page may be there.
    fn spell<R: Wait + Clock>(
        &self,
        rt: &R,
        asked: PageQuery<'_>,
        page: &mut String,
    ) -> Result<PageStatus, AllocError>
        ensures { IfOk result (λ told. tells self.now asked.entry.path.now asked.entry.query.now
            told (string_bytes page.old) (string_bytes page.new)) };
}
