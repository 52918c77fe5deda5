//! The bag of a server: the tuples that are in the space, each under an id of its own.
//!
//! A keeper of tuples says what `Bag` says, and contracts see the bag as a finite map from ids to
//! `Tuple`s. So a store is written and proved once, for every bag. `ListBag` is the plain one, and
//! `IndexBag` the one whose look-ups stay fast: it looks at the tuples of the template's own tag
//! and number of fields only and, if the template begins with a value, at those that begin with it.
//!
//! `specs/FreeMatch` says which tuples a template may be answered with; the answer is always the
//! least id among them. `specs/Filing` and `specs/Candidates` say what an index has and what is
//! found in it. `tag_index`, `first_field_index` and `ids` are written for rows of any type, so
//! that `linda_hold` files its requests by them. What follows of finite maps is in
//! `linda_map_laws`.
//!
//! A call that may take memory has a fault for that; no other call takes any.
#![tactic(auto)]

mod among;
mod bag;
mod column;
mod columns;
mod first_field_index;
mod free_match;
mod id_index;
mod id_set;
mod ids;
mod index;
mod index_bag;
mod ints;
mod list_bag;
mod search_hints;
mod tag_hints;
mod tag_index;
mod tuples_by_id;

pub use bag::{Bag, Found};
pub use first_field_index::FirstFieldIndex;
pub use id_index::{IdIndex, Key, refile, unfile};
pub use id_set::IdSet;
pub use ids::{Ids, put_id, take_id};
pub use index_bag::{IndexBag, Kind};
pub use list_bag::ListBag;
pub use search_hints::SearchHints;
pub use tag_index::{TagIndex, Tagged, alike};
