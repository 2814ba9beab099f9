//! Codes kept apart: the closest pair, and codebooks, the columns that suffice to keep codes apart.
#![tactic(auto)]

mod codebook;
mod force;
mod laws;
mod least_pair;
mod marked;
mod measure;
mod moves;
mod need;
mod place;
mod plain;
mod sharing;
mod single;
mod waiting;
mod whole;

pub use cb_coding::{Book, CapBook, Pair};
pub use codebook::{Refused, book_in_use, reduce, reduce_cap};
pub use laws::{
    only_differing_count, place_falls, sharing_suffices, waiting_place_is_one,
    waits_where_too_close,
};
pub use least_pair::least;
pub use marked::{mark, mark_sharing};
pub use measure::{distance_from, distance_over, mask_of};
pub use plain::{book, is_good};
pub use whole::{every_column, whole_book};
