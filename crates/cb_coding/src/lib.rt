//! Codes, codebooks and decoding: the values, their definitions in `specs/`, and the laws of these definitions.
#![tactic(auto)]

mod book;
mod group;
mod laws;

pub use book::{Answer, Book, CapBook, Pair};
pub use group::{Group, Problem, codes};
pub use laws::{
    alone_in_use, answer_by_radii_is_one, answer_for_is_one, answer_is_one, answers_in_use,
    book_in_use_is_one, book_is_good, book_is_one, book_is_tight, cap_book_is_one, cap_is_met,
    cap_is_no_detour, choice_in_use_is_one, choice_is_good, choice_is_one, choice_is_tight,
    coding_theorem, fewer_columns_are_closer, first_close_is_one, first_short_is_one,
    groups_are_one, groups_have_different_codes, least_and_greatest_are_one, least_is_one,
    least_is_positive, one_is_good, one_radius_for_all, problem_is_in_one_group, radii_are_one,
    within_its_radius,
};
