//! The outcome of words and files: what a run of the program is to answer.
#![tactic(auto)]

mod laws;

pub use laws::{
    asked_is_in_range, done_reads_all, due_is_prefix, explain_cost_exists, file_words_are_read,
    levels_are_accepted, outcome_goes_by_bytes, outcome_is_one, passed_are_sound, passed_end_well,
    passed_go_to_job, prefix_gives_prefix, prefix_thins_are_close, summed_thins_are_close,
    written_is_accepted,
};
