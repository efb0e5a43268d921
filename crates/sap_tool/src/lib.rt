//! The top call of the program, and the shelves and sinks that it is given.
#![tactic(auto)]

mod asking;
mod at_once_laws;
mod command;
mod fill;
mod fill_laws;
mod json;
mod json_laws;
mod laws;
mod promises_by_hand;
mod runs;
mod sessions;
mod telling_laws;
mod top;
mod why;
mod why_laws;

pub use at_once_laws::{help_by_hand, one_text_at_once, samples_and_help_are_told};
pub use fill_laws::fill_by_hand;
pub use json_laws::json_by_hand;
pub use laws::{lemmas_as_written_by_hand, these_bytes_are_meant, unrestricted_files_are_shown};
pub use promises_by_hand::{
    answers_must_come_by_hand, promises_are_broken_by_hand, promises_are_kept_by_hand,
};
pub use sap_outside::{
    FileShelf, MemShelf, MemSink, Shelf, ShelfFault, Sink, SinkFault, StreamSink,
};
pub use sap_replay::{
    json_comes_back, one_judged_text, sample_file, sample_run, verdicts_are_kept,
    written_runs_are_judged_alike,
};
pub use telling_laws::telling_by_hand;
pub use top::sapic;
pub use why_laws::{one_why_text, why_by_hand};
