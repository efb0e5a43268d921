//! Locks: which lock an unlock has.
#![tactic(auto)]

mod annotating;
mod descents;
mod fault;
mod labelling;
mod laws;
mod searching;

pub use annotating::{annotate, annotate_boxed};
pub use descents::{LockScopeBelow, WayBelow};
pub use fault::LockFault;
pub use laws::{
    annotations_are_ready, annotations_by_hand, annotations_of_processes, branches_by_hand,
    labels_are_right, lock_places_are_by_path, open_locks_are_by_ways,
};
