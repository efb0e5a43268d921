//! Runs of processes, step by step.
#![tactic(auto)]

mod adversary;
mod channel;
mod citing;
mod config;
mod embedding;
mod entry;
mod head_line;
mod heads;
mod laws;
mod looking;
mod making;
mod meeting;
mod sending;
mod step;
mod stored;
mod taking;
mod thread;
mod under;

pub use config::Config;
pub use laws::replays_are_legal;
pub use sap_lines::PFault;
