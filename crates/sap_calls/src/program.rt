//! What is called.
use sap_outside::{MemShelf, MemSink};
use std::alloc::Global;

/// The program that rows call.
pub trait Program {
    /// Calls it with these words over these files and streams: its status.
    fn call(
        alloc: Global,
        words: &Vec<String>,
        shelf: &mut MemShelf,
        out: &mut MemSink,
        err: &mut MemSink,
    ) -> u8;
}
