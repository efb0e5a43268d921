//! Where the program reads from and writes to: shelves, from which a run is read in pieces, and sinks, on which a text is put in pieces.
#![tactic(auto)]

mod asked;
mod file_shelf;
mod laws;
mod mem_shelf;
mod mem_sink;
mod pieces;
mod rest;
mod run_reading;
mod run_refusal;
mod shelf;
mod sink;
mod stream_sink;
mod tally;

pub use asked::Asked;
pub use file_shelf::FileShelf;
pub use laws::{calls_by_hand, requests_are_joined};
pub use mem_shelf::MemShelf;
pub use mem_sink::MemSink;
pub use pieces::put_pieces;
pub use rest::Rest;
pub use run_reading::{MOST_RUN_BYTES, read_run};
pub use run_refusal::RunRefusal;
pub use shelf::{Shelf, ShelfFault};
pub use sink::{Sink, SinkFault};
pub use stream_sink::StreamSink;
