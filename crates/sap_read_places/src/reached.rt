//! How far a file was read before it was refused.
use sap_process::Process;
use sap_read::{SaidFile, WrittenFile};

/// How far a refused file was read: what is there of it where its cause was found.
#[derive(Clone, Copy)]
pub enum Reached<'a> {
    /// Its bytes, which are no tokens.
    Bytes,
    /// Its tokens, which are no items.
    Tokens,
    /// What its items say, which is refused before its uses are looked at.
    Items(&'a SaidFile),
    /// What is written in it, of which a use or a limit refuses it.
    Written(&'a WrittenFile),
    /// That and its process with its uses replaced, of which it is refused, or a formula.
    Expanded(&'a WrittenFile, &'a Process),
}
