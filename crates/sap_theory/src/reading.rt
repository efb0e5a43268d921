//! Reads the items of a theory.
pub(crate) mod items;
mod rule;
