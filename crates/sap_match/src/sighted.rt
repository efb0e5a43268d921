//! Facts of a trace with their times.
use sap_terms::Fact;

/// A fact of a trace and its time.
#[derive(Clone, Copy)]
pub struct Sighted<'t> {
    pub time: u64,
    pub fact: &'t Fact,
}
