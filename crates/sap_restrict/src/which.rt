//! Names of the seven restrictions.
use sap_terms::{Copied, Items, Mem};
use std::alloc::Global;

/// One of the seven restrictions.
#[derive(Clone, Copy)]
pub enum Which {
    /// There is one start.
    Init,
    /// What a test found equal is equal.
    Eq,
    /// What a test found different is different.
    NotEq,
    /// What a lookup found was inserted last.
    In,
    /// Where a lookup found nothing, a delete came after each insert.
    NotIn,
    /// Between two locks of a term comes the unlock of the first.
    Lock,
    /// Each input takes what the adversary was last shown to know.
    InEv,
}

impl Copied for Which {
    fn copy(&self, _alloc: Global) -> Result<Which, Mem> {
        Ok(*self)
    }
}

/// Some of the restrictions, in order.
pub type WhichList = Items<Which>;
