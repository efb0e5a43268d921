//! Claims that formulas made ready have a truth value, and the choices that show them.
use crate::plan::{GuardPlan, Plan};
use sap_formula::Binder;
use sap_match::Value;
use sap_terms::Items;

/// A binder and the slot of its name.
#[derive(Drop)]
pub struct Slotted<'a> {
    pub binder: &'a Binder,
    pub slot: Option<u64>,
}

/// What a choice has a binder stand for.
#[derive(Clone, Copy)]
pub struct Chosen<'a> {
    pub binder: &'a Binder,
    pub value: Value<'a>,
}

/// A claim on formulas made ready, which choices may show.
#[derive(Drop)]
pub enum Claim<'a> {
    /// The test of the formula gives this.
    Tested(bool, Box<Plan<'a>>),
    /// Both hold; the choices of the first stand before those of the second.
    Each(Box<Claim<'a>>, Box<Claim<'a>>),
    /// One of them holds; the choices are those of the first that does.
    First(Box<Claim<'a>>, Box<Claim<'a>>),
    /// Some choice of facts for the guards leads to values under which the claim holds; the first that does is told, with
    /// the values of these binders, the last of which stands first.
    Choosing(Items<GuardPlan<'a>>, Items<Slotted<'a>>, Box<Claim<'a>>),
}
