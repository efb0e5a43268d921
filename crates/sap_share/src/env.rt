// Numbers that stand for variables.
ghost use Rattle.std.specs.Prelude.{◌≡◌, ◌<◌, ◌++◌, ◌∷◌, [], length, map, Some, option_map, slice_get, IsTrue, IfOk, OnOk, OnErr};
ghost use Rattle.sap_terms.specs.Variables.{is_known};
ghost use Rattle.sap_share.specs.code.Found.{number_of_name, IsIndexOf, IsInOrder, IsNextName, KeepsOrder};

use crate::index::Index;
use crate::order::Order;
use sap_terms::{Copied, Items, MOST_SCOPE_NAMES, Mem, Name, Var};
use std::alloc::Global;
use std::cell::Cell;
use std::marker::Model;

/// A variable, and the number of what stands for the variables of its name.
#[derive(Drop)]
pub struct Bound {
    pub var: Var,
    pub id: u64,
}

impl Copied for Bound {
    fn copy(&self, alloc: Global) -> Result<Bound, Mem> {
        let var = self.var.copy(alloc)?;
        Ok(Bound { var, id: self.id })
    }
}

/// What stands for variables, the first of each name. Contracts see it as the list of what is bound. Where variables are
/// bound in an order that was given, a name is looked up by one comparison, if it stands behind the one that was looked up
/// last, and else in time in proportion to the logarithm of how many there are. In other orders, up to `MOST_SCOPE_NAMES`
/// are looked through one by one, and take no memory beyond the list; of more, each takes time in proportion to that
/// logarithm.
#[derive(Drop)]
pub struct Env {
    bound: Items<Bound>,
    index: Index,
    // Where there is an order, the names that are bound are the first of it.
    order: Option<Order>,
    // Where in the order a name is looked for first.
    next: Cell<u64>,
}

impl Model for Env {
    ghost use Rattle.std.specs.Prelude.{List};
    ghost use Rattle.sap_share.specs.declared.env.Bound.{Bound};

    ghost Value = { List Bound };

    ghost use Rattle.sap_share.specs.code.Found.{IsIndexOf, IsInOrder};

    ghost view = { λ e. e.bound };

    ghost invariant = { λ e. IsIndexOf e.index e.bound × IsInOrder e.order e.bound };
}

impl Env {
    /// Nothing is bound. It takes no memory.
    pub fn new(alloc: Global) -> Env
        ensures { result ≡ [] }
    {
        Env {
            bound: Items::new(alloc),
            index: Index::new(alloc),
            order: None,
            next: Cell::new(0),
        }
    }

    /// Nothing is bound, and there is room for what is expected to be: variables of these names, in order. What is bound
    /// otherwise is right too, and takes longer to be looked up.
    pub fn along(alloc: Global, order: &Order) -> Result<Env, Mem>
        ensures { IfOk result (λ e. e ≡ []) }
    {
        let order = order.copy(alloc)?;
        let bound = match Items::with_room(alloc, order.len()) {
            Ok(bound) => bound,
            Err(e) => {
                drop(order);
                return Err(e);
            }
        };
        Ok(Env {
            bound,
            index: Index::new(alloc),
            order: Some(order),
            next: Cell::new(0),
        })
    }

    /// How many are bound.
    pub fn len(&self) -> u64
        ensures { result ≡ length self.now }
    {
        self.bound.len()
    }

    /// What is bound at an index that there is, from 0.
    pub fn at(&self, k: u64) -> &Bound
        requires { k < length self.now }
        ensures { slice_get self.now k ≡ Some result.now }
    {
        self.bound.at(k)
    }

    /// Whether the name is bound.
    #[tactic(auto, using(crate::proofs::Indexed::bound_known))]
    pub fn binds(&self, name: &Name) -> bool
        ensures { result ≡ is_known (map (λ b. b.var.name) self.now) name.now }
    {
        find_bound(self, name).is_some()
    }

    /// Puts it last; what is refused is dropped, and all is bound as it was.
    pub fn push(&mut self, bound: Bound) -> Result<(), Mem>
        ensures ok { OnOk result (self.new ≡ self.old ++ bound ∷ []) }
        ensures err { OnErr result (self.new ≡ self.old) }
    {
        follow(&mut self.order, self.bound.len(), &bound.var.name);
        match index_many(&self.order, &mut self.index, &self.bound) {
            Err(e) => {
                drop(bound);
                Err(e)
            }
            Ok(()) => self.bound.push(bound),
        }
    }
}

impl Copied for Env {
    fn copy(&self, alloc: Global) -> Result<Env, Mem> {
        let bound = self.bound.copy(alloc)?;
        let mut index = Index::new(alloc);
        match index_many(&None, &mut index, &bound) {
            Err(e) => {
                drop(bound);
                drop(index);
                Err(e)
            }
            Ok(()) => Ok(Env {
                bound,
                index,
                order: None,
                next: Cell::new(0),
            }),
        }
    }
}

// Whether the name is the order's at this index, if there is an order.
fn is_next(order: &Option<Order>, k: u64, name: &Name) -> bool
    ensures { IsTrue result → IsNextName order.now k name.now }
{
    match order {
        Some(order) => order.has_at(k, name),
        None => false,
    }
}

// Lets the order go, where the name isn't its next one.
fn follow(order: &mut Option<Order>, k: u64, name: &Name)
    ensures { KeepsOrder order.old order.new k name.now }
{
    if !is_next(order, k, name) {
        *order = None;
    }
}

// Indexes all that is bound, if it stands in no order and is more than a scope has.
fn index_many(order: &Option<Order>, index: &mut Index, bound: &Items<Bound>) -> Result<(), Mem>
    requires { IsIndexOf index.old bound.now }
    ensures { IsIndexOf index.new bound.now }
{
    if order.is_none() && bound.len() > MOST_SCOPE_NAMES {
        index.extend(bound.allocator(), bound.as_slice())?;
    }
    Ok(())
}

// The number of what is bound at this index, if it is.
fn number_at(bound: &[Bound], k: u64) -> Option<u64>
    ensures { result ≡ option_map (λ e. e.id) (slice_get bound.now k) }
{
    match bound.get(k as usize) {
        Some(e) => Some(e.id),
        None => None,
    }
}

// The number of the first that is bound to the name, where the names that are bound are the first of the order.
fn number_along(order: &Order, next: &Cell<u64>, bound: &[Bound], name: &Name) -> Option<u64>
    requires { IsInOrder (Some order.now) bound.now }
    ensures { result ≡ number_of_name bound.now name.now }
{
    match order.index_of(next, name) {
        Some(k) => number_at(bound, k),
        None => None,
    }
}

// The number of the first that is bound to the name.
pub(crate) fn find_bound(env: &Env, name: &Name) -> Option<u64>
    ensures { result ≡ number_of_name env.now name.now }
{
    match &env.order {
        Some(order) => number_along(order, &env.next, env.bound.as_slice(), name),
        None => env.index.number_of(env.bound.as_slice(), name),
    }
}
