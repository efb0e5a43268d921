// The clauses that terms bring.
ghost use Rattle.std.specs.Prelude.{◌≡◌, ◌<◌, ℕ, List, length, Some, IfOk, OnOk};
ghost use Rattle.sap_terms.specs.Equations.{equations};
ghost use Rattle.sap_terms.specs.Normal.{IsNormal};
ghost use Rattle.sap_terms.specs.Tree.{apply, trees_of};
ghost use Rattle.sap_share.specs.Shared.{tree_at, trees_at, AreBelow};
ghost use Rattle.sap_derive.specs.code.Lines.{premises_of};
ghost use Rattle.sap_derive.specs.code.Closed.{IsClosure};
ghost use Rattle.sap_derive.specs.code.Brought.{Adds};
ghost use Rattle.sap_derive.specs.code.Clauses.{IsNumbered, AreNumbered, HasClause, HaveMakings, HaveOpenings};
ghost use Rattle.sap_derive.specs.code.Openers.{AreOpeners};
ghost use Rattle.sap_derive.specs.declared.line.Line.TheVariants.{Apply as ApplyLine};

use crate::clause::Clause;
use crate::closure::Closure;
use crate::line::Line;
use crate::openers::Openers;
use crate::shape::{Shape, shape_of};
use sap_rewrite::symbols_reduce_once;
use sap_share::{Node, Table};
use sap_terms::{Copied, Mem, Name, Numbers};
use std::alloc::Global;

// Puts a clause last.
fn add(table: &Table, closure: &mut Closure, line: Line, gives: u64) -> Result<(), Mem>
    requires closure { IsClosure closure.old }
    requires numbered { AreNumbered table.now.sig table.now.trees closure.old.clauses }
    requires this { IsNumbered table.now.sig table.now.trees (record { line = line; gives = gives }) }
    ensures closure { IsClosure closure.new }
    ensures numbered { AreNumbered table.now.sig table.now.trees closure.new.clauses }
    ensures adds { Adds closure.old closure.new }
    ensures has { OnOk result (HasClause table.now.trees closure.new.clauses (trees_at table.now.trees (premises_of line)) (tree_at table.now.trees gives)) }
{
    closure.add(Clause { line, gives })
}

// A list of these numbers.
fn numbers_of(alloc: Global, ns: &[u64]) -> Result<Numbers, Mem>
    ensures { IfOk result (λ ks. ks ≡ ns.now) }
{
    let mut ks = Numbers::with_room(alloc, ns.len() as u64)?;
    for n in ns {
        ks.push(*n)?;
    }
    Ok(ks)
}

// Puts the clause of a symbol on these numbers last.
fn add_applied(
    table: &Table,
    closure: &mut Closure,
    alloc: Global,
    f: &Name,
    premises: &[u64],
    gives: u64,
) -> Result<(), Mem>
    requires closure { IsClosure closure.old }
    requires numbered { AreNumbered table.now.sig table.now.trees closure.old.clauses }
    requires this { IsNumbered table.now.sig table.now.trees (record { line = ApplyLine f.now premises.now; gives = gives }) }
    ensures closure { IsClosure closure.new }
    ensures numbered { AreNumbered table.now.sig table.now.trees closure.new.clauses }
    ensures adds { Adds closure.old closure.new }
    ensures has { OnOk result (HasClause table.now.trees closure.new.clauses (trees_at table.now.trees premises.now) (tree_at table.now.trees gives)) }
{
    let name = f.copy(alloc)?;
    match numbers_of(alloc, premises) {
        Ok(numbers) => add(table, closure, Line::Apply(name, numbers), gives),
        Err(e) => Err(e),
    }
}

// The same where the symbol can be applied.
fn open_by(
    table: &Table,
    closure: &mut Closure,
    alloc: Global,
    opener: &Option<Name>,
    premises: &[u64],
    gives: u64,
) -> Result<(), Mem>
    requires closure { IsClosure closure.old }
    requires numbered { AreNumbered table.now.sig table.now.trees closure.old.clauses }
    requires this { (n : List ℕ) → opener.now ≡ Some n → IsNumbered table.now.sig table.now.trees (record { line = ApplyLine n premises.now; gives = gives }) }
    ensures closure { IsClosure closure.new }
    ensures numbered { AreNumbered table.now.sig table.now.trees closure.new.clauses }
    ensures adds { Adds closure.old closure.new }
    ensures has { OnOk result ((n : List ℕ) → opener.now ≡ Some n → HasClause table.now.trees closure.new.clauses (trees_at table.now.trees premises.now) (tree_at table.now.trees gives)) }
{
    match opener {
        Some(name) => add_applied(table, closure, alloc, name, premises, gives),
        None => Ok(()),
    }
}

// The clauses that take a term apart.
fn open_all(
    table: &Table,
    openers: &Openers,
    closure: &mut Closure,
    alloc: Global,
    n: u64,
) -> Result<(), Mem>
    requires closure { IsClosure closure.old }
    requires numbered { AreNumbered table.now.sig table.now.trees closure.old.clauses }
    requires openers { AreOpeners table.now.sig openers.now }
    requires number { n < length table.now.trees }
    requires normal { IsNormal (equations table.now.sig) (tree_at table.now.trees n) }
    ensures closure { IsClosure closure.new }
    ensures numbered { AreNumbered table.now.sig table.now.trees closure.new.clauses }
    ensures adds { Adds closure.old closure.new }
    ensures has { OnOk result (HaveOpenings table.now.sig table.now.trees closure.new.clauses (tree_at table.now.trees n)) }
{
    symbols_reduce_once();
    match shape_of(table, n) {
        Shape::Pair { first, second } => {
            open_by(table, closure, alloc, &openers.first, &[n], first)?;
            open_by(table, closure, alloc, &openers.second, &[n], second)
        }
        Shape::Encrypted { message, key } => open_by(
            table,
            closure,
            alloc,
            &openers.decrypts,
            &[n, key],
            message,
        ),
        Shape::EncryptedTo { message, secret } => open_by(
            table,
            closure,
            alloc,
            &openers.decrypts_by_secret,
            &[n, secret],
            message,
        ),
        Shape::Signed { message, key: _ } => {
            open_by(table, closure, alloc, &openers.reads, &[n], message)
        }
        Shape::Other => Ok(()),
    }
}

// The clause that puts a symbol on its terms.
fn make_applied(
    table: &Table,
    closure: &mut Closure,
    alloc: Global,
    n: u64,
    f: &Name,
    ks: &Numbers,
) -> Result<(), Mem>
    requires closure { IsClosure closure.old }
    requires numbered { AreNumbered table.now.sig table.now.trees closure.old.clauses }
    requires number { n < length table.now.trees }
    requires normal { IsNormal (equations table.now.sig) (tree_at table.now.trees n) }
    requires below { AreBelow n ks.now }
    requires tree { apply f.now (trees_of (trees_at table.now.trees ks.now)) ≡ tree_at table.now.trees n }
    ensures closure { IsClosure closure.new }
    ensures numbered { AreNumbered table.now.sig table.now.trees closure.new.clauses }
    ensures adds { Adds closure.old closure.new }
    ensures has { OnOk result (HaveMakings table.now.sig table.now.trees closure.new.clauses (tree_at table.now.trees n)) }
{
    table.each_is_over();
    if !table.signature().is_public(f) {
        return Ok(());
    }
    add_applied(table, closure, alloc, f, ks.as_slice(), n)
}

// The clause that makes a term.
fn make(table: &Table, closure: &mut Closure, alloc: Global, n: u64) -> Result<(), Mem>
    requires closure { IsClosure closure.old }
    requires numbered { AreNumbered table.now.sig table.now.trees closure.old.clauses }
    requires number { n < length table.now.trees }
    requires normal { IsNormal (equations table.now.sig) (tree_at table.now.trees n) }
    ensures closure { IsClosure closure.new }
    ensures numbered { AreNumbered table.now.sig table.now.trees closure.new.clauses }
    ensures adds { Adds closure.old closure.new }
    ensures has { OnOk result (HaveMakings table.now.sig table.now.trees closure.new.clauses (tree_at table.now.trees n)) }
{
    match table.node(n) {
        Node::Public(name) => add(table, closure, Line::Public(name.copy(alloc)?), n),
        Node::Fresh(_) => Ok(()),
        Node::App(f, ks) => make_applied(table, closure, alloc, n, f, ks),
    }
}

// All clauses that the term of a number brings.
pub(crate) fn bring(
    table: &Table,
    openers: &Openers,
    closure: &mut Closure,
    alloc: Global,
    n: u64,
) -> Result<(), Mem>
    requires closure { IsClosure closure.old }
    requires numbered { AreNumbered table.now.sig table.now.trees closure.old.clauses }
    requires openers { AreOpeners table.now.sig openers.now }
    requires number { n < length table.now.trees }
    requires normal { IsNormal (equations table.now.sig) (tree_at table.now.trees n) }
    ensures closure { IsClosure closure.new }
    ensures numbered { AreNumbered table.now.sig table.now.trees closure.new.clauses }
    ensures adds { Adds closure.old closure.new }
    ensures makings { OnOk result (HaveMakings table.now.sig table.now.trees closure.new.clauses (tree_at table.now.trees n)) }
    ensures openings { OnOk result (HaveOpenings table.now.sig table.now.trees closure.new.clauses (tree_at table.now.trees n)) }
{
    make(table, closure, alloc, n)?;
    open_all(table, openers, closure, alloc, n)
}
