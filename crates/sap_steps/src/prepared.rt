//! Rules, with what is asked of them at each use found once.
ghost use Rattle.std.specs.Prelude.{◌≡◌, ◌↔◌, All, IfOk, IsTrue};
ghost use Rattle.sap_rule.specs.WellMade.{IsWellMade};
ghost use Rattle.sap_sides.specs.Messages.{HasNoDestructor};
ghost use Rattle.sap_steps.specs.code.Ready.{IsReady};

use sap_rule::{Rule, open_vars};
use sap_share::Order;
use sap_terms::{
    Copied, Fact, FactList, HasName, Mem, Name, NameSet, Signature, Vars, push_facts_vars,
};
use std::alloc::Global;

// A rule, its open variables, the names of its variables in the order in which a line binds them, and whether its left side
// is plain: no destructor stands in it.
#[derive(Drop)]
pub(crate) struct Prepared {
    pub(crate) rule: Rule,
    pub(crate) open_vars: Vars,
    pub(crate) order: Order,
    pub(crate) plain: bool,
}

impl HasName for Prepared {
    ghost name_of = { λ p. p.rule.name };

    fn name(&self) -> &Name {
        &self.rule.name
    }
}

// The rule, ready to be used.
pub(crate) fn ready_rule(alloc: Global, sig: &Signature, r: &Rule) -> Result<Prepared, Mem>
    requires { IsWellMade sig.now r.now }
    ensures ready { IfOk result (IsReady sig.now) }
    ensures rule { IfOk result (λ p. p.rule ≡ r.now) }
{
    let plain = have_no_destructor(sig, &r.left);
    let open_vars = open_vars(alloc, sig, r)?;
    let order = order_of(alloc, &open_vars, &r.left)?;
    let rule = r.copy(alloc)?;
    Ok(Prepared {
        rule,
        open_vars,
        order,
        plain,
    })
}

// The names of the open variables, which a line binds first, and then of those of the left side, which its facts bind. What a
// line means doesn't depend on it.
fn order_of(alloc: Global, open_vars: &Vars, left: &FactList) -> Result<Order, Mem> {
    let mut vars = open_vars.copy(alloc)?;
    push_facts_vars(alloc, left, &mut vars)?;
    let mut names = NameSet::new(alloc);
    for v in vars.as_slice() {
        names.insert(&v.name)?;
    }
    Order::of(alloc, names)
}

// Whether no destructor stands in these facts.
fn have_no_destructor(sig: &Signature, fs: &FactList) -> bool
    ensures { IsTrue result ↔ All (HasNoDestructor sig.now) fs.now }
{
    fs.as_slice().iter().all(|f| has_no_destructor(sig, f))
}

// Whether none stands in this one.
fn has_no_destructor(sig: &Signature, f: &Fact) -> bool
    ensures { IsTrue result ↔ HasNoDestructor sig.now f.now }
{
    !sig.any_has_destructor(&f.args)
}
