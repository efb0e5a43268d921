//! The rules of a process: one walk through its places.
ghost use Rattle.std.specs.Prelude.{◌≡◌, [], ◌∷◌, ◌++◌, IfOk, OnOk, unwrap_or};
ghost use Rattle.sap_terms.specs.Path.{IsDigit};
ghost use Rattle.sap_process.specs.Proc.{proc};
ghost use Rattle.sap_outlines.specs.Places.{scope_handed_down};
ghost use Rattle.sap_outlines.specs.Templates.{init_rule, own_rules, place_rules, rules_of};
ghost use Rattle.sap_templates.specs.code.Inside.{rules_below};

use crate::making::{Site, push_rule, push_rules};
use crate::terms::terms_of;
use sap_outlines::{init, outlines};
use sap_place::{path_below, with_lock, with_pattern, with_rule, with_var};
use sap_process::{Children, Process};
use sap_rule::RuleList;
use sap_terms::{Mem, Path, Signature, Sort, TermList, Vars};
use std::alloc::Global;

/// The rules of an annotated process: `Init`, and then those of its places in preorder. Want of memory is the only error.
///
/// It recurses as deep as the process. No form looks at the signature.
pub fn generate(alloc: Global, _sig: &Signature, p: &Process) -> Result<RuleList, Mem>
    ensures { IfOk result (λ rules. rules ≡ rules_of (proc p.now)) }
{
    let mut rules = RuleList::new(alloc);
    add_all(alloc, p, &mut rules)?;
    Ok(rules)
}

// Puts `Init` and the rules of all places last.
fn add_all(alloc: Global, p: &Process, rules: &mut RuleList) -> Result<(), Mem>
    ensures { OnOk result (rules.new ≡ rules.old ++ rules_of (proc p.now)) }
{
    let root = Path::new(alloc);
    let scope = Vars::new(alloc);
    push_init(alloc, p, &root, &scope, rules)?;
    add_places(p, alloc, &root, &scope, rules)
}

// Puts `Init` last.
fn push_init(
    alloc: Global,
    p: &Process,
    root: &Path,
    scope: &Vars,
    rules: &mut RuleList,
) -> Result<(), Mem>
    requires path { root.now ≡ [] }
    requires scope { scope.now ≡ [] }
    ensures { OnOk result (rules.new ≡ rules.old ++ init_rule ∷ []) }
{
    let terms = TermList::new(alloc);
    let site = Site {
        process: p,
        path: root,
        scope,
        inner: scope,
        terms: &terms,
    };
    push_rule(alloc, &site, &init(), rules)
}

// Puts the rules of the places from this one on last.
#[cycle(walk)]
fn add_places(
    p: &Process,
    alloc: Global,
    path: &Path,
    scope: &Vars,
    rules: &mut RuleList,
) -> Result<(), Mem>
    ensures { OnOk result (rules.new ≡ rules.old ++ place_rules path.now scope.now (proc p.now)) }
{
    match grown_scope(alloc, scope, p)? {
        Some(inner) => add_from(p, alloc, path, scope, &inner, rules),
        None => add_from(p, alloc, path, scope, scope, rules),
    }
}

// The same, where the inner scope is that at the first child.
#[cycle(walk)]
fn add_from(
    p: &Process,
    alloc: Global,
    path: &Path,
    scope: &Vars,
    inner: &Vars,
    rules: &mut RuleList,
) -> Result<(), Mem>
    requires { inner.now ≡ scope_handed_down scope.now (proc p.now) 1 }
    ensures { OnOk result (rules.new ≡ rules.old ++ place_rules path.now scope.now (proc p.now)) }
{
    add_own(p, alloc, path, scope, inner, rules)?;
    add_below(p, alloc, path, scope, inner, rules)?;
    Ok(())
}

// Puts the rules of the places below this one last.
#[cycle(walk)]
fn add_below(
    p: &Process,
    alloc: Global,
    path: &Path,
    scope: &Vars,
    inner: &Vars,
    rules: &mut RuleList,
) -> Result<(), Mem>
    ensures { OnOk result (rules.new
        ≡ rules.old ++ rules_below path.now scope.now inner.now (proc p.now)) }
{
    match p.children() {
        Children::Nothing => Ok(()),
        Children::One(q) => add_child(q, alloc, path, 1, inner, rules),
        Children::Two(q, r) => {
            add_child(q, alloc, path, 1, inner, rules)?;
            add_child(r, alloc, path, 2, scope, rules)
        }
    }
}

// Puts the rules from the child of this digit on last.
#[cycle(walk)]
fn add_child(
    q: &Process,
    alloc: Global,
    path: &Path,
    digit: u8,
    scope: &Vars,
    rules: &mut RuleList,
) -> Result<(), Mem>
    requires { IsDigit digit }
    ensures { OnOk result (rules.new
        ≡ rules.old ++ place_rules (path.now ++ digit ∷ []) scope.now (proc q.now)) }
{
    let child = path_below(alloc, path, digit)?;
    add_places(q, alloc, &child, scope, rules)
}

// Puts the rules of the place with this path last, where the one scope is that at the place, and the inner one that of its
// first child.
fn add_own(
    p: &Process,
    alloc: Global,
    path: &Path,
    scope: &Vars,
    inner: &Vars,
    rules: &mut RuleList,
) -> Result<(), Mem>
    requires { inner.now ≡ scope_handed_down scope.now (proc p.now) 1 }
    ensures { OnOk result (rules.new ≡ rules.old ++ own_rules path.now scope.now (proc p.now)) }
{
    let terms = terms_of(alloc, p)?;
    let site = Site {
        process: p,
        path,
        scope,
        inner,
        terms: &terms,
    };
    push_rules(alloc, &site, outlines(p), rules)
}

// The scope at the first child, where the place binds something.
fn grown_scope(alloc: Global, scope: &Vars, p: &Process) -> Result<Option<Vars>, Mem>
    ensures { IfOk result (λ o. unwrap_or o scope.now ≡ scope_handed_down scope.now (proc p.now) 1) }
{
    match p {
        Process::New(x, _) => Ok(Some(with_var(alloc, scope, x, Sort::Fresh)?)),
        Process::In(t, _) | Process::Recv(_, t, _) => Ok(Some(with_pattern(alloc, scope, t)?)),
        Process::Lookup(_, x, _, _) => Ok(Some(with_var(alloc, scope, x, Sort::Msg)?)),
        Process::Lock(_, l, _) => Ok(Some(with_lock(alloc, scope, *l)?)),
        Process::Embedded(l, a, r, _) => Ok(Some(with_rule(alloc, scope, l, a, r)?)),
        _ => Ok(None),
    }
}
