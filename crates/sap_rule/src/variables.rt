//! The variables that a rule leaves open.
ghost use Rattle.std.specs.Prelude.{◌≡◌, ℕ, ◌++◌, ◌∷◌, [], IfOk, OnOk, List, not, map, if◌then◌else◌};
ghost use Rattle.sap_terms.specs.Tree.{trees_of};
ghost use Rattle.sap_terms.specs.Variables.{facts_vars, tree_vars, trees_vars, is_known, new_vars};
ghost use Rattle.sap_terms.specs.View.{tree};
ghost use Rattle.sap_rewrite.specs.Around.{outer_vars, all_outer_vars};
ghost use Rattle.sap_rule.specs.Variables.{facts_outer_vars, rule_vars, open_variables};

use crate::Rule;
use sap_terms::{
    Copied, FactList, Mem, Name, NameSet, Signature, Term, TermList, Vars, push_facts_vars,
};
use std::alloc::Global;

/// The open variables of a rule: those that stand nowhere on its left side outside a subterm that a destructor of the
/// signature heads. They come in order of first occurrence over the left side, the acts and the right side. It takes
/// time in proportion to the rule, where each name of a variable is looked for among the others by its order, and recurses as
/// deep as its terms.
pub fn open_vars(alloc: Global, sig: &Signature, r: &Rule) -> Result<Vars, Mem>
    ensures { IfOk result (λ vs. vs ≡ open_variables sig.now r.now) }
{
    let all = vars_of(alloc, r)?;
    let mut known = outer_names(alloc, sig, &r.left)?;
    first_occurrences(alloc, &mut known, &all)
}

// The names of the variables that stand in these facts outside the subterms that a destructor heads.
fn outer_names(alloc: Global, sig: &Signature, fs: &FactList) -> Result<NameSet, Mem>
    ensures { IfOk result (λ s. (n : List ℕ) → is_known s n ≡ is_known (map (λ v. v.name) (facts_outer_vars sig.now fs.now)) n) }
{
    let mut outer = Vars::new(alloc);
    push_facts_outer_vars(alloc, sig, fs, &mut outer)?;
    names_of(alloc, &outer)
}

// Each occurrence of a variable in the rule.
pub(crate) fn vars_of(alloc: Global, r: &Rule) -> Result<Vars, Mem>
    ensures { IfOk result (λ vs. vs ≡ rule_vars r.now) }
{
    let mut all = Vars::new(alloc);
    push_facts_vars(alloc, &r.left, &mut all)?;
    push_facts_vars(alloc, &r.acts, &mut all)?;
    push_facts_vars(alloc, &r.right, &mut all)?;
    Ok(all)
}

// Adds a name to the known ones; true where it wasn't known.
fn note(known: &mut NameSet, name: &Name) -> Result<bool, Mem>
    ensures new { IfOk result (λ r. r ≡ not (is_known known.old name.now)) }
    ensures keys { OnOk result (known.new ≡ (if is_known known.old name.now then known.old else known.old ++ name.now ∷ [])) }
{
    let (_, new) = known.insert(name)?;
    Ok(new)
}

// The names of these variables.
fn names_of(alloc: Global, vars: &Vars) -> Result<NameSet, Mem>
    ensures { IfOk result (λ s. (n : List ℕ) → is_known s n ≡ is_known (map (λ v. v.name) vars.now) n) }
{
    let mut names = NameSet::new(alloc);
    for v in vars.as_slice() {
        note(&mut names, &v.name)?;
    }
    Ok(names)
}

// The first occurrences of variables whose names are not known.
fn first_occurrences(alloc: Global, known: &mut NameSet, vars: &Vars) -> Result<Vars, Mem>
    ensures { IfOk result (λ out. out ≡ new_vars known.old vars.now) }
{
    let mut out = Vars::new(alloc);
    for v in vars.as_slice() {
        if note(known, &v.name)? {
            out.push(v.copy(alloc)?)?;
        }
    }
    Ok(out)
}

// Each occurrence outside the subterms that a destructor heads, added to these.
#[cycle(push_outer)]
fn push_outer_vars(alloc: Global, sig: &Signature, t: &Term, out: &mut Vars) -> Result<(), Mem>
    ensures { OnOk result (out.new ≡ out.old ++ outer_vars sig.now (tree t.now)) }
{
    match t {
        Term::Var(v) => out.push(v.copy(alloc)?)?,
        Term::App(f, ts) => {
            if !sig.is_destructor(f) {
                push_all_outer_vars(alloc, sig, ts, out)?;
            }
        }
        _ => {}
    }
    Ok(())
}

#[cycle(push_outer)]
fn push_all_outer_vars(
    alloc: Global,
    sig: &Signature,
    ts: &TermList,
    out: &mut Vars,
) -> Result<(), Mem>
    ensures { OnOk result (out.new ≡ out.old ++ all_outer_vars sig.now (trees_of ts.now)) }
{
    for k in 0..ts.len() {
        push_outer_vars(alloc, sig, ts.at(k), out)?;
    }
    Ok(())
}

// The same of facts.
fn push_facts_outer_vars(
    alloc: Global,
    sig: &Signature,
    fs: &FactList,
    out: &mut Vars,
) -> Result<(), Mem>
    ensures { OnOk result (out.new ≡ out.old ++ facts_outer_vars sig.now fs.now) }
{
    for f in fs.as_slice() {
        push_all_outer_vars(alloc, sig, &f.args, out)?;
    }
    Ok(())
}
