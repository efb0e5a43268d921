// The bindings of a line, and the variables that a rule leaves open.
ghost use Rattle.std.specs.Prelude.{◌≡◌, ◌++◌, true, false, not, IfOk, IfErr, OnOk};
ghost use Rattle.sap_terms.specs.Variables.{facts_vars, is_known, new_vars};
ghost use Rattle.sap_process.specs.Sites.{var_names};
ghost use Rattle.sap_lines.specs.Faults.{AreRight};
ghost use Rattle.sap_heads.specs.Bound.{names_of};
ghost use Rattle.sap_heads.specs.code.Known.{KnowAlike, IsSifted};
ghost use Rattle.sap_heads.specs.code.Rules.{open_vars, AreNotOpen, SomeLarge, NoneLarge};

use sap_lines::PFault;
use sap_share::Env;
use sap_sides::{are_messages, are_of};
use sap_terms::{
    Bindings, Copied, FactList, MOST_TERM_NODES, Mem, NameSet, Signature, Var, Vars,
    push_facts_vars,
};
use std::alloc::Global;

// The names of these variables.
fn names_in(alloc: Global, vars: &Vars) -> Result<NameSet, Mem>
    ensures { IfOk result (λ s. KnowAlike s (var_names vars.now)) }
{
    let mut names = NameSet::new(alloc);
    for v in vars.as_slice() {
        names.insert(&v.name)?;
    }
    Ok(names)
}

// Whether a variable is new among what is bound and these names; if it is, they have its name then.
fn is_new(env: &Env, known: &mut NameSet, v: &Var) -> Result<bool, Mem>
    ensures new { IfOk result (λ r. r ≡ not (is_known (names_of env.now ++ known.old) v.now.name)) }
    ensures sifts { OnOk result (IsSifted (names_of env.now ++ known.old) (names_of env.now ++ known.new) v.now) }
{
    if env.binds(&v.name) {
        return Ok(false);
    }
    let added = known.insert(&v.name)?;
    Ok(added.1)
}

// The first occurrences of variables whose names are neither bound nor known. It takes time in proportion to the
// occurrences and to the logarithm of how many are bound and known.
fn first_of(alloc: Global, env: &Env, known: &mut NameSet, vars: &Vars) -> Result<Vars, Mem>
    ensures { IfOk result (λ out. out ≡ new_vars (names_of env.now ++ known.old) vars.now) }
{
    let mut out = Vars::new(alloc);
    for v in vars.as_slice() {
        if is_new(env, known, v)? {
            out.push(v.copy(alloc)?)?;
        }
    }
    Ok(out)
}

// The variables of facts.
fn vars_of(alloc: Global, fs: &FactList) -> Result<Vars, Mem>
    ensures { IfOk result (λ vs. vs ≡ facts_vars fs.now) }
{
    let mut vars = Vars::new(alloc);
    push_facts_vars(alloc, fs, &mut vars)?;
    Ok(vars)
}

// The variables of facts, and then of others.
fn later_of(alloc: Global, e: &FactList, r: &FactList) -> Result<Vars, Mem>
    ensures { IfOk result (λ vs. vs ≡ facts_vars e.now ++ facts_vars r.now) }
{
    let mut vars = vars_of(alloc, e)?;
    push_facts_vars(alloc, r, &mut vars)?;
    Ok(vars)
}

// The names of the variables of facts.
fn names_of_facts(alloc: Global, fs: &FactList) -> Result<NameSet, Mem>
    ensures { IfOk result (λ s. KnowAlike s (var_names (facts_vars fs.now))) }
{
    let vars = vars_of(alloc, fs)?;
    names_in(alloc, &vars)
}

// The variables that a rule leaves open.
pub(crate) fn open_of(
    alloc: Global,
    env: &Env,
    l: &FactList,
    e: &FactList,
    r: &FactList,
) -> Result<Vars, Mem>
    ensures { IfOk result (λ vs. vs ≡ open_vars env.now l.now e.now r.now) }
{
    let vars = later_of(alloc, e, r)?;
    let mut known = names_of_facts(alloc, l)?;
    first_of(alloc, env, &mut known, &vars)
}

// Tests that the bindings are of these variables, each to a message.
pub(crate) fn test_bindings(
    alloc: Global,
    sig: &Signature,
    vars: &Vars,
    b: &Bindings,
) -> Result<(), PFault>
    ensures ok { OnOk result (AreRight sig.now vars.now b.now) }
    ensures refused { IfErr result (AreNotOpen sig.now vars.now b.now) }
{
    if !are_of(b, vars) {
        return Err(PFault::BadBinding);
    }
    match are_messages(alloc, sig, b) {
        Err(_) => Err(PFault::Mem),
        Ok(false) => Err(PFault::BadBinding),
        Ok(true) => Ok(()),
    }
}

// Whether some binding is to a term of more than 256 nodes.
pub(crate) fn some_large(b: &Bindings) -> bool
    ensures yes { result ≡ true → SomeLarge b.now }
    ensures not { result ≡ false → NoneLarge b.now }
{
    for k in 0..b.len() {
        if b.at(k).term.nodes() > MOST_TERM_NODES {
            return true;
        }
    }
    false
}
