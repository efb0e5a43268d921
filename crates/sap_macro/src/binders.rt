//! The names that bodies of definitions bind.
ghost use Rattle.std.specs.Prelude.{◌≡◌, ◌++◌, ◌∷◌, [], IfOk, OnOk, is_some, if◌then◌else◌};
ghost use Rattle.sap_terms.specs.NameMap.{value_at};
ghost use Rattle.sap_terms.specs.NameSet.{with_name};
ghost use Rattle.sap_terms.specs.Variables.{tree_vars};
ghost use Rattle.sap_terms.specs.View.{tree};
ghost use Rattle.sap_macro.specs.Expansion.{binding_vars};
ghost use Rattle.sap_macro.specs.Order.{AreInOrder};
ghost use Rattle.sap_macro.specs.Sources.{definitions, doing, written};
ghost use Rattle.sap_macro.specs.code.Heads.{head_names, names_in, other_names};
ghost use Rattle.sap_macro.specs.Ends.{AreEnds};
ghost use Rattle.sap_macro.specs.Indexed.{AreIndexed};
ghost use Rattle.sap_macro.specs.code.Names.{with_names};

use crate::below::below;
use crate::definition::DefinitionList;
use crate::ends::{Ends, form_of};
use crate::index::Index;
use crate::source::{Below, Doing, Source};
use sap_process::rule_vars;
use sap_terms::{Copied, FactList, Mem, Name, NameMap, NameSet, Term, Var, Vars, push_vars};
use std::alloc::Global;

// The variables of the pattern.
fn pattern_vars(alloc: Global, t: &Term) -> Result<Vars, Mem>
    ensures { IfOk result (λ vs. vs ≡ tree_vars (tree t.now)) }
{
    let mut vars = Vars::new(alloc);
    push_vars(alloc, t, &mut vars)?;
    Ok(vars)
}

fn one_var(alloc: Global, x: &Var) -> Result<Vars, Mem>
    ensures { IfOk result (λ vs. vs ≡ x.now ∷ []) }
{
    let mut vars = Vars::new(alloc);
    vars.push(x.copy(alloc)?)?;
    Ok(vars)
}

// The variables that may be bound.
fn vars_of(alloc: Global, first: &Doing) -> Result<Vars, Mem>
    ensures { IfOk result (λ vs. vs ≡ binding_vars (doing first.now)) }
{
    match first {
        Doing::New(x) => one_var(alloc, x),
        Doing::In(t) | Doing::Recv(_, t) => pattern_vars(alloc, t),
        Doing::Embedded(l, e, r) => rule_vars(alloc, l, e, r),
        _ => Ok(Vars::new(alloc)),
    }
}

// Adds the name unless it is a parameter.
fn add_name(terms: &NameMap<Term>, own: &mut NameSet, name: &Name) -> Result<(), Mem>
    ensures { OnOk result (own.new ≡ (if is_some (value_at terms.now name.now) then own.old else with_name own.old name.now)) }
{
    if terms.contains_key(name) {
        return Ok(());
    }
    own.insert(name)?;
    Ok(())
}

// Adds the names of these, but for parameters.
fn add_vars(terms: &NameMap<Term>, own: &mut NameSet, vars: &Vars) -> Result<(), Mem>
    ensures { OnOk result (own.new ≡ with_names own.old (other_names (λ x. is_some (value_at terms.now x)) vars.now)) }
{
    for k in 0..vars.len() {
        add_name(terms, own, &vars.at(k).name)?;
    }
    Ok(())
}

fn add_doing(
    alloc: Global,
    terms: &NameMap<Term>,
    own: &mut NameSet,
    first: &Doing,
) -> Result<(), Mem>
    ensures { OnOk result (own.new ≡ with_names own.old (other_names (λ x. is_some (value_at terms.now x))
        (binding_vars (doing first.now)))) }
{
    let vars = vars_of(alloc, first)?;
    add_vars(terms, own, &vars)
}

// Adds the names that the head may bind, but for parameters.
fn add_head(
    alloc: Global,
    terms: &NameMap<Term>,
    own: &mut NameSet,
    form: &Source,
) -> Result<(), Mem>
    ensures { OnOk result (own.new ≡ with_names own.old (head_names (λ x. is_some (value_at terms.now x)) (written form.now))) }
{
    match form {
        Source::Act(_, first, _) => add_doing(alloc, terms, own, first),
        Source::Lookup(_, _, x, _, _) => {
            own.insert(&x.name)?;
            Ok(())
        }
        _ => Ok(()),
    }
}

/// Adds the names that the process may bind, but for parameters, in preorder, its names without parameters replaced. It recurses as
/// deep as the process is then.
pub(crate) fn add_names(
    alloc: Global,
    defs: &DefinitionList,
    index: &Index,
    ends: &Ends,
    terms: &NameMap<Term>,
    own: &mut NameSet,
    source: &Source,
) -> Result<(), Mem>
    requires order { AreInOrder [] (definitions defs.now) }
    requires index { AreIndexed (definitions defs.now) index.now }
    requires ends { AreEnds (definitions defs.now) ends.now }
    ensures { OnOk result (own.new ≡ with_names own.old (names_in (definitions defs.now)
        (λ x. is_some (value_at terms.now x)) (written source.now))) }
{
    let form = form_of(defs, index, ends, source);
    add_head(alloc, terms, own, form)?;
    match below(form) {
        Below::Nothing => Ok(()),
        Below::Use(_, _) => Ok(()),
        Below::One(p) => {
            add_names(alloc, defs, index, ends, terms, own, p)?;
            Ok(())
        }
        Below::Two(p, q) => {
            add_names(alloc, defs, index, ends, terms, own, p)?;
            add_names(alloc, defs, index, ends, terms, own, q)?;
            Ok(())
        }
    }
}
