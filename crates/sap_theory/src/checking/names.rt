//! Which name two rules share, or two restrictions or lemmas, and which function clashes.
ghost use Rattle.std.specs.Prelude.{◌≡◌, ◌||◌, ℕ, List, None, Some, map, IfOk, OnOk, IsErrOf};
ghost use Rattle.std.specs.List.{list_any};
ghost use Rattle.std.specs.Str.{bytes_eq};
ghost use Rattle.sap_theory.specs.TheoryCauses.{first_repeated, rule_names, statement_names, shared};
ghost use Rattle.sap_theory.specs.code.Named.{name_there};
ghost use Rattle.sap_theory.specs.declared.fault.TheoryFault.{TheoryFault};
ghost use Rattle.sap_theory.specs.declared.fault.TheoryFault.TheVariants.{Mem as OutOfMemory, DuplicateName as IsDuplicate, FunctionClash as IsClash};

use crate::fault::TheoryFault;
use sap_rule::RuleList;
use sap_statements::Statement;
use sap_terms::{Copied, Items, Mem, Name, NameList, NameSet};
use std::alloc::Global;

// The names of rules, in order.
fn rule_names(alloc: Global, rules: &RuleList) -> Result<NameList, Mem>
    ensures { IfOk result (λ names. names ≡ rule_names rules.now) }
{
    let mut names = NameList::new(alloc);
    for rule in rules.as_slice() {
        names.push(rule.name.copy(alloc)?)?;
    }
    Ok(names)
}

// The names of restrictions and lemmas, in order.
fn statement_names(alloc: Global, statements: &Items<Statement>) -> Result<NameList, Mem>
    ensures { IfOk result (λ names. names ≡ statement_names statements.now) }
{
    let mut names = NameList::new(alloc);
    for statement in statements.as_slice() {
        names.push(statement.name().copy(alloc)?)?;
    }
    Ok(names)
}

// Whether the name is one of these. It is one of them now.
fn is_repeated(names: &mut NameSet, name: &Name) -> Result<bool, Mem>
    ensures is { IfOk result (λ b. b ≡ list_any (bytes_eq name.now) names.old) }
    ensures more { OnOk result ((x : List ℕ)
        → list_any (bytes_eq x) names.new ≡ (bytes_eq name.now x
        || list_any (bytes_eq x) names.old)) }
{
    let (_, is_new) = names.insert(name)?;
    Ok(!is_new)
}

// The index of the first of the names that stands again behind it. It takes time in proportion to the list, where
// each name is looked for among those behind it by its order.
fn first_repeated_at(alloc: Global, names: &NameList) -> Result<Option<u64>, Mem>
    ensures { IfOk result (λ k. first_repeated names.now ≡ name_there names.now k) }
{
    let mut behind = NameSet::new(alloc);
    let mut found = None;
    let mut k = names.len();
    while k > 0 {
        k -= 1;
        if is_repeated(&mut behind, names.at(k))? {
            found = Some(k);
        }
    }
    Ok(found)
}

// The first of the names that stands again behind it.
fn first_repeated(alloc: Global, names: &NameList) -> Result<Option<Name>, Mem>
    ensures { IfOk result (λ name. name ≡ first_repeated names.now) }
{
    let Some(k) = first_repeated_at(alloc, names)? else {
        return Ok(None);
    };
    match names.get(k) {
        Some(name) => Ok(Some(name.copy(alloc)?)),
        None => Ok(None),
    }
}

// The first name that two rules share; where there is none, the first that two restrictions or lemmas share.
fn shared(
    alloc: Global,
    rules: &RuleList,
    statements: &Items<Statement>,
) -> Result<Option<Name>, Mem>
    ensures { IfOk result (λ name. name ≡ shared rules.now statements.now) }
{
    let names = rule_names(alloc, rules)?;
    if let Some(name) = first_repeated(alloc, &names)? {
        return Ok(Some(name));
    }
    let names = statement_names(alloc, statements)?;
    first_repeated(alloc, &names)
}

/// Refuses a name that is shared. It takes time in proportion to the lists, whose names are found by their order.
pub(crate) fn check_names(
    alloc: Global,
    rules: &RuleList,
    statements: &Items<Statement>,
) -> Result<(), TheoryFault>
    ensures none { OnOk result (shared rules.now statements.now ≡ None) }
    ensures refused { (e : TheoryFault) → IsErrOf result e → (e ≡ OutOfMemory → ⊥) → (x : List ℕ)
        × (e ≡ IsDuplicate x) × (shared rules.now statements.now ≡ Some x) }
{
    match shared(alloc, rules, statements)? {
        None => Ok(()),
        Some(name) => Err(TheoryFault::DuplicateName { name }),
    }
}

/// Refuses a function that is declared otherwise than before it.
pub(crate) fn check_clash(alloc: Global, clash: &Option<Name>) -> Result<(), TheoryFault>
    ensures none { OnOk result (clash.now ≡ None) }
    ensures refused { (e : TheoryFault) → IsErrOf result e → (e ≡ OutOfMemory → ⊥) → (x : List ℕ)
        × (e ≡ IsClash x) × (clash.now ≡ Some x) }
{
    match clash {
        None => Ok(()),
        Some(name) => Err(TheoryFault::FunctionClash {
            name: name.copy(alloc)?,
        }),
    }
}
