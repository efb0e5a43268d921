//! Expansions of processes.
ghost use Rattle.std.specs.Prelude.{◌≡◌, ◌<◌, ◌≤◌, ◌-◌, ℕ, List, [], IfNone, IfOk, IfSome, OnOk, drop, is_some, length, map, slice_get};
ghost use Rattle.std.specs.Option.{unwrap_or};
ghost use Rattle.sap_terms.specs.Choice.{instance};
ghost use Rattle.sap_terms.specs.NameMap.{value_at};
ghost use Rattle.sap_terms.specs.Tree.{Tree, public};
ghost use Rattle.sap_terms.specs.Variables.{is_known};
ghost use Rattle.sap_terms.specs.View.{tree};
ghost use Rattle.sap_process.specs.Proc.{proc, nil};
ghost use Rattle.sap_macro.specs.Expansion.{expanded_as, expansion};
ghost use Rattle.sap_macro.specs.NewNames.{renamed, taken_after};
ghost use Rattle.sap_macro.specs.Order.{AreInOrder};
ghost use Rattle.sap_macro.specs.Sources.{definition_of, definitions, written};
ghost use Rattle.sap_macro.specs.Written.{call};
ghost use Rattle.sap_macro.specs.code.Entering.{ArePut, IsEntered, own_names_in};
ghost use Rattle.sap_macro.specs.Ends.{AreEnds};
ghost use Rattle.sap_macro.specs.Indexed.{AreIndexed};
ghost use Rattle.sap_macro.specs.code.Standings.{choice_of};
ghost use Rattle.sap_macro.specs.Walked.{steps_in};
ghost use Rattle.sap_macro.specs.code.Steps.{built, plain_of, IsFormed, IsResolved};

use crate::below::below;
use crate::binders::add_names;
use crate::chosen::{Chosen, new_names};
use crate::definition::{Definition, DefinitionList};
use crate::ends::{Ends, ends_of, form_of};
use crate::heads::{over_one, over_two};
use crate::index::{Index, definition_named, index_of};
use crate::source::{Below, Source};
use crate::standing::{Standing, nothing_put};
use sap_process::{Process, ended, replaced_terms};
use sap_terms::{Copied, Mem, Name, NameList, NameMap, NameSet, Term, TermList};
use std::alloc::Global;
use std::mem;

// The argument at the index, '' where there is none.
fn argument(alloc: Global, args: &TermList, k: u64) -> Result<Term, Mem>
    ensures { IfOk result (λ t. tree t ≡ unwrap_or (slice_get args.now k) (public [])) }
{
    match args.get(k) {
        Some(t) => t.copy(alloc),
        None => Ok(Term::Public(Name::from_bytes(alloc, b"")?)),
    }
}

// The arguments by their parameters; of parameters that are the same the first counts.
fn by_params(alloc: Global, params: &NameList, args: &TermList) -> Result<NameMap<Term>, Mem>
    ensures { IfOk result (λ m. ArePut params.now args.now m) }
{
    let mut terms = NameMap::new(alloc);
    let mut k = params.len();
    while 0 < k {
        put_before(alloc, params, args, k, &mut terms)?;
        k -= 1;
    }
    Ok(terms)
}

// Puts the argument before this index by its parameter, where those from the index on are put.
fn put_before(
    alloc: Global,
    params: &NameList,
    args: &TermList,
    k: u64,
    terms: &mut NameMap<Term>,
) -> Result<(), Mem>
    requires some { 0 < k }
    requires within { k ≤ length params.now }
    requires put { ArePut (drop k params.now) (drop k args.now) terms.now }
    ensures { OnOk result (ArePut (drop (k - 1) params.now) (drop (k - 1) args.now) terms.new) }
{
    let name = params.at(k - 1).copy(alloc)?;
    match argument(alloc, args, k - 1) {
        Ok(t) => terms.insert(name, t),
        Err(e) => {
            drop(name);
            Err(e)
        }
    }
}

// The names that the body binds, each once, in the order of their first binders.
fn own_names(
    alloc: Global,
    defs: &DefinitionList,
    index: &Index,
    ends: &Ends,
    terms: &NameMap<Term>,
    d: &Definition,
) -> Result<NameSet, Mem>
    requires order { AreInOrder [] (definitions defs.now) }
    requires index { AreIndexed (definitions defs.now) index.now }
    requires ends { AreEnds (definitions defs.now) ends.now }
    requires params { (x : List ℕ) → is_some (value_at terms.now x) ≡ is_known d.now.params x }
    ensures { IfOk result (λ own. own ≡ own_names_in (definitions defs.now) (definition_of d.now)) }
{
    let mut own = NameSet::new(alloc);
    add_names(alloc, defs, index, ends, terms, &mut own, &d.body)?;
    Ok(own)
}

// New names for what the definition binds, where these stand for its parameters.
fn names_for(
    alloc: Global,
    defs: &DefinitionList,
    index: &Index,
    ends: &Ends,
    chosen: &mut Chosen,
    terms: &NameMap<Term>,
    d: &Definition,
) -> Result<NameMap<Name>, Mem>
    requires order { AreInOrder [] (definitions defs.now) }
    requires index { AreIndexed (definitions defs.now) index.now }
    requires ends { AreEnds (definitions defs.now) ends.now }
    requires params { (x : List ℕ) → is_some (value_at terms.now x) ≡ is_known d.now.params x }
    ensures names { IfOk result (λ m. (x : List ℕ) → unwrap_or (value_at m x) x
        ≡ renamed chosen.old (own_names_in (definitions defs.now) (definition_of d.now)) x) }
    ensures taken { OnOk result (chosen.new ≡ taken_after chosen.old (own_names_in (definitions defs.now) (definition_of d.now))) }
{
    let own = own_names(alloc, defs, index, ends, terms, d)?;
    new_names(alloc, chosen, &own)
}

// What stands for names in the body of the definition, where these are its arguments: they for its parameters, and new names for
// what it binds.
fn entered_with(
    alloc: Global,
    defs: &DefinitionList,
    index: &Index,
    ends: &Ends,
    chosen: &mut Chosen,
    d: &Definition,
    args: &TermList,
) -> Result<Standing, Mem>
    requires order { AreInOrder [] (definitions defs.now) }
    requires index { AreIndexed (definitions defs.now) index.now }
    requires ends { AreEnds (definitions defs.now) ends.now }
    ensures inner { IfOk result (λ inner. IsEntered (definitions defs.now) (definition_of d.now) args.now chosen.old inner) }
    ensures taken { OnOk result (chosen.new ≡ taken_after chosen.old (own_names_in (definitions defs.now) (definition_of d.now))) }
{
    let terms = by_params(alloc, &d.params, args)?;
    let names = names_for(alloc, defs, index, ends, chosen, &terms, d)?;
    Ok(Standing { terms, names })
}

// The same, where this stands for the names of the arguments.
fn entered(
    alloc: Global,
    defs: &DefinitionList,
    index: &Index,
    ends: &Ends,
    s: &Standing,
    chosen: &mut Chosen,
    d: &Definition,
    args: &TermList,
) -> Result<Standing, Mem>
    requires order { AreInOrder [] (definitions defs.now) }
    requires index { AreIndexed (definitions defs.now) index.now }
    requires ends { AreEnds (definitions defs.now) ends.now }
    ensures inner { IfOk result (λ inner. IsEntered (definitions defs.now) (definition_of d.now)
        (map (instance (choice_of s.now)) args.now) chosen.old inner) }
    ensures taken { OnOk result (chosen.new ≡ taken_after chosen.old (own_names_in (definitions defs.now) (definition_of d.now))) }
{
    let args = replaced_terms(alloc, s, args)?;
    entered_with(alloc, defs, index, ends, chosen, d, &args)
}

// Behind a use of the definition: what stands for names there, and the form of its body.
fn passed<'a>(
    alloc: Global,
    defs: &'a DefinitionList,
    index: &Index,
    ends: &Ends,
    s: &Standing,
    chosen: &mut Chosen,
    d: &'a Definition,
    args: &TermList,
) -> Result<(Standing, &'a Source), Mem>
    requires order { AreInOrder [] (definitions defs.now) }
    requires index { AreIndexed (definitions defs.now) index.now }
    requires ends { AreEnds (definitions defs.now) ends.now }
    requires resolved { IsResolved (definitions defs.now) (definition_of d.now) }
    requires formed { (us : List Tree) → plain_of (definitions defs.now) d.now.name us ≡ call d.now.name us }
    ensures same { IfOk result (λ r. built (definitions defs.now) r.0 (written r.1.now) chosen.new
        ≡ built (definitions defs.now) s.now (call d.now.name args.now) chosen.old) }
    ensures steps { IfOk result (λ r. steps_in (definitions defs.now) (written r.1.now)
        < steps_in (definitions defs.now) (call d.now.name args.now)) }
    ensures formed { IfOk result (λ r. IsFormed (definitions defs.now) (written r.1.now)) }
{
    let inner = entered(alloc, defs, index, ends, s, chosen, d, args)?;
    Ok((inner, form_of(defs, index, ends, &d.body)))
}

// Behind a use, and behind all uses that are the whole body of a definition: what stands for names there, and what is to be built.
// None where nothing defines the name. A chain of uses is gone through in a loop.
#[tactic(auto, using(crate::proofs::Entries::known_resolved))]
fn reached<'a>(
    alloc: Global,
    defs: &'a DefinitionList,
    index: &Index,
    ends: &Ends,
    s: &Standing,
    chosen: &mut Chosen,
    name: &Name,
    args: &TermList,
) -> Result<Option<(Standing, &'a Source)>, Mem>
    requires order { AreInOrder [] (definitions defs.now) }
    requires index { AreIndexed (definitions defs.now) index.now }
    requires ends { AreEnds (definitions defs.now) ends.now }
    requires formed { (us : List Tree) → plain_of (definitions defs.now) name.now us ≡ call name.now us }
    ensures unknown { IfOk result (λ o. IfNone o ((built (definitions defs.now) s.now (call name.now args.now) chosen.old
        ≡ expanded_as nil chosen.old) × (chosen.new ≡ chosen.old))) }
    ensures same { IfOk result (λ o. IfSome o (λ r. built (definitions defs.now) r.0 (written r.1.now) chosen.new
        ≡ built (definitions defs.now) s.now (call name.now args.now) chosen.old)) }
    ensures steps { IfOk result (λ o. IfSome o (λ r. steps_in (definitions defs.now) (written r.1.now)
        < steps_in (definitions defs.now) (call name.now args.now))) }
{
    let Some(d) = definition_named(defs, index, name) else {
        return Ok(None);
    };
    let (mut inner, mut at) = passed(alloc, defs, index, ends, s, chosen, d, args)?;
    while let Source::Call(_, further, terms) = at {
        match definition_named(defs, index, further) {
            None => return Ok(Some((inner, at))),
            Some(e) => {
                let (next, form) = passed(alloc, defs, index, ends, &inner, chosen, e, terms)?;
                drop(mem::replace(&mut inner, next));
                at = form;
            }
        }
    }
    Ok(Some((inner, at)))
}

// The expansion of the process, where this stands for its names. It recurses as deep as the expansion.
fn build_in(
    alloc: Global,
    defs: &DefinitionList,
    index: &Index,
    ends: &Ends,
    s: &Standing,
    chosen: &mut Chosen,
    source: &Source,
) -> Result<Box<Process>, Mem>
    requires order { AreInOrder [] (definitions defs.now) }
    requires index { AreIndexed (definitions defs.now) index.now }
    requires ends { AreEnds (definitions defs.now) ends.now }
    ensures made { IfOk result (λ p. proc p.value
        ≡ (built (definitions defs.now) s.now (written source.now) chosen.old).process) }
    ensures taken { OnOk result (chosen.new
        ≡ (built (definitions defs.now) s.now (written source.now) chosen.old).taken) }
{
    let form = form_of(defs, index, ends, source);
    match below(form) {
        Below::Nothing => {
            let made = ended(alloc)?;
            Ok(made)
        }
        Below::Use(name, args) => match reached(alloc, defs, index, ends, s, chosen, name, args)? {
            None => {
                let made = ended(alloc)?;
                Ok(made)
            }
            Some((inner, at)) => {
                let made = build_in(alloc, defs, index, ends, &inner, chosen, at)?;
                Ok(made)
            }
        },
        Below::One(p) => {
            let next = build_in(alloc, defs, index, ends, s, chosen, p)?;
            let made = over_one(alloc, s, form, next)?;
            Ok(made)
        }
        Below::Two(p, q) => {
            let left = build_in(alloc, defs, index, ends, s, chosen, p)?;
            let right = build_in(alloc, defs, index, ends, s, chosen, q)?;
            let made = over_two(alloc, s, form, left, right)?;
            Ok(made)
        }
    }
}

// The expansion of the process, where nothing stands for its names and these are taken.
fn build_with(
    alloc: Global,
    defs: &DefinitionList,
    index: &Index,
    ends: &Ends,
    main: &Source,
    chosen: &mut Chosen,
) -> Result<Box<Process>, Mem>
    requires order { AreInOrder [] (definitions defs.now) }
    requires index { AreIndexed (definitions defs.now) index.now }
    requires ends { AreEnds (definitions defs.now) ends.now }
    ensures { IfOk result (λ p. proc p.value
        ≡ (expansion (definitions defs.now) chosen.old (written main.now)).process) }
{
    let first = nothing_put(alloc);
    let made = build_in(alloc, defs, index, ends, &first, chosen, main)?;
    Ok(made)
}

// The same, where these are the names of the file.
fn build_first(
    alloc: Global,
    defs: &DefinitionList,
    index: &Index,
    ends: &Ends,
    main: &Source,
    identifiers: &NameList,
) -> Result<Box<Process>, Mem>
    requires order { AreInOrder [] (definitions defs.now) }
    requires index { AreIndexed (definitions defs.now) index.now }
    requires ends { AreEnds (definitions defs.now) ends.now }
    ensures { IfOk result (λ p. proc p.value
        ≡ (expansion (definitions defs.now) identifiers.now (written main.now)).process) }
{
    let mut chosen = Chosen::new(alloc, identifiers)?;
    build_with(alloc, defs, index, ends, main, &mut chosen)
}

/// The expansion of the process behind these definitions, where these are the names of the file. Want of memory is the only error.
/// It takes time in proportion to the expansion and to the definitions as they are written, where each name is looked for by its
/// order; a chain of definitions that are mere uses with arguments is gone through at each place that it stands for. It recurses as deep as the
/// expansion, so its nodes and levels are counted first.
pub fn build(
    alloc: Global,
    defs: &DefinitionList,
    main: &Source,
    identifiers: &NameList,
) -> Result<Box<Process>, Mem>
    requires { AreInOrder [] (definitions defs.now) }
    ensures { IfOk result (λ p. proc p.value
        ≡ (expansion (definitions defs.now) identifiers.now (written main.now)).process) }
{
    let index = index_of(alloc, defs)?;
    let ends = ends_of(alloc, defs, &index)?;
    build_first(alloc, defs, &index, &ends, main, identifiers)
}
