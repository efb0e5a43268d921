//! The theory of a file.
ghost use Rattle.std.specs.Prelude.{◌≡◌, ◌++◌, true, false, map, IfOk, OnOk};
ghost use Rattle.sap_process.specs.Proc.{proc};
ghost use Rattle.sap_read.specs.Files.{told_by};
ghost use Rattle.sap_restrict.specs.Inline.{formulas};
ghost use Rattle.sap_restrict.specs.Restrictions.{needed_restrictions};
ghost use Rattle.sap_gen.specs.Kept.{file_theory, inlined_file_theory};
ghost use Rattle.sap_templates.specs.Templates.{rules_of};
ghost use Rattle.sap_gen.specs.Theories as theories;

use sap_formula::{Lemma, LemmaList, RestrictionList};
use sap_process::Process;
use sap_read::File;
use sap_restrict::{inline, needed_restrictions};
use sap_rule::Theory;
use sap_templates::generate;
use sap_terms::{Copied, Mem};
use std::alloc::Global;

/// The theory of a file whose process is annotated: the file's name and signature, the rules of the process, the
/// restrictions that it needs and then the file's own, and the file's lemmas. Where these are to be inlined the theory has no
/// restrictions, and each lemma carries a copy of all of them in its formula. Want of memory is the only error.
/// It recurses as deep as the file's process, formulas and terms.
pub fn theory_of(alloc: Global, f: &File, inlined: bool) -> Result<Theory, Mem>
    ensures plain { inlined ≡ false → IfOk result (λ t. t ≡ file_theory (told_by f.now)) }
    ensures inlined { inlined ≡ true → IfOk result (λ t. t ≡ inlined_file_theory (told_by f.now)) }
{
    let all = restrictions_of(alloc, &f.process, &f.restrictions)?;
    if inlined {
        let lemmas = inlined_lemmas(alloc, &all, &f.lemmas)?;
        let none = RestrictionList::new(alloc);
        theory_with(alloc, f, none, lemmas)
    } else {
        let lemmas = f.lemmas.copy(alloc)?;
        theory_with(alloc, f, all, lemmas)
    }
}

// The file's name and signature and the rules of its process, with these restrictions and lemmas.
fn theory_with(
    alloc: Global,
    f: &File,
    restrictions: RestrictionList,
    lemmas: LemmaList,
) -> Result<Theory, Mem>
    ensures { IfOk result (λ t. t ≡ record {
      name = f.now.name;
      signature = f.now.signature;
      rules = rules_of (proc f.now.process);
      restrictions = restrictions;
      lemmas = lemmas;
    }) }
{
    let name = f.name.copy(alloc)?;
    let signature = f.signature.copy(alloc)?;
    Ok(Theory {
        name,
        signature,
        rules: generate(alloc, &f.signature, &f.process)?,
        restrictions,
        lemmas,
    })
}

// The restrictions that the process needs, and then these.
fn restrictions_of(
    alloc: Global,
    p: &Process,
    others: &RestrictionList,
) -> Result<RestrictionList, Mem>
    ensures { IfOk result (λ all. all ≡ needed_restrictions (proc p.now) ++ others.now) }
{
    let mut all = needed_restrictions(alloc, p)?;
    add_restrictions(alloc, others, &mut all)?;
    Ok(all)
}

// Puts copies of restrictions last.
fn add_restrictions(
    alloc: Global,
    others: &RestrictionList,
    all: &mut RestrictionList,
) -> Result<(), Mem>
    ensures { OnOk result (all.new ≡ all.old ++ others.now) }
{
    for other in others.as_slice() {
        all.push(other.copy(alloc)?)?;
    }
    Ok(())
}

// The lemmas, each with these restrictions in its formula.
fn inlined_lemmas(
    alloc: Global,
    restrictions: &RestrictionList,
    lemmas: &LemmaList,
) -> Result<LemmaList, Mem>
    ensures { IfOk result (λ ls. ls ≡ map (theories.inlined_lemma (formulas restrictions.now)) lemmas.now) }
{
    let mut inlined = LemmaList::new(alloc);
    for lemma in lemmas.as_slice() {
        inlined.push(inlined_lemma(alloc, restrictions, lemma)?)?;
    }
    Ok(inlined)
}

// The lemma with these restrictions in its formula.
fn inlined_lemma(alloc: Global, restrictions: &RestrictionList, l: &Lemma) -> Result<Lemma, Mem>
    ensures { IfOk result (λ m. m ≡ theories.inlined_lemma (formulas restrictions.now) l.now) }
{
    let name = l.name.copy(alloc)?;
    let attributes = l.attributes.copy(alloc)?;
    Ok(Lemma {
        name,
        attributes,
        mode: l.mode,
        formula: inline(alloc, restrictions, l.mode, &l.formula)?,
    })
}
