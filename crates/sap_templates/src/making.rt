//! Rules from their outlines.
ghost use Rattle.std.specs.Prelude.{◌≡◌, [], ◌∷◌, ◌++◌, map, IfOk, OnOk};
ghost use Rattle.sap_terms.specs.AdversaryFacts.{linear};
ghost use Rattle.sap_terms.specs.FactNames.{event_name};
ghost use Rattle.sap_process.specs.Proc.{proc};
ghost use Rattle.sap_outlines.specs.Outlines as says;
ghost use Rattle.sap_outlines.specs.Outlines.{all_numbered, numbered, shown_at};
ghost use Rattle.sap_outlines.specs.Templates.{embedded_acts};
ghost use Rattle.sap_templates.specs.code.Sites.{facts_of, rule_of, side_of};

use sap_outlines::{Control, Outline, Part};
use sap_place::{copies_at, state_at, state_below, waits_at, with_digits};
use sap_process::Process;
use sap_rule::{Rule, RuleList};
use sap_terms::{Copied, Fact, FactList, Mem, Name, Path, TermList, Vars};
use std::alloc::Global;

/// A place: the process there, its path, what is in scope there and at its first child, and the terms of which its rules speak.
#[derive(Clone, Copy)]
pub struct Site<'a> {
    pub process: &'a Process,
    pub path: &'a Path,
    pub scope: &'a Vars,
    pub inner: &'a Vars,
    pub terms: &'a TermList,
}

/// Puts the rules of these outlines last.
pub fn push_rules(
    alloc: Global,
    site: &Site,
    outlines: &[Outline],
    rules: &mut RuleList,
) -> Result<(), Mem>
    ensures { OnOk result (rules.new ≡ rules.old ++ map (rule_of site.now) outlines.now) }
{
    for outline in outlines {
        push_rule(alloc, site, outline, rules)?;
    }
    Ok(())
}

/// Puts the rule of this outline last.
pub fn push_rule(
    alloc: Global,
    site: &Site,
    outline: &Outline,
    rules: &mut RuleList,
) -> Result<(), Mem>
    ensures { OnOk result (rules.new ≡ rules.old ++ rule_of site.now outline.now ∷ []) }
{
    rules.push(Rule {
        name: with_digits(alloc, outline.word, site.path)?,
        left: side(alloc, site, outline.left)?,
        acts: side(alloc, site, outline.acts)?,
        right: side(alloc, site, outline.right)?,
    })
}

// The facts of a side.
fn side(alloc: Global, site: &Site, parts: &[Part]) -> Result<FactList, Mem>
    ensures { IfOk result (λ facts. facts ≡ side_of site.now parts.now) }
{
    let mut facts = FactList::new(alloc);
    for part in parts {
        push_part(alloc, site, part, &mut facts)?;
    }
    Ok(facts)
}

// Puts the facts of a part last.
fn push_part(alloc: Global, site: &Site, part: &Part, facts: &mut FactList) -> Result<(), Mem>
    ensures { OnOk result (facts.new ≡ facts.old ++ facts_of site.now part.now) }
{
    match part {
        Part::Of(c) => facts.push(control(alloc, site, *c)?),
        Part::Over(word, numbers) => facts.push(over(alloc, word, site.terms, numbers)?),
        Part::Taken => push_copies(alloc, taken(site.process), facts),
        Part::Shown => push_shown(alloc, site.process, facts),
        Part::Added => push_copies(alloc, added(site.process), facts),
    }
}

// The fact that says where control is.
fn control(alloc: Global, site: &Site, c: Control) -> Result<Fact, Mem>
    ensures { IfOk result (λ f. f
        ≡ says.control site.now.path.now site.now.scope.now site.now.inner.now c) }
{
    match c {
        Control::Here => state_at(alloc, site.path, site.scope),
        Control::First => state_below(alloc, site.path, 1, site.scope),
        Control::Second => state_below(alloc, site.path, 2, site.scope),
        Control::Inside => state_below(alloc, site.path, 1, site.inner),
        Control::Copies => copies_at(alloc, site.path, site.scope),
        Control::Waits => waits_at(alloc, site.path, site.scope),
    }
}

// The linear fact of this name over the terms of these numbers.
fn over(alloc: Global, word: &[u8], terms: &TermList, numbers: &[u8]) -> Result<Fact, Mem>
    ensures { IfOk result (λ f. f ≡ linear word.now (all_numbered terms.now numbers.now)) }
{
    Ok(Fact {
        name: Name::from_bytes(alloc, word)?,
        persistent: false,
        args: terms_numbered(alloc, terms, numbers)?,
    })
}

// The terms of these numbers.
fn terms_numbered(alloc: Global, terms: &TermList, numbers: &[u8]) -> Result<TermList, Mem>
    ensures { IfOk result (λ ts. ts ≡ all_numbered terms.now numbers.now) }
{
    let mut args = TermList::new(alloc);
    for number in numbers {
        push_numbered(alloc, terms, *number, &mut args)?;
    }
    Ok(args)
}

// Puts the term of this number last, where there is one.
fn push_numbered(
    alloc: Global,
    terms: &TermList,
    number: u8,
    args: &mut TermList,
) -> Result<(), Mem>
    ensures { OnOk result (args.new ≡ args.old ++ numbered terms.now number) }
{
    match terms.get(u64::from(number)) {
        Some(t) => args.push(t.copy(alloc)?),
        None => Ok(()),
    }
}

// What an embedded rule takes.
fn taken(p: &Process) -> &[Fact]
    ensures { result.now ≡ says.taken_at (proc p.now) }
{
    match p {
        Process::Embedded(left, _, _, _) => left.as_slice(),
        _ => &[],
    }
}

// What it adds.
fn added(p: &Process) -> &[Fact]
    ensures { result.now ≡ says.added_at (proc p.now) }
{
    match p {
        Process::Embedded(_, _, right, _) => right.as_slice(),
        _ => &[],
    }
}

// Puts what an event or an embedded rule shows last.
fn push_shown(alloc: Global, p: &Process, facts: &mut FactList) -> Result<(), Mem>
    ensures { OnOk result (facts.new ≡ facts.old ++ shown_at (proc p.now)) }
{
    match p {
        Process::Event(fact, _) => {
            push_event(alloc, facts)?;
            facts.push(fact.copy(alloc)?)
        }
        Process::Embedded(_, acts, _, _) => push_acts(alloc, acts.as_slice(), facts),
        _ => Ok(()),
    }
}

// Puts these last, behind `Event()` where there are any.
fn push_acts(alloc: Global, acts: &[Fact], facts: &mut FactList) -> Result<(), Mem>
    ensures { OnOk result (facts.new ≡ facts.old ++ embedded_acts acts.now) }
{
    match acts {
        [] => Ok(()),
        _ => {
            push_event(alloc, facts)?;
            push_copies(alloc, acts, facts)
        }
    }
}

// Puts `Event()` last.
fn push_event(alloc: Global, facts: &mut FactList) -> Result<(), Mem>
    ensures { OnOk result (facts.new ≡ facts.old ++ linear event_name [] ∷ []) }
{
    facts.push(Fact {
        name: Name::from_bytes(alloc, b"Event")?,
        persistent: false,
        args: TermList::new(alloc),
    })
}

// Puts copies of the facts last.
fn push_copies(alloc: Global, others: &[Fact], facts: &mut FactList) -> Result<(), Mem>
    ensures { OnOk result (facts.new ≡ facts.old ++ others.now) }
{
    for other in others {
        facts.push(other.copy(alloc)?)?;
    }
    Ok(())
}
