//! Formulas made after shapes.
ghost use Rattle.std.specs.Prelude.{◌≡◌, ◌++◌, [], ◌∷◌, map, IfOk, OnOk};
ghost use Rattle.sap_formula.specs.Form.{action, equal, negation};
ghost use Rattle.sap_formula.specs.View.{form};
ghost use Rattle.sap_terms.specs.AdversaryFacts.{linear};
ghost use Rattle.sap_terms.specs.Tree.{variable};
ghost use Rattle.sap_terms.specs.View.{tree};
ghost use Rattle.sap_shapes.specs.Formulas.{any_message};
ghost use Rattle.sap_shapes.specs.Shapes.{binder, says};
ghost use Rattle.sap_restrict.specs.code.Shapes.{joined, quantified, timed};

use sap_formula::{Binder, Binders, Formula, both};
use sap_shapes::Shape;
use sap_terms::{Fact, Items, Mem, Name, Sort, Term, TermList, Var, boxed};
use std::alloc::Global;

/// The formula of the shape. Want of memory is the only error. It recurses as deep as the shape.
#[cycle(built)]
pub(crate) fn built(alloc: Global, shape: &Shape<'_>) -> Result<Box<Formula>, Mem>
    ensures { IfOk result (λ f. form f.value ≡ says shape.now) }
{
    match shape {
        Shape::Shows(name, vars, t) => shown(alloc, name, vars, t),
        Shape::Equal(v, w) => equal(alloc, *v, *w),
        Shape::Same(a, b) | Shape::Less(a, b) => timed(alloc, shape, a, b),
        Shape::Not(f) => negated(alloc, built(alloc, f)?),
        Shape::And(f, g) | Shape::Or(f, g) | Shape::Imp(f, g) => {
            joined(alloc, shape, built_both(alloc, f, g)?)
        }
        Shape::All(letters, f) | Shape::Ex(letters, f) => {
            quantified(alloc, shape, letters, built(alloc, f)?)
        }
    }
}

#[cycle(built)]
fn built_both(
    alloc: Global,
    f: &Shape<'_>,
    g: &Shape<'_>,
) -> Result<(Box<Formula>, Box<Formula>), Mem>
    ensures { IfOk result (λ two. (form two.0.value ≡ says f.now) × (form two.1.value ≡ says g.now)) }
{
    both(built(alloc, f), built(alloc, g))
}

fn shown(alloc: Global, name: &[u8], letters: &[u8], t: &[u8]) -> Result<Box<Formula>, Mem>
    ensures { IfOk result (λ f. form f.value
        ≡ action (linear name.now (map (λ v. variable (any_message (v ∷ []))) letters.now)) t.now) }
{
    let two = both(fact_on(alloc, name, letters), Name::from_bytes(alloc, t))?;
    boxed(alloc, Formula::Action(two.0, two.1))
}

fn fact_on(alloc: Global, name: &[u8], letters: &[u8]) -> Result<Fact, Mem>
    ensures { IfOk result (λ f. f ≡ linear name.now (map (λ v. variable (any_message (v ∷ []))) letters.now)) }
{
    let args = terms(alloc, letters)?;
    Ok(Fact {
        name: Name::from_bytes(alloc, name)?,
        persistent: false,
        args,
    })
}

fn terms(alloc: Global, letters: &[u8]) -> Result<TermList, Mem>
    ensures { IfOk result (λ ts. ts ≡ map (λ v. variable (any_message (v ∷ []))) letters.now) }
{
    let mut terms = TermList::new(alloc);
    for k in 0..letters.len() {
        push_term(alloc, letters[k], &mut terms)?;
    }
    Ok(terms)
}

fn push_term(alloc: Global, letter: u8, terms: &mut TermList) -> Result<(), Mem>
    ensures { OnOk result (terms.new ≡ terms.old ++ variable (any_message (letter ∷ [])) ∷ []) }
{
    terms.push(term(alloc, letter)?)
}

fn term(alloc: Global, letter: u8) -> Result<Term, Mem>
    ensures { IfOk result (λ t. tree t ≡ variable (any_message (letter ∷ []))) }
{
    Ok(Term::Var(message(alloc, letter)?))
}

fn message(alloc: Global, letter: u8) -> Result<Var, Mem>
    ensures { IfOk result (λ v. v ≡ any_message (letter ∷ [])) }
{
    Ok(Var {
        name: Name::from_bytes(alloc, &[letter])?,
        sort: Sort::Msg,
    })
}

fn equal(alloc: Global, v: u8, w: u8) -> Result<Box<Formula>, Mem>
    ensures { IfOk result (λ f. form f.value
        ≡ equal (variable (any_message (v ∷ []))) (variable (any_message (w ∷ [])))) }
{
    let two = both(term(alloc, v), term(alloc, w))?;
    boxed(alloc, Formula::Equal(two.0, two.1))
}

/// The relation of this shape between two times.
fn timed(alloc: Global, like: &Shape<'_>, a: &[u8], b: &[u8]) -> Result<Box<Formula>, Mem>
    ensures { IfOk result (λ f. form f.value ≡ timed like.now a.now b.now) }
{
    let two = both(Name::from_bytes(alloc, a), Name::from_bytes(alloc, b))?;
    match like {
        Shape::Same(_, _) => boxed(alloc, Formula::Same(two.0, two.1)),
        _ => boxed(alloc, Formula::Less(two.0, two.1)),
    }
}

fn negated(alloc: Global, f: Box<Formula>) -> Result<Box<Formula>, Mem>
    ensures { IfOk result (λ r. form r.value ≡ negation (form f.value)) }
{
    boxed(alloc, Formula::Not(f))
}

/// The connective of this shape between the two.
fn joined(
    alloc: Global,
    like: &Shape<'_>,
    two: (Box<Formula>, Box<Formula>),
) -> Result<Box<Formula>, Mem>
    ensures { IfOk result (λ r. form r.value ≡ joined like.now (form two.0.value) (form two.1.value)) }
{
    match like {
        Shape::And(_, _) => boxed(alloc, Formula::And(two.0, two.1)),
        Shape::Or(_, _) => boxed(alloc, Formula::Or(two.0, two.1)),
        _ => boxed(alloc, Formula::Imp(two.0, two.1)),
    }
}

/// Its quantifier over this body.
fn quantified(
    alloc: Global,
    like: &Shape<'_>,
    letters: &[u8],
    f: Box<Formula>,
) -> Result<Box<Formula>, Mem>
    ensures { IfOk result (λ r. form r.value ≡ quantified like.now (map binder letters.now) (form f.value)) }
{
    let bs = binders(alloc, letters)?;
    match like {
        Shape::All(_, _) => boxed(alloc, Formula::All(bs, f)),
        _ => boxed(alloc, Formula::Ex(bs, f)),
    }
}

fn binders(alloc: Global, letters: &[u8]) -> Result<Binders, Mem>
    ensures { IfOk result (λ bs. bs ≡ map binder letters.now) }
{
    let mut binders = Items::new(alloc);
    for k in 0..letters.len() {
        push_binder(alloc, letters[k], &mut binders)?;
    }
    Ok(binders)
}

fn push_binder(alloc: Global, letter: u8, binders: &mut Binders) -> Result<(), Mem>
    ensures { OnOk result (binders.new ≡ binders.old ++ binder letter ∷ []) }
{
    binders.push(binder(alloc, letter)?)
}

fn binder(alloc: Global, letter: u8) -> Result<Binder, Mem>
    ensures { IfOk result (λ b. b ≡ binder letter) }
{
    if letter < b'a' {
        return Ok(Binder::Message(message(alloc, letter)?));
    }
    Ok(Binder::Time(Name::from_bytes(alloc, &[letter])?))
}
