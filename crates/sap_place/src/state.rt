//! The facts that say where control is.
ghost use Rattle.std.specs.Prelude.{◌≡◌, ◌⊎◌, ◌++◌, ◌∷◌, [], map, IfOk};
ghost use Rattle.sap_terms.specs.Path.{IsDigit};
ghost use Rattle.sap_terms.specs.Tree.{variable};
ghost use Rattle.sap_place.specs.StateFacts as facts;
ghost use Rattle.sap_place.specs.StateFacts.{digits, state_of, semi_of, tag};
ghost use Rattle.sap_place.specs.declared.place.Form.TheVariants.{Rep, Send as Sends};

use crate::place::{Form, Place};
use sap_terms::{Copied, Fact, Mem, Name, Path, Sort, Term, TermList, Var, Vars};
use std::alloc::Global;

/// The fact that says that control is at the place: `State_` with the digits of its path, over the variables in scope.
pub fn state_fact(alloc: Global, place: &Place) -> Result<Fact, Mem>
    ensures { IfOk result (λ f. f ≡ state_of place.now) }
{
    state_at(alloc, &place.path, &place.scope)
}

/// The fact of a place that is halfway through or that stays: `Semi_` with the digits of its path, over the variables in
/// scope. That of a replication is persistent; that of a sender has the sender's tag last.
pub fn semi_fact(alloc: Global, place: &Place) -> Result<Fact, Mem>
    requires { (place.now.form ≡ Rep) ⊎ (place.now.form ≡ Sends) }
    ensures { IfOk result (λ f. f ≡ semi_of place.now.form place.now) }
{
    match place.form {
        Form::Rep => copies_at(alloc, &place.path, &place.scope),
        _ => waits_at(alloc, &place.path, &place.scope),
    }
}

/// The state fact of the place with this path, where these variables are in scope.
pub fn state_at(alloc: Global, path: &Path, scope: &Vars) -> Result<Fact, Mem>
    ensures { IfOk result (λ f. f ≡ facts.state_fact path.now (map variable scope.now)) }
{
    let name = with_digits(alloc, b"State_", path)?;
    let args = variables(alloc, scope)?;
    Ok(Fact {
        name,
        persistent: false,
        args,
    })
}

/// That of its child of this digit, where these variables are in scope there.
pub fn state_below(alloc: Global, path: &Path, digit: u8, scope: &Vars) -> Result<Fact, Mem>
    requires { IsDigit digit }
    ensures { IfOk result (λ f. f
        ≡ facts.state_fact (path.now ++ digit ∷ []) (map variable scope.now)) }
{
    let child = path_below(alloc, path, digit)?;
    state_at(alloc, &child, scope)
}

/// The path of the child of this digit.
pub fn path_below(alloc: Global, path: &Path, digit: u8) -> Result<Path, Mem>
    requires { IsDigit digit }
    ensures { IfOk result (λ child. child ≡ path.now ++ digit ∷ []) }
{
    let mut child = path.copy(alloc)?;
    child.push(digit)?;
    Ok(child)
}

/// The fact of a replication that has started at the place with this path, which stays.
pub fn copies_at(alloc: Global, path: &Path, scope: &Vars) -> Result<Fact, Mem>
    ensures { IfOk result (λ f. f ≡ facts.copies_fact path.now (map variable scope.now)) }
{
    let name = with_digits(alloc, b"Semi_", path)?;
    let args = variables(alloc, scope)?;
    Ok(Fact {
        name,
        persistent: true,
        args,
    })
}

/// The fact of a sender that waits at the place with this path, with its tag last.
pub fn waits_at(alloc: Global, path: &Path, scope: &Vars) -> Result<Fact, Mem>
    ensures { IfOk result (λ f. f
        ≡ facts.waits_fact path.now (map variable scope.now ++ variable tag ∷ [])) }
{
    let name = with_digits(alloc, b"Semi_", path)?;
    let args = variables_and_tag(alloc, scope)?;
    Ok(Fact {
        name,
        persistent: false,
        args,
    })
}

// The variables as terms.
fn variables(alloc: Global, scope: &Vars) -> Result<TermList, Mem>
    ensures { IfOk result (λ ts. ts ≡ map variable scope.now) }
{
    let mut args = TermList::new(alloc);
    for v in scope.as_slice() {
        args.push(Term::Var(v.copy(alloc)?))?;
    }
    Ok(args)
}

// And the tag behind them.
fn variables_and_tag(alloc: Global, scope: &Vars) -> Result<TermList, Mem>
    ensures { IfOk result (λ ts. ts ≡ map variable scope.now ++ variable tag ∷ []) }
{
    let mut args = variables(alloc, scope)?;
    args.push(Term::Var(tag(alloc)?))?;
    Ok(args)
}

/// The variable of a tag, `~sapic_tag`.
pub fn tag(alloc: Global) -> Result<Var, Mem>
    ensures { IfOk result (λ v. v ≡ tag) }
{
    let name = Name::from_bytes(alloc, b"sapic_tag")?;
    Ok(Var {
        name,
        sort: Sort::Fresh,
    })
}

/// A word, and then the digits of a path.
pub fn with_digits(alloc: Global, word: &[u8], path: &Path) -> Result<Name, Mem>
    ensures { IfOk result (λ name. name ≡ word.now ++ digits path.now) }
{
    let mut name = Vec::from_slice(alloc, word)?;
    for digit in path.as_slice() {
        name.push(b'0' + *digit)?;
    }
    Name::from_bytes(alloc, &name)
}
