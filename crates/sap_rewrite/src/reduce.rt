// One symbol on normal terms, made normal.
ghost use Rattle.std.specs.Prelude.{◌≡◌, IfOk, IsSome, Some, None, if◌then◌else◌};
ghost use Rattle.std.specs.Bool.{OnFalse};
ghost use Rattle.sap_terms.specs.View.{tree};
ghost use Rattle.sap_terms.specs.Tree.{apply, trees_of};
ghost use Rattle.sap_terms.specs.Equations.{equations, app0, true_name};
ghost use Rattle.sap_rewrite.specs.code.Reduce.{inner_part, place, by_signing, by_revealing, by_check, reduced};

use sap_parts::{first_part, opened, opened_by_key, second_part, verifies};
use sap_terms::{Builtin, Copied, Mem, Name, Signature, Term, TermList};
use std::alloc::Global;

// Where in the first argument the part stands that an equation leaves.
fn place_of_part(sig: &Signature, f: &Name, args: &TermList) -> Option<u64>
    ensures { result ≡ place (equations sig.now) f.now (trees_of args.now) }
{
    if f.is(b"fst") {
        first_part(b"pair", args).map(|_| 0)
    } else if f.is(b"snd") {
        second_part(args).map(|_| 1)
    } else if f.is(b"sdec") && sig.has(Builtin::Symmetric) {
        opened(args).map(|_| 0)
    } else if f.is(b"adec") && sig.has(Builtin::Asymmetric) {
        opened_by_key(args).map(|_| 0)
    } else if f.is(b"getMessage") && sig.has(Builtin::RevealingSigning) {
        first_part(b"revealSign", args).map(|_| 0)
    } else {
        None
    }
}

// The part of the first argument at this place.
#[tactic(auto, using(crate::proofs::Parts::part_laws))]
fn part_at(alloc: Global, args: &TermList, k: u64) -> Result<Term, Mem>
    requires { IsSome (inner_part (trees_of args.now) k) }
    ensures { IfOk result (λ t. inner_part (trees_of args.now) k ≡ Some (tree t)) }
{
    match args.at(0) {
        Term::App(_, parts) => parts.at(k).copy(alloc),
        other => other.copy(alloc),
    }
}

// Whether the symbol on these terms is `verify` and holds.
fn is_signed(sig: &Signature, f: &Name, args: &TermList) -> bool
    ensures { (if result then Some (app0 true_name) else None) ≡ by_signing (equations sig.now) f.now (trees_of args.now) }
{
    f.is(b"verify") && sig.has(Builtin::Signing) && verifies(b"sign", args).is_some()
}

// Whether it is `revealVerify` and holds.
fn is_openly_signed(sig: &Signature, f: &Name, args: &TermList) -> bool
    ensures { (if result then Some (app0 true_name) else None) ≡ by_revealing (equations sig.now) f.now (trees_of args.now) }
{
    f.is(b"revealVerify")
        && sig.has(Builtin::RevealingSigning)
        && verifies(b"revealSign", args).is_some()
}

// Whether the symbol on these terms is a check of a signature that holds.
fn is_verified(sig: &Signature, f: &Name, args: &TermList) -> bool
    ensures { (if result then Some (app0 true_name) else None) ≡ by_check (equations sig.now) f.now (trees_of args.now) }
{
    if is_signed(sig, f, args) {
        return true;
    }
    is_openly_signed(sig, f, args)
}

// The constant that a check of a signature gives where it holds.
fn true_constant(alloc: Global) -> Result<Term, Mem>
    ensures { IfOk result (λ t. tree t ≡ app0 true_name) }
{
    let name = Name::from_bytes(alloc, b"true")?;
    Ok(Term::App(name, TermList::new(alloc)))
}

// Whether the symbol on these terms is the left side of an equation. The one way is all that is said.
pub(crate) fn is_left_side(sig: &Signature, f: &Name, args: &TermList) -> bool
    ensures { OnFalse result (reduced (equations sig.now) f.now (trees_of args.now) ≡ apply f.now (trees_of args.now)) }
{
    match place_of_part(sig, f, args) {
        Some(_) => true,
        None => is_verified(sig, f, args),
    }
}

// The normal form of a symbol on normal terms.
pub(crate) fn reduce(alloc: Global, sig: &Signature, f: &Name, args: TermList) -> Result<Term, Mem>
    ensures { IfOk result (λ r. tree r ≡ reduced (equations sig.now) f.now (trees_of args)) }
{
    if let Some(k) = place_of_part(sig, f, &args) {
        let part = part_at(alloc, &args, k)?;
        return Ok(part);
    }
    if is_verified(sig, f, &args) {
        return true_constant(alloc);
    }
    Ok(Term::App(f.copy(alloc)?, args))
}
