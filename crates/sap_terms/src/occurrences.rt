//! Occurrences of variables in terms and facts.
ghost use Rattle.std.specs.Prelude.{◌≡◌, ◌++◌, length, take, OnOk, OnErr};
ghost use Rattle.sap_terms.specs.Tree.{trees_of};
ghost use Rattle.sap_terms.specs.Variables.{tree_vars, trees_vars, facts_vars};
ghost use Rattle.sap_terms.specs.View.{tree};

use crate::{Copied, FactList, Mem, Term, TermList, Vars};
use std::alloc::Global;

/// Puts last each occurrence of a variable in the term, from the left. It recurses as deep as the term. Want of memory is the only
/// error; what the list held stays in front then too.
#[cycle(push)]
#[tactic(auto, using(crate::proofs::PlainLaws::Lists::front_laws))]
pub fn push_vars(alloc: Global, t: &Term, out: &mut Vars) -> Result<(), Mem>
    ensures ok { OnOk result (out.new ≡ out.old ++ tree_vars (tree t.now)) }
    ensures err { OnErr result (take (length out.old) out.new ≡ out.old) }
{
    match t {
        Term::Var(v) => out.push(v.copy(alloc)?)?,
        Term::App(_, ts) => push_all_vars(alloc, ts, out)?,
        _ => {}
    }
    Ok(())
}

/// Puts last those in these terms, one term after another. It recurses as deep as the terms that it is given.
#[cycle(push)]
#[tactic(auto, using(crate::proofs::PlainLaws::Lists::front_laws))]
pub fn push_all_vars(alloc: Global, ts: &TermList, out: &mut Vars) -> Result<(), Mem>
    ensures ok { OnOk result (out.new ≡ out.old ++ trees_vars (trees_of ts.now)) }
    ensures err { OnErr result (take (length out.old) out.new ≡ out.old) }
{
    for k in 0..ts.len() {
        push_vars(alloc, ts.at(k), out)?;
    }
    Ok(())
}

/// Puts last those in the facts, one fact after another. It recurses as deep as the terms that it is given.
#[tactic(auto, using(crate::proofs::PlainLaws::Lists::front_laws))]
pub fn push_facts_vars(alloc: Global, fs: &FactList, out: &mut Vars) -> Result<(), Mem>
    ensures ok { OnOk result (out.new ≡ out.old ++ facts_vars fs.now) }
    ensures err { OnErr result (take (length out.old) out.new ≡ out.old) }
{
    for f in fs.as_slice() {
        push_all_vars(alloc, &f.args, out)?;
    }
    Ok(())
}
