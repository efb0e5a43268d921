//! Definitions whose bodies are flawed.
ghost use Rattle.std.specs.Prelude.{◌≡◌, ◌&&◌, ℕ, List, [], IfOk, IfNone, IfSome, length, nat_lt};
ghost use Rattle.std.specs.List.{list_any};
ghost use Rattle.std.specs.Str.{bytes_eq};
ghost use Rattle.sap_terms.specs.Signature.{Sig};
ghost use Rattle.sap_process.specs.declared.flaw.Flaw.{Flaw as Flawed};
ghost use Rattle.sap_macro.specs.Order.{AreInOrder};
ghost use Rattle.sap_macro.specs.Sources.{definition_of, definitions, written};
ghost use Rattle.sap_macro.specs.Written.{Written};
ghost use Rattle.sap_uses.specs.ScopeFlaws.{IsFirstFlawedBehind};
ghost use Rattle.sap_macro.specs.Ends.{AreEnds};
ghost use Rattle.sap_macro.specs.Indexed.{AreIndexed};
ghost use Rattle.sap_uses.specs.code.Marks.{AreReached, IsFlawedThere};

use crate::body_flaw::body_flaw;
use crate::reached::reached;
use sap_macro::{
    Definition, DefinitionList, Ends, Index, Source, ends_of, index_of,
    plain_names_stand_for_bodies,
};
use sap_process::Flaw;
use sap_terms::{Copied, Mem, Name, NameSet, Path};
use std::alloc::Global;

// Whether the definition has parameters, and its name is one of these.
fn is_wanted(names: &NameSet, d: &Definition) -> bool
    ensures { result ≡ (nat_lt 0 (length d.now.params) && list_any (bytes_eq d.now.name) names.now) }
{
    0 < d.params.len() && names.contains(&d.name)
}

// The flaw of the definition, where it has parameters and its name is one of these.
fn flaw_of(
    alloc: Global,
    defs: &DefinitionList,
    index: &Index,
    ends: &Ends,
    names: &NameSet,
    d: &Definition,
) -> Result<Option<(Flaw, Path)>, Mem>
    requires order { AreInOrder [] (definitions defs.now) }
    requires index { AreIndexed (definitions defs.now) index.now }
    requires ends { AreEnds (definitions defs.now) ends.now }
    ensures found { (g : Sig) (p : Written) → AreReached (definitions defs.now) p names.now
        → IfOk result (λ o. IfSome o (λ f. IsFlawedThere g (definitions defs.now) p (definition_of d.now) f.0 f.1)) }
    ensures none { (g : Sig) (p : Written) → AreReached (definitions defs.now) p names.now
        → IfOk result (λ o. IfNone o ((w : Flawed) (path : List ℕ) → ¬ IsFlawedThere g (definitions defs.now) p (definition_of d.now) w path)) }
{
    if !is_wanted(names, d) {
        return Ok(None);
    }
    body_flaw(alloc, defs, index, ends, d)
}

/// The name of the first definition with parameters that the process leads to and whose body has one of the flaws `Unbound`, `Rebound`
/// and `SortClash`, where its parameters are in scope and names without parameters are replaced: with the one of these that counts,
/// and the path of its first place in that body. Want of memory is the only error. It takes time in proportion to what is written
/// and to these bodies, up to the first that is flawed.
pub fn first_flawed(
    alloc: Global,
    defs: &DefinitionList,
    main: &Source,
) -> Result<Option<(Name, Flaw, Path)>, Mem>
    requires { AreInOrder [] (definitions defs.now) }
    ensures found { (g : Sig) → IfOk result (λ o. IfSome o (λ f. IsFirstFlawedBehind g (definitions defs.now) (written main.now) f.0 f.1 f.2)) }
    ensures none { (g : Sig) → IfOk result (λ o. IfNone o ((name : List ℕ) (w : Flawed) (path : List ℕ)
        → ¬ IsFirstFlawedBehind g (definitions defs.now) (written main.now) name w path)) }
{
    plain_names_stand_for_bodies();
    let index = index_of(alloc, defs)?;
    let ends = ends_of(alloc, defs, &index)?;
    let names = reached(alloc, defs, main)?;
    for k in 0..defs.len() {
        let d = defs.at(k);
        if let Some((which, path)) = flaw_of(alloc, defs, &index, &ends, &names, d)? {
            let name = d.name.copy(alloc)?;
            return Ok(Some((name, which, path)));
        }
    }
    Ok(None)
}
