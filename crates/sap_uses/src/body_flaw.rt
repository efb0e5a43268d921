//! Flaws of bodies.
ghost use Rattle.std.specs.Prelude.{◌≡◌, [], IfOk, IfNone, IfSome, map};
ghost use Rattle.sap_terms.specs.Signature.{Sig};
ghost use Rattle.sap_terms.specs.declared.var.Sort.TheVariants.{Msg};
ghost use Rattle.sap_process.specs.Flaws.{HasNoScopeFlaw, IsFirstScopeFlaw};
ghost use Rattle.sap_macro.specs.Expansion.{plain};
ghost use Rattle.sap_macro.specs.Order.{AreInOrder};
ghost use Rattle.sap_macro.specs.Seen.{seen};
ghost use Rattle.sap_macro.specs.Sources.{definition_of, definitions, written};
ghost use Rattle.sap_macro.specs.UpToNames.{named};
ghost use Rattle.sap_uses.specs.ScopeFlaws.{params_in_scope};
ghost use Rattle.sap_macro.specs.Ends.{AreEnds};
ghost use Rattle.sap_macro.specs.Indexed.{AreIndexed};

use sap_macro::{Definition, DefinitionList, Ends, Index, seen_by};
use sap_process::{Flaw, first_scope_flaw};
use sap_terms::{Copied, Mem, NameList, Path, Sort, Var, Vars};
use std::alloc::Global;

/// The parameters as variables. Want of memory is the only error.
pub fn params_of(alloc: Global, params: &NameList) -> Result<Vars, Mem>
    ensures { IfOk result (λ vs. vs ≡ map (λ n. named n Msg) params.now) }
{
    let mut vars = Vars::new(alloc);
    for k in 0..params.len() {
        let name = params.at(k).copy(alloc)?;
        vars.push(Var {
            name,
            sort: Sort::Msg,
        })?;
    }
    Ok(vars)
}

/// The flaw of scope that counts in the body of the definition, where its parameters are in scope and names without parameters are
/// replaced, with the path of its first place. Want of memory is the only error. It takes time in proportion to that body, in one pass
/// that makes the body as flaws see it and one that looks for them; it recurses as deep as that.
pub(crate) fn body_flaw(
    alloc: Global,
    defs: &DefinitionList,
    index: &Index,
    ends: &Ends,
    d: &Definition,
) -> Result<Option<(Flaw, Path)>, Mem>
    requires order { AreInOrder [] (definitions defs.now) }
    requires index { AreIndexed (definitions defs.now) index.now }
    requires ends { AreEnds (definitions defs.now) ends.now }
    ensures found { (g : Sig) → IfOk result (λ o. IfSome o (λ f. IsFirstScopeFlaw g (params_in_scope (definition_of d.now))
        (seen (plain (definitions defs.now) (definition_of d.now).body)) f.0 f.1)) }
    ensures none { (g : Sig) → IfOk result (λ o. IfNone o (HasNoScopeFlaw g (params_in_scope (definition_of d.now))
        (seen (plain (definitions defs.now) (definition_of d.now).body)))) }
{
    let scope = params_of(alloc, &d.params)?;
    let body = seen_by(alloc, defs, index, ends, &d.body)?;
    let found = first_scope_flaw(alloc, &scope, &body)?;
    Ok(found)
}
