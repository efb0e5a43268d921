//! Laws of the causes, as contracts of functions that do nothing.
ghost use Rattle.std.specs.Prelude.{◌≡◌, ◌↔◌, ◌⊎◌, ℕ, List, [], Some, slice_get};
ghost use Rattle.sap_terms.specs.Signature.{Sig};
ghost use Rattle.sap_terms.specs.declared.var.Var.{Var};
ghost use Rattle.sap_process.specs.Flaws.{HasNoScopeFlaw};
ghost use Rattle.sap_process.specs.Sites.{var_names};
ghost use Rattle.sap_macro.specs.Expansion.{expansion, plain, plain_bodies};
ghost use Rattle.sap_macro.specs.Indexed.{defined};
ghost use Rattle.sap_macro.specs.Instances.{AreClosedAmong, IsClosed};
ghost use Rattle.sap_macro.specs.Order.{AreInOrder, UsesOnly};
ghost use Rattle.sap_macro.specs.Seen.{seen};
ghost use Rattle.sap_macro.specs.Walked.{cost_of, steps};
ghost use Rattle.sap_macro.specs.Written.{Definition, Written, call};
ghost use Rattle.sap_macro.specs.WrittenRuns.{HasArgumentsInScope};
ghost use Rattle.sap_uses.specs.FaultCauses.{Holds, IsMacroCause};
ghost use Rattle.sap_uses.specs.declared.fault.MacroFault.{MacroFault};

use sap_macro::{plain_names_stand_for_bodies, plain_uses_have_parameters, sizes_are_one};
use sap_process::{instances_of_processes, one_scope_flaw, some_scope_flaw};

/// A law: of definitions and a process at most one cause counts, with what it tells.
pub fn one_macro_cause()
    ensures { (g : Sig) (ds : List Definition) (p : Written) (e f : MacroFault) → IsMacroCause g ds p e → IsMacroCause g ds p f → e ≡ f }
{
    one_scope_flaw();
}

/// A law: of definitions in order and a process a cause counts, or none holds.
pub fn some_macro_cause()
    ensures { (g : Sig) (ds : List Definition) (p : Written) → AreInOrder [] ds
        → ((e : MacroFault) × IsMacroCause g ds p e) ⊎ ((e : MacroFault) → ¬ Holds g ds p e) }
{
    plain_names_stand_for_bodies();
    sizes_are_one();
    some_scope_flaw();
}

/// A law: what has no flaw of scope, where these variables are in scope, is closed there.
pub fn unflawed_bodies_are_closed()
    ensures { (g : Sig) (scope : List Var) (p : Written) → HasNoScopeFlaw g scope (seen p) → IsClosed (var_names scope) p }
{}

/// A law: take a process whose expansion has no flaw of scope, whatever names are taken then. It is closed as it is written, names
/// without parameters replaced, exactly where each of its uses names in its arguments nothing but what is in scope there. What a use
/// names for a parameter that its definition doesn't use is in no expansion; so it is asked for.
pub fn unflawed_processes_are_closed()
    ensures { (g : Sig) (ds : List Definition) (p : Written) (identifiers : List (List ℕ)) → HasNoScopeFlaw g [] (expansion ds identifiers p).process
        → HasArgumentsInScope [] (plain ds p) ↔ IsClosed [] (plain ds p) }
{
    instances_of_processes();
}

/// A law: where definitions are in order, the process uses none but these, and no cause holds, some names are such that the process
/// uses them alone, once names without parameters are replaced, and each definition of one of them is closed and uses them alone, as
/// `uses_are_instances` of `sap_macro` asks it.
pub fn accepted_definitions_are_closed()
    ensures { (g : Sig) (ds : List Definition) (p : Written) → AreInOrder [] ds → UsesOnly (defined ds) p
        → ((e : MacroFault) → ¬ Holds g ds p e)
        → ((names : List (List ℕ)) × UsesOnly names (plain ds p) × AreClosedAmong names (plain_bodies call ds)) }
{
    plain_names_stand_for_bodies();
    plain_uses_have_parameters();
    some_scope_flaw();
}

/// A law: of definitions in order a name costs as many steps as its body does, where each name in it costs as many as behind all of them.
pub fn names_cost_their_bodies()
    ensures { (ds : List Definition) (k : ℕ) (d : Definition) → AreInOrder [] ds → slice_get ds k ≡ Some d
        → cost_of ds d.name ≡ steps (cost_of ds) d.body }
{}
