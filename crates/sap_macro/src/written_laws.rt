//! Laws of processes that run as they are written.
ghost use Rattle.std.specs.Prelude.{◌≡◌, ◌↔◌, ℕ, List, []};
ghost use Rattle.sap_terms.specs.Signature.{Sig};
ghost use Rattle.sap_terms.specs.Trace.{Trace};
ghost use Rattle.sap_process.specs.Head.{Head};
ghost use Rattle.sap_process.specs.ProcessSteps.{IsProcessTrace};
ghost use Rattle.sap_macro.specs.Expansion.{meaning_of, expanded, unchanged, same_name};
ghost use Rattle.sap_macro.specs.Indexed.{defined};
ghost use Rattle.sap_macro.specs.Instances.{IsClosed, AreClosedAmong, AreTaken};
ghost use Rattle.sap_macro.specs.Order.{AreInOrder, UsesOnly};
ghost use Rattle.sap_macro.specs.Written.{Written, Definition};
ghost use Rattle.sap_macro.specs.WrittenRuns.{IsWrittenTrace, StartsWith};

use sap_process::instances_of_processes;
use sap_rewrite::{equality_is_kept, normal_forms_are_unique};

/// A law: what is written runs as its expansion. Take definitions in order, and a process that uses names alone that are defined, and what
/// it binds alone, and binds nothing again, and let the definitions that it comes to use do so too, but for their parameters. As it is
/// written, where a use runs as its definition's instance by the arguments, it shows the same as its expansion, whatever names are taken
/// beside those that it binds.
pub fn what_is_written_runs_as_its_expansion()
    ensures { (g : Sig) (names : List (List ℕ)) (ds : List Definition) (p : Written) (taken : List (List ℕ)) (tr : Trace)
        → AreInOrder [] ds → AreClosedAmong names ds → UsesOnly names p → UsesOnly (defined ds) p → IsClosed [] p → AreTaken taken [] p
        → IsWrittenTrace g ds p tr ↔ IsProcessTrace g (expanded (meaning_of ds) unchanged same_name p taken).process tr }
{
    equality_is_kept();
    normal_forms_are_unique();
    instances_of_processes();
}

/// A law: of definitions of which none uses itself or a later one, and no two have one name, what is written starts with one head at
/// most, and with one where each name in it is defined.
pub fn written_heads_are_one()
    ensures most { (ds : List Definition) (w : Written) (h k : Head Written) → AreInOrder [] ds → StartsWith ds w h
        → StartsWith ds w k → h ≡ k }
    ensures least { (ds : List Definition) (w : Written) → AreInOrder [] ds → UsesOnly (defined ds) w
        → (h : Head Written) × StartsWith ds w h }
{}
