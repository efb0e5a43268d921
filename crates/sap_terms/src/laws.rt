//! Laws of terms and signatures, each as the contract of a function that does nothing.
ghost use Rattle.std.specs.Prelude.{◌≡◌};
ghost use Rattle.sap_terms.specs.Laws.{NamesAreMessages, LeavesAreNormal, DestructorsHeadLeftSides, BuiltinsStayHeld};

use crate::{
    MOST_ARITY, MOST_FILE_NAME_BYTES, MOST_PROCESS_LEVELS, MOST_PROCESS_PLACES, MOST_SCOPE_NAMES,
    MOST_TERM_LEVELS, MOST_TERM_NODES, MOST_THEORY_NAME_BYTES,
};

/// Names are messages, under every signature.
pub fn names_are_messages()
    ensures { NamesAreMessages }
{}

/// Variables, names and what is no destructor on normal terms are normal, whichever equations are switched on.
pub fn leaves_are_normal()
    ensures { LeavesAreNormal }
{}

/// What the test of destructors says of each name of each signature.
pub fn destructors_head_left_sides()
    ensures { DestructorsHeadLeftSides }
{}

/// A signature that is made by declarations alone holds the symbols of its builtins.
pub fn builtins_stay_held()
    ensures { BuiltinsStayHeld }
{}

/// The limits are these numbers.
pub fn limits_by_hand()
    ensures term_nodes { MOST_TERM_NODES ≡ 256 }
    ensures term_levels { MOST_TERM_LEVELS ≡ 100 }
    ensures scope_names { MOST_SCOPE_NAMES ≡ 64 }
    ensures file_name_bytes { MOST_FILE_NAME_BYTES ≡ 64 }
    ensures theory_name_bytes { MOST_THEORY_NAME_BYTES ≡ 400 }
    ensures process_levels { MOST_PROCESS_LEVELS ≡ 300 }
    ensures process_places { MOST_PROCESS_PLACES ≡ 4000 }
    ensures arity { MOST_ARITY ≡ 64 }
{}
