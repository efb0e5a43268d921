//! Laws of casts, as contracts of functions that do nothing.
ghost use Rattle.std.specs.Prelude.{◌≡◌, ℕ, List, [], map};
ghost use Rattle.sap_macro.specs.Indexed.{defined};
ghost use Rattle.sap_macro.specs.Located.{Located, without_numbers};
ghost use Rattle.sap_macro.specs.Order.{AreInOrder, UsesOnly};
ghost use Rattle.sap_origin.specs.Definitions.{LocatedDefinition, plain_definition};
ghost use Rattle.sap_players.specs.Casts.{Cast};
ghost use Rattle.sap_roles.specs.Casts.{IsCastOf, IsCastOfScript, IsScript};
ghost use Rattle.sap_roles.specs.declared.script.Script.{Script};

use crate::laws::{one_role, places_have_their_forms};
use sap_macro::located_is_written;
use sap_origin::located_definitions_are_written;

/// A law: a file has one cast, where no definition has the name of an earlier one, each uses earlier ones alone, and the process uses these;
/// so each script has one.
pub fn casts_are_one()
    ensures some { (ds : List LocatedDefinition) (p : Located) (behind : ℕ)
        → AreInOrder [] (map plain_definition ds)
        → UsesOnly (defined (map plain_definition ds)) (without_numbers p)
        → (cast : Cast) × IsCastOf ds p behind cast }
    ensures one { (ds : List LocatedDefinition) (p : Located) (behind : ℕ) (a b : Cast)
        → AreInOrder [] (map plain_definition ds) → IsCastOf ds p behind a → IsCastOf ds p behind b → a ≡ b }
    ensures scripts { (s : Script) → IsScript s → (cast : Cast) × IsCastOfScript s cast }
{
    located_definitions_are_written();
    located_is_written();
    one_role();
    places_have_their_forms();
}
