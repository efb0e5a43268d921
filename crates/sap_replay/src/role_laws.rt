//! A law of the roles of files.

ghost use Rattle.std.specs.Prelude.{◌≡◌, ℕ, List};
ghost use Rattle.sap_players.specs.Casts.{Cast};
ghost use Rattle.sap_replay.specs.FileRoles.{HasCast};

use sap_origin::located_definitions_are_written;
use sap_read::{bodies_are_one, one_parting};
use sap_roles::casts_are_one;

/// A law: bytes have the roles of one file at most, by one cast; so `tell` and `chart` call the threads of a run in one way.
pub fn files_have_one_cast()
    ensures { (bytes : List ℕ) (a b : Cast) → HasCast bytes a → HasCast bytes b → a ≡ b }
{
    one_parting();
    bodies_are_one();
    located_definitions_are_written();
    casts_are_one();
}
