//! Laws of where causes stand that are found when the items of a file have been read, as contracts of functions that do nothing but call
//! those of each cause.
ghost use Rattle.std.specs.Prelude.{◌≡◌, ℕ, List, Err};
ghost use Rattle.sap_read.specs.Files.{IsRead};
ghost use Rattle.sap_read.specs.declared.fault.ReadFault.{ReadFault};
ghost use Rattle.sap_read_places.specs.ReadPlaces.{IsReadCause, IsReadPlace};
ghost use Rattle.sap_read_places.specs.declared.told.Told.{Told};

use crate::body_flaw_laws::body_flaw_places;
use crate::flaw_laws::flaw_places;
use crate::limit_laws::limit_places;
use crate::part_laws::part_places;
use crate::undefined_laws::undefined_places;
use crate::use_laws::use_places;

/// A law: a cause that is found when the items of a file have been read stands at one place at most; and each file that is refused for
/// one has its place.
pub fn read_places()
    ensures one { (z : List ℕ) (e : ReadFault) (s t : Told) → IsReadPlace z e s → IsReadPlace z e t → s ≡ t }
    ensures some { (z : List ℕ) (e : ReadFault) → IsReadCause e → IsRead z (Err e) → (t : Told) × IsReadPlace z e t }
{
    limit_places();
    undefined_places();
    use_places();
    flaw_places();
    body_flaw_places();
    part_places();
}
