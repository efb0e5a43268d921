//! What is stored, as a map from keys.
ghost use Rattle.std.specs.Prelude.{◌≡◌, None};
ghost use Rattle.sap_terms.specs.View.{tree};
ghost use Rattle.sap_term_map.specs.Values.{value_at, with_at};

use crate::TermMap;
use sap_terms::Term;

/// Nothing is stored at the key from now on.
pub fn unset(stored: &mut TermMap, key: &Term)
    ensures { value_at stored.new ≡ with_at (value_at stored.old) (tree key.now) None }
{
    stored.remove(key);
}
