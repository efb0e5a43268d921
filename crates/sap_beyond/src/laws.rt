//! Laws of numbers and digits of places, as contracts of functions that do nothing.
ghost use Rattle.std.specs.Prelude.{◌≡◌, ◌<◌, ℕ, List, [], map, length};
ghost use Rattle.sap_process.specs.Proc.{level_count, node_count};
ghost use Rattle.sap_macro.specs.Expansion.{expansion};
ghost use Rattle.sap_macro.specs.Indexed.{defined};
ghost use Rattle.sap_macro.specs.Order.{AreInOrder, UsesOnly};
ghost use Rattle.sap_macro.specs.Written.{Written, Definition};
ghost use Rattle.sap_beyond.specs.Numbered.{IsFirstDeep, IsNumbered};
ghost use Rattle.sap_beyond.specs.code.Shapes.{shape, shape_in};

use sap_origin::expansions_are_meant;

/// What is written has the shape of its expansion, whatever names the file has.
pub(crate) fn shapes_are_one()
    ensures { (ds : List Definition) (p : Written) (identifiers : List (List ℕ)) → AreInOrder [] ds → UsesOnly (defined ds) p
        → shape (expansion ds identifiers p).process ≡ shape_in ds p }
{
    expansions_are_meant();
}

/// A law: a number is that of one place at most; there is one where the expansion has more places than so many, and only there.
pub fn one_numbered()
    ensures one { (ds : List Definition) (p : Written) (k : ℕ) (v w : List ℕ) → IsNumbered ds p k v → IsNumbered ds p k w → v ≡ w }
    ensures some { (ds : List Definition) (p : Written) (k : ℕ) (identifiers : List (List ℕ))
        → k < node_count (expansion ds identifiers p).process → (path : List ℕ) × IsNumbered ds p k path }
    ensures only { (ds : List Definition) (p : Written) (k : ℕ) (path : List ℕ) (identifiers : List (List ℕ)) → IsNumbered ds p k path
        → k < node_count (expansion ds identifiers p).process }
{}

/// A law: there is one first place of so many digits at most; there is one where the expansion has more levels than so many, and only
/// there.
pub fn one_first_deep()
    ensures one { (ds : List Definition) (p : Written) (n : ℕ) (v w : List ℕ) → IsFirstDeep ds p n v → IsFirstDeep ds p n w → v ≡ w }
    ensures some { (ds : List Definition) (p : Written) (n : ℕ) (identifiers : List (List ℕ))
        → n < level_count (expansion ds identifiers p).process → (path : List ℕ) × IsFirstDeep ds p n path }
    ensures only { (ds : List Definition) (p : Written) (n : ℕ) (path : List ℕ) (identifiers : List (List ℕ)) → IsFirstDeep ds p n path
        → n < level_count (expansion ds identifiers p).process }
{}
