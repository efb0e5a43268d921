//! Causes in small files by hand, as laws.
ghost use Rattle.std.specs.Prelude.{◌≡◌, ◌-◌, ◌^◌, ℕ, List, codes, [], ◌∷◌, None, Some};
ghost use Rattle.sap_terms.specs.Choice.{Choice};
ghost use Rattle.sap_terms.specs.Signature.{Sig};
ghost use Rattle.sap_terms.specs.declared.var.Sort.TheVariants.{Fresh, Pub};
ghost use Rattle.sap_process.specs.Proc.{level_count, node_count};
ghost use Rattle.sap_process.specs.declared.flaw.Flaw.{Flaw};
ghost use Rattle.sap_process.specs.declared.flaw.Flaw.TheVariants.{Rebound, SortClash, Unbound};
ghost use Rattle.sap_macro.specs.Expansion.{expansion, put, unchanged};
ghost use Rattle.sap_macro.specs.ExpansionExamples.{a, giving_y, in_first, in_second, inner, outer, pairing, twice_two};
ghost use Rattle.sap_macro.specs.KeptSizes.{levels_kept, nodes_kept};
ghost use Rattle.sap_macro.specs.Written.{call, parallel};
ghost use Rattle.sap_uses.specs.FaultCauses.{IsMacroCause};
ghost use Rattle.sap_uses.specs.ScopeFlaws.{IsFirstFlawedBehind};
ghost use Rattle.sap_uses.specs.Sizes.{HaveSizes, cut, size_in};
ghost use Rattle.sap_uses.specs.UseCauses.{first_large};
ghost use Rattle.sap_uses.specs.UseExamples.{apart, beyond, binding_again, eight_and_five, empty_one, ladder, most, open_below, open_one, open_other, plain_use, right_one, rung, signing_as, swapping, through_plain, twofold, use_of, using_c, using_open, x_of};
ghost use Rattle.sap_uses.specs.declared.fault.MacroFault.{MacroFault};
ghost use Rattle.sap_uses.specs.declared.fault.MacroFault.TheVariants.{Arguments, Flawed, Large, Parameters};

/// A law: arguments in small files. One of 256 nodes is none that is too large, and one of 257 is. Definitions that each hand the one
/// before twice what they got reach 255 nodes with eight of them, and 511 with nine, where the first of them is named. Of two uses
/// the first in preorder counts, and an outer one before those inside of it. What no body puts anywhere counts. Names without
/// parameters take none, and what stands in their bodies has the caller's parameters.
pub fn large_by_hand()
    ensures most { first_large (ladder 1) (use_of 0 most) ≡ None }
    ensures beyond { first_large (ladder 1) (use_of 0 beyond) ≡ Some (codes "A") }
    ensures doubled { first_large (ladder 8) (use_of 7 a) ≡ None }
    ensures doubled_again { first_large (ladder 9) (use_of 8 a) ≡ Some (codes "A") }
    ensures first { first_large (ladder 2) (parallel (use_of 1 beyond) (use_of 0 beyond)) ≡ Some (codes "AA") }
    ensures outer { first_large (swapping ∷ []) (call (codes "C") (beyond ∷ a ∷ [])) ≡ Some (codes "C") }
    ensures second { first_large (swapping ∷ []) (call (codes "C") (a ∷ beyond ∷ [])) ≡ Some (codes "C") }
    ensures in_first { first_large (ladder 1) (in_first (use_of 0 beyond)) ≡ Some (codes "A") }
    ensures in_second { first_large (ladder 1) (in_second (use_of 0 beyond)) ≡ Some (codes "A") }
    ensures its_own { first_large (rung 0 ∷ rung 1 ∷ swapping ∷ []) (call (codes "C") (twofold 7 ∷ a ∷ [])) ≡ None }
    ensures handed_on { first_large (rung 0 ∷ rung 1 ∷ swapping ∷ []) (call (codes "C") (a ∷ twofold 7 ∷ [])) ≡ Some (codes "A") }
    ensures plain { first_large (giving_y ∷ []) (call (codes "C") (beyond ∷ [])) ≡ None }
    ensures through_plain { first_large (rung 0 ∷ plain_use ∷ through_plain ∷ []) (call (codes "C") (a ∷ twofold 7 ∷ [])) ≡ Some (codes "A") }
    ensures unreached { first_large (ladder 2) apart ≡ None }
{}

/// A law: definitions in small files that use what nothing binds, bind a parameter again, or sign it, with either sign; a use of a
/// name that nothing binds; a flaw below the root; of two flawed definitions the first in order, to which the other one leads; names
/// without parameters, which aren't looked at, but whose bodies count where they stand. And files without one: whose definition isn't
/// used, and whose definition is right.
pub fn flawed_by_hand()
    ensures unbound { (g : Sig) → IsFirstFlawedBehind g (open_one ∷ []) (use_of 0 a) (codes "A") Unbound [] }
    ensures rebound { (g : Sig) → IsFirstFlawedBehind g (binding_again ∷ []) (use_of 0 a) (codes "A") Rebound [] }
    ensures signed { (g : Sig) → IsFirstFlawedBehind g (signing_as Fresh ∷ []) (use_of 0 a) (codes "A") SortClash [] }
    ensures signed_public { (g : Sig) → IsFirstFlawedBehind g (signing_as Pub ∷ []) (use_of 0 a) (codes "A") SortClash [] }
    ensures used { (g : Sig) → IsFirstFlawedBehind g (empty_one ∷ using_open ∷ []) (use_of 0 a) (codes "A") Unbound [] }
    ensures below { (g : Sig) → IsFirstFlawedBehind g (open_below ∷ []) (use_of 0 a) (codes "A") Unbound (1 ∷ []) }
    ensures first { (g : Sig) → IsFirstFlawedBehind g (open_other ∷ using_open ∷ []) (use_of 0 a) (codes "B") Unbound [] }
    ensures plain { (g : Sig) → IsFirstFlawedBehind g (giving_y ∷ using_c ∷ []) (use_of 0 a) (codes "A") Unbound [] }
    ensures unreached { (g : Sig) (f : List ℕ) (w : Flaw) (path : List ℕ) → ¬ IsFirstFlawedBehind g (open_one ∷ []) apart f w path }
    ensures right { (g : Sig) (f : List ℕ) (w : Flaw) (path : List ℕ) → ¬ IsFirstFlawedBehind g (right_one ∷ []) (use_of 0 a) f w path }
{}

/// A law: which cause counts in small files. A parameter that stands twice counts before a use with another number of arguments, and
/// that before an argument that is too large; this one counts before a definition that is flawed, which counts by itself; and where
/// nothing is wrong no cause counts.
pub fn causes_by_hand()
    ensures parameters { (g : Sig) → IsMacroCause g (twice_two ∷ []) (use_of 0 a) (Parameters (codes "x")) }
    ensures arguments { (g : Sig) → IsMacroCause g (pairing ∷ []) (use_of 0 beyond) (Arguments (codes "A")) }
    ensures large { (g : Sig) → IsMacroCause g (open_one ∷ []) (use_of 0 beyond) (Large (codes "A")) }
    ensures flawed { (g : Sig) → IsMacroCause g (open_one ∷ []) (use_of 0 a) (Flawed (codes "A") Unbound []) }
    ensures right { (g : Sig) (e : MacroFault) → ¬ IsMacroCause g (right_one ∷ []) (use_of 0 a) e }
{}

/// A law: sizes of names in small tables. A name has the size that is kept of it, one that isn't kept has size 1. Sizes are as they are up to
/// the greatest u64, and from there on that number. A choice has the sizes where each variable stands for a term of as many nodes, also where
/// the name isn't kept and the variable stands for itself; it hasn't them where a term has more nodes or fewer, or where it has some that
/// aren't kept. Sizes beyond the greatest u64 are as good as that.
pub fn sizes_by_hand()
    ensures kept { size_in (x_of 3) (codes "x") ≡ 3 }
    ensures other { size_in (x_of 3) (codes "y") ≡ 1 }
    ensures below { cut (2 ^ 64 - 2) ≡ 2 ^ 64 - 2 }
    ensures greatest { cut (2 ^ 64 - 1) ≡ 2 ^ 64 - 1 }
    ensures beyond { cut (2 ^ 64) ≡ 2 ^ 64 - 1 }
    ensures not_beyond { ¬ (cut (2 ^ 64) ≡ 2 ^ 64) }
    ensures have { HaveSizes (put (codes "x" ∷ []) (twofold 1 ∷ []) unchanged) (x_of 3) }
    ensures themselves { HaveSizes unchanged [] }
    ensures not_fewer { ¬ HaveSizes (put (codes "x" ∷ []) (twofold 2 ∷ []) unchanged) (x_of 3) }
    ensures not_more { ¬ HaveSizes unchanged (x_of 3) }
    ensures not_unkept { ¬ HaveSizes (put (codes "x" ∷ []) (twofold 1 ∷ []) unchanged) [] }
    ensures as_good { (r : Choice) → HaveSizes r (x_of (2 ^ 64)) → HaveSizes r (x_of (2 ^ 64 - 1)) }
{}

/// A law: what is kept of the name of a definition, the places and the levels of its use: of `let A(x) = in(<x,n>); (B(n) | B(x))` eight and
/// five, behind `let B(z) = new ~n; out(z)`. Where nothing is kept it is one of each, as the use of a name that nothing defines has.
pub fn kept_sizes_by_hand()
    ensures nodes { nodes_kept (Some eight_and_five) ≡ 8 }
    ensures levels { levels_kept (Some eight_and_five) ≡ 5 }
    ensures none { (nodes_kept None ≡ 1) × (levels_kept None ≡ 1) }
    ensures of_use { (node_count (expansion (inner ∷ outer ∷ []) [] (call (codes "A") (a ∷ []))).process ≡ nodes_kept (Some eight_and_five))
        × (level_count (expansion (inner ∷ outer ∷ []) [] (call (codes "A") (a ∷ []))).process ≡ levels_kept (Some eight_and_five)) }
    ensures undefined { (node_count (expansion (inner ∷ outer ∷ []) [] (call (codes "C") (a ∷ []))).process ≡ nodes_kept None)
        × (level_count (expansion (inner ∷ outer ∷ []) [] (call (codes "C") (a ∷ []))).process ≡ levels_kept None) }
    ensures not_exchanged { ¬ (nodes_kept (Some eight_and_five) ≡ levels_kept (Some eight_and_five)) }
{}
