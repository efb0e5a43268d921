//! Laws of stems, as contracts of functions that do nothing.
ghost use Rattle.std.specs.Prelude.{◌≡◌, ◌↔◌, ℕ, List, [], ◌∷◌, ◌++◌, None, Some, codes, length, map, slice_get};
ghost use Rattle.sap_terms.specs.declared.var.Sort.TheVariants.{Fresh, Msg};
ghost use Rattle.sap_process.specs.Proc.{Proc};
ghost use Rattle.sap_macro.specs.Expansion.{expansion};
ghost use Rattle.sap_macro.specs.Indexed.{defined};
ghost use Rattle.sap_macro.specs.Located.{Located, without_numbers};
ghost use Rattle.sap_macro.specs.Order.{AreInOrder, UsesOnly};
ghost use Rattle.sap_macro.specs.UpToNames.{named};
ghost use Rattle.sap_nodes.specs.HeadNodes.{binder, fresh, head_nodes, public, symbol, variable};
ghost use Rattle.sap_nodes.specs.declared.part.Part.TheVariants.{Given, Pattern};
ghost use Rattle.sap_origin.specs.Definitions.{LocatedDefinition, plain_definition};
ghost use Rattle.sap_origin.specs.Origins.{start};
ghost use Rattle.sap_origin.specs.Reached.{ReachesBy, Standing, process_at};
ghost use Rattle.sap_origin.specs.declared.trail.Replaced.{Replaced};
ghost use Rattle.sap_stems.specs.Examples.{IsWritten, StemsFrom, chain_defs, chain_inner, chain_use, plain_defs, plain_inner, twice, twice_defs, twice_inner, twice_left, twice_right, two, two_defs, two_inner, two_use, with_a};
ghost use Rattle.sap_stems.specs.Likeness.{AreLike, IsLike};
ghost use Rattle.sap_stems.specs.StemOf.{IsStemAt};
ghost use Rattle.sap_stems.specs.Stems.{Stem};
ghost use Rattle.sap_stems.specs.StemsAt.{AreStems};
ghost use Rattle.sap_stems.specs.WrittenPlaces.{IsPlaceOf, IsWrittenNode};
ghost use Rattle.sap_stems.specs.declared.making.WrittenNode.{WrittenNode};

use sap_macro::plain_names_stand_for_bodies;

/// A law: where no definition has the name of an earlier one, each uses earlier ones alone, and the process uses these, the nodes of each
/// place of its expansion have stems, one for each in order, and are like them. They have one list of stems, along a path of the expansion
/// and along any; and each stem is a node that is written in the file, and the
/// uses above it are the outermost of those above the place.
pub fn nodes_have_stems()
    ensures some { (ds : List LocatedDefinition) (p : Located) (behind : ℕ) (identifiers : List (List ℕ))
        (path : List ℕ) (y : Proc) → AreInOrder [] (map plain_definition ds)
        → UsesOnly (defined (map plain_definition ds)) (without_numbers p)
        → process_at (expansion (map plain_definition ds) identifiers (without_numbers p)).process path
        ≡ Some y → (ss : List Stem) × AreStems ds p behind path ss × AreLike ss (head_nodes y) }
    ensures one { (ds : List LocatedDefinition) (p : Located) (behind : ℕ) (path : List ℕ)
        (ss rs : List Stem) → AreStems ds p behind path ss → AreStems ds p behind path rs → ss ≡ rs }
    ensures as_many { (ds : List LocatedDefinition) (p : Located) (behind : ℕ)
        (identifiers : List (List ℕ)) (path : List ℕ) (y : Proc) (ss : List Stem)
        → AreInOrder [] (map plain_definition ds)
        → UsesOnly (defined (map plain_definition ds)) (without_numbers p)
        → process_at (expansion (map plain_definition ds) identifiers (without_numbers p)).process path
        ≡ Some y → AreStems ds p behind path ss → length ss ≡ length (head_nodes y) }
    ensures written { (ds : List LocatedDefinition) (p : Located) (behind : ℕ) (path : List ℕ)
        (ss : List Stem) (k : ℕ) (s : Stem) → AreStems ds p behind path ss → slice_get ss k ≡ Some s
        → IsWrittenNode ds p behind s }
    ensures above { (ds : List LocatedDefinition) (p : Located) (behind : ℕ) (path : List ℕ)
        (ss : List Stem) (k : ℕ) (s : Stem) (a : AreStems ds p behind path ss)
        → slice_get ss k ≡ Some s → (xs : List ℕ) × (a.standing.uses ≡ xs ++ s.standing.uses) }
{
    plain_names_stand_for_bodies();
}

/// A law: in small files the written nodes from which those of a place stem, and from which they don't. Of `let A(x, z) = in(z); out(x)` and
/// `in(y); A(fst(y), snd(y))` the input's are those of the second argument, where no use is above them; not the parameter, not the first
/// argument, nor with the use of the body. Of `let A(k) = in(<k, fst(q)>)`, used on `'a'` and on `snd(w)`, `fst` of the body is the third
/// node through the first use, and through the second the fourth, behind what stands in the argument. What stands for parameters stays
/// behind a name without parameters, and is no parameter behind one with some; an argument's own parameters are put in, each node with
/// the uses above it.
pub fn stems_by_hand()
    ensures argument { StemsFrom two_defs two (1 ∷ []) 0 two_use 2 [] }
    ensures below { StemsFrom two_defs two (1 ∷ []) 1 two_use 3 [] }
    ensures other_argument { StemsFrom two_defs two (1 ∷ 1 ∷ []) 0 two_use 0 [] }
    ensures no_parameter { (k i : ℕ) (us : List ℕ) → StemsFrom two_defs two (1 ∷ []) k two_inner i us → ⊥ }
    ensures no_first { (us : List ℕ) → StemsFrom two_defs two (1 ∷ []) 0 two_use 0 us → ⊥ }
    ensures no_uses_of_the_body { (k i : ℕ) → StemsFrom two_defs two (1 ∷ []) k two_use i (13 ∷ []) → ⊥ }
    ensures no_more { (q : Located) (i : ℕ) (us : List ℕ) → StemsFrom two_defs two (1 ∷ []) 2 q i us → ⊥ }
    ensures main { StemsFrom two_defs two [] 0 two 0 [] }
    ensures body { StemsFrom twice_defs twice (1 ∷ []) 0 twice_inner 0 (13 ∷ []) }
    ensures public { StemsFrom twice_defs twice (1 ∷ []) 1 twice_left 0 [] }
    ensures third { StemsFrom twice_defs twice (1 ∷ []) 2 twice_inner 2 (13 ∷ []) }
    ensures second { StemsFrom twice_defs twice (2 ∷ []) 1 twice_right 0 [] }
    ensures fourth { StemsFrom twice_defs twice (2 ∷ []) 3 twice_inner 2 (8 ∷ []) }
    ensures no_other_use { (q : Located) (i : ℕ) → StemsFrom twice_defs twice (2 ∷ []) 3 q i (13 ∷ []) → ⊥ }
    ensures no_alike { (us : List ℕ) → StemsFrom twice_defs twice (2 ∷ []) 1 twice_inner 2 us → ⊥ }
    ensures stays { StemsFrom plain_defs with_a [] 0 with_a 0 [] }
    ensures no_plain { (us : List ℕ) → StemsFrom plain_defs with_a [] 0 plain_inner 0 us → ⊥ }
    ensures outer { StemsFrom chain_defs with_a [] 0 chain_inner 0 (14 ∷ 5 ∷ []) }
    ensures middle { StemsFrom chain_defs with_a [] 1 chain_use 0 (5 ∷ []) }
    ensures inner { StemsFrom chain_defs with_a [] 2 with_a 0 [] }
    ensures no_parameter_of_another { StemsFrom chain_defs with_a [] 3 chain_inner 2 (14 ∷ 5 ∷ []) }
    ensures no_argument_of_another { (i : ℕ) (us : List ℕ) → StemsFrom chain_defs with_a [] 3 with_a i us → ⊥ }
{}

/// A law: the place to which one comes along a path, whichever names are replaced, is one of the process, or of a definition's body, behind
/// whose item as many words of the file are as where one stands.
pub fn ways_lead_to_written_places()
    ensures { (ds : List LocatedDefinition) (v : Replaced) (p q : Located) (behind : ℕ) (path : List ℕ)
        (z : Standing) → ReachesBy ds v (start behind) p path z q → IsPlaceOf ds p behind z.behind q }
{}

/// A law: in small files how the program has the written node from which one stems: below no use, below one and below two, each in its own
/// item; of a node that isn't there it has none, and of one that is it has one.
pub fn written_nodes_by_hand()
    ensures two_uses { (w : WrittenNode) → IsStemAt chain_defs with_a 1 [] 0 (Some w) ↔ IsWritten w chain_inner 0 20 2 }
    ensures one_use { (w : WrittenNode) → IsStemAt chain_defs with_a 1 [] 1 (Some w) ↔ IsWritten w chain_use 0 7 1 }
    ensures no_use { (w : WrittenNode) → IsStemAt chain_defs with_a 1 [] 2 (Some w) ↔ IsWritten w with_a 0 1 0 }
    ensures behind { (w : WrittenNode) → IsStemAt two_defs two 1 (1 ∷ []) 1 (Some w) ↔ IsWritten w two_use 3 1 0 }
    ensures none { IsStemAt two_defs two 1 (1 ∷ []) 2 None × ((w : WrittenNode) → IsStemAt two_defs two 1 (1 ∷ []) 2 (Some w) → ⊥) }
    ensures not_none { IsStemAt two_defs two 1 (1 ∷ []) 1 None → ⊥ }
{}

/// A law: of small nodes which are like one another, whatever their part and a variable's name, and which aren't: with another symbol, on
/// another number of terms, with another name or sort, of another kind.
pub fn likeness_by_hand()
    ensures symbols { IsLike (symbol Given (codes "h") 1) (symbol Pattern (codes "h") 1) }
    ensures variables { IsLike (variable (named (codes "x") Msg)) (variable (named (codes "x_1") Msg)) }
    ensures binders { IsLike (binder (named (codes "x") Fresh)) (binder (named (codes "x_1") Fresh)) }
    ensures no_argument { IsLike (variable (named (codes "x") Msg)) (public []) }
    ensures no_other_symbol { IsLike (symbol Given (codes "h") 1) (symbol Given (codes "hk") 1) → ⊥ }
    ensures no_other_number { IsLike (symbol Given (codes "h") 1) (symbol Given (codes "h") 2) → ⊥ }
    ensures no_other_name { IsLike (public (codes "a")) (public (codes "ab")) → ⊥ }
    ensures no_other_fresh_name { IsLike (fresh 1) (fresh 2) → ⊥ }
    ensures no_other_sort { IsLike (variable (named (codes "x") Msg)) (variable (named (codes "x") Fresh)) → ⊥ }
    ensures no_name_for_a_variable { IsLike (variable (named (codes "x") Msg)) (public (codes "a")) → ⊥ }
    ensures no_binder_for_a_variable { IsLike (variable (named (codes "x") Msg)) (binder (named (codes "x") Msg)) → ⊥ }
    ensures no_variable_for_a_symbol { IsLike (symbol Given (codes "h") 0) (variable (named (codes "h") Msg)) → ⊥ }
{}
