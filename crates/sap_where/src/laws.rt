//! Laws of places, as contracts of functions that do nothing.
ghost use Rattle.std.specs.Prelude.{◌≡◌, ◌↔◌, ◌++◌, ◌∷◌, ℕ, List, [], Some, codes, drop, false, length, slice_get, true};
ghost use Rattle.sap_terms.specs.Signature.{Sig};
ghost use Rattle.sap_text.specs.declared.token.Token.{Token};
ghost use Rattle.sap_grammar.specs.Cut.{Placed};
ghost use Rattle.sap_grammar.specs.Words.{Word, mark, name, words_of};
ghost use Rattle.sap_read.specs.Files.{AreTokens, IsParted};
ghost use Rattle.sap_read.specs.declared.fault.ReadFault.TheVariants.{Arguments, DuplicateName, FunctionClash, Parameters, TwoProcesses};
ghost use Rattle.sap_grammar.specs.Declarations.{of_builtin};
ghost use Rattle.sap_terms.specs.declared.signature.Builtin.TheVariants.{Asymmetric, Hashing, RevealingSigning, Signing, Symmetric};
ghost use Rattle.sap_read.specs.Item.{Standing, declarations};
ghost use Rattle.sap_read.specs.ItemGrammar.{AreItems, HasParameters};
ghost use Rattle.sap_read.specs.declared.fault.ReadFault.{ReadFault};
ghost use Rattle.sap_where.specs.OtherPlaces.{IsDeclaredFirstAt, IsOtherWhere, IsTakenFirstAt, declares};
ghost use Rattle.sap_where.specs.Where.{IsTakenAt, IsWhere, StartsFile, one_byte};
ghost use Rattle.sap_expect.specs.FirstWrong.{IsFirstWrong};
ghost use Rattle.sap_where.specs.PlaceExamples.{IsClash, IsFirstF, IsTwice, IsTwiceFirst, after_builtin, after_builtin_tokens, ended_header, few_declared_tokens, many_declared, many_declared_tokens, nameless_header, of_pairs, of_pairs_tokens, once_tokens, stated, stated_tokens, twice, twice_tokens, two_processes, two_processes_tokens, three_headings, three_headings_tokens};
ghost use Rattle.sap_stretches.specs.StretchExamples.{stretch};
ghost use Rattle.sap_where.specs.FileDeclarations.{IsClashAt, declared_before};
ghost use Rattle.sap_where.specs.Parameters.{IsParameter, parameter_at};
ghost use Rattle.sap_stretches.specs.declared.stretch.Stretch.{Stretch};

use sap_text::one_answer;

/// A law: a cause that the words of a file place stands at one stretch of the bytes at most.
pub fn one_stretch()
    ensures { (z : List ℕ) (e : ReadFault) (s t : Stretch) → IsWhere z e s → IsWhere z e t → s ≡ t }
{
    one_answer();
}

/// A law: a cause has one other stretch of the bytes at most that their words place.
pub fn one_other_stretch()
    ensures { (z : List ℕ) (e : ReadFault) (s t : Stretch) → IsOtherWhere z e s → IsOtherWhere z e t → s ≡ t }
{
    one_answer();
}

/// A law: small files, where in them is what, and where it isn't: which byte is one, which word of a header is the first that is wrong,
/// where a name is defined or stated again, where a parameter stands twice, and where a declaration clashes.
pub fn places_by_hand()
    ensures byte { one_byte 4 ≡ stretch 4 5 }
    ensures headers { IsFirstWrong StartsFile ended_header 2 × IsFirstWrong StartsFile nameless_header 1
        × IsFirstWrong StartsFile [] 0 × (IsFirstWrong StartsFile nameless_header 2 → ⊥) }
    ensures names { IsTakenAt twice twice_tokens (codes "P") 4
        × (IsTakenAt twice twice_tokens (codes "P") 0 → ⊥)
        × IsTakenAt twice once_tokens (codes "P") 2 × IsTakenAt stated stated_tokens (codes "P") 2
        × (IsTakenAt stated stated_tokens (codes "P") 0 → ⊥) }
    ensures parameters { IsTwice 16 × (IsTwice 3 → ⊥) × (IsTwice 12 → ⊥) × (IsTwice 18 → ⊥) × (IsTwice 27 → ⊥) }
    ensures clashes { IsClash (codes "h") 15
        × IsClashAt many_declared few_declared_tokens (codes "f") 15 }
    ensures no_clashes { (IsClash (codes "h") 2 → ⊥) × (IsClash (codes "f") 10 → ⊥) × (IsClash (codes "f") 18 → ⊥) }
{}

/// A law: small files, and where in them the other place is, and isn't: of a name that is defined or stated again the first item that has
/// it; of a parameter that stands twice the first, in the same definition; of a declaration that clashes the first of its name, of a
/// builtin its own; that a symbol of pairs has none; which builtin declares which names.
pub fn other_places_by_hand()
    ensures names { IsTakenFirstAt twice twice_tokens (codes "P") 0
        × (IsTakenFirstAt twice twice_tokens (codes "P") 2 → ⊥)
        × (IsTakenFirstAt twice twice_tokens (codes "P") 4 → ⊥)
        × IsTakenFirstAt stated stated_tokens (codes "P") 0
        × (IsTakenFirstAt stated stated_tokens (codes "P") 2 → ⊥)
        × ((j : ℕ) → IsTakenFirstAt twice once_tokens (codes "P") j → ⊥) }
    ensures parameters { IsTwiceFirst 12 × (IsTwiceFirst 3 → ⊥) × (IsTwiceFirst 16 → ⊥) × (IsTwiceFirst 18 → ⊥) }
    ensures declarations { IsDeclaredFirstAt many_declared many_declared_tokens (codes "h") 2
        × (IsDeclaredFirstAt many_declared many_declared_tokens (codes "h") 15 → ⊥)
        × IsFirstF 6 × (IsFirstF 2 → ⊥) × (IsFirstF 10 → ⊥) × (IsFirstF 15 → ⊥)
        × IsDeclaredFirstAt after_builtin after_builtin_tokens (codes "h") 2
        × (IsDeclaredFirstAt after_builtin after_builtin_tokens (codes "h") 5 → ⊥)
        × ((j : ℕ) → IsDeclaredFirstAt of_pairs of_pairs_tokens (codes "fst") j → ⊥) }
    ensures builtins { (declares (codes "h") (of_builtin Hashing) ≡ true) × (declares (codes "senc") (of_builtin Hashing) ≡ false)
        × (declares (codes "sdec") (of_builtin Symmetric) ≡ true) × (declares (codes "pk") (of_builtin Symmetric) ≡ false)
        × (declares (codes "pk") (of_builtin Asymmetric) ≡ true) × (declares (codes "verify") (of_builtin Asymmetric) ≡ false)
        × (declares (codes "true") (of_builtin Signing) ≡ true) × (declares (codes "aenc") (of_builtin Signing) ≡ false)
        × (declares (codes "getMessage") (of_builtin RevealingSigning) ≡ true)
        × (declares (codes "sign") (of_builtin RevealingSigning) ≡ false) }
    ensures stretches { AreTokens twice twice_tokens → IsOtherWhere twice (DuplicateName (codes "P")) (stretch 4 5)
        × IsOtherWhere twice (Arguments (codes "P")) (stretch 4 5)
        × (IsOtherWhere twice (DuplicateName (codes "P")) (stretch 0 3) → ⊥)
        × (IsOtherWhere twice (DuplicateName (codes "P")) (stretch 18 19) → ⊥)
        × (IsOtherWhere twice (Arguments (codes "P")) (stretch 18 19) → ⊥) }
    ensures processes { AreTokens two_processes two_processes_tokens → IsOtherWhere two_processes (TwoProcesses 1) (stretch 0 7)
        × (IsOtherWhere two_processes (TwoProcesses 1) (stretch 12 19) → ⊥) }
    ensures clashes { AreTokens many_declared few_declared_tokens → IsOtherWhere many_declared (FunctionClash (codes "f")) (stretch 20 21)
        × (IsOtherWhere many_declared (FunctionClash (codes "f")) (stretch 28 29) → ⊥) }
    ensures repeated { AreTokens three_headings three_headings_tokens
        → IsOtherWhere three_headings (Parameters (codes "x")) (stretch 28 29)
        × (IsOtherWhere three_headings (Parameters (codes "x")) (stretch 8 9) → ⊥) }
{
    one_other_stretch();
}

/// A law: the words that are told are those of the grammar. Of a definition that it spells they are its parameters, number by number;
/// and what the words of a file in it declare are the declarations of its items, in order.
pub fn by_the_grammar()
    ensures parameters { (z : List ℕ) (ts : List Token) (i : ℕ) (d : List ℕ) (xs : List (List ℕ))
        (a b m : List Word) → words_of z (drop i ts) ≡ mark (codes "let") ∷ name d ∷ (a ++ m)
        → HasParameters xs a b → (x : List ℕ) (n : ℕ)
        → IsParameter z ts x i n ↔ ((j : ℕ) × (slice_get xs j ≡ Some x) × (n ≡ parameter_at i j)) }
    ensures declarations { (z : List ℕ) (ts : List Token) (x : List ℕ) (cut : List (List Placed)) (g : Sig)
        (is : List Standing) → IsParted z ts x cut → AreItems g cut is
        → declared_before z ts (length ts) ≡ declarations is }
{}
