//! Laws of the words of heads, as contracts of functions that do nothing.
ghost use Rattle.std.specs.Prelude.{◌≡◌, ℕ, codes, List, [], ◌∷◌};
ghost use Rattle.std.specs.List.{AllZip};
ghost use Rattle.sap_terms.specs.Signature.{Sig};
ghost use Rattle.sap_terms.specs.declared.fact.Fact.{Fact};
ghost use Rattle.sap_terms.specs.declared.var.Var.{Var};
ghost use Rattle.sap_nodes.specs.HeadNodes.{binder, variable, fact};
ghost use Rattle.sap_nodes.specs.declared.part.Part.{Part};
ghost use Rattle.sap_grammar.specs.Words.{Word, mark};
ghost use Rattle.sap_node_words.specs.NodeWords.{last_words};
ghost use Rattle.sap_terms.specs.Tree.{Tree};
ghost use Rattle.sap_macro.specs.Located.{Located, nil_at, call_at};
ghost use Rattle.sap_macro.specs.Written.{Written};
ghost use Rattle.sap_origin.specs.Reached.{number_of};
ghost use Rattle.sap_grammar.specs.declared.limits.Limits.{Limits};
ghost use Rattle.sap_draft.specs.LocatedProcesses.{seq_located, par_located};
ghost use Rattle.sap_draft.specs.ProcessGrammar.{Ending, IsSeq, IsPar};
ghost use Rattle.sap_head_words.specs.HeadWords.{HeadWords};
ghost use Rattle.sap_head_words.specs.NodeStands.{NodeStands};
ghost use Rattle.sap_head_words.specs.HasHead.{HasHead};
ghost use Rattle.sap_stems.specs.WrittenNodes.{written_nodes};
ghost use Rattle.sap_stems.specs.WrittenPlaces.{IsPlaceIn};
ghost use Rattle.sap_head_words.specs.Examples.{out_head, out_words, input_head, input_words, rule_head, rule_words, rule_with, arrow_head, arrow_words, fresh_head, fresh_words, new_head, new_words, event_head, event_words, insert_head, insert_words, lock_head, lock_words, lookup_head, lookup_words, test_head, test_words, use_head, use_words, bare_head, bare_words, one, two, three, bare, many_places};

use sap_node_words::{facts_and_words, nodes_and_words};

/// A law: the nodes of a head have the same numbers, however words spell it, and whatever stands behind it.
pub fn one_head()
    ensures { (g h : Sig) (q : Located) (a : List Word) (ns ms : List ℕ) → HeadWords g q a ns
        → HeadWords h q a ms → ns ≡ ms }
{
    nodes_and_words();
    facts_and_words();
}

/// A law: each place of what words spell is told by one of them, its head begins there, and its nodes have a number each.
pub fn some_head()
    ensures parallel { (g : Sig) (m : Limits) (p : Written) (n : ℕ) (a b : List Word)
        (r : IsPar g m p n a b) (q : Located) → IsPlaceIn q (par_located r) → HasHead g a q }
    ensures sequence { (g : Sig) (m : Limits) (e : Ending) (p : Written) (n : ℕ) (a b : List Word)
        (r : IsSeq g m e p n a b) (q : Located) → IsPlaceIn q (seq_located r) → HasHead g a q }
{
    nodes_and_words();
    facts_and_words();
}

/// A law: each number of a head is that of a word at which its node stands; a fact, a variable and what is bound stand at no sign.
pub fn heads_and_words()
    ensures words { (g : Sig) (q : Located) (a : List Word) (ns : List ℕ) → HeadWords g q a ns
        → AllZip (λ u n. NodeStands g u (last_words n a)) (written_nodes q) ns }
    ensures no_fact { (g : Sig) (x : Part) (f : Fact) (w : List ℕ) (a : List Word)
        → NodeStands g (fact x f) (mark w ∷ a) → ⊥ }
    ensures no_variable { (g : Sig) (x : Var) (w : List ℕ) (a : List Word)
        → NodeStands g (variable x) (mark w ∷ a) → ⊥ }
    ensures no_binder { (g : Sig) (x : Var) (w : List ℕ) (a : List Word)
        → NodeStands g (binder x) (mark w ∷ a) → ⊥ }
{
    nodes_and_words();
    facts_and_words();
}

/// A law: places of a worked process, in both sides and both branches, and places that it hasn't. A use has no place but itself.
pub fn places_by_hand()
    ensures itself { IsPlaceIn many_places many_places }
    ensures first_branch { IsPlaceIn (bare 11 (codes "P")) many_places }
    ensures second_branch { IsPlaceIn (bare 9 (codes "Q")) many_places }
    ensures found { IsPlaceIn (bare 1 (codes "R")) many_places }
    ensures missing { IsPlaceIn (nil_at 6) many_places }
    ensures no_other_number { (q : Located) → IsPlaceIn q many_places → number_of q ≡ 10 → ⊥ }
    ensures no_other_missing { IsPlaceIn (nil_at 15) many_places → ⊥ }
    ensures uses { (k : ℕ) (f : List ℕ) (ts : List Tree) (q : Located)
        → IsPlaceIn q (call_at k f ts) → q ≡ call_at k f ts }
{}

/// A law: thirteen worked heads with the numbers of their nodes, and numbers that they haven't: of the sign in place of the name, of
/// `!` in place of the fact, of the first word, of a parenthesis, of the other argument, of the other side of a rule, without the
/// channel, without what `lookup` binds, and with a use's own name.
pub fn heads_by_hand()
    ensures out { (g : Sig) → HeadWords g out_head out_words (three 7 6 3) }
    ensures input { (g : Sig) → HeadWords g input_head input_words (two 5 2) }
    ensures rule { (g : Sig) → HeadWords g rule_head rule_words (rule_with 23 21 17 14 10 5 3) }
    ensures arrow { (g : Sig) → HeadWords g arrow_head arrow_words (two 5 3) }
    ensures fresh { (g : Sig) → HeadWords g fresh_head fresh_words (one 1) }
    ensures new { (g : Sig) → HeadWords g new_head new_words (one 1) }
    ensures event { (g : Sig) → HeadWords g event_head event_words (two 4 2) }
    ensures insert { (g : Sig) → HeadWords g insert_head insert_words (two 4 1) }
    ensures lock { (g : Sig) → HeadWords g lock_head lock_words (one 1) }
    ensures lookup { (g : Sig) → HeadWords g lookup_head lookup_words (two 5 3) }
    ensures test { (g : Sig) → HeadWords g test_head test_words (two 6 3) }
    ensures uses { (g : Sig) → HeadWords g use_head use_words (two 5 2) }
    ensures bare { (g : Sig) → HeadWords g bare_head bare_words [] }
    ensures no_sign { (g : Sig) → HeadWords g out_head out_words (three 7 6 4) → ⊥ }
    ensures no_out { (g : Sig) → HeadWords g out_head out_words (three 9 6 3) → ⊥ }
    ensures no_channel { (g : Sig) → HeadWords g input_head input_words (one 2) → ⊥ }
    ensures no_other_part { (g : Sig) → HeadWords g input_head input_words (two 2 5) → ⊥ }
    ensures no_persistence { (g : Sig)
        → HeadWords g rule_head rule_words (rule_with 23 21 18 14 10 5 3) → ⊥ }
    ensures no_parenthesis { (g : Sig)
        → HeadWords g rule_head rule_words (rule_with 22 21 17 14 10 5 3) → ⊥ }
    ensures no_fresh_sign { (g : Sig)
        → HeadWords g rule_head rule_words (rule_with 23 21 17 15 10 5 3) → ⊥ }
    ensures no_other_side { (g : Sig)
        → HeadWords g rule_head rule_words (rule_with 23 21 17 14 5 10 3) → ⊥ }
    ensures no_bracket { (g : Sig) → HeadWords g arrow_head arrow_words (two 6 3) → ⊥ }
    ensures no_sign_of_new { (g : Sig) → HeadWords g fresh_head fresh_words (one 2) → ⊥ }
    ensures no_new { (g : Sig) → HeadWords g new_head new_words (one 2) → ⊥ }
    ensures no_event { (g : Sig) → HeadWords g event_head event_words (two 5 2) → ⊥ }
    ensures no_key { (g : Sig) → HeadWords g insert_head insert_words (one 1) → ⊥ }
    ensures no_lock { (g : Sig) → HeadWords g lock_head lock_words (one 3) → ⊥ }
    ensures no_as { (g : Sig) → HeadWords g lookup_head lookup_words (two 5 4) → ⊥ }
    ensures no_key_alone { (g : Sig) → HeadWords g lookup_head lookup_words (one 5) → ⊥ }
    ensures no_equals { (g : Sig) → HeadWords g test_head test_words (two 6 5) → ⊥ }
    ensures no_name_of_use { (g : Sig) → HeadWords g use_head use_words (three 7 5 2) → ⊥ }
    ensures no_other_argument { (g : Sig) → HeadWords g use_head use_words (two 2 5) → ⊥ }
    ensures no_bare_name { (g : Sig) → HeadWords g bare_head bare_words (one 1) → ⊥ }
{
    one_head();
}
