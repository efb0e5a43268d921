//! Laws of the grammar of processes, as contracts of functions that do nothing.
ghost use Rattle.std.specs.Prelude.{◌≡◌, ◌⊎◌, ℕ, List, []};
ghost use Rattle.sap_terms.specs.Signature.{Sig, pairs_alone};
ghost use Rattle.sap_grammar.specs.Words.{Word};
ghost use Rattle.sap_grammar.specs.ByteWords.{AreTokenWords};
ghost use Rattle.sap_grammar.specs.declared.limits.Limits.{Limits};
ghost use Rattle.sap_grammar.specs.TermLaws.{AreRead, AreSpelled};
ghost use Rattle.sap_macro.specs.Written.{Written};
ghost use Rattle.sap_macro.specs.Located.{without_numbers};
ghost use Rattle.sap_draft.specs.ProcessGrammar.{IsPar, IsProcess, EndsProcess};
ghost use Rattle.sap_draft.specs.LocatedProcesses.{par_located, IsLocated};
ghost use Rattle.sap_draft.specs.LocatedExamples.{dangling_with, parted_with, parallel_with, grouped_words, grouped_with, actions_with, rule_with, lookup_with, only_found_words, only_found_with, use_with};
ghost use Rattle.sap_draft.specs.Printable.{IsSpelledWritten};
ghost use Rattle.sap_draft.specs.ProcessExamples.{dangling_words, dangling_process, parted_words, parted_process, parallel_words, parallel_process, action_words, action_process, rule_words, rule_process, lookup_words, lookup_process, use_words, use_process, empty_use_words, comma_use_words, parted_use_words};
ghost use Rattle.sap_draft.specs.declared.limits.TheConstants.{FILE_LIMITS};

use sap_grammar::{printed_words, term_laws};

/// A law: from one place words spell at most one process that nothing of it follows, with one number of levels, and end it
/// at one place. So all of some words spell at most one.
pub fn one_process()
    ensures place { (g : Sig) (m : Limits) (n k : ℕ) (p q : Written)
        (a b c : List Word) → IsPar g m p n a b
        → IsPar g m q k a c
        → EndsProcess b → EndsProcess c → (p ≡ q) × (n ≡ k) × (b ≡ c) }
    ensures whole { (g : Sig) (m : Limits) (n k : ℕ) (p q : Written)
        (a : List Word) → IsPar g m p n a []
        → IsPar g m q k a []
        → (p ≡ q) × (n ≡ k) }
{
    term_laws();
}

/// A law: a process with the words that tell its places is, without them, what is spelled. From one place each place of the process
/// is told by one word, however it is spelled, where nothing of it follows; so it is with all of some words.
pub fn located_processes()
    ensures plain { (g : Sig) (m : Limits) (n : ℕ) (p : Written) (a b : List Word)
        (r : IsPar g m p n a b) → without_numbers (par_located r) ≡ p }
    ensures one { (g : Sig) (m : Limits) (n k : ℕ) (p q : Written) (a b c : List Word)
        (r : IsPar g m p n a b) (s : IsPar g m q k a c)
        → EndsProcess b → EndsProcess c → par_located r ≡ par_located s }
    ensures whole { (g : Sig) (m : Limits) (n k : ℕ) (p q : Written) (a : List Word)
        (r : IsPar g m p n a []) (s : IsPar g m q k a []) → par_located r ≡ par_located s }
{
    term_laws();
}

/// A law: which words are a process, and of how many levels, is the same under each signature.
pub fn same_processes()
    ensures { (g h : Sig) (m : Limits) (n : ℕ) (p : Written) (a b : List Word) → IsPar g m p n a b
        → (q : Written) × IsPar h m q n a b }
{
    term_laws();
}

/// A law: all of some words are a process of a file, or none.
pub fn some_process()
    ensures { (g : Sig) (a : List Word) → ((p : Written) × IsProcess g p a)
        ⊎ ((p : Written) → IsProcess g p a → ⊥) }
{
    term_laws();
}

/// A law: whatever stands in a process that words of tokens spell can be printed, where it is over the signature. So an argument is
/// looked at by itself, since it may be put nowhere.
pub fn processes_are_printable()
    ensures { (most : ℕ) (g : Sig) (m : Limits) (p : Written) (n : ℕ) (a b : List Word)
        → IsPar g m p n a b → AreTokenWords most a → IsSpelledWritten most g p }
{
    printed_words();
}

/// A law: seven worked examples of which words spell which process, with how many levels, and three of words that spell none.
pub fn processes_by_hand()
    ensures dangling { (g : Sig) → IsPar g FILE_LIMITS dangling_process 3 dangling_words [] }
    ensures parted { (g : Sig) → IsPar g FILE_LIMITS parted_process 4 parted_words [] }
    ensures parallel { (g : Sig) → IsPar g FILE_LIMITS parallel_process 3 parallel_words [] }
    ensures actions { IsPar pairs_alone FILE_LIMITS action_process 5 action_words [] }
    ensures rule { (g : Sig) → IsPar g FILE_LIMITS rule_process 2 rule_words [] }
    ensures lookup { (g : Sig) → IsPar g FILE_LIMITS lookup_process 3 lookup_words [] }
    ensures uses { (g : Sig) → IsPar g FILE_LIMITS use_process 2 use_words [] }
    ensures no_arguments { (g : Sig) (p : Written) → IsProcess g p empty_use_words → ⊥ }
    ensures last_comma { (g : Sig) (p : Written) → IsProcess g p comma_use_words → ⊥ }
    ensures name_apart { (g : Sig) (p : Written) → IsProcess g p parted_use_words → ⊥ }
{
    term_laws();
}

/// A law: nine worked examples of the numbers of places, and of numbers that these haven't: that of the word behind, of a parenthesis,
/// of the first part of a parallel, of a word further on where a `0` is missing, or none.
pub fn located_by_hand()
    ensures dangling { (g : Sig) → IsLocated g (dangling_with 13 8 13) dangling_words }
    ensures parted { (g : Sig) → IsLocated g (parted_with 9) parted_words }
    ensures parallel { (g : Sig) → IsLocated g (parallel_with 4 2) parallel_words }
    ensures grouped { (g : Sig) → IsLocated g (grouped_with 2 5) grouped_words }
    ensures actions { IsLocated pairs_alone (actions_with 17 13 5 4) action_words }
    ensures rule { (g : Sig) → IsLocated g (rule_with 18 18) rule_words }
    ensures lookup { (g : Sig) → IsLocated g (lookup_with 10 5 2) lookup_words }
    ensures only_found { (g : Sig) → IsLocated g (only_found_with 6 6) only_found_words }
    ensures uses { (g : Sig) → IsLocated g (use_with 9 2) use_words }
    ensures no_other_if { (g : Sig) (k : ℕ) → IsLocated g (dangling_with 12 8 k) dangling_words → ⊥ }
    ensures no_missing_0 { (g : Sig) → IsLocated g (dangling_with 13 8 0) dangling_words → ⊥ }
    ensures no_inner_if { (g : Sig) → IsLocated g (dangling_with 13 8 8) dangling_words → ⊥ }
    ensures no_parenthesis { (g : Sig) → IsLocated g (parted_with 10) parted_words → ⊥ }
    ensures no_first_part { (g : Sig) (k : ℕ) → IsLocated g (parallel_with 5 k) parallel_words → ⊥ }
    ensures no_second_part { (g : Sig) (k : ℕ) → IsLocated g (parallel_with k 1) parallel_words → ⊥ }
    ensures no_group { (g : Sig) (k : ℕ) → IsLocated g (grouped_with 7 k) grouped_words → ⊥ }
    ensures no_semicolon { (k j : ℕ) → IsLocated pairs_alone (actions_with 17 14 k j) action_words → ⊥ }
    ensures no_copy { (k : ℕ) → IsLocated pairs_alone (actions_with 17 13 4 k) action_words → ⊥ }
    ensures no_end { IsLocated pairs_alone (actions_with 17 13 5 0) action_words → ⊥ }
    ensures no_last_word { (g : Sig) → IsLocated g (rule_with 18 1) rule_words → ⊥ }
    ensures no_key { (g : Sig) (k j : ℕ) → IsLocated g (lookup_with 9 k j) lookup_words → ⊥ }
    ensures no_found { (g : Sig) → IsLocated g (only_found_with 6 1) only_found_words → ⊥ }
    ensures no_argument { (g : Sig) (k : ℕ) → IsLocated g (use_with 7 k) use_words → ⊥ }
{
    term_laws();
}
