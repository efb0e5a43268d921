//! What is done with terms, told by hand.
ghost use Rattle.std.specs.Prelude.{◌≡◌, codes, List, [], ◌∷◌, false, true};
ghost use Rattle.sap_terms.specs.Equations.{app1, app2, pair_name};
ghost use Rattle.sap_terms.specs.Tree.{apply, none, public};
ghost use Rattle.sap_tell.specs.Said.{applied_text, are_few, said_event, said_if, said_lookup, said_out, said_word, taken_on};
ghost use Rattle.sap_tell.specs.ToldExamples.{a_of, first_names, hi, key, large, on_key, two};

/// What is done with terms: one that is what it is evaluated to, one that isn't, which is told both ways with the others of its line,
/// and one of 257 nodes, of which only what it is evaluated to is told, while one of 256 is told as it stands. Not told so: what a term
/// is evaluated to alone, the term as it stands alone, only the one of two that isn't evaluated. What is taken on a channel, a pair whole;
/// what the adversary applies, a constant alone.
pub fn said_by_hand()
    ensures out { said_out first_names (key ∷ []) (key ∷ []) ≡ codes "out(pk(~sk.1))" }
    ensures out_evaluated { said_out first_names (app1 (codes "fst") two ∷ []) (hi ∷ [])
        ≡ codes "out(fst(<'hi','hi'>)), that is 'hi'" }
    ensures out_on { said_out first_names (app1 (codes "fst") two ∷ key ∷ []) (hi ∷ key ∷ [])
        ≡ codes "out(fst(<'hi','hi'>),pk(~sk.1)), that is 'hi', pk(~sk.1)" }
    ensures comparison { said_if first_names (hi ∷ app1 (codes "fst") two ∷ []) (hi ∷ hi ∷ [])
        ≡ codes "if 'hi' = fst(<'hi','hi'>), that is 'hi' = 'hi'" }
    ensures same { said_if first_names (hi ∷ key ∷ []) (hi ∷ key ∷ []) ≡ codes "if 'hi' = pk(~sk.1)" }
    ensures insertion { said_word (codes "insert") first_names (app1 (codes "fst") two ∷ key ∷ []) (hi ∷ key ∷ [])
        ≡ codes "insert fst(<'hi','hi'>), pk(~sk.1), that is 'hi', pk(~sk.1)" }
    ensures lock { said_word (codes "lock") first_names (hi ∷ []) (hi ∷ []) ≡ codes "lock 'hi'" }
    ensures lookup { said_lookup (codes "x") first_names (app1 (codes "snd") two ∷ []) (hi ∷ [])
        ≡ codes "lookup snd(<'hi','hi'>) as x, that is 'hi'" }
    ensures event { said_event first_names (a_of (app1 (codes "fst") two)) (a_of hi)
        ≡ codes "event A(fst(<'hi','hi'>)), that is A('hi')" }
    ensures event_same { said_event first_names (a_of key) (a_of key) ≡ codes "event A(pk(~sk.1))" }
    ensures not_evaluated_alone { ¬ (said_out first_names (app1 (codes "fst") two ∷ []) (hi ∷ []) ≡ codes "out('hi')") }
    ensures not_standing_alone { ¬ (said_out first_names (app1 (codes "fst") two ∷ []) (hi ∷ []) ≡ codes "out(fst(<'hi','hi'>))") }
    ensures not_one_of_two { ¬ (said_word (codes "insert") first_names (app1 (codes "fst") two ∷ key ∷ []) (hi ∷ key ∷ [])
        ≡ codes "insert fst(<'hi','hi'>), pk(~sk.1), that is 'hi'") }
    ensures taken { taken_on first_names on_key ≡ codes "in(pk(~sk.1),'hi')" }
    ensures taken_pair { taken_on first_names (app2 pair_name hi two) ≡ codes "in('hi',<'hi','hi'>)" }
    ensures not_open { ¬ (taken_on first_names (app2 pair_name hi two) ≡ codes "in('hi','hi','hi')") }
    ensures symbol { applied_text first_names (codes "pair") (1 ∷ 2 ∷ []) two ≡ codes "pair(1,2) = <'hi','hi'>" }
    ensures constant { applied_text first_names (codes "k") [] (apply (codes "k") none) ≡ codes "k" }
    ensures few { are_few (large 255 ∷ []) ≡ true }
    ensures many { are_few (large 256 ∷ []) ≡ false }
{}
