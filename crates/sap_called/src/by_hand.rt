//! Names and terms that are told by hand.
ghost use Rattle.std.specs.Prelude.{◌≡◌, codes, [], ◌∷◌, take};
ghost use Rattle.sap_grammar.specs.FactText.{fact_text, facts_text, arrow_text};
ghost use Rattle.sap_grammar.specs.TermText.{term_text, tree_text};
ghost use Rattle.sap_called.specs.NameExamples.{five, made, wrapped};
ghost use Rattle.sap_called.specs.NamedTerms.{named, named_fact, named_facts};
ghost use Rattle.sap_called.specs.Names.{called, draw, names_text, with_draw};

/// Names of five draws: the first and the second of `ni`, which the one of `key` between them doesn't count for; the adversary's and
/// that of a variable `adv`, counted together; one that none drew, and one before it was drawn. What they aren't called: by their
/// numbers, by another one's place, by their place among all. A name that was drawn keeps its word.
pub fn names_by_hand()
    ensures first { called five 4 ≡ codes "~ni.1" }
    ensures between { called five 2 ≡ codes "~key.1" }
    ensures second { called five 9 ≡ codes "~ni.2" }
    ensures adversary { called five 3 ≡ codes "~adv.1" }
    ensures namesake { called five 5 ≡ codes "~adv.2" }
    ensures unknown { called five 7 ≡ codes "~7" }
    ensures early { called (take 2 five) 9 ≡ codes "~9" }
    ensures no_number { ¬ (called five 9 ≡ codes "~9") }
    ensures no_first { ¬ (called five 9 ≡ codes "~ni.1") }
    ensures no_place { ¬ (called five 9 ≡ codes "~ni.3") }
    ensures lines { names_text (take 3 five) ≡ codes "~ni.1 = ~4\n~key.1 = ~2\n~ni.2 = ~9\n" }
    ensures once { with_draw five (draw 2 (codes "ni")) ≡ five }
    ensures last { with_draw (take 2 five) (draw 9 (codes "ni")) ≡ take 3 five }
{}

/// A term, its name as it is called and its variable as it is written; what isn't told of it, another name and the variable's sign
/// left out; a pair without its brackets; and a fact, alone and in a rule.
pub fn terms_by_hand()
    ensures term { tree_text (named five wrapped) ≡ codes "senc(~ni.2,<~key.1,~ni>)" }
    ensures early { tree_text (named [] wrapped) ≡ codes "senc(~9,<~2,~ni>)" }
    ensures other { ¬ (tree_text (named five wrapped) ≡ codes "senc(~ni.1,<~key.1,~ni>)") }
    ensures no_sign { ¬ (tree_text (named five wrapped) ≡ codes "senc(~ni.2,<~key.1,ni>)") }
    ensures fact { fact_text (named_fact five made) ≡ codes "Made(~ni.1,'a',~7)" }
    ensures side { facts_text (named_facts five (made ∷ [])) ≡ codes "[ Made(~ni.1,'a',~7) ]" }
    ensures arrow { arrow_text (named_facts five (made ∷ [])) ≡ codes " --[ Made(~ni.1,'a',~7) ]-> " }
{}
