//! Small processes whose runs are followed by hand, as contracts of a function that only calls the laws below.
ghost use Rattle.std.specs.Prelude.{[], Contains, List, Some, codes, ◌∷◌, ◌≡◌, ℕ};
ghost use Rattle.sap_translate.specs.Examples.{a_fact, b_fact, both_wait, both_wait_trace, copied_twice, deleted_again, first_fact, first_goes_on, g_fact, locked_test, locked_twice, no_fact, plain_fact, second_fact, term_a, term_b, twin_pattern, twins, twins_told, two_inputs, two_inputs_served_once, two_senders, yes_fact};
ghost use Rattle.sap_translate.specs.Faithful.{IsShownBy, IsVisibleTrace};
ghost use Rattle.sap_translate.specs.ShownExamples.{must_start, never_starts, starting_theory};
ghost use Rattle.sap_templates.specs.Templates.{rules_of};
ghost use Rattle.sap_process.specs.ProcessSteps.{Fits, IsProcessTrace};
ghost use Rattle.sap_restrict.specs.Standard.{IsAdmitted};
ghost use Rattle.sap_rule.specs.RuleSteps.{IsFullTrace, IsUse, RuleRun, RuleStep};
ghost use Rattle.sap_rule.specs.declared.rule.Rule.{Rule};
ghost use Rattle.sap_terms.specs.AdversaryFacts.{k_fact};
ghost use Rattle.sap_terms.specs.Choice.{Choice};
ghost use Rattle.sap_terms.specs.Equations.{app2, pair_name};
ghost use Rattle.sap_terms.specs.Trace.{Trace};
ghost use Rattle.sap_terms.specs.Tree.{Tree};
ghost use Rattle.sap_terms.specs.declared.fact.Fact.{Fact};
ghost use Rattle.sap_terms.specs.FactNames.{k_name};
ghost use Rattle.sap_terms.specs.Piles.{Pile, Takes};
ghost use Rattle.sap_terms.specs.Signature.{HoldsBuiltins, IsPublic, Sig, arity_of};

use sap_process::instances_of_processes;
use sap_restrict::restrictions_say_sentences;
use sap_rewrite::{
    each_term_has_a_normal_form, equality_is_kept, forms_are_messages, normal_forms_are_unique,
};
use sap_terms::leaves_are_normal;

/// A law: traces of small processes, each of the process itself and as what is seen of its rules. `! ! event A()` shows A()
/// twice, and never No(); a value that was stored and deleted isn't found; and two inputs take one term, which the adversary
/// is shown to know for each of them and once more. Where both take it one after the other, the full trace isn't admitted.
/// A lock that is free is taken and given back; and on a channel that the adversary doesn't know two processes meet, while a
/// third has still to send. An input of <x,x> takes <'a','a'>, and nothing makes it <'a','b'>.
pub fn runs_by_hand()
    ensures copied { (g : Sig) → IsProcessTrace g copied_twice ((plain_fact ∷ []) ∷ (plain_fact ∷ []) ∷ []) }
    ensures copied_rules { (g : Sig) → HoldsBuiltins g
        → IsVisibleTrace g (rules_of copied_twice) ((plain_fact ∷ []) ∷ (plain_fact ∷ []) ∷ []) }
    ensures other { (g : Sig) → ¬ IsProcessTrace g copied_twice ((no_fact ∷ []) ∷ []) }
    ensures other_rules { (g : Sig) → HoldsBuiltins g → ¬ IsVisibleTrace g (rules_of copied_twice) ((no_fact ∷ []) ∷ []) }
    ensures deleted { (g : Sig) → IsProcessTrace g deleted_again ((no_fact ∷ []) ∷ []) }
    ensures deleted_rules { (g : Sig) → HoldsBuiltins g → IsVisibleTrace g (rules_of deleted_again) ((no_fact ∷ []) ∷ []) }
    ensures inputs { (g : Sig)
        → IsProcessTrace g two_inputs ((k_fact term_a ∷ []) ∷ (k_fact term_a ∷ []) ∷ (k_fact term_a ∷ []) ∷ []) }
    ensures inputs_rules { (g : Sig) → HoldsBuiltins g
        → IsVisibleTrace g (rules_of two_inputs) ((k_fact term_a ∷ []) ∷ (k_fact term_a ∷ []) ∷ (k_fact term_a ∷ []) ∷ []) }
    ensures unserved { (g : Sig) → ¬ IsAdmitted g two_inputs_served_once }
    ensures locked { (g : Sig) → IsProcessTrace g locked_test ((k_fact term_a ∷ []) ∷ []) }
    ensures locked_rules { (g : Sig) → HoldsBuiltins g → IsVisibleTrace g (rules_of locked_test) ((k_fact term_a ∷ []) ∷ []) }
    ensures met { (g : Sig) → IsProcessTrace g two_senders ((g_fact ∷ []) ∷ (first_fact ∷ []) ∷ []) }
    ensures met_rules { (g : Sig) → HoldsBuiltins g → IsVisibleTrace g (rules_of two_senders) ((g_fact ∷ []) ∷ (first_fact ∷ []) ∷ []) }
    ensures twins { (g : Sig) → IsPublic g pair_name → arity_of g pair_name ≡ Some 2
        → IsProcessTrace g twins ((k_fact (app2 pair_name term_a term_a) ∷ []) ∷ []) }
    ensures twins_rules { (g : Sig) → HoldsBuiltins g → IsPublic g pair_name → arity_of g pair_name ≡ Some 2
        → IsVisibleTrace g (rules_of twins) ((k_fact (app2 pair_name term_a term_a) ∷ []) ∷ []) }
    ensures unmatched { (g : Sig) (σ : Choice) → ¬ Fits g σ twin_pattern (app2 pair_name term_a term_b) }
{
    leaves_are_normal();
    each_term_has_a_normal_form();
    normal_forms_are_unique();
    equality_is_kept();
    forms_are_messages();
    instances_of_processes();
    restrictions_say_sentences();
}

/// A law: of each of these processes a trace that it has and one that it lacks, and so it is seen of its rules. A process
/// without an event shows only what the adversary knows, and of that whatever it knows; so an input of <x,x> is told by what
/// is shown behind it: which term the pair was of, and behind <'a','b'> nothing. A value that was deleted is never found. A
/// lock that was given back is taken again, and one that wasn't never is. Of two senders on a channel that the adversary
/// doesn't know the second goes on where the receiver took its message; where the receiver's event came before it sent,
/// nobody acknowledges it. Each of two inputs shows what it takes: one time of the adversary isn't enough for both. And
/// behind the event of one copy comes none but that of another.
pub fn traces_by_hand()
    ensures equal_parts { (g : Sig) → IsPublic g pair_name → arity_of g pair_name ≡ Some 2
        → IsProcessTrace g twins_told ((k_fact (app2 pair_name term_a term_a) ∷ []) ∷ (a_fact term_a ∷ []) ∷ []) }
    ensures equal_parts_rules { (g : Sig) → HoldsBuiltins g → IsPublic g pair_name → arity_of g pair_name ≡ Some 2
        → IsVisibleTrace g (rules_of twins_told) ((k_fact (app2 pair_name term_a term_a) ∷ []) ∷ (a_fact term_a ∷ []) ∷ []) }
    ensures unequal_parts { (g : Sig) (t : Tree)
        → ¬ IsProcessTrace g twins_told ((k_fact (app2 pair_name term_a term_b) ∷ []) ∷ (a_fact t ∷ []) ∷ []) }
    ensures unequal_parts_rules { (g : Sig) (t : Tree) → HoldsBuiltins g
        → ¬ IsVisibleTrace g (rules_of twins_told) ((k_fact (app2 pair_name term_a term_b) ∷ []) ∷ (a_fact t ∷ []) ∷ []) }
    ensures pairs_alone { (g : Sig) (tr : Trace) (fs : List Fact) (f : Fact) → IsProcessTrace g twins tr → Contains tr fs
        → Contains fs f → f.name ≡ k_name }
    ensures pairs_alone_rules { (g : Sig) (tr : Trace) (fs : List Fact) (f : Fact) → HoldsBuiltins g
        → IsVisibleTrace g (rules_of twins) tr → Contains tr fs → Contains fs f → f.name ≡ k_name }
    ensures deleted_value { (g : Sig) (t : Tree) → ¬ IsProcessTrace g deleted_again ((yes_fact t ∷ []) ∷ []) }
    ensures deleted_value_rules { (g : Sig) (t : Tree) → HoldsBuiltins g
        → ¬ IsVisibleTrace g (rules_of deleted_again) ((yes_fact t ∷ []) ∷ []) }
    ensures locks_alone { (g : Sig) (tr : Trace) (fs : List Fact) (f : Fact) → IsProcessTrace g locked_test tr → Contains tr fs
        → Contains fs f → f.name ≡ k_name }
    ensures locks_alone_rules { (g : Sig) (tr : Trace) (fs : List Fact) (f : Fact) → HoldsBuiltins g
        → IsVisibleTrace g (rules_of locked_test) tr → Contains tr fs → Contains fs f → f.name ≡ k_name }
    ensures unlocked { (g : Sig) → IsProcessTrace g locked_twice ((k_fact term_a ∷ []) ∷ (g_fact ∷ []) ∷ []) }
    ensures unlocked_rules { (g : Sig) → HoldsBuiltins g
        → IsVisibleTrace g (rules_of locked_twice) ((k_fact term_a ∷ []) ∷ (g_fact ∷ []) ∷ []) }
    ensures still_locked { (g : Sig) (t : Tree) → ¬ IsProcessTrace g locked_twice ((k_fact t ∷ []) ∷ (no_fact ∷ []) ∷ []) }
    ensures still_locked_rules { (g : Sig) (t : Tree) → HoldsBuiltins g
        → ¬ IsVisibleTrace g (rules_of locked_twice) ((k_fact t ∷ []) ∷ (no_fact ∷ []) ∷ []) }
    ensures acknowledged { (g : Sig)
        → IsProcessTrace g two_senders ((first_fact ∷ []) ∷ (g_fact ∷ []) ∷ (second_fact ∷ []) ∷ []) }
    ensures acknowledged_rules { (g : Sig) → HoldsBuiltins g
        → IsVisibleTrace g (rules_of two_senders) ((first_fact ∷ []) ∷ (g_fact ∷ []) ∷ (second_fact ∷ []) ∷ []) }
    ensures other_acknowledged { (g : Sig)
        → ¬ IsProcessTrace g two_senders ((g_fact ∷ []) ∷ (first_fact ∷ []) ∷ (second_fact ∷ []) ∷ []) }
    ensures other_acknowledged_rules { (g : Sig) → HoldsBuiltins g
        → ¬ IsVisibleTrace g (rules_of two_senders) ((g_fact ∷ []) ∷ (first_fact ∷ []) ∷ (second_fact ∷ []) ∷ []) }
    ensures shown_twice { (g : Sig) → IsProcessTrace g two_inputs
        ((k_fact term_a ∷ []) ∷ (a_fact term_a ∷ []) ∷ (k_fact term_a ∷ []) ∷ (b_fact term_a ∷ []) ∷ []) }
    ensures shown_twice_rules { (g : Sig) → HoldsBuiltins g → IsVisibleTrace g (rules_of two_inputs)
        ((k_fact term_a ∷ []) ∷ (a_fact term_a ∷ []) ∷ (k_fact term_a ∷ []) ∷ (b_fact term_a ∷ []) ∷ []) }
    ensures shown_once { (g : Sig) (s t u : Tree)
        → ¬ IsProcessTrace g two_inputs ((k_fact s ∷ []) ∷ (a_fact t ∷ []) ∷ (b_fact u ∷ []) ∷ []) }
    ensures shown_once_rules { (g : Sig) (s t u : Tree) → HoldsBuiltins g
        → ¬ IsVisibleTrace g (rules_of two_inputs) ((k_fact s ∷ []) ∷ (a_fact t ∷ []) ∷ (b_fact u ∷ []) ∷ []) }
    ensures copied_other { (g : Sig) → ¬ IsProcessTrace g copied_twice ((plain_fact ∷ []) ∷ (no_fact ∷ []) ∷ []) }
    ensures copied_other_rules { (g : Sig) → HoldsBuiltins g
        → ¬ IsVisibleTrace g (rules_of copied_twice) ((plain_fact ∷ []) ∷ (no_fact ∷ []) ∷ []) }
{
    leaves_are_normal();
    each_term_has_a_normal_form();
    normal_forms_are_unique();
    equality_is_kept();
    forms_are_messages();
    instances_of_processes();
    restrictions_say_sentences();
}

/// A law: runs of the rules of two of these processes. Where the adversary has given 'a' twice, both inputs can take it, one
/// after the other, so that full trace is one of a run: what refuses it is that it isn't admitted. And where the second
/// sender waits and the first one's message was acknowledged, no use of the second sender's rule takes that: the tags differ. The
/// first sender's rule takes it.
pub fn rule_runs_by_hand()
    ensures served_once { (g : Sig) → IsFullTrace g (rules_of two_inputs) two_inputs_served_once }
    ensures waiting { (g : Sig) → RuleRun g (rules_of two_senders) both_wait both_wait_trace }
    ensures other_tag { (g : Sig) (σ : Choice) (r : Rule) (ks : List ℕ) (left acts right : List Fact) (rest : Pile)
        → Contains (rules_of two_senders) r → r.name ≡ codes "OutAck_1221" → Takes both_wait.facts ks left rest
        → ¬ IsUse g r σ left acts right }
    ensures own_tag { (g : Sig) → RuleStep g (rules_of two_senders) both_wait [] first_goes_on }
{
    leaves_are_normal();
    each_term_has_a_normal_form();
    normal_forms_are_unique();
    equality_is_kept();
    forms_are_messages();
    instances_of_processes();
    restrictions_say_sentences();
}

/// A law: a theory's restrictions are judged on the full traces of its runs, and not on what is seen of them. The theory has one
/// rule, which shows Init() and A() at once, and Init() is hidden. Where some time has to show Init(), it shows A() twice, though
/// nothing that is seen shows Init(); where none may, it shows nothing that begins with A(), but it shows the empty trace, of the
/// run without a step. Each of several restrictions counts.
pub fn shown_by_hand()
    ensures shown { (g : Sig)
        → IsShownBy (starting_theory g (must_start ∷ [])) ((plain_fact ∷ []) ∷ (plain_fact ∷ []) ∷ []) }
    ensures unshown { (g : Sig) (tr : Trace) → ¬ IsShownBy (starting_theory g (never_starts ∷ [])) ((plain_fact ∷ []) ∷ tr) }
    ensures unshown_by_second { (g : Sig) (tr : Trace)
        → ¬ IsShownBy (starting_theory g (must_start ∷ never_starts ∷ [])) ((plain_fact ∷ []) ∷ tr) }
    ensures shown_at_rest { (g : Sig) → IsShownBy (starting_theory g (never_starts ∷ [])) [] }
{
    leaves_are_normal();
    each_term_has_a_normal_form();
    normal_forms_are_unique();
    equality_is_kept();
    forms_are_messages();
    instances_of_processes();
    restrictions_say_sentences();
}
