//! Names that the adversary took, followed by hand, as contracts of a function that only calls the laws below.
ghost use Rattle.std.specs.Prelude.{[], Contains, List, codes, ◌≡◌, ℕ};
ghost use Rattle.sap_rule.specs.RuleSteps.{IsUse, RuleRun, RuleStep};
ghost use Rattle.sap_rule.specs.declared.rule.Rule.{Rule};
ghost use Rattle.sap_terms.specs.Choice.{Choice};
ghost use Rattle.sap_terms.specs.Piles.{Pile, Takes};
ghost use Rattle.sap_terms.specs.Signature.{Sig};
ghost use Rattle.sap_terms.specs.declared.fact.Fact.{Fact};
ghost use Rattle.sap_translate.specs.NameExamples.{name_owned, name_owned_trace, name_told, other_drawn, other_made};
ghost use Rattle.sap_templates.specs.Templates.{rules_of};

use sap_process::instances_of_processes;
use sap_restrict::restrictions_say_sentences;
use sap_rewrite::{
    each_term_has_a_normal_form, equality_is_kept, forms_are_messages, normal_forms_are_unique,
};
use sap_terms::leaves_are_normal;

/// A law: a name that the adversary took before `new` is none that the process makes. A run of the rules of `new ~c; event A(~c)` leads
/// to where Fr(~2) was drawn and the adversary has it; there no choice makes a use of the rule of `new`. Where Fr(~1) was drawn too,
/// the rule takes that.
pub fn owned_names_by_hand()
    ensures owned { (g : Sig) → RuleRun g (rules_of name_told) name_owned name_owned_trace }
    ensures not_made { (g : Sig) (σ : Choice) (r : Rule) (ks : List ℕ) (left acts right : List Fact) (rest : Pile)
        → Contains (rules_of name_told) r → r.name ≡ codes "New_" → Takes name_owned.facts ks left rest
        → ¬ IsUse g r σ left acts right }
    ensures other_made { (g : Sig) → RuleStep g (rules_of name_told) other_drawn [] other_made }
{
    leaves_are_normal();
    each_term_has_a_normal_form();
    normal_forms_are_unique();
    equality_is_kept();
    forms_are_messages();
    instances_of_processes();
    restrictions_say_sentences();
}
