//! Laws of the rules of single places, which conversions of runs stand on: how a rule is found, what it leaves open, and what its terms
//! are under the choice that it is used with.
ghost use Rattle.std.specs.Prelude.{[], Contains, List, Some, map, ◌++◌, ◌<◌, ◌^◌, ◌≡◌, ◌⊎◌, ℕ};
ghost use Rattle.sap_locks.specs.Annotation.{IsAnnotation};
ghost use Rattle.sap_process.specs.Action.{embedded};
ghost use Rattle.sap_process.specs.Flaws.{IsWellFormed};
ghost use Rattle.sap_process.specs.Heads.{patterns};
ghost use Rattle.sap_process.specs.Places.{place};
ghost use Rattle.sap_process.specs.Proc.{Proc, act, node_count};
ghost use Rattle.sap_process.specs.Ready.{IsReady};
ghost use Rattle.sap_process.specs.Sites.{var_names};
ghost use Rattle.sap_rewrite.specs.Match.{Agrees, bound_vars};
ghost use Rattle.sap_rule.specs.Named.{rule_named};
ghost use Rattle.sap_rule.specs.Variables.{open_variables};
ghost use Rattle.sap_rule.specs.declared.rule.Rule.{Rule};
ghost use Rattle.sap_terms.specs.Choice.{Choice, instance};
ghost use Rattle.sap_terms.specs.Destructors.{HasDestructor};
ghost use Rattle.sap_terms.specs.Equations.{app2, equations, pair_name};
ghost use Rattle.sap_terms.specs.Modulo.{instance_facts};
ghost use Rattle.sap_terms.specs.Normal.{IsNormalForm};
ghost use Rattle.sap_terms.specs.Signature.{Sig};
ghost use Rattle.sap_terms.specs.Tree.{Tree};
ghost use Rattle.sap_terms.specs.Variables.{facts_vars, new_vars};
ghost use Rattle.sap_terms.specs.declared.binding.Binding.{Binding};
ghost use Rattle.sap_terms.specs.declared.fact.Fact.{Fact};
ghost use Rattle.sap_terms.specs.declared.var.Var.{Var};
ghost use Rattle.sap_translate.specs.Opened.{left_open, opened};
ghost use Rattle.sap_translate.specs.PlaceRules.{IsOfPlace};
ghost use Rattle.sap_templates.specs.Places.{root, scoped_place_at};
ghost use Rattle.sap_translate.specs.Scoped.{FactsWithin, IsFree, Within};
ghost use Rattle.sap_templates.specs.Templates.{init_rule, own_rules, rules_of};
ghost use Rattle.sap_translate.specs.relation.Answers.{term_under, widened};
ghost use Rattle.sap_translate.specs.relation.Envs.{Env, GoodEnv, chosen, filled, join, names};

use sap_rewrite::equality_is_kept;
use sap_terms::{destructors_head_left_sides, leaves_are_normal};

/// A law: a rule of a process is found by its name, which is its own. It is the rule that starts the process, or one of a place
/// that a path leads to; and each rule of such a place is one of the process.
pub fn rules_are_found_by_name()
    ensures named { (p : Proc) (r : Rule) → Contains (rules_of p) r → rule_named (rules_of p) r.name ≡ Some r }
    ensures origin { (p : Proc) (r : Rule) → Contains (rules_of p) r → (r ≡ init_rule) ⊎ IsOfPlace p r }
    ensures placed { (p : Proc) (r : Rule) → IsOfPlace p r → Contains (rules_of p) r }
{}

/// A law: what the facts that a rule of a place takes determine is all of its variables, but for what a look-up finds, and the
/// variables of an embedded rule that are neither in scope nor on its left side. The rule as a thread runs it, with what is in
/// scope put in, leaves open the same, and a choice for these is one for the rule of the place.
pub fn rules_leave_open()
    ensures init { (g : Sig) → open_variables g init_rule ≡ [] }
    ensures places { (g : Sig) (p q : Proc) (path : List ℕ) (v : List Var) (b : Proc) → IsReady g p → node_count p < 2 ^ 64
        → IsAnnotation p q → IsWellFormed g q → scoped_place_at (root q) path ≡ Some (place path v b)
        → map (open_variables g) (own_rules path v b) ≡ opened v b }
    ensures instances { (g : Sig) (env : Env) (l a r : List Fact) → GoodEnv g env
        → new_vars (var_names (facts_vars (instance_facts (chosen env) l)))
        (facts_vars (instance_facts (chosen env) a ++ instance_facts (chosen env) r)) ≡ left_open (names env) l a r }
    ensures choices { (g : Sig) (p q : Proc) (path : List ℕ) (env : Env) (l a r : List Fact) (b : Proc) (σ : Choice) (bs : List Binding)
        → IsReady g p → node_count p < 2 ^ 64 → IsAnnotation p q
        → scoped_place_at (root q) path ≡ Some (place path (names env) (act (embedded l a r) b))
        → bound_vars bs ≡ left_open (names env) l a r → Agrees bs σ
        → Agrees bs (filled (widened env σ (facts_vars (l ++ (a ++ r))))) }
{}

/// A law: in a well-formed process no destructor stands in a pattern of a place.
pub fn patterns_are_plain()
    ensures { (g : Sig) (p : Proc) (path : List ℕ) (v : List Var) (b : Proc) (t : Tree) → IsWellFormed g p
        → scoped_place_at (root p) path ≡ Some (place path v b) → Contains (patterns b) t → ¬ HasDestructor g t }
{}

/// A law: under the choice of what is in scope, with more or without, a term that is in scope is what the thread has of it; and
/// under what is in scope once a choice was made for a pattern, the pattern is its instance under that choice. A pair's normal
/// form is the pair of its parts' normal forms.
pub fn terms_stand_under_choices()
    ensures variables { (env : Env) (x : Var) → Contains (names env) x → filled env x ≡ env.choice x }
    ensures stays { (env more : Env) (x : Var) → Contains (names env) x → (join env more).choice x ≡ env.choice x }
    ensures comes { (env more : Env) (x : Var) → IsFree x (names env) → (join env more).choice x ≡ more.choice x }
    ensures picks { (env : Env) (σ : Choice) (vs : List Var) (x : Var) → Contains (new_vars (var_names (names env)) vs) x
        → (widened env σ vs).choice x ≡ σ x }
    ensures terms { (env : Env) (m : Tree) → Within (names env) m → instance (filled env) m ≡ term_under env m }
    ensures longer { (env more : Env) (m : Tree) → Within (names env) m → instance (filled (join env more)) m ≡ term_under env m }
    ensures patterns { (g : Sig) (env : Env) (σ : Choice) (vs : List Var) (m : Tree) → GoodEnv g env → Within (names (widened env σ vs)) m
        → instance (filled (widened env σ vs)) m ≡ instance σ (term_under env m) }
    ensures facts { (g : Sig) (env : Env) (σ : Choice) (vs : List Var) (fs : List Fact) → GoodEnv g env
        → FactsWithin (names (widened env σ vs)) fs
        → instance_facts (filled (widened env σ vs)) fs ≡ instance_facts σ (instance_facts (chosen env) fs) }
    ensures pairs { (g : Sig) (t u m n : Tree) → IsNormalForm (equations g) t m → IsNormalForm (equations g) u n
        → IsNormalForm (equations g) (app2 pair_name t u) (app2 pair_name m n) }
{
    leaves_are_normal();
    equality_is_kept();
    destructors_head_left_sides();
}
