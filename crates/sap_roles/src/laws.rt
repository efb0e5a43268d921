//! Laws of roles, as contracts of functions that do nothing.
ghost use Rattle.std.specs.Prelude.{◌≡◌, ℕ, List, [], ◌∷◌, ◌++◌, Option, None, Some, true, false, map};
ghost use Rattle.sap_process.specs.Proc.{Proc};
ghost use Rattle.sap_macro.specs.Expansion.{expansion};
ghost use Rattle.sap_macro.specs.Indexed.{defined};
ghost use Rattle.sap_macro.specs.Located.{Located, without_numbers};
ghost use Rattle.sap_macro.specs.Order.{AreInOrder, UsesOnly};
ghost use Rattle.sap_origin.specs.Definitions.{LocatedDefinition, plain_definition};
ghost use Rattle.sap_origin.specs.Origins.{start};
ghost use Rattle.sap_origin.specs.Reached.{Reaches, Standing, process_at};
ghost use Rattle.sap_roles.specs.Forms.{HasForm};
ghost use Rattle.sap_roles.specs.RoleExamples.{HasNoRole, HasRole, after_new, alias, answer, copying, deciding, finder, inner, late, main, nested, no_let, often, outer, server, serving, system, systems, tester, two_uses, use_of, with_alias, with_main, with_nothing, with_parameter};
ghost use Rattle.sap_roles.specs.Roles.{IsRoleAt};
ghost use Rattle.sap_roles.specs.PlacesAlong.{acts, begins_threads};

use sap_origin::{expansions_are_meant, one_written_place};

/// A law: where no definition has the name of an earlier one, each uses earlier ones alone, and the process uses these, each place of the
/// expansion has the form of the one written place to which one comes along its path, through uses into bodies, whatever names the file
/// has; and along each path by which one comes to a written place there is a place of the expansion, which has its form.
pub fn places_have_their_forms()
    ensures forms { (ds : List LocatedDefinition) (p : Located) (identifiers : List (List ℕ)) (s : Standing)
        (path : List ℕ) (y : Proc) → AreInOrder [] (map plain_definition ds)
        → UsesOnly (defined (map plain_definition ds)) (without_numbers p)
        → process_at (expansion (map plain_definition ds) identifiers (without_numbers p)).process path
        ≡ Some y → (z : Standing) × (q : Located) × Reaches ds s p path z q × HasForm q y }
    ensures only { (ds : List LocatedDefinition) (p q : Located) (identifiers : List (List ℕ))
        (s z : Standing) (path : List ℕ) → AreInOrder [] (map plain_definition ds)
        → UsesOnly (defined (map plain_definition ds)) (without_numbers p) → Reaches ds s p path z q
        → (y : Proc)
        × (process_at (expansion (map plain_definition ds) identifiers (without_numbers p)).process path
        ≡ Some y) × HasForm q y }
{
    expansions_are_meant();
    one_written_place();
}

/// A law: at each place to which one comes there is one role, or there is none; so at each place of an expansion.
pub fn one_role()
    ensures one { (ds : List LocatedDefinition) (p : Located) (behind : ℕ) (path : List ℕ)
        (a b : Option (List ℕ)) → IsRoleAt ds p behind path a → IsRoleAt ds p behind path b → a
        ≡ b }
    ensures some { (ds : List LocatedDefinition) (p q : Located) (behind : ℕ) (z : Standing) (path : List ℕ)
        → Reaches ds (start behind) p path z q → (role : Option (List ℕ))
        × IsRoleAt ds p behind path role }
    ensures expanded { (ds : List LocatedDefinition) (p : Located) (behind : ℕ) (identifiers : List (List ℕ))
        (path : List ℕ) (y : Proc) → AreInOrder [] (map plain_definition ds)
        → UsesOnly (defined (map plain_definition ds)) (without_numbers p)
        → process_at (expansion (map plain_definition ds) identifiers (without_numbers p)).process path
        ≡ Some y → (role : Option (List ℕ)) × IsRoleAt ds p behind path role }
{
    expansions_are_meant();
    one_written_place();
}

/// A law: roles in small files, and what they aren't. `Server` that goes on as `Answer` stays `Server`, to its end. Of
/// `new ~k; (Server | Answer)` thread 0 is none, then one `Server`, and the other thread `Answer`; of `new ~k; Answer` it becomes it where it
/// first does something in it. `let System = (Server | Answer)` names nobody, nor does a `let` that is `0`, nor a mere other name of a `let`.
/// Behind `|` and `!` a role ends, and begins anew in the `let` in which one still stands. A test and a look-up
/// give it as an action does, and it stays in both branches. Both uses of a `let` with a parameter are of its role; a `let` may be called
/// `main`; without a `let` there is no role; and along a path that leads nowhere there is neither a role nor none.
pub fn roles_by_hand()
    ensures goes_on { HasRole serving (use_of server) [] server
        × HasRole serving (use_of server) (1 ∷ []) server
        × HasRole serving (use_of server) (1 ∷ 1 ∷ []) server }
    ensures no_other { (HasRole serving (use_of server) (1 ∷ []) answer → ⊥)
        × (HasNoRole serving (use_of server) (1 ∷ []) → ⊥)
        × (HasRole serving (use_of server) (1 ∷ 1 ∷ []) answer → ⊥) }
    ensures new_first { HasNoRole serving after_new [] × HasNoRole serving after_new (1 ∷ [])
        × HasRole serving after_new (1 ∷ 1 ∷ []) server
        × HasRole serving after_new (1 ∷ 2 ∷ []) answer }
    ensures later { HasNoRole serving late [] × HasRole serving late (1 ∷ []) answer }
    ensures nobody { HasNoRole systems (use_of system) []
        × HasRole systems (use_of system) (1 ∷ []) server
        × HasRole systems (use_of system) (2 ∷ []) answer }
    ensures no_system { (HasRole systems (use_of system) [] system → ⊥)
        × (HasRole systems (use_of system) (1 ∷ []) system → ⊥)
        × (HasRole systems (use_of system) (2 ∷ []) server → ⊥) }
    ensures copies { HasNoRole serving (often (use_of server)) []
        × HasRole serving (often (use_of server)) (1 ∷ []) server }
    ensures within { HasRole nested (use_of outer) [] outer
        × HasRole nested (use_of outer) (1 ∷ []) outer
        × HasRole nested (use_of outer) (1 ∷ 1 ∷ []) inner
        × HasRole nested (use_of outer) (1 ∷ 2 ∷ []) outer }
    ensures no_caller { (HasRole nested (use_of outer) (1 ∷ 1 ∷ []) outer → ⊥)
        × (HasNoRole nested (use_of outer) (1 ∷ 2 ∷ []) → ⊥) }
    ensures behind_copy { HasRole copying (use_of outer) (1 ∷ []) outer
        × HasRole copying (use_of outer) (1 ∷ 1 ∷ []) inner
        × HasNoRole copying (use_of alias) [] × HasRole copying (use_of alias) (1 ∷ []) alias }
    ensures no_role_behind_copy { HasRole copying (use_of outer) (1 ∷ 1 ∷ []) outer → ⊥ }
    ensures decides { HasRole deciding (use_of tester) [] tester
        × HasRole deciding (use_of tester) (1 ∷ []) tester
        × HasRole deciding (use_of tester) (2 ∷ []) tester
        × HasRole deciding (use_of finder) [] finder
        × HasRole deciding (use_of finder) (1 ∷ []) finder
        × HasRole deciding (use_of finder) (2 ∷ []) finder }
    ensures parameter { HasNoRole with_parameter two_uses []
        × HasRole with_parameter two_uses (1 ∷ []) server
        × HasRole with_parameter two_uses (2 ∷ []) server }
    ensures other_name { HasRole with_alias (use_of alias) [] answer
        × (HasRole with_alias (use_of alias) [] alias → ⊥) }
    ensures main { HasRole with_main (use_of main) [] main
        × HasRole with_main (use_of main) (1 ∷ []) main }
    ensures zero { HasNoRole with_nothing (use_of answer) []
        × (HasRole with_nothing (use_of answer) [] answer → ⊥) }
    ensures no_let { HasNoRole [] no_let [] × HasNoRole [] no_let (1 ∷ [])
        × HasNoRole [] no_let (2 ∷ 1 ∷ []) }
    ensures nowhere { (role : Option (List ℕ)) → IsRoleAt serving (use_of server) 0 (2 ∷ []) role
        → ⊥ }
{}

/// A law: one digit further down a thread keeps its role, where no threads begin at the place above; and it has none where some begin there,
/// or where it had none, and nothing is done at the place below.
pub fn roles_go_down()
    ensures stays { (ds : List LocatedDefinition) (p : Located) (behind : ℕ) (path : List ℕ) (e : ℕ)
        (a b : Option (List ℕ)) (h : IsRoleAt ds p behind path a)
        → IsRoleAt ds p behind (path ++ e ∷ []) b → begins_threads h.place ≡ false → (f : List ℕ)
        → a ≡ Some f → b ≡ Some f }
    ensures ends { (ds : List LocatedDefinition) (p : Located) (behind : ℕ) (path : List ℕ) (e : ℕ)
        (a b : Option (List ℕ)) (h : IsRoleAt ds p behind path a)
        (g : IsRoleAt ds p behind (path ++ e ∷ []) b) → begins_threads h.place ≡ true
        → acts g.place ≡ false → b ≡ None }
    ensures none_yet { (ds : List LocatedDefinition) (p : Located) (behind : ℕ) (path : List ℕ) (e : ℕ)
        (b : Option (List ℕ)) → IsRoleAt ds p behind path None
        → (g : IsRoleAt ds p behind (path ++ e ∷ []) b) → acts g.place ≡ false → b ≡ None }
{}
