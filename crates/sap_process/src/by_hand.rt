// Flaws, scopes and instances of small processes, as laws.
ghost use Rattle.std.specs.Prelude.{◌≡◌, [], ◌∷◌, Some, None};
ghost use Rattle.sap_terms.specs.Tree.{variable};
ghost use Rattle.sap_terms.specs.declared.var.Sort.TheVariants.{Msg, Pub};
ghost use Rattle.sap_process.specs.FlawExamples.{AreFlawed, AreWellFormed, flawed_ones, near_misses, later_but_first, twice_flawed, giving, naming, taking};
ghost use Rattle.sap_process.specs.Instance.{process_instance};
ghost use Rattle.sap_process.specs.Proc.{nil, lookup};
ghost use Rattle.sap_process.specs.ScopeExamples.{open_at, known_at, y_of, z_of, seventh_lock, two_locks, locked_again, binding, worked, worked_spots, worked_sites, x_is, everywhere};
ghost use Rattle.sap_process.specs.Scopes.{lock_var, spots};
ghost use Rattle.sap_process.specs.Sites.{sites};
ghost use Rattle.sap_process.specs.StepExamples.{a, x, var_x, fresh_x, pair};
ghost use Rattle.sap_process.specs.declared.flaw.Flaw.{Flaw};
ghost use Rattle.sap_process.specs.declared.flaw.Flaw.TheVariants.{Unbound};

/// A law: of small processes with each flaw, it counts, at its path; near misses have no flaw; each flaw counts before the
/// next one, which stands further up or to the left; and of several places with one flaw the first in preorder counts.
pub fn flaws_by_hand()
    ensures flawed { (w : Flaw) → AreFlawed w (flawed_ones w) }
    ensures near { (w : Flaw) → AreWellFormed (near_misses w) }
    ensures order { (w : Flaw) → AreFlawed w (later_but_first w) }
    ensures first_place { AreFlawed Unbound twice_flawed }
{}

/// A law: the locks that are open at places of small processes, the outermost first: beneath a parallel and a replication
/// they stay open, and an unlock ends the one with its label, and no other. And the variables in scope, in order of binding:
/// a lock has one, a lookup binds in its first branch alone, a plain variable, and a pattern binds what isn't in scope.
pub fn scopes_by_hand()
    ensures none { open_at two_locks [] ≡ Some [] }
    ensures one { open_at two_locks (1 ∷ []) ≡ Some (1 ∷ []) }
    ensures outermost_first { open_at two_locks (1 ∷ 1 ∷ []) ≡ Some (1 ∷ 2 ∷ []) }
    ensures before_unlock { open_at two_locks (1 ∷ 1 ∷ 1 ∷ []) ≡ Some (1 ∷ 2 ∷ []) }
    ensures outer_ended { open_at two_locks (1 ∷ 1 ∷ 1 ∷ 1 ∷ []) ≡ Some (2 ∷ []) }
    ensures beside { open_at two_locks (1 ∷ 1 ∷ 2 ∷ []) ≡ Some (1 ∷ 2 ∷ []) }
    ensures replicated { open_at two_locks (1 ∷ 1 ∷ 2 ∷ 1 ∷ 1 ∷ []) ≡ Some (1 ∷ 2 ∷ 3 ∷ []) }
    ensures no_place { open_at two_locks (2 ∷ []) ≡ None }
    ensures ended { open_at locked_again (1 ∷ 1 ∷ []) ≡ Some [] }
    ensures not_by_label { open_at locked_again (1 ∷ 1 ∷ 1 ∷ 1 ∷ []) ≡ Some (3 ∷ 2 ∷ []) }
    ensures inner_ended { open_at locked_again (1 ∷ 1 ∷ 1 ∷ 1 ∷ 1 ∷ []) ≡ Some (3 ∷ []) }
    ensures other_label { open_at locked_again (1 ∷ 1 ∷ 1 ∷ 1 ∷ 1 ∷ 1 ∷ []) ≡ Some (3 ∷ []) }
    ensures named { known_at binding (1 ∷ []) ≡ Some (fresh_x ∷ []) }
    ensures locked { known_at binding (1 ∷ 1 ∷ []) ≡ Some (fresh_x ∷ seventh_lock ∷ []) }
    ensures found { known_at binding (1 ∷ 1 ∷ 1 ∷ []) ≡ Some (fresh_x ∷ seventh_lock ∷ y_of Msg ∷ []) }
    ensures taken { known_at binding (1 ∷ 1 ∷ 1 ∷ 1 ∷ []) ≡ Some (fresh_x ∷ seventh_lock ∷ y_of Msg ∷ z_of Msg ∷ []) }
    ensures missing { known_at binding (1 ∷ 1 ∷ 2 ∷ []) ≡ Some (fresh_x ∷ seventh_lock ∷ []) }
    ensures by_rule { known_at binding (1 ∷ 1 ∷ 2 ∷ 1 ∷ []) ≡ Some (fresh_x ∷ seventh_lock ∷ z_of Pub ∷ []) }
{}

/// A law: all places of a process with `new`, a lock, an `if`, a look-up, an embedded rule, a pattern and an unlock, in preorder,
/// each with its path, what is in scope and which locks are open there; and, as flaws see them, with what is bound above and how many
/// locks are set there. No look-up binds in its second branch, nothing that one branch binds is in scope in another, and no place
/// stands where no path leads.
pub fn places_by_hand()
    ensures scopes { spots worked ≡ worked_spots }
    ensures counted { sites worked ≡ worked_sites }
    ensures not_in_other_branch { ¬ (known_at worked (1 ∷ 1 ∷ 2 ∷ []) ≡ Some (fresh_x ∷ lock_var 7 ∷ y_of Msg ∷ [])) }
    ensures not_in_second_branch { ¬ (known_at worked (1 ∷ 1 ∷ 1 ∷ 2 ∷ []) ≡ Some (fresh_x ∷ lock_var 7 ∷ y_of Msg ∷ [])) }
    ensures not_open_behind { ¬ (open_at worked (1 ∷ 1 ∷ 2 ∷ 1 ∷ 1 ∷ []) ≡ Some (7 ∷ [])) }
    ensures no_third_child { known_at worked (1 ∷ 1 ∷ 3 ∷ []) ≡ None }
    ensures none_below { known_at worked (1 ∷ 1 ∷ 1 ∷ 1 ∷ 1 ∷ 1 ∷ []) ≡ None }
{}

/// A law: small processes with 'a' for x. It is put into terms and patterns, and not below a `new x`, of whatever sort, nor into
/// the first branch of a lookup of x; but into that lookup's key and its second branch, and below binders of other names.
pub fn instances_by_hand()
    ensures outputs { process_instance (x_is a) (giving (pair var_x (variable (y_of Msg))) nil) ≡ giving (pair a (variable (y_of Msg))) nil }
    ensures inputs { process_instance (x_is a) (taking var_x (giving var_x nil)) ≡ taking a (giving a nil) }
    ensures named { process_instance (x_is a) (giving var_x (naming x (giving var_x nil))) ≡ giving a (naming x (giving var_x nil)) }
    ensures by_name { process_instance (x_is a) (naming fresh_x (giving var_x nil)) ≡ naming fresh_x (giving var_x nil) }
    ensures other_name { process_instance (x_is a) (naming (y_of Msg) (giving var_x nil)) ≡ naming (y_of Msg) (giving a nil) }
    ensures looks_up { process_instance (x_is a) (lookup var_x x (giving var_x nil) (giving var_x nil))
        ≡ lookup a x (giving var_x nil) (giving a nil) }
    ensures looks_up_other { process_instance (x_is a) (lookup var_x (y_of Msg) (giving var_x nil) (giving var_x nil))
        ≡ lookup a (y_of Msg) (giving a nil) (giving a nil) }
    ensures everywhere { process_instance (x_is a) (everywhere var_x) ≡ everywhere a }
{}
