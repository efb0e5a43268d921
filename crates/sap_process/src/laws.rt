// Laws of the definitions, as contracts of functions that do nothing.
ghost use Rattle.std.specs.List.{AllZip};
ghost use Rattle.std.specs.Prelude.{◌≡◌, ◌⊎◌, ℕ, Bool, true, false, codes, List, [], ◌∷◌, Option, Some, None, Contains, map, slice_get, ◌<◌};
ghost use Rattle.sap_terms.specs.AdversaryFacts.{k_fact};
ghost use Rattle.sap_terms.specs.Choice.{Choice, instance};
ghost use Rattle.sap_terms.specs.Equal.{IsTheoryEqual};
ghost use Rattle.sap_terms.specs.Equations.{equations};
ghost use Rattle.sap_terms.specs.Ground.{IsGround};
ghost use Rattle.sap_terms.specs.Message.{IsMessage};
ghost use Rattle.sap_terms.specs.Signature.{Sig, HoldsBuiltins, pairs_alone};
ghost use Rattle.sap_terms.specs.Subst.{bound_to};
ghost use Rattle.sap_terms.specs.Trace.{Trace};
ghost use Rattle.sap_terms.specs.Tree.{Tree, variable, fresh};
ghost use Rattle.sap_terms.specs.View.{tree};
ghost use Rattle.sap_terms.specs.declared.binding.Binding.{Binding};
ghost use Rattle.sap_terms.specs.declared.fact.Fact.{Fact};
ghost use Rattle.sap_terms.specs.declared.var.Sort.{Sort};
ghost use Rattle.sap_terms.specs.declared.var.Sort.TheVariants.{Msg};
ghost use Rattle.sap_terms.specs.declared.var.Var.{Var};
ghost use Rattle.sap_process.specs.Action.{new, out, send, input, receive, insert, delete, lock, unlock, embedded};
ghost use Rattle.sap_process.specs.Configuration.{Config, CanGive, initial, stored, marked};
ghost use Rattle.sap_process.specs.GroundProcess.{IsGroundProcess, IsGroundConfig, HoldsMessages};
ghost use Rattle.sap_process.specs.Instance.{process_instance, process_vars};
ghost use Rattle.sap_process.specs.Flaws.{IsFirstFlaw, IsFirstFlawIn, IsWellFormed, IsWellFormedIn};
ghost use Rattle.sap_process.specs.declared.flaw.Flaw.{Flaw};
ghost use Rattle.sap_process.specs.Proc.{Proc, nil, parallel, replicated, act, test, lookup};
ghost use Rattle.sap_process.specs.ProcessSteps.{ProcessStep, ProcessRun, IsProcessTrace, with_choice};
ghost use Rattle.sap_process.specs.Places.{place_at, IsBefore};
ghost use Rattle.sap_process.specs.Ready.{IsReady};
ghost use Rattle.sap_process.specs.Sites.{Site, above_of, scope_below, sites};
ghost use Rattle.sap_process.specs.Sorted.{with_sorts};
ghost use Rattle.sap_process.specs.StepExamples.{a, b, c, x, var_x, pair, first_of_pair, shown_fact, left_fact, right_fact, showing, running, alone, only, just, input_shown, fresh_x, adding_public, taking_twice, new_shown, inputting, sending, receiving, ruling, lasting_fact, taking_lasting, using_left, used_twice, lasting_used_twice};

use crate::places::{ScopeBelow, places_are_by_path};
use sap_rewrite::{forms_are_messages, normal_forms_are_unique};

/// A law: a small step of each kind, from one configuration to the next. Where `fst(<'a','b'>)` is written, 'a' is sent, shown,
/// looked up, held or the key of the store; what an input or an embedded rule binds is put into the process that goes on; a new
/// name is one that neither processes nor the adversary have; 'a' and 'b' differ under each theory; a term is unlocked whether it
/// is held or not; and a rule takes one persistent fact as often as it likes.
pub fn steps_by_hand()
    ensures ends { (g : Sig) → ProcessStep g (alone nil) [] (running (None ∷ [])) }
    ensures splits { (g : Sig) → ProcessStep g (alone (parallel (showing a) (showing b))) [] (running (Some (showing a) ∷ Some (showing b) ∷ [])) }
    ensures copies { (g : Sig) → ProcessStep g (alone (replicated (showing a))) []
        (running (Some (replicated (showing a)) ∷ Some (showing a) ∷ [])) }
    ensures makes_name { (g : Sig) → ProcessStep g (record (alone (act (new x) (showing var_x))) { made = 4 ∷ []; own = 3 ∷ [] }) []
        (record (alone (showing (fresh 5))) { made = 4 ∷ 5 ∷ []; own = 3 ∷ [] }) }
    ensures outputs { (g : Sig) → ProcessStep g (alone (act (out first_of_pair) (showing b))) []
        (record (alone (showing b)) { frame = a ∷ [] }) }
    ensures outputs_on { (g : Sig) → ProcessStep g (alone (act (send c first_of_pair) (showing b))) (k_fact c ∷ [])
        (record (alone (showing b)) { frame = a ∷ [] }) }
    ensures inputs { ProcessStep pairs_alone (alone (act (input (pair var_x b)) (showing var_x))) (k_fact (pair a b) ∷ [])
        (alone (showing a)) }
    ensures inputs_on { ProcessStep pairs_alone (alone (act (receive c var_x) (showing var_x))) (k_fact (pair c a) ∷ [])
        (alone (showing a)) }
    ensures meets { (g : Sig) → ProcessStep g
        (record (running (Some (act (send (fresh 4) a) (showing b)) ∷ Some (act (receive (fresh 4) var_x) (showing var_x)) ∷ [])) { made = 4 ∷ [] })
        [] (record (running (Some (showing b) ∷ Some (showing a) ∷ [])) { made = 4 ∷ [] }) }
    ensures agrees { (g : Sig) → ProcessStep g (alone (test first_of_pair a (showing a) (showing b))) [] (alone (showing a)) }
    ensures differs { (g : Sig) → ProcessStep g (alone (test a b (showing a) (showing b))) [] (alone (showing b)) }
    ensures shows { (g : Sig) → ProcessStep g (alone (showing first_of_pair)) (shown_fact a ∷ []) (alone nil) }
    ensures inserts { (g : Sig) → ProcessStep g (alone (act (insert first_of_pair b) (showing a))) []
        (record (alone (showing a)) { store = only a b }) }
    ensures deletes { (g : Sig) → ProcessStep g (record (alone (act (delete first_of_pair) (showing a))) { store = only a b }) []
        (alone (showing a)) }
    ensures finds { (g : Sig) → ProcessStep g (record (alone (lookup first_of_pair x (showing var_x) (showing a))) { store = only a b }) []
        (record (alone (showing b)) { store = only a b }) }
    ensures misses { (g : Sig) → ProcessStep g (record (alone (lookup b x (showing var_x) (showing a))) { store = only a b }) []
        (record (alone (showing a)) { store = only a b }) }
    ensures locks { (g : Sig) → ProcessStep g (alone (act (lock first_of_pair 0) (showing b))) []
        (record (alone (showing b)) { held = just a }) }
    ensures unlocks { (g : Sig) → ProcessStep g (record (alone (act (unlock first_of_pair 0) (showing b))) { held = just a }) []
        (alone (showing b)) }
    ensures unlocks_free { (g : Sig) → ProcessStep g (alone (act (unlock a 0) (showing b))) [] (alone (showing b)) }
    ensures embeds { (g : Sig) → ProcessStep g
        (record (alone (act (embedded (left_fact var_x ∷ []) (shown_fact var_x ∷ []) (right_fact var_x ∷ [])) (showing var_x))) { facts = Some (left_fact a) ∷ [] })
        (shown_fact a ∷ []) (record (alone (showing a)) { facts = None ∷ Some (right_fact a) ∷ [] }) }
    ensures embeds_lasting { (g : Sig) → ProcessStep g (record (alone taking_lasting) { facts = Some (lasting_fact a) ∷ [] }) []
        (record (alone (showing a)) { facts = Some (lasting_fact a) ∷ [] }) }
    ensures adversary_makes { (g : Sig) → ProcessStep g (record (alone nil) { made = 4 ∷ []; own = 3 ∷ [] }) []
        (record (alone nil) { made = 4 ∷ []; own = 3 ∷ 5 ∷ [] }) }
    ensures knows { (g : Sig) → ProcessStep g (record (alone nil) { made = 4 ∷ []; frame = fresh 4 ∷ [] }) (k_fact (fresh 4) ∷ [])
        (record (alone nil) { made = 4 ∷ []; frame = fresh 4 ∷ [] }) }
{}

/// A law: steps that are not there. No lock takes a held term; a lookup finds what the store has at the key alone, and misses
/// only where it has nothing there; a test goes on by its first branch only where the terms are equal, and by its second only
/// where they differ; `new` makes no name that is there; one linear fact isn't taken twice; no message goes over two channels
/// that differ; an input takes no name that was never sent; `~x` takes no public name; and `$x` on a rule's right side takes no
/// fresh name.
pub fn no_steps_by_hand()
    ensures locks { (g : Sig) (held : Tree → Bool) (d : Config) (label : List Fact) → held a ≡ true
        → ProcessStep g (record (alone (act (lock a 0) (showing b))) { held = held }) label d
        → d.threads ≡ Some (act (lock a 0) (showing b)) ∷ [] }
    ensures finds { (g : Sig) (store : Tree → Option Tree) (d : Config) (label : List Fact) (v : Tree)
        → ProcessStep g (record (alone (lookup a x (showing var_x) nil)) { store = store }) label d
        → d.threads ≡ Some (showing v) ∷ [] → store a ≡ Some v }
    ensures misses { (g : Sig) (store : Tree → Option Tree) (d : Config) (label : List Fact)
        → ProcessStep g (record (alone (lookup a x (showing var_x) nil)) { store = store }) label d
        → d.threads ≡ Some nil ∷ [] → store a ≡ None }
    ensures agrees { (g : Sig) (m n : Tree) (d : Config) (label : List Fact)
        → ProcessStep g (alone (test m n (showing a) (showing b))) label d
        → d.threads ≡ Some (showing a) ∷ [] → IsTheoryEqual (equations g) m n }
    ensures differs { (g : Sig) (m n : Tree) (d : Config) (label : List Fact)
        → ProcessStep g (alone (test m n (showing a) (showing b))) label d
        → d.threads ≡ Some (showing b) ∷ [] → ¬ IsTheoryEqual (equations g) m n }
    ensures makes_name { (g : Sig) (made own : List ℕ) (d : Config) (label : List Fact) (n : ℕ)
        → ProcessStep g (record (alone new_shown) { made = made; own = own }) label d
        → d.threads ≡ Some (showing (fresh n)) ∷ [] → (¬ Contains made n) × (¬ Contains own n) }
    ensures embeds { (g : Sig) (d : Config) (label : List Fact)
        → ProcessStep g (record (alone taking_twice) { facts = Some (left_fact a) ∷ [] }) label d
        → d.threads ≡ Some taking_twice ∷ [] }
    ensures meets { (g : Sig) (d : Config) (label : List Fact)
        → ProcessStep g (running (Some (sending (fresh 4) a) ∷ Some (receiving (fresh 5) Msg) ∷ [])) label d
        → ¬ (d.threads ≡ Some (showing b) ∷ Some (showing a) ∷ []) }
    ensures inputs { (g : Sig) (d : Config) (label : List Fact)
        → ProcessStep g (record (alone input_shown) { made = 4 ∷ [] }) label d → ¬ (d.threads ≡ Some (showing (fresh 4)) ∷ []) }
    ensures inputs_fresh { (g : Sig) (d : Config) (label : List Fact)
        → ProcessStep g (alone (act (input (variable fresh_x)) (showing (variable fresh_x)))) label d
        → ¬ (d.threads ≡ Some (showing a) ∷ []) }
    ensures embeds_public { (g : Sig) (d : Config) (label : List Fact) (n : ℕ)
        → ProcessStep g (alone adding_public) label d → ¬ (d.threads ≡ Some (showing (fresh n)) ∷ []) }
{
    normal_forms_are_unique();
}

/// A law: where a small process goes on, this is what happened, and nothing else. What is sent, shown, stored, looked up and
/// held is the normal form alone, which of `fst(<'a','b'>)` is 'a'. A message goes to the adversary on a channel that it can
/// give, and comes from it where it can give the message; what is bound is a message of the variable's sort. Two threads
/// exchange a message that is equal to what is bound, on channels that are equal. An embedded rule takes a fact of its name
/// and its persistence, with equal arguments. A name that the adversary makes is new; and what it shows is normal, and no name
/// that was never sent.
pub fn exact_steps_by_hand()
    ensures outputs { (g : Sig) (d : Config) (label : List Fact) → ProcessStep g (alone (act (out first_of_pair) (showing b))) label d
        → d.threads ≡ Some (showing b) ∷ [] → (label ≡ []) × (d.frame ≡ a ∷ []) }
    ensures outputs_on { (g : Sig) (d : Config) (label : List Fact) → ProcessStep g (alone (sending c first_of_pair)) label d
        → d.threads ≡ Some (showing b) ∷ [] → (label ≡ k_fact c ∷ []) × (d.frame ≡ a ∷ []) }
    ensures outputs_on_secret { (g : Sig) (d : Config) (label : List Fact)
        → ProcessStep g (record (alone (sending (fresh 4) a)) { made = 4 ∷ [] }) label d
        → d.threads ≡ Some (sending (fresh 4) a) ∷ [] }
    ensures inputs { (g : Sig) (s : Sort) (v : Tree) (d : Config) (label : List Fact) → ProcessStep g (alone (inputting s)) label d
        → d.threads ≡ Some (showing v) ∷ []
        → (label ≡ k_fact v ∷ []) × CanGive g (alone (inputting s)) v × IsMessage g s v }
    ensures inputs_on { (g : Sig) (s : Sort) (v : Tree) (d : Config) (label : List Fact) → ProcessStep g (alone (receiving c s)) label d
        → d.threads ≡ Some (showing v) ∷ []
        → (label ≡ k_fact (pair c v) ∷ []) × CanGive g (alone (receiving c s)) (pair c v) × IsMessage g s v }
    ensures meets { (g : Sig) (m n l v : Tree) (s : Sort) (d : Config) (label : List Fact)
        → ProcessStep g (running (Some (sending m n) ∷ Some (receiving l s) ∷ [])) label d
        → d.threads ≡ Some (showing b) ∷ Some (showing v) ∷ []
        → IsTheoryEqual (equations g) m l × IsTheoryEqual (equations g) v n × IsMessage g s v }
    ensures shows { (g : Sig) (d : Config) (label : List Fact) → ProcessStep g (alone (showing first_of_pair)) label d
        → d.threads ≡ Some nil ∷ [] → label ≡ shown_fact a ∷ [] }
    ensures inserts { (g : Sig) (d : Config) (label : List Fact)
        → ProcessStep g (alone (act (insert first_of_pair first_of_pair) (showing b))) label d
        → d.threads ≡ Some (showing b) ∷ [] → d.store ≡ only a a }
    ensures deletes { (g : Sig) (store : Tree → Option Tree) (d : Config) (label : List Fact)
        → ProcessStep g (record (alone (act (delete first_of_pair) (showing b))) { store = store }) label d
        → d.threads ≡ Some (showing b) ∷ [] → d.store ≡ stored store a None }
    ensures locks { (g : Sig) (held : Tree → Bool) (d : Config) (label : List Fact)
        → ProcessStep g (record (alone (act (lock first_of_pair 0) (showing b))) { held = held }) label d
        → d.threads ≡ Some (showing b) ∷ [] → (held a ≡ false) × (d.held ≡ marked held a true) }
    ensures unlocks { (g : Sig) (held : Tree → Bool) (d : Config) (label : List Fact)
        → ProcessStep g (record (alone (act (unlock first_of_pair 0) (showing b))) { held = held }) label d
        → d.threads ≡ Some (showing b) ∷ [] → d.held ≡ marked held a false }
    ensures embeds { (g : Sig) (f : Fact) (d : Config) (label : List Fact)
        → ProcessStep g (record (alone ruling) { facts = Some f ∷ [] }) label d → d.threads ≡ Some (showing b) ∷ []
        → (f.name ≡ codes "L") × (f.persistent ≡ false) × AllZip (IsTheoryEqual (equations g)) (a ∷ []) f.args
        × (label ≡ shown_fact a ∷ []) × (d.facts ≡ None ∷ Some (right_fact a) ∷ []) }
    ensures adversary_makes { (g : Sig) (made : List ℕ) (n : ℕ) (d : Config) (label : List Fact)
        → ProcessStep g (record (alone nil) { made = made; own = 3 ∷ [] }) label d → d.own ≡ 3 ∷ n ∷ []
        → (¬ Contains made n) × (¬ (n ≡ 3)) }
    ensures knows { (g : Sig) (t : Tree) (d : Config) (label : List Fact)
        → ProcessStep g (record (alone nil) { made = 4 ∷ [] }) label d → label ≡ k_fact t ∷ []
        → (¬ (t ≡ fresh 4)) × (¬ (t ≡ first_of_pair)) }
{
    normal_forms_are_unique();
}

/// A law: traces that are not there. `0` shows no event; and no trace of `new x; event A(x)` shows both a name and that the
/// adversary knows it.
pub fn no_traces_by_hand()
    ensures nothing { (g : Sig) → ¬ IsProcessTrace g nil ((shown_fact a ∷ []) ∷ []) }
    ensures secret { (g : Sig) (tr : Trace) (t : Tree) → IsProcessTrace g new_shown tr → Contains tr (shown_fact t ∷ [])
        → ¬ Contains tr (k_fact t ∷ []) }
{
    normal_forms_are_unique();
}

/// A law: traces of processes with embedded rules. A fact that was never added isn't used: no trace of `[L('a')] --[A('b')]-> []` shows
/// `A('b')`. A linear fact that was added once is used once: behind `[] --> [L('a')]` the first rule that takes it shows `A('a')`, and
/// no second one shows `A('b')`; of a persistent fact both do.
pub fn rule_traces_by_hand()
    ensures never_added { (g : Sig) (tr : Trace) → IsProcessTrace g (using_left b nil) tr → ¬ Contains tr (shown_fact b ∷ []) }
    ensures once { (g : Sig) → IsProcessTrace g used_twice ((shown_fact a ∷ []) ∷ []) }
    ensures not_twice { (g : Sig) (tr : Trace) → IsProcessTrace g used_twice tr → ¬ Contains tr (shown_fact b ∷ []) }
    ensures lasting { (g : Sig) → IsProcessTrace g lasting_used_twice ((shown_fact a ∷ []) ∷ (shown_fact b ∷ []) ∷ []) }
{
    normal_forms_are_unique();
}

/// A law: the process `in(x); event A(x)` has the trace `K('a')`, `A('a')`.
pub fn traces_by_hand()
    ensures { (g : Sig) → IsProcessTrace g input_shown ((k_fact a ∷ []) ∷ (shown_fact a ∷ []) ∷ []) }
{}

/// A law: the instance of a process under the choice that leaves each variable as it is, is the process; two choices that
/// agree on each variable that occurs in it give one instance; and an instance of an instance is one instance, where the first choice has a
/// ground term for each variable that it doesn't leave as it is, so that the process binds nothing of what is put in.
pub fn instances_of_processes()
    ensures unchanged { (p : Proc) → process_instance (λ v. variable v) p ≡ p }
    ensures agreeing { (p : Proc) (s t : Choice) → ((v : Var) → Contains (process_vars p) v → s v ≡ t v)
        → process_instance s p ≡ process_instance t p }
    ensures twice { (p : Proc) (s t : Choice) → ((v : Var) → IsGround (s v) ⊎ (s v ≡ variable v))
        → process_instance t (process_instance s p) ≡ process_instance (λ v. instance t (s v)) p }
{}

/// A law: what a step puts into a process is the instance under bindings of the variables to what the choice says of them.
pub fn choices_are_bindings()
    ensures { (s : Choice) (b : List Binding) → ((e : Binding) → Contains b e → tree e.term ≡ s e.var) → (p : Proc)
        → with_choice s (map (λ (e : Binding). e.var) b) p ≡ process_instance (bound_to b) p }
{}

/// A law: the list of places has each place that a path leads to, with its path and with what is handed down on the way there, and
/// nothing else, in preorder; so it has each place once. This is `places_are_by_path` at `scope_below`, and holds of whatever is
/// handed down: that this is what is bound above and how many locks are set there is said by `places_by_hand`, of one process, and
/// by `flaws_by_hand`.
pub fn sites_are_the_places()
    ensures at_path { (p : Proc) (s : Site) → Contains (sites p) s → place_at scope_below (above_of [] 0) p s.path ≡ Some s }
    ensures listed { (p : Proc) (path : List ℕ) (s : Site) → place_at scope_below (above_of [] 0) p path ≡ Some s
        → Contains (sites p) s × (s.path ≡ path) }
    ensures in_order { (p : Proc) (i j : ℕ) (s t : Site) → i < j → slice_get (sites p) i ≡ Some s → slice_get (sites p) j ≡ Some t
        → IsBefore s.path t.path }
{
    places_are_by_path::<ScopeBelow>();
}

/// A law: a well-formed process is ground. In each configuration that a run of it leads to, over a signature that holds its
/// builtins' symbols, each running process is ground, and what was sent, what the store has and the facts hold messages;
/// what a further step shows holds messages too.
pub fn runs_stay_ground()
    ensures ground { (g : Sig) (p : Proc) → IsWellFormed g p → IsGroundProcess p }
    ensures runs { (g : Sig) (p : Proc) (c : Config) (tr : Trace) → HoldsBuiltins g → IsWellFormed g p → ProcessRun g (initial p) c tr
        → IsGroundConfig g c }
    ensures labels { (g : Sig) (p : Proc) (c d : Config) (tr : Trace) (label : List Fact) → HoldsBuiltins g → IsWellFormed g p
        → ProcessRun g (initial p) c tr → ProcessStep g c label d → (f : Fact) → Contains label f → HoldsMessages g f }
{
    forms_are_messages();
    normal_forms_are_unique();
}

/// A law: sorting a sorted process changes nothing, and a well-formed process is well-formed with its sorts too.
pub fn sorting_keeps()
    ensures once { (p : Proc) → with_sorts [] (with_sorts [] p) ≡ with_sorts [] p }
    ensures well { (g : Sig) (p : Proc) → IsWellFormed g p → IsReady g (with_sorts [] p) }
{}

/// A law: each process is well-formed, or has a flaw that counts.
pub fn some_flaw()
    ensures { (g : Sig) (p : Proc) → IsWellFormed g p ⊎ ((w : Flaw) × (path : List ℕ) × IsFirstFlaw g p w path) }
{}

/// A law: of a process that isn't well-formed one flaw counts, at one place; so it is whatever is in scope at its root.
pub fn one_flaw()
    ensures flaw { (g : Sig) (p : Proc) (w v : Flaw) (path other : List ℕ) → IsFirstFlaw g p w path → IsFirstFlaw g p v other
        → (w ≡ v) × (path ≡ other) }
    ensures none { (g : Sig) (p : Proc) (w : Flaw) (path : List ℕ) → IsFirstFlaw g p w path → IsWellFormed g p → ⊥ }
    ensures flaw_in { (g : Sig) (scope : List Var) (p : Proc) (w v : Flaw) (path other : List ℕ) → IsFirstFlawIn g scope p w path
        → IsFirstFlawIn g scope p v other → (w ≡ v) × (path ≡ other) }
    ensures none_in { (g : Sig) (scope : List Var) (p : Proc) (w : Flaw) (path : List ℕ) → IsFirstFlawIn g scope p w path
        → IsWellFormedIn g scope p → ⊥ }
{}
