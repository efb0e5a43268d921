//! Laws of the definitions, as contracts of functions that do nothing.
ghost use Rattle.std.specs.Prelude.{◌≡◌, ◌≤◌, ◌<◌, ◌↔◌, ◌+◌, ◌^◌, ℕ, false, List, [], Contains, length, map};
ghost use Rattle.sap_terms.specs.Choice.{Choice, instance};
ghost use Rattle.sap_terms.specs.Ground.{AreGround};
ghost use Rattle.sap_terms.specs.Signature.{Sig};
ghost use Rattle.sap_terms.specs.Trace.{Trace};
ghost use Rattle.sap_terms.specs.Tree.{Tree, trees_of};
ghost use Rattle.sap_terms.specs.Variables.{is_known};
ghost use Rattle.sap_terms.specs.declared.fact.Fact.{Fact};
ghost use Rattle.sap_process.specs.Configuration.{Config, initial};
ghost use Rattle.sap_process.specs.Instance.{process_instance};
ghost use Rattle.sap_process.specs.Proc.{Proc, level_count, node_count};
ghost use Rattle.sap_process.specs.ProcessSteps.{ProcessStep, ProcessRun, IsProcessTrace};
ghost use Rattle.sap_macro.specs.AlikeConfigurations.{AreAlikeConfigs};
ghost use Rattle.sap_macro.specs.Expansion.{meaning_of, entered, expanded, expansion, plain, plain_after, plain_bodies, unchanged, same_name, where_none, with_plain_body};
ghost use Rattle.sap_macro.specs.Indexed.{defined};
ghost use Rattle.sap_macro.specs.Located.{without_numbers};
ghost use Rattle.sap_macro.specs.Instances.{instance_by, IsClosed, AreClosedAmong, Keeps, AreTaken};
ghost use Rattle.sap_macro.specs.NewNames.{IsNewName, candidate, new_name};
ghost use Rattle.sap_macro.specs.Order.{AreInOrder, UsesOnly, with_parameters};
ghost use Rattle.sap_macro.specs.Replaced.{AreWithoutParameters, nothing_stands, process_of};
ghost use Rattle.sap_macro.specs.Seen.{seen};
ghost use Rattle.sap_macro.specs.Sources.{written, located};
ghost use Rattle.sap_macro.specs.UpToNames.{Pair, lefts, rights, AreAlike, AreSameUpToNames};
ghost use Rattle.sap_macro.specs.UsesAreInstances.{UsesAreInstances};
ghost use Rattle.sap_macro.specs.Written.{Written, call, Definition};
ghost use Rattle.sap_macro.specs.declared.source.Source.{Source};

use sap_rewrite::{equality_is_kept, normal_forms_are_unique};

/// A law: equal up to names is symmetric and transitive. Where names are bound above, their pairs have other sides, or go through a
/// third: the right names of the first pairs are the left ones of the second, and the outer ones are what both come to. It isn't
/// reflexive: a name that nothing binds is equal to nothing (`equal_up_to_names_by_hand`).
pub fn same_up_to_names_is_symmetric_and_transitive()
    ensures other_side { (ρ ξ : List Pair) (p q : Proc) → lefts ξ ≡ rights ρ → rights ξ ≡ lefts ρ → AreAlike ρ p q → AreAlike ξ q p }
    ensures third { (ρ ξ ζ : List Pair) (p q r : Proc) → rights ρ ≡ lefts ξ → lefts ζ ≡ lefts ρ → rights ζ ≡ rights ξ
        → AreAlike ρ p q → AreAlike ξ q r → AreAlike ζ p r }
    ensures symmetric { (p q : Proc) → AreSameUpToNames p q → AreSameUpToNames q p }
    ensures transitive { (p q r : Proc) → AreSameUpToNames p q → AreSameUpToNames q r → AreSameUpToNames p r }
{}

/// A law: configurations whose threads are equal up to names, one by one, and which are else one, show the same from there on, where the
/// store is ground; whatever was made, is stored, known and held, and is left of facts. Each step and each run from the one has its like
/// from the other, and both lead to such configurations again. They are alike from both sides. Processes that are equal up to names
/// begin in such configurations. Where the store isn't ground it fails (`alike_configurations_by_hand`).
pub fn alike_configurations_show_the_same()
    ensures steps { (g : Sig) (c d e : Config) (label : List Fact) → AreAlikeConfigs c d → ProcessStep g c label e
        → (f : Config) × AreAlikeConfigs e f × ProcessStep g d label f }
    ensures runs { (g : Sig) (c d e : Config) (tr : Trace) → AreAlikeConfigs c d → ProcessRun g c e tr
        → (f : Config) × AreAlikeConfigs e f × ProcessRun g d f tr }
    ensures other_side { (c d : Config) → AreAlikeConfigs c d → AreAlikeConfigs d c }
    ensures starts { (p q : Proc) → AreSameUpToNames p q → AreAlikeConfigs (initial p) (initial q) }
{
    equality_is_kept();
    normal_forms_are_unique();
}

/// A law: of processes that are equal up to names each trace of the one is one of the other.
pub fn same_up_to_names_show_the_same()
    ensures { (g : Sig) (p q : Proc) (tr : Trace) → AreSameUpToNames p q → IsProcessTrace g p tr ↔ IsProcessTrace g q tr }
{
    alike_configurations_show_the_same();
}

/// A law: a new name is the first candidate that isn't taken, where fewer than 2^64 - 1 names are taken. However many these are, it
/// is none of them.
pub fn new_names_are_least()
    ensures least { (taken : List (List ℕ)) (x : List ℕ) → length taken + 2 ≤ 2 ^ 64 → IsNewName taken x (new_name taken x) }
    ensures free { (taken : List (List ℕ)) (x : List ℕ) → is_known taken (new_name taken x) ≡ false }
{}

/// A law: take a definition that uses what it binds and its parameters alone, and binds nothing again, behind others of which those
/// that it comes to use do so too, and a use of it. Under a choice that makes its arguments ground and replaces taken names alone, what
/// the use means is, up to names, the expansion of the definition's instance by these terms, whatever names are taken then.
pub fn uses_are_instances()
    ensures { (names : List (List ℕ)) (ds : List Definition) (d : Definition) (ts : List Tree) (s : Choice) (taken other : List (List ℕ))
        → AreClosedAmong names ds → UsesOnly names d.body → IsClosed d.params d.body → AreGround (trees_of (map (instance s) ts)) → Keeps s taken → AreTaken other d.params d.body
        → AreSameUpToNames (process_instance s (entered (meaning_of ds) d ts taken).process)
        (expanded (meaning_of ds) unchanged same_name (instance_by d (map (instance s) ts)) other).process }
{}

/// A law: with other names taken the expansion of a process is the same up to names, where it uses what it binds alone, and binds
/// nothing again, and so do the definitions that it comes to use, but for their parameters.
pub fn expansions_are_one()
    ensures { (names : List (List ℕ)) (ds : List Definition) (p : Written) (taken other : List (List ℕ)) → AreClosedAmong names ds → UsesOnly names p
        → IsClosed [] p → AreTaken taken [] p → AreTaken other [] p → AreSameUpToNames (expanded (meaning_of ds) unchanged same_name p taken).process
        (expanded (meaning_of ds) unchanged same_name p other).process }
{}

/// A law: each use whose arguments name nothing but what is in scope is its definition's instance, up to names, which shows the same.
pub fn uses_show_their_instances()
    ensures { UsesAreInstances }
{
    same_up_to_names_show_the_same();
    uses_are_instances();
}

/// A law: where no definition has parameters, the expansion is the process with each name replaced by what it stands for. Where no use is
/// left once names without parameters are replaced, it is what is left, whatever names are taken.
pub fn plain_files_stay()
    ensures stands { (ds : List Definition) (p : Written) (identifiers : List (List ℕ)) → AreInOrder [] ds → AreWithoutParameters ds
        → (expansion ds identifiers p).process ≡ process_of nothing_stands ds p }
    ensures left { (ds : List Definition) (p : Written) (identifiers : List (List ℕ)) → UsesOnly [] (plain ds p)
        → (expansion ds identifiers p).process ≡ seen (plain ds p) }
{}

/// A law: names without parameters stand for the definitions' bodies, in which such names are replaced themselves. Names with
/// parameters stay, and so do those that nothing defines.
pub fn plain_names_stand_for_bodies()
    ensures defined { (ds : List Definition) (d : Definition) (ts : List Tree) → AreInOrder [] ds → Contains ds d
        → plain_after call ds d.name ts ≡ where_none d.params (plain ds d.body) (call d.name ts) }
    ensures other { (ds : List Definition) (f : List ℕ) (ts : List Tree) → is_known (map (λ (d : Definition). d.name) ds) f ≡ false
        → plain_after call ds f ts ≡ call f ts }
    ensures bodies { (ds : List Definition) → AreInOrder [] ds → plain_bodies call ds ≡ map (with_plain_body ds) ds }
{}

/// A law: what uses names alone that are defined uses, once names without parameters are replaced, names alone that have parameters.
pub fn plain_uses_have_parameters()
    ensures { (ds : List Definition) (p : Written) → AreInOrder [] ds → UsesOnly (defined ds) p
        → UsesOnly (with_parameters [] ds) (plain ds p) }
{}

/// A law: what is written with its numbers is, without them, what is written.
pub fn located_is_written()
    ensures { (s : Source) → without_numbers (located s) ≡ written s }
{}

/// A law: where fewer than 2^64 - 1 names are taken, the number of a new name is one of 64 bits. So it has at most 20 digits.
pub fn new_names_are_short()
    ensures { (taken : List (List ℕ)) (x : List ℕ) → length taken + 2 ≤ 2 ^ 64
        → (number : ℕ) × (0 < number) × (number < 2 ^ 64) × (new_name taken x ≡ candidate x number) }
{}

/// A law: an expansion has as many places, and as many levels, whatever names are taken.
pub fn sizes_are_one()
    ensures nodes { (ds : List Definition) (p : Written) (identifiers other : List (List ℕ))
        → node_count (expansion ds identifiers p).process ≡ node_count (expansion ds other p).process }
    ensures levels { (ds : List Definition) (p : Written) (identifiers other : List (List ℕ))
        → level_count (expansion ds identifiers p).process ≡ level_count (expansion ds other p).process }
{}
