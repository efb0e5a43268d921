//! Laws of files, as contracts of functions that do nothing but call those below.
ghost use Rattle.std.specs.Prelude.{◌≡◌, ◌↔◌, ◌⊎◌, ◌≤◌, ◌^◌, ℕ, codes, List, [], ◌∷◌, ◌++◌, None, Some, Contains, Result, Ok, Err, length, map};
ghost use Rattle.sap_terms.specs.declared.fact.Fact.{Fact};
ghost use Rattle.sap_terms.specs.Tree.{Tree, level_count};
ghost use Rattle.sap_text.specs.declared.token.Token.{Token};
ghost use Rattle.sap_terms.specs.Signature.{Sig};
ghost use Rattle.sap_terms.specs.Trace.{Trace};
ghost use Rattle.sap_locks.specs.Annotation.{IsAnnotation, unlabelled};
ghost use Rattle.sap_grammar.specs.Words.{Word, mark, name, words_of};
ghost use Rattle.sap_grammar.specs.TermGrammar.{IsTerm};
ghost use Rattle.sap_grammar.specs.FactGrammar.{IsFact, fact_levels};
ghost use Rattle.sap_read.specs.code.ProcessLaws.{ProcessLaws};
ghost use Rattle.sap_macro.specs.Expansion.{plain};
ghost use Rattle.sap_macro.specs.Indexed.{defined};
ghost use Rattle.sap_macro.specs.Order.{AreInOrder, UsesOnly};
ghost use Rattle.sap_macro.specs.Replaced as replaced;
ghost use Rattle.sap_macro.specs.Replaced.{AreWithoutParameters};
ghost use Rattle.sap_macro.specs.UpToNames.{AreSameUpToNames};
ghost use Rattle.sap_macro.specs.Written.{Definition, Written};
ghost use Rattle.sap_macro.specs.WrittenRuns.{HasArgumentsInScope, IsFileTrace};
ghost use Rattle.sap_read.specs.AsWritten.{FilesShowAsWritten, IsWrittenAs};
ghost use Rattle.sap_read.specs.Causes.{cause_of};
ghost use Rattle.sap_read.specs.FileProcess.{definitions_of, main_of, process_of, IsExpanded};
ghost use Rattle.sap_process.specs.Proc.{Proc};
ghost use Rattle.sap_process.specs.ProcessSteps.{IsProcessTrace};
ghost use Rattle.sap_process.specs.Sorted.{with_sorts};
ghost use Rattle.sap_draft.specs.ProcessGrammar.{IsPar};
ghost use Rattle.sap_grammar.specs.Cut.{Placed, IsCut};
ghost use Rattle.sap_read.specs.ItemGrammar.{AreItems};
ghost use Rattle.sap_read.specs.HeldVariables.{AreClosedBodies, HasClosedUses, HoldsFileVariables};
ghost use Rattle.sap_read.specs.Identifiers.{identifiers_of};
ghost use Rattle.sap_read.specs.Item.{Body, Standing, bodies, signature_of};
ghost use Rattle.sap_read.specs.Files.{FileContent, IsParted, IsRead, IsRunnable};
ghost use Rattle.sap_read.specs.LocatedItems.{LocatedBody, located_bodies, plain_body};
ghost use Rattle.sap_read.specs.SpelledBodies.{IsSpelledIn, item_end};
ghost use Rattle.sap_read.specs.PlainFiles.{ArePlain};
ghost use Rattle.sap_read.specs.Printable.{IsPrintableFile};
ghost use Rattle.sap_uses.specs.FaultCauses.{Holds};
ghost use Rattle.sap_uses.specs.declared.fault.MacroFault.{MacroFault};
ghost use Rattle.sap_uses.specs.declared.fault.MacroFault.TheVariants.{TooDeep, TooMany};
ghost use Rattle.sap_process.specs.Flaws.{IsWellFormed};
ghost use Rattle.sap_read.specs.OwnNames.{IsNamedApart};
ghost use Rattle.sap_terms.specs.declared.limits.TheConstants.{MOST_FILE_NAME_BYTES};
ghost use Rattle.sap_read.specs.declared.limits.TheConstants.{MOST_NEW_NAME_BYTES};
ghost use Rattle.sap_process.specs.Ready.{IsReady};
ghost use Rattle.sap_read.specs.UndefinedNames.{HasBodies};
ghost use Rattle.sap_read.specs.WrittenFiles.{IsEarly};
ghost use Rattle.sap_read.specs.declared.fault.ReadFault.{ReadFault};
ghost use Rattle.sap_read.specs.declared.fault.ReadFault.TheVariants.{Mem as OutOfMemory};
ghost use Rattle.sap_statements.specs.declared.statement.Statement.{Statement};
ghost use Rattle.sap_statements.specs.Statements.{IsStatement};
ghost use Rattle.sap_grammar.specs.declared.limits.Limits.{Limits};

use sap_draft::{
    located_processes, one_process, processes_are_printable, same_processes, some_process,
};
use sap_formula::faultless_formulas_are_checked;
use sap_grammar::{item_laws, same_grammar, words_of_bytes};
use sap_locks::{annotations_are_ready, annotations_of_processes};
use sap_macro::{
    expansions_are_one, new_names_are_least, new_names_are_short, plain_bodies_are_in_order,
    plain_files_stay, plain_uses_have_parameters, same_up_to_names_show_the_same, sizes_are_one,
    sorting_keeps_scopes, sorts_are_exchanged, what_is_written_runs_as_its_expansion,
};
use sap_process::{one_flaw, some_flaw, sorting_keeps};
use sap_statements::{
    faultless_formulas_keep_signs, formulas_are_printable, one_faulty_statement, sorts_are_kept,
    statement_laws,
};
use sap_terms::builtins_stay_held;
use sap_text::{one_answer, some_answer};
use sap_uses::{
    accepted_definitions_are_closed, one_macro_cause, some_macro_cause, unflawed_bodies_are_closed,
    unflawed_processes_are_closed,
};

/// What the laws of processes say, as the proofs on files need it.
pub(crate) fn process_laws()
    ensures { ProcessLaws }
{
    one_process();
    same_processes();
    some_process();
}

/// A law: which words are a term, a fact or a process, and of how many levels, is the same under each signature, and which are
/// a restriction or a lemma. The signature says only which identifiers are constants.
pub fn grammar_is_one()
    ensures terms { (g h : Sig) (t : Tree) (a b : List Word) → IsTerm g t a b
        → (u : Tree) × IsTerm h u a b × (level_count u ≡ level_count t) }
    ensures facts { (g h : Sig) (f : Fact) (a b : List Word) → IsFact g f a b
        → (u : Fact) × IsFact h u a b × (fact_levels u ≡ fact_levels f) }
    ensures processes { (g h : Sig) (m : Limits) (n : ℕ) (p : Written)
        (a b : List Word) → IsPar g m p n a b
        → (q : Written) × IsPar h m q n a b }
    ensures statements { (g h : Sig) (m : Limits) (s : Statement) (a : List Word) → IsStatement g m s a
        → (t : Statement) × IsStatement h m t a }
{
    same_grammar();
    same_processes();
    statement_laws();
}

/// A law: bytes are read as one file at most, or refused for one cause, and never both.
pub fn one_file()
    ensures { (z : List ℕ) (o u : Result FileContent ReadFault) → IsRead z o → IsRead z u → o ≡ u }
{
    item_laws();
    process_laws();
    statement_laws();
    one_answer();
    one_macro_cause();
    one_flaw();
    one_faulty_statement();
    annotations_of_processes();
}

/// A law: each list of bytes is read as something, as a file or as refused for a cause.
pub fn some_file()
    ensures { (z : List ℕ) → ((o : Result FileContent ReadFault) × IsRead z o) }
{
    item_laws();
    process_laws();
    statement_laws();
    some_answer();
    some_macro_cause();
    some_flaw();
    one_faulty_statement();
    annotations_of_processes();
}

/// A law: bytes that no cause refuses are read as a file.
pub fn file_unless_refused()
    ensures { (z : List ℕ) → ((e : ReadFault) → IsRead z (Err e) → ⊥)
        → ((f : FileContent) × IsRead z (Ok f)) }
{
    some_file();
}

/// A law: a file that is read has a signature that holds the symbol of pairs and those of its builtins, and the annotation of a
/// process that is ready to run over it: well-formed, each variable with the sort of its binder. Its restrictions and lemmas are
/// checked over it, and name no hidden fact.
pub fn files_are_runnable()
    ensures { (z : List ℕ) (f : FileContent) → IsRead z (Ok f) → IsRunnable f }
{
    sizes_are_one();
    sorting_keeps();
    builtins_stay_held();
    faultless_formulas_are_checked();
}

/// A law: the process of a file that is read, with the labels of its locks, is ready to run over the file's signature.
pub fn files_are_ready()
    ensures { (z : List ℕ) (f : FileContent) → IsRead z (Ok f) → IsReady f.signature f.process }
{
    files_are_runnable();
    annotations_are_ready();
}

/// A law: what is read of a file of at most 2^52 bytes can be printed. Its names are names of a file, no longer than those may be,
/// but for those in its process, some of which may be new; no symbol stands twice in its signature, each can be declared, and those of
/// pairs are held; its process is no deeper than one that is read may be, its terms and facts, its restrictions and its lemmas are such
/// that words spell them, and what it shows is linear. In a file that is longer all new names for a name may be taken.
pub fn files_are_printable()
    ensures { (z : List ℕ) (f : FileContent) → length z ≤ 2 ^ 52 → IsRead z (Ok f)
        → IsPrintableFile MOST_FILE_NAME_BYTES MOST_NEW_NAME_BYTES f }
{
    new_names_are_least();
    new_names_are_short();
    sizes_are_one();
    words_of_bytes();
    processes_are_printable();
    formulas_are_printable();
    sorts_are_kept();
    faultless_formulas_keep_signs();
}

/// A law: each restriction and each lemma of a file that is read has a name of its own, and none of the seven restrictions that a
/// theory may get has it.
pub fn files_are_named_apart()
    ensures { (z : List ℕ) (f : FileContent) → IsRead z (Ok f) → IsNamedApart f }
{}

/// A law: the identifiers of a file hold the name of each variable in its definitions, parameters included, and in its process.
pub fn identifiers_hold_variables()
    ensures { (z : List ℕ) (ts : List Token) (x : List ℕ) (cut : List (List Placed))
        (is : List Standing) → IsParted z ts x cut → AreItems (signature_of is) cut is
        → HoldsFileVariables (identifiers_of (words_of z ts)) (bodies is) }
{}

/// A law: where nothing refuses a file before its uses are looked at, and its process can be expanded, the definitions that this comes
/// to use are closed. So each of its uses whose arguments name nothing but what is in scope is one of which `uses_are_instances` of
/// `sap_macro` speaks.
pub fn used_definitions_are_closed()
    ensures { (g : Sig) (names : List (List ℕ)) (is : List Standing) (p : Proc) → cause_of is ≡ None
        → IsExpanded g names (bodies is) p → HasClosedUses (bodies is) }
{
    accepted_definitions_are_closed();
}

/// A law: of a file without parameters and arguments, whose items nothing refuses, no use is why it is refused, but that the process
/// has too many places or levels; and its process is the one that is written, each name replaced by what it stands for. Where that is
/// well-formed, it and the definitions are closed, so that `file_processes_are_one` speaks of the file.
pub fn plain_files_need_no_instances()
    ensures causes { (g : Sig) (is : List Standing) (p : Written) (e : MacroFault) → cause_of is ≡ None → ArePlain (bodies is)
        → main_of (bodies is) ≡ Some p → Holds g (definitions_of (bodies is)) p e → (e ≡ TooMany) ⊎ (e ≡ TooDeep) }
    ensures process { (names : List (List ℕ)) (is : List Standing) (main : Written) → cause_of is ≡ None → ArePlain (bodies is)
        → main_of (bodies is) ≡ Some main
        → process_of names (bodies is) ≡ Some (replaced.process_of replaced.nothing_stands (definitions_of (bodies is)) main) }
    ensures closed { (g : Sig) (names : List (List ℕ)) (is : List Standing) (p : Proc) → cause_of is ≡ None → ArePlain (bodies is)
        → IsExpanded g names (bodies is) p → IsWellFormed g p → AreClosedBodies (bodies is) }
{
    plain_files_stay();
    plain_uses_have_parameters();
    unflawed_bodies_are_closed();
    used_definitions_are_closed();
}

/// A law: the process of a file is one up to names, whatever names are taken, if they hold those of its variables; a file's
/// identifiers do. It and the bodies of the definitions that it comes to use are closed.
pub fn file_processes_are_one()
    ensures { (bs : List Body) (names other : List (List ℕ)) (p q : Proc) → AreClosedBodies bs
        → HoldsFileVariables names bs → HoldsFileVariables other bs → process_of names bs ≡ Some p
        → process_of other bs ≡ Some q → AreSameUpToNames p q }
{
    expansions_are_one();
}

/// A law: labels show nothing. A well-formed process is the same up to names as it is without labels; so each of its traces is one of
/// its annotation, and each of that is one of its own.
pub fn labels_show_nothing()
    ensures names { (g : Sig) (p : Proc) → IsWellFormed g p → AreSameUpToNames p (unlabelled p) }
    ensures traces { (g : Sig) (p q : Proc) (tr : Trace) → IsWellFormed g p → IsAnnotation p q
        → IsProcessTrace g p tr ↔ IsProcessTrace g q tr }
{
    expansions_are_one();
    plain_files_stay();
    unflawed_bodies_are_closed();
    same_up_to_names_show_the_same();
    annotations_are_ready();
}

/// A law: the words behind a header are cut into items in one way, and spell at most one list of items, under a signature and
/// under that of the items themselves.
pub fn one_list_of_items()
    ensures cut { (words : List Placed) (is js : List (List Placed)) → IsCut words is
        → IsCut words js → is ≡ js }
    ensures items { (g : Sig) (cut : List (List Placed)) (is js : List Standing)
        → AreItems g cut is → AreItems g cut js → is ≡ js }
    ensures own { (cut : List (List Placed)) (is js : List Standing)
        → AreItems (signature_of is) cut is → AreItems (signature_of js) cut js
        → is ≡ js }
{
    item_laws();
    process_laws();
    statement_laws();
}

/// A law: bytes are tokens, and these are cut into items, in one way.
pub fn one_parting()
    ensures tokens { (z : List ℕ) (ts us : List Token) (x y : List ℕ) (cut other : List (List Placed))
        → IsParted z ts x cut → IsParted z us y other → ts ≡ us }
    ensures items { (z : List ℕ) (ts us : List Token) (x y : List ℕ) (cut other : List (List Placed))
        → IsParted z ts x cut → IsParted z us y other → cut ≡ other }
{
    item_laws();
    one_answer();
}

/// A law: where nothing refuses the items of a file before its uses are looked at, it is refused for no cause that is looked for before
/// these.
pub fn no_early_cause()
    ensures { (z : List ℕ) (ts : List Token) (x : List ℕ) (cut : List (List Placed)) (is : List Standing)
        (e : ReadFault) → IsParted z ts x cut → AreItems (signature_of is) cut is → cause_of is ≡ None
        → IsEarly e → (e ≡ OutOfMemory → ⊥) → IsRead z (Err e) → ⊥ }
{
    item_laws();
    process_laws();
    statement_laws();
    one_answer();
}

/// A law: where nothing refuses the items of a file before its uses are looked at, its definitions have names of their own, each uses
/// earlier ones alone, and its process uses these.
pub fn definitions_are_in_order()
    ensures order { (is : List Standing) → cause_of is ≡ None → AreInOrder [] (definitions_of (bodies is)) }
    ensures uses { (is : List Standing) (p : Written) → cause_of is ≡ None → main_of (bodies is) ≡ Some p
        → UsesOnly (defined (definitions_of (bodies is))) p }
{}

/// A law: the items that words spell, with the words that tell the places of their processes, are without these words what the items
/// say of processes; and however the same words spell them, they are the same.
pub fn located_items()
    ensures plain { (g : Sig) (cut : List (List Placed)) (is : List Standing) (r : AreItems g cut is)
        → map plain_body (located_bodies r) ≡ bodies is }
    ensures one { (g : Sig) (cut : List (List Placed)) (is js : List Standing) (r : AreItems g cut is)
        (s : AreItems g cut js) → located_bodies r ≡ located_bodies s }
{
    located_processes();
}

/// A law: the items that tokens spell say of processes what is said there, and these say nothing else.
pub fn bodies_are_one()
    ensures are { (z : List ℕ) (ts : List Token) (x : List ℕ) (cut : List (List Placed)) (is : List Standing)
        → IsParted z ts x cut → (r : AreItems (signature_of is) cut is) → HasBodies z ts (located_bodies r) }
    ensures one { (z : List ℕ) (ts : List Token) (bs cs : List LocatedBody)
        → HasBodies z ts bs → HasBodies z ts cs → bs ≡ cs }
{
    one_parting();
    one_list_of_items();
    located_items();
}

/// A law: what is said of processes by the items of a file is spelled by its words: a process by the last ones of its item, so that the
/// words from any of its places on are the last so many of these.
pub fn bodies_are_spelled()
    ensures { (g : Sig) (z : List ℕ) (ts : List Token) (x : List ℕ) (cut : List (List Placed)) (is : List Standing) (b : LocatedBody)
        → IsParted z ts x cut → (r : AreItems g cut is) → Contains (located_bodies r) b → IsSpelledIn g (words_of z ts) b }
{}

/// A law: of words that stand between others, as many as they are end the item in front of the last ones; and of the four words
/// `process: P end` the last two of the item are `:` and `P`.
pub fn item_ends()
    ensures all { (front words rest : List Word) → item_end (front ++ (words ++ rest)) (length words) (length rest) ≡ words }
    ensures by_hand { item_end (mark (codes "process") ∷ mark (codes ":") ∷ name (codes "P") ∷ mark (codes "end") ∷ []) 2 1
        ≡ mark (codes ":") ∷ name (codes "P") ∷ [] }
{}

/// A law: a file that is read is written with some definitions and one process; bytes are written so in one way; and what the process
/// shows as it is written, where a use runs as its definition's instance, the process that is read shows, and nothing else, where each
/// use in it names in its arguments what is in scope there.
pub fn files_show_as_they_are_written()
    ensures written { (z : List ℕ) (f : FileContent) → IsRead z (Ok f)
        → ((ds : List Definition) × (p : Written) × IsWrittenAs z ds p) }
    ensures one { (z : List ℕ) (ds es : List Definition) (p q : Written) → IsWrittenAs z ds p
        → IsWrittenAs z es q → (ds ≡ es) × (p ≡ q) }
    ensures shows { FilesShowAsWritten }
{
    item_laws();
    process_laws();
    statement_laws();
    one_answer();
    used_definitions_are_closed();
    identifiers_hold_variables();
    plain_bodies_are_in_order();
    sorting_keeps_scopes();
    sorts_are_exchanged();
    what_is_written_runs_as_its_expansion();
    unflawed_processes_are_closed();
    labels_show_nothing();
    sorting_keeps();
}

/// A law: take a file that is read, none of whose definitions has parameters. Once names are replaced no use is left in its process, so
/// that each names in its arguments what is in scope; the process that is read is the tree that is written, each name replaced by what it
/// stands for, with the sorts of its binders and the labels of its locks; and that shows what the file shows as it is written.
pub fn files_without_parameters_are_as_written()
    ensures left { (z : List ℕ) (f : FileContent) (ds : List Definition) (p : Written) → IsRead z (Ok f)
        → IsWrittenAs z ds p → AreWithoutParameters ds → UsesOnly [] (plain ds p) }
    ensures scope { (z : List ℕ) (f : FileContent) (ds : List Definition) (p : Written) → IsRead z (Ok f)
        → IsWrittenAs z ds p → AreWithoutParameters ds → HasArgumentsInScope [] (plain ds p) }
    ensures process { (z : List ℕ) (f : FileContent) (ds : List Definition) (p : Written) → IsRead z (Ok f)
        → IsWrittenAs z ds p → AreWithoutParameters ds
        → IsAnnotation (with_sorts [] (replaced.process_of replaced.nothing_stands ds p)) f.process }
    ensures shows { (z : List ℕ) (f : FileContent) (ds : List Definition) (p : Written) (tr : Trace) → IsRead z (Ok f)
        → IsWrittenAs z ds p → AreWithoutParameters ds
        → IsFileTrace f.signature ds p tr ↔ IsProcessTrace f.signature f.process tr }
{
    plain_files_stay();
    plain_uses_have_parameters();
    files_show_as_they_are_written();
}
