//! Why small files are refused, and what their processes are, by hand, as contracts of functions that do nothing.
ghost use Rattle.std.specs.Prelude.{◌≡◌, ℕ, false, List, [], ◌∷◌, Err, Ok, All, codes};
ghost use Rattle.sap_formula.specs.declared.fault.FormulaFault.TheVariants.{UnboundVar};
ghost use Rattle.sap_locks.specs.Annotation.{without};
ghost use Rattle.sap_macro.specs.Expansion.{plain};
ghost use Rattle.sap_macro.specs.Replaced.{AreWithoutParameters, nothing_stands, process_of};
ghost use Rattle.sap_macro.specs.Written.{Definition, Written};
ghost use Rattle.sap_macro.specs.WrittenRuns.{HasArgumentsInScope};
ghost use Rattle.sap_process.specs.declared.flaw.Flaw.TheVariants.{Unbound};
ghost use Rattle.sap_terms.specs.Variables.{is_known};
ghost use Rattle.sap_text.specs.declared.fault.Lex.TheVariants.{OpenQuote};
ghost use Rattle.sap_read.specs.AsWritten.{IsWrittenAs};
ghost use Rattle.sap_read.specs.CauseExamples.{AreNoProcesses, AreProcesses, AreRefused, AreUnexpanded, AreUnrefused, counting_first, file_processes, files_not_plain, near_files, open_file, open_main, other_processes, plain_file, plain_main, plain_tree, unexpanded_first, with_clash, with_other_count, with_parameter_twice, with_repeated, with_too_deep, with_too_many, with_two, with_unknown, without_process};
ghost use Rattle.sap_read.specs.Causes.{lock_fault};
ghost use Rattle.sap_read.specs.FileProcess.{definitions_of};
ghost use Rattle.sap_read.specs.FileExamples.{defined_file, doing_nothing, empty_file, endless_file, headless_file, quoting_file, timeless_file, told_whole, unbound_file, unlocking_file, using_p, whole_file};
ghost use Rattle.sap_read.specs.Files.{IsRead};
ghost use Rattle.sap_read.specs.HeldVariables.{HoldsFileVariables};
ghost use Rattle.sap_read.specs.Identifiers.{identifiers_of};
ghost use Rattle.sap_read.specs.Item.{Standing, bodies};
ghost use Rattle.sap_read.specs.PlainFiles.{ArePlain};
ghost use Rattle.sap_read.specs.VariableExamples.{file_identifiers, file_words, names_without, other_names, small_bodies, variable_names};
ghost use Rattle.sap_read.specs.declared.fault.ReadFault.TheVariants.{Formula, Header, Ill, Lex as LexFault, NoProcess, Syntax};

use crate::laws::files_show_as_they_are_written;
use sap_locks::{annotations_by_hand, branches_by_hand};
use sap_process::flaws_by_hand;
use sap_text::longest_tokens;

/// A law: small files, each given by its items, with causes for which items are refused: no process, a second one by its line, a name
/// of a process that nothing before defines, a name that stands twice, a declaration that clashes, a parameter that stands twice, another
/// number of arguments, 4,001 places, 301 levels. Near misses are refused for none; and of two causes the one that stands first here
/// counts.
pub fn causes_by_hand()
    ensures no_process { AreRefused without_process }
    ensures two_processes { AreRefused with_two }
    ensures unknown { AreRefused with_unknown }
    ensures repeated { AreRefused with_repeated }
    ensures clash { AreRefused with_clash }
    ensures parameters { AreUnexpanded with_parameter_twice }
    ensures arguments { AreUnexpanded with_other_count }
    ensures too_many { AreUnexpanded with_too_many }
    ensures too_deep { AreUnexpanded with_too_deep }
    ensures near { AreUnrefused near_files }
    ensures order { AreRefused counting_first }
    ensures order_of_uses { AreUnexpanded unexpanded_first }
{}

/// A law: the processes of small files, with uses replaced by what they mean, and processes that are none of theirs; a file without
/// parameters and arguments, and three that have one.
pub fn file_processes_by_hand()
    ensures are { AreProcesses file_processes }
    ensures are_not { AreNoProcesses other_processes }
    ensures plain { ArePlain (bodies plain_file) }
    ensures not_plain { All (λ (f : List Standing). ¬ ArePlain (bodies f)) files_not_plain }
{}

/// A law: the identifiers of a small file, and what is none of them. Its variables' names hold those of its variables, and without
/// any one of them they don't.
pub fn identifiers_by_hand()
    ensures are { identifiers_of file_words ≡ file_identifiers }
    ensures are_not { All (λ (n : List ℕ). is_known (identifiers_of file_words) n ≡ false)
        other_names }
    ensures held { HoldsFileVariables variable_names small_bodies }
    ensures wanting { All (λ (n : List ℕ). ¬ HoldsFileVariables (names_without n) small_bodies)
        variable_names }
{}

/// A law: small files byte by byte, one that is read and seven that are refused: for what is no token, for want of a header, of `end`
/// and of a process, for an unbound variable, for an unlock without a lock, and for a lemma's unbound time.
pub fn files_by_hand()
    ensures read { IsRead whole_file (Ok told_whole) }
    ensures no_token { IsRead quoting_file (Err (LexFault (OpenQuote 15))) }
    ensures no_header { IsRead headless_file (Err Header) }
    ensures no_end { IsRead endless_file (Err (Syntax 1)) }
    ensures no_process { IsRead empty_file (Err NoProcess) }
    ensures unbound { IsRead unbound_file (Err (Ill Unbound [])) }
    ensures without_lock { IsRead unlocking_file (Err (lock_fault without [])) }
    ensures no_time { IsRead timeless_file (Err (Formula (codes "l") (UnboundVar (codes "i")))) }
{
    longest_tokens();
    flaws_by_hand();
    annotations_by_hand();
    branches_by_hand();
}

/// A law: a small file byte by byte with the definitions and the process that it is written with, and with no others. Of a file without
/// parameters, by its items, what is needed that it is the tree that is written, and this tree; and a file with a parameter and an
/// argument that isn't in scope.
pub fn written_files_by_hand()
    ensures written { IsWrittenAs defined_file (doing_nothing ∷ []) using_p }
    ensures nothing_else { (ds : List Definition) (p : Written) → IsWrittenAs defined_file ds p
        → (ds ≡ doing_nothing ∷ []) × (p ≡ using_p) }
    ensures without_parameters { AreWithoutParameters (definitions_of (bodies plain_file)) }
    ensures in_scope { HasArgumentsInScope [] (plain (definitions_of (bodies plain_file)) plain_main) }
    ensures tree { process_of nothing_stands (definitions_of (bodies plain_file)) plain_main ≡ plain_tree }
    ensures with_parameter { ¬ AreWithoutParameters (definitions_of (bodies open_file)) }
    ensures not_in_scope { ¬ HasArgumentsInScope [] (plain (definitions_of (bodies open_file)) open_main) }
{
    longest_tokens();
    files_show_as_they_are_written();
}
