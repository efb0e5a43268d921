//! Laws of short rules and short theories, as contracts of functions that only call the laws below.
ghost use Rattle.std.specs.Prelude.{◌≡◌, ◌↔◌};
ghost use Rattle.sap_gen.specs.Kept.{KeepsFile, file_theory};
ghost use Rattle.sap_read.specs.Files.{FileContent, IsRunnable};
ghost use Rattle.sap_read.specs.OwnNames.{IsNamedApart};
ghost use Rattle.sap_read.specs.Printable.{IsPrintableFile};
ghost use Rattle.sap_read.specs.declared.limits.TheConstants.{MOST_NEW_NAME_BYTES};
ghost use Rattle.sap_rule.specs.declared.theory.Theory.{Theory};
ghost use Rattle.sap_terms.specs.Trace.{Trace};
ghost use Rattle.sap_terms.specs.declared.limits.TheConstants.{MOST_FILE_NAME_BYTES, MOST_THEORY_NAME_BYTES};
ghost use Rattle.sap_theory.specs.PrintableTheory.{IsPrintable};
ghost use Rattle.sap_theory.specs.ReadAgain.{PassesChecks};
ghost use Rattle.sap_translate.specs.Faithful.{IsShownBy, IsVisibleTrace};
ghost use Rattle.sap_gen.specs.Carried.{CarriedRulesShowTheSame};
ghost use Rattle.sap_gen.specs.Moves.{ShorteningsShowTheSame};
ghost use Rattle.sap_gen.specs.ShortTheories.{IsShortTheory};

use crate::laws::{
    theories_are_closed, theories_are_printable, theories_keep_files, theories_pass_checks,
};
use sap_formula::empty_times_are_not_seen;
use sap_restrict::restrictions_are_closed;
use sap_rewrite::{each_term_has_a_normal_form, normal_forms_are_unique, normal_terms_decide};
use sap_rule::runs_reach_messages;
use sap_translate::{rules_are_found_by_name, rules_are_well_made, rules_show_the_process};

/// A law: where each rule is silent or carried by a short one, and each use of a short rule expands to one of a rule and then
/// of silent ones, runs of both show the same but for empty times.
pub fn carried_rules_show_the_same()
    ensures { CarriedRulesShowTheSame }
{}

/// A law: where the short rules are the rules that aren't silent with their right sides settled, runs of both show the same but
/// for empty times. What is asked of the rules is syntax alone.
pub fn shortenings_show_the_same()
    ensures { ShorteningsShowTheSame }
{
    each_term_has_a_normal_form();
    normal_forms_are_unique();
    normal_terms_decide();
    runs_reach_messages();
}

/// A law: a file that can be run has a short theory, and no two.
pub fn one_short_theory()
    ensures some { (f : FileContent) → IsRunnable f → (t : Theory) × IsShortTheory f t }
    ensures one { (f : FileContent) (t u : Theory) → IsShortTheory f t → IsShortTheory f u → t ≡ u }
{
    rules_show_the_process();
    rules_are_well_made();
    rules_are_found_by_name();
}

/// A law: admitted runs of the short theory's rules show what those of the file's theory show, and nothing else; and so do the
/// runs on whose full traces the restrictions of each are true.
pub fn short_rules_show_the_same()
    ensures admitted { (f : FileContent) (t : Theory) (tr : Trace) → IsRunnable f
        → IsShortTheory f t
        → IsVisibleTrace f.signature (file_theory f).rules tr
        ↔ IsVisibleTrace t.signature t.rules tr }
    ensures restricted { (f : FileContent) (t : Theory) (tr : Trace) → IsRunnable f
        → IsShortTheory f t → IsShownBy (file_theory f) tr ↔ IsShownBy t tr }
{
    each_term_has_a_normal_form();
    normal_forms_are_unique();
    normal_terms_decide();
    runs_reach_messages();
    rules_show_the_process();
    rules_are_well_made();
    rules_are_found_by_name();
    empty_times_are_not_seen();
    restrictions_are_closed();
    theories_are_closed();
}

/// A law: a short theory keeps its file, as the file's own theory does: what is shown, and which lemmas hold.
pub fn short_theories_keep_files()
    ensures { (f : FileContent) (t : Theory) → IsRunnable f → IsShortTheory f t → KeepsFile f t }
{
    each_term_has_a_normal_form();
    normal_forms_are_unique();
    normal_terms_decide();
    runs_reach_messages();
    rules_show_the_process();
    rules_are_well_made();
    rules_are_found_by_name();
    empty_times_are_not_seen();
    restrictions_are_closed();
    theories_are_closed();
    theories_keep_files();
}

/// A law: where a file can be run and printed, its short theory can be printed with names of at most MOST_THEORY_NAME_BYTES
/// bytes.
pub fn short_theories_are_printable()
    ensures { (f : FileContent) (t : Theory) → IsRunnable f
        → IsPrintableFile MOST_FILE_NAME_BYTES MOST_NEW_NAME_BYTES f → IsShortTheory f t
        → IsPrintable MOST_THEORY_NAME_BYTES t }
{
    rules_show_the_process();
    rules_are_found_by_name();
    theories_are_printable();
}

/// A law: where its names are its own too, its short theory passes the checks of who reads it back: no two rules have one name,
/// and no two restrictions or lemmas; each rule is over the signature, each of its facts stands where it may, and those that it
/// shows are linear; no formula has a fault, where facts may have any names.
pub fn short_theories_pass_checks()
    ensures { (f : FileContent) (t : Theory) → IsRunnable f
        → IsPrintableFile MOST_FILE_NAME_BYTES MOST_NEW_NAME_BYTES f → IsNamedApart f → IsShortTheory f t
        → PassesChecks t }
{
    rules_show_the_process();
    rules_are_found_by_name();
    theories_pass_checks();
}
