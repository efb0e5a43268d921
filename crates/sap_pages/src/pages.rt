//! The list of commands, the page of each, and the version.
ghost use Rattle.std.specs.Prelude.{◌≡◌, ℕ, List, MatchOption};
ghost use Rattle.sap_pages.specs.Texts.{commands_text, version_text};
ghost use Rattle.sap_pages.specs.Pages.{IsPageOf};

use crate::texts::{
    CHART_PAGE, CHECK_RULES_PAGE, COMMANDS_TEXT, COMPILE_INLINE_PAGE, COMPILE_PAGE,
    COMPILE_SHORT_PAGE, FILL_PAGE, FROM_JSON_PAGE, HELP_PAGE, JUDGE_PAGE, SAMPLE_PAGE, TELL_PAGE,
    TO_JSON_PAGE, TO_PROCESS_PAGE, TO_RULES_PAGE, VERSION_TEXT, WHY_PAGE,
};

/// The commands with a line each, the statuses, and where the pages stand.
pub fn commands() -> &'static str
    ensures { result.now ≡ commands_text }
{
    COMMANDS_TEXT
}

/// The program's name and version, and the kit that it was proved with.
pub fn version() -> &'static str
    ensures { result.now ≡ version_text }
{
    VERSION_TEXT
}

/// The page of this word, if it has one: what the command writes, reads and refuses, and an example.
pub fn page_of(word: &str) -> Option<&'static str>
    ensures { MatchOption result ((text : List ℕ) → IsPageOf word.now text → ⊥)
        (λ text. IsPageOf word.now text.now) }
{
    match word {
        "compile" => Some(COMPILE_PAGE),
        "compile-inline" => Some(COMPILE_INLINE_PAGE),
        "compile-short" => Some(COMPILE_SHORT_PAGE),
        "why" => Some(WHY_PAGE),
        "to-rules" => Some(TO_RULES_PAGE),
        "to-process" => Some(TO_PROCESS_PAGE),
        "fill" => Some(FILL_PAGE),
        "judge" => Some(JUDGE_PAGE),
        "check-rules" => Some(CHECK_RULES_PAGE),
        "tell" => Some(TELL_PAGE),
        "chart" => Some(CHART_PAGE),
        "to-json" => Some(TO_JSON_PAGE),
        "from-json" => Some(FROM_JSON_PAGE),
        "sample" => Some(SAMPLE_PAGE),
        "help" => Some(HELP_PAGE),
        _ => None,
    }
}
