//! What words ask for.

ghost use Rattle.std.specs.Prelude.{◌≡◌, ◌≤◌, ℕ, List, [], ◌∷◌, codes, MatchOption};
ghost use Rattle.sap_outside.specs.RunPieces.{most_run_bytes};
ghost use Rattle.sap_tool.specs.Call.{bytes_of};
ghost use Rattle.sap_tool.specs.Commands.{limit_of};
ghost use Rattle.sap_tool.specs.code.Asked.{AsksFor, AsksNothing, on_file, on_run};

use sap_outside::MOST_RUN_BYTES;
use sap_pages::{commands, page_of, version};
use sap_replay::{MOST_BYTES, MOST_THEORY_BYTES, Task, Way};

/// What is done with what is fetched alone.
#[derive(Clone, Copy)]
pub enum OnFile {
    /// The theory of a file, written in this way.
    Compile(Way),
    /// The run that JSON is.
    FromJson,
    /// Whether a file is accepted, or why not.
    Explain,
}

/// What is done with a run of what is fetched before it.
#[derive(Clone, Copy)]
pub enum OnRun {
    /// A task on a run of a file.
    Replay(Task),
    /// The run of a file that a short run stands for.
    Fill,
    /// What a theory says of a run of its rules.
    Check,
}

/// What words may ask for, with the names behind.
#[derive(Clone, Copy)]
pub enum Command<'a> {
    /// This is done with what has this name.
    File(OnFile, &'a str),
    /// This is done with what has the first name and the run of the second.
    Run(OnRun, &'a str, &'a str),
    /// The run of this name, as JSON.
    ToJson(&'a str),
    /// A sample, of so many sessions as this word says.
    Sample(&'a str),
    /// This text, which tells how the program is called.
    Help(&'static str),
}

impl OnFile {
    /// How many bytes what is fetched may have.
    pub fn limit(self) -> u64
        ensures limit { (name : List ℕ) → result ≡ limit_of (on_file self name) }
        ensures most { result ≤ most_run_bytes }
    {
        match self {
            OnFile::Compile(_) => MOST_BYTES,
            OnFile::FromJson => MOST_RUN_BYTES,
            OnFile::Explain => MOST_BYTES,
        }
    }
}

impl OnRun {
    /// How many bytes what is fetched may have.
    pub fn limit(self) -> u64
        ensures limit { (name run : List ℕ) → result ≡ limit_of (on_run self name run) }
        ensures most { result ≤ most_run_bytes }
    {
        match self {
            OnRun::Replay(_) => MOST_BYTES,
            OnRun::Fill => MOST_BYTES,
            OnRun::Check => MOST_THEORY_BYTES,
        }
    }
}

/// The command that the words ask for.
pub fn command_of(words: &Vec<String>) -> Option<Command<'_>>
    ensures { MatchOption result (AsksNothing (bytes_of words.now.items))
        (λ command. AsksFor (bytes_of words.now.items) command) }
{
    match words.as_slice() {
        [word] => of_one_word(word.as_str()),
        [word, name] => of_one_name(word.as_str(), name.as_str()),
        [word, name, run] => of_two_names(word.as_str(), name.as_str(), run.as_str()),
        _ => None,
    }
}

// What this word asks for, with nothing behind it.
fn of_one_word<'a>(word: &str) -> Option<Command<'a>>
    ensures { MatchOption result (AsksNothing (word.now ∷ []))
        (λ command. AsksFor (word.now ∷ []) command) }
{
    match word {
        "--help" => Some(Command::Help(commands())),
        "help" => Some(Command::Help(commands())),
        "--version" => Some(Command::Help(version())),
        _ => None,
    }
}

// The command that this word asks for, with one name behind it.
fn of_one_name<'a>(word: &str, name: &'a str) -> Option<Command<'a>>
    ensures { MatchOption result (AsksNothing (word.now ∷ name.now ∷ []))
        (λ command. AsksFor (word.now ∷ name.now ∷ []) command) }
{
    match word {
        "compile" => Some(Command::File(OnFile::Compile(Way::Plain), name)),
        "compile-inline" => Some(Command::File(OnFile::Compile(Way::Inlined), name)),
        "compile-short" => Some(Command::File(OnFile::Compile(Way::Short), name)),
        "from-json" => Some(Command::File(OnFile::FromJson, name)),
        "why" => Some(Command::File(OnFile::Explain, name)),
        "to-json" => Some(Command::ToJson(name)),
        "sample" => Some(Command::Sample(name)),
        "help" => of_help(name),
        _ => None,
    }
}

// What `help` asks for, with this name behind it.
fn of_help<'a>(name: &str) -> Option<Command<'a>>
    ensures { MatchOption result (AsksNothing (codes "help" ∷ name.now ∷ []))
        (λ command. AsksFor (codes "help" ∷ name.now ∷ []) command) }
{
    match page_of(name) {
        Some(text) => Some(Command::Help(text)),
        None => None,
    }
}

// The command that this word asks for, with two names behind it.
fn of_two_names<'a>(word: &str, name: &'a str, run: &'a str) -> Option<Command<'a>>
    ensures { MatchOption result (AsksNothing (word.now ∷ name.now ∷ run.now ∷ []))
        (λ command. AsksFor (word.now ∷ name.now ∷ run.now ∷ []) command) }
{
    match word {
        "to-rules" => Some(Command::Run(OnRun::Replay(Task::ToRules), name, run)),
        "to-process" => Some(Command::Run(OnRun::Replay(Task::ToProcess), name, run)),
        "judge" => Some(Command::Run(OnRun::Replay(Task::Judge), name, run)),
        "tell" => Some(Command::Run(OnRun::Replay(Task::Tell), name, run)),
        "chart" => Some(Command::Run(OnRun::Replay(Task::Chart), name, run)),
        "fill" => Some(Command::Run(OnRun::Fill, name, run)),
        "check-rules" => Some(Command::Run(OnRun::Check, name, run)),
        _ => None,
    }
}
