//! What is done with a run of a file.
ghost use Rattle.std.specs.Prelude.{◌≡◌};
ghost use Rattle.sap_replay.specs.Tasks.{kinds_of};

use sap_run_texts::Kinds;

/// What becomes of a run of a file.
#[derive(Clone, Copy)]
pub enum Task {
    /// A run of the file's process is converted to one of its rules.
    ToRules,
    /// A run of the file's rules is converted to one of its process.
    ToProcess,
    /// The file's restrictions and lemmas are judged on what a run of either kind shows.
    Judge,
    /// A run of either kind is told line by line, as one of the process, and the same is judged behind it.
    Tell,
    /// A run of either kind is drawn, as one of the process.
    Chart,
}

/// Of which kind a run has to be for it.
pub fn kinds_of(task: Task) -> Kinds
    ensures { result ≡ kinds_of task }
{
    match task {
        Task::ToRules => Kinds::Process,
        Task::ToProcess => Kinds::Rules,
        Task::Judge => Kinds::Either,
        Task::Tell => Kinds::Either,
        Task::Chart => Kinds::Either,
    }
}
