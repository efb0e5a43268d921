//! What a call ends with.
ghost use Rattle.std.specs.Prelude.{◌≡◌};
ghost use Rattle.sap_answer.specs.Endings.{ending_of, file_ending_of, refused_ending, unread_ending, written_ending};

use crate::refusal::Refusal;
use sap_outside::ShelfFault;
use sap_terms::Mem;
use sap_text::Text;

/// What is said at the end of a call.
#[derive(Drop)]
pub enum Ending {
    /// This text on out.
    Given(Text),
    /// This text on out, which tells how the program is called, and for which no memory is wanted.
    Help(&'static str),
    /// The words ask for nothing.
    Usage,
    /// A file or a run couldn't be read.
    Unread,
    /// The file, or the theory, is refused; the line that says why, with its line feed.
    File(Text),
    /// The run is refused; the line that says why, with its line feed.
    Run(Text),
    /// Memory was wanting.
    Mem,
}

/// Ends as a failed fetch, or a failed read of a run, does.
pub fn of_fault(fault: ShelfFault) -> Ending
    ensures { result ≡ unread_ending fault }
{
    match fault {
        ShelfFault::Failed => Ending::Unread,
        ShelfFault::Mem => Ending::Mem,
    }
}

/// Ends with this text, which refuses nothing.
pub fn of_text(text: Result<Text, Mem>) -> Ending
    ensures { result ≡ written_ending text }
{
    match text {
        Ok(text) => Ending::Given(text),
        Err(_) => Ending::Mem,
    }
}

/// Ends with this text, or with the line that refuses a file.
pub fn of_file(text: Result<Text, Refusal>) -> Ending
    ensures { result ≡ file_ending_of text }
{
    match text {
        Ok(theory) => Ending::Given(theory),
        Err(refusal) => of_refused(refusal),
    }
}

/// Ends with the line that refuses a file or theory.
pub fn of_refused(refusal: Refusal) -> Ending
    ensures { result ≡ refused_ending refusal }
{
    match refusal {
        Refusal::Told(line) => Ending::File(line),
        Refusal::Mem => Ending::Mem,
    }
}

/// Ends with this text, or with the line that refuses a run.
pub fn of_run(text: Result<Text, Refusal>) -> Ending
    ensures { result ≡ ending_of text }
{
    match text {
        Ok(written) => Ending::Given(written),
        Err(Refusal::Told(line)) => Ending::Run(line),
        Err(Refusal::Mem) => Ending::Mem,
    }
}
