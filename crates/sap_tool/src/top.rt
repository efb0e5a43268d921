//! The top call.

ghost use Rattle.sap_outside.specs.Stream.{stream};
ghost use Rattle.sap_tool.specs.Call.{call};
ghost use Rattle.sap_tool.specs.Answers.{IsAnswer, IsBegun, Ended};
ghost use Rattle.sap_tool.specs.Promises.{Promises};

use crate::asking::ending;
use sap_answer::deliver;
use sap_gen::{
    one_short_theory, short_theories_are_printable, short_theories_keep_files,
    theories_are_printable, theories_keep_files,
};
use sap_intruder::filled_runs_are_legal;
use sap_outside::{Shelf, Sink};
use sap_pages::one_page;
use sap_read::{files_are_printable, files_are_runnable, files_show_as_they_are_written, one_file};
use sap_replay::{
    legal_runs_are_not_refused, read_theories_can_run, refused_runs_have_one_cause,
    texts_mean_what_they_say,
};
use sap_theory::{one_answer_of_theories, printed_theories};
use std::alloc::Global;

/// Runs the program on its words, those after its name, and answers its status.
///
/// - 0: out gained the text that the words ask for, whole: the theory of a file, the run opposite to one, the run that a short one
///   stands for, what is said of the restrictions and lemmas on one, a run as it is told, a picture of one, a run as JSON, the run that
///   JSON is, what is told of a sample, the list of commands, the page of one, or the program's version.
/// - 1: the file, or the theory, is refused.
/// - 2: the run, or the JSON of one, is refused.
/// - 3: the words are none of the program's.
/// - 4: the file, the run or the JSON couldn't be read.
/// - 5: out or err failed.
/// - 6: memory was wanting.
///
/// The text of each status from 1 on goes to err, ended by a line feed; a fault while that of 5 or 6 is written is passed over.
pub fn sapic<S: Shelf, O: Sink, E: Sink>(
    alloc: Global,
    words: &Vec<String>,
    shelf: &mut S,
    out: &mut O,
    err: &mut E,
) -> u8
    ensures { Promises
        (call words.now.items (S.seen shelf.old) (S.seen shelf.new)
        (O.seen out.old) (O.seen out.new) (E.seen err.old) (E.seen err.new))
        result }
{
    theories_keep_files();
    theories_are_printable();
    one_short_theory();
    short_theories_keep_files();
    short_theories_are_printable();
    printed_theories();
    files_are_runnable();
    files_are_printable();
    files_show_as_they_are_written();
    one_file();
    one_answer_of_theories();
    read_theories_can_run();
    texts_mean_what_they_say();
    refused_runs_have_one_cause();
    legal_runs_are_not_refused();
    filled_runs_are_legal();
    one_page();
    run(alloc, words, shelf, out, err)
}

fn run<S: Shelf, O: Sink, E: Sink>(
    alloc: Global,
    words: &Vec<String>,
    shelf: &mut S,
    out: &mut O,
    err: &mut E,
) -> u8
    ensures { Ended (IsAnswer
        (call words.now.items (S.seen shelf.old) (S.seen shelf.new)
        (O.seen out.old) (O.seen out.new) (E.seen err.old) (E.seen err.new)))
        (IsBegun
        (call words.now.items (S.seen shelf.old) (S.seen shelf.new)
        (O.seen out.old) (O.seen out.new) (E.seen err.old) (E.seen err.new)))
        (stream (O.seen out.old) (O.seen out.new))
        (stream (E.seen err.old) (E.seen err.new))
        result }
{
    let ending = ending(alloc, words, shelf);
    deliver(&ending, out, err)
}
