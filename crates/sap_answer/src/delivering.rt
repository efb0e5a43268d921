//! How what a call ends with is put.

ghost use Rattle.std.specs.Prelude.{◌≡◌, ◌≢◌, ◌≤◌, ◌⊎◌, ℕ, List, [], IfSome};
ghost use Rattle.std.specs.Io.KnownBytes.{Appends};
ghost use Rattle.sap_outside.specs.Outside.{Rose, one_more};
ghost use Rattle.sap_outside.specs.Stream.{Stream, stream, Gained};
ghost use Rattle.sap_answer.specs.Answer.{gives, tells, HasText, IsDelivered, IsLast, IsPut};
ghost use Rattle.sap_answer.specs.Endings.{answer_of};

use crate::answer::{Answer, answer_of};
use crate::ending::Ending;
use sap_outside::{Sink, SinkFault, put_pieces};

/// Puts on out or on err what is said at the end, and answers its status.
pub fn deliver<O: Sink, E: Sink>(ending: &Ending, out: &mut O, err: &mut E) -> u8
    ensures { IfSome (answer_of ending.now) HasText → IsDelivered (answer_of ending.now)
        (stream (O.seen out.old) (O.seen out.new))
        (stream (E.seen err.old) (E.seen err.new))
        result }
{
    match answer_of(ending) {
        Some(Answer::Out(text)) => give(out, err, text),
        Some(Answer::Err(status, text)) => tell(err, status, text),
        None => last_word(err, 6, b"out of memory\n"),
    }
}

// Puts a text on out, in pieces.
fn give<O: Sink, E: Sink>(out: &mut O, err: &mut E, text: &[u8]) -> u8
    ensures { IsPut (gives text.now)
        (stream (O.seen out.old) (O.seen out.new))
        (stream (E.seen err.old) (E.seen err.new))
        result }
{
    match put_pieces(out, text) {
        Ok(()) => 0,
        Err(SinkFault::Failed) => last_word(err, 5, b"write fault\n"),
        Err(SinkFault::Mem) => last_word(err, 6, b"out of memory\n"),
    }
}

// Puts the text of a status on err, and nothing on out.
fn tell<E: Sink>(err: &mut E, status: u8, text: &[u8]) -> u8
    ensures { (out : Stream) → Gained out 0 [] → text.now ≢ [] → IsPut (tells status text.now) out
        (stream (E.seen err.old) (E.seen err.new))
        result }
{
    match err.put(text) {
        Ok(()) => status,
        Err(SinkFault::Failed) => last_word(err, 5, b"write fault\n"),
        Err(SinkFault::Mem) => last_word(err, 6, b"out of memory\n"),
    }
}

// Puts the last word on err, where err still takes it.
fn last_word<E: Sink>(err: &mut E, status: u8, word: &[u8]) -> u8
    ensures status { result ≡ status }
    ensures faults { (E.seen err.old).faults ≤ (E.seen err.new).faults }
    ensures wants { (E.seen err.old).wants ≤ (E.seen err.new).wants }
    ensures asked { word.now ≢ [] → (E.seen err.new).asked ≡ one_more (E.seen err.old).asked }
    ensures ends { (last : List ℕ) × Appends (E.seen err.old).written (E.seen err.new).written last
        × IsLast (Rose (E.seen err.old).faults (E.seen err.new).faults ⊎ Rose (E.seen err.old).wants (E.seen err.new).wants) word.now last }
{
    match err.put(word) {
        Ok(()) => status,
        Err(SinkFault::Failed) => status,
        Err(SinkFault::Mem) => status,
    }
}
