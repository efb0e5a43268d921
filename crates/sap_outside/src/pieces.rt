//! Texts put in pieces.
ghost use Rattle.std.specs.Prelude.{◌≡◌, ◌≤◌, ◌<◌, ◌+◌, ◌-◌, ℕ, length, take, drop, min, OnOk, OnErr, IfOk, IsErrOf};
ghost use Rattle.std.specs.Io.KnownBytes.{Appends};
ghost use Rattle.sap_outside.specs.Outside.{Rose, piece_bytes, one_more};
ghost use Rattle.sap_outside.specs.Stream.{stream, Gained};
ghost use Rattle.sap_outside.specs.Pieces.{pieces, GainedPart};

use crate::{Sink, SinkFault};

/// How many bytes a piece has; the last one may have fewer.
pub const PIECE_BYTES: usize = 4096;

/// Puts the text in pieces. An empty one has none.
pub fn put_pieces<O: Sink>(out: &mut O, text: &[u8]) -> Result<(), SinkFault>
    ensures whole { OnOk result (Gained (stream (O.seen out.old) (O.seen out.new))
        (pieces text.now) text.now) }
    ensures part { OnErr result ((taken : ℕ) × GainedPart (stream (O.seen out.old) (O.seen out.new))
        taken text.now) }
    ensures later { (O.seen out.old).faults ≤ (O.seen out.new).faults }
    ensures cause { IsErrOf result SinkFault.Failed → Rose (O.seen out.old).faults (O.seen out.new).faults }
    ensures later_wants { (O.seen out.old).wants ≤ (O.seen out.new).wants }
    ensures want { IsErrOf result SinkFault.Mem → Rose (O.seen out.old).wants (O.seen out.new).wants }
{
    let mut at = 0;
    while at < text.len() {
        at = put_piece(out, text, at)?;
    }
    Ok(())
}

// Puts the piece that begins at this byte, and answers where it ends.
fn put_piece<O: Sink>(out: &mut O, text: &[u8], at: usize) -> Result<usize, SinkFault>
    requires { at < length text.now }
    ensures end { IfOk result (λ end. end ≡ min (length text.now) (at + piece_bytes)) }
    ensures whole { IfOk result (λ end. Appends (O.seen out.old).written (O.seen out.new).written (take (end - at) (drop at text.now))) }
    ensures part { OnErr result ((n : ℕ) × (n ≤ piece_bytes)
        × Appends (O.seen out.old).written (O.seen out.new).written (take n (drop at text.now))) }
    ensures asked { (O.seen out.new).asked ≡ one_more (O.seen out.old).asked }
    ensures later { (O.seen out.old).faults ≤ (O.seen out.new).faults }
    ensures cause { IsErrOf result SinkFault.Failed → Rose (O.seen out.old).faults (O.seen out.new).faults }
    ensures later_wants { (O.seen out.old).wants ≤ (O.seen out.new).wants }
    ensures want { IsErrOf result SinkFault.Mem → Rose (O.seen out.old).wants (O.seen out.new).wants }
{
    let end = text.len().min(at.saturating_add(PIECE_BYTES));
    out.put(&text[at..end])?;
    Ok(end)
}
