//! The streams of the system, as sinks.
ghost use Rattle.std.specs.Prelude.{◌≡◌, ◌≤◌, ◌+◌, ◌-◌, ◌^◌, [], length, min, IsOk, OnOk, IfErr, IfSome, IsErrOf, None};
ghost use Rattle.sap_outside.specs.Outside.{Rose};
ghost use Rattle.sap_outside.specs.Seen.{seen_sink};

use crate::file_shelf::MOST_TRIES;
use crate::{Sink, SinkFault};
use std::io::{ErrorKind, Write};

/// A stream of the system, as standard output or standard error, which tells nothing.
#[derive(Drop)]
pub struct StreamSink<W: Write> {
    /// The stream.
    pub to: W,
    /// How many calls failed; it stops at the greatest u64.
    pub count: u64,
}

// Writes once: how many bytes were taken, none where it fails or takes nothing. A write that a signal interrupts is tried again.
fn write_some<W: Write>(to: &mut W, bytes: &[u8]) -> Option<usize>
    ensures { IfSome result (λ n. (1 ≤ n) × (n ≤ length bytes.now)) }
{
    for _ in 0..MOST_TRIES {
        match to.write(bytes) {
            Ok(n) if n > 0 => return Some(n),
            Err(e) if e.kind() == ErrorKind::Interrupted => (),
            _ => return None,
        }
    }
    None
}

impl<W: Write> Sink for StreamSink<W> {
    ghost seen = { λ s. seen_sink None s.count 0 None };

    // It wants no memory, and the count rises exactly where it fails. A write that takes nothing is a fault, and so is one that
    // signals interrupt too often. Each turn writes at least one byte.
    fn put(&mut self, bytes: &[u8]) -> Result<(), SinkFault>
        ensures later { self.old.count ≤ self.new.count }
        ensures cause { IsErrOf result SinkFault.Failed → Rose self.old.count self.new.count }
        ensures empty { bytes.now ≡ [] → IsOk result }
        ensures counted { IsErrOf result SinkFault.Failed → self.new.count ≡ min (self.old.count + 1) (2 ^ 64 - 1) }
        ensures uncounted { OnOk result (self.new.count ≡ self.old.count) }
        ensures only { IfErr result (λ e. e ≡ SinkFault.Failed) }
    {
        let mut rest = bytes;
        for _ in 0..bytes.len() {
            if rest.is_empty() {
                return Ok(());
            }
            match write_some(&mut self.to, rest) {
                Some(n) => rest = &rest[n..],
                None => {
                    self.count = self.count.saturating_add(1);
                    return Err(SinkFault::Failed);
                }
            }
        }
        Ok(())
    }
}
