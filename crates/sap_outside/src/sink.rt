//! Sinks: where bytes go.
ghost use Rattle.std.specs.Prelude.{◌≡◌, ◌≢◌, ◌≤◌, ℕ, List, [], IsOk, OnOk, OnErr, IsErrOf, Option};
ghost use Rattle.std.specs.Io.KnownBytes.{Appends};
ghost use Rattle.sap_outside.specs.declared.sink.SinkFault.TheVariants.{Mem};
ghost use Rattle.sap_outside.specs.Outside.{Rose, AppendsSome, one_more};
ghost use Rattle.sap_outside.specs.Seen.{SeenSink};

use std::alloc::AllocError;

/// Why a put didn't take all its bytes.
#[derive(Clone, Copy)]
pub enum SinkFault {
    /// Want of memory.
    Mem,
    /// The bytes couldn't be written.
    Failed,
}

impl From<AllocError> for SinkFault {
    ghost from_gives = { λ _ e. e ≡ Mem };

    fn from(_: AllocError) -> Self {
        SinkFault::Mem
    }
}

/// Where bytes go to.
pub trait Sink {
    /// What is seen of it.
    ghost seen: { Self → SeenSink };

    /// Appends the bytes; after a fault or a want of memory, some first ones of them. No bytes at all are always taken, and
    /// nothing is asked for them.
    fn put(&mut self, bytes: &[u8]) -> Result<(), SinkFault>
        ensures whole { OnOk result (Appends (seen self.old).written (seen self.new).written bytes.now) }
        ensures part { OnErr result (AppendsSome (seen self.old).written (seen self.new).written bytes.now) }
        ensures later { (seen self.old).faults ≤ (seen self.new).faults }
        ensures cause { IsErrOf result SinkFault.Failed → Rose (seen self.old).faults (seen self.new).faults }
        ensures later_wants { (seen self.old).wants ≤ (seen self.new).wants }
        ensures want { IsErrOf result SinkFault.Mem → Rose (seen self.old).wants (seen self.new).wants }
        ensures empty { bytes.now ≡ [] → IsOk result }
        ensures asked { bytes.now ≢ [] → (seen self.new).asked ≡ one_more (seen self.old).asked }
        ensures idle { bytes.now ≡ [] → (seen self.new).asked ≡ (seen self.old).asked };
}
