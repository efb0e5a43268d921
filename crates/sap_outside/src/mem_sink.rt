//! Memory, as a sink that fails when it is told to.
ghost use Rattle.std.specs.Prelude.{◌≡◌, ◌≢◌, ◌≤◌, ◌+◌, ◌-◌, ◌^◌, ◌++◌, ℕ, [], take, min, IsOk, OnOk, OnErr, IfErr, IsErrOf, IfSome, None, Some};
ghost use Rattle.sap_outside.specs.Outside.{Rose, one_more, taken_at};
ghost use Rattle.sap_outside.specs.Seen.{seen_sink};

use crate::{Sink, SinkFault};

/// A sink in memory, which tells its bytes.
#[derive(Drop)]
pub struct MemSink {
    /// What was written.
    pub bytes: Vec<u8>,
    /// The number, from 1, of each call that fails, and how many bytes it still takes. Of several pairs of
    /// one call the first counts.
    pub fail_on: Vec<(u64, u64)>,
    /// How many calls with bytes there were; it stops at the greatest u64.
    pub calls: u64,
    /// How many of them failed; it stops at the greatest u64.
    pub count: u64,
    /// How many of them found no memory; it stops at the greatest u64.
    pub wants: u64,
}

impl MemSink {
    // Appends the bytes, or counts a want of memory.
    fn append(&mut self, bytes: &[u8]) -> Result<(), SinkFault>
        ensures whole { OnOk result (self.new.bytes.items ≡ self.old.bytes.items ++ bytes.now) }
        ensures mem { OnErr result (self.new.bytes.items ≡ self.old.bytes.items) }
        ensures later { self.old.wants ≤ self.new.wants }
        ensures wanted { OnErr result (self.new.wants ≡ min (self.old.wants + 1) (2 ^ 64 - 1)) }
        ensures unwanted { OnOk result (self.new.wants ≡ self.old.wants) }
        ensures only { IfErr result (λ e. e ≡ SinkFault.Mem) }
        ensures list { self.new.fail_on.items ≡ self.old.fail_on.items }
        ensures calls { self.new.calls ≡ self.old.calls }
        ensures count { self.new.count ≡ self.old.count }
    {
        match self.bytes.extend_from_slice(bytes) {
            Ok(()) => Ok(()),
            Err(_) => {
                self.wants = self.wants.saturating_add(1);
                Err(SinkFault::Mem)
            }
        }
    }
}

// How many bytes are taken before the failure of this call, if it fails.
fn taken_before_failure(fail_on: &[(u64, u64)], call: u64) -> Option<u64>
    ensures { result ≡ taken_at fail_on.now call }
{
    for (number, bytes) in fail_on {
        if *number == call {
            return Some(*bytes);
        }
    }
    None
}

impl Sink for MemSink {
    ghost seen = { λ s. seen_sink (Some s.bytes.items) s.count s.wants (Some s.calls) };

    // It fails exactly where a pair has the number of the call.
    fn put(&mut self, bytes: &[u8]) -> Result<(), SinkFault>
        ensures whole { OnOk result (self.new.bytes.items ≡ self.old.bytes.items ++ bytes.now) }
        ensures part { OnErr result ((n : ℕ) × (self.new.bytes.items ≡ self.old.bytes.items ++ take n bytes.now)) }
        ensures later { self.old.count ≤ self.new.count }
        ensures cause { IsErrOf result SinkFault.Failed → Rose self.old.count self.new.count }
        ensures later_wants { self.old.wants ≤ self.new.wants }
        ensures want { IsErrOf result SinkFault.Mem → Rose self.old.wants self.new.wants }
        ensures empty { bytes.now ≡ [] → IsOk result × (self.new.calls ≡ self.old.calls) }
        ensures asked { bytes.now ≢ [] → Some self.new.calls ≡ one_more (Some self.old.calls) }
        ensures idle { bytes.now ≡ [] → Some self.new.calls ≡ Some self.old.calls }
        ensures list { self.new.fail_on.items ≡ self.old.fail_on.items }
        ensures calls { bytes.now ≢ [] → self.new.calls ≡ min (self.old.calls + 1) (2 ^ 64 - 1) }
        ensures failed { IsErrOf result SinkFault.Failed
            → IfSome (taken_at self.old.fail_on.items self.new.calls) (λ n. self.new.bytes.items ≡ self.old.bytes.items ++ take n bytes.now) }
        ensures only_pairs { IsErrOf result SinkFault.Failed → taken_at self.old.fail_on.items self.new.calls ≢ None }
        ensures unpaired { OnOk result (bytes.now ≢ [] → taken_at self.old.fail_on.items self.new.calls ≡ None) }
        ensures counted { IsErrOf result SinkFault.Failed → self.new.count ≡ min (self.old.count + 1) (2 ^ 64 - 1) }
        ensures uncounted { OnOk result (self.new.count ≡ self.old.count) }
        ensures mem { IsErrOf result SinkFault.Mem → self.new.bytes.items ≡ self.old.bytes.items }
        ensures mem_count { IsErrOf result SinkFault.Mem → self.new.count ≡ self.old.count }
        ensures wanted { IsErrOf result SinkFault.Mem → self.new.wants ≡ min (self.old.wants + 1) (2 ^ 64 - 1) }
        ensures unwanted { (IsErrOf result SinkFault.Mem → ⊥) → self.new.wants ≡ self.old.wants }
    {
        if bytes.is_empty() {
            return Ok(());
        }
        self.calls = self.calls.saturating_add(1);
        match taken_before_failure(&self.fail_on, self.calls) {
            None => self.append(bytes),
            Some(n) => {
                let n = n.min(bytes.len() as u64) as usize;
                self.append(&bytes[..n])?;
                self.count = self.count.saturating_add(1);
                Err(SinkFault::Failed)
            }
        }
    }
}
