//! Which of the processes is the file's.
ghost use Rattle.std.specs.Prelude.{◌≡◌, ◌<◌, ℕ, List, [], ◌∷◌, map, drop, slice_get, Option, Some, MatchOption, OnOk, IfSome, IfErr};
ghost use Rattle.sap_read.specs.declared.fault.ReadFault.{ReadFault};
ghost use Rattle.sap_statements.specs.declared.statement.Statement.{Statement};
ghost use Rattle.sap_read.specs.declared.entry.Entry.{Entry};
ghost use Rattle.sap_read.specs.Causes.{cause, unlabelled};
ghost use Rattle.sap_read.specs.Item.{Body};
ghost use Rattle.sap_read.specs.Entries.{body};
ghost use Rattle.sap_read.specs.code.Label.{IsProcessAt};

use crate::entry::Entry;
use crate::fault::ReadFault;
use sap_terms::Items;

// The index of the first process without a label at this index or behind it.
fn next_process(entries: &Items<Entry>, from: u64) -> Option<u64>
    ensures next { MatchOption result (unlabelled (map body (drop from entries.now)) ≡ [])
        (IsProcessAt entries.now from) }
    ensures fits { IfSome result (λ k. k < u64.MAX) }
{
    for k in from..entries.len() {
        if entries.at(k).label.is_none() {
            return Some(k);
        }
    }
    None
}

/// Refuses a file that has no process, or several.
#[tactic(auto, using(crate::proofs::Caused::one_process))]
pub(crate) fn check_one_process(entries: &Items<Entry>) -> Result<(), ReadFault>
    ensures found { OnOk result ((b : Body) × (unlabelled (map body entries.now) ≡ b ∷ [])) }
    ensures not_one { IfErr result (λ f. (ss : List Statement) (clash : Option (List ℕ))
        → cause (map body entries.now) ss clash ≡ Some f) }
{
    let Some(first) = next_process(entries, 0) else {
        return Err(ReadFault::NoProcess);
    };
    match next_process(entries, first + 1) {
        None => Ok(()),
        Some(second) => Err(ReadFault::TwoProcesses {
            line: entries.at(second).line,
        }),
    }
}
