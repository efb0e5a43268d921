//! What is told of the other place of a flaw of the process of a file.
ghost use Rattle.std.specs.Prelude.{◌≡◌, ◌≤◌, ℕ, [], Some, IfOk, IfSome, length};
ghost use Rattle.std.specs.List.{All};
ghost use Rattle.sap_text.specs.Spans.{IsWithin};
ghost use Rattle.sap_macro.specs.Indexed.{AreIndexed, defined};
ghost use Rattle.sap_macro.specs.Order.{AreInOrder, UsesOnly};
ghost use Rattle.sap_macro.specs.Sources.{definitions, written};
ghost use Rattle.sap_process.specs.Proc.{proc};
ghost use Rattle.sap_process.specs.declared.flaw.Flaw.TheVariants.{FactClash, Rebound, SortClash};
ghost use Rattle.sap_read.specs.FileExpansions.{IsFileExpansion};
ghost use Rattle.sap_read.specs.FileTokens.{HasTokens};
ghost use Rattle.sap_read.specs.WrittenFiles.{IsWrittenFile};
ghost use Rattle.sap_read_places.specs.OtherFlawPlaces.{HasOtherNode, IsOtherFlawPlace};
ghost use Rattle.sap_read_places.specs.code.FlawNodes.{IsFree, expansion_in};
ghost use Rattle.sap_read_places.specs.code.OtherFlaws.{IsOnly, IsOtherAnswer, IsOtherSpoken};
ghost use Rattle.sap_read_places.specs.declared.told.Told.{Told as ToldOf};

use crate::flaw_told::{front, node_told, spoken_at};
use crate::laws::one_placed_file;
use crate::told::Told;
use sap_macro::{Index, index_of};
use sap_nodes::{Spoken, filled_scopes, nodes_of_flaws};
use sap_other_nodes::{Binder, binder_of_node, binders, differing_fact, other_facts};
use sap_process::{Flaw, Process, sites_are_the_places};
use sap_read::{FileProcesses, WrittenFile, one_list_of_items, one_parting};
use sap_terms::{Mem, Path, Vars};
use sap_text::Token;
use std::alloc::Global;

// What is told of the node that binds the name of this node of the place at this path, if one does.
#[allow(clippy::too_many_arguments)]
fn binder_told(
    alloc: Global,
    bytes: &[u8],
    tokens: &[Token],
    processes: &FileProcesses,
    index: &Index,
    process: &Process,
    path: &Path,
    node: u64,
) -> Result<Option<Told>, Mem>
    requires order { AreInOrder [] (definitions processes.now.definitions) }
    requires index { AreIndexed (definitions processes.now.definitions) index.now }
    requires count { length processes.now.behind ≡ length processes.now.definitions }
    requires uses { UsesOnly (defined (definitions processes.now.definitions)) (written processes.now.main.value) }
    ensures rebound { IfOk result (λ o. IsOnly bytes.now tokens.now processes.now (proc process.now) path.now Rebound node o) }
    ensures signed { IfOk result (λ o. IsOnly bytes.now tokens.now processes.now (proc process.now) path.now SortClash node o) }
    ensures inside { (size : ℕ) → All (IsWithin size) tokens.now
        → IfOk result (λ o. IfSome o (λ t. t.word.from ≤ size)) }
{
    binders();
    let none = Vars::new(alloc);
    match binder_of_node(alloc, &none, process, path, node)? {
        Some(Binder::On(found)) => node_told(
            alloc,
            bytes,
            tokens,
            processes,
            index,
            front(path.as_slice(), found.depth),
            found.node,
        ),
        Some(Binder::Outer) => Ok(None),
        None => Ok(None),
    }
}

// What is told of the first fact that differs from the one that is this node of the place at this path, if one does.
#[allow(clippy::too_many_arguments)]
fn fact_told(
    alloc: Global,
    bytes: &[u8],
    tokens: &[Token],
    processes: &FileProcesses,
    index: &Index,
    process: &Process,
    path: &Path,
    node: u64,
) -> Result<Option<Told>, Mem>
    requires order { AreInOrder [] (definitions processes.now.definitions) }
    requires index { AreIndexed (definitions processes.now.definitions) index.now }
    requires count { length processes.now.behind ≡ length processes.now.definitions }
    requires uses { UsesOnly (defined (definitions processes.now.definitions)) (written processes.now.main.value) }
    ensures is { IfOk result (λ o. IsOnly bytes.now tokens.now processes.now (proc process.now) path.now FactClash node o) }
    ensures inside { (size : ℕ) → All (IsWithin size) tokens.now
        → IfOk result (λ o. IfSome o (λ t. t.word.from ≤ size)) }
{
    other_facts();
    // No head that is in memory has a node of the greatest number.
    if node == u64::MAX {
        return Err(Mem);
    }
    match differing_fact(alloc, process, path, node)? {
        None => Ok(None),
        Some(found) => node_told(
            alloc,
            bytes,
            tokens,
            processes,
            index,
            found.path.as_slice(),
            found.node,
        ),
    }
}

// What is told of the other node, where the flaw speaks of this.
#[allow(clippy::too_many_arguments)]
fn other_spoken_told(
    alloc: Global,
    bytes: &[u8],
    tokens: &[Token],
    processes: &FileProcesses,
    index: &Index,
    process: &Process,
    path: &Path,
    which: Flaw,
    spoken: Spoken,
) -> Result<Option<Told>, Mem>
    requires order { AreInOrder [] (definitions processes.now.definitions) }
    requires index { AreIndexed (definitions processes.now.definitions) index.now }
    requires count { length processes.now.behind ≡ length processes.now.definitions }
    requires uses { UsesOnly (defined (definitions processes.now.definitions)) (written processes.now.main.value) }
    ensures is { IfOk result (λ o. IsOtherSpoken bytes.now tokens.now processes.now (proc process.now) path.now which spoken o) }
    ensures kind { IfOk result (λ o. IfSome o (λ t. HasOtherNode which)) }
    ensures inside { (size : ℕ) → All (IsWithin size) tokens.now
        → IfOk result (λ o. IfSome o (λ t. t.word.from ≤ size)) }
{
    let Some(node) = spoken.node else {
        return Ok(None);
    };
    match which {
        Flaw::Rebound => binder_told(alloc, bytes, tokens, processes, index, process, path, node),
        Flaw::SortClash => binder_told(alloc, bytes, tokens, processes, index, process, path, node),
        Flaw::FactClash => fact_told(alloc, bytes, tokens, processes, index, process, path, node),
        _ => Ok(None),
    }
}

// What is told of the other place of a flaw of this process, the expansion of what is written.
#[allow(clippy::too_many_arguments)]
fn other_of_process(
    alloc: Global,
    bytes: &[u8],
    tokens: &[Token],
    file: &WrittenFile,
    process: &Process,
    which: Flaw,
    path: &Path,
) -> Result<Option<Told>, Mem>
    requires order { AreInOrder [] (definitions file.now.processes.definitions) }
    requires count { length file.now.processes.behind ≡ length file.now.processes.definitions }
    requires uses { UsesOnly (defined (definitions file.now.processes.definitions)) (written file.now.processes.main.value) }
    requires is { proc process.now ≡ expansion_in file.now }
    ensures is { IfOk result (λ o. IsOtherAnswer bytes.now tokens.now file.now which path.now o) }
    ensures kind { IfOk result (λ o. IfSome o (λ t. HasOtherNode which)) }
    ensures inside { (size : ℕ) → All (IsWithin size) tokens.now
        → IfOk result (λ o. IfSome o (λ t. t.word.from ≤ size)) }
{
    let index = index_of(alloc, &file.processes.definitions)?;
    match spoken_at(alloc, file, &index, process, path, which)? {
        None => Ok(None),
        Some(spoken) => other_spoken_told(
            alloc,
            bytes,
            tokens,
            &file.processes,
            &index,
            process,
            path,
            which,
            spoken,
        ),
    }
}

/// What is told of the other place of a flaw that the process of a file has at this path, if it has two: nothing but that, and nothing of
/// other flaws. The time is that of `flaw_told`, and of the heads on the way. Want of memory is the only error.
pub(crate) fn other_flaw_told(
    alloc: Global,
    bytes: &[u8],
    tokens: &[Token],
    written: &WrittenFile,
    process: &Process,
    which: Flaw,
    path: &Path,
) -> Result<Option<Told>, Mem>
    requires tokens { HasTokens bytes.now tokens.now }
    requires written { IsWrittenFile bytes.now written.now }
    requires process { IsFileExpansion written.now (proc process.now) }
    ensures only { IfOk result (λ o. (t : ToldOf) → IsOtherFlawPlace bytes.now which path.now t → o ≡ Some t) }
    ensures kind { IfOk result (λ o. IfSome o (λ t. HasOtherNode which)) }
    ensures inside { IfOk result (λ o. IfSome o (λ t. t.word.from ≤ length bytes.now)) }
{
    one_placed_file();
    one_parting();
    one_list_of_items();
    nodes_of_flaws();
    filled_scopes();
    sites_are_the_places();
    other_of_process(alloc, bytes, tokens, written, process, which, path)
}
