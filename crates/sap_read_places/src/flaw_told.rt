//! What is told of a flaw of the process of a file.
ghost use Rattle.std.specs.Prelude.{◌≡◌, ◌≤◌, ℕ, [], None, IfOk, IfSome, length, map, take};
ghost use Rattle.std.specs.List.{All};
ghost use Rattle.sap_text.specs.Spans.{IsWithin};
ghost use Rattle.sap_macro.specs.Indexed.{AreIndexed, defined};
ghost use Rattle.sap_macro.specs.Order.{AreInOrder, UsesOnly};
ghost use Rattle.sap_macro.specs.Sources.{definitions, written};
ghost use Rattle.sap_process.specs.Proc.{proc};
ghost use Rattle.sap_origin.specs.Origins.{words_left};
ghost use Rattle.sap_read.specs.FileExpansions.{IsFileExpansion};
ghost use Rattle.sap_read.specs.FileTokens.{HasTokens};
ghost use Rattle.sap_read.specs.WrittenFiles.{IsWrittenFile};
ghost use Rattle.sap_read_places.specs.FlawPlaces.{IsFlawPlace};
ghost use Rattle.sap_read_places.specs.Placed.{stretch_before};
ghost use Rattle.sap_stretches.specs.Stretches.{IsInBytes};
ghost use Rattle.sap_read_places.specs.code.FlawNodes.{IsFlawAnswer, IsFree, IsNodeIn, IsSpokenIn, IsWrittenTold, Speaks, expansion_in, words_above};
ghost use Rattle.sap_read_places.specs.declared.told.Told.{Told as ToldOf};

use crate::late::{stretch_before, stretches_back, told_in_processes};
use crate::laws::one_placed_file;
use crate::node_words::item_tokens;
use crate::told::Told;
use sap_head_words::{head_word, some_head};
use sap_macro::{Index, index_of, located_is_written};
use sap_nodes::{Spoken, filled_scopes, node_at, nodes_of_flaws};
use sap_origin::{
    FileWord, Replaced, Trail, Use, expansions_are_meant, located_definitions_are_written,
    number_of, one_written_place, trail_of, trails_are_uses, use_words,
};
use sap_process::{Flaw, Process, sites_are_the_places};
use sap_read::{FileProcesses, WrittenFile, bodies_are_spelled, one_list_of_items, one_parting};
use sap_stems::{WrittenNode, nodes_have_stems, stem_in};
use sap_terms::{Items, Mem, Path, Vars};
use sap_text::Token;
use std::alloc::Global;

// What is told of the word, below the first of these uses.
fn told_below(
    alloc: Global,
    tokens: &[Token],
    word: FileWord,
    uses: &Items<Use<'_>>,
    count: u64,
) -> Result<Told, Mem>
    ensures word { IfOk result (λ t. t.word ≡ stretch_before tokens.now (words_left word)) }
    ensures above { IfOk result (λ t. t.uses
        ≡ map (stretch_before tokens.now) (words_above count uses.now)) }
    ensures inside { (size : ℕ) → All (IsWithin size) tokens.now → IfOk result (λ t. t.word.from ≤ size) }
    ensures uses { (size : ℕ) → All (IsWithin size) tokens.now
        → IfOk result (λ t. All (IsInBytes size) t.uses) }
{
    let words = use_words(alloc, uses, count)?;
    Ok(Told {
        word: stretch_before(tokens, word),
        uses: stretches_back(alloc, tokens, words.as_slice())?,
    })
}

// What is told of a written node, below the first of these uses. No head that is in memory has a node of the greatest number.
fn written_told(
    alloc: Global,
    bytes: &[u8],
    tokens: &[Token],
    uses: &Items<Use<'_>>,
    node: WrittenNode<'_>,
) -> Result<Option<Told>, Mem>
    ensures is { IfOk result (λ o. IsWrittenTold bytes.now tokens.now uses.now node.entry o) }
    ensures inside { (size : ℕ) → All (IsWithin size) tokens.now
        → IfOk result (λ o. IfSome o (λ t. t.word.from ≤ size)) }
    ensures used { (size : ℕ) → All (IsWithin size) tokens.now
        → IfOk result (λ o. IfSome o (λ t. All (IsInBytes size) t.uses)) }
{
    if node.index == u64::MAX {
        return Err(Mem);
    }
    let item = item_tokens(tokens, number_of(node.source), node.behind);
    match head_word(bytes, item, node.source, node.index as usize) {
        None => Ok(None),
        Some(left) => {
            let word = FileWord {
                left,
                behind: node.behind,
            };
            let t = told_below(alloc, tokens, word, uses, node.uses)?;
            Ok(Some(t))
        }
    }
}

/// What is told of the node of this number at the place to which the path leads in these processes, if it leads to one that has it.
pub(crate) fn node_told(
    alloc: Global,
    bytes: &[u8],
    tokens: &[Token],
    processes: &FileProcesses,
    index: &Index,
    path: &[u8],
    node: u64,
) -> Result<Option<Told>, Mem>
    requires order { AreInOrder [] (definitions processes.now.definitions) }
    requires index { AreIndexed (definitions processes.now.definitions) index.now }
    requires count { length processes.now.behind ≡ length processes.now.definitions }
    requires uses { UsesOnly (defined (definitions processes.now.definitions)) (written processes.now.main.value) }
    ensures is { IfOk result (λ o. IsNodeIn bytes.now tokens.now processes.now path.now node o) }
    ensures inside { (size : ℕ) → All (IsWithin size) tokens.now
        → IfOk result (λ o. IfSome o (λ t. t.word.from ≤ size)) }
    ensures used { (size : ℕ) → All (IsWithin size) tokens.now
        → IfOk result (λ o. IfSome o (λ t. All (IsInBytes size) t.uses)) }
{
    nodes_have_stems();
    trails_are_uses();
    one_written_place();
    let Some(trail) = trail_of(
        alloc,
        &processes.definitions,
        index,
        processes.behind.as_slice(),
        &processes.main,
        processes.behind_main,
        path,
        Replaced::Every,
    )?
    else {
        return Ok(None);
    };
    match stem_in(alloc, &processes.definitions, &trail, node)? {
        None => Ok(None),
        Some(stem) => written_told(alloc, bytes, tokens, &trail.uses, stem),
    }
}

/// The first digits of the path.
pub(crate) fn front(path: &[u8], depth: u64) -> &[u8]
    ensures { result.now ≡ take depth path.now }
{
    let n = depth as usize;
    if n < path.len() { &path[..n] } else { path }
}

// What is told of that of which a flaw speaks.
#[allow(clippy::too_many_arguments)]
fn spoken_told(
    alloc: Global,
    bytes: &[u8],
    tokens: &[Token],
    processes: &FileProcesses,
    index: &Index,
    path: &[u8],
    spoken: Spoken,
) -> Result<Option<Told>, Mem>
    requires order { AreInOrder [] (definitions processes.now.definitions) }
    requires index { AreIndexed (definitions processes.now.definitions) index.now }
    requires count { length processes.now.behind ≡ length processes.now.definitions }
    requires uses { UsesOnly (defined (definitions processes.now.definitions)) (written processes.now.main.value) }
    ensures is { IfOk result (λ o. IsSpokenIn bytes.now tokens.now processes.now
        (take spoken.depth path.now) spoken.node o) }
    ensures inside { (size : ℕ) → All (IsWithin size) tokens.now
        → IfOk result (λ o. IfSome o (λ t. t.word.from ≤ size)) }
    ensures used { (size : ℕ) → All (IsWithin size) tokens.now
        → IfOk result (λ o. IfSome o (λ t. All (IsInBytes size) t.uses)) }
{
    let above = front(path, spoken.depth);
    match spoken.node {
        Some(node) => node_told(alloc, bytes, tokens, processes, index, above, node),
        None => told_in_processes(alloc, tokens, processes, index, above),
    }
}

/// Of what the flaw speaks that this process, the expansion of what is written, has at this path, if there is such a place.
pub(crate) fn spoken_at(
    alloc: Global,
    file: &WrittenFile,
    index: &Index,
    process: &Process,
    path: &Path,
    which: Flaw,
) -> Result<Option<Spoken>, Mem>
    requires order { AreInOrder [] (definitions file.now.processes.definitions) }
    requires index { AreIndexed (definitions file.now.processes.definitions) index.now }
    requires count { length file.now.processes.behind ≡ length file.now.processes.definitions }
    requires uses { UsesOnly (defined (definitions file.now.processes.definitions)) (written file.now.processes.main.value) }
    requires is { proc process.now ≡ expansion_in file.now }
    ensures { IfOk result (λ o. Speaks file.now.declared.signature (expansion_in file.now) which path.now o) }
{
    located_is_written();
    located_definitions_are_written();
    expansions_are_meant();
    one_written_place();
    sites_are_the_places();
    nodes_of_flaws();
    filled_scopes();
    let processes = &file.processes;
    match trail_of(
        alloc,
        &processes.definitions,
        index,
        processes.behind.as_slice(),
        &processes.main,
        processes.behind_main,
        path.as_slice(),
        Replaced::Every,
    )? {
        None => Ok(None),
        Some(trail) => {
            drop(trail);
            let none = Vars::new(alloc);
            node_at(alloc, &file.declared.signature, &none, process, path, which)
        }
    }
}

// What is told of a flaw of this process, the expansion of what is written.
#[allow(clippy::too_many_arguments)]
fn told_of_process(
    alloc: Global,
    bytes: &[u8],
    tokens: &[Token],
    file: &WrittenFile,
    process: &Process,
    which: Flaw,
    path: &Path,
) -> Result<Option<Told>, Mem>
    requires order { AreInOrder [] (definitions file.now.processes.definitions) }
    requires count { length file.now.processes.behind ≡ length file.now.processes.definitions }
    requires uses { UsesOnly (defined (definitions file.now.processes.definitions)) (written file.now.processes.main.value) }
    requires is { proc process.now ≡ expansion_in file.now }
    requires free { IsFree file.now }
    ensures is { IfOk result (λ o. IsFlawAnswer bytes.now tokens.now file.now which path.now o) }
    ensures inside { (size : ℕ) → All (IsWithin size) tokens.now
        → IfOk result (λ o. IfSome o (λ t. t.word.from ≤ size)) }
    ensures used { (size : ℕ) → All (IsWithin size) tokens.now
        → IfOk result (λ o. IfSome o (λ t. All (IsInBytes size) t.uses)) }
{
    let index = index_of(alloc, &file.processes.definitions)?;
    match spoken_at(alloc, file, &index, process, path, which)? {
        None => Ok(None),
        Some(spoken) => spoken_told(
            alloc,
            bytes,
            tokens,
            &file.processes,
            &index,
            path.as_slice(),
            spoken,
        ),
    }
}

/// What is told of a flaw that the process of a file has at this path: the word of that of which it speaks, and the uses above it, the
/// innermost first, if nothing refuses the file before and the process has such a flaw there. The time is linear in the tokens and in
/// the expansion, but for names, which are looked up. Want of memory is the only error.
pub(crate) fn flaw_told(
    alloc: Global,
    bytes: &[u8],
    tokens: &[Token],
    written: &WrittenFile,
    process: &Process,
    which: Flaw,
    path: &Path,
) -> Result<Option<Told>, Mem>
    requires tokens { HasTokens bytes.now tokens.now }
    requires written { IsWrittenFile bytes.now written.now }
    requires process { IsFileExpansion written.now (proc process.now) }
    ensures place { IfOk result (λ o. IfSome o (λ t. IsFlawPlace bytes.now which path.now t)) }
    ensures inside { IfOk result (λ o. IfSome o (λ t. t.word.from ≤ length bytes.now)) }
    ensures uses { IfOk result (λ o. IfSome o (λ t. All (IsInBytes (length bytes.now)) t.uses)) }
    ensures none { IfOk result (λ o. o ≡ None → (t : ToldOf) → IsFlawPlace bytes.now which path.now t → ⊥) }
{
    one_placed_file();
    one_parting();
    one_list_of_items();
    bodies_are_spelled();
    some_head();
    nodes_have_stems();
    nodes_of_flaws();
    filled_scopes();
    sites_are_the_places();
    told_of_process(alloc, bytes, tokens, written, process, which, path)
}
