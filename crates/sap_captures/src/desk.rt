//! From which words of a file the nodes of a place stem.
ghost use Rattle.std.specs.Prelude.{◌≡◌, ◌≤◌, ◌+◌, ◌-◌, ◌↔◌, ℕ, List, Contains, Some, IfOk, IfSome, OnOk, drop, length, take};
ghost use Rattle.sap_origin.specs.Trails.{IsTrail};
ghost use Rattle.sap_stems.specs.StemOf.{IsNodeOf};
ghost use Rattle.sap_stems.specs.Stems.{Stem};
ghost use Rattle.sap_stems.specs.WrittenPlaces.{IsWrittenNode};
ghost use Rattle.sap_captures.specs.code.Flags.{IsGrown};
ghost use Rattle.sap_captures.specs.code.Marks.{HasIndexIn, IsDesk, IsIndexAt, IsStemIndex, definitions_on, main_on};

use crate::flags::Flags;
use crate::kind::{Kind, is_from};
use sap_grammar::beyond;
use sap_head_words::head_word;
use sap_macro::Index;
use sap_origin::{Replaced, Trail, number_of, trail_of};
use sap_read::WrittenFile;
use sap_stems::{WrittenNode, nodes_have_stems, stem_in};
use sap_terms::{Items, Mem, Path};
use sap_text::Token;
use std::alloc::Global;

/// What lies before one who looks for words: the bytes of a file, its tokens, what is written in it, and its definitions by name.
#[derive(Clone, Copy)]
pub(crate) struct Desk<'a> {
    pub(crate) bytes: &'a [u8],
    pub(crate) tokens: &'a [Token],
    pub(crate) file: &'a WrittenFile,
    pub(crate) index: &'a Index,
}

// The tokens of an item from the word on from which so many of the item are left, where so many words are behind the item.
fn item_tokens(tokens: &[Token], left: usize, behind: usize) -> &[Token]
    ensures { result.now ≡ take left (drop (length tokens.now - (left + behind)) tokens.now) }
{
    let from = beyond(
        tokens.len().saturating_sub(left).saturating_sub(behind),
        tokens,
    );
    if left < from.len() {
        &from[..left]
    } else {
        from
    }
}

// The number of the token from which so many of an item are left, where so many words are behind the item.
fn number_before(tokens: &[Token], left: usize, behind: usize) -> usize
    ensures is { result ≡ length tokens.now - left - behind }
    ensures small { result ≤ length tokens.now }
{
    tokens.len().saturating_sub(left).saturating_sub(behind)
}

// The number of the token of a written node. No head that is in memory has a node of the greatest number.
fn word_index(desk: &Desk<'_>, node: WrittenNode<'_>) -> Result<Option<usize>, Mem>
    requires desk { IsDesk desk.now }
    ensures is { (s : Stem) → IsNodeOf s node.entry
        → IsWrittenNode (definitions_on desk.now) (main_on desk.now).process (main_on desk.now).behind s
        → IfOk result (λ o. (i : ℕ) → (o ≡ Some i) ↔ IsStemIndex desk.now s i) }
    ensures small { IfOk result (λ o. IfSome o (λ i. i ≤ length desk.now.tokens.now)) }
{
    if node.index == u64::MAX {
        return Err(Mem);
    }
    let item = item_tokens(desk.tokens, number_of(node.source), node.behind);
    match head_word(desk.bytes, item, node.source, node.index as usize) {
        None => Ok(None),
        Some(left) => Ok(Some(number_before(desk.tokens, left, node.behind))),
    }
}

// The number of the token from which this node of the place stems to which the trail leads, if it is told.
fn index_at(
    alloc: Global,
    desk: &Desk<'_>,
    trail: &Trail<'_>,
    kind: Kind,
    node: u64,
) -> Result<Option<usize>, Mem>
    requires desk { IsDesk desk.now }
    ensures is { (path : List ℕ) → IsTrail (definitions_on desk.now) (main_on desk.now).process
        (main_on desk.now).behind path trail.now
        → IfOk result (λ o. (i : ℕ) → (o ≡ Some i) ↔ IsIndexAt desk.now kind path node i) }
    ensures small { IfOk result (λ o. IfSome o (λ i. i ≤ length desk.now.tokens.now)) }
{
    nodes_have_stems();
    match stem_in(alloc, &desk.file.processes.definitions, trail, node)? {
        None => Ok(None),
        Some(stem) => {
            if is_from(kind, stem.source) {
                word_index(desk, stem)
            } else {
                Ok(None)
            }
        }
    }
}

// Sets the flag of that token.
fn note_node(
    alloc: Global,
    desk: &Desk<'_>,
    trail: &Trail<'_>,
    kind: Kind,
    node: u64,
    flags: &mut Flags,
) -> Result<(), Mem>
    requires desk { IsDesk desk.now }
    requires room { length flags.old ≡ length desk.now.tokens.now + 1 }
    ensures same { OnOk result (length flags.new ≡ length flags.old) }
    ensures grown { (path : List ℕ) → IsTrail (definitions_on desk.now) (main_on desk.now).process
        (main_on desk.now).behind path trail.now
        → OnOk result (IsGrown (λ i. IsIndexAt desk.now kind path node i) flags.old flags.new) }
{
    match index_at(alloc, desk, trail, kind, node)? {
        None => Ok(()),
        Some(i) => {
            flags.set(i);
            Ok(())
        }
    }
}

// Those of these nodes.
fn note_nodes(
    alloc: Global,
    desk: &Desk<'_>,
    trail: &Trail<'_>,
    kind: Kind,
    nodes: &Items<u64>,
    flags: &mut Flags,
) -> Result<(), Mem>
    requires desk { IsDesk desk.now }
    requires room { length flags.old ≡ length desk.now.tokens.now + 1 }
    ensures same { OnOk result (length flags.new ≡ length flags.old) }
    ensures grown { (path : List ℕ) → IsTrail (definitions_on desk.now) (main_on desk.now).process
        (main_on desk.now).behind path trail.now
        → OnOk result (IsGrown (λ i. HasIndexIn desk.now kind path nodes.now i) flags.old flags.new) }
{
    for k in 0..nodes.len() {
        note_node(alloc, desk, trail, kind, *nodes.at(k), flags)?;
    }
    Ok(())
}

/// Sets the flags of the tokens from which these nodes of the place stem to which the path leads, where they are told.
pub(crate) fn note_place(
    alloc: Global,
    desk: &Desk<'_>,
    path: &Path,
    kind: Kind,
    nodes: &Items<u64>,
    flags: &mut Flags,
) -> Result<(), Mem>
    requires desk { IsDesk desk.now }
    requires room { length flags.old ≡ length desk.now.tokens.now + 1 }
    ensures same { OnOk result (length flags.new ≡ length flags.old) }
    ensures grown { OnOk result (IsGrown (λ i. HasIndexIn desk.now kind path.now nodes.now i) flags.old flags.new) }
{
    if nodes.len() == 0 {
        return Ok(());
    }
    let processes = &desk.file.processes;
    match trail_of(
        alloc,
        &processes.definitions,
        desk.index,
        processes.behind.as_slice(),
        &processes.main,
        processes.behind_main,
        path.as_slice(),
        Replaced::Every,
    )? {
        None => Ok(()),
        Some(trail) => note_nodes(alloc, desk, &trail, kind, nodes, flags),
    }
}
