//! Of which node of a definition's body a flaw speaks, and the word of this node.
ghost use Rattle.std.specs.Prelude.{◌≡◌, ◌+◌, ◌<◌, ◌≤◌, ℕ, List, [], None, Some, IfOk, IfSome, length, map, reverse, slice_get, take};
ghost use Rattle.std.specs.List.{All};
ghost use Rattle.sap_text.specs.Spans.{IsWithin};
ghost use Rattle.sap_terms.specs.Signature.{Sig};
ghost use Rattle.sap_grammar.specs.Words.{words_of};
ghost use Rattle.sap_process.specs.Sites.{Site, sites_in};
ghost use Rattle.sap_macro.specs.Expansion.{plain};
ghost use Rattle.sap_macro.specs.Indexed.{AreIndexed, defined};
ghost use Rattle.sap_macro.specs.Order.{AreInOrder, UsesOnly};
ghost use Rattle.sap_macro.specs.Seen.{seen};
ghost use Rattle.sap_macro.specs.Sources.{definition_of, definitions, located, written};
ghost use Rattle.sap_uses.specs.ScopeFlaws.{params_in_scope};
ghost use Rattle.sap_nodes.specs.SpokenOf.{IsSpoken};
ghost use Rattle.sap_origin.specs.Definitions.{LocatedDefinition, located_definitions};
ghost use Rattle.sap_origin.specs.Origins.{words_left};
ghost use Rattle.sap_origin.specs.Reached.{number_of};
ghost use Rattle.sap_seen.specs.SeenNodes.{seen_numbers};
ghost use Rattle.sap_head_words.specs.HeadWords.{HeadWords};
ghost use Rattle.sap_read.specs.FileTokens.{HasTokens};
ghost use Rattle.sap_read.specs.WrittenFiles.{IsWrittenFile};
ghost use Rattle.sap_read.specs.SpelledBodies.{item_end};
ghost use Rattle.sap_read_places.specs.BodyFlawPlaces.{IsBodyFlawPlace};
ghost use Rattle.sap_read_places.specs.Placed.{stretch_before};
ghost use Rattle.sap_stretches.specs.Stretches.{IsInBytes};
ghost use Rattle.sap_read_places.specs.code.BodyFlaws.{IsNodeAlong, IsOfBody, IsOfName, node_of};
ghost use Rattle.sap_read_places.specs.code.BodyNodes.{IsInBody, IsNodeAt};
ghost use Rattle.sap_read_places.specs.declared.told.Told.{Told as ToldOf};

use crate::late::{stretch_before, stretches_back};
use crate::laws::one_placed_file;
use crate::node_words::item_tokens;
use crate::told::Told;
use sap_head_words::{head_word, some_head};
use sap_macro::{Definition, DefinitionList, Index, Source, index_of, located_is_written, seen};
use sap_nodes::{Spoken, node_at, nodes_of_flaws};
use sap_origin::{
    FileWord, bodies_use_earlier_names, located_definitions_are_written,
    located_definitions_by_number, names_stand_for_definitions, number_of,
};
use sap_process::{Flaw, ScopeBelow, places_are_by_path};
use sap_read::{FileProcesses, WrittenFile, bodies_are_spelled, one_list_of_items, one_parting};
use sap_seen::{SeenPlace, seen_at, seen_places};
use sap_terms::{Mem, Name, Path, Signature};
use sap_text::Token;
use sap_uses::params_of;
use std::alloc::Global;

/// Of which node of the body the flaw speaks that it has at this path, as flaws of scope see it. It takes time and memory in proportion to
/// the body with names without parameters replaced, and recurses as deep as that. Want of memory is the only error.
pub(crate) fn spoken_in_body(
    alloc: Global,
    sig: &Signature,
    defs: &DefinitionList,
    index: &Index,
    d: &Definition,
    path: &Path,
    which: Flaw,
) -> Result<Option<Spoken>, Mem>
    requires order { AreInOrder [] (definitions defs.now) }
    requires index { AreIndexed (definitions defs.now) index.now }
    ensures { IfOk result (λ o. (k : ℕ) (s : Site)
        → slice_get (sites_in (params_in_scope (definition_of d.now)) (seen (plain (definitions defs.now) (definition_of d.now).body))) k
        ≡ Some s → s.path ≡ path.now
        → IsSpoken sig.now (params_in_scope (definition_of d.now)) (seen (plain (definitions defs.now) (definition_of d.now).body))
        (take k (sites_in (params_in_scope (definition_of d.now)) (seen (plain (definitions defs.now) (definition_of d.now).body)))) s
        which o) }
{
    let scope = params_of(alloc, &d.params)?;
    let body = seen(alloc, defs, index, &d.body)?;
    let found = node_at(alloc, sig, &scope, &body, path, which)?;
    Ok(found)
}

/// The word of node number `node` that is seen at the place, by how many tokens are left from it on, where the tokens begin with the word that
/// tells the place: of a use that of its name, and then those of its arguments. None where there is no such node.
pub(crate) fn seen_word(bytes: &[u8], tokens: &[Token], source: &Source, node: u64) -> Option<usize>
    ensures { (g : Sig) (ns : List ℕ)
        → HeadWords g (located source.now) (words_of bytes.now tokens.now) ns
        → result ≡ slice_get (seen_numbers (located source.now) ns) node }
{
    match source {
        Source::Call(left, _, _) => {
            if node == 0 {
                Some(*left)
            } else {
                head_word(bytes, tokens, source, (node - 1) as usize)
            }
        }
        _ => head_word(bytes, tokens, source, node as usize),
    }
}

// What is told of a node of the place from which so many words of its item are left.
fn node_told(alloc: Global, tokens: &[Token], left: usize, place: &SeenPlace) -> Result<Told, Mem>
    ensures word { IfOk result (λ t. t.word ≡ stretch_before tokens.now (left + place.now.behind)) }
    ensures above { IfOk result (λ t. t.uses
        ≡ map (stretch_before tokens.now) (reverse (map words_left place.now.uses))) }
    ensures inside { (size : ℕ) → All (IsWithin size) tokens.now → IfOk result (λ t. t.word.from ≤ size) }
    ensures uses { (size : ℕ) → All (IsWithin size) tokens.now
        → IfOk result (λ t. All (IsInBytes size) t.uses) }
{
    let word = FileWord {
        left,
        behind: place.behind,
    };
    Ok(Told {
        word: stretch_before(tokens, word),
        uses: stretches_back(alloc, tokens, place.uses.as_slice())?,
    })
}

/// What is told of the node of this number that is seen at the place; `None` where there is no such node. Want of memory is the only error.
pub(crate) fn told_at(
    alloc: Global,
    bytes: &[u8],
    tokens: &[Token],
    place: &SeenPlace,
    node: u64,
) -> Result<Option<Told>, Mem>
    ensures is { IfOk result (λ o. (g : Sig) (ns : List ℕ) → HeadWords g (located place.now.source.now)
        (item_end (words_of bytes.now tokens.now) (number_of (located place.now.source.now)) place.now.behind)
        ns → IsNodeAt tokens.now place.now (slice_get (seen_numbers (located place.now.source.now) ns) node)
        o) }
    ensures inside { (size : ℕ) → All (IsWithin size) tokens.now
        → IfOk result (λ o. IfSome o (λ t. t.word.from ≤ size)) }
    ensures uses { (size : ℕ) → All (IsWithin size) tokens.now
        → IfOk result (λ o. IfSome o (λ t. All (IsInBytes size) t.uses)) }
{
    let item = item_tokens(tokens, number_of(place.source), place.behind);
    match seen_word(bytes, item, place.source, node) {
        None => Ok(None),
        Some(left) => {
            let t = node_told(alloc, tokens, left, place)?;
            Ok(Some(t))
        }
    }
}

/// What is told of the node of this number that is seen at this path of a body, behind whose item so many words of the file are; `None` where
/// there is no such node. Want of memory is the only error.
pub(crate) fn told_in_body(
    alloc: Global,
    bytes: &[u8],
    tokens: &[Token],
    processes: &FileProcesses,
    index: &Index,
    body: &Source,
    behind_body: usize,
    path: &[u8],
    node: u64,
) -> Result<Option<Told>, Mem>
    requires order { AreInOrder [] (definitions processes.now.definitions) }
    requires index { AreIndexed (definitions processes.now.definitions) index.now }
    requires count { length processes.now.behind ≡ length processes.now.definitions }
    requires used { UsesOnly (defined (definitions processes.now.definitions)) (written body.now) }
    ensures is { IfOk result (λ o. IsInBody bytes.now tokens.now
        (located_definitions processes.now.definitions processes.now.behind) (located body.now) behind_body
        path.now node o) }
    ensures inside { (size : ℕ) → All (IsWithin size) tokens.now
        → IfOk result (λ o. IfSome o (λ t. t.word.from ≤ size)) }
    ensures uses { (size : ℕ) → All (IsWithin size) tokens.now
        → IfOk result (λ o. IfSome o (λ t. All (IsInBytes size) t.uses)) }
{
    seen_places();
    let behind = processes.behind.as_slice();
    match seen_at(
        alloc,
        &processes.definitions,
        index,
        behind,
        body,
        behind_body,
        path,
    )? {
        None => Ok(None),
        Some(place) => told_at(alloc, bytes, tokens, &place, node),
    }
}

// The node of which a flaw speaks, if it speaks of one.
fn node_of(spoken: Option<Spoken>) -> Option<u64>
    ensures { result ≡ node_of spoken }
{
    match spoken {
        None => None,
        Some(place) => place.node,
    }
}

// The node of the head of the place at this path of the body of which the flaw speaks, if it speaks of one.
fn node_in_body(
    alloc: Global,
    sig: &Signature,
    defs: &DefinitionList,
    index: &Index,
    d: &Definition,
    path: &Path,
    which: Flaw,
) -> Result<Option<u64>, Mem>
    requires order { AreInOrder [] (definitions defs.now) }
    requires index { AreIndexed (definitions defs.now) index.now }
    ensures { IfOk result (λ r. IsNodeAlong sig.now (params_in_scope (definition_of d.now))
        (seen (plain (definitions defs.now) (definition_of d.now).body)) which path.now r) }
{
    match which {
        Flaw::ScopeFull => Ok(None),
        _ => {
            let spoken = spoken_in_body(alloc, sig, defs, index, d, path, which)?;
            Ok(node_of(spoken))
        }
    }
}

// What is told of the flaw that the body of the definition of this number has at this path.
fn told_of_definition(
    alloc: Global,
    bytes: &[u8],
    tokens: &[Token],
    sig: &Signature,
    processes: &FileProcesses,
    index: &Index,
    k: u64,
    which: Flaw,
    path: &Path,
) -> Result<Option<Told>, Mem>
    requires order { AreInOrder [] (definitions processes.now.definitions) }
    requires index { AreIndexed (definitions processes.now.definitions) index.now }
    requires count { length processes.now.behind ≡ length processes.now.definitions }
    requires within { k < length processes.now.definitions }
    ensures is { IfOk result (λ o. (d : LocatedDefinition)
        → slice_get (located_definitions processes.now.definitions processes.now.behind) k ≡ Some d
        → IsOfBody sig.now bytes.now tokens.now
        (located_definitions processes.now.definitions processes.now.behind) which path.now o d) }
    ensures inside { (size : ℕ) → All (IsWithin size) tokens.now
        → IfOk result (λ o. IfSome o (λ t. t.word.from ≤ size)) }
    ensures uses { (size : ℕ) → All (IsWithin size) tokens.now
        → IfOk result (λ o. IfSome o (λ t. All (IsInBytes size) t.uses)) }
{
    located_definitions_are_written();
    located_definitions_by_number();
    bodies_use_earlier_names();
    located_is_written();
    let d = processes.definitions.at(k);
    let behind_body = processes.behind.as_slice()[k as usize];
    match node_in_body(alloc, sig, &processes.definitions, index, d, path, which)? {
        None => Ok(None),
        Some(node) => told_in_body(
            alloc,
            bytes,
            tokens,
            processes,
            index,
            &d.body,
            behind_body,
            path.as_slice(),
            node,
        ),
    }
}

// What is told of the flaw that the body of the definition of this name has at this path, if there is one.
fn told_of_name(
    alloc: Global,
    bytes: &[u8],
    tokens: &[Token],
    sig: &Signature,
    processes: &FileProcesses,
    name: &Name,
    which: Flaw,
    path: &Path,
) -> Result<Option<Told>, Mem>
    requires order { AreInOrder [] (definitions processes.now.definitions) }
    requires count { length processes.now.behind ≡ length processes.now.definitions }
    ensures is { IfOk result (λ o. IsOfName sig.now bytes.now tokens.now
        (located_definitions processes.now.definitions processes.now.behind) name.now which path.now
        o) }
    ensures inside { (size : ℕ) → All (IsWithin size) tokens.now
        → IfOk result (λ o. IfSome o (λ t. t.word.from ≤ size)) }
    ensures uses { (size : ℕ) → All (IsWithin size) tokens.now
        → IfOk result (λ o. IfSome o (λ t. All (IsInBytes size) t.uses)) }
{
    located_definitions_are_written();
    names_stand_for_definitions();
    let index = index_of(alloc, &processes.definitions)?;
    match index.get(name) {
        None => Ok(None),
        Some(k) => told_of_definition(
            alloc, bytes, tokens, sig, processes, &index, *k, which, path,
        ),
    }
}

/// What is told of the flaw that the body of the definition of this name has at this path in the file of these tokens, if nothing refuses it
/// before its uses are looked at and the flaw speaks of a node there: the word of this node, and the uses of names without parameters through
/// which one comes there. It takes time and memory in proportion to the tokens and to the body with these names replaced, but for names,
/// which are looked up. Want of memory is the only error.
pub(crate) fn body_flaw_told(
    alloc: Global,
    bytes: &[u8],
    tokens: &[Token],
    written: &WrittenFile,
    name: &Name,
    which: Flaw,
    path: &Path,
) -> Result<Option<Told>, Mem>
    requires tokens { HasTokens bytes.now tokens.now }
    requires written { IsWrittenFile bytes.now written.now }
    ensures place { IfOk result (λ o. IfSome o (λ t. IsBodyFlawPlace bytes.now name.now which path.now t)) }
    ensures inside { IfOk result (λ o. IfSome o (λ t. t.word.from ≤ length bytes.now)) }
    ensures uses { IfOk result (λ o. IfSome o (λ t. All (IsInBytes (length bytes.now)) t.uses)) }
    ensures none { IfOk result (λ o. o ≡ None → (t : ToldOf)
        → IsBodyFlawPlace bytes.now name.now which path.now t → ⊥) }
{
    one_placed_file();
    one_parting();
    one_list_of_items();
    bodies_are_spelled();
    located_definitions_are_written();
    seen_places();
    some_head();
    nodes_of_flaws();
    places_are_by_path::<ScopeBelow>();
    told_of_name(
        alloc,
        bytes,
        tokens,
        &written.declared.signature,
        &written.processes,
        name,
        which,
        path,
    )
}
