//! Reads the items of a file.
ghost use Rattle.std.specs.Prelude.{◌≡◌, ℕ, true, codes, List, IfOk, IsErrOf};
ghost use Rattle.sap_grammar.specs.Words.{starts, words_of};
ghost use Rattle.sap_grammar.specs.Cut.{Placed, placed, IsCut};
ghost use Rattle.sap_read.specs.ItemGrammar.{IsFaultyFile};
ghost use Rattle.sap_read.specs.code.ItemView.{AreSaid, IsAdded, IsPushed, SaysProcess};
ghost use Rattle.sap_read.specs.declared.fault.ReadFault.{ReadFault};
ghost use Rattle.sap_read.specs.declared.fault.ReadFault.TheVariants.{Mem as OutOfMemory, Syntax};

use crate::entry::Entry;
use crate::fault::ReadFault;
use crate::parameters::read_head;
use sap_draft::{FILE_LIMITS, located_processes, read_process};
use sap_grammar::{
    beyond, is_declaration, is_last, item_laws, line_of, name_at, split_item, starts,
};
use sap_statements::{Statement, read_stated};
use sap_terms::{Items, Mem, Name, NameList, Signature};
use sap_text::Token;
use std::alloc::Global;

// What a `let` item says of a process; behind it are so many words of the file.
fn read_definition(
    alloc: Global,
    sig: &Signature,
    bytes: &[u8],
    item: &[Token],
    behind: usize,
) -> Result<Option<Entry>, Mem>
    requires { starts (codes "let") (words_of bytes.now item.now) ≡ true }
    ensures { SaysProcess sig.now bytes.now item.now behind result }
{
    located_processes();
    let Some(name) = name_at(bytes, beyond(1, item)) else {
        return Ok(None);
    };
    let Some((params, rest)) = read_head(alloc, bytes, beyond(2, item))? else {
        return Ok(None);
    };
    let label = Name::from_bytes(alloc, name)?;
    match read_process(alloc, sig, bytes, rest)? {
        None => Ok(None),
        Some(source) => Ok(Some(Entry {
            label: Some(label),
            params,
            source,
            line: line_of(item),
            behind,
        })),
    }
}

// What a `process` item says of a process; behind it are so many words of the file.
fn read_main(
    alloc: Global,
    sig: &Signature,
    bytes: &[u8],
    item: &[Token],
    behind: usize,
) -> Result<Option<Entry>, Mem>
    requires { starts (codes "process") (words_of bytes.now item.now) ≡ true }
    ensures { SaysProcess sig.now bytes.now item.now behind result }
{
    located_processes();
    if !starts(bytes, beyond(1, item), ":") {
        return Ok(None);
    }
    match read_process(alloc, sig, bytes, beyond(2, item))? {
        None => Ok(None),
        Some(source) => Ok(Some(Entry {
            label: None,
            params: NameList::new(alloc),
            source,
            line: line_of(item),
            behind,
        })),
    }
}

// Puts an entry last, if there is one, and answers whether there is.
fn push(entries: &mut Items<Entry>, entry: Option<Entry>) -> Result<bool, Mem>
    ensures pushed { IfOk result (λ b. IsPushed b entry entries.old entries.new) }
{
    match entry {
        None => Ok(false),
        Some(entry) => {
            entries.push(entry)?;
            Ok(true)
        }
    }
}

// Reads an item, and puts last what it says of a process and of traces; false where the tokens are no item.
fn read_item(
    alloc: Global,
    sig: &Signature,
    bytes: &[u8],
    item: &[Token],
    behind: usize,
    entries: &mut Items<Entry>,
    statements: &mut Items<Statement>,
) -> Result<bool, Mem>
    ensures { IfOk result (λ b. IsAdded sig.now bytes.now item.now behind entries.old
        entries.new statements.old statements.new b) }
{
    item_laws();
    if starts(bytes, item, "let") {
        push(entries, read_definition(alloc, sig, bytes, item, behind)?)
    } else if starts(bytes, item, "process") {
        push(entries, read_main(alloc, sig, bytes, item, behind)?)
    } else if is_declaration(alloc, bytes, item)? {
        Ok(true)
    } else {
        read_stated(alloc, sig, FILE_LIMITS, bytes, item, statements)
    }
}

/// What the items of a file say: of processes, and of traces.
#[derive(Drop)]
pub(crate) struct Contents {
    pub(crate) entries: Items<Entry>,
    pub(crate) statements: Items<Statement>,
}

/// What the items say that these tokens are; `Syntax` with its line where one is in no grammar. The last line is that of the
/// file's last token.
pub(crate) fn read_items(
    alloc: Global,
    sig: &Signature,
    bytes: &[u8],
    tokens: &[Token],
    last: u64,
) -> Result<Contents, ReadFault>
    ensures good { IfOk result (λ c. (cut : List (List Placed))
        → IsCut (placed bytes.now tokens.now) cut → AreSaid sig.now cut c.entries c.statements) }
    ensures faulty { (line : ℕ) → IsErrOf result (Syntax line) → (cut : List (List Placed))
        → IsCut (placed bytes.now tokens.now) cut
        → IsFaultyFile last cut line }
    ensures other { (e : ReadFault) → IsErrOf result e → (e ≡ OutOfMemory → ⊥) → (line : ℕ)
        × (e ≡ Syntax line) }
{
    item_laws();
    let mut entries = Items::new(alloc);
    let mut statements = Items::new(alloc);
    let mut rest = tokens;
    while !rest.is_empty() {
        let (item, behind) = split_item(bytes, rest);
        if is_last(bytes, item, behind) {
            return Ok(Contents {
                entries,
                statements,
            });
        }
        if !read_item(
            alloc,
            sig,
            bytes,
            item,
            behind.len(),
            &mut entries,
            &mut statements,
        )? {
            return Err(ReadFault::Syntax {
                line: line_of(item),
            });
        }
        rest = behind;
    }
    Err(ReadFault::Syntax { line: last })
}
