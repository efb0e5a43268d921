//! The identifiers of a file.
ghost use Rattle.std.specs.Prelude.{◌≡◌, ◌++◌, IfOk, OnOk};
ghost use Rattle.std.specs.Option.{option_to_list};
ghost use Rattle.sap_grammar.specs.Reading.{name_at};
ghost use Rattle.sap_grammar.specs.Words.{words_of};
ghost use Rattle.sap_read.specs.Identifiers.{identifiers_of};

use sap_grammar::{beyond, name_at};
use sap_terms::{Mem, Name, NameList};
use sap_text::Token;
use std::alloc::Global;

// Puts the identifier that stands first last, if there is one.
fn put_first(alloc: Global, bytes: &[u8], tokens: &[Token], names: &mut NameList) -> Result<(), Mem>
    ensures { OnOk result (names.new ≡ names.old ++ option_to_list (name_at (words_of bytes.now tokens.now))) }
{
    let Some(name) = name_at(bytes, tokens) else {
        return Ok(());
    };
    names.push(Name::from_bytes(alloc, name)?)
}

/// The identifiers among the tokens of a file, each where it stands. It takes time in proportion to them.
pub(crate) fn identifiers(alloc: Global, bytes: &[u8], tokens: &[Token]) -> Result<NameList, Mem>
    ensures { IfOk result (λ names. names ≡ identifiers_of (words_of bytes.now tokens.now)) }
{
    let mut names = NameList::new(alloc);
    let mut rest = tokens;
    while !rest.is_empty() {
        put_first(alloc, bytes, rest, &mut names)?;
        rest = beyond(1, rest);
    }
    Ok(names)
}
