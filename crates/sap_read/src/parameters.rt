//! Reads the parameters of a definition.
ghost use Rattle.std.specs.Prelude.{ℕ, List, IfNone, IfOk, IfSome};
ghost use Rattle.sap_grammar.specs.Reading.{Gives};
ghost use Rattle.sap_grammar.specs.Words.{Word, words_of};
ghost use Rattle.sap_read.specs.ItemGrammar.{HasParameters};
ghost use Rattle.sap_read.specs.code.Parameters.{params_in};

use sap_grammar::{beyond, name_at, starts};
use sap_terms::{Mem, Name, NameList};
use sap_text::Token;
use std::alloc::Global;

// Parameters, one or more, up to their closing parenthesis, and the tokens behind it.
fn read_parameters<'a>(
    alloc: Global,
    bytes: &[u8],
    tokens: &'a [Token],
) -> Result<Option<(NameList, &'a [Token])>, Mem>
    ensures { Gives bytes.now (λ xs. xs) result (params_in (words_of bytes.now tokens.now)) }
{
    let mut params = NameList::new(alloc);
    let mut rest = tokens;
    while !rest.is_empty() {
        let Some(name) = name_at(bytes, rest) else {
            return Ok(None);
        };
        params.push(Name::from_bytes(alloc, name)?)?;
        let behind = beyond(1, rest);
        if starts(bytes, behind, ")") {
            return Ok(Some((params, beyond(1, behind))));
        }
        if !starts(bytes, behind, ",") {
            return Ok(None);
        }
        rest = beyond(1, behind);
    }
    Ok(None)
}

/// What stands behind the name of a definition: its parameters, if parentheses stand there, and the tokens behind its `=`.
pub(crate) fn read_head<'a>(
    alloc: Global,
    bytes: &[u8],
    tokens: &'a [Token],
) -> Result<Option<(NameList, &'a [Token])>, Mem>
    ensures found { IfOk result (λ o. IfSome o (λ r. HasParameters r.0 (words_of bytes.now tokens.now)
        (words_of bytes.now r.1.now))) }
    ensures none { IfOk result (λ o. IfNone o ((xs : List (List ℕ)) (b : List Word)
        → HasParameters xs (words_of bytes.now tokens.now) b → ⊥)) }
{
    if starts(bytes, tokens, "=") {
        return Ok(Some((NameList::new(alloc), beyond(1, tokens))));
    }
    if !starts(bytes, tokens, "(") {
        return Ok(None);
    }
    let Some((params, rest)) = read_parameters(alloc, bytes, beyond(1, tokens))? else {
        return Ok(None);
    };
    if starts(bytes, rest, "=") {
        Ok(Some((params, beyond(1, rest))))
    } else {
        Ok(None)
    }
}
