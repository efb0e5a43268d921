//! Actions beside their words.
ghost use Rattle.std.specs.Prelude.{◌≡◌, ℕ, List, slice_get};
ghost use Rattle.sap_terms.specs.Signature.{Sig};
ghost use Rattle.sap_grammar.specs.Words.{words_of};
ghost use Rattle.sap_macro.specs.Sources.{doing};
ghost use Rattle.sap_head_words.specs.code.Shapes.{Shape, unsigned_name};

use crate::facts::{fact_word, rule_word};
use crate::terms::{only, term_word, terms_word};
use sap_grammar::{beyond, starts};
use sap_macro::Doing;
use sap_text::Token;

// Without the sign of a fresh name.
fn unsigned<'a>(bytes: &[u8], tokens: &'a [Token]) -> &'a [Token]
    ensures { words_of bytes.now result.now ≡ unsigned_name (words_of bytes.now tokens.now) }
{
    if starts(bytes, tokens, "~") {
        beyond(1, tokens)
    } else {
        tokens
    }
}

pub(crate) fn action_word(
    bytes: &[u8],
    tokens: &[Token],
    action: &Doing,
    node: usize,
) -> Option<usize>
    ensures { (g : Sig) (ns : List ℕ)
        → Shape g (doing action.now) (words_of bytes.now tokens.now) ns
        → result ≡ slice_get ns node }
{
    let next = beyond(1, tokens);
    let inside = beyond(2, tokens);
    match action {
        Doing::New(_) => only(unsigned(bytes, next), node),
        Doing::Out(t) => term_word(bytes, inside, t, node),
        Doing::Send(t, u) => terms_word(bytes, inside, t, u, node),
        Doing::In(t) => term_word(bytes, inside, t, node),
        Doing::Recv(t, u) => terms_word(bytes, inside, t, u, node),
        Doing::Event(f) => fact_word(bytes, next, f, node),
        Doing::Insert(t, u) => terms_word(bytes, next, t, u, node),
        Doing::Delete(t) => term_word(bytes, next, t, node),
        Doing::Lock(t) => term_word(bytes, next, t, node),
        Doing::Unlock(t) => term_word(bytes, next, t, node),
        Doing::Embedded(l, e, r) => rule_word(bytes, next, l, e, r, node),
    }
}
