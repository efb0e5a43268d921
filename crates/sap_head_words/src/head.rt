//! The head of a written process beside its words.
ghost use Rattle.std.specs.Prelude.{◌≡◌, ℕ, List, slice_get};
ghost use Rattle.sap_terms.specs.Signature.{Sig};
ghost use Rattle.sap_grammar.specs.Words.{words_of};
ghost use Rattle.sap_macro.specs.Sources.{located};
ghost use Rattle.sap_head_words.specs.HeadWords.{HeadWords};

use crate::actions::action_word;
use crate::terms::{term_or_name_word, terms_word, use_word};
use sap_grammar::beyond;
use sap_macro::Source;
use sap_text::Token;

/// The word of node number `node` of what stands at the head of `source`, by how many tokens are left from it on, where the tokens begin
/// with the word that tells the place: of a use with its name. Nodes count in the order in which they are written, from 0; of a use those
/// of its arguments. None where the head has no such node. Linear in the head, it recurses as deep as its terms, and takes no memory.
pub fn head_word(bytes: &[u8], tokens: &[Token], source: &Source, node: usize) -> Option<usize>
    ensures { (g : Sig) (ns : List ℕ)
        → HeadWords g (located source.now) (words_of bytes.now tokens.now) ns
        → result ≡ slice_get ns node }
{
    match source {
        Source::Nil(_) | Source::Par(_, _, _) | Source::Rep(_, _) => None,
        Source::Call(_, _, terms) => use_word(bytes, tokens, terms, node),
        Source::Act(_, action, _) => action_word(bytes, tokens, action, node),
        Source::If(_, t, u, _, _) => terms_word(bytes, beyond(1, tokens), t, u, node),
        Source::Lookup(_, t, _, _, _) => term_or_name_word(bytes, beyond(1, tokens), t, node),
    }
}
