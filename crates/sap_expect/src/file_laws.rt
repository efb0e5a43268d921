//! Laws of the words of files, as contracts of functions that do nothing but call those below.
ghost use Rattle.std.specs.Prelude.{◌≡◌, ℕ, List, Result, Err};
ghost use Rattle.sap_text.specs.Spans.{AreTokens as AreTokensOf};
ghost use Rattle.sap_text.specs.declared.token.Token.{Token};
ghost use Rattle.sap_terms.specs.Signature.{Sig};
ghost use Rattle.sap_grammar.specs.Cut.{Placed};
ghost use Rattle.sap_grammar.specs.Words.{Word, words_of};
ghost use Rattle.sap_read.specs.Files.{AreTokens, FileContent, IsParted, IsRead};
ghost use Rattle.sap_read.specs.Item.{Standing};
ghost use Rattle.sap_read.specs.ItemGrammar.{AreItems};
ghost use Rattle.sap_read.specs.declared.fault.ReadFault.{ReadFault};
ghost use Rattle.sap_read.specs.declared.fault.ReadFault.TheVariants.{Header, Syntax};
ghost use Rattle.sap_expect.specs.FileTable.{FollowsTable};
ghost use Rattle.sap_expect.specs.FileWords.{AreSomeItems, IsFileWords};
ghost use Rattle.sap_expect.specs.Letters.{AreLettered};

use sap_grammar::printed_words;
use sap_read::one_list_of_items;
use sap_statements::formulas_are_printable;
use sap_text::{one_answer, spans_are_tokens};

/// A law: tokens that are parted into a header and pieces, each of which is an item but for the last, are the words of a file; and where
/// the words of tokens are a file's, they are parted so: no word inside an item begins another. So a file with tokens is refused for its
/// header or for a piece of it exactly where its words are no file's.
pub fn files_are_their_words()
    ensures parted { (z : List ℕ) (ts : List Token) (x : List ℕ) (cut : List (List Placed)) → IsParted z ts x cut → AreSomeItems cut
        → IsFileWords (words_of z ts) }
    ensures items { (g : Sig) (cut : List (List Placed)) (is : List Standing) → AreItems g cut is → AreSomeItems cut }
    ensures words { (z : List ℕ) (ts : List Token) → AreTokens z ts → IsFileWords (words_of z ts)
        → (x : List ℕ) × (cut : List (List Placed)) × IsParted z ts x cut × AreSomeItems cut }
    ensures refused { (z : List ℕ) (ts : List Token) (line : ℕ) → AreTokens z ts → IsRead z (Err (Syntax line))
        → IsFileWords (words_of z ts) → ⊥ }
    ensures otherwise { (z : List ℕ) (ts : List Token) (o : Result FileContent ReadFault) → AreTokens z ts → IsRead z o
        → (o ≡ Err Header → ⊥) → ((line : ℕ) → o ≡ Err (Syntax line) → ⊥) → IsFileWords (words_of z ts) }
{
    printed_words();
    formulas_are_printable();
    one_list_of_items();
    one_answer();
}

/// A law: words follow the table where they are a file's, and, if names among them begin with letters, nowhere else; so of the words of
/// tokens the table is the grammar, levels included.
pub fn table_is_the_grammar()
    ensures follows { (ws : List Word) → IsFileWords ws → FollowsTable ws }
    ensures spelled { (ws : List Word) → AreLettered ws → FollowsTable ws → IsFileWords ws }
    ensures letters { (z : List ℕ) (ts : List Token) → AreTokensOf z ts → AreLettered (words_of z ts) }
{
    spans_are_tokens();
}
