//! Where a flaw stands, as the contract of a function that does nothing.
ghost use Rattle.std.specs.Prelude.{◌≡◌, ℕ, List, Err, None};
ghost use Rattle.sap_terms.specs.Signature.{Sig};
ghost use Rattle.sap_text.specs.declared.token.Token.{Token};
ghost use Rattle.sap_grammar.specs.Words.{words_of};
ghost use Rattle.sap_head_words.specs.Examples.{out_head, out_words};
ghost use Rattle.sap_origin.specs.Definitions.{LocatedDefinition};
ghost use Rattle.sap_origin.specs.Reached.{number_of};
ghost use Rattle.sap_read.specs.LocatedItems.{LocatedMain};
ghost use Rattle.sap_read.specs.SpelledBodies.{item_end};
ghost use Rattle.sap_read_places.specs.FlawExamples.{second_node, second_told};
ghost use Rattle.sap_read_places.specs.Placed.{IsAtPath};
ghost use Rattle.sap_process.specs.declared.flaw.Flaw.{Flaw};
ghost use Rattle.sap_read.specs.Files.{IsRead};
ghost use Rattle.sap_read.specs.declared.fault.ReadFault.TheVariants.{Ill};
ghost use Rattle.sap_read_places.specs.FlawPlaces.{IsFlawPlace, IsSpokenTold, IsStemTold};
ghost use Rattle.sap_read_places.specs.declared.told.Told.{Told};

use crate::laws::{one_placed_file, path_places};
use sap_head_words::{heads_by_hand, one_head, some_head};
use sap_nodes::{filled_scopes, nodes_of_flaws};
use sap_process::sites_are_the_places;
use sap_read::{
    bodies_are_spelled, definitions_are_in_order, located_items, one_list_of_items, one_parting,
};
use sap_stems::nodes_have_stems;

/// A law: a flaw of the process of a file stands at one place, and each file that is refused for one has its place.
pub fn flaw_places()
    ensures one { (z : List ℕ) (w : Flaw) (path : List ℕ) (s t : Told) → IsFlawPlace z w path s
        → IsFlawPlace z w path t → s ≡ t }
    ensures some { (z : List ℕ) (w : Flaw) (path : List ℕ) → IsRead z (Err (Ill w path))
        → (t : Told) × IsFlawPlace z w path t }
{
    one_placed_file();
    one_parting();
    one_list_of_items();
    path_places();
    located_items();
    definitions_are_in_order();
    bodies_are_spelled();
    nodes_have_stems();
    one_head();
    some_head();
    nodes_of_flaws();
    filled_scopes();
    sites_are_the_places();
}

/// A law: by hand, what is told of the second of three nodes of a head behind whose item two words of the file are: the word from which
/// six of the item and these two are left, and the use above it; and nothing else. Of a lock what is told of its place.
pub fn flaws_by_hand()
    ensures node { (g : Sig) (z : List ℕ) (ts : List Token)
        → item_end (words_of z ts) (number_of out_head) 2 ≡ out_words
        → IsStemTold g z ts second_node (second_told ts) }
    ensures nothing_else { (g : Sig) (z : List ℕ) (ts : List Token) (t : Told)
        → item_end (words_of z ts) (number_of out_head) 2 ≡ out_words
        → IsStemTold g z ts second_node t → t ≡ second_told ts }
    ensures lock { (g : Sig) (z : List ℕ) (ts : List Token) (ds : List LocatedDefinition) (m : LocatedMain)
        (path : List ℕ) (t : Told) → IsSpokenTold g z ts ds m path None t → IsAtPath z path t }
{
    heads_by_hand();
    one_head();
}
