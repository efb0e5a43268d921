//! The use that has another number of arguments.
ghost use Rattle.std.specs.Prelude.{◌≡◌, ◌+◌, ℕ, List, IfOk, length};
ghost use Rattle.std.specs.Option.{option_map, unwrap_or};
ghost use Rattle.sap_terms.specs.NameMap.{value_at};
ghost use Rattle.sap_macro.specs.Sources.{located};
ghost use Rattle.sap_origin.specs.Definitions.{located_definitions};
ghost use Rattle.sap_origin.specs.Origins.{start, words_left};
ghost use Rattle.sap_use_words.specs.WrittenUses.{LocatedUse, other_use, uses_at, written_uses};
ghost use Rattle.sap_use_words.specs.code.Words.{first_word};

use sap_macro::{DefinitionList, Source};
use sap_origin::{FileWord, located_definitions_are_written, located_definitions_by_number};
use sap_terms::{Mem, NameMap};
use sap_uses::{count, counts_of};
use std::alloc::Global;

// The word of the first use, in the process behind whose item so many words are, with another number of arguments. It recurses as deep
// as the process.
#[tactic(auto, using(crate::proofs::Others::other_laws))]
fn other_in(counts: &NameMap<u64>, source: &Source, behind: usize) -> Option<FileWord>
    ensures { option_map words_left result
        ≡ first_word (λ f. unwrap_or (value_at counts.now f) 0) (uses_at (start behind) (located source.now)) }
{
    match source {
        Source::Nil(_) => None,
        Source::Call(_, name, args) if args.len() == count(counts, name) => None,
        Source::Call(left, _, _) => Some(FileWord {
            left: *left,
            behind,
        }),
        Source::Rep(_, p) | Source::Act(_, _, p) => other_in(counts, p, behind),
        Source::Par(_, p, q) | Source::If(_, _, _, p, q) | Source::Lookup(_, _, _, p, q) => {
            match other_in(counts, p, behind) {
                None => other_in(counts, q, behind),
                found => found,
            }
        }
    }
}

// The first such use, in the bodies in order and then in the process.
#[tactic(auto, using(crate::proofs::Located::none_left))]
fn other_word(
    counts: &NameMap<u64>,
    defs: &DefinitionList,
    behind: &[usize],
    main: &Source,
    behind_main: usize,
) -> Option<FileWord>
    requires { length behind.now ≡ length defs.now }
    ensures { option_map words_left result ≡ first_word (λ f. unwrap_or (value_at counts.now f) 0)
        (written_uses (located_definitions defs.now behind.now) behind_main (located main.now)) }
{
    located_definitions_by_number();
    for k in 0..defs.len() {
        let found = other_in(counts, &defs.at(k).body, behind[k as usize]);
        if let Some(word) = found {
            return Some(word);
        }
    }
    let last = other_in(counts, main, behind_main);
    last
}

/// The word of the first use, in the bodies in order and then in the process, with another number of arguments than its definition has
/// parameters. `behind` has how many words of the file are behind the item of each definition. Want of memory is the only error. It
/// takes time in proportion to what is written, where each name is looked for by its order.
pub fn other_use(
    alloc: Global,
    defs: &DefinitionList,
    behind: &[usize],
    main: &Source,
    behind_main: usize,
) -> Result<Option<FileWord>, Mem>
    requires { length behind.now ≡ length defs.now }
    ensures { IfOk result (λ o. option_map words_left o ≡ option_map (λ (u : LocatedUse). u.word)
        (other_use (located_definitions defs.now behind.now) behind_main (located main.now))) }
{
    located_definitions_are_written();
    let counts = counts_of(alloc, defs)?;
    let word = other_word(&counts, defs, behind, main, behind_main);
    Ok(word)
}
