//! What is met where a walk comes to a process as it is written.
ghost use Rattle.std.specs.Prelude.{◌≡◌, ℕ, List, [], ◌++◌, IfOk, OnOk, length, take};
ghost use Rattle.sap_terms.specs.Tree.{Tree};
ghost use Rattle.sap_macro.specs.Indexed.{AreIndexed};
ghost use Rattle.sap_macro.specs.Order.{AreInOrder};
ghost use Rattle.sap_macro.specs.Sources.{definitions};
ghost use Rattle.sap_macro.specs.declared.source.Source.TheVariants.{Call};
ghost use Rattle.sap_origin.specs.Definitions.{located_definitions};
ghost use Rattle.sap_origin.specs.declared.origin.FileWord.{FileWord as Word};
ghost use Rattle.sap_use_words.specs.code.Walk.{IsFirst, IsMet};

use sap_macro::{Definition, DefinitionList, Index, Source};
use sap_origin::{FileWord, located_definitions_are_written, located_definitions_by_number};
use sap_terms::{Mem, Name, TermList};
use sap_uses::names_cost_their_bodies;

/// A process, behind whose item so many words of the file are.
#[derive(Clone, Copy)]
pub(crate) struct Here<'a> {
    pub(crate) source: &'a Source,
    pub(crate) behind: usize,
}

/// A use of a definition with parameters: its word, the definition with how many words are behind it, and the arguments.
#[derive(Clone, Copy)]
pub(crate) struct Entry<'a> {
    pub(crate) word: FileWord,
    pub(crate) definition: &'a Definition,
    pub(crate) behind: usize,
    pub(crate) args: &'a TermList,
}

/// What is met at a process whose names without parameters are replaced.
#[derive(Clone, Copy)]
pub(crate) enum Met<'a> {
    /// nothing that goes on
    Nothing,
    /// a use of a definition with parameters
    Use(Entry<'a>),
    /// one process below
    One(Here<'a>),
    /// a first and a second
    Two(Here<'a>, Here<'a>),
}

/// What is met before names without parameters are replaced.
#[derive(Clone, Copy)]
enum First<'a> {
    /// a name without parameters, its word, and its body
    Plain(FileWord, Here<'a>),
    Else(Met<'a>),
}

// What is met at a name, which has this number.
fn met_name<'a>(
    defs: &'a DefinitionList,
    index: &Index,
    behind: &[usize],
    source: &'a Source,
    behind_source: usize,
    left: usize,
    name: &Name,
    args: &'a TermList,
) -> First<'a>
    requires order { AreInOrder [] (definitions defs.now) }
    requires index { AreIndexed (definitions defs.now) index.now }
    requires count { length behind.now ≡ length defs.now }
    requires is { source.now ≡ Call left name.now args.now }
    ensures { (us : List Word) → IsFirst (located_definitions defs.now behind.now) (definitions defs.now) behind_source us source.now result }
{
    located_definitions_are_written();
    located_definitions_by_number();
    names_cost_their_bodies();
    let word = FileWord {
        left,
        behind: behind_source,
    };
    match index.get(name) {
        None => First::Else(Met::Nothing),
        Some(k) => {
            let definition = defs.at(*k);
            let behind = behind[*k as usize];
            if definition.params.len() == 0 {
                return First::Plain(
                    word,
                    Here {
                        source: &definition.body,
                        behind,
                    },
                );
            }
            First::Else(Met::Use(Entry {
                word,
                definition,
                behind,
                args,
            }))
        }
    }
}

// What is met first at the process, behind whose item so many words are.
fn first_at<'a>(
    defs: &'a DefinitionList,
    index: &Index,
    behind: &[usize],
    source: &'a Source,
    behind_source: usize,
) -> First<'a>
    requires order { AreInOrder [] (definitions defs.now) }
    requires index { AreIndexed (definitions defs.now) index.now }
    requires count { length behind.now ≡ length defs.now }
    ensures { (us : List Word) → IsFirst (located_definitions defs.now behind.now) (definitions defs.now) behind_source us source.now result }
{
    match source {
        Source::Nil(_) => First::Else(Met::Nothing),
        Source::Call(left, name, args) => {
            met_name(
                defs,
                index,
                behind,
                source,
                behind_source,
                *left,
                name,
                args,
            )
        }
        Source::Rep(_, p) => First::Else(Met::One(Here {
            source: p,
            behind: behind_source,
        })),
        Source::Act(_, _, p) => First::Else(Met::One(Here {
            source: p,
            behind: behind_source,
        })),
        Source::Par(_, p, q) => First::Else(Met::Two(
            Here {
                source: p,
                behind: behind_source,
            },
            Here {
                source: q,
                behind: behind_source,
            },
        )),
        Source::If(_, _, _, p, q) => First::Else(Met::Two(
            Here {
                source: p,
                behind: behind_source,
            },
            Here {
                source: q,
                behind: behind_source,
            },
        )),
        Source::Lookup(_, _, _, p, q) => First::Else(Met::Two(
            Here {
                source: p,
                behind: behind_source,
            },
            Here {
                source: q,
                behind: behind_source,
            },
        )),
    }
}

/// What is met from here. A chain of names without parameters is gone through in a loop, which puts their words behind those of the uses
/// so far. Want of memory is the only error.
pub(crate) fn met_at<'a>(
    defs: &'a DefinitionList,
    index: &Index,
    behind: &[usize],
    here: Here<'a>,
    uses: &mut Vec<FileWord>,
) -> Result<Met<'a>, Mem>
    requires order { AreInOrder [] (definitions defs.now) }
    requires index { AreIndexed (definitions defs.now) index.now }
    requires count { length behind.now ≡ length defs.now }
    ensures met { IfOk result (λ m. IsMet (located_definitions defs.now behind.now) (definitions defs.now) here.entry.behind
        uses.old.items here.entry.source.now m uses.new.items) }
    ensures front { OnOk result (take (length uses.old.items) uses.new.items ≡ uses.old.items) }
{
    let mut at = here;
    loop {
        match first_at(defs, index, behind, at.source, at.behind) {
            First::Plain(word, body) => {
                uses.push(word)?;
                at = body;
            }
            First::Else(met) => return Ok(met),
        }
    }
}
