//! The names of definitions to which a file's process leads.
ghost use Rattle.std.specs.Prelude.{◌≡◌, [], IfOk, OnOk};
ghost use Rattle.sap_macro.specs.Order.{AreInOrder};
ghost use Rattle.sap_macro.specs.Sources.{definition_of, definitions, written};
ghost use Rattle.sap_read.specs.FileProcess.{calls};
ghost use Rattle.sap_notes.specs.code.Gathered.{gathered};
ghost use Rattle.sap_notes.specs.code.Led.{AreLedTo, with_calls_of};

use sap_macro::{Definition, DefinitionList, Source};
use sap_terms::{Mem, NameSet};
use std::alloc::Global;

// Adds the names that the process uses. It recurses as deep as the process.
#[tactic(auto, using(crate::proofs::Gathered::gathered_laws))]
fn add_calls(names: &mut NameSet, source: &Source) -> Result<(), Mem>
    ensures { OnOk result (names.new ≡ gathered names.old (calls (written source.now))) }
{
    match source {
        Source::Nil(_) => Ok(()),
        Source::Call(_, name, _) => {
            names.insert(name)?;
            Ok(())
        }
        Source::Rep(_, p) | Source::Act(_, _, p) => add_calls(names, p),
        Source::Par(_, p, q) | Source::If(_, _, _, p, q) | Source::Lookup(_, _, _, p, q) => {
            add_calls(names, p)?;
            add_calls(names, q)
        }
    }
}

// Adds those that the definition's body uses, where the definition's name is one of them.
fn add_body(names: &mut NameSet, d: &Definition) -> Result<(), Mem>
    ensures { OnOk result (names.new ≡ with_calls_of names.old (definition_of d.now)) }
{
    if names.contains(&d.name) {
        return add_calls(names, &d.body);
    }
    Ok(())
}

/// The names to which the process leads: those that it uses, and those that the bodies of the definitions use to which it leads. A body
/// uses earlier definitions alone, so they are gone through once, from the last to the first. Want of memory is the only error. It
/// takes time in proportion to what is written, where each name is looked for by its order, and recurses as deep as that.
pub(crate) fn led_to(alloc: Global, defs: &DefinitionList, main: &Source) -> Result<NameSet, Mem>
    requires { AreInOrder [] (definitions defs.now) }
    ensures { IfOk result (λ names. AreLedTo (definitions defs.now) (written main.now) names) }
{
    let mut names = NameSet::new(alloc);
    add_calls(&mut names, main)?;
    let mut k = defs.len();
    while 0 < k {
        k -= 1;
        add_body(&mut names, defs.at(k))?;
    }
    Ok(names)
}
