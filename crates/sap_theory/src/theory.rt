//! A whole theory as text.
ghost use Rattle.std.specs.Prelude.{◌≡◌, ◌++◌, IfOk, OnOk};
ghost use Rattle.sap_theory.specs.TheoryText.{items_text, theory_text};

use crate::rules::push_rules;
use crate::signature::{push_builtins, push_functions};
use crate::statements::{push_lemmas, push_restrictions};
use sap_rule::Theory;
use sap_terms::Mem;
use sap_text::Text;
use std::alloc::Global;

/// The theory as text: under its name the builtins, the symbols that they don't bring, the rules, the restrictions and
/// the lemmas, each behind a blank line. Want of memory is the only error. It takes time in proportion to the signature
/// and the text, but for two look-ups in the signature for each symbol that it writes, and recurses as deep as the
/// theory's terms and formulas, but not along a chain of `&`, leftmost first.
pub fn print(alloc: Global, t: &Theory) -> Result<Text, Mem>
    ensures { IfOk result (λ text. text ≡ theory_text t.now) }
{
    let mut text = Text::new(alloc);
    text.push_bytes(b"theory ")?;
    text.push_bytes(t.name.as_bytes())?;
    text.push_bytes(b"\nbegin\n")?;
    push_items(&mut text, alloc, t)?;
    text.push_bytes(b"\nend\n")?;
    Ok(text)
}

// What stands between the head and the end.
fn push_items(text: &mut Text, alloc: Global, t: &Theory) -> Result<(), Mem>
    ensures { OnOk result (text.new ≡ text.old ++ items_text t.now) }
{
    push_builtins(text, &t.signature)?;
    push_functions(text, &t.signature)?;
    push_rules(text, &t.rules)?;
    push_restrictions(text, alloc, &t.restrictions)?;
    push_lemmas(text, alloc, &t.lemmas)
}
