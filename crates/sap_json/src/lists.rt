//! Arrays of numbers and of bindings, written.
ghost use Rattle.std.specs.Prelude.{◌≡◌, ◌++◌, OnOk, false};
ghost use Rattle.serde_json.specs.Data.{array};
ghost use Rattle.serde_json.specs.Written.{compact_text, items_text};
ghost use Rattle.sap_run_lines.specs.StepLines.{bound_word};
ghost use Rattle.sap_json.specs.Written.{word_data};
ghost use Rattle.sap_json.specs.code.Texts.{number_items, binding_items};

use crate::strings::{push_comma, push_term_string, push_variable_string};
use sap_terms::{Binding, Bindings, Mem, Numbers};
use sap_text::Text;
use std::alloc::Global;

// The items, and the bracket that closes the array.
fn push_number_items(text: &mut Text, numbers: &[u64]) -> Result<(), Mem>
    ensures { OnOk result (text.new ≡ text.old ++ items_text false (number_items numbers.now)) }
{
    let mut later = false;
    for number in numbers {
        push_comma(text, later)?;
        text.push_number(*number)?;
        later = true;
    }
    text.push_bytes(b"]")
}

/// The array of these numbers.
pub(crate) fn push_numbers(text: &mut Text, numbers: &Numbers) -> Result<(), Mem>
    ensures { OnOk result (text.new ≡ text.old ++ compact_text (array (number_items numbers.now))) }
{
    text.push_bytes(b"[")?;
    push_number_items(text, numbers.as_slice())
}

// The array of a variable and its term.
fn push_binding(alloc: Global, text: &mut Text, binding: &Binding) -> Result<(), Mem>
    ensures { OnOk result (text.new
        ≡ text.old ++ compact_text (word_data (bound_word binding.now))) }
{
    text.push_bytes(b"[")?;
    push_variable_string(alloc, text, &binding.var)?;
    text.push_bytes(b",")?;
    push_term_string(alloc, text, &binding.term)?;
    text.push_bytes(b"]")
}

fn push_binding_items(alloc: Global, text: &mut Text, bindings: &[Binding]) -> Result<(), Mem>
    ensures { OnOk result (text.new ≡ text.old ++ items_text false (binding_items bindings.now)) }
{
    let mut later = false;
    for binding in bindings {
        push_comma(text, later)?;
        push_binding(alloc, text, binding)?;
        later = true;
    }
    text.push_bytes(b"]")
}

/// The array of these bindings.
pub(crate) fn push_bindings(alloc: Global, text: &mut Text, bindings: &Bindings) -> Result<(), Mem>
    ensures { OnOk result (text.new ≡ text.old ++ compact_text (array (binding_items bindings.now))) }
{
    text.push_bytes(b"[")?;
    push_binding_items(alloc, text, bindings.as_slice())
}
