//! What each name is called, behind the lines of a run and what is judged of it.
ghost use Rattle.std.specs.Prelude.{◌≡◌, ◌++◌, OnOk};
ghost use Rattle.sap_tell.specs.ToldText.{names_behind};

use sap_called::{Names, push_names};
use sap_terms::Mem;
use sap_text::Text;

/// Puts an empty line last, and what each name is called, with its number, or nothing where no name was drawn.
pub fn push_names_behind(text: &mut Text, names: &Names) -> Result<(), Mem>
    ensures { OnOk result (text.new ≡ text.old ++ names_behind names.now) }
{
    if names.len() == 0 {
        return Ok(());
    }
    text.push_byte(b'\n')?;
    push_names(text, names)
}
