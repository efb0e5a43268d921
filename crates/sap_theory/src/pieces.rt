//! Headings and commas before the pieces of a line.
ghost use Rattle.std.specs.Prelude.{◌≡◌, ◌++◌, OnOk};
ghost use Rattle.sap_theory.specs.Pieces.{lead};

use sap_terms::Mem;
use sap_text::Text;

/// What stands before a piece of a line: its heading, or a comma.
pub(crate) fn push_lead(text: &mut Text, is_first: bool, heading: &[u8]) -> Result<(), Mem>
    ensures { OnOk result (text.new ≡ text.old ++ lead is_first heading.now) }
{
    if is_first {
        text.push_bytes(heading)
    } else {
        text.push_bytes(b", ")
    }
}
