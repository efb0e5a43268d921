//! Pieces of text side by side.
ghost use Rattle.std.specs.Prelude.{◌≡◌, ◌++◌, OnOk};
ghost use Rattle.sap_grammar.specs.Pieces.{separator_before};

use sap_terms::Mem;
use sap_text::Text;

/// The separator, before each piece but the first, which has number 0.
pub fn push_separator(text: &mut Text, k: u64, separator: &[u8]) -> Result<(), Mem>
    ensures { OnOk result (text.new ≡ text.old ++ separator_before k separator.now) }
{
    if k == 0 {
        return Ok(());
    }
    text.push_bytes(separator)
}
