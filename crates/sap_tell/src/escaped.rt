//! Bytes between the marks of a picture.
ghost use Rattle.std.specs.Prelude.{◌≡◌, ◌++◌, OnOk};
ghost use Rattle.sap_tell.specs.Escaped.{escaped_byte, escaped};

use sap_terms::Mem;
use sap_text::Text;

// What is written for one byte.
#[tactic(auto, unfolding(crate::specs::Escaped::escaped_byte))]
fn push_escaped_byte(text: &mut Text, b: u8) -> Result<(), Mem>
    ensures { OnOk result (text.new ≡ text.old ++ escaped_byte b) }
{
    if b == b'"' {
        text.push_bytes(b"&quot;")
    } else if b == b'&' {
        text.push_bytes(b"&amp;")
    } else if b == b'\'' {
        text.push_bytes(b"&apos;")
    } else if b == b'<' {
        text.push_bytes(b"&lt;")
    } else if b == b'>' {
        text.push_bytes(b"&gt;")
    } else {
        text.push_bytes(&[b])
    }
}

/// Puts the bytes last, so that they stand for themselves between marks and in their values: `"`, `&`, `'`, `<` and `>` by their
/// references (`&quot;`, `&amp;`, `&apos;`, `&lt;`, `&gt;`, as XML 1.0 has them). Where memory is wanting, the first of them may
/// stand there. Its time goes with the bytes.
pub fn push_escaped(text: &mut Text, bytes: &[u8]) -> Result<(), Mem>
    ensures { OnOk result (text.new ≡ text.old ++ escaped bytes.now) }
{
    for b in bytes {
        push_escaped_byte(text, *b)?;
    }
    Ok(())
}
