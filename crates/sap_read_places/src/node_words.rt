//! The words of an item from a place on.
ghost use Rattle.std.specs.Prelude.{◌≡◌, ◌+◌, ◌-◌, drop, length, take};

use sap_grammar::beyond;
use sap_text::Token;

/// The tokens of an item from the word on from which so many of the item are left, where so many words are behind the item.
pub(crate) fn item_tokens(tokens: &[Token], left: usize, behind: usize) -> &[Token]
    ensures { result.now ≡ take left (drop (length tokens.now - (left + behind)) tokens.now) }
{
    let from = beyond(
        tokens.len().saturating_sub(left).saturating_sub(behind),
        tokens,
    );
    if left < from.len() {
        &from[..left]
    } else {
        from
    }
}
