//! The tokens of some bytes.
ghost use Rattle.std.specs.Prelude.{◌≡◌, ◌≤◌, ◌<◌, length, slice_get, Some, IfOk};
ghost use Rattle.std.specs.List.{All};
ghost use Rattle.sap_text.specs.Tokens.{counted};
ghost use Rattle.sap_text.specs.Told.{Told};
ghost use Rattle.sap_text.specs.Spans.{AreTokens, InOrder, IsWithin, text_of};

use crate::bytes::{feeds_in, from_place};
use crate::front::{Front, front_of};
use crate::{Kind, Lex, Token};
use std::alloc::Global;

fn counted_bytes(kind: Kind, n: usize) -> usize
    ensures { result ≡ counted kind n }
{
    match kind {
        Kind::Ident => n,
        Kind::Number => n,
        Kind::Quoted => if n < 2 { 0 } else { n - 2 },
        Kind::Symbol => 0,
    }
}

fn read_tokens(alloc: Global, bytes: &[u8], longest: u64) -> Result<Vec<Token>, Lex>
    ensures { Told longest bytes.now result }
{
    let mut out: Vec<Token> = Vec::new(alloc);
    let mut at: usize = 0;
    let mut line: u64 = 1;
    while at < bytes.len() {
        let rest = from_place(bytes, at);
        match front_of(at as u64, rest) {
            Front::Skip(n) => {
                line += feeds_in(&rest[..n]) as u64;
                at += n;
            }
            Front::Taken(kind, n) => {
                if counted_bytes(kind, n) as u64 > longest {
                    return Err(Lex::NameLong { at: at as u64 });
                }
                let token = Token {
                    kind,
                    from: at as u64,
                    to: (at + n) as u64,
                    line,
                };
                out.push(token)?;
                at += n;
            }
            Front::Fault(fault) => return Err(fault),
        }
    }
    Ok(out)
}

/// The tokens of the bytes in order, where no identifier, number or quoted content has more than `longest` bytes.
/// Between them stand blanks and comments alone: `//` to the end of the line, `/*` to the next `*/`, neither of them
/// nested. The longest token is taken. The work is linear in the bytes, the memory in the tokens. Of several faults the
/// one that stands first is answered; want of memory can come before it.
pub fn tokens(alloc: Global, bytes: &[u8], longest: u64) -> Result<Vec<Token>, Lex>
    ensures told { Told longest bytes.now result }
    ensures in_order { IfOk result (λ v. InOrder 0 (length bytes.now) v.items) }
    ensures within { IfOk result (λ v. All (IsWithin (length bytes.now)) v.items) }
{
    read_tokens(alloc, bytes, longest)
}

fn part(bytes: &[u8], token: Token) -> &[u8]
    requires order { token.from ≤ token.to }
    requires inside { token.to ≤ length bytes.now }
    ensures { result.now ≡ text_of bytes.now token }
{
    &bytes[token.from as usize..token.to as usize]
}

/// The bytes of the k-th token, from 0, lent from those that the tokens were read from.
pub fn token_bytes<'a>(bytes: &'a [u8], tokens: &[Token], k: usize) -> &'a [u8]
    requires tokens { AreTokens bytes.now tokens.now }
    requires inside { k < length tokens.now }
    ensures { (t : Token) → slice_get tokens.now k ≡ Some t → result.now ≡ text_of bytes.now t }
{
    part(bytes, tokens[k])
}
