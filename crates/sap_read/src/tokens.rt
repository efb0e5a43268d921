//! The tokens of a file.
ghost use Rattle.std.specs.Prelude.{◌≡◌, Err, IfOk, IsErrOf, length};
ghost use Rattle.std.specs.List.{All};
ghost use Rattle.sap_text.specs.Spans.{IsWithin};
ghost use Rattle.sap_text.specs.Tokens.{IsLexed};
ghost use Rattle.sap_text.specs.declared.fault.Lex.{Lex};
ghost use Rattle.sap_read.specs.FileTokens.{HasTokens};
ghost use Rattle.sap_read.specs.Files.{AreTokens, IsRead};
ghost use Rattle.sap_read.specs.declared.fault.ReadFault.{ReadFault};
ghost use Rattle.sap_read.specs.declared.fault.ReadFault.TheVariants.{Mem as OutOfMemory, Lex as LexFault};

use crate::fault::ReadFault;
use sap_terms::MOST_FILE_NAME_BYTES;
use sap_text::{Lex, Token, one_answer, tokens};
use std::alloc::Global;

// The tokens, the longest of `MOST_FILE_NAME_BYTES`.
fn read_tokens(alloc: Global, bytes: &[u8]) -> Result<Vec<Token>, ReadFault>
    ensures found { IfOk result (λ v. AreTokens bytes.now v.items) }
    ensures within { IfOk result (λ v. All (IsWithin (length bytes.now)) v.items) }
    ensures refused { (e : ReadFault) → IsErrOf result e → (e ≡ OutOfMemory → ⊥)
        → (f : Lex) × (e ≡ LexFault f) × IsLexed MOST_FILE_NAME_BYTES 0 1 bytes.now (Err f) }
{
    match tokens(alloc, bytes, MOST_FILE_NAME_BYTES) {
        Ok(tokens) => Ok(tokens),
        Err(Lex::Mem) => Err(ReadFault::Mem),
        Err(fault) => Err(ReadFault::Lex(fault)),
    }
}

/// The tokens of a file, the longest of `MOST_FILE_NAME_BYTES`, or the first fault of its bytes.
pub fn file_tokens(alloc: Global, bytes: &[u8]) -> Result<Vec<Token>, ReadFault>
    ensures tokens { IfOk result (λ v. HasTokens bytes.now v.items) }
    ensures refused { (e : ReadFault) → IsErrOf result e → (e ≡ OutOfMemory → ⊥)
        → IsRead bytes.now (Err e) }
    ensures bytes { (e : ReadFault) → IsErrOf result e → (e ≡ OutOfMemory → ⊥)
        → (f : Lex) × (e ≡ LexFault f) }
{
    one_answer();
    let tokens = read_tokens(alloc, bytes)?;
    Ok(tokens)
}
