//! Reads processes.
ghost use Rattle.std.specs.Prelude.{◌≡◌, ℕ, [], IfOk, IfSome, IfNone};
ghost use Rattle.sap_terms.specs.Signature.{Sig};
ghost use Rattle.sap_grammar.specs.Words.{words_of};
ghost use Rattle.sap_macro.specs.Written.{Written};
ghost use Rattle.sap_draft.specs.ProcessGrammar.{IsPar, IsProcess};
ghost use Rattle.sap_draft.specs.LocatedProcesses.{par_located};
ghost use Rattle.sap_draft.specs.declared.limits.TheConstants.{FILE_LIMITS};
ghost use Rattle.sap_macro.specs.Sources.{located, written};

mod actions;
mod build;
mod choice;
mod grammar;
mod uses;

use crate::process::grammar::read_par;
use sap_grammar::term_laws;
use sap_macro::{Source, located_is_written};
use sap_terms::{MOST_PROCESS_LEVELS, Mem, Signature};
use sap_text::Token;
use std::alloc::Global;

/// The process that these tokens spell, all of them; None where they spell none of at most `MOST_PROCESS_LEVELS` levels, under any signature.
/// Each place of it has the number of tokens that are left from the one that tells it.
pub fn read_process(
    alloc: Global,
    sig: &Signature,
    bytes: &[u8],
    tokens: &[Token],
) -> Result<Option<Box<Source>>, Mem>
    ensures found { IfOk result (λ o. IfSome o (λ p. IsProcess sig.now (written p.value)
        (words_of bytes.now tokens.now))) }
    ensures places { IfOk result (λ o. IfSome o (λ p. (n : ℕ)
        (r : IsPar sig.now FILE_LIMITS (written p.value) n (words_of bytes.now tokens.now) [])
        → par_located r ≡ located p.value)) }
    ensures none { IfOk result (λ o. IfNone o ((g : Sig) (p : Written)
        → IsProcess g p (words_of bytes.now tokens.now) → ⊥)) }
{
    term_laws();
    located_is_written();
    match read_par(alloc, sig, bytes, MOST_PROCESS_LEVELS as u32, tokens)? {
        None => Ok(None),
        Some((process, rest)) => {
            if rest.is_empty() {
                Ok(Some(process.source))
            } else {
                Ok(None)
            }
        }
    }
}
