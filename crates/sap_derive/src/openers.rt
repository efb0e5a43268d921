// The symbols by which terms are taken apart.
ghost use Rattle.std.specs.Prelude.{◌≡◌, IfOk, MatchOption, IsTrue, ⊤};
ghost use Rattle.sap_terms.specs.Equations.{equations, fst_name, snd_name, sdec_name, adec_name, get_message_name};
ghost use Rattle.sap_derive.specs.code.Openers.{IsOpener, AreOpeners};

use sap_terms::{Builtin, Mem, Name, Signature};
use std::alloc::Global;

// Each symbol that takes a term apart, where it is held and its equation is switched on.
#[derive(Drop)]
pub(crate) struct Openers {
    pub(crate) first: Option<Name>,
    pub(crate) second: Option<Name>,
    pub(crate) decrypts: Option<Name>,
    pub(crate) decrypts_by_secret: Option<Name>,
    pub(crate) reads: Option<Name>,
}

// The symbol of this name, if it is public, stands on so many terms, and is switched on.
fn opener(
    alloc: Global,
    sig: &Signature,
    name: &[u8],
    count: u64,
    on: bool,
) -> Result<Option<Name>, Mem>
    ensures { IfOk result (IsOpener sig.now name.now count on) }
{
    if !on {
        return Ok(None);
    }
    let name = Name::from_bytes(alloc, name)?;
    if sig.is_public(&name) && sig.arity(&name) == Some(count) {
        return Ok(Some(name));
    }
    drop(name);
    Ok(None)
}

impl Openers {
    // Those of a signature.
    pub(crate) fn of(alloc: Global, sig: &Signature) -> Result<Openers, Mem>
        ensures { IfOk result (AreOpeners sig.now) }
    {
        let first = opener(alloc, sig, b"fst", 1, true)?;
        let second = opener(alloc, sig, b"snd", 1, true)?;
        let decrypts = opener(alloc, sig, b"sdec", 2, sig.has(Builtin::Symmetric))?;
        let decrypts_by_secret = opener(alloc, sig, b"adec", 2, sig.has(Builtin::Asymmetric))?;
        let reads = opener(
            alloc,
            sig,
            b"getMessage",
            1,
            sig.has(Builtin::RevealingSigning),
        )?;
        Ok(Openers {
            first,
            second,
            decrypts,
            decrypts_by_secret,
            reads,
        })
    }
}
