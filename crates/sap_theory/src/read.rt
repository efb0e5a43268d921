//! Reads theories.
ghost use Rattle.std.specs.Prelude.{◌≡◌, ℕ, List, Ok, Err, IfOk, IsErrOf};
ghost use Rattle.sap_text.specs.Tokens.{IsLexed};
ghost use Rattle.sap_text.specs.declared.fault.Lex.{Lex};
ghost use Rattle.sap_terms.specs.declared.limits.TheConstants.{MOST_THEORY_NAME_BYTES};
ghost use Rattle.sap_grammar.specs.Cut.{Placed, placed, IsCut};
ghost use Rattle.sap_theory.specs.ReadTheory.{AreTokens, IsTheoryRead};
ghost use Rattle.sap_theory.specs.code.Judged.{AreGood, IsRefusedCut};
ghost use Rattle.sap_theory.specs.declared.fault.TheoryFault.{TheoryFault};
ghost use Rattle.sap_theory.specs.declared.fault.TheoryFault.TheVariants.{Mem as OutOfMemory, Lex as LexFault};

use crate::checking::check;
use crate::fault::TheoryFault;
use crate::reading::items::{Contents, read_items};
use sap_grammar::{
    Declared, beyond, header_name, headers_are_read, item_laws, last_line, read_declarations,
};
use sap_rule::{RuleList, Theory};
use sap_statements::Checked;
use sap_terms::{MOST_THEORY_NAME_BYTES, Name};
use sap_text::{Lex, Token, tokens};
use std::alloc::Global;

/// The theory of these bytes, or the first cause that refuses it, in the order of `TheoryFault`. An identifier is a constant
/// where any item of the theory declares it so, and each variable of a formula has the sort of its binder. Rules, restrictions
/// and lemmas stand in the order of the bytes.
///
/// The time is linear in the bytes, but for look-ups in the signature, of which each symbol in a term needs one; names of rules,
/// restrictions and lemmas are looked for by their order.
pub fn read_theory(alloc: Global, bytes: &[u8]) -> Result<Theory, TheoryFault>
    ensures accepted { IfOk result (λ t. IsTheoryRead bytes.now (Ok t)) }
    ensures refused { (e : TheoryFault) → IsErrOf result e → (e ≡ OutOfMemory → ⊥)
        → IsTheoryRead bytes.now (Err e) }
{
    let tokens = read_tokens(alloc, bytes)?;
    read_parts(alloc, bytes, tokens.as_slice())
}

// The tokens of a theory, the longest of `MOST_THEORY_NAME_BYTES`.
fn read_tokens(alloc: Global, bytes: &[u8]) -> Result<Vec<Token>, TheoryFault>
    ensures found { IfOk result (λ v. AreTokens bytes.now v.items) }
    ensures refused { (e : TheoryFault) → IsErrOf result e → (e ≡ OutOfMemory → ⊥)
        → (f : Lex) × (e ≡ LexFault f) × IsLexed MOST_THEORY_NAME_BYTES 0 1 bytes.now (Err f) }
{
    match tokens(alloc, bytes, MOST_THEORY_NAME_BYTES) {
        Ok(tokens) => Ok(tokens),
        Err(Lex::Mem) => Err(TheoryFault::Mem),
        Err(fault) => Err(TheoryFault::Lex(fault)),
    }
}

// The theory of these tokens of the bytes. What items declare is read first, in a pass of its own, since an identifier in a term
// is a constant where any item, also a later one, declares it so.
fn read_parts(alloc: Global, bytes: &[u8], tokens: &[Token]) -> Result<Theory, TheoryFault>
    requires { AreTokens bytes.now tokens.now }
    ensures accepted { IfOk result (λ t. IsTheoryRead bytes.now (Ok t)) }
    ensures refused { (e : TheoryFault) → IsErrOf result e → (e ≡ OutOfMemory → ⊥)
        → IsTheoryRead bytes.now (Err e) }
{
    item_laws();
    headers_are_read();
    let Some(name) = header_name(bytes, tokens) else {
        return Err(TheoryFault::Header);
    };
    let title = Name::from_bytes(alloc, name)?;
    let rest = beyond(3, tokens);
    let declared = read_declarations(alloc, bytes, rest)?;
    let content = read_content(alloc, &declared, bytes, rest, last_line(tokens))?;
    Ok(theory_of(title, declared, content))
}

// The theory of this name with what was declared and these parts.
fn theory_of(name: Name, declared: Declared, content: Content) -> Theory
    ensures head { (result.name ≡ name) × (result.signature ≡ declared.signature) }
    ensures lists { (result.rules ≡ content.rules)
        × (result.restrictions ≡ content.checked.restrictions) × (result.lemmas ≡ content.checked.lemmas) }
{
    let Declared { signature, .. } = declared;
    let Content { rules, checked } = content;
    let Checked {
        restrictions,
        lemmas,
    } = checked;
    Theory {
        name,
        signature,
        rules,
        restrictions,
        lemmas,
    }
}

// What a theory is made of behind its header, but for what it declares.
#[derive(Drop)]
struct Content {
    rules: RuleList,
    checked: Checked,
}

// The parts of the items that these tokens are, under what they declare; or why they are refused. The last line is that of the
// theory's last token.
fn read_content(
    alloc: Global,
    declared: &Declared,
    bytes: &[u8],
    tokens: &[Token],
    last: u64,
) -> Result<Content, TheoryFault>
    ensures accepted { IfOk result (λ c. (cut : List (List Placed))
        → IsCut (placed bytes.now tokens.now) cut
        → AreGood declared.now.signature declared.now.clash cut c.rules c.checked.restrictions
        c.checked.lemmas) }
    ensures refused { (e : TheoryFault) → IsErrOf result e → (e ≡ OutOfMemory → ⊥)
        → (cut : List (List Placed)) → IsCut (placed bytes.now tokens.now) cut
        → IsRefusedCut declared.now.signature declared.now.clash last cut e }
{
    let contents = read_items(alloc, &declared.signature, bytes, tokens, last)?;
    let Contents { rules, statements } = contents;
    let checked = check(
        alloc,
        &declared.signature,
        &declared.clash,
        &rules,
        &statements,
    )?;
    Ok(Content { rules, checked })
}
