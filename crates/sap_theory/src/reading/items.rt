//! Reads the items of a theory.
ghost use Rattle.std.specs.Prelude.{◌≡◌, ℕ, List, IfOk, IsErrOf};
ghost use Rattle.sap_grammar.specs.Cut.{Placed, placed, IsCut};
ghost use Rattle.sap_theory.specs.WrittenItems.{IsFaultyTheory};
ghost use Rattle.sap_theory.specs.code.ItemView.{AreSaid, IsAdded, IsRuled};
ghost use Rattle.sap_theory.specs.declared.fault.TheoryFault.{TheoryFault};
ghost use Rattle.sap_theory.specs.declared.fault.TheoryFault.TheVariants.{Mem as OutOfMemory, Syntax};

use crate::fault::TheoryFault;
use crate::limits::THEORY_LIMITS;
use crate::reading::rule::read_rule;
use sap_grammar::{is_declaration, is_last, item_laws, line_of, split_item, starts};
use sap_rule::{Rule, RuleList};
use sap_statements::{Statement, read_stated};
use sap_terms::{Items, Mem, Signature, push_boxed};
use sap_text::Token;
use std::alloc::Global;

// Reads a rule, and puts it last; false where the tokens are none.
fn read_ruled(
    alloc: Global,
    sig: &Signature,
    bytes: &[u8],
    item: &[Token],
    rules: &mut RuleList,
) -> Result<bool, Mem>
    ensures { IfOk result (λ b. IsRuled sig.now bytes.now item.now rules.old rules.new b) }
{
    match read_rule(alloc, sig, THEORY_LIMITS, bytes, item)? {
        None => Ok(false),
        Some(rule) => {
            push_boxed(rules, rule)?;
            Ok(true)
        }
    }
}

// Reads an item, and where it is a rule, a restriction or a lemma, puts it last; false where the tokens are no item.
fn read_item(
    alloc: Global,
    sig: &Signature,
    bytes: &[u8],
    item: &[Token],
    contents: &mut Contents,
) -> Result<bool, Mem>
    ensures { IfOk result (λ b. IsAdded sig.now bytes.now item.now contents.old.rules
        contents.new.rules contents.old.statements contents.new.statements b) }
{
    item_laws();
    if starts(bytes, item, "rule") {
        read_ruled(alloc, sig, bytes, item, &mut contents.rules)
    } else if is_declaration(alloc, bytes, item)? {
        Ok(true)
    } else {
        read_stated(
            alloc,
            sig,
            THEORY_LIMITS,
            bytes,
            item,
            &mut contents.statements,
        )
    }
}

/// What the items of a theory say besides what they declare: its rules, and its restrictions and lemmas as they are written.
#[derive(Drop)]
pub(crate) struct Contents {
    pub(crate) rules: RuleList,
    pub(crate) statements: Items<Statement>,
}

/// What the items say that these tokens are; `Syntax` with its line where one is in no grammar. The last line is that of the
/// theory's last token. The work is linear in the tokens.
pub(crate) fn read_items(
    alloc: Global,
    sig: &Signature,
    bytes: &[u8],
    tokens: &[Token],
    last: u64,
) -> Result<Contents, TheoryFault>
    ensures good { IfOk result (λ c. (cut : List (List Placed))
        → IsCut (placed bytes.now tokens.now) cut → AreSaid sig.now cut c.rules c.statements) }
    ensures faulty { (line : ℕ) → IsErrOf result (Syntax line) → (cut : List (List Placed))
        → IsCut (placed bytes.now tokens.now) cut
        → IsFaultyTheory last cut line }
    ensures other { (e : TheoryFault) → IsErrOf result e → (e ≡ OutOfMemory → ⊥) → (line : ℕ)
        × (e ≡ Syntax line) }
{
    item_laws();
    let mut contents = Contents {
        rules: RuleList::new(alloc),
        statements: Items::new(alloc),
    };
    let mut rest = tokens;
    while !rest.is_empty() {
        let (item, behind) = split_item(bytes, rest);
        if is_last(bytes, item, behind) {
            return Ok(contents);
        }
        if !read_item(alloc, sig, bytes, item, &mut contents)? {
            return Err(TheoryFault::Syntax {
                line: line_of(item),
            });
        }
        rest = behind;
    }
    Err(TheoryFault::Syntax { line: last })
}
