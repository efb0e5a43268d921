//! The signature that items declare.
ghost use Rattle.std.specs.Prelude.{◌≡◌, map, is_some, IfOk, OnOk};
ghost use Rattle.sap_terms.specs.Signature.{pairs_alone};
ghost use Rattle.sap_grammar.specs.Words.{words_of};
ghost use Rattle.sap_grammar.specs.Declarations.{of_builtin, of_symbol};
ghost use Rattle.sap_grammar.specs.Cut.{placed};
ghost use Rattle.sap_grammar.specs.Signatures.{clash_with, with_declaration, signature_from, clash_from};
ghost use Rattle.sap_grammar.specs.ItemReading.{cut, told, declared_in, declared_in_all, kept};
ghost use Rattle.sap_grammar.specs.code.DeclarationView.{declaration};

use crate::declaration::{Declaration, read_declared};
use crate::items::split_item;
use sap_terms::{Builtin, Mem, Name, SigFault, Signature, Symbol};
use sap_text::Token;
use std::alloc::Global;

// Adds the symbols of a builtin; where they clash the signature is as it was, and the name is answered.
fn add_builtin(signature: &mut Signature, builtin: Builtin) -> Result<Option<Name>, Mem>
    ensures added { OnOk result (signature.new ≡ with_declaration signature.old
        (of_builtin builtin)) }
    ensures clash { IfOk result (λ c. c ≡ clash_with signature.old (of_builtin builtin)) }
{
    match signature.add_builtin(builtin) {
        Ok(()) => Ok(None),
        Err(SigFault::Clash { name }) => Ok(Some(name)),
        Err(SigFault::Mem) => Err(Mem),
    }
}

// Adds a symbol, in the same way.
fn add_symbol(signature: &mut Signature, symbol: Symbol) -> Result<Option<Name>, Mem>
    ensures added { OnOk result (signature.new ≡ with_declaration signature.old
        (of_symbol symbol)) }
    ensures clash { IfOk result (λ c. c ≡ clash_with signature.old (of_symbol symbol)) }
{
    match signature.declare(symbol.name, symbol.arity, symbol.private) {
        Ok(()) => Ok(None),
        Err(SigFault::Clash { name }) => Ok(Some(name)),
        Err(SigFault::Mem) => Err(Mem),
    }
}

// Adds what a declaration adds, in the same way.
fn add_one(signature: &mut Signature, one: Declaration) -> Result<Option<Name>, Mem>
    ensures added { OnOk result (signature.new ≡ with_declaration signature.old (declaration one)) }
    ensures clash { IfOk result (λ c. c ≡ clash_with signature.old (declaration one)) }
{
    match one {
        Declaration::Builtin(builtin) => add_builtin(signature, builtin),
        Declaration::Symbol(symbol) => add_symbol(signature, symbol),
    }
}

/// The signature of what items declare, and the first clash of its declarations.
#[derive(Drop)]
pub struct Declared {
    pub signature: Signature,
    pub clash: Option<Name>,
}

impl Declared {
    fn add(&mut self, one: Declaration) -> Result<(), Mem>
        ensures signature { OnOk result (self.new.signature ≡ with_declaration self.old.signature
            (declaration one)) }
        ensures clash { OnOk result (self.new.clash ≡ kept self.old.clash
            (clash_with self.old.signature (declaration one))) }
    {
        let clash = add_one(&mut self.signature, one)?;
        if self.clash.is_none() {
            self.clash = clash;
        }
        Ok(())
    }

    fn add_each(&mut self, list: Vec<Declaration>) -> Result<(), Mem>
        ensures signature { OnOk result (self.new.signature ≡ signature_from self.old.signature
            (map declaration list.items)) }
        ensures clash { OnOk result (self.new.clash ≡ kept self.old.clash
            (clash_from self.old.signature (map declaration list.items))) }
    {
        for one in list {
            self.add(one)?;
        }
        Ok(())
    }

    // Adds what an item declares.
    fn add_item(&mut self, alloc: Global, bytes: &[u8], item: &[Token]) -> Result<(), Mem>
        ensures signature { OnOk result (self.new.signature ≡ signature_from self.old.signature
            (told (declared_in (words_of bytes.now item.now)))) }
        ensures clash { OnOk result (self.new.clash ≡ kept self.old.clash
            (clash_from self.old.signature (told (declared_in (words_of bytes.now item.now))))) }
    {
        match read_declared(alloc, bytes, item)? {
            Some(list) => self.add_each(list),
            None => Ok(()),
        }
    }
}

/// What the items declare that these tokens are, in a pass over all of them. An item that is no item of builtins or functions
/// declares nothing.
pub fn read_declarations(alloc: Global, bytes: &[u8], tokens: &[Token]) -> Result<Declared, Mem>
    ensures signature { IfOk result (λ d. d.signature
        ≡ signature_from pairs_alone (declared_in_all (cut (placed bytes.now tokens.now)))) }
    ensures clash { IfOk result (λ d. d.clash
        ≡ clash_from pairs_alone (declared_in_all (cut (placed bytes.now tokens.now)))) }
{
    let mut declared = Declared {
        signature: Signature::new(alloc)?,
        clash: None,
    };
    let mut rest = tokens;
    while !rest.is_empty() {
        let (item, behind) = split_item(bytes, rest);
        match declared.add_item(alloc, bytes, item) {
            Ok(()) => rest = behind,
            Err(mem) => {
                drop(declared);
                return Err(mem);
            }
        }
    }
    Ok(declared)
}

/// Whether the tokens are an item of builtins or functions.
pub fn is_declaration(alloc: Global, bytes: &[u8], item: &[Token]) -> Result<bool, Mem>
    ensures { IfOk result (λ b. b ≡ is_some (declared_in (words_of bytes.now item.now))) }
{
    match read_declared(alloc, bytes, item)? {
        Some(_) => Ok(true),
        None => Ok(false),
    }
}
