//! Signatures: which symbols are held, and the equations between them.
ghost use Rattle.std.specs.Prelude.{◌≡◌, ℕ, ◌↔◌, List, IsTrue, IsErrOf, OnOk, OnErr, IfOk, MatchOption, option_map, slice_get, map, length, take, None, Some, false};
ghost use Rattle.std.specs.Option.{option_copied};
ghost use Rattle.sap_terms.specs.Signature.{Sig, find_symbol, arity_of, IsPublic, Clashes, declared, has_builtin, is_destructor_of, builtin_symbols, public_symbol, declared_all, is_held_otherwise, first_clash, added, pairs_alone, IsMap, IsFirstClash, HoldsBuiltins};
ghost use Rattle.sap_terms.specs.declared.signature.SigFault.TheVariants.{Mem as OutOfMemory};

use crate::{Builtins, Copied, HasName, Mem, Name, Named};
use std::alloc::{AllocError, AllocFailed, Global};
use std::marker::Model;

/// A symbol of a signature. A private one is none that the adversary applies.
#[derive(Drop)]
pub struct Symbol {
    pub name: Name,
    pub arity: u64,
    pub private: bool,
}

/// Symbols that are added together with the equations between them.
#[derive(Clone, Copy)]
pub enum Builtin {
    /// `h/1`, without equations.
    Hashing,
    /// `senc/2` and `sdec/2`: `sdec(senc(m,k),k) = m`.
    Symmetric,
    /// `aenc/2`, `adec/2` and `pk/1`: `adec(aenc(m,pk(k)),k) = m`.
    Asymmetric,
    /// `sign/2`, `verify/3`, `pk/1` and `true/0`: `verify(sign(m,k),m,pk(k)) = true`.
    Signing,
    /// `revealSign/2`, `revealVerify/3`, `getMessage/1`, `pk/1` and `true/0`: `revealVerify(revealSign(m,k),m,pk(k)) = true`
    /// and `getMessage(revealSign(m,k)) = m`. That another tool has a builtin of this name with these symbols and equations
    /// isn't claimed.
    RevealingSigning,
}

/// Why a symbol or a builtin is refused.
#[derive(Drop)]
pub enum SigFault {
    /// Want of memory.
    Mem,
    /// This name was declared otherwise: with other arguments, or private where it is public, or the reverse.
    Clash { name: Name },
}

impl From<Mem> for SigFault {
    ghost from_gives = { λ _ e. e ≡ OutOfMemory };

    fn from(_e: Mem) -> SigFault {
        SigFault::Mem
    }
}

/// Symbols with their arities and privacy, in order of first declaration, and builtins. No name stands twice.
/// A look-up by a name takes time in the logarithm of their number, times the length of what two names have in common.
#[derive(Drop)]
pub struct Signature {
    symbols: Named<Symbol>,
    builtins: Builtins,
}

impl Model for Signature {
    ghost use Rattle.sap_terms.specs.Signature.{Sig, IsMap, HoldsBuiltins};

    ghost Value = { Sig };

    ghost view = { λ a. record { symbols = a.symbols; builtins = a.builtins } };

    ghost invariant = { λ a. IsMap a.symbols × HoldsBuiltins (record { symbols = a.symbols; builtins = a.builtins }) };
}

impl Signature {
    /// The signature that has pairs and their two parts, and nothing more.
    pub fn new(alloc: Global) -> Result<Signature, Mem>
        ensures { IfOk result (λ g. g ≡ pairs_alone) }
    {
        let symbols = public_symbols(alloc, &[(b"pair", 2), (b"fst", 1), (b"snd", 1)])?;
        Ok(Signature {
            symbols,
            builtins: Builtins::none(),
        })
    }

    /// Whether the builtin was added.
    pub fn has(&self, b: Builtin) -> bool
        ensures { result ≡ has_builtin self.now b }
    {
        self.builtins.has(b)
    }

    /// The arity of a held name; None where the name isn't held.
    pub fn arity(&self, name: &Name) -> Option<u64>
        ensures { result ≡ arity_of self.now name.now }
    {
        match held(&self.symbols, name) {
            Some(s) => Some(s.arity),
            None => None,
        }
    }

    /// Whether the name is held and isn't private.
    pub fn is_public(&self, name: &Name) -> bool
        ensures { IsTrue result ↔ IsPublic self.now name.now }
    {
        match held(&self.symbols, name) {
            Some(s) => !s.private,
            None => false,
        }
    }

    /// The name that was declared as number k, counted from 0 without repetitions, if there are so many.
    pub fn symbol(&self, k: u64) -> Option<&Name>
        ensures name { option_copied result ≡ option_map (λ s. s.name) (slice_get self.now.symbols k) }
        ensures once { IsMap self.now.symbols }
    {
        match self.symbols.get(k) {
            Some(s) => Some(&s.name),
            None => None,
        }
    }

    /// The held symbols, in order of first declaration.
    pub fn symbols(&self) -> &[Symbol]
        ensures { result.now ≡ self.now.symbols }
    {
        self.symbols.as_slice()
    }

    /// Adds a symbol, where its name isn't held yet. A symbol that is held as it is asked for changes nothing.
    /// Refused, the signature is as it was.
    #[tactic(auto, using(crate::proofs::SignatureLemmas::signature_laws))]
    pub fn declare(&mut self, name: Name, arity: u64, private: bool) -> Result<(), SigFault>
        ensures ok { OnOk result (self.new ≡ record self.old { symbols = declared self.old.symbols name arity private }) }
        ensures clash { IsErrOf result (SigFault.Clash name) ↔ Clashes self.old.symbols name arity private }
        ensures other { (n : List ℕ) → IsErrOf result (SigFault.Clash n) → n ≡ name }
        ensures err { OnErr result (self.new ≡ self.old) }
    {
        match held(&self.symbols, &name) {
            Some(s) => {
                if s.arity == arity && s.private == private {
                    drop(name);
                    Ok(())
                } else {
                    Err(SigFault::Clash { name })
                }
            }
            None => {
                self.symbols.push(Symbol {
                    name,
                    arity,
                    private,
                })?;
                Ok(())
            }
        }
    }
}

impl HasName for Symbol {
    ghost name_of = { λ s. s.name };

    fn name(&self) -> &Name {
        &self.name
    }
}

impl Copied for Symbol {
    fn copy(&self, alloc: Global) -> Result<Symbol, Mem> {
        Ok(Symbol {
            name: self.name.copy(alloc)?,
            arity: self.arity,
            private: self.private,
        })
    }
}

// The held symbol of this name.
fn held<'a>(symbols: &'a Named<Symbol>, name: &Name) -> Option<&'a Symbol>
    ensures { option_copied result ≡ find_symbol symbols.now name.now }
{
    symbols.named(name)
}

// Public symbols of these names and arities, in order.
fn public_symbols(alloc: Global, rows: &[(&[u8], u64)]) -> Result<Named<Symbol>, Mem>
    ensures { IfOk result (λ ss. ss ≡ map (λ row. public_symbol row.0.now row.1) rows.now) }
{
    let mut symbols = Named::new(alloc);
    for row in rows {
        let pushed = match Name::from_bytes(alloc, row.0) {
            Ok(name) => symbols.push(Symbol {
                name,
                arity: row.1,
                private: false,
            }),
            Err(e) => Err(e),
        };
        match pushed {
            Ok(()) => {}
            Err(e) => {
                drop(symbols);
                return Err(e);
            }
        }
    }
    Ok(symbols)
}

// The names and arities of a builtin's symbols, in order.
fn rows_of(b: Builtin) -> &'static [(&'static [u8], u64)]
    ensures { map (λ row. public_symbol row.0.now row.1) result.now ≡ builtin_symbols b }
{
    match b {
        Builtin::Hashing => &[(b"h", 1)],
        Builtin::Symmetric => &[(b"senc", 2), (b"sdec", 2)],
        Builtin::Asymmetric => &[(b"aenc", 2), (b"adec", 2), (b"pk", 1)],
        Builtin::Signing => &[(b"sign", 2), (b"verify", 3), (b"pk", 1), (b"true", 0)],
        Builtin::RevealingSigning => &[
            (b"revealSign", 2),
            (b"revealVerify", 3),
            (b"getMessage", 1),
            (b"pk", 1),
            (b"true", 0),
        ],
    }
}

// Whether the symbol's name was declared otherwise.
fn is_held_otherwise(symbols: &Named<Symbol>, symbol: &Symbol) -> bool
    ensures { result ≡ is_held_otherwise symbols.now symbol.now }
{
    match held(symbols, &symbol.name) {
        Some(s) => !(s.arity == symbol.arity && s.private == symbol.private),
        None => false,
    }
}

// The index of the first of these symbols that is held otherwise.
fn first_clash(symbols: &Named<Symbol>, added: &Named<Symbol>) -> Option<u64>
    ensures { MatchOption result (first_clash symbols.now added.now ≡ None)
        (λ k. IsFirstClash symbols.now added.now k) }
{
    for k in 0..added.len() {
        if is_held_otherwise(symbols, added.at(k)) {
            return Some(k);
        }
    }
    None
}

// Puts a copy of the symbol last, unless its name is held. Refused, the symbols are as they were.
fn declare_copy(alloc: Global, symbols: &mut Named<Symbol>, s: &Symbol) -> Result<(), Mem>
    ensures ok { OnOk result (symbols.new ≡ declared symbols.old s.now.name s.now.arity s.now.private) }
    ensures err { OnErr result (symbols.new ≡ symbols.old) }
{
    if held(symbols, &s.name).is_some() {
        return Ok(());
    }
    symbols.push(s.copy(alloc)?)
}

// Puts copies of these symbols last, one after another, where their names are not held. Refused, some of them may be
// there, behind those that were.
fn declare_each(symbols: &mut Named<Symbol>, added: &Named<Symbol>) -> Result<(), Mem>
    ensures ok { OnOk result (symbols.new ≡ declared_all symbols.old added.now) }
    ensures kept { take (length symbols.old) symbols.new ≡ symbols.old }
{
    let alloc = symbols.allocator();
    for s in added.as_slice() {
        declare_copy(alloc, symbols, s)?;
    }
    Ok(())
}

// The same; refused, the symbols are as they were.
fn declare_all(symbols: &mut Named<Symbol>, added: &Named<Symbol>) -> Result<(), Mem>
    ensures ok { OnOk result (symbols.new ≡ declared_all symbols.old added.now) }
    ensures err { OnErr result (symbols.new ≡ symbols.old) }
{
    let count = symbols.len();
    match declare_each(symbols, added) {
        Ok(()) => Ok(()),
        Err(e) => {
            symbols.cut(count);
            Err(e)
        }
    }
}

// Puts copies of these symbols last, one after another, where their names are not held; where one of these is held
// otherwise, a clash at the first that is. Refused, the symbols are as they were.
fn join(symbols: &mut Named<Symbol>, added: &Named<Symbol>) -> Result<(), SigFault>
    ensures ok { OnOk result (symbols.new ≡ declared_all symbols.old added.now) }
    ensures no_clash { OnOk result (first_clash symbols.old added.now ≡ None) }
    ensures clash { (n : List ℕ) → IsErrOf result (SigFault.Clash n) → first_clash symbols.old added.now ≡ Some n }
    ensures err { OnErr result (symbols.new ≡ symbols.old) }
{
    match first_clash(symbols, added) {
        Some(k) => {
            let name = added.at(k).name.copy(symbols.allocator())?;
            Err(SigFault::Clash { name })
        }
        None => {
            declare_all(symbols, added)?;
            Ok(())
        }
    }
}

impl Signature {
    ghost use Rattle.sap_terms.specs.Equations.{equations, IsDestructor};

    /// Whether an equation of pairs or of an added builtin has this symbol at the head of its left side.
    #[tactic(auto, using(crate::proofs::SignatureLemmas::signature_laws))]
    pub fn is_destructor(&self, name: &Name) -> bool
        ensures heads { IsTrue result ↔ IsDestructor (equations self.now) name.now }
        ensures test { result ≡ is_destructor_of self.now name.now }
    {
        self.is_left_head(name)
    }

    // The seven tests of `is_destructor`.
    fn is_left_head(&self, name: &Name) -> bool
        ensures { result ≡ is_destructor_of self.now name.now }
    {
        name.is(b"fst")
            || name.is(b"snd")
            || (name.is(b"sdec") && self.builtins.symmetric)
            || (name.is(b"adec") && self.builtins.asymmetric)
            || (name.is(b"verify") && self.builtins.signing)
            || (name.is(b"revealVerify") && self.builtins.revealing)
            || (name.is(b"getMessage") && self.builtins.revealing)
    }

    /// The symbols of each builtin that was added are held, with their arities, and public.
    pub fn builtins_are_held(&self)
        ensures { HoldsBuiltins self.now }
    {
        let _symbols = &self.symbols;
    }

    /// Adds a builtin's symbols, in their order, and switches on its equations. A clash names the first of these
    /// symbols that is held with another arity or privacy. Refused, the signature is as it was. It takes the time of looking
    /// up the builtin's symbols, however many others are held.
    #[tactic(auto, using(crate::proofs::SignatureLemmas::signature_laws))]
    pub fn add_builtin(&mut self, b: Builtin) -> Result<(), SigFault>
        ensures ok { OnOk result (self.new ≡ added self.old b) }
        ensures no_clash { OnOk result (first_clash self.old.symbols (builtin_symbols b) ≡ None) }
        ensures clash { (n : List ℕ) → IsErrOf result (SigFault.Clash n)
            → first_clash self.old.symbols (builtin_symbols b) ≡ Some n }
        ensures err { OnErr result (self.new ≡ self.old) }
    {
        if self.has(b) {
            return Ok(());
        }
        let alloc = self.symbols.allocator();
        let added = public_symbols(alloc, rows_of(b))?;
        let joined = join(&mut self.symbols, &added);
        drop(added);
        joined?;
        self.builtins = self.builtins.including(b);
        Ok(())
    }
}

impl Copied for Signature {
    fn copy(&self, alloc: Global) -> Result<Signature, Mem> {
        Ok(Signature {
            symbols: self.symbols.copy(alloc)?,
            builtins: self.builtins,
        })
    }
}
