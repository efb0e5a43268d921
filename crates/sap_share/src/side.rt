// The equations, over numbers: what the one leaves whose left side a symbol on numbers is.
ghost use Rattle.std.specs.Prelude.{◌≡◌, ◌<◌, length, false, IfSome, IfNone, IsTrue};
ghost use Rattle.sap_terms.specs.Equations.{equations, get_message_name, reveal_sign_name};
ghost use Rattle.sap_terms.specs.Signature.{has_builtin};
ghost use Rattle.sap_terms.specs.Tree.{Tree};
ghost use Rattle.sap_share.specs.Shared.{tree_at, trees_at, AreBelow};
ghost use Rattle.sap_share.specs.code.Sides.{IsOnOne, IsOpened, IsOpenedByKey, IsChecked, IsSideOf};

use crate::Table;
use sap_terms::{Builtin, Name, Numbers};

// What the equations make of a symbol on numbers.
#[derive(Clone, Copy)]
pub(crate) enum Side {
    // No equation fits.
    Nothing,
    // What this number stands for.
    Part(u64),
    // The constant `true`.
    Truth,
}

impl Table {
    // The two numbers under the inner symbol, on which the outer one stands.
    fn on_one(&self, outer: &[u8], inner: &[u8], f: &Name, ks: &Numbers) -> Option<(u64, u64)>
        requires { AreBelow (length self.now.trees) ks.now }
        ensures some { IfSome result (λ p. (p.0 < length self.now.trees) × (p.1 < length self.now.trees)
            × IsOnOne outer.now inner.now f.now (trees_at self.now.trees ks.now) (tree_at self.now.trees p.0) (tree_at self.now.trees p.1)) }
        ensures none { IfNone result ((x y : Tree) → IsOnOne outer.now inner.now f.now (trees_at self.now.trees ks.now) x y → ⊥) }
    {
        if !f.is(outer) {
            return None;
        }
        match self.one(ks) {
            Some(id) => self.two_under(inner, id),
            None => None,
        }
    }

    // The message that was sealed with the key it is opened with.
    fn opened(&self, f: &Name, ks: &Numbers) -> Option<u64>
        requires { AreBelow (length self.now.trees) ks.now }
        ensures some { IfSome result (λ m. (m < length self.now.trees) × IsTrue (equations self.now.sig).symmetric
            × ((k : Tree) × IsOpened f.now (trees_at self.now.trees ks.now) (tree_at self.now.trees m) k)) }
        ensures none { IfNone result (IsTrue (equations self.now.sig).symmetric
            → (m k : Tree) → IsOpened f.now (trees_at self.now.trees ks.now) m k → ⊥) }
    {
        if !(f.is(b"sdec") && self.signature().has(Builtin::Symmetric)) {
            return None;
        }
        let Some((sealed, key)) = self.two(ks) else {
            return None;
        };
        let Some((message, own)) = self.two_under(b"senc", sealed) else {
            return None;
        };
        if self.same(own, key) {
            Some(message)
        } else {
            None
        }
    }

    // The message that was sealed with the public key of the key it is opened with.
    fn opened_by_key(&self, f: &Name, ks: &Numbers) -> Option<u64>
        requires { AreBelow (length self.now.trees) ks.now }
        ensures some { IfSome result (λ m. (m < length self.now.trees) × IsTrue (equations self.now.sig).asymmetric
            × ((k : Tree) × IsOpenedByKey f.now (trees_at self.now.trees ks.now) (tree_at self.now.trees m) k)) }
        ensures none { IfNone result (IsTrue (equations self.now.sig).asymmetric
            → (m k : Tree) → IsOpenedByKey f.now (trees_at self.now.trees ks.now) m k → ⊥) }
    {
        if !(f.is(b"adec") && self.signature().has(Builtin::Asymmetric)) {
            return None;
        }
        let Some((sealed, key)) = self.two(ks) else {
            return None;
        };
        let Some((message, public)) = self.two_under(b"aenc", sealed) else {
            return None;
        };
        let Some(own) = self.one_under(b"pk", public) else {
            return None;
        };
        if self.same(own, key) {
            Some(message)
        } else {
            None
        }
    }

    // The message that a signature shows.
    fn shown(&self, f: &Name, ks: &Numbers) -> Option<u64>
        requires { AreBelow (length self.now.trees) ks.now }
        ensures some { IfSome result (λ m. (m < length self.now.trees) × IsTrue (equations self.now.sig).revealing
            × ((k : Tree) × IsOnOne get_message_name reveal_sign_name f.now (trees_at self.now.trees ks.now) (tree_at self.now.trees m) k)) }
        ensures none { IfNone result (IsTrue (equations self.now.sig).revealing
            → (m k : Tree) → IsOnOne get_message_name reveal_sign_name f.now (trees_at self.now.trees ks.now) m k → ⊥) }
    {
        if !self.signature().has(Builtin::RevealingSigning) {
            return None;
        }
        match self.on_one(b"getMessage", b"revealSign", f, ks) {
            Some((message, _)) => Some(message),
            None => None,
        }
    }

    // Whether the outer symbol stands on a signature, which the inner symbol makes, the message that was signed, and the
    // public key of the key that signed it.
    fn is_checked(&self, outer: &[u8], inner: &[u8], f: &Name, ks: &Numbers) -> bool
        requires { AreBelow (length self.now.trees) ks.now }
        ensures yes { IsTrue result → (m k : Tree) × IsChecked outer.now inner.now f.now (trees_at self.now.trees ks.now) m k }
        ensures not { result ≡ false → (m k : Tree) → IsChecked outer.now inner.now f.now (trees_at self.now.trees ks.now) m k → ⊥ }
    {
        if !f.is(outer) {
            return false;
        }
        let Some((signed, claimed, public)) = self.three(ks) else {
            return false;
        };
        let Some((message, own)) = self.two_under(inner, signed) else {
            return false;
        };
        let Some(key) = self.one_under(b"pk", public) else {
            return false;
        };
        self.same(message, claimed) && self.same(own, key)
    }

    // Whether that is so and the builtin was added.
    fn is_signed(&self, b: Builtin, outer: &[u8], inner: &[u8], f: &Name, ks: &Numbers) -> bool
        requires { AreBelow (length self.now.trees) ks.now }
        ensures yes { IsTrue result → IsTrue (has_builtin self.now.sig b)
            × ((m k : Tree) × IsChecked outer.now inner.now f.now (trees_at self.now.trees ks.now) m k) }
        ensures not { result ≡ false → IsTrue (has_builtin self.now.sig b)
            → (m k : Tree) → IsChecked outer.now inner.now f.now (trees_at self.now.trees ks.now) m k → ⊥ }
    {
        if !self.signature().has(b) {
            return false;
        }
        self.is_checked(outer, inner, f, ks)
    }

    /// What is left of the symbol on these, where it is the left side of an equation.
    pub(crate) fn side(&self, f: &Name, ks: &Numbers) -> Side
        requires { AreBelow (length self.now.trees) ks.now }
        ensures { IsSideOf self.now f.now ks.now result }
    {
        if let Some((first, _)) = self.on_one(b"fst", b"pair", f, ks) {
            return Side::Part(first);
        }
        if let Some((_, second)) = self.on_one(b"snd", b"pair", f, ks) {
            return Side::Part(second);
        }
        if let Some(message) = self.opened(f, ks) {
            return Side::Part(message);
        }
        if let Some(message) = self.opened_by_key(f, ks) {
            return Side::Part(message);
        }
        if let Some(message) = self.shown(f, ks) {
            return Side::Part(message);
        }
        if self.is_signed(Builtin::Signing, b"verify", b"sign", f, ks) {
            return Side::Truth;
        }
        if self.is_signed(
            Builtin::RevealingSigning,
            b"revealVerify",
            b"revealSign",
            f,
            ks,
        ) {
            return Side::Truth;
        }
        Side::Nothing
    }
}
