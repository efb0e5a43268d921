//! The ways to write the theory of a file.

/// How a theory has the restrictions that its process needs, and those of its file, and which rules it has.
#[derive(Clone, Copy)]
pub enum Way {
    /// They stand beside its lemmas.
    Plain,
    /// They stand in the formula of each lemma, and nowhere else.
    Inlined,
    /// They stand beside its lemmas, and the rules are short: those by which control moves on and nothing else happens are left out.
    Short,
}
