//! What holds of formulas that carry restrictions, as the contract of a function that does nothing.
ghost use Rattle.sap_inline.specs.Laws.{InlinedForAllLaw, InlinedForSomeLaw};

/// A law: a formula that carries restrictions is true on a trace exactly where it says what the formula says under them: for all
/// traces, where the formula is true if they are; for some trace, where they are true and the formula too. What follows for all
/// traces of rules and of a process, `inlined_lemmas_hold` of `sap_gen` says.
pub fn inlining_keeps_lemmas()
    ensures for_all { InlinedForAllLaw }
    ensures for_some { InlinedForSomeLaw }
{}
