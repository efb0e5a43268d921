//! What stands below processes as they are written.
ghost use Rattle.sap_macro.specs.Sources.{written};
ghost use Rattle.sap_macro.specs.code.Heads.{IsBelow};

use crate::source::{Below, Source};

/// What stands directly below. It takes no memory.
#[tactic(auto, using(crate::proofs::Forms::head_laws))]
pub(crate) fn below(source: &Source) -> Below<'_>
    ensures { IsBelow result (written source.now) }
{
    match source {
        Source::Nil(_) => Below::Nothing,
        Source::Call(_, f, ts) => Below::Use(f, ts),
        Source::Rep(_, p) => Below::One(p),
        Source::Act(_, _, p) => Below::One(p),
        Source::Par(_, p, q) => Below::Two(p, q),
        Source::If(_, _, _, p, q) => Below::Two(p, q),
        Source::Lookup(_, _, _, p, q) => Below::Two(p, q),
    }
}
