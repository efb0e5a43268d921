//! Why a step of a short run is refused.
use sap_lines::PFault;

/// Why a step of a short run is refused. A step's tests come in their order, and the first that fails is answered.
#[derive(Drop)]
pub enum FillFault {
    /// The line that the step stands for is refused, for this cause.
    Process(PFault),
    /// The term of the step holds a symbol that isn't held, or stands on another number of terms than the symbol's arity.
    BadTerm,
    /// The adversary can't give what the term of the step is, or what the channel is.
    NotDeduced,
}
