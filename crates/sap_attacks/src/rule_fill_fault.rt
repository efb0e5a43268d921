//! Why a line of a short run of rules is refused.
use sap_restrict::Which;
use sap_steps::RFault;

/// Why a line of a short run of rules is refused. A line's tests come in their order, and the first that fails is answered.
#[derive(Drop)]
pub enum RuleFillFault {
    /// What a line of rules is refused for too: no such rule, a bad binding, a fact of the left side that doesn't stand, by its
    /// number from 1, a term that is too large, or a name that is used.
    Rule(RFault),
    /// What would be shown breaks this restriction.
    Broken(Which),
    /// The term of the line holds a symbol that isn't held, or stands on another number of terms than the symbol's arity.
    BadTerm,
    /// The adversary can't give the message.
    NotDeduced,
    /// Variables are left out, and what stands fits in two ways.
    MoreThanOne,
}
