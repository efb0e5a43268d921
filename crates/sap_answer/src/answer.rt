//! What there is to say of a call.
ghost use Rattle.std.specs.Prelude.{◌≡◌};
ghost use Rattle.sap_answer.specs.Endings.{answer_of};
ghost use Rattle.sap_answer.specs.code.Said.{said};

use crate::ending::Ending;

/// What there is to say of a call.
#[derive(Clone, Copy)]
pub enum Answer<'a> {
    /// This text for out.
    Out(&'a [u8]),
    /// This status, with this text for err.
    Err(u8, &'a [u8]),
}

/// The answer that an ending is, unless memory was wanting.
pub fn answer_of(ending: &Ending) -> Option<Answer<'_>>
    ensures { said result ≡ answer_of ending.now }
{
    match ending {
        Ending::Given(text) => Some(Answer::Out(text.as_bytes())),
        Ending::Help(text) => Some(Answer::Out(text.as_bytes())),
        Ending::Usage => Some(Answer::Err(3, b"usage: sapic COMMAND ARGUMENTS\n")),
        Ending::Unread => Some(Answer::Err(4, b"read fault\n")),
        Ending::File(line) => Some(Answer::Err(1, line.as_bytes())),
        Ending::Run(line) => Some(Answer::Err(2, line.as_bytes())),
        Ending::Mem => None,
    }
}
