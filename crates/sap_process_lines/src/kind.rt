// The kinds of rules of a process.
ghost use Rattle.std.specs.Prelude.{◌≡◌};
ghost use Rattle.sap_process_lines.specs.Kinds.{channel_kind as channel_named, kind_named, other_kind as other_named, plain_kind as plain_named};

use sap_terms::Name;

// What a rule of the process does, but for the one that starts all. An input has one kind, with a channel and without.
#[derive(Clone, Copy)]
pub enum Kind {
    Nil,
    Par,
    RepStart,
    RepCopy,
    New,
    Out,
    OutAdv,
    OutMsg,
    OutAck,
    In,
    InMsg,
    Event,
    Insert,
    Delete,
    Lock,
    Unlock,
    Then,
    Else,
    Found,
    Missing,
    Embedded,
}

// The kind of a rule whose thread goes on after one line.
fn plain_kind(name: &[u8]) -> Option<Kind>
    ensures { result ≡ plain_named name.now }
{
    if name.starts_with(b"Insert_") {
        return Some(Kind::Insert);
    }
    if name.starts_with(b"Delete_") {
        return Some(Kind::Delete);
    }
    if name.starts_with(b"Lock_") {
        return Some(Kind::Lock);
    }
    if name.starts_with(b"Unlock_") {
        return Some(Kind::Unlock);
    }
    if name.starts_with(b"Then_") {
        return Some(Kind::Then);
    }
    if name.starts_with(b"Else_") {
        return Some(Kind::Else);
    }
    if name.starts_with(b"Found_") {
        return Some(Kind::Found);
    }
    if name.starts_with(b"Missing_") {
        return Some(Kind::Missing);
    }
    None
}

// The kind of a rule that has to do with a channel.
fn channel_kind(name: &[u8]) -> Option<Kind>
    ensures { result ≡ channel_named name.now }
{
    if name.starts_with(b"Out_") {
        return Some(Kind::Out);
    }
    if name.starts_with(b"OutAdv_") {
        return Some(Kind::OutAdv);
    }
    if name.starts_with(b"OutMsg_") {
        return Some(Kind::OutMsg);
    }
    if name.starts_with(b"OutAck_") {
        return Some(Kind::OutAck);
    }
    if name.starts_with(b"In_") {
        return Some(Kind::In);
    }
    if name.starts_with(b"InAdv_") {
        return Some(Kind::In);
    }
    if name.starts_with(b"InMsg_") {
        return Some(Kind::InMsg);
    }
    None
}

// The kind of another rule.
fn other_kind(name: &[u8]) -> Option<Kind>
    ensures { result ≡ other_named name.now }
{
    if name.starts_with(b"Nil_") {
        return Some(Kind::Nil);
    }
    if name.starts_with(b"Par_") {
        return Some(Kind::Par);
    }
    if name.starts_with(b"RepStart_") {
        return Some(Kind::RepStart);
    }
    if name.starts_with(b"RepCopy_") {
        return Some(Kind::RepCopy);
    }
    if name.starts_with(b"New_") {
        return Some(Kind::New);
    }
    if name.starts_with(b"Event_") {
        return Some(Kind::Event);
    }
    if name.starts_with(b"Rule_") {
        return Some(Kind::Embedded);
    }
    None
}

// The kind of the rule with this name; None where it is of none.
pub(crate) fn kind_of(name: &Name) -> Option<Kind>
    ensures { result ≡ kind_named name.now }
{
    let bytes = name.as_bytes();
    match plain_kind(bytes) {
        Some(kind) => Some(kind),
        None => match channel_kind(bytes) {
            Some(kind) => Some(kind),
            None => other_kind(bytes),
        },
    }
}
