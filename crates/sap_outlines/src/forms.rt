//! The outlines of each form.
ghost use Rattle.std.specs.Prelude.{◌≡◌, ℕ, List, [], map};
ghost use Rattle.sap_terms.specs.Tree.{Tree};
ghost use Rattle.sap_terms.specs.declared.var.Var.{Var as VarType};
ghost use Rattle.sap_process.specs.Proc.{Proc, proc};
ghost use Rattle.sap_outlines.specs.Outlines.{outlined, terms_at};
ghost use Rattle.sap_outlines.specs.Places.{scope_handed_down};
ghost use Rattle.sap_outlines.specs.Templates.{init_rule, own_rules};

use crate::outline::{Control, Outline, Part};
use sap_process::Process;

/// A run starts.
const INIT: Outline<'static> = Outline {
    word: b"Init",
    left: &[],
    acts: &[Part::Over(b"Init", &[])],
    right: &[Part::Of(Control::Here)],
};

/// A place with nothing left ends.
const NIL: &[Outline<'static>] = &[Outline {
    word: b"Nil_",
    left: &[Part::Of(Control::Here)],
    acts: &[],
    right: &[],
}];

/// Both children start.
const PARALLEL: &[Outline<'static>] = &[Outline {
    word: b"Par_",
    left: &[Part::Of(Control::Here)],
    acts: &[],
    right: &[Part::Of(Control::First), Part::Of(Control::Second)],
}];

/// `RepStart_`
const STARTED: Outline<'static> = Outline {
    word: b"RepStart_",
    left: &[Part::Of(Control::Here)],
    acts: &[],
    right: &[Part::Of(Control::Copies)],
};

/// `RepCopy_`
const COPIED: Outline<'static> = Outline {
    word: b"RepCopy_",
    left: &[Part::Of(Control::Copies)],
    acts: &[],
    right: &[Part::Of(Control::First)],
};

/// The replication starts, and stays; a copy starts.
const REPLICATED: &[Outline<'static>] = &[STARTED, COPIED];

/// The rule takes the fresh name that the process makes.
const NEW: &[Outline<'static>] = &[Outline {
    word: b"New_",
    left: &[Part::Of(Control::Here), Part::Over(b"Fr", &[0])],
    acts: &[],
    right: &[Part::Of(Control::Inside)],
}];

/// The adversary is given the term.
const OUTPUT: &[Outline<'static>] = &[Outline {
    word: b"Out_",
    left: &[Part::Of(Control::Here)],
    acts: &[],
    right: &[Part::Over(b"Out", &[0]), Part::Of(Control::First)],
}];

/// `OutAdv_`
const TO_ADVERSARY: Outline<'static> = Outline {
    word: b"OutAdv_",
    left: &[Part::Of(Control::Here), Part::Over(b"In", &[0])],
    acts: &[Part::Over(b"InEvent", &[0])],
    right: &[Part::Over(b"Out", &[1]), Part::Of(Control::First)],
};

/// `OutMsg_`
const SENT: Outline<'static> = Outline {
    word: b"OutMsg_",
    left: &[Part::Of(Control::Here), Part::Over(b"Fr", &[2])],
    acts: &[],
    right: &[Part::Over(b"Msg", &[2, 0, 1]), Part::Of(Control::Waits)],
};

/// `OutAck_`
const ACKNOWLEDGED: Outline<'static> = Outline {
    word: b"OutAck_",
    left: &[Part::Of(Control::Waits), Part::Over(b"Ack", &[2])],
    acts: &[],
    right: &[Part::Of(Control::First)],
};

/// The adversary gives the channel and is given the term; or the term is under way with a fresh tag, until that is acknowledged.
const SEND: &[Outline<'static>] = &[TO_ADVERSARY, SENT, ACKNOWLEDGED];

/// The adversary gives an instance of the pattern.
const INPUT: &[Outline<'static>] = &[Outline {
    word: b"In_",
    left: &[Part::Of(Control::Here), Part::Over(b"In", &[0])],
    acts: &[Part::Over(b"InEvent", &[0])],
    right: &[Part::Of(Control::Inside)],
}];

/// `InAdv_`
const FROM_ADVERSARY: Outline<'static> = Outline {
    word: b"InAdv_",
    left: &[Part::Of(Control::Here), Part::Over(b"In", &[3])],
    acts: &[Part::Over(b"InEvent", &[3])],
    right: &[Part::Of(Control::Inside)],
};

/// `InMsg_`
const TAKEN: Outline<'static> = Outline {
    word: b"InMsg_",
    left: &[Part::Of(Control::Here), Part::Over(b"Msg", &[2, 0, 1])],
    acts: &[],
    right: &[Part::Over(b"Ack", &[2]), Part::Of(Control::Inside)],
};

/// The adversary gives the channel and an instance of the pattern, as a pair; or a message is under way, whose tag is acknowledged.
const RECEIVE: &[Outline<'static>] = &[FROM_ADVERSARY, TAKEN];

/// `Then_`
const EQUAL: Outline<'static> = Outline {
    word: b"Then_",
    left: &[Part::Of(Control::Here)],
    acts: &[Part::Over(b"Eq", &[0, 1])],
    right: &[Part::Of(Control::First)],
};

/// `Else_`
const DIFFERENT: Outline<'static> = Outline {
    word: b"Else_",
    left: &[Part::Of(Control::Here)],
    acts: &[Part::Over(b"NotEq", &[0, 1])],
    right: &[Part::Of(Control::Second)],
};

/// The two terms are shown as equal, or as different.
const TEST: &[Outline<'static>] = &[EQUAL, DIFFERENT];

/// The fact is shown beside `Event()`.
const EVENT: &[Outline<'static>] = &[Outline {
    word: b"Event_",
    left: &[Part::Of(Control::Here)],
    acts: &[Part::Shown],
    right: &[Part::Of(Control::First)],
}];

/// What is stored is shown.
const INSERT: &[Outline<'static>] = &[Outline {
    word: b"Insert_",
    left: &[Part::Of(Control::Here)],
    acts: &[Part::Over(b"Insert", &[0, 1])],
    right: &[Part::Of(Control::First)],
}];

/// The key at which nothing is stored from now on is shown.
const DELETE: &[Outline<'static>] = &[Outline {
    word: b"Delete_",
    left: &[Part::Of(Control::Here)],
    acts: &[Part::Over(b"Delete", &[0])],
    right: &[Part::Of(Control::First)],
}];

/// `Found_`
const FOUND: Outline<'static> = Outline {
    word: b"Found_",
    left: &[Part::Of(Control::Here)],
    acts: &[Part::Over(b"IsIn", &[0, 1])],
    right: &[Part::Of(Control::Inside)],
};

/// `Missing_`
const MISSING: Outline<'static> = Outline {
    word: b"Missing_",
    left: &[Part::Of(Control::Here)],
    acts: &[Part::Over(b"IsNotSet", &[0])],
    right: &[Part::Of(Control::Second)],
};

/// A value is shown at the key, or none.
const LOOKUP: &[Outline<'static>] = &[FOUND, MISSING];

/// The term is locked under a fresh name.
const LOCK: &[Outline<'static>] = &[Outline {
    word: b"Lock_",
    left: &[Part::Of(Control::Here), Part::Over(b"Fr", &[1])],
    acts: &[Part::Over(b"Lock", &[1, 0])],
    right: &[Part::Of(Control::Inside)],
}];

/// It is unlocked under the name of its lock.
const UNLOCK: &[Outline<'static>] = &[Outline {
    word: b"Unlock_",
    left: &[Part::Of(Control::Here)],
    acts: &[Part::Over(b"Unlock", &[1, 0])],
    right: &[Part::Of(Control::First)],
}];

/// The rule itself, from the place to its child.
const EMBEDDED: &[Outline<'static>] = &[Outline {
    word: b"Rule_",
    left: &[Part::Of(Control::Here), Part::Taken],
    acts: &[Part::Shown],
    right: &[Part::Of(Control::Inside), Part::Added],
}];

/// The outline of the rule that starts a run, over the path of the root, where nothing is in scope.
pub fn init() -> Outline<'static>
    ensures { (ts : List Tree) (p : Proc) → outlined ts p [] [] [] result ≡ init_rule }
{
    INIT
}

/// The outlines of the rules of the place at which the process stands, in order.
pub fn outlines(p: &Process) -> &'static [Outline<'static>]
    ensures { (path : List ℕ) (v : List VarType)
        → map (outlined (terms_at (proc p.now)) (proc p.now) path v (scope_handed_down v (proc p.now) 1))
        result.now
        ≡ own_rules path v (proc p.now) }
{
    match p {
        Process::Nil => NIL,
        Process::Par(_, _) => PARALLEL,
        Process::Rep(_) => REPLICATED,
        Process::New(_, _) => NEW,
        Process::Out(_, _) => OUTPUT,
        Process::Send(_, _, _) => SEND,
        Process::In(_, _) => INPUT,
        Process::Recv(_, _, _) => RECEIVE,
        Process::If(_, _, _, _) => TEST,
        Process::Event(_, _) => EVENT,
        Process::Insert(_, _, _) => INSERT,
        Process::Delete(_, _) => DELETE,
        Process::Lookup(_, _, _, _) => LOOKUP,
        Process::Lock(_, _, _) => LOCK,
        Process::Unlock(_, _, _) => UNLOCK,
        Process::Embedded(_, _, _, _) => EMBEDDED,
    }
}
