//! What each of the seven restrictions says.
ghost use Rattle.std.specs.Prelude.{◌≡◌};
ghost use Rattle.sap_shapes.specs.Formulas.{each_equal, each_found, each_lock, each_missed, each_served, each_unequal, one_start};
ghost use Rattle.sap_shapes.specs.Shapes.{says};

use crate::Shape;

/// `All #i #j. Init()@i & Init()@j ==> #i = #j`
const START: Shape<'static> = Shape::All(
    b"ij",
    &Shape::Imp(
        &Shape::And(
            &Shape::Shows(b"Init", b"", b"i"),
            &Shape::Shows(b"Init", b"", b"j"),
        ),
        &Shape::Same(b"i", b"j"),
    ),
);

/// `All X Y #i. Eq(X,Y)@i ==> X = Y`
const EQUAL: Shape<'static> = Shape::All(
    b"XYi",
    &Shape::Imp(&Shape::Shows(b"Eq", b"XY", b"i"), &Shape::Equal(b'X', b'Y')),
);

/// `All X Y #i. NotEq(X,Y)@i ==> not (X = Y)`
const UNEQUAL: Shape<'static> = Shape::All(
    b"XYi",
    &Shape::Imp(
        &Shape::Shows(b"NotEq", b"XY", b"i"),
        &Shape::Not(&Shape::Equal(b'X', b'Y')),
    ),
);

/// `All X Y #i. IsIn(X,Y)@i ==> (LAST_INSERT)`
const FOUND: Shape<'static> = Shape::All(
    b"XYi",
    &Shape::Imp(&Shape::Shows(b"IsIn", b"XY", b"i"), &LAST_INSERT),
);

/// `Ex #j. Insert(X,Y)@j & #j < #i & (NO_DELETE) & (NO_INSERT)`
const LAST_INSERT: Shape<'static> = Shape::Ex(
    b"j",
    &Shape::And(&Shape::And(&INSERTED_BEFORE, &NO_DELETE), &NO_INSERT),
);

/// `Insert(X,Y)@j & #j < #i`
const INSERTED_BEFORE: Shape<'static> = Shape::And(
    &Shape::Shows(b"Insert", b"XY", b"j"),
    &Shape::Less(b"j", b"i"),
);

/// `All #k. Delete(X)@k ==> #k < #j | #i < #k`
const NO_DELETE: Shape<'static> = Shape::All(
    b"k",
    &Shape::Imp(&Shape::Shows(b"Delete", b"X", b"k"), &BEFORE_OR_AFTER),
);

/// `All Z #k. Insert(X,Z)@k ==> #k < #j | #k = #j | #i < #k`
const NO_INSERT: Shape<'static> = Shape::All(
    b"Zk",
    &Shape::Imp(&Shape::Shows(b"Insert", b"XZ", b"k"), &BEFORE_AT_OR_AFTER),
);

/// `All X Y #i #j. MISSED_AFTER ==> (DELETED_BETWEEN)`
const MISSED: Shape<'static> = Shape::All(b"XYij", &Shape::Imp(&MISSED_AFTER, &DELETED_BETWEEN));

/// `IsNotSet(X)@i & Insert(X,Y)@j & #j < #i`
const MISSED_AFTER: Shape<'static> = Shape::And(
    &Shape::And(
        &Shape::Shows(b"IsNotSet", b"X", b"i"),
        &Shape::Shows(b"Insert", b"XY", b"j"),
    ),
    &Shape::Less(b"j", b"i"),
);

/// `Ex #k. Delete(X)@k & #j < #k & #k < #i`
const DELETED_BETWEEN: Shape<'static> = Shape::Ex(
    b"k",
    &Shape::And(
        &Shape::And(
            &Shape::Shows(b"Delete", b"X", b"k"),
            &Shape::Less(b"j", b"k"),
        ),
        &Shape::Less(b"k", b"i"),
    ),
);

/// `All L M X #i #j. LOCKED_TWICE ==> (UNLOCKED_BETWEEN)`
const LOCKED: Shape<'static> = Shape::All(b"LMXij", &Shape::Imp(&LOCKED_TWICE, &UNLOCKED_BETWEEN));

/// `Lock(L,X)@i & Lock(M,X)@j & #i < #j`
const LOCKED_TWICE: Shape<'static> = Shape::And(
    &Shape::And(
        &Shape::Shows(b"Lock", b"LX", b"i"),
        &Shape::Shows(b"Lock", b"MX", b"j"),
    ),
    &Shape::Less(b"i", b"j"),
);

/// `Ex #k. Unlock(L,X)@k & #i < #k & #k < #j`
const UNLOCKED_BETWEEN: Shape<'static> = Shape::Ex(
    b"k",
    &Shape::And(
        &Shape::And(
            &Shape::Shows(b"Unlock", b"LX", b"k"),
            &Shape::Less(b"i", b"k"),
        ),
        &Shape::Less(b"k", b"j"),
    ),
);

/// `All X #i. InEvent(X)@i ==> (LAST_KNOWN)`
const SERVED: Shape<'static> = Shape::All(
    b"Xi",
    &Shape::Imp(&Shape::Shows(b"InEvent", b"X", b"i"), &LAST_KNOWN),
);

/// `Ex #j. KNOWN_LAST & (NO_EVENT) & (All Y #k. InEvent(Y)@k ==> #k < #j | #k = #i | #i < #k)`
const LAST_KNOWN: Shape<'static> = Shape::Ex(
    b"j",
    &Shape::And(&Shape::And(&KNOWN_LAST, &NO_EVENT), &NO_OTHER_INPUT),
);

/// `K(X)@j & #j < #i & (All Y #k. K(Y)@k ==> #k < #j | #k = #j | #i < #k)`
const KNOWN_LAST: Shape<'static> = Shape::And(
    &Shape::And(&Shape::Shows(b"K", b"X", b"j"), &Shape::Less(b"j", b"i")),
    &Shape::All(
        b"Yk",
        &Shape::Imp(&Shape::Shows(b"K", b"Y", b"k"), &BEFORE_AT_OR_AFTER),
    ),
);

/// `All #k. Event()@k ==> #k < #j | #i < #k`
const NO_EVENT: Shape<'static> = Shape::All(
    b"k",
    &Shape::Imp(&Shape::Shows(b"Event", b"", b"k"), &BEFORE_OR_AFTER),
);

/// `All Y #k. InEvent(Y)@k ==> #k < #j | #k = #i | #i < #k`
const NO_OTHER_INPUT: Shape<'static> = Shape::All(
    b"Yk",
    &Shape::Imp(
        &Shape::Shows(b"InEvent", b"Y", b"k"),
        &Shape::Or(
            &Shape::Or(&Shape::Less(b"k", b"j"), &Shape::Same(b"k", b"i")),
            &Shape::Less(b"i", b"k"),
        ),
    ),
);

/// `#k < #j | #i < #k`
const BEFORE_OR_AFTER: Shape<'static> = Shape::Or(
    &Shape::Less(b"k", b"j"),
    &Shape::Less(b"i", b"k"),
);

/// `#k < #j | #k = #j | #i < #k`
const BEFORE_AT_OR_AFTER: Shape<'static> = Shape::Or(
    &Shape::Or(&Shape::Less(b"k", b"j"), &Shape::Same(b"k", b"j")),
    &Shape::Less(b"i", b"k"),
);

/// There is one start.
pub fn one_start() -> Shape<'static>
    ensures { says result ≡ one_start }
{
    START
}

/// What a test found equal is equal.
pub fn each_equal() -> Shape<'static>
    ensures { says result ≡ each_equal }
{
    EQUAL
}

/// What a test found different is different.
pub fn each_unequal() -> Shape<'static>
    ensures { says result ≡ each_unequal }
{
    UNEQUAL
}

/// What a lookup found was inserted last.
pub fn each_found() -> Shape<'static>
    ensures { says result ≡ each_found }
{
    FOUND
}

/// Where a lookup found nothing, a delete came after each insert.
pub fn each_missed() -> Shape<'static>
    ensures { says result ≡ each_missed }
{
    MISSED
}

/// Between two locks of a term comes the unlock of the first.
pub fn each_lock() -> Shape<'static>
    ensures { says result ≡ each_lock }
{
    LOCKED
}

/// Each input takes what the adversary was last shown to know.
pub fn each_served() -> Shape<'static>
    ensures { says result ≡ each_served }
{
    SERVED
}
