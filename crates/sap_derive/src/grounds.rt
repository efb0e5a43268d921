// How numbers become known, and where clauses wait.

// How a number became known.
#[derive(Clone, Copy)]
pub(crate) enum Grounds {
    Given,
    // By the clause at this index.
    By(u64),
}

// A clause, by its index, and the place of the number among those that it stands on.
#[derive(Clone, Copy)]
pub(crate) struct Wait {
    pub(crate) clause: u64,
    pub(crate) place: u64,
}
