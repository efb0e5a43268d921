//! Outlines of rules.

/// A fact that says where control is.
#[derive(Clone, Copy)]
pub enum Control {
    /// At the place.
    Here,
    /// At its first child, where what is in scope at the place is.
    First,
    /// The same of its second child.
    Second,
    /// At its first child, with what the place binds.
    Inside,
    /// A replication has started at the place.
    Copies,
    /// A sender waits at the place.
    Waits,
}

/// A part of a side of a rule.
#[derive(Clone, Copy)]
pub enum Part<'a> {
    /// Control is there.
    Of(Control),
    /// The linear fact of this name over terms of the place, by their numbers.
    Over(&'a [u8], &'a [u8]),
    /// What an embedded rule takes.
    Taken,
    /// What an event or an embedded rule shows.
    Shown,
    /// What an embedded rule adds.
    Added,
}

/// A rule, where the place gives its terms and facts. It takes no memory.
#[derive(Clone, Copy)]
pub struct Outline<'a> {
    /// What the name of the rule begins with, before the path.
    pub word: &'a [u8],
    pub left: &'a [Part<'a>],
    pub acts: &'a [Part<'a>],
    pub right: &'a [Part<'a>],
}
