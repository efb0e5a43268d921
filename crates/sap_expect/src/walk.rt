//! A walk over the words of a file by the table of its words.
ghost use Rattle.std.specs.Prelude.{◌≡◌, ◌≤◌, ◌+◌, ℕ, List, [], ◌∷◌, ◌++◌, IfOk, None, OnOk, length, map};
ghost use Rattle.std.specs.Option.{option_to_list};
ghost use Rattle.sap_expect.specs.declared.wanted.Wanted as code;
ghost use Rattle.sap_expect.specs.declared.wanted.Limit.{Limit};
ghost use Rattle.sap_expect.specs.FileTable.{part as part_of, all_opened, changed, file, holds, is_this, levels_in, limit as limit_of, may_hold, opened, otherwise, passes, row_among, rows};
ghost use Rattle.sap_expect.specs.code.Attempts.{on_top};
ghost use Rattle.sap_expect.specs.code.SeenWords.{seen};
ghost use Rattle.sap_expect.specs.code.Steps.{Stepped, Taken};
ghost use Rattle.sap_expect.specs.code.WantedView.{all_wanted, counting, open_of, row_of, stacked, turn_there, wanted as view};

use crate::nested::Nested;
use crate::seen::{Seen, is_wanted};
use crate::table;
use crate::table::{Row, Turn};
use crate::wanted::{Change, Limit, Part, Test, Wanted};
use sap_draft::FILE_LIMITS;
use sap_terms::{MOST_PROCESS_LEVELS, Mem};
use std::alloc::Global;

// What is wanted behind the word, by the first of the rows that it begins, and where.
fn row_among(word: Seen<'_>, rows: &'static [Row]) -> Option<Turn>
    ensures { turn_there result ≡ row_among (map row_of rows.now) (seen word.entry) }
{
    for row in rows {
        if is_wanted(word, row.0) {
            return Some((row.1, row.2));
        }
    }
    None
}

// The rows of a part.
fn rows(part: Part) -> &'static [Row]
    ensures { map row_of result.now ≡ rows part }
{
    match part {
        Part::File => table::FILE,
        Part::Items => table::ITEMS,
        Part::Builtin => table::BUILTIN,
        Part::MoreBuiltins => table::MORE_BUILTINS,
        Part::Function => table::FUNCTION,
        Part::Privacy => table::PRIVACY,
        Part::MoreFunctions => table::MORE_FUNCTIONS,
        Part::Parameters => table::PARAMETERS,
        Part::MoreParameters => table::MORE_PARAMETERS,
        Part::Lemma => table::LEMMA,
        Part::Attribute => table::ATTRIBUTE,
        Part::MoreAttributes => table::MORE_ATTRIBUTES,
        Part::Mode => table::MODE,
        Part::Bars => table::BARS,
        Part::Sequence => table::SEQUENCE,
        Part::Arguments => table::ARGUMENTS,
        Part::Then => table::THEN,
        Part::Else => table::ELSE,
        Part::NewName => table::NEW_NAME,
        Part::Message => table::MESSAGE,
        Part::Facts => table::FACTS,
        Part::MoreFacts => table::MORE_FACTS,
        Part::Fact => table::FACT,
        Part::Arrow => table::ARROW,
        Part::Shown => table::SHOWN,
        Part::MoreShown => table::MORE_SHOWN,
        Part::Term => table::TERM,
        Part::Application => table::APPLICATION,
        Part::Terms => table::TERMS,
        Part::MoreTerms => table::MORE_TERMS,
        Part::Pair => table::PAIR,
        Part::MoreParts => table::MORE_PARTS,
        Part::MoreEquivalence => table::MORE_EQUIVALENCE,
        Part::Ended => table::ENDED,
        Part::MoreImplication => table::MORE_IMPLICATION,
        Part::MoreDisjunction => table::MORE_DISJUNCTION,
        Part::MoreConjunction => table::MORE_CONJUNCTION,
        Part::Formula => table::FORMULA,
        Part::Truth => table::TRUTH,
        Part::Atom => table::ATOM,
        Part::UpperAtom => table::UPPER_ATOM,
        Part::LowerAtom => table::LOWER_ATOM,
        Part::Times => table::TIMES,
        Part::Time => table::TIME,
        Part::Binders => table::BINDERS,
        Part::MoreBinders => table::MORE_BINDERS,
        Part::Process
        | Part::Equivalence
        | Part::Implication
        | Part::Disjunction
        | Part::Conjunction => &[],
    }
}

// What a part is where the next word begins none of its rows.
fn otherwise(part: Part) -> Option<Turn>
    ensures { turn_there result ≡ otherwise part }
{
    match part {
        Part::MoreBuiltins | Part::MoreFunctions => Some(table::THE_ITEMS),
        Part::Privacy => Some(table::THE_FUNCTIONS),
        Part::Process => Some(table::A_SEQUENCE),
        Part::Bars
        | Part::Ended
        | Part::MoreEquivalence
        | Part::MoreImplication
        | Part::MoreDisjunction
        | Part::MoreConjunction => Some(table::NO_MORE),
        Part::Arguments | Part::Application | Part::Truth => Some(table::A_LEAF),
        Part::Then => Some(table::A_NIL),
        Part::Else => Some(table::NO_OTHER_BRANCH),
        Part::Facts => Some(table::SOME_FACTS),
        Part::Terms => Some(table::SOME_TERMS),
        Part::Equivalence => Some(table::AN_IMPLICATION),
        Part::Implication => Some(table::A_DISJUNCTION),
        Part::Disjunction => Some(table::A_CONJUNCTION),
        Part::Conjunction => Some(table::A_FORMULA),
        Part::Formula => Some(table::AN_ATOM),
        Part::MoreBinders => Some(table::SOME_BINDERS),
        _ => None,
    }
}

// The most levels of a part in one of at most `most`.
fn limit(limit: Limit, most: u64) -> u64
    ensures { result ≡ limit_of limit most }
{
    match limit {
        Limit::Same => most,
        Limit::Below => most.saturating_sub(1),
        Limit::OfTerm => u64::from(FILE_LIMITS.term_levels),
        Limit::OfProcess => MOST_PROCESS_LEVELS,
        Limit::OfFormula => u64::from(FILE_LIMITS.formula_levels),
    }
}

// Whether a part of at most `most` levels may begin so, where what ended last has these.
fn holds(test: Test, most: u64, levels: u64) -> bool
    ensures { result ≡ holds test most levels }
{
    match test {
        Test::Always => true,
        Test::Never => false,
        Test::HasLevel => 1 <= most,
        Test::HasRoom => 2 <= most,
        Test::GoesOn => levels < most,
    }
}

// What the tests of a part count levels of.
fn levels_in(part: Part) -> Option<Nested>
    ensures { result ≡ levels_in part }
{
    match part {
        Part::Bars | Part::Sequence => Some(Nested::Process),
        Part::Term | Part::Terms | Part::MoreParts | Part::Atom => Some(Nested::Term),
        Part::MoreEquivalence
        | Part::MoreImplication
        | Part::MoreDisjunction
        | Part::MoreConjunction
        | Part::Formula => Some(Nested::Formula),
        _ => None,
    }
}

fn is_this(nested: Nested, other: Option<Nested>) -> bool
    ensures { result ≡ is_this nested other }
{
    match (nested, other) {
        (Nested::Term, Some(Nested::Term)) => true,
        (Nested::Process, Some(Nested::Process)) => true,
        (Nested::Formula, Some(Nested::Formula)) => true,
        _ => false,
    }
}

// Whether a part may begin so with some levels.
fn may_hold(test: Test) -> bool
    ensures { result ≡ may_hold test }
{
    match test {
        Test::Never => false,
        _ => true,
    }
}

// Whether a part may begin so, where the levels of what is spared don't count.
fn passes(spared: Option<Nested>, part: Part, test: Test, most: u64, levels: u64) -> bool
    ensures { result ≡ passes (counting spared) part test most levels }
{
    match spared {
        None => holds(test, most, levels),
        Some(spared) => {
            if is_this(spared, levels_in(part)) {
                may_hold(test)
            } else {
                holds(test, most, levels)
            }
        }
    }
}

fn deeper(levels: u64, before: u64) -> u64
    ensures { result ≡ changed Change.Deepest levels before }
{
    if before < levels { levels } else { before }
}

// One more; so many levels as have no number need more memory than there is.
fn one_more(levels: u64) -> Result<u64, Mem>
    ensures { IfOk result (λ n. n ≡ levels + 1) }
{
    levels.checked_add(1).ok_or(Mem)
}

// The levels of what ended, where what ended last has these, and what had ended before has those.
fn changed(change: Change, levels: u64, before: u64) -> Result<u64, Mem>
    ensures { IfOk result (λ n. n ≡ changed change levels before) }
{
    match change {
        Change::Nothing => Ok(0),
        Change::One => Ok(1),
        Change::Two => Ok(2),
        Change::More => one_more(levels),
        Change::Deepest => Ok(deeper(levels, before)),
        Change::Joined => one_more(deeper(levels, before)),
    }
}

/// What is wanted, with the levels that it may have, or those of what had ended.
pub(crate) type Open = (Wanted, u64);

// What is wanted in a part of at most `most` levels, where what ended last has these.
fn opened(wanted: Wanted, most: u64, levels: u64) -> Open
    ensures { open_of result ≡ opened most levels (view wanted) }
{
    match wanted {
        Wanted::A(_, of) => (wanted, limit(of, most)),
        Wanted::Level(_) => (wanted, levels),
        _ => (wanted, 0),
    }
}

// Puts what is wanted on top, the first of it topmost.
fn push_all(stack: &mut Vec<Open>, wanted: &[Wanted], most: u64, levels: u64) -> Result<(), Mem>
    ensures { OnOk result (stacked stack.new.items ≡ all_opened most levels (all_wanted wanted.now)
        ++ stacked stack.old.items) }
{
    let mut k = wanted.len();
    while k > 0 {
        k -= 1;
        stack.push(opened(wanted[k], most, levels))?;
    }
    Ok(())
}

// A walk over the words of a file: the levels of what ended last, and what is wanted, the first of it last.
#[derive(Drop)]
pub(crate) struct Walk {
    pub(crate) levels: u64,
    pub(crate) stack: Vec<Open>,
}

// A word that is tried where a walk is, which stays as it is: the levels of what ended last, how much of what was wanted is left, and what
// came on top of that.
#[derive(Drop)]
pub(crate) struct Attempt {
    pub(crate) levels: u64,
    pub(crate) left: usize,
    pub(crate) more: Vec<Open>,
}

impl Attempt {
    // One for some word, which isn't tried yet.
    pub(crate) fn new(alloc: Global) -> Attempt {
        Attempt {
            levels: 0,
            left: 0,
            more: Vec::new(alloc),
        }
    }

    // Takes off what is on top.
    #[tactic(auto, using(crate::proofs::OnTop::none_on_top))]
    fn pop(&mut self, stack: &[Open]) -> Option<Open>
        requires { self.old.left ≤ length stack.now }
        ensures top { on_top stack.now self.old.left self.old.more.items
            ≡ on_top stack.now self.new.left self.new.more.items ++ option_to_list result }
        ensures none { result ≡ None → on_top stack.now self.old.left self.old.more.items ≡ [] }
        ensures left { self.new.left ≤ length stack.now }
        ensures levels { self.new.levels ≡ self.old.levels }
    {
        if let Some(open) = self.more.pop() {
            return Some(open);
        }
        if self.left == 0 {
            return None;
        }
        self.left -= 1;
        Some(stack[self.left])
    }

    // A step with a part that is wanted: whether the word is taken or wrong, or nothing yet, where the part is something else. The levels
    // of what is spared don't count.
    fn step_part(
        &mut self,
        word: Seen<'_>,
        spared: Option<Nested>,
        part: Part,
        most: u64,
    ) -> Result<Option<bool>, Mem>
        ensures step { IfOk result (λ o. (l : Limit) (under : List (code.Wanted × ℕ)) → Stepped (counting spared) self.old.levels
            ((part_of part l, most) ∷ stacked (under ++ self.old.more.items)) (seen word.entry)
            self.new.levels (stacked (under ++ self.new.more.items)) o) }
        ensures left { self.new.left ≡ self.old.left }
    {
        if let Some((test, rest)) = row_among(word, rows(part)) {
            if !passes(spared, part, test, most, self.levels) {
                return Ok(Some(false));
            }
            push_all(&mut self.more, rest, most, self.levels)?;
            return Ok(Some(true));
        }
        match otherwise(part) {
            Some((test, other)) => {
                if !passes(spared, part, test, most, self.levels) {
                    return Ok(Some(false));
                }
                push_all(&mut self.more, other, most, self.levels)?;
                Ok(None)
            }
            None => Ok(Some(false)),
        }
    }

    // A step with what is wanted on top.
    fn step(
        &mut self,
        stack: &[Open],
        word: Seen<'_>,
        spared: Option<Nested>,
    ) -> Result<Option<bool>, Mem>
        requires { self.old.left ≤ length stack.now }
        ensures step { IfOk result (λ o. Stepped (counting spared) self.old.levels (stacked (on_top stack.now self.old.left self.old.more.items))
            (seen word.entry) self.new.levels (stacked (on_top stack.now self.new.left self.new.more.items)) o) }
        ensures left { self.new.left ≤ length stack.now }
    {
        match self.pop(stack) {
            None => Ok(Some(false)),
            Some((wanted, number)) => match wanted {
                Wanted::A(part, _) => self.step_part(word, spared, part, number),
                Wanted::Level(change) => {
                    self.levels = changed(change, self.levels, number)?;
                    Ok(None)
                }
                _ => Ok(Some(is_wanted(word, wanted))),
            },
        }
    }

    // Whether the word may stand next where the walk is, if the levels of what is spared don't count; what is wanted behind it is open then.
    pub(crate) fn goes(
        &mut self,
        walk: &Walk,
        word: Seen<'_>,
        spared: Option<Nested>,
    ) -> Result<bool, Mem>
        ensures { IfOk result (λ b. Taken (counting spared) walk.now.levels (stacked walk.now.stack.items) (seen word.entry)
            self.new.levels (stacked (on_top walk.now.stack.items self.new.left self.new.more.items)) b) }
    {
        self.levels = walk.levels;
        self.left = walk.stack.len();
        self.more.clear();
        loop {
            if let Some(taken) = self.step(walk.stack.as_slice(), word, spared)? {
                return Ok(taken);
            }
        }
    }
}

impl Walk {
    // At the first word of a file.
    pub(crate) fn new(alloc: Global) -> Result<Walk, Mem>
        ensures { IfOk result (λ w. (w.levels ≡ 0) × (stacked w.stack.items ≡ file)) }
    {
        let mut stack = Vec::new(alloc);
        stack.push((Wanted::A(Part::File, Limit::Same), 0))?;
        Ok(Walk { levels: 0, stack })
    }

    // Goes on to where the word is taken that was tried.
    pub(crate) fn follow(&mut self, attempt: &Attempt) -> Result<(), Mem>
        ensures levels { OnOk result (self.new.levels ≡ attempt.now.levels) }
        ensures stack { OnOk result (self.new.stack.items
            ≡ on_top self.old.stack.items attempt.now.left attempt.now.more.items) }
    {
        self.stack.truncate(attempt.left);
        self.stack.extend_from_slice(attempt.more.as_slice())?;
        self.levels = attempt.levels;
        Ok(())
    }
}
