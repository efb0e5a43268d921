//! Values as texts. A term is its tree: each symbol stands before its parentheses, and a fresh name is `~` and its number.
use sap_place::{Form, Place, semi_fact, state_fact};
use sap_process::{Children, Process};
use sap_rows::Page;
use sap_rule::Rule;
use sap_terms::{Binding, Copied, Fact, Items, Mem, Name, Sort, Term, TermList, Var};

/// What has a text of its own.
pub trait Show {
    /// Puts the text last.
    fn show_on(&self, page: &mut Page);
}

/// Shows the value, and lets it go.
pub fn show_value<T: Show + Drop>(value: T, page: &mut Page) {
    value.show_on(page);
}

/// Shows a copy of the value, and lets both go.
pub fn show_copy<T: Copied + Show + Drop>(value: T, page: &mut Page) {
    show_value(value.copy(page.alloc), page);
    drop(value);
}

/// Shows a copy of what was made, or why it wasn't.
pub fn show_made<T: Copied + Show + Drop, E: Show + Drop>(made: Result<T, E>, page: &mut Page) {
    match made {
        Ok(value) => show_copy(value, page),
        Err(fault) => show_value(fault, page),
    }
}

impl Show for u64 {
    fn show_on(&self, page: &mut Page) {
        page.numbered("", *self);
    }
}

impl Show for bool {
    fn show_on(&self, page: &mut Page) {
        page.word(if *self { "yes" } else { "no" });
    }
}

impl<T: Show> Show for &T {
    fn show_on(&self, page: &mut Page) {
        (**self).show_on(page);
    }
}

impl<T: Show> Show for Option<T> {
    fn show_on(&self, page: &mut Page) {
        match self {
            Some(value) => value.show_on(page),
            None => page.word("none"),
        }
    }
}

// The value, or why there is none.
impl<T: Show, E: Show> Show for Result<T, E> {
    fn show_on(&self, page: &mut Page) {
        match self {
            Ok(value) => value.show_on(page),
            Err(fault) => fault.show_on(page),
        }
    }
}

// The page isn't whole.
impl Show for Mem {
    fn show_on(&self, page: &mut Page) {
        page.fail();
    }
}

// In brackets, with blanks between them.
impl<T: Show> Show for Items<T> {
    fn show_on(&self, page: &mut Page) {
        let mut before = "[";
        for value in self.as_slice() {
            page.word(before);
            value.show_on(page);
            before = " ";
        }
        page.word(if self.len() == 0 { "[]" } else { "]" });
    }
}

// A value behind a word.
fn show_one<T: Show>(page: &mut Page, word: &str, t: &T) {
    page.word(word);
    t.show_on(page);
}

// Two values, each behind a word.
fn show_two<T: Show, U: Show>(page: &mut Page, word: &str, t: &T, between: &str, u: &U) {
    show_one(page, word, t);
    show_one(page, between, u);
}

// What is read, and the number of the token behind it.
impl<T: Show> Show for (T, u64) {
    fn show_on(&self, page: &mut Page) {
        show_two(page, "", &self.0, " ", &self.1);
    }
}

impl Show for Name {
    fn show_on(&self, page: &mut Page) {
        page.named("", self);
    }
}

impl Show for Var {
    fn show_on(&self, page: &mut Page) {
        let sign = match self.sort {
            Sort::Msg => "",
            Sort::Fresh => "~",
            Sort::Pub => "$",
        };
        page.named(sign, &self.name);
    }
}

impl Show for Binding {
    fn show_on(&self, page: &mut Page) {
        show_two(page, "", &self.var, " = ", &self.term);
    }
}

// The terms in parentheses, so deep at most.
#[cycle(show)]
fn show_terms(page: &mut Page, depth: u32, terms: &TermList) {
    page.word("(");
    for k in 0..terms.len() {
        if k > 0 {
            page.word(",");
        }
        show_deep(page, depth, terms.at(k));
    }
    page.word(")");
}

#[cycle(show)]
fn show_deep(page: &mut Page, depth: u32, term: &Term) {
    match term {
        Term::Var(v) => v.show_on(page),
        Term::Public(n) => {
            page.named("'", n);
            page.word("'");
        }
        Term::Fresh(k) => page.numbered("~", *k),
        Term::App(f, args) => {
            page.named("", f);
            if depth > 0 {
                show_terms(page, depth - 1, args);
            }
        }
    }
}

// So far as it has 300 levels.
impl Show for Term {
    fn show_on(&self, page: &mut Page) {
        show_deep(page, 300, self);
    }
}

impl Show for Fact {
    fn show_on(&self, page: &mut Page) {
        page.named(if self.persistent { "!" } else { "" }, &self.name);
        show_terms(page, 300, &self.args);
    }
}

impl Show for Rule {
    fn show_on(&self, page: &mut Page) {
        show_two(page, "", &self.name, "", &self.left);
        show_two(page, "", &self.acts, "", &self.right);
    }
}

// Its facts of control, and the labels of the open locks.
impl Show for Place {
    fn show_on(&self, page: &mut Page) {
        show_value(state_fact(page.alloc, self), page);
        match self.form {
            Form::Rep | Form::Send => show_value(semi_fact(page.alloc, self), page),
            _ => {}
        }
        self.open_locks.show_on(page);
    }
}

// What stands at the head of a process.
fn show_head(page: &mut Page, p: &Process) {
    match p {
        Process::Nil => page.word("0"),
        Process::Par(_, _) => page.word("par"),
        Process::Rep(_) => page.word("!"),
        Process::New(x, _) => show_one(page, "new ", x),
        Process::Out(t, _) => show_one(page, "out ", t),
        Process::Send(t, u, _) => show_two(page, "out ", t, ",", u),
        Process::In(t, _) => show_one(page, "in ", t),
        Process::Recv(t, u, _) => show_two(page, "in ", t, ",", u),
        Process::If(t, u, _, _) => show_two(page, "if ", t, ",", u),
        Process::Event(f, _) => show_one(page, "event ", f),
        Process::Insert(t, u, _) => show_two(page, "insert ", t, ",", u),
        Process::Delete(t, _) => show_one(page, "delete ", t),
        Process::Lookup(t, x, _, _) => show_two(page, "lookup ", t, " as ", x),
        Process::Lock(t, label, _) => show_two(page, "lock ", t, " ", &(*label as u64)),
        Process::Unlock(t, label, _) => show_two(page, "unlock ", t, " ", &(*label as u64)),
        Process::Embedded(l, e, r, _) => {
            show_two(page, "", l, "", e);
            r.show_on(page);
        }
    }
}

/// The head, and behind it what follows: in parentheses where there are two branches.
pub fn show_process(page: &mut Page, p: &Process) {
    show_head(page, p);
    match p.children() {
        Children::Nothing => {}
        Children::One(q) => {
            page.word(";");
            show_process(page, q);
        }
        Children::Two(q, r) => {
            page.word("(");
            show_process(page, q);
            page.word(")(");
            show_process(page, r);
            page.word(")");
        }
    }
}
