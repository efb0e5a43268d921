//! What the rows of a table have made so far, where they go on from one another.
use crate::notation::{list, name, signature};
use sap_calc::Config;
use sap_facts::Pile;
use sap_rows::Page;
use sap_rule::Theory;
use sap_steps::RuleState;
use sap_terms::{Copied, Items, Signature, Term};

/// The symbols and terms of a row, and facts, a theory, a run of rules and one of a process.
#[derive(Drop)]
pub struct Desk {
    pub signature: Signature,
    pub terms: Items<Term>,
    pub pile: Pile,
    pub theory: Theory,
    pub run: Option<Box<RuleState>>,
    pub config: Option<Box<Config>>,
}

/// The theory T of these symbols, without rules, restrictions and lemmas.
pub fn empty_theory(page: &mut Page, symbols: &str) -> Option<Theory> {
    let (name, signature) = name(page.alloc, "T").zip(signature(page, symbols))?;
    Some(Theory {
        name,
        signature,
        rules: Items::new(page.alloc),
        restrictions: Items::new(page.alloc),
        lemmas: Items::new(page.alloc),
    })
}

/// Before the first row.
pub fn empty_desk(page: &mut Page) -> Option<Box<Desk>> {
    let (signature, theory) = signature(page, "").zip(empty_theory(page, ""))?;
    let desk = Desk {
        signature,
        terms: Items::new(page.alloc),
        pile: Pile::new(page.alloc),
        theory,
        run: None,
        config: None,
    };
    Box::new(page.alloc, desk).ok()
}

impl Desk {
    /// Begins a row over these symbols, with copies of the terms that the text spells, with bars between them.
    pub fn begin(&mut self, page: &mut Page, symbols: &str, terms: &str) {
        let signature = signature(page, symbols);
        page.set(&mut self.signature, signature);
        let terms: Items<Term> = list(page, &self.signature, '|', terms);
        page.set(&mut self.terms, terms.copy(page.alloc).ok());
        drop(terms);
    }
}
