// The channel that a thread sends on, and what is so of the adversary's entries.
ghost use Rattle.std.specs.Prelude.{◌≡◌, ◌≤◌, ◌<◌, length, IfOk, IfErr, All};
ghost use Rattle.sap_terms.specs.Message.{IsMessage};
ghost use Rattle.sap_terms.specs.Tree.{node_count};
ghost use Rattle.sap_terms.specs.View.{tree};
ghost use Rattle.sap_terms.specs.declared.limits.TheConstants.{MOST_TERM_NODES as MostTermNodes};
ghost use Rattle.sap_terms.specs.declared.var.Sort.TheVariants.{Msg};
ghost use Rattle.sap_deduce.specs.Entries.{AreEntered, terms_of};
ghost use Rattle.sap_share.specs.Shared.{tree_at};
ghost use Rattle.sap_lines.specs.Channels.{SendsOn, HasNoChannel};
ghost use Rattle.sap_lines.specs.declared.fault.PFault.TheVariants.{Mem as OutOfMemory};
ghost use Rattle.sap_calc.specs.Running.{configuration};

use crate::Config;
use crate::thread::thread_at;
use sap_heads::values;
use sap_lines::PFault;
use sap_share::Table;
use sap_terms::Term;
use std::alloc::Global;

// The term of a number.
fn term_of(alloc: Global, table: &Table, number: u64) -> Result<Term, PFault>
    requires { number < length table.now.trees }
    ensures ok { IfOk result (λ x. tree x ≡ tree_at table.now.trees number) }
    ensures err { IfErr result (λ e. e ≡ OutOfMemory) }
{
    match table.tree(alloc, number) {
        Ok(term) => Ok(term),
        Err(_) => Err(PFault::Mem),
    }
}

impl Config {
    /// The normal form of the channel that a thread sends on, where channel and message are evaluated within the limit. Nothing
    /// changes but what the table of terms has. The first of these is answered: no thread has the number (`NoThread`); it doesn't
    /// send on a channel (`WrongForm`); a normal form has more than 256 nodes (`TermLarge`). It recurses as deep as the terms at
    /// the head of the thread.
    pub fn channel(&mut self, alloc: Global, t: u64) -> Result<Term, PFault>
        ensures ok { IfOk result (λ x. SendsOn self.old.sig (configuration self.old) t (tree x)) }
        ensures message { IfOk result (λ x. IsMessage self.old.sig Msg (tree x)) }
        ensures refused { IfErr result (HasNoChannel self.old.sig (configuration self.old) t) }
        ensures kept { self.new ≡ self.old }
    {
        self.table.each_is_ground();
        let Some(th) = thread_at(&self.threads, t) else {
            return Err(PFault::NoThread { t });
        };
        let place = self.places.at(th.place);
        let Some((m, n)) = place.form.sending() else {
            return Err(PFault::WrongForm { t });
        };
        let number = match values(alloc, &mut self.table, &th.env, m, n) {
            Ok((number, _)) => number,
            Err(fault) => return Err(fault),
        };
        self.table.each_is_ground();
        self.table.each_is_over();
        term_of(alloc, &self.table, number)
    }

    /// What is so of the adversary's entries, whatever was done: they came one after another, and each is a message of at most
    /// 256 nodes.
    pub fn each_entry_came(&self)
        ensures entered { AreEntered self.now.sig self.now.known }
        ensures messages { All (IsMessage self.now.sig Msg) (terms_of self.now.known) }
        ensures within { All (λ u. node_count u ≤ MostTermNodes) (terms_of self.now.known) }
    {
        self.knowledge.each_is_deducible();
    }
}
