// Lines of a process by which a thread and the adversary exchange terms.
ghost use Rattle.std.specs.Prelude.{◌≡◌, OnOk};
ghost use Rattle.sap_runs.specs.declared.process_step.PStep.TheVariants.{Out as OutLine, Send as SendLine, In as InLine};
ghost use Rattle.sap_forward.specs.code.Steps as spec;
ghost use Rattle.sap_forward.specs.code.Steps.{WritesAny};

use crate::desk::Desk;
use sap_lines::Form;
use sap_rule_lines::later;
use sap_runs::{RStep, RSteps};
use sap_terms::Mem;
use std::alloc::Global;

// Whether the form is that of an input on a channel.
fn has_channel(form: &Form) -> bool
    ensures { result ≡ spec.has_channel form.now }
{
    match form {
        Form::Recv(_, _) => true,
        _ => false,
    }
}

impl Desk {
    /// What is written where a thread puts a term on the public channel: it is learnt.
    pub(crate) fn output(&mut self, alloc: Global, t: u64, lines: &mut RSteps) -> Result<(), Mem>
        ensures { OnOk result (WritesAny self.old self.new (OutLine t) lines.old lines.new) }
    {
        let fact = self.count;
        self.go_on(alloc, t, b"Out_", 1, lines)?;
        lines.push(RStep::Learn(fact))
    }

    /// What is written where a thread sends on the channel that this entry is: the term is learnt.
    pub(crate) fn send(
        &mut self,
        alloc: Global,
        t: u64,
        k: u64,
        lines: &mut RSteps,
    ) -> Result<(), Mem>
        ensures { OnOk result (WritesAny self.old self.new (SendLine t k) lines.old lines.new) }
    {
        let fact = later(self.count, 1)?;
        self.go_with(alloc, t, RStep::Know(k), b"OutAdv_", 2, lines)?;
        lines.push(RStep::Learn(fact))
    }

    /// What is written where a thread takes this entry.
    pub(crate) fn input(
        &mut self,
        alloc: Global,
        t: u64,
        k: u64,
        lines: &mut RSteps,
    ) -> Result<(), Mem>
        ensures { OnOk result (WritesAny self.old self.new (InLine t k) lines.old lines.new) }
    {
        let Some((_, place)) = self.at(t) else {
            return Ok(());
        };
        if has_channel(&place.form) {
            self.go_with(alloc, t, RStep::Know(k), b"InAdv_", 1, lines)
        } else {
            self.go_with(alloc, t, RStep::Know(k), b"In_", 1, lines)
        }
    }
}
