//! What the theories of small files show, by hand, as contracts of a function that only calls the laws below.
ghost use Rattle.std.specs.Prelude.{[], Contains, List, ◌∷◌, ◌≡◌};
ghost use Rattle.sap_read.specs.Files.{FileContent, IsRunnable};
ghost use Rattle.sap_rule.specs.declared.theory.Theory.{Theory};
ghost use Rattle.sap_terms.specs.AdversaryFacts.{k_fact};
ghost use Rattle.sap_terms.specs.Trace.{Trace};
ghost use Rattle.sap_terms.specs.Tree.{fresh};
ghost use Rattle.sap_terms.specs.declared.fact.Fact.{Fact};
ghost use Rattle.sap_translate.specs.Examples.{g_fact, plain_fact, term_m};
ghost use Rattle.sap_gen.specs.ShortExamples.{two_events};
ghost use Rattle.sap_gen.specs.ShortTheories.{IsShortTheory};
ghost use Rattle.sap_gen.specs.TraceExamples.{BothShow, NeitherShows, drawn_event, event_alone, told_event};

use crate::laws::theories_keep_files;
use crate::short_laws::short_theories_keep_files;
use sap_terms::leaves_are_normal;

/// A law: what both theories of small files show, the file's own and the short one. Where 'm' is put out before an event, the
/// adversary shows that it knows 'm' before the event, and behind it; and so it does with a name that was drawn, and that nobody
/// else could have told it. A process that ends behind its event shows the event. Of two events, one behind the other, both are
/// shown, and never at one time.
pub fn short_traces_by_hand()
    ensures known_before { (f : FileContent) (t : Theory) → IsRunnable f → IsShortTheory f t
        → f.process ≡ told_event → BothShow f t ((k_fact term_m ∷ []) ∷ (plain_fact ∷ []) ∷ []) }
    ensures known_behind { (f : FileContent) (t : Theory) → IsRunnable f → IsShortTheory f t
        → f.process ≡ told_event → BothShow f t ((plain_fact ∷ []) ∷ (k_fact term_m ∷ []) ∷ []) }
    ensures drawn_known_before { (f : FileContent) (t : Theory) → IsRunnable f → IsShortTheory f t
        → f.process ≡ drawn_event
        → BothShow f t ((k_fact (fresh 0) ∷ []) ∷ (plain_fact ∷ []) ∷ []) }
    ensures drawn_known_behind { (f : FileContent) (t : Theory) → IsRunnable f → IsShortTheory f t
        → f.process ≡ drawn_event
        → BothShow f t ((plain_fact ∷ []) ∷ (k_fact (fresh 0) ∷ []) ∷ []) }
    ensures ended { (f : FileContent) (t : Theory) → IsRunnable f → IsShortTheory f t
        → f.process ≡ event_alone → BothShow f t ((plain_fact ∷ []) ∷ []) }
    ensures one_behind_other { (f : FileContent) (t : Theory) → IsRunnable f → IsShortTheory f t
        → f.process ≡ two_events → BothShow f t ((plain_fact ∷ []) ∷ (g_fact ∷ []) ∷ []) }
    ensures never_at_once { (f : FileContent) (t : Theory) (tr : Trace) (fs : List Fact)
        → IsRunnable f → IsShortTheory f t → f.process ≡ two_events
        → Contains tr fs → Contains fs plain_fact → Contains fs g_fact → NeitherShows f t tr }
{
    leaves_are_normal();
    theories_keep_files();
    short_theories_keep_files();
}
