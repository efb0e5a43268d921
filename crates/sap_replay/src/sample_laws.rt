//! Laws of the sample: its text is read as a file, and its run is legal.
ghost use Rattle.std.specs.Prelude.{ℕ, Ok};
ghost use Rattle.sap_forward.specs.Converted.{IsShownByLines};
ghost use Rattle.sap_read.specs.Files.{IsRead};
ghost use Rattle.sap_replay.specs.Sample.{sample_file_text, sample_lines, told_sample};
ghost use Rattle.sap_terms.specs.Trace.{Trace};

use sap_rewrite::normal_forms_are_unique;
use sap_terms::{destructors_head_left_sides, leaves_are_normal, names_are_messages};
use sap_text::longest_tokens;

/// A law: the text of the sample is read as the file that tells this, so that no cause refuses it.
pub fn sample_is_read()
    ensures { IsRead sample_file_text (Ok told_sample) }
{
    longest_tokens();
}

/// A law: the run of however many sessions is a legal run of the file's process within the limit on terms, so that no line of it
/// is refused.
pub fn sample_is_legal()
    ensures { (n : ℕ) → (tr : Trace)
        × IsShownByLines told_sample.signature told_sample.process (sample_lines n) tr }
{
    leaves_are_normal();
    names_are_messages();
    destructors_head_left_sides();
    normal_forms_are_unique();
}
