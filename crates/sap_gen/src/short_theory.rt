//! The short theory of a file.
ghost use Rattle.std.specs.Prelude.{IfOk};
ghost use Rattle.sap_read.specs.Files.{IsRunnable, told_by};
ghost use Rattle.sap_gen.specs.ShortTheories.{IsShortTheory};

use crate::shortening::with_short_rules;
use crate::theory::theory_of;
use sap_read::File;
use sap_rule::Theory;
use sap_terms::Mem;
use sap_translate::{rules_are_found_by_name, rules_show_the_process};
use std::alloc::Global;

/// The short theory of a file that can be run: the theory that `theory_of` makes of it, without the
/// silent rules, by which control moves on and nothing else happens; each other rule adds at once
/// what they would have added behind it. Want of memory is the only error. It takes time in
/// proportion to that theory's text, with one look-up by name for each fact that is looked at, and
/// recurses as `theory_of` does.
pub fn shorten(alloc: Global, f: &File) -> Result<Theory, Mem>
    requires { IsRunnable (told_by f.now) }
    ensures { IfOk result (λ t. IsShortTheory (told_by f.now) t) }
{
    rules_show_the_process();
    rules_are_found_by_name();
    with_short_rules(alloc, theory_of(alloc, f, false)?)
}
