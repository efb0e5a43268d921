//! Where names stand in a file that its patterns take.
ghost use Rattle.std.specs.Prelude.{◌≡◌, ◌+◌, ◌↔◌, ℕ, Contains, IfOk, length};
ghost use Rattle.std.specs.List.{All};
ghost use Rattle.sap_process.specs.Proc.{proc};
ghost use Rattle.sap_process.specs.Sites.{sites};
ghost use Rattle.sap_read.specs.FileExpansions.{IsFileExpansion};
ghost use Rattle.sap_read.specs.FileTokens.{HasTokens};
ghost use Rattle.sap_read.specs.WrittenFiles.{IsWrittenFile};
ghost use Rattle.sap_stretches.specs.Stretches.{IsInBytes};
ghost use Rattle.sap_stretches.specs.declared.stretch.Stretch.{Stretch as StretchOf};
ghost use Rattle.sap_captures.specs.Ascending.{AreAscending};
ghost use Rattle.sap_captures.specs.Captures.{IsToldAt};
ghost use Rattle.sap_captures.specs.code.Flags.{IsFlagged};
ghost use Rattle.sap_captures.specs.code.Marks.{IsDesk};
ghost use Rattle.sap_captures.specs.code.Walked.{IsIndexAmong};

use crate::binding::Binding;
use crate::desk::Desk;
use crate::flags::Flags;
use crate::kind::Kind;
use crate::stretches::stretches;
use crate::walk::{Walk, walk_from};
use sap_head_words::some_head;
use sap_macro::index_of;
use sap_process::Process;
use sap_read::{WrittenFile, bodies_are_spelled, located_items, one_list_of_items, one_parting};
use sap_stretches::Stretch;
use sap_terms::{Items, Mem, Named, Path};
use sap_text::{Token, spans_in_order};
use std::alloc::Global;

// The flags of all words from which a node of the kind of this process stems.
fn flags_of(alloc: Global, desk: &Desk<'_>, kind: Kind, process: &Process) -> Result<Flags, Mem>
    requires desk { IsDesk desk.now }
    ensures flags { IfOk result (λ f. (i : ℕ) → IsFlagged f i ↔ IsIndexAmong desk.now kind (sites (proc process.now)) i) }
    ensures count { IfOk result (λ f. length f ≡ length desk.now.tokens.now + 1) }
{
    let flags = Flags::new(alloc, desk.tokens.len() + 1)?;
    let scope = Named::new(alloc);
    let nodes = Items::new(alloc);
    let trail = Path::new(alloc);
    let binding = Binding {
        scope,
        at: 0,
        nodes,
    };
    let mut walk = Walk {
        trail,
        binding,
        flags,
    };
    walk_from(alloc, desk, kind, &mut walk, process)?;
    Ok(walk.flags)
}

/// The stretches at which names of the kind stand in a file, in its order, each once: of a name that a pattern binds the word in the
/// argument of a use from which the node stems that binds; of a variable that is compared the word from which the pattern stems. What
/// was read of the file is lent, and nothing of it is read again. Want of memory is the only error. It takes time in proportion to the
/// tokens and the process, and to the way to each place that has such a node, where names are looked up; it recurses as deep as the
/// process and the terms.
pub fn told_stretches(
    alloc: Global,
    bytes: &[u8],
    tokens: &[Token],
    written: &WrittenFile,
    process: &Process,
    kind: Kind,
) -> Result<Items<Stretch>, Mem>
    requires tokens { HasTokens bytes.now tokens.now }
    requires written { IsWrittenFile bytes.now written.now }
    requires process { IsFileExpansion written.now (proc process.now) }
    ensures are { IfOk result (λ ts. (t : StretchOf) → Contains ts t ↔ IsToldAt kind bytes.now t) }
    ensures order { IfOk result AreAscending }
    ensures inside { IfOk result (λ ts. All (IsInBytes (length bytes.now)) ts) }
{
    one_parting();
    one_list_of_items();
    located_items();
    bodies_are_spelled();
    some_head();
    spans_in_order();
    let index = index_of(alloc, &written.processes.definitions)?;
    let desk = Desk {
        bytes,
        tokens,
        file: written,
        index: &index,
    };
    let flags = flags_of(alloc, &desk, kind, process)?;
    stretches(alloc, tokens, flags.as_slice())
}
