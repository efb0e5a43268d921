//! Rows of a chart.
ghost use Rattle.std.specs.Prelude.{◌≡◌, ◌≤◌, ◌++◌, [], OnOk, codes, decimal, length};
ghost use Rattle.sap_chart.specs.ChartText.{across_to, box_text, entry_text, figure_text, margin_text, mark_text, row_text, who_text};
ghost use Rattle.sap_chart.specs.code.Drawing.{nobody};
ghost use Rattle.sap_chart.specs.declared.figure.Figure.TheVariants as figure;

use crate::figure::Figure;
use crate::labels::{
    across, down, push_arrow, push_box, push_mark, push_numbered, push_spelled, shortened,
};
use crate::lifelines::across_to;
use indexmap::IndexMap;
use sap_terms::Mem;
use sap_text::Text;
use std::alloc::Global;

// A thread by its number.
fn push_thread_number(text: &mut Text, t: u64) -> Result<(), Mem>
    ensures { OnOk result (text.new ≡ text.old ++ (codes "thread " ++ decimal t)) }
{
    push_numbered(text, b"thread ", t)
}

// Two threads that meet.
fn push_both(text: &mut Text, s: u64, t: u64) -> Result<(), Mem>
    ensures { OnOk result (text.new ≡ text.old ++ (codes "thread " ++ (decimal s ++ (codes " to " ++ decimal t)))) }
{
    push_numbered(text, b"thread ", s)?;
    push_numbered(text, b" to ", t)
}

// Who acts in a figure.
fn push_who(text: &mut Text, figure: Figure) -> Result<(), Mem>
    ensures { OnOk result (text.new ≡ text.old ++ who_text figure) }
{
    match figure {
        Figure::Makes => text.push_bytes(b"adversary"),
        Figure::Meets(s, t) => push_both(text, s, t),
        Figure::Puts(t) | Figure::Takes(t) | Figure::Shows(t) => push_thread_number(text, t),
        Figure::Stores(t) | Figure::Locks(t) | Figure::Does(t) => push_thread_number(text, t),
    }
}

// The number of a line, and who acts.
fn push_margin(text: &mut Text, number: u64, figure: Figure) -> Result<(), Mem>
    ensures { OnOk result (text.new ≡ text.old ++ margin_text number figure) }
{
    push_numbered(text, b"<text x='10' y='4'>", number)?;
    text.push_bytes(b". ")?;
    push_who(text, figure)?;
    text.push_bytes(b"</text>")
}

// The entry that is known from then on.
fn push_known(text: &mut Text, k: u64) -> Result<(), Mem>
    ensures { OnOk result (text.new ≡ text.old ++ entry_text (Some k)) }
{
    push_numbered(text, b"<text x='212' y='4' text-anchor='end'>knows ", k)?;
    text.push_bytes(b"</text>")
}

// The same, if there is one.
fn push_entry(text: &mut Text, entry: Option<u64>) -> Result<(), Mem>
    ensures { OnOk result (text.new ≡ text.old ++ entry_text entry) }
{
    match entry {
        None => Ok(()),
        Some(k) => push_known(text, k),
    }
}

// What a thread puts out.
fn push_put(
    text: &mut Text,
    lifelines: &IndexMap<u64, Text>,
    t: u64,
    label: &[u8],
) -> Result<(), Mem>
    requires { length label.now ≤ 100 }
    ensures { OnOk result (text.new ≡ text.old ++ figure_text lifelines.now.entries (figure.Puts t) label.now) }
{
    let from = across_to(lifelines, t)?;
    push_arrow(text, from, across(0)?, label)
}

// What a thread takes.
fn push_taken(
    text: &mut Text,
    lifelines: &IndexMap<u64, Text>,
    t: u64,
    label: &[u8],
) -> Result<(), Mem>
    requires { length label.now ≤ 100 }
    ensures { OnOk result (text.new ≡ text.old ++ figure_text lifelines.now.entries (figure.Takes t) label.now) }
{
    let to = across_to(lifelines, t)?;
    push_arrow(text, across(0)?, to, label)
}

// What two threads that meet send.
fn push_met(
    text: &mut Text,
    lifelines: &IndexMap<u64, Text>,
    s: u64,
    t: u64,
    label: &[u8],
) -> Result<(), Mem>
    requires { length label.now ≤ 100 }
    ensures { OnOk result (text.new ≡ text.old ++ figure_text lifelines.now.entries (figure.Meets s t) label.now) }
{
    let from = across_to(lifelines, s)?;
    let to = across_to(lifelines, t)?;
    push_arrow(text, from, to, label)
}

// An event.
fn push_event(
    text: &mut Text,
    lifelines: &IndexMap<u64, Text>,
    t: u64,
    label: &[u8],
) -> Result<(), Mem>
    requires { length label.now ≤ 100 }
    ensures { OnOk result (text.new ≡ text.old ++ box_text (across_to lifelines.now.entries t) label.now) }
{
    push_box(text, across_to(lifelines, t)?, label)
}

// A mark on a thread's lifeline.
fn push_marked(
    text: &mut Text,
    lifelines: &IndexMap<u64, Text>,
    t: u64,
    mark: &[u8],
    label: &[u8],
) -> Result<(), Mem>
    requires { length label.now ≤ 100 }
    ensures { OnOk result (text.new ≡ text.old ++ mark_text (across_to lifelines.now.entries t) mark.now label.now) }
{
    push_mark(text, across_to(lifelines, t)?, mark, label)
}

// A figure with its label.
fn push_figure(
    text: &mut Text,
    lifelines: &IndexMap<u64, Text>,
    figure: Figure,
    label: &[u8],
) -> Result<(), Mem>
    requires { length label.now ≤ 100 }
    ensures { OnOk result (text.new ≡ text.old ++ figure_text lifelines.now.entries figure label.now) }
{
    match figure {
        Figure::Puts(t) => push_put(text, lifelines, t, label),
        Figure::Takes(t) => push_taken(text, lifelines, t, label),
        Figure::Meets(s, t) => push_met(text, lifelines, s, t, label),
        Figure::Shows(t) => push_event(text, lifelines, t, label),
        Figure::Stores(t) => push_marked(
            text,
            lifelines,
            t,
            b"'/><rect x='-4' y='-4' width='8' height='8' fill='white' stroke='black'/><text x='12' y='4' xml:space='preserve'>",
            label,
        ),
        Figure::Locks(t) => push_marked(
            text,
            lifelines,
            t,
            b"'/><rect x='-4' y='-4' width='8' height='8'/><text x='12' y='4' xml:space='preserve'>",
            label,
        ),
        Figure::Does(t) => push_marked(
            text,
            lifelines,
            t,
            b"'/><circle r='4'/><text x='12' y='4' xml:space='preserve'>",
            label,
        ),
        Figure::Makes => push_mark(
            text,
            across(0)?,
            b"'/><circle r='4' fill='white' stroke='black'/><text x='12' y='4' xml:space='preserve'>",
            label,
        ),
    }
}

/// The row of a line, with the told line whole in its title.
pub(crate) fn push_row(
    alloc: Global,
    text: &mut Text,
    lifelines: &IndexMap<u64, Text>,
    k: u64,
    number: u64,
    figure: Figure,
    entry: Option<u64>,
    told: &[u8],
    label: &[u8],
) -> Result<(), Mem>
    ensures { OnOk result (text.new ≡ text.old ++ row_text lifelines.now.entries k
        (record { number = number; stage = nobody; figure = figure; entry = entry; told = told.now; label = label.now })) }
{
    let short = shortened(alloc, 58, label)?;
    let y = down(k)?;
    push_numbered(text, b"<g transform='translate(0,", y)?;
    push_spelled(text, b")'><title>", told)?;
    text.push_bytes(b"</title>")?;
    push_margin(text, number, figure)?;
    push_entry(text, entry)?;
    push_figure(text, lifelines, figure, short.as_bytes())?;
    text.push_bytes(b"</g>\n")
}
