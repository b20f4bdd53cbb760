//! The line of each kind of fragment in a listing.

ghost use Rattle.std.specs.Prelude.{◌≡◌, ◌+◌, ◌≤◌, ◌++◌, length, codes, OnOk, IsErrOf};
ghost use Rattle.io_edge.specs.Edge.{Rose, AppendsFront, AppendsUpTo};
ghost use Rattle.listing.specs.Lines as spec;
ghost use Rattle.listing.specs.Runs as run;

use crate::runs::{bounds_of, combined_width, push_standing, put_units};
use crate::text_standing::TextStanding;
use crate::words::{Line, push_count, push_name, push_node, push_number, push_pair, push_rect};
use fragment_types::{BoxName, FragmentKind, RunUnit};
use io_edge::{Sink, Waiting, WriteError};
use place_map::PlacedPart;
use wm_modes::{Direction, Rect, WritingMode};
use wm_units::View;

/// The line of the page.
#[tactic(auto, unfolding(crate::specs::Lines::page_line))]
pub(crate) fn page_line(page: Rect, mode: WritingMode, direction: Direction) -> Line
    ensures { result.bytes ≡ spec.page_line page mode direction }
{
    let mut line = Line::new();
    line.push_str("page");
    push_pair(&mut line, page.w, page.h);
    push_word(&mut line, mode.word());
    push_word(&mut line, direction.word());
    line.push_str("\n");
    line
}

/// The line of the flow.
#[tactic(auto, unfolding(crate::specs::Lines::flow_line))]
pub(crate) fn flow_line(view: View, direction: Direction) -> Line
    ensures { result.bytes ≡ spec.flow_line view direction }
{
    let mut line = Line::new();
    line.push_str("flow");
    push_pair(&mut line, view.inline, view.block);
    push_word(&mut line, direction.word());
    line.push_str("\n");
    line
}

// A word of at most 13 bytes.
fn push_word(line: &mut Line, word: &str)
    requires room { length line.old.bytes ≤ 171 }
    requires short { length word.now ≤ 13 }
    ensures bytes { line.new.bytes ≡ line.old.bytes ++ (codes " " ++ word.now) }
    ensures longer { length line.new.bytes ≤ length line.old.bytes + 14 }
{
    line.push_str(" ");
    line.push_str(word);
}

/// The line of a fragment in text that stands so.
pub(crate) fn put_line<K: Sink>(
    standing: TextStanding,
    part: &PlacedPart,
    waiting: &mut Waiting,
    sink: &mut K,
) -> Result<(), WriteError>
    ensures front { AppendsFront (K.held sink.old) (K.held sink.new) (waiting.old ++ spec.line_at standing part.now) }
    ensures waits { OnOk result (AppendsUpTo (K.held sink.old) (K.held sink.new) (waiting.old ++ spec.line_at standing part.now) waiting.new) }
    ensures later { K.faults sink.old ≤ K.faults sink.new }
    ensures fault { IsErrOf result WriteError.WriteFault → Rose (K.faults sink.old) (K.faults sink.new) }
{
    let name = part.name();
    let rect = part.rect();
    match part.kind() {
        FragmentKind::Box(_) => { waiting.put(box_line(name, &rect).as_bytes(), sink) }
        FragmentKind::Line { index, base, .. } => {
            waiting.put(line_line(name, &rect, *index, *base).as_bytes(), sink)
        }
        FragmentKind::Span => waiting.put(span_line(name, &rect).as_bytes(), sink),
        FragmentKind::Run {
            form,
            level,
            natural,
            units,
        } => {
            let mut start = run_place(name.node, &rect, units);
            push_standing(&mut start, standing, *form, combined_width(*natural, units));
            push_count(&mut start, usize::from(*level));
            put_run(&start, units, waiting, sink)
        }
        FragmentKind::Measure { .. } => Ok(()),
    }
}

// The line of a box.
#[tactic(auto, unfolding(crate::specs::Lines::box_line))]
fn box_line(name: BoxName, rect: &Rect) -> Line
    ensures { result.bytes ≡ spec.box_line name rect.now }
{
    let mut line = Line::new();
    line.push_str("box");
    push_name(&mut line, name);
    push_rect(&mut line, rect);
    line.push_str("\n");
    line
}

// The line of a line.
#[tactic(auto, unfolding(crate::specs::Lines::line_line))]
fn line_line(name: BoxName, rect: &Rect, index: usize, base: i64) -> Line
    ensures { result.bytes ≡ spec.line_line name rect.now index base }
{
    let mut line = Line::new();
    line.push_str("line");
    push_name(&mut line, name);
    push_count(&mut line, index);
    push_rect(&mut line, rect);
    push_number(&mut line, base);
    line.push_str("\n");
    line
}

// The line of a fragment of an inline box.
#[tactic(auto, unfolding(crate::specs::Lines::span_line))]
fn span_line(name: BoxName, rect: &Rect) -> Line
    ensures { result.bytes ≡ spec.span_line name rect.now }
{
    let mut line = Line::new();
    line.push_str("span");
    push_name(&mut line, name);
    push_rect(&mut line, rect);
    line.push_str("\n");
    line
}

// How the line of a run begins: its text node, its bounds there and its rectangle.
#[tactic(auto, unfolding(crate::specs::Lines::run_place))]
fn run_place(node: u32, rect: &Rect, units: &[RunUnit]) -> Line
    ensures bytes { result.bytes ≡ spec.run_place node rect.now units.now }
    ensures short { length result.bytes ≤ 140 }
{
    let mut line = Line::new();
    line.push_str("run");
    push_node(&mut line, node);
    let bounds = bounds_of(units);
    push_count(&mut line, bounds.first as usize);
    push_count(&mut line, bounds.end as usize);
    push_rect(&mut line, rect);
    line
}

// The line of a run, from its start.
fn put_run<K: Sink>(
    start: &Line,
    units: &[RunUnit],
    waiting: &mut Waiting,
    sink: &mut K,
) -> Result<(), WriteError>
    ensures front { AppendsFront (K.held sink.old) (K.held sink.new) (waiting.old ++ (start.now.bytes ++ run.units run.space units.now ++ codes "\n")) }
    ensures waits { OnOk result (AppendsUpTo (K.held sink.old) (K.held sink.new) (waiting.old ++ (start.now.bytes ++ run.units run.space units.now ++ codes "\n")) waiting.new) }
    ensures later { K.faults sink.old ≤ K.faults sink.new }
    ensures fault { IsErrOf result WriteError.WriteFault → Rose (K.faults sink.old) (K.faults sink.new) }
{
    waiting.put(start.as_bytes(), sink)?;
    put_units(b' ', units, waiting, sink)?;
    waiting.put(b"\n", sink)
}
