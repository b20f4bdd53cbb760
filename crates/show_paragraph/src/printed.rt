//! What is printed of a paragraph.

use fragment_types::{Fragment, FragmentKind, RunUnit};
use std::io;
use std::io::Write;

/// Prints fragments, a line each, those inside one another further in. Places are in units of 1/64 px: along the line from the
/// top, and across the lines from the first.
pub(crate) fn print_fragments<W: Write>(
    output: &mut W,
    fragments: &[Fragment],
    depth: usize,
) -> io::Result<()> {
    for fragment in fragments {
        print_fragment(output, fragment, depth)?;
        print_fragments(output, &fragment.children, depth.saturating_add(1))?;
    }
    Ok(())
}

fn print_fragment<W: Write>(output: &mut W, fragment: &Fragment, depth: usize) -> io::Result<()> {
    for _ in 0..depth {
        write!(output, "  ")?;
    }
    let rect = fragment.rect;
    match &fragment.kind {
        FragmentKind::Line { index, .. } => {
            writeln!(output, "line {index}: {} wide, from {}", rect.block, rect.b)
        }
        FragmentKind::Run {
            form,
            level,
            units,
            ..
        } => {
            write!(
                output,
                "run of node {}: {form:?}, level {level}, {} long, from {}: ",
                fragment.name.node, rect.inline, rect.i
            )?;
            print_glyphs(output, units)?;
            writeln!(output)
        }
        FragmentKind::Span | FragmentKind::Box { .. } | FragmentKind::Measure { .. } => writeln!(
            output,
            "box of node {}: {} long, from {}",
            fragment.name.node, rect.inline, rect.i
        ),
    }
}

// What is seen of the units, from line-left.
fn print_glyphs<W: Write>(output: &mut W, units: &[RunUnit]) -> io::Result<()> {
    for unit in units {
        for place in 0..unit.glyph_count() {
            for c in unit.glyph(place) {
                write!(output, "{c}")?;
            }
        }
    }
    Ok(())
}
