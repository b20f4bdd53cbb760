//! Fragments: those inside an atom that is asked, and those of a line that is answered.

use crate::glyphs::{glyphs, print_unit_glyphs};
use crate::names::{BASELINES, DIRECTIONS, FORMS, MODES};
use crate::printed::{print_flag, print_if_any};
use crate::words::{CaseError, Words};
use fragment_types::{BoxPart, Fragment, FragmentKind, Fragments, RunUnit, RunUnits};
use margin_collapse::Margins;
use std::alloc::Global;
use std::io;
use std::io::Write;
use std::rc::Rc;
use wm_modes::FlowRect;

#[derive(Clone, Copy)]
enum KindWord {
    Box,
    Line,
    Span,
    Run,
    Measure,
}

const KINDS: [(&'static str, KindWord); 5] = [
    ("Box", KindWord::Box),
    ("Line", KindWord::Line),
    ("Span", KindWord::Span),
    ("Run", KindWord::Run),
    ("Measure", KindWord::Measure),
];

/// The fragment of the next words. They tell how many fragments there are, and then each behind those inside it, of which it tells
/// how many they are.
pub(crate) fn fragment(alloc: Global, words: &mut Words<'_>) -> Result<Fragment, CaseError> {
    let mut roots: Fragments = Vec::new(alloc);
    for _ in 0..words.number::<usize>()? {
        let own = one_fragment(alloc, words, &mut roots)?;
        roots.push(own)?;
    }
    match (roots.pop(), roots.is_empty()) {
        (Some(root), true) => Ok(root),
        _ => Err(CaseError::Malformed),
    }
}

// A fragment that takes the last of the others as its children.
fn one_fragment(
    alloc: Global,
    words: &mut Words<'_>,
    others: &mut Fragments,
) -> Result<Fragment, CaseError> {
    let name = words.box_name()?;
    let rect = rect(words)?;
    let kind = kind(alloc, words)?;
    let count = words.number()?;
    match others.len().checked_sub(count) {
        Some(from) => {
            let children = others.split_off(from)?;
            Ok(Fragment {
                name,
                rect,
                kind,
                children: Rc::new(alloc, children)?,
            })
        }
        None => Err(CaseError::Malformed),
    }
}

fn rect(words: &mut Words<'_>) -> Result<FlowRect, CaseError> {
    Ok(FlowRect {
        i: words.number()?,
        b: words.number()?,
        inline: words.number()?,
        block: words.number()?,
    })
}

fn margins(words: &mut Words<'_>) -> Result<Margins, CaseError> {
    Ok(Margins {
        positive: words.number()?,
        negative: words.number()?,
    })
}

fn kind(alloc: Global, words: &mut Words<'_>) -> Result<FragmentKind, CaseError> {
    match words.named(&KINDS)? {
        KindWord::Box => box_kind(alloc, words),
        KindWord::Line => Ok(FragmentKind::Line {
            index: words.number()?,
            base: words.number()?,
            mode: words.named(&MODES)?,
            baseline: words.named(&BASELINES)?,
        }),
        KindWord::Span => Ok(FragmentKind::Span),
        KindWord::Run => run_kind(alloc, words),
        KindWord::Measure => Ok(FragmentKind::Measure {
            min: words.number()?,
            max: words.number()?,
        }),
    }
}

fn box_kind(alloc: Global, words: &mut Words<'_>) -> Result<FragmentKind, CaseError> {
    let part = BoxPart {
        mode: words.named(&MODES)?,
        dir: words.named(&DIRECTIONS)?,
        content: rect(words)?,
        definite: words.number_if_any()?,
        start: margins(words)?,
        end: margins(words)?,
        through: words.flag()?,
    };
    Ok(FragmentKind::Box(Rc::new(alloc, part)?))
}

fn run_kind(alloc: Global, words: &mut Words<'_>) -> Result<FragmentKind, CaseError> {
    let form = words.named(&FORMS)?;
    let level = words.number()?;
    let natural = words.number_if_any()?;
    let units = run_units(alloc, words)?;
    Ok(FragmentKind::Run {
        form,
        level,
        natural,
        units: Rc::new(alloc, units)?,
    })
}

fn run_units(alloc: Global, words: &mut Words<'_>) -> Result<RunUnits, CaseError> {
    let mut units = Vec::new(alloc);
    for _ in 0..words.number::<usize>()? {
        let first = words.number()?;
        let end = words.number()?;
        let extent = words.number()?;
        let glyphs = glyphs(alloc, words)?;
        units.push(RunUnit::new(alloc, first, end, extent, &glyphs)?)?;
    }
    Ok(units)
}

/// Prints fragments, each before those inside it, in brackets.
pub(crate) fn print_fragments<W: Write>(output: &mut W, fragments: &[Fragment]) -> io::Result<()> {
    for fragment in fragments {
        write!(output, " ({}.{}", fragment.name.node, fragment.name.ordinal)?;
        print_rect(output, fragment.rect)?;
        print_kind(output, &fragment.kind)?;
        print_fragments(output, &fragment.children)?;
        write!(output, ")")?;
    }
    Ok(())
}

fn print_kind<W: Write>(output: &mut W, kind: &FragmentKind) -> io::Result<()> {
    match kind {
        FragmentKind::Box(part) => print_box(output, part),
        FragmentKind::Line {
            index,
            base,
            mode,
            baseline,
        } => write!(output, " Line {index} {base} {mode:?} {baseline:?}"),
        FragmentKind::Span => write!(output, " Span"),
        FragmentKind::Run {
            form,
            level,
            natural,
            units,
        } => {
            write!(output, " Run {form:?} {level}")?;
            print_if_any(output, *natural)?;
            print_units(output, units)
        }
        FragmentKind::Measure { min, max } => write!(output, " Measure {min} {max}"),
    }
}

fn print_box<W: Write>(output: &mut W, part: &BoxPart) -> io::Result<()> {
    write!(output, " Box {:?} {:?}", part.mode, part.dir)?;
    print_rect(output, part.content)?;
    print_if_any(output, part.definite)?;
    print_margins(output, part.start)?;
    print_margins(output, part.end)?;
    print_flag(output, part.through)
}

fn print_units<W: Write>(output: &mut W, units: &[RunUnit]) -> io::Result<()> {
    for unit in units {
        write!(output, " {} {} {}", unit.first(), unit.end(), unit.extent())?;
        print_unit_glyphs(output, unit)?;
    }
    Ok(())
}

fn print_rect<W: Write>(output: &mut W, rect: FlowRect) -> io::Result<()> {
    write!(
        output,
        " {} {} {} {}",
        rect.i, rect.b, rect.inline, rect.block
    )
}

fn print_margins<W: Write>(output: &mut W, margins: Margins) -> io::Result<()> {
    write!(output, " {} {}", margins.positive, margins.negative)
}
