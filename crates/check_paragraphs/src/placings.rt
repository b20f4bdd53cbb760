//! Lines: what is on the line that is asked, and the fragments that it is placed as (CSS 2, 9.4.2).

use crate::fragments::{fragment, print_fragments};
use crate::glyphs::glyphs;
use crate::limits::can_be_placed;
use crate::names::{ALIGNS, CLASSES, DIRECTIONS, FORMS, MODES};
use crate::words::{CaseError, Words};
use fragment_types::{Fragment, Glyphs, UnitKind};
use line_place::{
    Extents, LineBox, LineBoxes, LineContent, LineInput, LineItem, LineItems, place_line,
};
use std::alloc::{AllocError, Global};
use std::io;
use std::io::Write;
use style_types::Align;
use wm_chars::BidiClass;
use wm_modes::WritingMode;

/// A line whose items have glyphs and fragments of their own.
#[derive(Drop)]
pub(crate) struct LineCase {
    mode: WritingMode,
    base: u8,
    align: Align,
    available: i64,
    strut: Extents,
    items: Vec<CaseItem>,
    boxes: LineBoxes,
}

// The fields of a `LineItem`.
#[derive(Drop)]
struct CaseItem {
    level: u8,
    class: BidiClass,
    extent: i64,
    inside: Option<usize>,
    space: bool,
    apart: Option<u8>,
    what: CaseContent,
}

// What a `LineContent` borrows.
#[derive(Drop)]
enum CaseContent {
    Unit {
        node: u32,
        first: u32,
        end: u32,
        form: UnitKind,
        glyphs: Glyphs,
    },
    Combined {
        node: u32,
        first: u32,
        end: u32,
        natural: i64,
        glyphs: Glyphs,
    },
    Atom {
        left_margin: i64,
        over_margin: i64,
        over: i64,
        under: i64,
        fragment: Fragment,
    },
    Break,
}

/// The line of these words.
pub(crate) fn line_case(alloc: Global, words: &mut Words<'_>) -> Result<LineCase, CaseError> {
    let mode = words.named(&MODES)?;
    let base = words.number()?;
    let align = words.named(&ALIGNS)?;
    let available = words.number()?;
    let strut = extents(words)?;
    let items = case_items(alloc, words)?;
    let boxes = line_boxes(alloc, words)?;
    words.end()?;
    Ok(LineCase {
        mode,
        base,
        align,
        available,
        strut,
        items,
        boxes,
    })
}

fn extents(words: &mut Words<'_>) -> Result<Extents, CaseError> {
    Ok(Extents {
        ascent: words.number()?,
        descent: words.number()?,
        over: words.number()?,
        under: words.number()?,
        raised: words.number()?,
    })
}

fn case_items(alloc: Global, words: &mut Words<'_>) -> Result<Vec<CaseItem>, CaseError> {
    let mut items = Vec::new(alloc);
    for _ in 0..words.number::<usize>()? {
        items.push(case_item(alloc, words)?)?;
    }
    Ok(items)
}

fn case_item(alloc: Global, words: &mut Words<'_>) -> Result<CaseItem, CaseError> {
    Ok(CaseItem {
        level: words.number()?,
        class: words.named(&CLASSES)?,
        extent: words.number()?,
        inside: words.number_if_any()?,
        space: words.flag()?,
        apart: words.number_if_any()?,
        what: case_content(alloc, words)?,
    })
}

fn case_content(alloc: Global, words: &mut Words<'_>) -> Result<CaseContent, CaseError> {
    match words.word()? {
        "unit" => Ok(CaseContent::Unit {
            node: words.number()?,
            first: words.number()?,
            end: words.number()?,
            form: words.named(&FORMS)?,
            glyphs: glyphs(alloc, words)?,
        }),
        "combined" => Ok(CaseContent::Combined {
            node: words.number()?,
            first: words.number()?,
            end: words.number()?,
            natural: words.number()?,
            glyphs: glyphs(alloc, words)?,
        }),
        "atom" => Ok(CaseContent::Atom {
            left_margin: words.number()?,
            over_margin: words.number()?,
            over: words.number()?,
            under: words.number()?,
            fragment: fragment(alloc, words)?,
        }),
        "break" => Ok(CaseContent::Break),
        _ => Err(CaseError::Malformed),
    }
}

fn line_boxes(alloc: Global, words: &mut Words<'_>) -> Result<LineBoxes, CaseError> {
    let mut boxes = Vec::new(alloc);
    for _ in 0..words.number::<usize>()? {
        boxes.push(line_box(words)?)?;
    }
    Ok(boxes)
}

fn line_box(words: &mut Words<'_>) -> Result<LineBox, CaseError> {
    Ok(LineBox {
        node: words.number()?,
        outer: words.number_if_any()?,
        extents: extents(words)?,
        dir: words.named(&DIRECTIONS)?,
        left: words.number()?,
        right: words.number()?,
        over: words.number()?,
        under: words.number()?,
        left_margin: words.number()?,
        right_margin: words.number()?,
        first: words.flag()?,
        last: words.flag()?,
    })
}

/// Prints how far the line reaches over and under its baseline, and its fragments.
pub(crate) fn answer_line<W: Write>(
    alloc: Global,
    case: LineCase,
    output: &mut W,
) -> io::Result<()> {
    let LineCase {
        mode,
        base,
        align,
        available,
        strut,
        items,
        boxes,
    } = case;
    let line = LineInput {
        mode,
        base,
        align,
        available,
        strut,
        items: line_items(alloc, &items)?,
        boxes,
    };
    if !can_be_placed(&line) {
        return write!(output, "outside");
    }
    let placed = place_line(alloc, &line)?;
    write!(output, "{} {}", placed.over, placed.under)?;
    print_fragments(output, &placed.parts)
}

fn line_items(alloc: Global, items: &[CaseItem]) -> Result<LineItems<'_>, AllocError> {
    let mut made = Vec::with_capacity(alloc, items.len())?;
    for item in items {
        made.push(LineItem {
            level: item.level,
            class: item.class,
            extent: item.extent,
            inside: item.inside,
            space: item.space,
            apart: item.apart,
            what: line_content(&item.what),
        })?;
    }
    Ok(made)
}

fn line_content(what: &CaseContent) -> LineContent<'_> {
    match what {
        CaseContent::Unit {
            node,
            first,
            end,
            form,
            glyphs,
        } => LineContent::Unit {
            node: *node,
            first: *first,
            end: *end,
            form: *form,
            glyphs,
        },
        CaseContent::Combined {
            node,
            first,
            end,
            natural,
            glyphs,
        } => LineContent::Combined {
            node: *node,
            first: *first,
            end: *end,
            natural: *natural,
            glyphs,
        },
        CaseContent::Atom {
            left_margin,
            over_margin,
            over,
            under,
            fragment,
        } => LineContent::Atom {
            fragment,
            left_margin: *left_margin,
            over_margin: *over_margin,
            over: *over,
            under: *under,
        },
        CaseContent::Break => LineContent::Break,
    }
}
