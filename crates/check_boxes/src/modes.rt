//! Sides and rectangles in every mode (CSS Writing Modes 4, 6.4), and which property of the page stands for one of a flow
//! (CSS Logical Properties 1, 4).

ghost use Rattle.std.specs.Prelude.{IfOk};
ghost use Rattle.wm_modes.specs.Near.{IsNear, IsNearFlow};

use crate::words::{CaseError, Words};
use css_types::{PROPERTIES, Property, PropertyRow, page_property};
use std::alloc::Global;
use style_types::{Style, TextOrientation};
use wm_modes::{
    Direction, FlowRect, FlowSide, Rect, Side, WritingMode, side_of, to_flow, to_physical,
};

const MODES: [(&'static str, WritingMode); 5] = [
    ("horizontal-tb", WritingMode::HorizontalTb),
    ("vertical-rl", WritingMode::VerticalRl),
    ("vertical-lr", WritingMode::VerticalLr),
    ("sideways-rl", WritingMode::SidewaysRl),
    ("sideways-lr", WritingMode::SidewaysLr),
];

const DIRECTIONS: [(&'static str, Direction); 2] = [
    ("ltr", Direction::Ltr),
    ("rtl", Direction::Rtl),
];

const SIDES: [FlowSide; 8] = [
    FlowSide::BlockStart,
    FlowSide::BlockEnd,
    FlowSide::InlineStart,
    FlowSide::InlineEnd,
    FlowSide::LineOver,
    FlowSide::LineUnder,
    FlowSide::LineLeft,
    FlowSide::LineRight,
];

/// The sides of the page by those of the flow.
pub(crate) fn sides(alloc: Global, words: &mut Words<'_>) -> Result<String, CaseError> {
    let mode = words.named(&MODES)?;
    let dir = words.named(&DIRECTIONS)?;
    words.end()?;
    let mut answer = String::new(alloc);
    let mut between = "";
    for side in SIDES {
        answer.push_str(between)?;
        answer.push_str(side_name(side_of(mode, dir, side)))?;
        between = " ";
    }
    Ok(answer)
}

fn side_name(side: Side) -> &'static str {
    match side {
        Side::Top => "top",
        Side::Right => "right",
        Side::Bottom => "bottom",
        Side::Left => "left",
    }
}

/// The rectangle of the page by that of the flow.
pub(crate) fn page_rectangle(alloc: Global, words: &mut Words<'_>) -> Result<String, CaseError> {
    let mode = words.named(&MODES)?;
    let dir = words.named(&DIRECTIONS)?;
    let area = rect(words)?;
    let flow = flow_rect(words)?;
    words.end()?;
    let page = to_physical(mode, dir, area, flow);
    Ok(format!(in alloc; "{} {} {} {}", page.x, page.y, page.w, page.h)?)
}

/// The rectangle of the flow by that of the page.
pub(crate) fn flow_rectangle(alloc: Global, words: &mut Words<'_>) -> Result<String, CaseError> {
    let mode = words.named(&MODES)?;
    let dir = words.named(&DIRECTIONS)?;
    let area = rect(words)?;
    let page = rect(words)?;
    words.end()?;
    let flow = to_flow(mode, dir, area, page);
    Ok(format!(in alloc; "{} {} {} {}", flow.i, flow.b, flow.inline, flow.block)?)
}

fn rect(words: &mut Words<'_>) -> Result<Rect, CaseError>
    ensures { IfOk result IsNear }
{
    let x = words.length()?;
    let y = words.length()?;
    let w = words.length()?;
    let h = words.length()?;
    Ok(Rect { x, y, w, h })
}

fn flow_rect(words: &mut Words<'_>) -> Result<FlowRect, CaseError>
    ensures { IfOk result IsNearFlow }
{
    let i = words.length()?;
    let b = words.length()?;
    let inline = words.length()?;
    let block = words.length()?;
    Ok(FlowRect {
        i,
        b,
        inline,
        block,
    })
}

/// The used direction of upright text.
pub(crate) fn upright_direction(alloc: Global, words: &mut Words<'_>) -> Result<String, CaseError> {
    let style = Style {
        mode: words.named(&MODES)?,
        direction: words.named(&DIRECTIONS)?,
        orientation: TextOrientation::Upright,
        ..Style::initial()
    };
    words.end()?;
    Ok(style.used_direction().word().to_string(alloc)?)
}

/// The property of the page.
pub(crate) fn page_property_named(
    alloc: Global,
    words: &mut Words<'_>,
) -> Result<String, CaseError> {
    let property = property_named(&PROPERTIES, words.word()?)?;
    let mode = words.named(&MODES)?;
    let dir = words.named(&DIRECTIONS)?;
    words.end()?;
    let page = page_property(property, mode, dir);
    Ok(name_at(&PROPERTIES, page.place())?.to_string(alloc)?)
}

fn property_named(rows: &[(&str, PropertyRow)], word: &str) -> Result<Property, CaseError> {
    for (name, row) in rows {
        if *name == word {
            return Ok(row.property);
        }
    }
    Err(CaseError::Malformed)
}

fn name_at<'a>(rows: &[(&'a str, PropertyRow)], place: usize) -> Result<&'a str, CaseError> {
    match rows.get(place) {
        Some((name, _)) => Ok(*name),
        None => Err(CaseError::Malformed),
    }
}
