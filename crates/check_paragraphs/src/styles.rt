//! The styles of a paragraph that is asked.

use crate::names::{ALIGNS, BIDIS, COMBINES, DIRECTIONS, MODES, ORIENTATIONS};
use crate::words::{CaseError, Words};
use std::alloc::Global;
use style_types::{LineHeight, SideSizes, SideWidths, Size, Style};

/// The styles of a case, which the paragraph and its items name by their places.
pub(crate) type CaseStyles = Vec<Style>;

/// How much of a style the words tell; the rest is initial.
#[derive(Clone, Copy, PartialEq, Eq)]
pub(crate) enum StyleForm {
    /// What text is prepared by.
    Text,
    /// Besides, what lines are placed by.
    Lines,
}

/// The styles of these words, which tell first how many they are.
pub(crate) fn styles(
    alloc: Global,
    words: &mut Words<'_>,
    form: StyleForm,
) -> Result<CaseStyles, CaseError> {
    let mut styles = Vec::new(alloc);
    for _ in 0..words.number::<usize>()? {
        let style = text_style(words)?;
        styles.push(match form {
            StyleForm::Text => style,
            StyleForm::Lines => line_style(words, &style)?,
        })?;
    }
    Ok(styles)
}

/// The style at a place.
pub(crate) fn style_at(styles: &[Style], place: usize) -> Result<Style, CaseError> {
    match styles.get(place) {
        Some(style) => Ok(*style),
        None => Err(CaseError::Malformed),
    }
}

/// The style of the next words, as far as text depends on it.
pub(crate) fn text_style(words: &mut Words<'_>) -> Result<Style, CaseError> {
    Ok(Style {
        mode: words.named(&MODES)?,
        direction: words.named(&DIRECTIONS)?,
        orientation: words.named(&ORIENTATIONS)?,
        combine: words.named(&COMBINES)?,
        bidi: words.named(&BIDIS)?,
        font_size: words.number()?,
        face: words.number()?,
        ..Style::initial()
    })
}

fn line_style(words: &mut Words<'_>, text: &Style) -> Result<Style, CaseError> {
    Ok(Style {
        align: words.named(&ALIGNS)?,
        shift: words.number()?,
        line_height: line_height(words)?,
        margin: sizes(words)?,
        padding: sizes(words)?,
        border: widths(words)?,
        ..*text
    })
}

fn line_height(words: &mut Words<'_>) -> Result<LineHeight, CaseError> {
    match words.word()? {
        "Normal" => Ok(LineHeight::Normal),
        "Number" => Ok(LineHeight::Number(words.number()?)),
        "Length" => Ok(LineHeight::Length(words.number()?)),
        _ => Err(CaseError::Malformed),
    }
}

fn sizes(words: &mut Words<'_>) -> Result<SideSizes, CaseError> {
    Ok(SideSizes {
        top: size(words)?,
        right: size(words)?,
        bottom: size(words)?,
        left: size(words)?,
    })
}

fn size(words: &mut Words<'_>) -> Result<Size, CaseError> {
    match words.word()? {
        "Auto" => Ok(Size::Auto),
        "Length" => Ok(Size::Length(words.number()?)),
        "Percent" => Ok(Size::Percent(words.number()?)),
        _ => Err(CaseError::Malformed),
    }
}

fn widths(words: &mut Words<'_>) -> Result<SideWidths, CaseError> {
    Ok(SideWidths {
        top: words.number()?,
        right: words.number()?,
        bottom: words.number()?,
        left: words.number()?,
    })
}
