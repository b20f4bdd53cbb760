//! Paragraphs: what stands in the one that is asked, and what is prepared of it for its lines.

ghost use Rattle.std.specs.Prelude.{◌≡◌, ◌+◌, ◌≤◌, true, All, IfSome, sum_by};
ghost use Rattle.fragment_types.specs.Item.{entries_of, entry_of};
ghost use Rattle.para_prepare.specs.Limits.{HasFontSize, bytes_in, text_bytes};

use crate::glyphs::print_glyphs;
use crate::printed::{print_flag, print_if_any};
use crate::styles::{StyleForm, style_at, styles};
use crate::words::{CaseError, Words};
use bumpalo::Bump;
use face_api::Faces;
use fragment_types::{Item, Items};
use hex::FromHexError;
use letters::{Letters, SharedText};
use para_prepare::{Paragraph, Prepared, PreparedContent, PreparedItem, prepare};
use std::alloc::Global;
use std::fmt::Debug;
use std::io;
use std::io::Write;
use std::sync::ledger::Ledger;
use style_types::{SharedStyle, Style};
use wm_units::Steps;

/// The paragraph of these words, which is to be prepared.
pub(crate) fn prepare_case(alloc: Global, words: &mut Words<'_>) -> Result<Paragraph, CaseError> {
    let paragraph = paragraph_case(alloc, words, StyleForm::Text)?;
    words.end()?;
    Ok(paragraph)
}

/// The paragraph of the next words, whose styles tell so much.
pub(crate) fn paragraph_case(
    alloc: Global,
    words: &mut Words<'_>,
    form: StyleForm,
) -> Result<Paragraph, CaseError> {
    let base = words.number_if_any()?;
    let styles = styles(alloc, words, form)?;
    let style = style_at(&styles, 0)?;
    let items = items(alloc, words, &styles)?;
    Ok(Paragraph { base, style, items })
}

fn items(alloc: Global, words: &mut Words<'_>, styles: &[Style]) -> Result<Items, CaseError> {
    let mut items = Vec::new(alloc);
    for _ in 0..words.number::<usize>()? {
        items.push(item(alloc, words, styles)?)?;
    }
    Ok(items)
}

fn item(alloc: Global, words: &mut Words<'_>, styles: &[Style]) -> Result<Item, CaseError> {
    match words.word()? {
        "text" => Ok(Item::Text {
            node: words.number()?,
            style: SharedStyle::new(alloc, style_at(styles, words.number()?)?)?,
            text: SharedText::new(alloc, text(alloc, words)?)?,
        }),
        "open" => Ok(Item::Open {
            node: words.number()?,
            style: SharedStyle::new(alloc, style_at(styles, words.number()?)?)?,
            opens: words.flag()?,
        }),
        "close" => Ok(Item::Close {
            node: words.number()?,
            closes: words.flag()?,
        }),
        "atom" => Ok(Item::Atom {
            name: words.box_name()?,
        }),
        "break" => Ok(Item::Break {
            node: words.number()?,
        }),
        _ => Err(CaseError::Malformed),
    }
}

/// The text whose bytes the next word has; `-` is the empty one.
pub(crate) fn text(alloc: Global, words: &mut Words<'_>) -> Result<Letters, CaseError> {
    let word = words.word()?;
    if word == "-" {
        return Ok(String::new(alloc));
    }
    match hex::decode(alloc, word) {
        Ok(bytes) => match String::from_utf8(bytes) {
            Ok(text) => Ok(text),
            Err(_) => Err(CaseError::Malformed),
        },
        Err(FromHexError::OutOfMemory) => Err(CaseError::Memory),
        Err(_) => Err(CaseError::Malformed),
    }
}

/// Prints what is prepared: the items, and then their levels, classes, base levels and breaks.
pub(crate) fn answer_paragraph<W: Write, L: Ledger>(
    alloc: Global,
    paragraph: &Paragraph,
    faces: &Faces,
    steps: &mut Steps<L>,
    output: &mut W,
) -> io::Result<()> {
    if !can_be_prepared(paragraph) {
        return write!(output, "outside");
    }
    let mut arena = Bump::new(alloc);
    let prepared = prepare(alloc, paragraph, faces, &mut arena, steps)?;
    write!(output, "items")?;
    for item in prepared.items() {
        print_item(output, item)?;
    }
    print_all(output, "levels", prepared.levels())?;
    print_all(output, "classes", prepared.classes())?;
    print_all(output, "bases", prepared.bases())?;
    print_all(output, "breaks", prepared.breaks())
}

/// Whether the base level, the texts and the font sizes are such as `prepare` takes.
pub(crate) fn can_be_prepared(paragraph: &Paragraph) -> bool
    ensures base { result ≡ true → IfSome paragraph.now.base (λ base. base ≤ 1) }
    ensures bytes { result ≡ true → text_bytes (entries_of paragraph.now.items.items) ≤ 1048576 }
    ensures sizes { result ≡ true → All HasFontSize (entries_of paragraph.now.items.items) }
{
    is_base(paragraph.base)
        && have_short_texts(&paragraph.items)
        && have_font_sizes(&paragraph.items)
}

fn is_base(base: Option<u8>) -> bool
    ensures { result ≡ true → IfSome base (λ base. base ≤ 1) }
{
    match base {
        Some(base) => base <= 1,
        None => true,
    }
}

#[tactic(auto, using(crate::proofs::Texts::all_have))]
fn have_font_sizes(items: &[Item]) -> bool
    ensures { result ≡ true → All HasFontSize (entries_of items.now) }
{
    for item in items {
        if !has_font_size(item) {
            return false;
        }
    }
    true
}

fn has_font_size(item: &Item) -> bool
    ensures { result ≡ true → HasFontSize (entry_of item.now) }
{
    match item {
        Item::Text { style, .. } => style.font_size >= 0 && style.font_size <= 65_536,
        Item::Open { .. } | Item::Close { .. } | Item::Atom { .. } | Item::Break { .. } => true,
    }
}

// Whether all texts together have at most 1,048,576 bytes.
#[tactic(auto, using(crate::proofs::Texts::short_texts))]
fn have_short_texts(items: &[Item]) -> bool
    ensures { result ≡ true → text_bytes (entries_of items.now) ≤ 1048576 }
{
    are_short(items)
}

// Whether the bytes of the items' texts, summed up in order, are at most 1,048,576.
#[tactic(auto, using(std::proofs::lemmas::List::Sums::sum_by_more))]
fn are_short(items: &[Item]) -> bool
    ensures { result ≡ true → sum_by (λ item. bytes_in (entry_of item)) items.now ≤ 1048576 }
{
    let mut sum = 0;
    for item in items {
        match with_text(sum, item) {
            Some(more) => sum = more,
            None => return false,
        }
    }
    true
}

fn with_text(sum: usize, item: &Item) -> Option<usize>
    ensures { IfSome result (λ more. (more ≡ sum + bytes_in (entry_of item.now)) × (more ≤ 1048576)) }
{
    let more = sum.checked_add(bytes_in(item))?;
    if more <= 1_048_576 { Some(more) } else { None }
}

fn bytes_in(item: &Item) -> usize
    ensures { result ≡ bytes_in (entry_of item.now) }
{
    match item {
        Item::Text { text, .. } => text.len(),
        Item::Open { .. } | Item::Close { .. } | Item::Atom { .. } | Item::Break { .. } => 0,
    }
}

fn print_item<W: Write>(output: &mut W, item: &PreparedItem) -> io::Result<()> {
    write!(output, " ({}", item.source)?;
    print_if_any(output, item.apart)?;
    print_content(output, &item.what)?;
    write!(output, ")")
}

fn print_content<W: Write>(output: &mut W, what: &PreparedContent) -> io::Result<()> {
    match what {
        PreparedContent::Unit {
            node,
            first,
            end,
            form,
            advance,
            space,
            glyphs,
        } => {
            write!(output, " Unit {node} {first} {end} {form:?} {advance}")?;
            print_flag(output, *space)?;
            print_glyphs(output, glyphs)
        }
        PreparedContent::Combined {
            node,
            first,
            end,
            advance,
            natural,
            glyphs,
        } => {
            write!(output, " Combined {node} {first} {end} {advance} {natural}")?;
            print_glyphs(output, glyphs.glyphs())
        }
        PreparedContent::Atom { name } => write!(output, " Atom {}.{}", name.node, name.ordinal),
        PreparedContent::Break { node } => write!(output, " Break {node}"),
    }
}

fn print_all<W: Write, T: Debug>(output: &mut W, name: &str, values: &[T]) -> io::Result<()> {
    write!(output, " {name}")?;
    for value in values {
        write!(output, " {value:?}")?;
    }
    Ok(())
}
