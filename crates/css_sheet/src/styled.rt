//! All the styles of a document: its sheets, then the style attributes of its nodes.

ghost use Rattle.std.specs.Prelude.{◌≡◌, length, map, IfErr, IfOk, Ok};
ghost use Rattle.std.specs.List.{All};
ghost use Rattle.html_read.specs.Values.{kind_of, nodes_of, sheets_of, text_at, whole_of};
ghost use Rattle.css_types.specs.Rule.{styled_of};
ghost use Rattle.css_values.specs.Answered.{IsKept};
ghost use Rattle.css_sheet.specs.Answered.{AreTheStyles, IsRuled, RefusesStyles};
ghost use Rattle.css_sheet.specs.Sheet as readers;
ghost use Rattle.css_sheet.specs.Styled as styles;
ghost use Rattle.css_sheet.specs.Styled.{Placing};
ghost use Rattle.css_sheet.specs.Views.{sheet_of};

use crate::sheet::{Sheet, empty, read_into};
use css_types::{Declaration, Declarations, Styled, Styles};
use css_values::{CssError, Stop, Within, declarations_within, told};
use html_read::{PlacedText, ReadDocument, ReadKind, ReadNode};
use std::alloc::Global;

/// Reads all sheets of a document in order, then the style attributes of its nodes. The limits on rules and
/// declarations count over all sheets together. In a style attribute the place of a refusal, and of each declaration,
/// is that of the attribute's name.
pub fn read_styled(alloc: Global, read: &ReadDocument) -> Result<Styled, CssError>
    // The answer is that of the reading: the rules and each node's own declarations, or the refusal with its place.
    ensures read { Placing styled_of result (styles.styling (whole_of read.now)) }
    // The sheets' texts are these rules and no others by the grammar, and the style attributes these declarations; where
    // it is refused one of them is none.
    ensures found { IfOk result (λ s. AreTheStyles (whole_of read.now) (styled_of s)) }
    ensures refused { IfErr result (λ error. RefusesStyles (whole_of read.now) error) }
    // Each node has one list of declarations.
    ensures each { IfOk result (λ s. length s.styles.items ≡ length read.now.nodes.items) }
    // Each selector has a part, and each declaration is a value that its property takes.
    ensures ruled { IfOk result (λ s. All IsRuled (styled_of s).rules) }
    ensures kept { IfOk result (λ s. All (λ own. All IsKept own) (styled_of s).own) }
{
    answer_styled(alloc, read)
}

// The reading of all of them, with its places.
#[tactic(auto, unfolding(crate::specs::Styled::styling))]
fn answer_styled(alloc: Global, read: &ReadDocument) -> Result<Styled, CssError>
    ensures { Placing styled_of result (styles.styling (whole_of read.now)) }
{
    let sheet = all_sheets(alloc, &read.sheets)?;
    let own = all_attributes(alloc, &read.nodes)?;
    Ok(Styled {
        rules: sheet.rules,
        styles: own,
    })
}

#[tactic(auto, using(crate::proofs::Styling::sheets_go_on, crate::proofs::Styling::sheets_end))]
fn all_sheets(alloc: Global, texts: &[PlacedText]) -> Result<Sheet, CssError>
    ensures { Placing sheet_of result (styles.sheets (sheets_of texts.now) readers.empty) }
{
    let mut sheet = empty(alloc);
    for text in texts {
        add_sheet(alloc, text, &mut sheet)?;
    }
    Ok(sheet)
}

fn add_sheet(alloc: Global, text: &PlacedText, sheet: &mut Sheet) -> Result<(), CssError>
    ensures { Placing (λ u. sheet_of sheet.new) result (styles.sheet_at (text_at text.now) (sheet_of sheet.old)) }
{
    let end = text.place.saturating_add(text.text.len());
    match read_into(alloc, end, sheet, text.text.as_str()) {
        Ok(_) => Ok(()),
        Err(stop) => Err(told(end, stop)),
    }
}

#[tactic(auto, using(crate::proofs::Styling::attributes_go_on, crate::proofs::Styling::attributes_end))]
fn all_attributes(alloc: Global, nodes: &[ReadNode]) -> Result<Styles, CssError>
    ensures { Placing (λ all. map (λ own. own.items) all.items) result (styles.attributes (nodes_of nodes.now)) }
{
    let mut all = Styles::new(alloc);
    for node in nodes {
        all.push(own(alloc, node)?)?;
    }
    Ok(all)
}

// The own declarations of a node.
fn own(alloc: Global, node: &ReadNode) -> Result<Declarations, CssError>
    ensures { Placing (λ own. own.items) result (styles.own_of_kind (kind_of node.now.kind)) }
{
    match &node.kind {
        ReadKind::Element { attributes, .. } => match &attributes.style {
            Some(text) => attribute(alloc, text),
            None => Ok(Declarations::new(alloc)),
        },
        ReadKind::Text { .. } => Ok(Declarations::new(alloc)),
    }
}

fn attribute(alloc: Global, text: &PlacedText) -> Result<Declarations, CssError>
    ensures { Placing (λ own. own.items) result (styles.attribute_at (text_at text.now)) }
{
    let place = text.place;
    let end = place.saturating_add(text.text.len());
    match declarations_within(alloc, Within::Attribute, end, text.text.as_str()) {
        Ok((own, _)) => moved_to(alloc, place, &own),
        Err(Stop::Refused(kind, _)) => Err(CssError::Refused { kind, place }),
        Err(Stop::Memory) => Err(CssError::Memory),
    }
}

// The declarations, each at this place.
#[tactic(auto, using(crate::proofs::Styling::moving_goes_on, crate::proofs::Styling::moving_ends))]
fn moved_to(alloc: Global, place: usize, own: &[Declaration]) -> Result<Declarations, CssError>
    ensures { Placing (λ moved. moved.items) result (Ok (styles.moved_to place own.now)) }
{
    let mut moved = Declarations::new(alloc);
    for declaration in own {
        moved.push(Declaration {
            place,
            ..*declaration
        })?;
    }
    Ok(moved)
}
