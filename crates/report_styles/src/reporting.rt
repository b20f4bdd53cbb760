//! The sheets and the style attributes of a document, one after the other, and its limits.

ghost use Rattle.std.specs.Prelude.{◌≡◌, ◌<◌, ◌≤◌, [], List, length, IfOk, OnOk};
ghost use Rattle.std.specs.List.{list_any};
ghost use Rattle.css_sheet.specs.Styled.{styling};
ghost use Rattle.html_read.specs.Values.{kind_of, nodes_of, sheets_of, text_at, whole_of};
ghost use Rattle.report_styles.specs.Told as readers;
ghost use Rattle.report_styles.specs.Told.{Telling};
ghost use Rattle.report_styles.specs.Views.{all_of, Goes, told_of};

use crate::rules::{declarations, rules};
use crate::telling::{Halt, Places, Told};
use css_sheet::read_styled;
use css_values::{CssError, Refusal, Within};
use html_read::{PlacedText, ReadDocument, ReadKind, ReadNode};
use std::alloc::{AllocError, Global};

/// What is told of the sheets of a document, then of its style attributes, and then of its limits.
#[tactic(auto, unfolding(crate::specs::Told::told_of_document))]
pub(crate) fn told_of(alloc: Global, document: &ReadDocument) -> Result<Vec<Told<'_>>, AllocError>
    ensures told { IfOk result (λ told. all_of told.items ≡ readers.told_of_document (whole_of document.now)) }
{
    let mut told = Vec::new(alloc);
    tell_sheets(alloc, &document.sheets, &mut told)?;
    tell_nodes(alloc, &document.nodes, &mut told)?;
    tell_limits(alloc, document, &mut told)?;
    Ok(told)
}

// That reading refuses the document for how many rules or declarations its sheets have is told once.
fn tell_limits(
    alloc: Global,
    document: &ReadDocument,
    told: &mut Vec<Told<'_>>,
) -> Result<(), AllocError>
    ensures { OnOk result (all_of told.new.items ≡ readers.with_limits (styling (whole_of document.now)) (all_of told.old.items)) }
{
    if is_limit_told(told) {
        return Ok(());
    }
    match read_styled(alloc, document) {
        Ok(_) => Ok(()),
        Err(CssError::Refused { kind, place }) => tell_limit(kind, place, told),
        Err(CssError::Memory) => Err(AllocError),
    }
}

fn is_limit_told(told: &[Told<'_>]) -> bool
    ensures { result ≡ list_any readers.is_limit (all_of told.now) }
{
    told.iter().any(|one| is_limit(one))
}

fn is_limit(told: &Told<'_>) -> bool
    ensures { result ≡ readers.is_limit (told_of told.now) }
{
    match told {
        Told::Judged(_) => false,
        Told::Refused { kind, .. } => matches!(kind, Refusal::TooManyRules),
    }
}

fn tell_limit(kind: Refusal, place: usize, told: &mut Vec<Told<'_>>) -> Result<(), AllocError>
    ensures { OnOk result (all_of told.new.items ≡ readers.with_limit (all_of told.old.items) kind place) }
{
    match kind {
        Refusal::TooManyRules => {
            told.push(Told::Refused { kind, place })?;
            Ok(())
        }
        Refusal::CssSyntax | Refusal::Unsupported => Ok(()),
    }
}

#[tactic(auto, using(crate::proofs::Walking::sheets_go_on, crate::proofs::Walking::sheets_end))]
fn tell_sheets<'a>(
    alloc: Global,
    sheets: &'a [PlacedText],
    told: &mut Vec<Told<'a>>,
) -> Result<(), AllocError>
    ensures told { OnOk result (all_of told.new.items ≡ readers.with_sheets (all_of told.old.items) (sheets_of sheets.now)) }
{
    for sheet in sheets {
        tell_sheet(alloc, sheet, told)?;
    }
    Ok(())
}

fn tell_sheet<'a>(
    alloc: Global,
    sheet: &'a PlacedText,
    told: &mut Vec<Told<'a>>,
) -> Result<(), AllocError>
    ensures told { OnOk result (all_of told.new.items ≡ readers.with_sheet (all_of told.old.items) (text_at sheet.now)) }
{
    let text = sheet.text.as_str();
    let places = Places {
        end: sheet.place.saturating_add(text.len()),
        at: None,
    };
    to_end(rules(alloc, places, text, told))
}

// Telling may end within the text; what was told stands.
fn to_end(read: Result<&str, Halt>) -> Result<(), AllocError>
    ensures { (told : List readers.Told) (telling : Telling) → Goes read.entry told telling → OnOk result (told ≡ readers.all_told telling) }
{
    match read {
        Ok(_) | Err(Halt::End) => Ok(()),
        Err(Halt::Memory) => Err(AllocError),
    }
}

#[tactic(auto, using(crate::proofs::Walking::nodes_go_on, crate::proofs::Walking::nodes_end))]
fn tell_nodes<'a>(
    alloc: Global,
    nodes: &'a [ReadNode],
    told: &mut Vec<Told<'a>>,
) -> Result<(), AllocError>
    ensures told { OnOk result (all_of told.new.items ≡ readers.with_nodes (all_of told.old.items) (nodes_of nodes.now)) }
{
    for node in nodes {
        tell_node(alloc, &node.kind, told)?;
    }
    Ok(())
}

fn tell_node<'a>(
    alloc: Global,
    kind: &'a ReadKind,
    told: &mut Vec<Told<'a>>,
) -> Result<(), AllocError>
    ensures told { OnOk result (all_of told.new.items ≡ readers.with_kind (all_of told.old.items) (kind_of kind.now)) }
{
    match kind {
        ReadKind::Element { attributes, .. } => match &attributes.style {
            Some(style) => tell_attribute(alloc, style, told),
            None => Ok(()),
        },
        ReadKind::Text { .. } => Ok(()),
    }
}

fn tell_attribute<'a>(
    alloc: Global,
    style: &'a PlacedText,
    told: &mut Vec<Told<'a>>,
) -> Result<(), AllocError>
    ensures told { OnOk result (all_of told.new.items ≡ readers.with_attribute (all_of told.old.items) (text_at style.now)) }
{
    let text = style.text.as_str();
    let places = Places {
        end: text.len(),
        at: Some(style.place),
    };
    to_end(declarations(alloc, Within::Attribute, places, text, told))
}
