//! Where the lines of a paragraph may end (CSS Text 3, 5.1): by the classes of two neighbouring items.

ghost use Rattle.std.specs.Prelude.{◌≡◌, ◌++◌, [], ◌∷◌, List, map, IfOk, OnOk};
ghost use Rattle.para_prepare.specs.Breaks as breaks;
ghost use Rattle.para_prepare.specs.Breaks.{break_class_of};
ghost use Rattle.para_prepare.specs.Parts.{raws};
ghost use Rattle.para_prepare.specs.Views.{part_of, parts_of};
ghost use Rattle.para_prepare.specs.declared.letter.Letter.{Letter};

use crate::parts::Part;
use bumpalo::Bump;
use fragment_types::Breaking;
use std::alloc::{AllocError, Global};
use wm_chars::BreakClass;

/// For each item of a paragraph whether a line may end behind it.
pub type BreakList = Vec<Breaking>;

// The break classes of items; a line break has none.
pub(crate) type BreakClasses<'a> = Vec<Option<BreakClass>, &'a Bump>;

/// The breaks of the items of these parts.
pub(crate) fn breaks(alloc: Global, arena: &Bump, parts: &[Part]) -> Result<BreakList, AllocError>
    ensures { (letters : List Letter) → IfOk result (λ out. out.items ≡ breaks.breaks_of (map break_class_of (raws (parts_of letters parts.now)))) }
{
    let classes = break_classes(arena, parts)?;
    let out = breaks_of(alloc, &classes)?;
    Ok(out)
}

// The break classes of the items of these parts.
fn break_classes<'a>(arena: &'a Bump, parts: &[Part]) -> Result<BreakClasses<'a>, AllocError>
    ensures { (letters : List Letter) → IfOk result (λ classes. classes.items ≡ map break_class_of (raws (parts_of letters parts.now))) }
{
    let mut classes = Vec::with_capacity(arena, parts.len())?;
    for part in parts {
        add_class(&mut classes, part)?;
    }
    Ok(classes)
}

// Adds the class of an item.
fn add_class(classes: &mut BreakClasses<'_>, part: &Part) -> Result<(), AllocError>
    ensures { (letters : List Letter) → OnOk result (classes.new.items ≡ classes.old.items ++ map break_class_of (raws (part_of letters part.now ∷ []))) }
{
    match part {
        Part::Opens(_) | Part::Closes | Part::Control { .. } => {}
        Part::Unit { unit, .. } | Part::Combined { unit, .. } => {
            classes.push(Some(unit.break_class))?;
        }
        Part::Atom { .. } => classes.push(Some(BreakClass::Ideographic))?,
        Part::Break { .. } => classes.push(None)?,
    }
    Ok(())
}

// The breaks of items with these classes.
pub(crate) fn breaks_of(
    alloc: Global,
    classes: &[Option<BreakClass>],
) -> Result<BreakList, AllocError>
    ensures { IfOk result (λ out. out.items ≡ breaks.breaks_of classes.now) }
{
    let mut out = Vec::with_capacity(alloc, classes.len())?;
    let Some((first, rest)) = classes.split_first() else {
        return Ok(out);
    };
    let mut before = *first;
    for after in rest {
        out.push_reserved(break_between(before, *after));
        before = *after;
    }
    out.push_reserved(break_at_end(before));
    Ok(out)
}

// The break between two neighbours.
fn break_between(before: Option<BreakClass>, after: Option<BreakClass>) -> Breaking
    ensures { result ≡ breaks.break_between before after }
{
    match (before, after) {
        (None, _) => Breaking::Must,
        (Some(_), None) => Breaking::No,
        (Some(before), Some(after)) => {
            if may_break(before, after) {
                Breaking::May
            } else {
                Breaking::No
            }
        }
    }
}

// The break behind the last item.
fn break_at_end(class: Option<BreakClass>) -> Breaking
    ensures { result ≡ breaks.break_at_end class }
{
    match class {
        None => Breaking::Must,
        Some(_) => Breaking::No,
    }
}

// Whether a line may end between two characters of these classes: behind a space and beside an ideographic character, but
// not where one of the two keeps them together.
fn may_break(before: BreakClass, after: BreakClass) -> bool
    ensures { result ≡ breaks.may_break before after }
{
    (gives_behind(before) || gives_before(after)) && lets_behind(before) && lets_before(after)
}

fn gives_before(class: BreakClass) -> bool
    ensures { result ≡ breaks.gives_before class }
{
    class == BreakClass::Ideographic
}

fn gives_behind(class: BreakClass) -> bool
    ensures { result ≡ breaks.gives_behind class }
{
    class == BreakClass::Space || gives_before(class)
}

fn lets_behind(class: BreakClass) -> bool
    ensures { result ≡ breaks.lets_behind class }
{
    !matches!(class, BreakClass::Open | BreakClass::Glue)
}

fn lets_before(class: BreakClass) -> bool
    ensures { result ≡ breaks.lets_before class }
{
    !matches!(
        class,
        BreakClass::Space | BreakClass::Close | BreakClass::Glue
    )
}
