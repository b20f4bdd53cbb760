//! Lines of whole paragraphs: the paragraph that is asked with its inline-blocks, its two sizes, and its lines in so much room.

ghost use Rattle.std.specs.Prelude.{◌≡◌, ◌+◌, ◌≤◌, ◌≤ℤ◌, ◌^◌, true, pos, unsigned_abs, All, IfSome, length, map, sum_by};
ghost use Rattle.fragment_types.specs.Item.{entries_of, entry_of};
ghost use Rattle.style_types.specs.Style.{IsBounded};
ghost use Rattle.line_place.specs.Reach.{total};
ghost use Rattle.check_paragraphs.specs.Bounds.{IsBoundedItem};
ghost use Rattle.para_lines.specs.Boxes.{HasBounds};
ghost use Rattle.para_lines.specs.Paragraph.{atom_of};
ghost use Rattle.para_lines.specs.Reach.{atom_reach, lengths_of};
ghost use Rattle.para_prepare.specs.Preparation.{atoms_first, atoms_in};

use crate::bounds::is_bounded;
use crate::fragments::print_fragments;
use crate::limits::with_four;
use crate::preparings::{can_be_prepared, paragraph_case};
use crate::styles::StyleForm;
use crate::sums::with_length;
use crate::words::{CaseError, Words};
use bumpalo::Bump;
use face_api::Faces;
use fragment_types::{Fragment, FragmentKind, Item};
use para_lines::{Atom, Container, paragraph_lines, paragraph_sizes};
use para_prepare::{Paragraph, PreparedContent, PreparedItem, prepare};
use std::alloc::Global;
use std::io;
use std::io::Write;
use std::rc::Rc;
use std::sync::ledger::Ledger;
use wm_modes::FlowRect;
use wm_units::Steps;

/// The inline-blocks of a case, in order.
type Atoms = Vec<Atom>;

/// Contributions of inline-blocks, in order.
type Contributions = Vec<i64>;

/// How far a paragraph is taken. Each takes it further than the one before.
#[derive(Clone, Copy, PartialEq, Eq)]
pub(crate) enum Stage {
    /// It is read.
    Read,
    /// It is prepared.
    Prepared,
    /// Its lines are made.
    Lines,
    /// Its sizes are found, and all is printed.
    Printed,
}

const COUNTED: [(&'static str, Stage); 3] = [
    ("read", Stage::Read),
    ("prepared", Stage::Prepared),
    ("lines", Stage::Lines),
];

/// A paragraph that is taken so far: its inline-blocks are laid out, and have these min-content and max-content contributions.
#[derive(Drop)]
pub(crate) struct LinesCase {
    stage: Stage,
    paragraph: Paragraph,
    container: Container,
    atoms: Atoms,
    mins: Contributions,
    maxs: Contributions,
}

/// The paragraph of these words, all of which is asked.
pub(crate) fn lines_case(alloc: Global, words: &mut Words<'_>) -> Result<LinesCase, CaseError> {
    case(alloc, words, Stage::Printed)
}

/// The paragraph of these words, which say first how far it is taken.
pub(crate) fn count_case(alloc: Global, words: &mut Words<'_>) -> Result<LinesCase, CaseError> {
    let stage = words.named(&COUNTED)?;
    case(alloc, words, stage)
}

fn case(alloc: Global, words: &mut Words<'_>, stage: Stage) -> Result<LinesCase, CaseError> {
    let name = words.box_name()?;
    let size = words.number()?;
    let paragraph = paragraph_case(alloc, words, StyleForm::Lines)?;
    let container = Container {
        name,
        style: paragraph.style,
        size,
    };
    let mut case = LinesCase {
        stage,
        paragraph,
        container,
        atoms: Vec::new(alloc),
        mins: Vec::new(alloc),
        maxs: Vec::new(alloc),
    };
    for _ in 0..words.number::<usize>()? {
        case.atoms.push(atom(alloc, words)?)?;
        case.mins.push(words.number()?)?;
        case.maxs.push(words.number()?)?;
    }
    words.end()?;
    Ok(case)
}

// An inline-block that shows nothing inside.
fn atom(alloc: Global, words: &mut Words<'_>) -> Result<Atom, CaseError> {
    let fragment = Fragment {
        name: words.box_name()?,
        rect: FlowRect {
            i: 0,
            b: 0,
            inline: words.number()?,
            block: words.number()?,
        },
        kind: FragmentKind::Span,
        children: Rc::new(alloc, Vec::new(alloc))?,
    };
    Ok(Atom {
        fragment,
        extent: words.number()?,
        left_margin: words.number()?,
        over_margin: words.number()?,
        over: words.number()?,
        under: words.number()?,
        shift: words.number()?,
    })
}

/// Prints the two sizes of the paragraph and its lines, or only how many items or lines there are.
pub(crate) fn answer_lines<W: Write, L: Ledger, M: Ledger>(
    alloc: Global,
    case: &LinesCase,
    faces: &Faces,
    prepared: &mut Steps<L>,
    arranged: &mut Steps<M>,
    output: &mut W,
) -> io::Result<()> {
    let items = &case.paragraph.items;
    if case.stage == Stage::Read {
        return write!(output, "{} items", items.len());
    }
    if !can_be_prepared(&case.paragraph) || !can_be_lined(case) {
        return write!(output, "outside");
    }
    let mut arena = Bump::new(alloc);
    let ready = prepare(alloc, &case.paragraph, faces, &mut arena, prepared)?;
    if case.stage == Stage::Prepared {
        return write!(output, "{} items", ready.items().len());
    }
    if !have_atoms(ready.items(), case.atoms.len()) {
        return write!(output, "outside");
    }
    let lines = paragraph_lines(
        alloc,
        items,
        &ready,
        &case.container,
        &case.atoms,
        faces,
        arranged,
    )?;
    if case.stage == Stage::Lines {
        return write!(output, "{} lines", lines.len());
    }
    let sizes = paragraph_sizes(alloc, items, &ready, &case.mins, &case.maxs)?;
    write!(output, "{} {}", sizes.min, sizes.max)?;
    print_fragments(output, &lines)
}

// Whether the styles, the room and the inline-blocks are such as `paragraph_lines` takes.
fn can_be_lined(case: &LinesCase) -> bool
    ensures count { result ≡ true → length case.now.paragraph.items.items ≤ 2 ^ 20 }
    ensures bounds { result ≡ true → All HasBounds (entries_of case.now.paragraph.items.items) }
    ensures style { result ≡ true → IsBounded case.now.container.style }
    ensures low { result ≡ true → pos 0 ≤ℤ case.now.container.size }
    ensures high { result ≡ true → case.now.container.size ≤ℤ pos (2 ^ 32) }
    ensures reach { result ≡ true → total atom_reach (map atom_of case.now.atoms.items) ≤ 2 ^ 57 }
    ensures mins { result ≡ true → lengths_of case.now.mins.items ≤ 2 ^ 59 }
    ensures maxs { result ≡ true → lengths_of case.now.maxs.items ≤ 2 ^ 59 }
{
    if !is_bounded(&case.container.style) {
        return false;
    }
    case.paragraph.items.len() <= 1 << 20
        && have_bounds(&case.paragraph.items)
        && 0 <= case.container.size
        && case.container.size <= 1 << 32
        && are_near(&case.atoms)
        && are_short(&case.mins)
        && are_short(&case.maxs)
}

#[tactic(auto, using(crate::proofs::Atoms::all_bounded))]
fn have_bounds(items: &[Item]) -> bool
    ensures { result ≡ true → All HasBounds (entries_of items.now) }
{
    for item in items {
        if !has_bounds(item) {
            return false;
        }
    }
    true
}

fn has_bounds(item: &Item) -> bool
    ensures { result ≡ true → IsBoundedItem item.now }
{
    match item {
        Item::Open { style, .. } => is_bounded(style),
        Item::Text { .. } | Item::Close { .. } | Item::Atom { .. } | Item::Break { .. } => true,
    }
}

// Whether there are so many inline-blocks as items ask for.
#[tactic(auto, using(crate::proofs::Atoms::counted_on))]
fn have_atoms(items: &[PreparedItem], count: usize) -> bool
    ensures { result ≡ true → atoms_in items.now ≤ count }
{
    let mut left = count;
    for item in items {
        match without(left, &item.what) {
            Some(less) => left = less,
            None => return false,
        }
    }
    true
}

// How many inline-blocks are left behind an item.
fn without(left: usize, what: &PreparedContent) -> Option<usize>
    ensures { IfSome result (λ less. left ≡ atoms_first what.now less) }
{
    match what {
        PreparedContent::Atom { .. } => left.checked_sub(1),
        PreparedContent::Unit { .. }
        | PreparedContent::Combined { .. }
        | PreparedContent::Break { .. } => Some(left),
    }
}

// Whether the lengths of inline-blocks, without their signs, come to at most 2^57.
#[tactic(auto, using(crate::proofs::Atoms::near_atoms))]
fn are_near(atoms: &[Atom]) -> bool
    ensures { result ≡ true → total atom_reach (map atom_of atoms.now) ≤ 2 ^ 57 }
{
    match reach_of(atoms) {
        Some(sum) => sum <= 1 << 57,
        None => false,
    }
}

#[tactic(auto, using(std::proofs::lemmas::List::Sums::sum_by_more))]
fn reach_of(atoms: &[Atom]) -> Option<u64>
    ensures { IfSome result (λ sum. sum ≡ sum_by (λ atom. atom_reach (atom_of atom)) atoms.now) }
{
    let mut sum = 0;
    for atom in atoms {
        sum = with_atom(sum, atom)?;
    }
    Some(sum)
}

fn with_atom(sum: u64, atom: &Atom) -> Option<u64>
    ensures { IfSome result (λ more. more ≡ sum + atom_reach (atom_of atom.now)) }
{
    let rect = atom.fragment.rect;
    let along = with_four(sum, atom.extent, rect.inline, rect.block, atom.left_margin)?;
    let all = with_four(along, atom.over_margin, atom.over, atom.under, atom.shift)?;
    Some(all)
}

// Whether lengths, without their signs, come to at most 2^59.
fn are_short(lengths: &[i64]) -> bool
    ensures { result ≡ true → lengths_of lengths.now ≤ 2 ^ 59 }
{
    match sum_of(lengths) {
        Some(sum) => sum <= 1 << 59,
        None => false,
    }
}

#[tactic(auto, using(std::proofs::lemmas::List::Sums::sum_by_more))]
fn sum_of(lengths: &[i64]) -> Option<u64>
    ensures { IfSome result (λ sum. sum ≡ sum_by unsigned_abs lengths.now) }
{
    let mut sum = 0;
    for length in lengths {
        sum = with_length(sum, *length)?;
    }
    Some(sum)
}
