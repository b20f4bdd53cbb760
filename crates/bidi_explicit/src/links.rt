//! Each place of a paragraph linked with the one behind it in its sequence (UAX 9, BD13), in one pass from the end.

ghost use Rattle.std.specs.Prelude.{◌≡◌, ◌+◌, ◌<◌, length, slice_index, true, IfSome, IfOk, OnOk};
ghost use Rattle.bidi_explicit.specs.Isolates.{kind_of};
ghost use Rattle.bidi_explicit.specs.Sequences.{level_in};
ghost use Rattle.bidi_explicit.specs.Paragraph.{AreAligned};
ghost use Rattle.bidi_explicit.specs.Stack.{stacked};
ghost use Rattle.bidi_explicit.specs.Links.{GoesOn, MatchesNone, IsLinked, IsLinkedWhole, begins_at, behind_of, closers_at, followed, freed, linked, matched_by, skipped};

use crate::isolates::{Kind, kind_of};
use crate::paragraph::Levels;
use crate::stack::Stack;
use std::alloc::{AllocError, Global};
use wm_chars::BidiClass;
use wm_chars::BidiClass::{
    AL, AN, B, CS, EN, ES, ET, L, LRE, LRO, NSM, ON, PDF, R, RLE, RLO, S, WS,
};

// What one pass from the end tells of a place.
#[derive(Clone, Copy)]
pub(crate) struct Link {
    // The place behind it in its sequence, if it isn't the last.
    pub(crate) next: Option<usize>,
    // Whether a sequence begins with it.
    pub(crate) begins: bool,
    // The level that counts for eos where it is the last.
    pub(crate) behind: u8,
}

const NO_LINK: Link = Link {
    next: None,
    begins: false,
    behind: 0,
};

// The links of a paragraph, as far as the pass has come.
#[derive(Drop)]
pub(crate) struct Links {
    // One for each place.
    pub(crate) links: Vec<Link>,
    // The places of the PDIs that close what is open before, the nearest first.
    pending: Stack<usize>,
    // The nearest place that isn't removed.
    next: Option<usize>,
}

// The links of a whole paragraph.
#[tactic(auto, using(crate::proofs::Walking::begins_linked))]
pub(crate) fn linked_levels(alloc: Global, levels: &Levels) -> Result<Links, AllocError>
    requires { AreAligned levels.now }
    ensures { IfOk result (λ links. IsLinkedWhole levels.now links.links.items) }
{
    let mut i = levels.original.len();
    let mut links = Links {
        links: Vec::from_elem(alloc, NO_LINK, i)?,
        pending: Stack::new(alloc),
        next: None,
    };
    while i > 0 {
        i -= 1;
        step(&mut links, levels, i)?;
    }
    Ok(links)
}

// One place more.
fn step(links: &mut Links, levels: &Levels, i: usize) -> Result<(), AllocError>
    requires aligned { AreAligned levels.now }
    requires inside { i < length levels.now.original.items }
    requires linked { IsLinked levels.now (i + 1) links.old.links.items (stacked links.old.pending) links.old.next }
    ensures { OnOk result (IsLinked levels.now i links.new.links.items (stacked links.new.pending) links.new.next) }
{
    let class = levels.original[i];
    if let Some(next) = goes_on(levels, class, i, links.next) {
        let behind = levels.level[next];
        begin_at(&mut links.links, i, Some(next), behind);
        links.next = Some(i);
        Ok(())
    } else {
        step_by_match(links, levels, i)
    }
}

// Links one place more with the next one in its sequence, whatever character stands there: a removed one is passed
// over, and an isolate initiator may go on at its PDI (UAX 9, BD13).
fn step_by_match(links: &mut Links, levels: &Levels, i: usize) -> Result<(), AllocError>
    requires aligned { AreAligned levels.now }
    requires inside { i < length levels.now.original.items }
    requires linked { IsLinked levels.now (i + 1) links.old.links.items (stacked links.old.pending) links.old.next }
    ensures { OnOk result (IsLinked levels.now i links.new.links.items (stacked links.new.pending) links.new.next) }
{
    let kind = kind_of(levels.original[i]);
    let matched = matched_by(&mut links.pending, kind, i)?;
    let behind = behind_of(levels, kind, matched, links.next);
    if levels.removed[i] {
        skip(&mut links.links, i, behind);
    } else {
        let followed = followed(levels, i, links.next, matched);
        begin_at(&mut links.links, i, followed, behind);
        links.next = Some(i);
    }
    Ok(())
}

// The next kept place, where the sequence of a character goes on there and the character itself matches no other. Most
// characters in a text are so.
fn goes_on(levels: &Levels, class: BidiClass, i: usize, next: Option<usize>) -> Option<usize>
    requires aligned { AreAligned levels.now }
    requires inside { i < length levels.now.original.items }
    requires next { IfSome next (λ q. q < length levels.now.level.items) }
    ensures goes_on { IfSome result (λ q. GoesOn levels.now (kind_of class) i next q) }
    ensures within { IfSome result (λ q. q < length levels.now.level.items) }
{
    let Some(q) = next else {
        return None;
    };
    if matches_none(class) && !levels.removed[i] && levels.level[i] == levels.level[q] {
        Some(q)
    } else {
        None
    }
}

// Whether a character of this class is neither an isolate initiator nor a PDI.
fn matches_none(class: BidiClass) -> bool
    ensures { result ≡ true → MatchesNone (kind_of class) }
{
    matches!(
        class,
        L | R | AL | EN | ES | ET | AN | CS | NSM | B | S | WS | ON | LRE | LRO | RLE | RLO | PDF
    )
}

// The matching PDI of an isolate initiator (UAX 9, BD9).
fn matched_by(
    pending: &mut Stack<usize>,
    kind: Kind,
    at: usize,
) -> Result<Option<usize>, AllocError>
    ensures matched { IfOk result (λ matched. matched ≡ matched_by kind (stacked pending.old)) }
    ensures pending { OnOk result (stacked pending.new ≡ closers_at kind at (stacked pending.old)) }
{
    match kind {
        Kind::Opens => Ok(pending.pop()),
        Kind::Closes => {
            pending.push(at)?;
            Ok(None)
        }
        _ => Ok(None),
    }
}

// The level that counts for eos where a sequence ends.
fn behind_of(levels: &Levels, kind: Kind, matched: Option<usize>, next: Option<usize>) -> u8
    requires { IfSome next (λ q. q < length levels.now.level.items) }
    ensures { result ≡ behind_of levels.now.base (level_in levels.now.level.items) kind matched next }
{
    match next {
        None => levels.base,
        Some(next) => match kind {
            Kind::Opens if matched.is_none() => levels.base,
            _ => levels.level[next],
        },
    }
}

// The place behind one in its sequence, if a sequence begins there.
fn followed(levels: &Levels, i: usize, next: Option<usize>, matched: Option<usize>) -> Option<usize>
    requires inside { i < length levels.now.level.items }
    requires next { IfSome next (λ q. q < length levels.now.level.items) }
    ensures { result ≡ followed (level_in levels.now.level.items) i next matched }
{
    match next {
        Some(q) if levels.level[i] == levels.level[q] => next,
        _ => matched,
    }
}

// A sequence begins with the place, and takes up the one that begins with what follows it, if one does.
fn begin_at(links: &mut [Link], i: usize, followed: Option<usize>, behind: u8)
    requires inside { i < length links.old }
    requires followed { IfSome followed (λ q. q < length links.old) }
    ensures { links.new ≡ linked links.old i followed behind }
{
    match followed {
        None => {
            links[i] = Link {
                next: None,
                begins: true,
                behind,
            };
        }
        Some(q) => {
            let next = if free(links, q) { followed } else { None };
            links[i] = Link {
                next,
                begins: true,
                behind,
            };
        }
    }
}

// No sequence begins with the place any more. Whether one did.
fn free(links: &mut [Link], q: usize) -> bool
    requires { q < length links.old }
    ensures result { result ≡ begins_at links.old q }
    ensures freed { links.new ≡ freed links.old q }
{
    let begins = links[q].begins;
    links[q].begins = false;
    begins
}

fn skip(links: &mut [Link], i: usize, behind: u8)
    requires { i < length links.old }
    ensures { links.new ≡ skipped links.old i behind }
{
    links[i] = Link {
        next: None,
        begins: false,
        behind,
    };
}
