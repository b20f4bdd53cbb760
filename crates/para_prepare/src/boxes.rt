//! Which inline boxes take part: those with an item between their ends.

ghost use Rattle.std.specs.Prelude.{◌≡◌, ◌+◌, ◌<◌, ◌^◌, [], cond, length, map, IfOk, IfSome};
ghost use Rattle.std.specs.List.{list_all};
ghost use Rattle.para_prepare.specs.Boxes as boxes;
ghost use Rattle.para_prepare.specs.Boxes.{takes_from};
ghost use Rattle.para_prepare.specs.Reach as reaches;
ghost use Rattle.para_prepare.specs.Reach.{code_kind, closings_from};

use crate::parts::Part;
use bumpalo::Bump;
use std::alloc::AllocError;

/// What a part is for the boxes round it: where one begins, where one ends, an item, or none of these.
#[derive(Clone, Copy, PartialEq, Eq)]
pub(crate) enum Kind {
    Opening,
    Closing,
    Content,
    Aside,
}

/// A mark for each part in scratch memory.
pub(crate) type Marks<'a> = Vec<bool, &'a Bump>;

/// For each part whether it takes part: the ends of a box only where it has an item.
#[tactic(auto, using(crate::proofs::NoEnds::all_take))]
pub(crate) fn taking<'a>(arena: &'a Bump, parts: &[Part]) -> Result<Marks<'a>, AllocError>
    ensures { IfOk result (λ marks. marks.items ≡ takes_from [] (map code_kind parts.now)) }
{
    if have_no_ends(parts) {
        let all = Vec::from_elem(arena, true, parts.len())?;
        return Ok(all);
    }
    let mut marks = mark_closings(arena, parts)?;
    mark_openings(&mut marks, parts);
    Ok(marks)
}

// Whether no part is an end of a box: then all take part.
fn have_no_ends(parts: &[Part]) -> bool
    ensures { result ≡ list_all (λ part. reaches.is_no_end (code_kind part)) parts.now }
{
    parts.iter().all(
        |part| -> bool
            ensures { result ≡ reaches.is_no_end (code_kind part.now) }
        { !matches!(part, Part::Opens(_) | Part::Closes) },
    )
}

// The marks of the ends of boxes, by what stands before them; all others are set.
fn mark_closings<'a>(arena: &'a Bump, parts: &[Part]) -> Result<Marks<'a>, AllocError>
    ensures { IfOk result (λ marks. marks.items ≡ closings_from [] (map code_kind parts.now)) }
{
    let mut marks = Vec::with_capacity(arena, parts.len())?;
    let mut before = None;
    for part in parts {
        let kind = part.kind();
        marks.push(kind.closing_takes(before))?;
        before = kind.flipped().reach(before);
    }
    Ok(marks)
}

// The marks of the beginnings of boxes, by what stands behind them.
fn mark_openings(marks: &mut [bool], parts: &[Part])
    requires { marks.old ≡ closings_from [] (map code_kind parts.now) }
    ensures { marks.new ≡ takes_from [] (map code_kind parts.now) }
{
    let mut after = None;
    let mut k = parts.len();
    while k > 0 {
        k -= 1;
        let kind = parts[k].kind();
        marks[k] = kind.takes(after, marks[k]);
        after = kind.reach(after);
    }
}

impl Part {
    fn kind(&self) -> Kind
        ensures { result ≡ code_kind self.now }
    {
        match self {
            Part::Opens(_) => Kind::Opening,
            Part::Closes => Kind::Closing,
            Part::Control { .. } => Kind::Aside,
            Part::Unit { .. } | Part::Combined { .. } | Part::Atom { .. } | Part::Break { .. } => {
                Kind::Content
            }
        }
    }
}

impl Kind {
    // What it is on the way back.
    fn flipped(self) -> Kind
        ensures { result ≡ boxes.flipped self }
    {
        match self {
            Kind::Opening => Kind::Closing,
            Kind::Closing => Kind::Opening,
            Kind::Content => Kind::Content,
            Kind::Aside => Kind::Aside,
        }
    }

    // How many boxes at least have to be open for the way to meet an item, by that number of the way behind it.
    fn reach(self, behind: Option<usize>) -> Option<usize>
        requires { IfSome behind (λ least. least + 1 < 2 ^ 64) }
        ensures { result ≡ reaches.reach_at self behind }
    {
        match self {
            Kind::Opening => lowered(behind),
            Kind::Closing => raised(behind),
            Kind::Content => Some(0),
            Kind::Aside => behind,
        }
    }

    // The mark by what stands before.
    fn closing_takes(self, before: Option<usize>) -> bool
        ensures { result ≡ reaches.closing_takes before self }
    {
        match self {
            Kind::Closing => meets_at_once(before),
            Kind::Opening | Kind::Content | Kind::Aside => true,
        }
    }

    // The mark by what stands behind, else the one that is there.
    fn takes(self, after: Option<usize>, mark: bool) -> bool
        ensures { result ≡ reaches.opening_takes after self mark }
    {
        match self {
            Kind::Opening => meets_at_once(after),
            Kind::Closing | Kind::Content | Kind::Aside => mark,
        }
    }
}

// Whether an item is met where no other box is open.
fn meets_at_once(reach: Option<usize>) -> bool
    ensures { result ≡ reaches.reaches reach 0 }
{
    match reach {
        Some(0) => true,
        Some(_) | None => false,
    }
}

fn lowered(reach: Option<usize>) -> Option<usize>
    ensures { result ≡ reaches.lowered reach }
{
    match reach {
        Some(least) => Some(least.saturating_sub(1)),
        None => None,
    }
}

fn raised(reach: Option<usize>) -> Option<usize>
    requires { IfSome reach (λ least. least + 1 < 2 ^ 64) }
    ensures { result ≡ reaches.raised reach }
{
    match reach {
        Some(least) => Some(least + 1),
        None => None,
    }
}
