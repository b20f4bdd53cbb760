//! Which declaration wins (CSS Cascading 4, 6.1; CSS Logical Properties 1, 4).

ghost use Rattle.std.specs.Prelude.{◌≡◌, IfOk, map, option_map};
ghost use Rattle.cascade.specs.Winners as definitions;
ghost use Rattle.cascade.specs.Winners.{AreBest, AreNone, claim_of, claims_of};

use crate::claim::Claim;
use css_types::{PROPERTIES, PROPERTY_COUNT, Property, PropertyRow, Value, Winners, page_property};
use defaulting::{computed_direction, computed_mode, computed_orientation};
use std::alloc::{AllocError, Global};
use style_types::{Style, TextOrientation};
use wm_modes::{Direction, WritingMode, used_direction};

// For how many winners there is room at first: few elements have more.
const ROOM: usize = 16;

// A claim, or none, for each property of the table, by its place.
type Best<'a> = [Option<&'a Claim>; PROPERTY_COUNT];

/// The winner of each property, in the order of the table of properties, among these claims.
pub(crate) fn winners_among(
    alloc: Global,
    claims: &[Claim],
    parent: &Style,
) -> Result<Winners, AllocError>
    ensures { IfOk result (λ w. w.items ≡ definitions.winners_in claims.now parent.now) }
{
    let (mode, dir) = flow_of(claims, parent);
    let mut best = [None; PROPERTY_COUNT];
    put_best(&mut best, claims, mode, dir);
    listed(alloc, &PROPERTIES, &best)
}

// The element's own mode and used direction, by which it maps its flow.
fn flow_of(claims: &[Claim], parent: &Style) -> (WritingMode, Direction)
    ensures mode { result.0 ≡ (definitions.turned claims.now parent.now).mode }
    ensures dir { result.1 ≡ definitions.direction_of (definitions.turned claims.now parent.now) }
{
    let mode = computed_mode(parent.mode, first_winner(claims, Property::WritingMode));
    let direction = computed_direction(parent.direction, first_winner(claims, Property::Direction));
    let orientation = computed_orientation(
        parent.orientation,
        first_winner(claims, Property::TextOrientation),
    );
    let is_upright = matches!(orientation, TextOrientation::Upright);
    (mode, used_direction(mode, is_upright, direction))
}

// The value that wins for a property that is about the whole box.
#[tactic(auto, using(crate::proofs::Greatest::first_goes_on, crate::proofs::Greatest::first_ends))]
fn first_winner(claims: &[Claim], property: Property) -> Option<Value>
    ensures { result ≡ definitions.first_winner claims.now property }
{
    let mut best = None;
    for claim in claims {
        best = greater_if(is_same(claim.property, property), best, claim);
    }
    value_of(best)
}

fn is_same(one: Property, other: Property) -> bool
    ensures { result ≡ definitions.same_property one other }
{
    one.place() == other.place()
}

fn value_of(best: Option<&Claim>) -> Option<Value>
    ensures { result ≡ option_map (λ claim. claim.value) (claim_of best.entry) }
{
    match best {
        Some(claim) => Some(claim.value),
        None => None,
    }
}

// The greater of the best so far and a claim, where this one counts.
fn greater_if<'a>(counts: bool, best: Option<&'a Claim>, claim: &'a Claim) -> Option<&'a Claim>
    ensures { claim_of result ≡ definitions.greater_if counts (claim_of best.entry) claim.now }
{
    match best {
        Some(best) if !counts || !best.key.is_below(claim.key) => Some(best),
        None if !counts => None,
        _ => Some(claim),
    }
}

// Puts the greatest claim for each property of the page where there is none yet.
fn put_best<'a>(best: &mut Best<'a>, claims: &'a [Claim], mode: WritingMode, dir: Direction)
    requires { AreNone (claims_of best.old) }
    ensures { AreBest mode dir claims.now (claims_of best.new) }
{
    for claim in claims {
        let place = page_property(claim.property, mode, dir).place();
        best[place] = greater_if(true, best[place], claim);
    }
}

// The values of these claims, each under the name of its property of the page, in the order of these rows.
fn listed(alloc: Global, rows: &[(&str, PropertyRow)], best: &Best) -> Result<Winners, AllocError>
    ensures { IfOk result (λ w. w.items ≡ definitions.listed_of (claims_of best.now) (map (λ named. named.1) rows.now)) }
{
    let mut winners = Winners::with_capacity(alloc, ROOM)?;
    for (_, row) in rows {
        if let Some(claim) = best[row.property.place()] {
            winners.push((row.property, claim.value))?;
        }
    }
    Ok(winners)
}
