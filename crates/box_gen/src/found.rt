//! The least number of a node whose box passes the limit.

ghost use Rattle.std.specs.Prelude.{◌≡◌};
ghost use Rattle.style_types.specs.Tree.{Nodes};
ghost use Rattle.box_gen.specs.Building as building;
ghost use Rattle.box_gen.specs.Found as definitions;
ghost use Rattle.box_gen.specs.Limit.{ChecksBoxes};
ghost use Rattle.box_gen.specs.Orthogonal.{IsLeastOf, root_past};

use crate::limit::BoxLimit;

/// Of some nodes the least number of one whose box passes the limit.
#[derive(Clone, Copy)]
pub struct Found {
    /// With its box too many are orthogonal.
    pub past: Option<u32>,
}

impl Found {
    /// None passes it.
    pub fn nothing() -> Found
        ensures { result ≡ definitions.nothing_found }
    {
        Found { past: None }
    }

    /// One node, which passes it or not.
    pub fn at(number: u32, past: bool) -> Found
        ensures { result ≡ definitions.found_at number past }
    {
        Found {
            past: number_if(past, number),
        }
    }

    /// These nodes and others.
    pub fn and(self, other: Found) -> Found
        ensures { result ≡ definitions.both self other }
    {
        Found {
            past: lesser(self.past, other.past),
        }
    }

    /// The limit that is told, where this is of all nodes of a tree.
    pub fn judged(self) -> Result<(), BoxLimit>
        ensures { (nodes : Nodes) → IsLeastOf (root_past nodes) self.past → ChecksBoxes nodes result }
    {
        match self.past {
            Some(number) => Err(BoxLimit::TooManyOrthogonal(number)),
            None => Ok(()),
        }
    }
}

fn number_if(is: bool, number: u32) -> Option<u32>
    ensures { result ≡ definitions.number_if is number }
{
    if is { Some(number) } else { None }
}

// The lesser of two numbers, where there are two.
fn lesser(one: Option<u32>, other: Option<u32>) -> Option<u32>
    ensures { result ≡ building.lesser one other }
{
    match (one, other) {
        (Some(a), Some(b)) => Some(a.min(b)),
        (Some(a), None) => Some(a),
        (None, other) => other,
    }
}
