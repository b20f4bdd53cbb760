//! A unit of a run.

ghost use Rattle.std.specs.Prelude.{◌≡◌, ◌-◌, ◌<◌, [], ◌∷◌, length, slice_index_or, IfOk, IfSome};
ghost use Rattle.fragment_types.specs.Glyphs.{only_character};

use crate::glyphs::Glyphs;
use std::alloc::{AllocError, Global};
use std::marker::Model;
use std::slice;

/// A unit of a run. A combined run has one entry for all its units. Its places count characters of the node's text, and its
/// extent along the line is in units of 1/64 px. A unit of one character takes 16 bytes and no memory of its own.
#[derive(Debug, Drop)]
pub struct RunUnit {
    kept: KeptUnit,
}

#[derive(Debug, Drop)]
enum KeptUnit {
    // One character, which ends at this place.
    Single {
        end: u32,
        extent: u32,
        character: char,
    },
    Other(Box<OtherUnit>),
}

#[derive(Debug, Drop)]
struct OtherUnit {
    first: u32,
    end: u32,
    extent: i64,
    glyphs: Glyphs,
}

impl Model for RunUnit {
    ghost use Rattle.fragment_types.specs.RunUnit as units;

    ghost Value = { units.RunUnit };

    ghost view = { λ unit. units.unit_in unit.kept };
}

impl RunUnit {
    /// A unit from the place of its first character to the place after its last, with copies of these glyphs. Most are one
    /// character, and all that is read of them is read for each character of a page: so it stands where it is called.
    #[inline(always)]
    pub fn new(
        alloc: Global,
        first: u32,
        end: u32,
        extent: i64,
        glyphs: &Glyphs,
    ) -> Result<RunUnit, AllocError>
        ensures { IfOk result (λ unit. unit ≡ record { first = first; end = end; extent = extent; glyphs = glyphs.now }) }
    {
        if let Some(unit) = single(first, end, extent, glyphs) {
            return Ok(unit);
        }
        RunUnit::with_memory(alloc, first, end, extent, glyphs)
    }

    // Any unit, with memory of its own.
    #[inline(never)]
    fn with_memory(
        alloc: Global,
        first: u32,
        end: u32,
        extent: i64,
        glyphs: &Glyphs,
    ) -> Result<RunUnit, AllocError>
        ensures { IfOk result (λ unit. unit ≡ record { first = first; end = end; extent = extent; glyphs = glyphs.now }) }
    {
        let other = OtherUnit {
            first,
            end,
            extent,
            glyphs: glyphs.copy(alloc)?,
        };
        Ok(RunUnit {
            kept: KeptUnit::Other(Box::new(alloc, other)?),
        })
    }

    /// The place of its first character in the node's text.
    #[inline(always)]
    pub fn first(&self) -> u32
        ensures { result ≡ self.now.first }
    {
        match &self.kept {
            KeptUnit::Single { end, .. } => end.saturating_sub(1),
            KeptUnit::Other(other) => other.first,
        }
    }

    /// The place after its last character.
    #[inline(always)]
    pub fn end(&self) -> u32
        ensures { result ≡ self.now.end }
    {
        match &self.kept {
            KeptUnit::Single { end, .. } => *end,
            KeptUnit::Other(other) => other.end,
        }
    }

    /// Its extent along the line, in units of 1/64 px.
    #[inline(always)]
    pub fn extent(&self) -> i64
        ensures { result ≡ self.now.extent }
    {
        match &self.kept {
            KeptUnit::Single { extent, .. } => i64::from(*extent),
            KeptUnit::Other(other) => other.extent,
        }
    }

    /// How many units it has characters of: one, but inside a combined run.
    pub fn glyph_count(&self) -> usize
        ensures { result ≡ length self.now.glyphs }
    {
        match &self.kept {
            KeptUnit::Single { .. } => 1,
            KeptUnit::Other(other) => other.glyphs.len(),
        }
    }

    /// The characters of the unit at this place from line-left.
    pub fn glyph(&self, place: usize) -> &[char]
        requires { place < length self.now.glyphs }
        ensures { result.now ≡ slice_index_or self.now.glyphs place [] }
    {
        match &self.kept {
            KeptUnit::Single { character, .. } => slice::from_ref(character),
            KeptUnit::Other(other) => other.glyphs.unit(place),
        }
    }

    /// Its character, where it is one unit of one character.
    #[inline(always)]
    pub fn only_character(&self) -> Option<char>
        ensures only { result ≡ only_character self.now.glyphs }
        ensures one { IfSome result (λ c. (c ∷ []) ∷ [] ≡ self.now.glyphs) }
    {
        match &self.kept {
            KeptUnit::Single { character, .. } => Some(*character),
            KeptUnit::Other(other) => other.glyphs.only_character(),
        }
    }
}

// A unit that needs no memory of its own, where it is such a one.
#[inline(always)]
fn single(first: u32, end: u32, extent: i64, glyphs: &Glyphs) -> Option<RunUnit>
    ensures { IfSome result (λ unit. unit ≡ record { first = first; end = end; extent = extent; glyphs = glyphs.now }) }
{
    let character = glyphs.only_character()?;
    let extent = u32::try_from(extent).ok()?;
    if first < end && end - first == 1 {
        let kept = KeptUnit::Single {
            end,
            extent,
            character,
        };
        Some(RunUnit { kept })
    } else {
        None
    }
}
