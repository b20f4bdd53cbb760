//! What is seen of units of text: their characters, unit by unit from line-left.

ghost use Rattle.std.specs.Prelude.{◌≡◌, ◌==◌, ◌<◌, [], ◌∷◌, length, slice_index_or, IfOk, IfSome};
ghost use Rattle.fragment_types.specs.Glyphs.{lists_of, only_character};

use std::alloc::{AllocError, Global};
use std::marker::Model;
use std::slice;

/// The characters of one unit, the base character first.
pub type Characters = Vec<char>;

/// The characters of units, one entry for each unit from line-left: one unit, or those inside a combined run. Characters
/// that are mirrored stand as their mirrors. A contract sees the list of the lists. One unit of one character, and none at
/// all, take no memory.
#[derive(Debug, Drop)]
pub struct Glyphs {
    kept: Kept,
}

#[derive(Debug, Drop)]
enum Kept {
    None,
    One(char),
    Many(Box<Vec<Characters>>),
}

impl Model for Glyphs {
    ghost use Rattle.std.specs.Prelude.{ℕ, List};
    ghost use Rattle.fragment_types.specs.Glyphs.{lists_in};

    ghost Value = { List (List ℕ) };

    ghost view = { λ glyphs. lists_in glyphs.kept };
}

impl Glyphs {
    /// One unit of one character.
    pub fn one(c: char) -> Glyphs
        ensures { result ≡ (c ∷ []) ∷ [] }
    {
        Glyphs { kept: Kept::One(c) }
    }

    /// No unit.
    pub fn none() -> Glyphs
        ensures { result ≡ [] }
    {
        Glyphs { kept: Kept::None }
    }

    /// Units with these characters.
    pub fn many(alloc: Global, units: Vec<Characters>) -> Result<Glyphs, AllocError>
        ensures { IfOk result (λ glyphs. glyphs ≡ lists_of units.items) }
    {
        Ok(Glyphs {
            kept: Kept::Many(Box::new(alloc, units)?),
        })
    }

    /// How many units there are.
    pub fn len(&self) -> usize
        ensures { result ≡ length self.now }
    {
        match &self.kept {
            Kept::None => 0,
            Kept::One(_) => 1,
            Kept::Many(units) => units.len(),
        }
    }

    /// Whether there is none.
    pub fn is_empty(&self) -> bool
        ensures { result ≡ (length self.now == 0) }
    {
        self.len() == 0
    }

    /// The characters of the unit at this place from line-left.
    pub fn unit(&self, place: usize) -> &[char]
        requires { place < length self.now }
        ensures { result.now ≡ slice_index_or self.now place [] }
    {
        match &self.kept {
            Kept::None => &[],
            Kept::One(c) => slice::from_ref(c),
            Kept::Many(units) => &units[place],
        }
    }

    /// Its character, where it is one unit of one character.
    #[inline(always)]
    pub fn only_character(&self) -> Option<char>
        ensures only { result ≡ only_character self.now }
        ensures one { IfSome result (λ c. (c ∷ []) ∷ [] ≡ self.now) }
    {
        match &self.kept {
            Kept::None => None,
            Kept::One(c) => Some(*c),
            Kept::Many(units) => only_in(units),
        }
    }

    /// A copy, with the same characters.
    pub fn copy(&self, alloc: Global) -> Result<Glyphs, AllocError>
        ensures { IfOk result (λ own. own ≡ self.now) }
    {
        match &self.kept {
            Kept::None => Ok(Glyphs::none()),
            Kept::One(c) => Ok(Glyphs::one(*c)),
            Kept::Many(units) => Glyphs::many(alloc, copy_of_units(alloc, units)?),
        }
    }
}

// The character of one unit that has no other.
fn only_in(units: &[Characters]) -> Option<char>
    ensures only { result ≡ only_character (lists_of units.now) }
    ensures one { IfSome result (λ c. (c ∷ []) ∷ [] ≡ lists_of units.now) }
{
    match units {
        [unit] => match unit.as_slice() {
            [c] => Some(*c),
            _ => None,
        },
        _ => None,
    }
}

fn copy_of_units(alloc: Global, units: &[Characters]) -> Result<Vec<Characters>, AllocError>
    ensures { IfOk result (λ own. lists_of own.items ≡ lists_of units.now) }
{
    let mut own = Vec::with_capacity(alloc, units.len())?;
    for unit in units {
        own.push(Vec::from_slice(alloc, unit)?)?;
    }
    Ok(own)
}
