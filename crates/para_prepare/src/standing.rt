//! How items stand in their bidi paragraphs (UAX 9, X1 to I2).

ghost use Rattle.std.specs.Prelude.{◌≡◌, ◌+◌, ◌++◌, ◌≤◌, [], ◌∷◌, ℕ, List, None, false, length, map, All, IfOk, IfSome, OnOk};
ghost use Rattle.bidi_resolve.specs.Paragraph.{IsResolvedLevel};
ghost use Rattle.para_prepare.specs.BidiParagraphs.{begins};
ghost use Rattle.para_prepare.specs.Standing as standing;
ghost use Rattle.para_prepare.specs.Standing.{IsStanding, chars_of, classes_of, ended, standings_by};
ghost use Rattle.para_prepare.specs.declared.bidi_text.Character.{Character};

use crate::bidi_text::{Character, Role};
use bidi_explicit::{ClassList, LevelList, base_of};
use bidi_resolve::paragraph_levels;
use bumpalo::Bump;
use std::alloc::{AllocError, Global};
use wm_chars::BidiClass;

/// The level of an item, the base level of its bidi paragraph, and the least level of what parts it from the item
/// before it.
#[derive(Clone, Copy)]
pub(crate) struct Standing {
    pub(crate) level: u8,
    pub(crate) base: u8,
    pub(crate) apart: Option<u8>,
}

/// For each item the least level of what parts it from the one before it.
pub(crate) type Aparts = Vec<Option<u8>>;

/// Standings in scratch memory.
pub(crate) type Standings<'a> = Vec<Standing, &'a Bump>;

// What stands before a place of a bidi paragraph: whether an item, and the least level of what parts it from the next one.
#[derive(Clone, Copy)]
struct Before {
    begun: bool,
    apart: Option<u8>,
}

/// Adds the standings of the items of the last bidi paragraph. Without a base level it is that of the first strong
/// character (UAX 9, P2 and P3).
pub(crate) fn stand(
    alloc: Global,
    standings: &mut Standings<'_>,
    given: Option<u8>,
    text: &[Character],
) -> Result<(), AllocError>
    requires base { IfSome given (λ base. base ≤ 1) }
    requires bounds { All IsStanding standings.old.items }
    ensures standings { OnOk result (standings.new.items ≡ standings.old.items ++ standing.standings given (text.now ∷ [])) }
    ensures count { OnOk result (length standings.new.items ≡ length standings.old.items + begins text.now) }
    ensures bounds { All IsStanding standings.new.items }
{
    let classes = classes_of(alloc, text)?;
    let base = base_of(given, &classes);
    let levels = paragraph_levels(alloc, &chars_of(alloc, text)?, &classes, base)?;
    stand_by(standings, base, text, &levels)?;
    Ok(())
}

/// Adds the standings of the items of a bidi paragraph, and that of the line break behind it.
pub(crate) fn stand_before_break(
    alloc: Global,
    standings: &mut Standings<'_>,
    given: Option<u8>,
    text: &[Character],
) -> Result<(), AllocError>
    requires base { IfSome given (λ base. base ≤ 1) }
    requires bounds { All IsStanding standings.old.items }
    ensures standings { OnOk result (standings.new.items ≡ standings.old.items ++ ended given text.now) }
    ensures count { OnOk result (length standings.new.items ≡ length standings.old.items + begins text.now + 1) }
    ensures bounds { All IsStanding standings.new.items }
{
    let classes = classes_of(alloc, text)?;
    let base = base_of(given, &classes);
    let levels = paragraph_levels(alloc, &chars_of(alloc, text)?, &classes, base)?;
    let before = stand_by(standings, base, text, &levels)?;
    standings.push(before.standing(base, base))?;
    Ok(())
}

/// Adds the standings of the items of a text with these levels.
fn stand_by(
    standings: &mut Standings<'_>,
    base: u8,
    text: &[Character],
    levels: &[u8],
) -> Result<Before, AllocError>
    requires levels { length text.now ≡ length levels.now }
    requires base { base ≤ 1 }
    requires between { All (IsResolvedLevel base) levels.now }
    requires bounds { All IsStanding standings.old.items }
    ensures whole { OnOk result (standings.new.items ≡ standings.old.items ++ standings_by base false None text.now levels.now) }
    ensures count { OnOk result (length standings.new.items ≡ length standings.old.items + begins text.now) }
    ensures bounds { All IsStanding standings.new.items }
    ensures more { (more : List Character) → (further : List ℕ) → IfOk result (λ before. standings.new.items ++ standings_by base before.begun before.apart more further ≡ standings.old.items ++ standings_by base false None (text.now ++ more) (levels.now ++ further)) }
{
    let mut before = Before {
        begun: false,
        apart: None,
    };
    for k in 0..text.len() {
        let character = text[k];
        if character.role == Role::Begins {
            standings.push(before.standing(base, levels[k]))?;
        }
        before = before.past(character, levels[k]);
    }
    Ok(before)
}

impl Before {
    // How an item stands here at this level.
    fn standing(self, base: u8, level: u8) -> Standing
        ensures { result ≡ standing.standing base level self.begun self.apart }
    {
        Standing {
            level,
            base,
            apart: if self.begun { self.apart } else { None },
        }
    }

    // What stands before the place behind this character.
    fn past(self, character: Character, level: u8) -> Before
        ensures begun { result.begun ≡ standing.begun_past character.role self.begun }
        ensures apart { result.apart ≡ standing.apart_past character.role character.class level self.apart }
    {
        match character.role {
            Role::Begins => Before {
                begun: true,
                apart: None,
            },
            Role::Continues => self,
            Role::Divides => Before {
                begun: self.begun,
                apart: parted(character.class, level, self.apart),
            },
        }
    }
}

// The least level of what parts, with one character more. What X9 removes parts nothing.
fn parted(class: BidiClass, level: u8, apart: Option<u8>) -> Option<u8>
    ensures { result ≡ standing.parted class level apart }
{
    if class.is_removed() {
        return apart;
    }
    match apart {
        None => Some(level),
        Some(least) => Some(level.min(least)),
    }
}

/// The levels of items that stand so.
pub(crate) fn levels_of(alloc: Global, standings: &[Standing]) -> Result<LevelList, AllocError>
    ensures { IfOk result (λ levels. levels.items ≡ map (λ s. s.level) standings.now) }
{
    standings
        .iter()
        .map(|standing| standing.level)
        .collect(alloc)
}

/// The base levels of their bidi paragraphs.
pub(crate) fn bases_of(alloc: Global, standings: &[Standing]) -> Result<LevelList, AllocError>
    ensures { IfOk result (λ bases. bases.items ≡ map (λ s. s.base) standings.now) }
{
    standings
        .iter()
        .map(|standing| standing.base)
        .collect(alloc)
}

/// What parts them from the items before them.
pub(crate) fn aparts_of(alloc: Global, standings: &[Standing]) -> Result<Aparts, AllocError>
    ensures { IfOk result (λ aparts. aparts.items ≡ map (λ s. s.apart) standings.now) }
{
    standings
        .iter()
        .map(|standing| standing.apart)
        .collect(alloc)
}

/// The bidi classes of a text.
pub(crate) fn classes_of(alloc: Global, text: &[Character]) -> Result<ClassList, AllocError>
    ensures { IfOk result (λ classes. classes.items ≡ classes_of text.now) }
{
    text.iter().map(|character| character.class).collect(alloc)
}

/// The characters of a text.
pub(crate) fn chars_of(alloc: Global, text: &[Character]) -> Result<Vec<char>, AllocError>
    ensures { IfOk result (λ chars. chars.items ≡ chars_of text.now) }
{
    text.iter().map(|character| character.char).collect(alloc)
}
