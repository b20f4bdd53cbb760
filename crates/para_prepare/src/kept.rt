//! The kept characters of a paragraph (CSS Text 3, 4.1), and their text.

ghost use Rattle.std.specs.Prelude.{◌≡◌, ◌≤◌, ◌<◌, ◌^◌, ◌&&◌, ◌||◌, false, not, ◌++◌, [], ◌∷◌, length, map, All, encode_utf8_all, IfOk, OnOk};
ghost use Rattle.std.specs.Str.{chars};
ghost use Rattle.std.specs.String.{string_bytes};
ghost use Rattle.fragment_types.specs.Item.{entry_of, entries_of};
ghost use Rattle.para_prepare.specs.Kept.{kept, kept_in, joined, ends_from, chars_of};
ghost use Rattle.para_prepare.specs.Limits.{HasFontSize, text_bytes};
ghost use Rattle.para_prepare.specs.Facts.{all_sized-prop};
ghost use Rattle.para_prepare.specs.Marks.{follows_all, follows_at, is_bidi_control, is_kept_with, marks_with, space_if};
ghost use Rattle.para_prepare.specs.White.{chosen, leads, sign_of, signs, signs_in};

use crate::letter::Letter;
use crate::white::{is_bidi_control, is_white, leads};
use bumpalo::Bump;
use fragment_types::Item;
use std::alloc::{AllocError, Global};

/// Characters in scratch memory.
pub(crate) type Letters<'a> = Vec<Letter, &'a Bump>;

/// The items of a paragraph, of which there are fewer than 2^32, and the kept characters of all its texts, one behind the
/// other. The texts together have at most 1,048,576 bytes, and their font sizes are from 0 to 65,536.
#[derive(Drop)]
pub(crate) struct Kept<'a> {
    pub(crate) items: &'a [Item],
    pub(crate) letters: Letters<'a>,
    /// For each item of the paragraph, where its characters end among them.
    pub(crate) ends: Vec<usize, &'a Bump>,

    ghost few: { length items.now < 2 ^ 32 },
    ghost bytes: { text_bytes (entries_of items.now) ≤ 1048576 },
    ghost sizes: { All HasFontSize (entries_of items.now) } by { all_sized-prop (entries_of items.now) },
    ghost letters_are: { letters.items ≡ joined (kept (entries_of items.now)) },
    ghost ends_are: { ends.items ≡ ends_from 0 (kept (entries_of items.now)) },
}

/// The kept characters of these items: of white space what directly follows content that isn't white, where more content comes
/// before the next line break. Inline boxes' ends and bidi controls between are passed over. White space that is kept is U+0020.
pub(crate) fn kept_letters<'a>(arena: &'a Bump, items: &'a [Item]) -> Result<Kept<'a>, AllocError>
    requires few { length items.now < 2 ^ 32 }
    requires bytes { text_bytes (entries_of items.now) ≤ 1048576 }
    requires sizes { All HasFontSize (entries_of items.now) }
    ensures { IfOk result (λ k. k.items.now ≡ items.now) }
{
    let mut keeper = Keeper {
        letters: Vec::with_capacity(arena, room_for(items))?,
        follows: false,
    };
    let mut ends = Vec::with_capacity(arena, items.len())?;
    for i in 0..items.len() {
        let (_, behind) = items.split_at(i + 1);
        keeper.add_item(&items[i], behind)?;
        ends.push(keeper.letters.len())?;
    }
    Ok(Kept {
        items,
        letters: keeper.letters,
        ends,
    })
}

// As many as the characters of the texts at least. It is only a measure of room.
fn room_for(items: &[Item]) -> usize {
    let mut room = 0usize;
    for item in items {
        if let Item::Text { text, .. } = item {
            room = room.saturating_add(text.as_str().len());
        }
    }
    room
}

/// The text of these characters.
pub(crate) fn text_of(alloc: Global, letters: &[Letter]) -> Result<String, AllocError>
    ensures bytes { IfOk result (λ text. string_bytes text ≡ encode_utf8_all (chars_of letters.now)) }
    ensures chars { IfOk result (λ text. chars (string_bytes text) ≡ chars_of letters.now) }
{
    let mut text = String::new(alloc);
    for letter in letters {
        text.push(letter.char)?;
    }
    Ok(text)
}

// The kept characters so far, and whether content that isn't white stands directly before what comes next.
#[derive(Drop)]
struct Keeper<'a> {
    letters: Letters<'a>,
    follows: bool,
}

impl Keeper<'_> {
    // Adds the kept characters of an item that has these items behind it.
    fn add_item(&mut self, item: &Item, behind: &[Item]) -> Result<(), AllocError>
        requires few { length (signs_in (entry_of item.now)) < 2 ^ 32 }
        ensures letters { OnOk result (self.new.letters.items ≡ self.old.letters.items ++ kept_in (entry_of item.now) (marks_with (signs_in (entry_of item.now) ++ signs (entries_of behind.now)) self.old.follows)) }
        ensures follows { OnOk result (self.new.follows ≡ follows_all (signs_in (entry_of item.now)) self.old.follows) }
    {
        match item {
            Item::Text { text, .. } => self.add_text(text.as_str(), behind),
            Item::Open { .. } | Item::Close { .. } => Ok(()),
            Item::Atom { .. } => {
                self.follows = true;
                Ok(())
            }
            Item::Break { .. } => {
                self.follows = false;
                Ok(())
            }
        }
    }

    // Adds the kept characters of a text that has these items after it.
    fn add_text(&mut self, text: &str, behind: &[Item]) -> Result<(), AllocError>
        requires few { length (chars text.now) < 2 ^ 32 }
        ensures letters { OnOk result (self.new.letters.items ≡ self.old.letters.items ++ chosen 0 (chars text.now) (marks_with (map sign_of (chars text.now) ++ signs (entries_of behind.now)) self.old.follows)) }
        ensures follows { OnOk result (self.new.follows ≡ follows_all (map sign_of (chars text.now)) self.old.follows) }
    {
        let mut place = 0;
        let mut rest = text.chars();
        while let Some(c) = rest.next() {
            self.add_character(c, place, rest.as_str(), behind)?;
            place += 1;
        }
        Ok(())
    }

    // Adds the character at this place of its text, if it is kept; the rest of the text and these items stand behind it.
    #[inline(always)]
    #[tactic(auto, using(crate::proofs::WhiteLaws::other_follows))]
    fn add_character(
        &mut self,
        c: char,
        place: u32,
        rest: &str,
        behind: &[Item],
    ) -> Result<(), AllocError>
        ensures letters { OnOk result (self.new.letters.items ≡ self.old.letters.items ++ chosen place (c ∷ []) (is_kept_with (sign_of c) self.old.follows (leads (map sign_of (chars rest.now) ++ signs (entries_of behind.now))) ∷ [])) }
        ensures follows { OnOk result (self.new.follows ≡ follows_at (sign_of c) self.old.follows) }
    {
        if is_white(c) {
            self.add_white(place, rest, behind)
        } else {
            self.add_other(c, place)
        }
    }

    // Adds white space.
    fn add_white(&mut self, place: u32, rest: &str, behind: &[Item]) -> Result<(), AllocError>
        ensures letters { OnOk result (self.new.letters.items ≡ self.old.letters.items ++ space_if (self.old.follows && leads (map sign_of (chars rest.now) ++ signs (entries_of behind.now))) place) }
        ensures follows { OnOk result (self.new.follows ≡ false) }
    {
        if self.follows && leads(rest, behind) {
            self.letters.push(Letter { place, char: ' ' })?;
        }
        self.follows = false;
        Ok(())
    }

    // Adds a character that isn't white.
    #[inline(always)]
    fn add_other(&mut self, c: char, place: u32) -> Result<(), AllocError>
        ensures letters { OnOk result (self.new.letters.items ≡ self.old.letters.items ++ (record { place = place; char = c }) ∷ []) }
        ensures follows { OnOk result (self.new.follows ≡ (self.old.follows || not (is_bidi_control c))) }
    {
        self.letters.push(Letter { place, char: c })?;
        if !self.follows {
            self.follows = !is_bidi_control(c);
        }
        Ok(())
    }
}
