//! What the bidi algorithm reads of a paragraph (CSS Writing Modes 4, 2.4): the characters of its items and the controls
//! that boxes put round them.

ghost use Rattle.std.specs.Prelude.{◌≡◌, ◌++◌, [], ◌∷◌, map, reverse, OnOk};
ghost use Rattle.para_prepare.specs.BidiText as texts;
ghost use Rattle.para_prepare.specs.BidiText.{unit_characters};
ghost use Rattle.para_prepare.specs.Parts.{class_in};
ghost use Rattle.para_prepare.specs.declared.bidi_text.Role.TheVariants.{Continues};

use crate::letter::Letter;
use crate::parts::class_in;
use bumpalo::Bump;
use std::alloc::AllocError;
use style_types::UnicodeBidi;
use wm_chars::BidiClass;
use wm_modes::Direction;

/// What a character of a bidi paragraph is: the first of an item, another of it, or one that belongs to none.
#[derive(Clone, Copy, PartialEq, Eq)]
pub(crate) enum Role {
    Begins,
    Continues,
    Divides,
}

/// A character that the bidi algorithm reads.
#[derive(Clone, Copy)]
pub(crate) struct Character {
    pub(crate) char: char,
    pub(crate) class: BidiClass,
    pub(crate) role: Role,
}

/// The text of a bidi paragraph in scratch memory.
pub(crate) type BidiText<'a> = Vec<Character, &'a Bump>;

/// What an inline box or a block container puts round its content: by its `unicode-bidi` and its used direction.
#[derive(Clone, Copy)]
pub(crate) struct Around {
    pub(crate) bidi: UnicodeBidi,
    pub(crate) dir: Direction,
}

impl Around {
    /// Puts what stands before the content of an inline box.
    pub(crate) fn put_before(self, text: &mut BidiText<'_>) -> Result<(), AllocError>
        ensures { OnOk result (text.new.items ≡ text.old.items ++ texts.before self.bidi self.dir) }
    {
        match self.bidi {
            UnicodeBidi::Normal => {}
            UnicodeBidi::Embed => text.push(embedding(self.dir))?,
            UnicodeBidi::Isolate => text.push(isolating(self.dir))?,
            UnicodeBidi::BidiOverride => text.push(overriding(self.dir))?,
            UnicodeBidi::IsolateOverride => {
                text.push(put('\u{2068}', BidiClass::FSI))?;
                text.push(overriding(self.dir))?;
            }
            UnicodeBidi::Plaintext => text.push(put('\u{2068}', BidiClass::FSI))?,
        }
        Ok(())
    }

    /// Puts what stands after the content of an inline box.
    pub(crate) fn put_after(self, text: &mut BidiText<'_>) -> Result<(), AllocError>
        ensures { OnOk result (text.new.items ≡ text.old.items ++ texts.after self.bidi) }
    {
        match self.bidi {
            UnicodeBidi::Normal => {}
            UnicodeBidi::Embed | UnicodeBidi::BidiOverride => {
                text.push(put('\u{202C}', BidiClass::PDF))?;
            }
            UnicodeBidi::Isolate | UnicodeBidi::Plaintext => {
                text.push(put('\u{2069}', BidiClass::PDI))?;
            }
            UnicodeBidi::IsolateOverride => {
                text.push(put('\u{202C}', BidiClass::PDF))?;
                text.push(put('\u{2069}', BidiClass::PDI))?;
            }
        }
        Ok(())
    }

    /// Puts what a block container has before each of its bidi paragraphs.
    pub(crate) fn put_container_before(self, text: &mut BidiText<'_>) -> Result<(), AllocError>
        ensures { OnOk result (text.new.items ≡ text.old.items ++ texts.container_before self.bidi self.dir) }
    {
        match self.bidi {
            UnicodeBidi::BidiOverride | UnicodeBidi::IsolateOverride => {
                text.push(overriding(self.dir))?;
            }
            UnicodeBidi::Normal
            | UnicodeBidi::Embed
            | UnicodeBidi::Isolate
            | UnicodeBidi::Plaintext => {}
        }
        Ok(())
    }

    /// Puts what a block container has after each of its bidi paragraphs.
    pub(crate) fn put_container_after(self, text: &mut BidiText<'_>) -> Result<(), AllocError>
        ensures { OnOk result (text.new.items ≡ text.old.items ++ texts.container_after self.bidi) }
    {
        match self.bidi {
            UnicodeBidi::BidiOverride | UnicodeBidi::IsolateOverride => {
                text.push(put('\u{202C}', BidiClass::PDF))?;
            }
            UnicodeBidi::Normal
            | UnicodeBidi::Embed
            | UnicodeBidi::Isolate
            | UnicodeBidi::Plaintext => {}
        }
        Ok(())
    }
}

/// Puts what closes these boxes, the innermost first. The last of the list is the innermost.
pub(crate) fn put_all_after(text: &mut BidiText<'_>, opened: &[Around]) -> Result<(), AllocError>
    ensures { OnOk result (text.new.items ≡ text.old.items ++ texts.closing_all (reverse opened.now)) }
{
    for around in opened.iter().rev() {
        around.put_after(text)?;
    }
    Ok(())
}

/// Puts what opens these boxes, the outermost first.
pub(crate) fn put_all_before(text: &mut BidiText<'_>, opened: &[Around]) -> Result<(), AllocError>
    ensures { OnOk result (text.new.items ≡ text.old.items ++ texts.opening_all (reverse opened.now)) }
{
    for around in opened {
        around.put_before(text)?;
    }
    Ok(())
}

/// Puts the characters of a unit.
#[inline(always)]
pub(crate) fn put_unit(
    text: &mut BidiText<'_>,
    upright: bool,
    letters: &[Letter],
) -> Result<(), AllocError>
    ensures { OnOk result (text.new.items ≡ text.old.items ++ unit_characters upright letters.now) }
{
    if let Some((first, others)) = letters.split_first() {
        put_letter(text, upright, *first, Role::Begins)?;
        put_others(text, upright, others)?;
    }
    Ok(())
}

// Puts the characters of a unit behind its first.
#[inline(always)]
fn put_others(text: &mut BidiText<'_>, upright: bool, letters: &[Letter]) -> Result<(), AllocError>
    ensures { OnOk result (text.new.items ≡ text.old.items ++ map (λ l. texts.character l.char (class_in upright l.char) Continues) letters.now) }
{
    for letter in letters {
        put_letter(text, upright, *letter, Role::Continues)?;
    }
    Ok(())
}

// Puts a character of a unit.
#[inline(always)]
fn put_letter(
    text: &mut BidiText<'_>,
    upright: bool,
    letter: Letter,
    role: Role,
) -> Result<(), AllocError>
    ensures { OnOk result (text.new.items ≡ text.old.items ++ texts.character letter.char (class_in upright letter.char) role ∷ []) }
{
    let char = letter.char;
    text.push(Character {
        char,
        class: class_in(upright, char),
        role,
    })?;
    Ok(())
}

// A control of this class, which belongs to no item.
fn put(char: char, class: BidiClass) -> Character
    ensures { result ≡ texts.put char class }
{
    Character {
        char,
        class,
        role: Role::Divides,
    }
}

fn embedding(dir: Direction) -> Character
    ensures { result ≡ texts.embedding dir }
{
    match dir {
        Direction::Ltr => put('\u{202A}', BidiClass::LRE),
        Direction::Rtl => put('\u{202B}', BidiClass::RLE),
    }
}

fn overriding(dir: Direction) -> Character
    ensures { result ≡ texts.overriding dir }
{
    match dir {
        Direction::Ltr => put('\u{202D}', BidiClass::LRO),
        Direction::Rtl => put('\u{202E}', BidiClass::RLO),
    }
}

fn isolating(dir: Direction) -> Character
    ensures { result ≡ texts.isolating dir }
{
    match dir {
        Direction::Ltr => put('\u{2066}', BidiClass::LRI),
        Direction::Rtl => put('\u{2067}', BidiClass::RLI),
    }
}
