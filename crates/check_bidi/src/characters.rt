//! The repertoire beside Unicode's data.

use std::io;
use std::io::Write;
use unicode::properties as ucd;
use wm_chars::{
    BidiClass, BreakClass, Orient, bidi_class, bracket, break_class, mirror, orientation,
};

/// Prints how many characters of the repertoire have each of its properties, and how many are not as in Unicode's data.
pub(crate) fn print_repertoire<W: Write>(output: &mut W) -> io::Result<()> {
    let mut seen = 0_u32;
    let mut mirrored = 0_u32;
    let mut brackets = 0_u32;
    let mut controls = 0_u32;
    let mut upright = 0_u32;
    let mut differ = 0_u32;
    for c in '\u{0}'..=char::MAX {
        let Some(class) = bidi_class(c) else {
            continue;
        };
        seen = seen.saturating_add(1);
        mirrored = mirrored.saturating_add(u32::from(mirror(c).is_some()));
        brackets = brackets.saturating_add(u32::from(bracket(c).is_some()));
        controls = controls.saturating_add(u32::from(break_class(c) == Some(BreakClass::Control)));
        upright = upright.saturating_add(u32::from(orientation(c) == Some(Orient::V)));
        differ = differ.saturating_add(u32::from(!is_as_in_unicode(c, class)));
    }
    write!(output, "{seen} characters, {mirrored} mirrored")?;
    write!(output, ", {brackets} brackets, {controls} controls")?;
    writeln!(output, ", {upright} upright, {differ} differ")
}

// The kit has no data of UAX 50. Of these characters the wide ones are upright, and no others.
fn is_as_in_unicode(c: char, class: BidiClass) -> bool {
    in_unicode(class) == ucd::BidiClass::for_char(c)
        && mirror(c).is_some() == ucd::is_bidi_mirrored(c)
        && (break_class(c) == Some(BreakClass::Control)) == ucd::is_bidi_control(c)
        && (orientation(c) == Some(Orient::V)) == is_wide(c)
}

// The class by Unicode's own data that a class of this crate is. Its class BN is none of this crate's.
fn in_unicode(class: BidiClass) -> ucd::BidiClass {
    match class {
        BidiClass::L => ucd::BidiClass::LeftToRight,
        BidiClass::R => ucd::BidiClass::RightToLeft,
        BidiClass::AL => ucd::BidiClass::ArabicLetter,
        BidiClass::EN => ucd::BidiClass::EuropeanNumber,
        BidiClass::ES => ucd::BidiClass::EuropeanSeparator,
        BidiClass::ET => ucd::BidiClass::EuropeanTerminator,
        BidiClass::AN => ucd::BidiClass::ArabicNumber,
        BidiClass::CS => ucd::BidiClass::CommonSeparator,
        BidiClass::NSM => ucd::BidiClass::NonspacingMark,
        BidiClass::B => ucd::BidiClass::ParagraphSeparator,
        BidiClass::S => ucd::BidiClass::SegmentSeparator,
        BidiClass::WS => ucd::BidiClass::WhiteSpace,
        BidiClass::ON => ucd::BidiClass::OtherNeutral,
        BidiClass::LRE => ucd::BidiClass::LeftToRightEmbedding,
        BidiClass::LRO => ucd::BidiClass::LeftToRightOverride,
        BidiClass::RLE => ucd::BidiClass::RightToLeftEmbedding,
        BidiClass::RLO => ucd::BidiClass::RightToLeftOverride,
        BidiClass::PDF => ucd::BidiClass::PopDirectionalFormat,
        BidiClass::LRI => ucd::BidiClass::LeftToRightIsolate,
        BidiClass::RLI => ucd::BidiClass::RightToLeftIsolate,
        BidiClass::FSI => ucd::BidiClass::FirstStrongIsolate,
        BidiClass::PDI => ucd::BidiClass::PopDirectionalIsolate,
    }
}

fn is_wide(c: char) -> bool {
    match ucd::EastAsianWidth::for_char(c) {
        ucd::EastAsianWidth::Wide | ucd::EastAsianWidth::Fullwidth => true,
        _ => false,
    }
}
