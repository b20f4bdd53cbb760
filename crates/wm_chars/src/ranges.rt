//! Ranges of the repertoire that most characters of East Asian texts stand in.

ghost use Rattle.std.specs.Prelude.{◌≡◌};
ghost use Rattle.wm_chars.specs.Ranges as ranges;

/// Is it kana, Han or a Hangul syllable of the repertoire?
#[inline(always)]
pub(crate) fn is_ideograph(c: char) -> bool
    ensures { result ≡ ranges.is_ideograph c }
{
    c >= '\u{3041}'
        && matches!(
            c,
            '\u{3041}'..='\u{3096}' | '\u{30A1}'..='\u{30FA}' | '\u{4E00}'..='\u{9FFF}' | '\u{AC00}'..='\u{D7A3}'
        )
}
