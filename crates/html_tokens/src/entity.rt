//! The named character references of the profile (docs/PROFILE/html.md).

/// The names as they stand behind `&`, with the characters that they mean.
pub static ENTITIES: [(&str, char); 17] = [
    ("amp;", '&'),
    ("lt;", '<'),
    ("gt;", '>'),
    ("quot;", '"'),
    ("apos;", '\''),
    ("nbsp;", '\u{A0}'),
    ("lrm;", '\u{200E}'),
    ("rlm;", '\u{200F}'),
    ("ndash;", '\u{2013}'),
    ("mdash;", '\u{2014}'),
    ("hellip;", '\u{2026}'),
    ("lsquo;", '\u{2018}'),
    ("rsquo;", '\u{2019}'),
    ("ldquo;", '\u{201C}'),
    ("rdquo;", '\u{201D}'),
    ("laquo;", '\u{AB}'),
    ("raquo;", '\u{BB}'),
];
