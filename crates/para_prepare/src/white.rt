//! White space, and the content beside it that decides whether it is kept (CSS Text 3, 4.1).

ghost use Rattle.std.specs.Prelude.{◌≡◌, ◌++◌, map, unwrap_or};
ghost use Rattle.std.specs.List.{list_any};
ghost use Rattle.std.specs.Str.{chars};
ghost use Rattle.fragment_types.specs.Item.{entry_of, entries_of};
ghost use Rattle.para_prepare.specs.Marks as marks;
ghost use Rattle.para_prepare.specs.Marks.{is_bidi_control};
ghost use Rattle.para_prepare.specs.White.{is_white, leads, sign_of, signs};

use fragment_types::Item;

/// Whether content comes first in the rest of a text and the items behind it: white space, inline boxes' ends and bidi
/// controls are passed over, a line break is an end.
pub(crate) fn leads(rest: &str, behind: &[Item]) -> bool
    ensures { result ≡ leads (map sign_of (chars rest.now) ++ signs (entries_of behind.now)) }
{
    has_content(rest) || leads_in(behind)
}

// Whether content comes first in these items: white space, inline boxes' ends and bidi controls are passed over, a
// line break is an end.
fn leads_in(items: &[Item]) -> bool
    ensures { result ≡ leads (signs (entries_of items.now)) }
{
    for item in items {
        if let Some(leads) = tells(item) {
            return leads;
        }
    }
    false
}

// Whether content comes first in what stands from this item on, where the item tells it by itself.
fn tells(item: &Item) -> Option<bool>
    ensures { result ≡ marks.tells (entry_of item.now) }
{
    match item {
        Item::Text { text, .. } => {
            if has_content(text.as_str()) {
                Some(true)
            } else {
                None
            }
        }
        Item::Open { .. } | Item::Close { .. } => None,
        Item::Atom { .. } => Some(true),
        Item::Break { .. } => Some(false),
    }
}

// Whether a text has a character that is content.
fn has_content(text: &str) -> bool
    ensures { result ≡ list_any marks.is_content (chars text.now) }
{
    text.chars().any(
        |c: char| -> bool
            ensures { result ≡ marks.is_content c }
        { is_content(c) },
    )
}

// A character that is neither white space nor a bidi control.
fn is_content(c: char) -> bool
    ensures { result ≡ marks.is_content c }
{
    !is_white(c) && !is_bidi_control(c)
}

/// Is it a tab, a line feed, a form feed, a carriage return or a space? One comparison tells it from a letter.
pub(crate) fn is_white(c: char) -> bool
    ensures { result ≡ is_white c }
{
    c <= ' ' && matches!(c, ' ' | '\n' | '\t' | '\u{C}' | '\r')
}

/// The bidi controls of the repertoire. One comparison tells them from Latin letters.
pub(crate) fn is_bidi_control(c: char) -> bool
    ensures { result ≡ is_bidi_control c }
{
    c >= '\u{61C}'
        && matches!(
            c,
            '\u{61C}' | '\u{200E}'..='\u{200F}' | '\u{202A}'..='\u{202E}' | '\u{2066}'..='\u{2069}'
        )
}
