//! The default sheet (docs/PROFILE/sheets.md).

ghost use Rattle.std.specs.Prelude.{◌≡◌, IfOk};
ghost use Rattle.css_sheet.specs.Default.{IsDefault, default_rules};
ghost use Rattle.css_types.specs.Rule.{rulings_of};

use crate::sheet::{empty, read_into};
use css_types::Rules;
use std::alloc::{AllocError, Global};

/// What elements look like before an author's sheet says otherwise.
pub static DEFAULT_SHEET: &str = "\
html, body, div, section, article, header, footer, main, nav, aside, address, p, h1, h2, h3, h4, h5, h6, \
blockquote, figure, figcaption, ul, ol, li { display: block }
body { margin-block: 8px; margin-inline: 8px }
p, ul, ol { margin-block: 1em }
blockquote, figure { margin-block: 1em; margin-inline: 40px }
ul, ol { padding-inline-start: 40px }
h1 { font-size: 2em; margin-block: 0.67em }
h2 { font-size: 1.5em; margin-block: 0.83em }
h3 { font-size: 1.17em; margin-block: 1em }
h4 { margin-block: 1.33em }
h5 { font-size: 0.83em; margin-block: 1.67em }
h6 { font-size: 0.67em; margin-block: 2.33em }
";

/// The rules of the default sheet. The places of their declarations are in its text. Only want of memory is an error.
/// It reads the text: a caller that asks often keeps the rules.
pub fn default_sheet(alloc: Global) -> Result<Rules, AllocError>
    ensures { IfOk result (λ rules. rulings_of rules.items ≡ default_rules) }
{
    let mut sheet = empty(alloc);
    match read_into(alloc, DEFAULT_SHEET.len(), &mut sheet, DEFAULT_SHEET) {
        Ok(_) => Ok(sheet.rules),
        Err(_) => Err(AllocError),
    }
}

/// A law: the text of the default sheet is read as exactly its rules.
pub fn default_is_read()
    ensures { IsDefault }
{}
