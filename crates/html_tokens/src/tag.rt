//! The tags of the profile (docs/PROFILE/html.md).

ghost use Rattle.std.specs.Prelude.{◌≡◌, ◌<◌, ℕ, List, length, map, get_or};
ghost use Rattle.reading.specs.Names.{lowered};
ghost use Rattle.html_tokens.specs.Tag.{IsNameOf, is_void, name_of, tag_named};

use reading::{named, same_name};

/// The tag of an element.
#[derive(Clone, Copy, Debug, PartialEq, Eq)]
pub enum Tag {
    Html,
    Body,
    Div,
    Section,
    Article,
    Header,
    Footer,
    Main,
    Nav,
    Aside,
    Address,
    P,
    H1,
    H2,
    H3,
    H4,
    H5,
    H6,
    Blockquote,
    Figure,
    Figcaption,
    Ul,
    Ol,
    Li,
    Span,
    A,
    B,
    Strong,
    I,
    Em,
    U,
    S,
    Small,
    Code,
    Abbr,
    Cite,
    Mark,
    Bdo,
    Br,
}

impl Tag {
    /// The name, in small letters.
    pub fn name(self) -> &'static str
        ensures row { IsNameOf result.now self }
        ensures name { result.now ≡ name_of self }
    {
        name_at(&TAGS, self as usize)
    }
}

// The name that stands at this place of a table.
fn name_at(table: &[(&'static str, Tag)], place: usize) -> &'static str
    requires { place < length table.now }
    ensures { (other : List ℕ × Tag) → result.now ≡ (get_or (map (λ row. (row.0.now, row.1)) table.now) place other).0 }
{
    table[place].0
}

/// The tags by their names, in the order of `Tag`: `html` and `body`, and behind them those that may stand in `body`,
/// which are block tags, inline tags, and `br`.
pub static TAGS: [(&str, Tag); 39] = [
    ("html", Tag::Html),
    ("body", Tag::Body),
    ("div", Tag::Div),
    ("section", Tag::Section),
    ("article", Tag::Article),
    ("header", Tag::Header),
    ("footer", Tag::Footer),
    ("main", Tag::Main),
    ("nav", Tag::Nav),
    ("aside", Tag::Aside),
    ("address", Tag::Address),
    ("p", Tag::P),
    ("h1", Tag::H1),
    ("h2", Tag::H2),
    ("h3", Tag::H3),
    ("h4", Tag::H4),
    ("h5", Tag::H5),
    ("h6", Tag::H6),
    ("blockquote", Tag::Blockquote),
    ("figure", Tag::Figure),
    ("figcaption", Tag::Figcaption),
    ("ul", Tag::Ul),
    ("ol", Tag::Ol),
    ("li", Tag::Li),
    ("span", Tag::Span),
    ("a", Tag::A),
    ("b", Tag::B),
    ("strong", Tag::Strong),
    ("i", Tag::I),
    ("em", Tag::Em),
    ("u", Tag::U),
    ("s", Tag::S),
    ("small", Tag::Small),
    ("code", Tag::Code),
    ("abbr", Tag::Abbr),
    ("cite", Tag::Cite),
    ("mark", Tag::Mark),
    ("bdo", Tag::Bdo),
    ("br", Tag::Br),
];

/// `br` has no end tag.
#[tactic(auto, unfolding(crate::specs::Tag::is_void))]
pub fn is_void(name: &str) -> bool
    ensures { result ≡ is_void (lowered name.now) }
{
    same_name(name, "br")
}

/// The tag of a name that may stand in `body`.
#[tactic(auto, unfolding(crate::specs::Tag::tag_named, crate::specs::Tag::body_tags))]
pub fn tag_named(name: &str) -> Option<Tag>
    ensures { result ≡ tag_named (lowered name.now) }
{
    named(&TAGS[2..], name)
}
