//! Where nodes stand: what they have of those above them.

ghost use Rattle.std.specs.Prelude.{◌≡◌};
ghost use Rattle.style_types.specs.Style.{IsBounded};
ghost use Rattle.dom_store.specs.State.{what_of};
ghost use Rattle.box_limits.specs.Lines as lines;
ghost use Rattle.box_limits.specs.Judging.{found_there};

use crate::role::role_of;
use box_gen::{Found, Site};
use dom_store::NodeKind;
use style_types::Style;

/// Where those nodes stand that are in an element.
#[derive(Clone, Copy)]
pub(crate) struct Place {
    /// The element's style, which they inherit.
    pub style: Style,
    /// What their boxes have of those above.
    pub site: Site,
}

impl Place {
    /// Beside `body`, where nothing stands.
    pub(crate) fn outside() -> Place
        ensures value { result ≡ lines.outside }
        ensures bounded { IsBounded result.style }
    {
        let style = Style::initial();
        Place {
            style,
            site: Site::hidden(style.mode),
        }
    }

    /// Where `body` stands, which has this style.
    pub(crate) fn of_body(style: &Style) -> Place
        requires { IsBounded style.now }
        ensures value { result ≡ lines.place_of_body style.now }
        ensures bounded { IsBounded result.style }
    {
        Place {
            style: *style,
            site: Site::in_root(style.mode),
        }
    }

    /// In a node of this style that stands here.
    pub(crate) fn in_node(&self, kind: &NodeKind, style: &Style) -> Place
        requires { IsBounded style.now }
        ensures value { result ≡ lines.place_in (what_of kind.now) style.now self.now }
        ensures bounded { IsBounded result.style }
    {
        Place {
            style: *style,
            site: self.site.in_node(role_of(kind, style), style.mode),
        }
    }

    /// What is found of a node of this number and style that stands here, without those inside it.
    pub(crate) fn found_at(&self, number: u32, kind: &NodeKind, style: &Style) -> Found
        ensures { result ≡ found_there number (what_of kind.now) style.now self.now.site }
    {
        let role = role_of(kind, style);
        Found::at(number, self.site.is_past(role, style.mode))
    }
}
