//! The attributes of the profile (docs/PROFILE/html.md).

ghost use Rattle.std.specs.Prelude.{◌≡◌};
ghost use Rattle.reading.specs.Readers.{starts};
ghost use Rattle.reading.specs.Names.{lowered};
ghost use Rattle.html_tokens.specs.Attribute.{role_of};

use reading::named;

/// What an attribute is for.
#[derive(Clone, Copy, Debug, PartialEq, Eq)]
pub enum Role {
    Id,
    Class,
    Style,
    Dir,
    /// It is read, and says nothing to the layout.
    Ignored,
}

/// The attributes by their names. Those whose names begin with `data-` or `aria-` are ignored too.
pub static ATTRIBUTES: [(&str, Role); 13] = [
    ("id", Role::Id),
    ("class", Role::Class),
    ("style", Role::Style),
    ("dir", Role::Dir),
    ("lang", Role::Ignored),
    ("title", Role::Ignored),
    ("href", Role::Ignored),
    ("charset", Role::Ignored),
    ("name", Role::Ignored),
    ("content", Role::Ignored),
    ("http-equiv", Role::Ignored),
    ("type", Role::Ignored),
    ("role", Role::Ignored),
];

/// What an attribute of this name is for, in either case; None where the profile has none of it.
#[tactic(auto, unfolding(crate::specs::Attribute::role_of, crate::specs::Attribute::roles))]
pub fn role_of(name: &str) -> Option<Role>
    ensures { result ≡ role_of (lowered name.now) }
{
    if begins("data-", name) || begins("aria-", name) {
        return Some(Role::Ignored);
    }
    named(&ATTRIBUTES, name)
}

// The name, in small letters, begins with this text.
#[tactic(auto, using(reading::proofs::Names::lowered_starts))]
fn begins(word: &str, name: &str) -> bool
    ensures { result ≡ starts word.now (lowered name.now) }
{
    reading::strip_either_case(word, name).is_ok()
}
