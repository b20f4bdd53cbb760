//! What a document is refused for.

ghost use Rattle.std.specs.Prelude.{◌≡◌, ◌≤◌, length};
ghost use Rattle.html_tokens.specs.Error.{kind_word};
ghost use Rattle.html_tokens.specs.declared.error.Refusal.TheVariants as Refusals;

use reading::Kind;

/// What is wrong with a document (docs/PROFILE/html.md).
#[derive(Clone, Copy, Debug, Drop, PartialEq, Eq)]
pub enum Refusal {
    /// The bytes are not UTF-8.
    Utf8,
    /// A character of a text is not in the repertoire.
    Character,
    /// The bytes don't go on as a document does.
    Syntax,
    /// A tag that the profile doesn't have.
    UnknownTag,
    /// An attribute that the profile doesn't have.
    UnknownAttribute,
    /// An end tag of another name than the open element's.
    Nesting,
    /// A value of `dir` other than `ltr` and `rtl`.
    Unsupported,
}

impl Refusal {
    /// The word that a line of refusal has for it.
    #[tactic(auto, unfolding(crate::specs::Error::kind_word))]
    pub fn word(self) -> &'static str
        ensures word { result.now ≡ kind_word self }
        ensures short { length result.now ≤ 16 }
    {
        match self {
            Refusal::Utf8 => "Utf8",
            Refusal::Character => "Character",
            Refusal::Syntax => "Syntax",
            Refusal::UnknownTag => "UnknownTag",
            Refusal::UnknownAttribute => "UnknownAttribute",
            Refusal::Nesting => "Nesting",
            Refusal::Unsupported => "Unsupported",
        }
    }
}

impl Kind for Refusal {
    ghost syntax = { Refusals.Syntax };

    fn syntax() -> Refusal {
        Refusal::Syntax
    }
}
