//! Grapheme clusters and where they stand (UAX 29, 3.1.1).

ghost use Rattle.std.specs.Prelude.{◌≡◌, ◌+◌, ◌≤◌, ◌^◌, length, slice_index_or};
ghost use Rattle.std.specs.Str.{chars};
ghost use Rattle.cluster_units.specs.Cluster as clusters;
ghost use Rattle.cluster_units.specs.Cluster.{cluster_of};

/// A grapheme cluster in a text: the place of its first character, the place after its last, and its first
/// character.
#[derive(Clone, Copy)]
pub(crate) struct Cluster {
    pub(crate) first: usize,
    pub(crate) end: usize,
    pub(crate) head: char,
}

impl Cluster {
    // Whether it has several characters.
    pub(crate) fn is_several(self) -> bool
        ensures { result ≡ clusters.is_several self }
    {
        self.end > self.first.saturating_add(1)
    }

    // Whether it is the single character U+0020.
    pub(crate) fn is_space(self) -> bool
        ensures { result ≡ clusters.is_space self }
    {
        self.head == ' ' && !self.is_several()
    }

    // Whether it is a single ASCII digit.
    pub(crate) fn is_digit(self) -> bool
        ensures { result ≡ clusters.is_digit self }
    {
        matches!(self.head, '0'..='9') && !self.is_several()
    }
}

// The cluster that stands at this place and has these characters.
pub(crate) fn cluster_at(place: usize, piece: &str) -> Cluster
    requires { place + length (chars piece.now) ≤ 2 ^ 32 }
    ensures { result ≡ cluster_of place (chars piece.now) }
{
    Cluster {
        first: place,
        end: place + count_of(piece),
        head: head_of(piece),
    }
}

// The first character, or U+0000 where there is none.
fn head_of(piece: &str) -> char
    ensures { result ≡ slice_index_or (chars piece.now) 0 0 }
{
    piece.chars().next().unwrap_or('\0')
}

// How many characters it has.
fn count_of(piece: &str) -> usize
    ensures { result ≡ length (chars piece.now) }
{
    piece.chars().count()
}
