//! The values that won for an element, and what they say of a property (CSS 2, 6.1.1).

ghost use Rattle.std.specs.Prelude.{◌≡◌, IfSome, nat_eq};
ghost use Rattle.css_types.specs.Property.{place_of};
ghost use Rattle.css_types.specs.Value.{HasSayable};
ghost use Rattle.computed.specs.Winners as winning;
ghost use Rattle.computed.specs.Winners.{AreMarked, AreSayable, AreSayable-prop};

use css_types::{PROPERTY_COUNT, Property, Value, Winners};
use defaulting::specified;

// A mark for each property of the table, by its place.
type Marks = [bool; PROPERTY_COUNT];

/// The values that won, with numbers such as a style sheet can say, and which properties have one: most have none, and
/// these are seen without a search.
#[derive(Drop)]
pub struct Marked<'a> {
    pub list: &'a Winners,
    marks: Marks,

    ghost are_marked: { AreMarked marks list.now.items },
    ghost are_sayable: { AreSayable list.now.items } by { AreSayable-prop list.now.items },
}

impl<'a> Marked<'a> {
    /// These winners with their marks.
    pub fn of(list: &'a Winners) -> Marked<'a>
        requires sayable { AreSayable list.now.items }
        ensures { result.list.now ≡ list.now }
    {
        let marks = marks_of(list);
        Marked { list, marks }
    }
}

fn marks_of(winners: &[(Property, Value)]) -> Marks
    ensures { AreMarked result winners.now }
{
    let mut marks = [false; PROPERTY_COUNT];
    for winner in winners {
        marks[winner.0.place()] = true;
    }
    marks
}

/// The value that won for a property, if one did.
#[tactic(auto, unfolding(crate::specs::Winners::won))]
pub fn won(winners: &Marked, property: Property) -> Option<Value>
    ensures value { result ≡ winning.won winners.now.list.now.items property }
    ensures sayable { IfSome result HasSayable }
{
    if !winners.marks[property.place()] {
        return None;
    }
    let winner = winners.list.iter().find(
        |winner| -> bool
            ensures { result ≡ nat_eq (place_of winner.now.now.0) (place_of property) }
        { winner.0.place() == property.place() },
    )?;
    Some(winner.1)
}

/// The specified value of a property; `None` is the parent's.
#[tactic(auto, unfolding(crate::specs::Winners::said))]
pub fn said(winners: &Marked, property: Property) -> Option<Value>
    ensures value { result ≡ winning.said winners.now.list.now.items property }
    ensures sayable { IfSome result HasSayable }
{
    specified(property, won(winners, property))
}
