//! What a class is to the rules that look for strong characters and for matching PDIs (UAX 9, BD9, P2 and P3).

ghost use Rattle.std.specs.Prelude.{◌≡◌};
ghost use Rattle.bidi_explicit.specs.Isolates.{kind_of};

use wm_chars::BidiClass;

#[derive(Clone, Copy)]
pub(crate) enum Kind {
    // A strong character, with the level that P3 gives for it.
    Strong(u8),
    // An isolate initiator.
    Opens,
    // A PDI.
    Closes,
    Other,
}

pub(crate) fn kind_of(class: BidiClass) -> Kind
    ensures { result ≡ kind_of class }
{
    match class {
        BidiClass::L => Kind::Strong(0),
        BidiClass::R | BidiClass::AL => Kind::Strong(1),
        BidiClass::PDI => Kind::Closes,
        _ => {
            if class.is_isolate_initiator() {
                Kind::Opens
            } else {
                Kind::Other
            }
        }
    }
}
