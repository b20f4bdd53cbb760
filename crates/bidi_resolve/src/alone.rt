//! A sequence of one character: nothing stands beside it but sos and eos, so each rule is told by its class alone (UAX 9,
//! 3.3.4 to 3.3.6).

ghost use Rattle.bidi_resolve.specs.Sequence as sequence;
ghost use Rattle.std.specs.Prelude.{ℕ, ◌≡◌, ◌∷◌, []};
ghost use Rattle.wm_chars.specs.declared.classes.BidiClass.{BidiClass};

use crate::isolating::Frame;
use crate::neutral::{n1_class, n2_class};
use crate::weak::{w1_class, w2_class, w3_class, w6_class, w7_class};
use wm_chars::BidiClass;

/// The class by all rules of a character that is a whole sequence.
pub(crate) fn alone(class: BidiClass, frame: Frame) -> BidiClass
    ensures { (char : ℕ) → (original : BidiClass) → sequence.resolved frame.level frame.sos frame.eos (char ∷ []) (original ∷ []) (class ∷ []) ≡ result ∷ [] }
{
    let weak = weak_alone(class, frame.sos);
    n2_class(frame.level, n1_class(frame.sos, weak, frame.eos))
}

// W1 to W7. W4 and W5 change nothing, since no number stands beside the character.
#[tactic(auto, using(crate::proofs::AloneLaws::weak_alone))]
fn weak_alone(class: BidiClass, sos: BidiClass) -> BidiClass
    ensures { sequence.weak sos (class ∷ []) ≡ result ∷ [] }
{
    let marked = w1_class(sos, class);
    let counted = w2_class(sos, marked);
    w7_class(sos, w6_class(w3_class(counted)))
}
