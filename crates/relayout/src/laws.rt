//! Laws of what is kept in an arena of boxes. These functions do nothing: their contracts are the laws.

ghost use Rattle.relayout.specs.Laws.{AttachedIsRight, BareIsRight, DetachedIsRight, DroppedIsRight, ForgottenIsRight, KeptIsRight, KeptTextIsRight, MarkedIsRight, RestyledAlikeIsRight, RestyledIsRight, ReusedIsRight};
ghost use Rattle.relayout.specs.Named.{BareIsFounded, CountsAreByName, ReusedIsFound};
ghost use Rattle.relayout.specs.Sized.{LayoutsAreSized};

/// Where nothing is kept, all that is kept is right; so it is where all is forgotten.
pub fn what_is_not_kept_is_right()
    ensures bare { BareIsRight }
    ensures forgotten { ForgottenIsRight }
{}

/// A result that is right is kept, or a text: then all that is kept is right if it was.
pub fn what_is_kept_is_right()
    ensures results { KeptIsRight }
    ensures texts { KeptTextIsRight }
{}

/// A box is marked with all above it: what is kept is right if that of all others was.
pub fn what_is_kept_is_right_after_a_mark()
    ensures marked { MarkedIsRight }
    ensures dropped { DroppedIsRight }
{}

/// A box is put anew: what is kept for those inside it is right where its mode and its direction are to them what they were.
pub fn what_is_kept_is_right_after_a_restyle()
    ensures each { RestyledIsRight }
    ensures alike { RestyledAlikeIsRight }
{}

/// A box is attached: what is kept is right but for that box itself, where the mode or the direction around it changes.
pub fn what_is_kept_is_right_after_an_attach()
    ensures { AttachedIsRight }
{}

/// A box is detached: what is kept is right but for that box itself, where the mode or the direction around it changes.
pub fn what_is_kept_is_right_after_a_detach()
    ensures { DetachedIsRight }
{}

/// What is kept of boxes goes to another arena, for those that stand there as they did: it is right there too.
pub fn what_is_reused_is_right()
    ensures { ReusedIsRight }
{}

/// In a view whose block size is from 0 to 2^32 units of 1/64 px, so are the sizes of all content areas, and each block size that is
/// definite.
pub fn contents_have_sizes()
    ensures { LayoutsAreSized }
{}

/// What `relayout` says of its counters by keys holds by the names of boxes too; and where all that is met is kept, each text and each
/// result of a page is found by its name.
pub fn counts_are_by_name()
    ensures { CountsAreByName }
{}

/// What is kept of the boxes of an earlier page, and goes to those of a page that stand as they did, is found for them, with all on
/// which it rests.
pub fn what_is_reused_is_found()
    ensures reused { ReusedIsFound }
    ensures bare { BareIsFounded }
{}
