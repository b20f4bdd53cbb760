//! Laws of pages in which a text gets other letters. These functions do nothing: their contracts are the laws.

ghost use Rattle.text_boxes.specs.Laws.{TextsAreSetInArenas, TextsAreSetInPages};

use relayout::laws::what_is_kept_is_right_after_a_restyle;

/// The styled tree of a document in which a text gets other letters is the one that it was, with these letters, and so are the boxes of
/// its page, where the letters are white space alone exactly where the old ones are.
pub fn texts_are_set_in_pages()
    ensures { TextsAreSetInPages }
{}

/// Where a text is set in the boxes of a page that stand in an arena, the page with its letters stands there, and what is kept is right.
/// All that was found for that page before is found for it still.
pub fn texts_are_set_in_arenas()
    ensures { TextsAreSetInArenas }
{
    what_is_kept_is_right_after_a_restyle();
}
