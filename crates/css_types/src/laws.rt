//! Laws of the table of properties. These functions do nothing: their contracts are the laws.

ghost use Rattle.css_types.specs.Laws.{AllListed, OnlyRows, PairUp, TextInherited};

/// Each property has a row.
pub fn all_are_listed()
    ensures { AllListed }
{}

/// Each property has no other row.
pub fn rows_are_the_only_ones()
    ensures { OnlyRows }
{}

/// The inherited properties are those that say how text is set.
pub fn text_is_inherited()
    ensures { TextInherited }
{}

/// In every mode and used direction, exactly one property of the page stands for each property of the flow,
/// and each property of the page that is about a side or an axis stands for one.
pub fn flow_and_page_pair_up()
    ensures { PairUp }
{}
