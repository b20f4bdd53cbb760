//! Declarations as a style sheet writes them: properties, values, keywords and shorthands in one set of tables, and
//! selectors and rules (CSS 2; CSS Writing Modes 4; CSS Logical Properties 1). Plain data with public fields.
#![tactic(auto)]

mod copies;
mod keyword;
pub mod laws;
mod lists;
mod page;
mod property;
mod reach;
mod refusal;
mod rule;
mod shorthand;
mod table;
mod value;

pub use copies::{copy_of_rule, copy_of_rules, copy_of_selector};
pub use keyword::{Keyword, Keywords, WIDTH_NAMES, WORDS};
pub use lists::{Declarations, Parts, Rules, Styles, Winners};
pub use page::page_property;
pub use property::Property;
pub use reach::{Axis, AxisFamily, FlowAxis, Reach, SideFamily, on_page};
pub use refusal::{REFUSALS, Refused};
pub use rule::{Joint, Part, Rule, Selector, Styled};
pub use shorthand::{Longhands, SHORTHANDS, Shorthand};
pub use table::{
    INSETS, LINES, MARGINS, More, PADDINGS, PROPERTIES, PROPERTY_COUNT, PropertyRow, Range, Values,
    WIDTHS,
};
pub use value::{Declaration, Value};
