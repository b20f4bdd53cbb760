//! Rules of style sheets: their copies.

use css_types::{Declaration, Joint, Part, Property, Rule, Selector, Value, copy_of_rules};
use std::rc::Rc;
use std::test::*;

#[test]
fn copies_are_made(rt: HostRuntime) -> Result<(), Fail> {
    let alloc = rt.alloc();
    let mut class = String::new(alloc);
    class.push_str("narrow")?;
    let mut classes = Vec::new(alloc);
    classes.push(class)?;
    let mut parts = Vec::new(alloc);
    parts.push(Part {
        joint: Joint::Descendant,
        tag: None,
        classes,
        ids: Vec::new(alloc),
    })?;
    let mut declarations = Vec::new(alloc);
    declarations.push(Declaration {
        property: Property::Width,
        value: Value::Px(100),
        important: false,
        place: 3,
    })?;
    let rule = Rule {
        selector: Selector { parts },
        declarations: Rc::new(alloc, declarations)?,
    };
    let copy = copy_of_rules(alloc, std::slice::from_ref(&rule))?;
    assert_eq!(rt; copy.len(), 1);
    Ok(())
}
