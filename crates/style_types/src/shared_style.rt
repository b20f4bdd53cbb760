//! A style that is shared.

ghost use Rattle.std.specs.Prelude.{◌≡◌, IfOk};

use crate::style::Style;
use std::alloc::{AllocError, Global};
use std::marker::Model;
use std::ops::Deref;
use std::rc::Rc;

/// The style of an element, which the nodes of its texts and the items of a paragraph share: a style takes 360 bytes.
/// A contract sees it as the style.
#[derive(Debug, Drop)]
pub struct SharedStyle {
    shared: Rc<Style>,
}

impl Model for SharedStyle {
    ghost use Rattle.style_types.specs.declared.style.Style.{Style};

    ghost Value = { Style };

    ghost view = { λ style. style.shared.value };
}

impl SharedStyle {
    /// A style to be shared.
    pub fn new(alloc: Global, style: Style) -> Result<SharedStyle, AllocError>
        ensures { IfOk result (λ shared. shared ≡ style) }
    {
        Ok(SharedStyle {
            shared: Rc::new(alloc, style)?,
        })
    }
}

impl Deref for SharedStyle {
    type Target = Style;

    ghost deref_gives = { λ shared style. style ≡ shared };

    fn deref(&self) -> &Style {
        &self.shared
    }
}

impl Clone for SharedStyle {
    ghost is_clone = { λ style copy. copy ≡ style };

    fn clone(&self) -> Result<SharedStyle, AllocError> {
        Ok(SharedStyle {
            shared: self.shared.clone()?,
        })
    }
}
