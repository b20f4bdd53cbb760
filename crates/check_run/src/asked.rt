//! A face that counts how often it is asked.

ghost use Rattle.face_api.specs.Kinds.{wide_table};

use face_api::{Face, FaceError, Metrics, WideFace};
use std::cell::Cell;
use std::rc::Rc;

/// A face of squares that counts how often it is asked.
#[derive(Drop)]
pub(crate) struct AskedFace {
    face: WideFace,
    asked: Rc<Cell<u32>>,
}

impl AskedFace {
    /// A face that counts in this cell.
    pub(crate) fn new(asked: Rc<Cell<u32>>) -> AskedFace {
        AskedFace {
            face: WideFace::new(),
            asked,
        }
    }

    fn count(&self) {
        self.asked.set(self.asked.get().wrapping_add(1));
    }
}

impl Face for AskedFace {
    ghost table = { λ _. wide_table };

    fn metrics(&self) -> Metrics {
        self.count();
        self.face.metrics()
    }

    fn advance(&self, c: char, upright: bool) -> u32 {
        self.count();
        self.face.advance(c, upright)
    }

    fn set(&mut self, c: char, upright: bool, value: u32) -> Result<(), FaceError> {
        self.face.set(c, upright, value)
    }
}
