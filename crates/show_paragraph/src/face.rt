//! A face of the program's own.

ghost use Rattle.show_paragraph.specs.Face.{grid_table};

use face_api::{Face, FaceError, Metrics};

/// A face on a grid: East Asian characters and upright ones fill a square, others half of one.
#[derive(Drop)]
pub(crate) struct GridFace;

impl Face for GridFace {
    ghost table = { λ _. grid_table };

    fn metrics(&self) -> Metrics {
        Metrics {
            ascent: 750,
            descent: 250,
        }
    }

    #[tactic(auto, unfolding(face_api::specs::Table::advance_of))]
    fn advance(&self, c: char, upright: bool) -> u32 {
        if upright || c >= '\u{2E80}' {
            1000
        } else {
            500
        }
    }

    fn set(&mut self, _c: char, _upright: bool, _value: u32) -> Result<(), FaceError> {
        Err(FaceError::Fixed)
    }
}
