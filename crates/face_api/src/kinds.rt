//! The kinds of face that are there without a host: two whose characters differ only in being wide or not, and
//! one that can be changed.

ghost use Rattle.std.specs.Prelude.{◌≡◌, IfOk};
ghost use Rattle.face_api.specs.Kinds.{mono_table, wide_table, first_table};

use crate::{Defaults, Face, FaceError, FaceTable, Metrics, Row};
use std::alloc::{AllocError, Global};
use std::marker::Model;

/// A face whose characters are half as wide as high, and wide ones as wide as high. It is fixed.
#[derive(Drop)]
pub struct MonoFace;

/// A face whose characters are as wide as high. It is fixed.
#[derive(Drop)]
pub struct WideFace;

/// A face as `MonoFace`, but flatter, with a narrow `i` and a broad `m`. Its advances can be changed.
#[derive(Drop)]
pub struct TableFace {
    table: FaceTable,
}

const MONO: Defaults = Defaults {
    narrow: 500,
    wide: 1000,
    upright: 1000,
};

const WIDE: Defaults = Defaults {
    narrow: 1000,
    wide: 1000,
    upright: 1000,
};

const FIRST_ROWS: [Row; 2] = [
    Row {
        character: 'i',
        upright: false,
        value: 250,
    },
    Row {
        character: 'm',
        upright: false,
        value: 750,
    },
];

impl Model for TableFace {
    ghost use Rattle.face_api.specs.Table.{Table};

    ghost Value = { Table };

    ghost view = { λ face. face.table };
}

impl MonoFace {
    /// Takes no memory.
    pub fn new() -> MonoFace {
        MonoFace
    }
}

impl WideFace {
    /// Takes no memory.
    pub fn new() -> WideFace {
        WideFace
    }
}

impl TableFace {
    /// The face with its first two rows.
    pub fn new(alloc: Global) -> Result<TableFace, AllocError>
        ensures { IfOk result (λ face. face ≡ first_table) }
    {
        let metrics = Metrics {
            ascent: 625,
            descent: 250,
        };
        let table = FaceTable::with_rows(alloc, metrics, MONO, &FIRST_ROWS)?;
        Ok(TableFace { table })
    }
}

impl Face for MonoFace {
    ghost table = { λ _. mono_table };

    fn metrics(&self) -> Metrics {
        Metrics {
            ascent: 750,
            descent: 250,
        }
    }

    #[tactic(auto, unfolding(crate::specs::Table::advance_of))]
    fn advance(&self, c: char, upright: bool) -> u32 {
        MONO.of(c, upright)
    }

    fn set(&mut self, _c: char, _upright: bool, _value: u32) -> Result<(), FaceError> {
        Err(FaceError::Fixed)
    }
}

impl Face for WideFace {
    ghost table = { λ _. wide_table };

    fn metrics(&self) -> Metrics {
        Metrics {
            ascent: 875,
            descent: 125,
        }
    }

    #[tactic(auto, unfolding(crate::specs::Table::advance_of))]
    fn advance(&self, c: char, upright: bool) -> u32 {
        WIDE.of(c, upright)
    }

    fn set(&mut self, _c: char, _upright: bool, _value: u32) -> Result<(), FaceError> {
        Err(FaceError::Fixed)
    }
}

impl Face for TableFace {
    ghost table = { λ face. face };

    fn metrics(&self) -> Metrics {
        self.table.metrics()
    }

    fn advance(&self, c: char, upright: bool) -> u32 {
        self.table.advance(c, upright)
    }

    fn set(&mut self, c: char, upright: bool, value: u32) -> Result<(), FaceError> {
        self.table.set(c, upright, value)
    }
}
