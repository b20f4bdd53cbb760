//! The table that a face means.

ghost use Rattle.std.specs.Prelude.{◌≡◌, ◌≤◌, [], true, false, IfOk};
ghost use Rattle.face_api.specs.Table.{Table, IsTable, default_of};

use crate::rows::{put, value_of};
use crate::{Defaults, Face, FaceError, Metrics, Row};
use std::alloc::{AllocError, Global};
use std::marker::Model;

/// A face that is a table: defaults, and rows that can be put and replaced until it is fixed. Finding a row
/// takes a search by halves.
#[derive(Drop)]
pub struct FaceTable {
    metrics: Metrics,
    defaults: Defaults,
    rows: Vec<Row>,
    fixed: bool,
}

impl Model for FaceTable {
    ghost use Rattle.face_api.specs.Table.{Table, IsTable, table_of};

    ghost Value = { Table };

    ghost view = { λ t. table_of t.metrics t.defaults t.rows.items t.fixed };

    ghost invariant = { λ t. IsTable (table_of t.metrics t.defaults t.rows.items t.fixed) };
}

impl FaceTable {
    ghost use Rattle.face_api.specs.Table.{table_of};

    /// A table without rows that isn't fixed. Takes no memory. Ascent and descent are at most 4,000, the
    /// defaults at most 10,000.
    pub fn new(alloc: Global, metrics: Metrics, defaults: Defaults) -> FaceTable
        requires ascent { metrics.ascent ≤ 4000 }
        requires descent { metrics.descent ≤ 4000 }
        requires narrow { defaults.narrow ≤ 10000 }
        requires wide { defaults.wide ≤ 10000 }
        requires upright { defaults.upright ≤ 10000 }
        ensures { result ≡ table_of metrics defaults [] false }
    {
        FaceTable {
            metrics,
            defaults,
            rows: Vec::new(alloc),
            fixed: false,
        }
    }

    // A table with these rows, which ascend, and that isn't fixed.
    pub(crate) fn with_rows(
        alloc: Global,
        metrics: Metrics,
        defaults: Defaults,
        rows: &[Row],
    ) -> Result<FaceTable, AllocError>
        requires { IsTable (table_of metrics defaults rows.now false) }
        ensures { IfOk result (λ table. table ≡ table_of metrics defaults rows.now false) }
    {
        let mut own = Vec::new(alloc);
        own.extend_from_slice(rows)?;
        Ok(FaceTable {
            metrics,
            defaults,
            rows: own,
            fixed: false,
        })
    }

    /// Fixes the table: no row is put or replaced from now on. Takes no memory.
    pub fn fix(&mut self)
        ensures { self.new ≡ record self.old { fixed = true } }
    {
        self.fixed = true;
    }
}

impl Defaults {
    // The advance of a character that has no row.
    pub(crate) fn of(self, c: char, upright: bool) -> u32
        ensures { result ≡ default_of self c upright }
    {
        if upright {
            self.upright
        } else if c >= '\u{2E80}' {
            self.wide
        } else {
            self.narrow
        }
    }
}

impl Face for FaceTable {
    ghost table = { λ face. face };

    fn metrics(&self) -> Metrics {
        self.metrics
    }

    #[tactic(auto, unfolding(crate::specs::Table::advance_of))]
    fn advance(&self, c: char, upright: bool) -> u32 {
        match value_of(&self.rows, c, upright) {
            Some(value) => value,
            None => self.defaults.of(c, upright),
        }
    }

    #[tactic(auto, unfolding(crate::specs::Table::set_row))]
    fn set(&mut self, c: char, upright: bool, value: u32) -> Result<(), FaceError> {
        if self.fixed {
            return Err(FaceError::Fixed);
        }
        let row = Row {
            character: c,
            upright,
            value,
        };
        put(&mut self.rows, row)
    }
}
