//! Units that are made one after the other, and the run at their end that may come to be combined (CSS Writing Modes 4, 9.1).

ghost use Rattle.std.specs.Prelude.{◌≡◌, ◌+◌, ◌≤◌, ◌^◌, ℕ, pos, ◌≤ℤ◌, unsigned_abs, IfOk, OnOk, None, Some};
ghost use Rattle.cluster_units.specs.Gathering as made;
ghost use Rattle.cluster_units.specs.Gathering.{IsWithin, made_of};

use crate::cluster::Cluster;
use crate::single::{cluster_unit, joins, may_have, plain_advance};
use crate::{Unit, Units};
use face_api::Face;
use fragment_types::UnitKind;
use std::alloc::AllocError;
use style_types::Style;
use wm_chars::BreakClass;

/// Units that are made cluster by cluster: those so far, each of its cluster alone in the run at their end that may come to
/// be combined, if one is open.
#[derive(Drop)]
pub(crate) struct Gathering {
    units: Units,
    run: Option<OpenRun>,
}

/// A run of clusters that may come to be combined (CSS Writing Modes 4, 9.1).
#[derive(Clone, Copy)]
pub(crate) struct OpenRun {
    /// How many units stand before its own.
    start: usize,
    /// The place of its first character in the text.
    first: usize,
    /// The place after its last character.
    end: usize,
    /// What its plain advances come to.
    natural: i64,
}

impl Gathering {
    /// These units, with no open run.
    pub(crate) fn new(units: Units) -> Gathering
        ensures { made_of result ≡ record { units = units.items; run = None } }
    {
        Gathering { units, run: None }
    }

    /// Adds the next cluster, if it is a unit.
    #[inline(always)]
    pub(crate) fn add(
        &mut self,
        cluster: Cluster,
        style: &Style,
        face: &dyn Face,
    ) -> Result<(), AllocError>
        requires run { IsWithin (2 ^ 50) self.old.run }
        requires low { pos 0 ≤ℤ style.now.font_size }
        requires high { style.now.font_size ≤ℤ pos 65536 }
        ensures made { OnOk result (made_of self.new ≡ made.with_cluster style.now (table face.now) (made_of self.old) cluster) }
        ensures near { (most : ℕ) → IsWithin most self.old.run → IsWithin (most + 655360) self.new.run }
    {
        match cluster_unit(cluster, style, face) {
            None => Ok(()),
            Some(unit) if joins(cluster, style) => {
                let natural = plain_advance(cluster, style, face);
                self.join(unit, natural)
            }
            Some(unit) => self.put(unit, style),
        }
    }

    // Adds a unit that joins the run at the end, or begins one.
    fn join(&mut self, unit: Unit, natural: i64) -> Result<(), AllocError>
        requires run { IsWithin (2 ^ 50) self.old.run }
        requires natural { unsigned_abs natural ≤ 655360 }
        ensures made { OnOk result (made_of self.new ≡ made.joined (made_of self.old) unit natural) }
        ensures near { (most : ℕ) → IsWithin most self.old.run → IsWithin (most + 655360) self.new.run }
    {
        let run = run_with(self.units.len(), self.run, unit, natural);
        self.units.push(unit)?;
        self.run = Some(run);
        Ok(())
    }

    // Adds a unit that stands by itself.
    #[inline(always)]
    fn put(&mut self, unit: Unit, style: &Style) -> Result<(), AllocError>
        ensures made { OnOk result (made_of self.new ≡ made.apart style.now (made_of self.old) unit) }
        ensures near { (most : ℕ) → IsWithin most self.old.run → IsWithin (most + 655360) self.new.run }
    {
        self.close(style)?;
        self.units.push(unit)?;
        Ok(())
    }

    // Closes the run at the end: it becomes one unit where it has no more units than it may.
    #[inline(always)]
    fn close(&mut self, style: &Style) -> Result<(), AllocError>
        ensures made { OnOk result (made_of self.new ≡ record { units = made.closed style.now self.old.units.items self.old.run; run = None }) }
        ensures near { (most : ℕ) → IsWithin most self.old.run → IsWithin (most + 655360) self.new.run }
    {
        match self.run {
            Some(run) => self.close_run(run, style),
            None => Ok(()),
        }
    }

    fn close_run(&mut self, run: OpenRun, style: &Style) -> Result<(), AllocError>
        requires { self.old.run ≡ Some run }
        ensures made { OnOk result (made_of self.new ≡ record { units = made.closed style.now self.old.units.items (Some run); run = None }) }
        ensures near { self.new.run ≡ None }
    {
        self.run = None;
        if may_have(style.combine, self.units.len().saturating_sub(run.start)) {
            self.units.truncate(run.start);
            self.units.push(run.unit(style))?;
        }
        Ok(())
    }

    /// The units, once nothing more joins the run at their end.
    pub(crate) fn finish(self, style: &Style) -> Result<Units, AllocError>
        ensures { IfOk result (λ units. units.items ≡ made.closed style.now self.units.items self.run) }
    {
        let mut gathering = self;
        gathering.close(style)?;
        Ok(gathering.units)
    }
}

// The run at the end with one more unit; a new one where none is open.
fn run_with(start: usize, run: Option<OpenRun>, unit: Unit, natural: i64) -> OpenRun
    requires run { IsWithin (2 ^ 50) run }
    requires natural { unsigned_abs natural ≤ 655360 }
    ensures run { result ≡ made.run_with start run unit natural }
    ensures near { (most : ℕ) → IsWithin most run → unsigned_abs result.natural ≤ most + 655360 }
{
    match run {
        Some(run) => OpenRun {
            end: unit.end,
            natural: run.natural + natural,
            ..run
        },
        None => OpenRun {
            start,
            first: unit.first,
            end: unit.end,
            natural,
        },
    }
}

impl OpenRun {
    // The run as one unit.
    fn unit(self, style: &Style) -> Unit
        ensures { result ≡ made.run_unit style.now self }
    {
        Unit {
            first: self.first,
            end: self.end,
            kind: UnitKind::Combined,
            advance: style.font_size,
            natural: self.natural,
            break_class: BreakClass::Ideographic,
        }
    }
}
