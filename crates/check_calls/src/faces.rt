//! Faces: changes, and what is refused.

ghost use Rattle.face_api.specs.Kinds.{mono_table};

use face_api::*;
use std::cell::Cell;
use std::rc::Rc;
use std::test::*;

/// A host's own face: every character has one advance. It counts its drops in a cell that the test shares.
struct HostFace {
    drops: Rc<Cell<u32>>,
}

impl Drop for HostFace {
    fn drop(self) {
        self.drops.set(self.drops.get().wrapping_add(1));
        let HostFace { drops: _ } = self;
    }
}

impl Face for HostFace {
    ghost table = { λ _. mono_table };

    fn metrics(&self) -> Metrics {
        MonoFace.metrics()
    }

    fn advance(&self, c: char, upright: bool) -> u32 {
        MonoFace.advance(c, upright)
    }

    fn set(&mut self, _c: char, _upright: bool, _value: u32) -> Result<(), FaceError> {
        Err(FaceError::Fixed)
    }
}

#[test]
fn advances_change_until_a_face_is_full_or_retired(rt: HostRuntime) -> Result<(), Fail> {
    let alloc = rt.alloc();
    let mut boxes: Vec<Box<dyn Face>> = Vec::new(alloc);
    boxes.push(Box::new(alloc, MonoFace::new())?)?;
    boxes.push(Box::new(alloc, WideFace::new())?)?;
    boxes.push(Box::new(alloc, TableFace::new(alloc)?)?)?;
    let mut faces = Faces::new(alloc, boxes)?;
    assert_eq!(rt; faces.used(2).advance('i', false), 250);
    assert_eq!(rt; faces.set(2, 'i', false, 500), Ok(()));
    assert_eq!(rt; faces.used(2).advance('i', false), 500);
    assert_eq!(rt; faces.set(0, 'i', false, 500), Err(FacesError::Fixed));
    assert_eq!(rt; faces.set(3, 'i', false, 500), Err(FacesError::NoFace));
    for n in 0x4E00..0x4E00 + 4094 {
        assert_eq!(rt; faces.set(2, hanzi(n), false, 9), Ok(()));
    }
    assert_eq!(rt; faces.set(2, 'a', false, 9), Err(FacesError::Full));
    assert_eq!(rt; faces.set(2, 'i', true, 9), Err(FacesError::Full));
    assert_eq!(rt; faces.set(2, 'i', false, 400), Ok(()));
    assert_eq!(rt; faces.used(2).advance('i', false), 400);
    assert_eq!(rt; faces.used(2).advance('\u{5DFD}', false), 9);
    assert_eq!(rt; faces.used(2).advance('\u{5DFE}', false), 1000);
    assert_eq!(rt; faces.retire(2), Ok(()));
    assert_eq!(rt; faces.used(2).advance('m', false), 500);
    assert_eq!(rt; faces.retire(2), Err(FacesError::NoFace));
    assert_eq!(rt; faces.set(2, 'i', false, 1), Err(FacesError::NoFace));
    Ok(())
}

fn hanzi(n: u32) -> char {
    char::from_u32(n).unwrap_or('a')
}

#[test]
fn a_retired_face_is_dropped(rt: HostRuntime) -> Result<(), Fail> {
    let alloc = rt.alloc();
    let drops = Rc::new(alloc, Cell::new(0))?;
    let mut boxes: Vec<Box<dyn Face>> = Vec::new(alloc);
    boxes.push(Box::new(alloc, MonoFace::new())?)?;
    boxes.push(Box::new(
        alloc,
        HostFace {
            drops: drops.clone()?,
        },
    )?)?;
    boxes.push(Box::new(
        alloc,
        HostFace {
            drops: drops.clone()?,
        },
    )?)?;
    let mut faces = Faces::new(alloc, boxes)?;
    assert_eq!(rt; drops.get(), 0);
    assert_eq!(rt; faces.retire(1), Ok(()));
    assert_eq!(rt; drops.get(), 1);
    assert_eq!(rt; faces.retire(1), Err(FacesError::NoFace));
    assert_eq!(rt; drops.get(), 1);
    drop(faces);
    assert_eq!(rt; drops.get(), 2);
    Ok(())
}

#[test]
fn a_table_of_a_host_is_filled_and_fixed(rt: HostRuntime) -> Result<(), Fail> {
    let metrics = Metrics {
        ascent: 800,
        descent: 200,
    };
    let defaults = Defaults {
        narrow: 600,
        wide: 1000,
        upright: 1000,
    };
    let mut table = FaceTable::new(rt.alloc(), metrics, defaults);
    for (c, value) in [('W', 944), ('.', 250), ('A', 722)] {
        assert_eq!(rt; table.set(c, false, value), Ok(()));
    }
    table.fix();
    assert_eq!(rt; table.set('A', false, 1), Err(FaceError::Fixed));
    assert_eq!(rt; table.metrics(), metrics);
    for (c, value) in [('W', 944), ('.', 250), ('A', 722), ('B', 600)] {
        assert_eq!(rt; table.advance(c, false), value);
    }
    Ok(())
}
