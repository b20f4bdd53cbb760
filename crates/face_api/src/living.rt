//! Which face is used, set and retired (CSS 2, 15.3, narrowed).

ghost use Rattle.std.specs.Prelude.{◌≡◌, ◌≤◌, ◌↔◌, true, Some, None, length, slice_index_or, IsSome, IsErrOf, IsSomeAnd, IfOk, OnOk, OnErr, IsOkUnless, option_map};
ghost use Rattle.std.specs.Option.{option_copied};
ghost use Rattle.face_api.specs.Living.{living, used_table, set_table, retired};
ghost use Rattle.face_api.specs.Faces.{all_living, faces_of, table_in};
ghost use Rattle.face_api.specs.Table.{IsFull, TakesRow, set_row};
ghost use Rattle.face_api.specs.declared.error.FacesError.TheVariants.{NoFace, Fixed, Full};

use crate::{Face, Faces, FacesError};
use std::alloc::{AllocError, Global};

impl Faces {
    /// Takes one to eight faces.
    pub fn new(alloc: Global, faces: Vec<Box<dyn Face>>) -> Result<Faces, AllocError>
        requires some { 1 ≤ length faces.items }
        requires few { length faces.items ≤ 8 }
        ensures { IfOk result (λ own. faces_of ⟦<dyn Face as Face>⟧ own ≡ all_living ⟦<dyn Face as Face>⟧ faces.items) }
    {
        let mut seats = Vec::new(alloc);
        for face in faces {
            seats.push(Some(face))?;
        }
        Ok(Faces { seats })
    }

    /// The face of that number where it lives, else face 0. Takes no memory.
    pub fn used(&self, face: u8) -> &dyn Face
        ensures { table result.now ≡ used_table (faces_of ⟦<dyn Face as Face>⟧ self.now) face }
    {
        match self.living(face) {
            Some(face) => lend(face),
            None => self.first(),
        }
    }

    /// Sets an advance of the face of that number. `NoFace` comes exactly where there never was one or it is
    /// retired, `Fixed` and `Full` as `Face::set` has them. A refusal changes nothing.
    pub fn set(&mut self, face: u8, c: char, upright: bool, value: u32) -> Result<(), FacesError>
        requires { value ≤ 10000 }
        ensures row { OnOk result (faces_of ⟦<dyn Face as Face>⟧ self.new ≡ set_table (faces_of ⟦<dyn Face as Face>⟧ self.old) face c upright value) }
        ensures room { OnOk result (IsSomeAnd (living (faces_of ⟦<dyn Face as Face>⟧ self.old) face) (λ table. TakesRow table c upright)) }
        ensures no_face { IsErrOf result NoFace ↔ (living (faces_of ⟦<dyn Face as Face>⟧ self.old) face ≡ None) }
        ensures fixed { IsErrOf result Fixed → IsSomeAnd (living (faces_of ⟦<dyn Face as Face>⟧ self.old) face) (λ table. table.fixed ≡ true) }
        ensures full { IsErrOf result Full → IsSomeAnd (living (faces_of ⟦<dyn Face as Face>⟧ self.old) face) (λ table. IsFull table c upright) }
        ensures unchanged { OnErr result (faces_of ⟦<dyn Face as Face>⟧ self.new ≡ faces_of ⟦<dyn Face as Face>⟧ self.old) }
    {
        let at = usize::from(face);
        if at >= self.seats.len() {
            return Err(FacesError::NoFace);
        }
        set_seat(&mut self.seats[at], c, upright, value)
    }

    /// Retires the face of that number, which is at least 1, and drops it. `NoFace` comes exactly where there
    /// never was one or it is retired already, and then nothing changes. Takes no memory.
    pub fn retire(&mut self, face: u8) -> Result<(), FacesError>
        requires { 1 ≤ face }
        ensures retired { OnOk result (faces_of ⟦<dyn Face as Face>⟧ self.new ≡ retired (faces_of ⟦<dyn Face as Face>⟧ self.old) face) }
        ensures no_face { IsErrOf result NoFace ↔ (living (faces_of ⟦<dyn Face as Face>⟧ self.old) face ≡ None) }
        ensures only { IsOkUnless result NoFace }
        ensures unchanged { OnErr result (faces_of ⟦<dyn Face as Face>⟧ self.new ≡ faces_of ⟦<dyn Face as Face>⟧ self.old) }
    {
        let at = usize::from(face);
        if at >= self.seats.len() {
            return Err(FacesError::NoFace);
        }
        vacate(&mut self.seats[at])
    }

    // The face of that number, if it lives.
    fn living(&self, face: u8) -> Option<&Box<dyn Face>>
        ensures { option_copied result ≡ slice_index_or self.now.seats.items face None }
    {
        match self.seats.get(usize::from(face)) {
            Some(seat) => seat.as_ref(),
            None => None,
        }
    }

    // Face 0.
    fn first(&self) -> &dyn Face
        ensures { living (faces_of ⟦<dyn Face as Face>⟧ self.now) 0 ≡ Some (table result.now) }
    {
        match &self.seats[0] {
            Some(first) => lend(first),
            None => unreachable!(),
        }
    }
}

// The face in the box.
fn lend(face: &Box<dyn Face>) -> &dyn Face
    ensures { table result.now ≡ (⟦<dyn Face as Face>⟧ face.now.vtable).table face.now.value }
{
    &**face
}

// Sets an advance of the face in the seat.
fn set_seat(
    seat: &mut Option<Box<dyn Face>>,
    c: char,
    upright: bool,
    value: u32,
) -> Result<(), FacesError>
    requires { value ≤ 10000 }
    ensures row { OnOk result (table_in ⟦<dyn Face as Face>⟧ seat.new ≡ option_map (λ table. set_row table c upright value) (table_in ⟦<dyn Face as Face>⟧ seat.old)) }
    ensures room { OnOk result (IsSomeAnd (table_in ⟦<dyn Face as Face>⟧ seat.old) (λ table. TakesRow table c upright)) }
    ensures no_face { IsErrOf result NoFace ↔ (table_in ⟦<dyn Face as Face>⟧ seat.old ≡ None) }
    ensures fixed { IsErrOf result Fixed → IsSomeAnd (table_in ⟦<dyn Face as Face>⟧ seat.old) (λ table. table.fixed ≡ true) }
    ensures full { IsErrOf result Full → IsSomeAnd (table_in ⟦<dyn Face as Face>⟧ seat.old) (λ table. IsFull table c upright) }
    ensures unchanged { OnErr result (table_in ⟦<dyn Face as Face>⟧ seat.new ≡ table_in ⟦<dyn Face as Face>⟧ seat.old) }
    ensures first { IsSome seat.old → IsSome seat.new }
{
    match seat {
        Some(face) => Ok(face.set(c, upright, value)?),
        None => Err(FacesError::NoFace),
    }
}

// Drops the face in the seat.
fn vacate(seat: &mut Option<Box<dyn Face>>) -> Result<(), FacesError>
    ensures vacant { OnOk result (seat.new ≡ None) }
    ensures no_face { IsErrOf result NoFace ↔ (table_in ⟦<dyn Face as Face>⟧ seat.old ≡ None) }
    ensures only { IsOkUnless result NoFace }
    ensures unchanged { OnErr result (seat.new ≡ seat.old) }
{
    if seat.take().is_some() {
        Ok(())
    } else {
        Err(FacesError::NoFace)
    }
}
