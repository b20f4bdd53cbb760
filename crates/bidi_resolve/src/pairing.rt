//! Which brackets of an isolating run sequence are pairs (UAX 9, BD14 to BD16).

ghost use Rattle.bidi_resolve.specs.Pairing as readings;
ghost use Rattle.bidi_resolve.specs.Pairing.{IsWithin, reading_of};
ghost use Rattle.bidi_resolve.specs.Isolating.{chars_in};
ghost use Rattle.std.specs.Option.{is_some};
ghost use Rattle.std.specs.Prelude.{◌≡◌, ◌<◌, All, IfOk, OnOk, Some, false, get_or, length};
ghost use Rattle.wm_chars.specs.declared.classes.BidiClass.TheVariants.{L};

use crate::isolating::Sequence;
use std::alloc::{AllocError, Global};
use std::collections::VecDeque;
use wm_chars::BidiClass::ON;
use wm_chars::{BidiClass, Bracket, bracket};

/// How many brackets may be open.
const ROOM: usize = 63;

/// An opening bracket that waits for the closing one: its number among the opening brackets, and the character that
/// closes it.
#[derive(Clone, Copy)]
pub(crate) struct Opened {
    pub(crate) number: usize,
    pub(crate) partner: char,
}

/// How far the reading of brackets has come: those that are open, the last one first; the places of the opening
/// brackets, and for each of them the place of its closing bracket; whether the reading has stopped for want of room.
#[derive(Drop)]
pub(crate) struct Pairing {
    pub(crate) opened: VecDeque<Opened>,
    pub(crate) openings: Vec<usize>,
    pub(crate) closings: Vec<Option<usize>>,
    pub(crate) stopped: bool,
}

/// The pairs of brackets of a sequence whose characters have these classes, in place of what was read before.
pub(crate) fn read_pairs(
    pairing: &mut Pairing,
    sequence: &Sequence,
    classes: &[BidiClass],
) -> Result<(), AllocError>
    requires { length sequence.now.places.now ≡ length classes.now }
    ensures pairs { OnOk result (reading_of pairing.new ≡ readings.read_all (chars_in sequence.now) classes.now) }
    ensures within { OnOk result (IsWithin (length classes.now) (reading_of pairing.new)) }
{
    pairing.begin();
    for k in 0..classes.len() {
        pairing.read_at(sequence, classes, k)?;
    }
    Ok(())
}

impl Pairing {
    pub(crate) fn new(alloc: Global) -> Pairing {
        Pairing {
            opened: VecDeque::new(alloc),
            openings: Vec::new(alloc),
            closings: Vec::new(alloc),
            stopped: false,
        }
    }

    fn begin(&mut self)
        ensures { reading_of self.new ≡ readings.begin }
    {
        self.opened.clear();
        self.openings.clear();
        self.closings.clear();
        self.stopped = false;
    }

    fn read_at(
        &mut self,
        sequence: &Sequence,
        classes: &[BidiClass],
        k: usize,
    ) -> Result<(), AllocError>
        requires k { k < length classes.now }
        requires many { length sequence.now.places.now ≡ length classes.now }
        requires opened { All (λ opened. opened.number < length self.old.closings.items) self.old.opened.items }
        ensures { IfOk result (λ _. reading_of self.new ≡ readings.read_one k (get_or sequence.now.chars.now (get_or sequence.now.places.now k 0) 0) (get_or classes.now k L) (reading_of self.old)) }
    {
        if self.stopped || classes[k] != ON {
            return Ok(());
        }
        let char = sequence.chars[sequence.places[k]];
        match bracket(char) {
            Some(bracket) => self.read_bracket(k, char, bracket),
            None => Ok(()),
        }
    }

    fn read_bracket(&mut self, place: usize, char: char, bracket: Bracket) -> Result<(), AllocError>
        requires running { self.old.stopped ≡ false }
        requires opened { All (λ opened. opened.number < length self.old.closings.items) self.old.opened.items }
        ensures { IfOk result (λ _. reading_of self.new ≡ readings.read_bracket place char (Some bracket) (reading_of self.old)) }
    {
        if bracket.opens {
            self.open(place, bracket.partner)
        } else {
            self.close(place, char);
            Ok(())
        }
    }

    fn open(&mut self, place: usize, partner: char) -> Result<(), AllocError>
        requires running { self.old.stopped ≡ false }
        ensures { IfOk result (λ _. reading_of self.new ≡ readings.open_ place partner (reading_of self.old)) }
    {
        if self.opened.len() >= ROOM {
            self.stopped = true;
            return Ok(());
        }
        self.opened.push_front(Opened {
            number: self.openings.len(),
            partner,
        })?;
        self.openings.push(place)?;
        self.closings.push(None)?;
        Ok(())
    }

    fn close(&mut self, place: usize, char: char)
        requires running { self.old.stopped ≡ false }
        requires opened { All (λ opened. opened.number < length self.old.closings.items) self.old.opened.items }
        ensures { reading_of self.new ≡ readings.close place char (reading_of self.old) }
    {
        if !self.holds(char) {
            return;
        }
        while let Some(last) = self.opened.pop_front() {
            if last.partner == char {
                self.closings[last.number] = Some(place);
                return;
            }
        }
    }

    // Whether a bracket is open that the character closes.
    fn holds(&self, char: char) -> bool
        ensures { result ≡ is_some (readings.found char self.now.opened.items) }
    {
        for i in 0..self.opened.len() {
            if self.opened[i].partner == char {
                return true;
            }
        }
        false
    }
}
