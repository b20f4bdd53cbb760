//! A line as words.

ghost use Rattle.std.specs.Prelude.{◌≤◌, ◌^◌, unsigned_abs, IfOk, IfSome};

use std::alloc::{AllocError, AllocFailed};
use std::str::SplitWhitespace;

const GREATEST_LENGTH: i64 = 1 << 40;

/// Why a line is no case.
#[derive(Clone, Copy)]
pub(crate) enum CaseError {
    Malformed,
    Memory,
}

impl From<AllocError> for CaseError {
    fn from(_: AllocError) -> CaseError {
        CaseError::Memory
    }
}

impl<T: Drop> From<AllocFailed<T>> for CaseError {
    fn from(_: AllocFailed<T>) -> CaseError {
        CaseError::Memory
    }
}

/// The words of a line that are still to be read.
#[derive(Drop)]
pub(crate) struct Words<'a> {
    words: SplitWhitespace<'a>,
}

impl<'a> Words<'a> {
    pub(crate) fn new(line: &'a str) -> Words<'a> {
        Words {
            words: line.split_whitespace(),
        }
    }

    pub(crate) fn word(&mut self) -> Result<&'a str, CaseError> {
        match self.words.next() {
            Some(word) => Ok(word),
            None => Err(CaseError::Malformed),
        }
    }

    /// The next word as one of these names.
    pub(crate) fn named<T: Copy>(&mut self, rows: &[(&'static str, T)]) -> Result<T, CaseError> {
        let word = self.word()?;
        for (name, value) in rows {
            if *name == word {
                return Ok(*value);
            }
        }
        Err(CaseError::Malformed)
    }

    /// A length, in units of 1/64 px, or a number: at most 2^40 without its sign.
    pub(crate) fn length(&mut self) -> Result<i64, CaseError>
        ensures { IfOk result (λ length. unsigned_abs length ≤ 2 ^ 40) }
    {
        let word = self.word()?;
        length_of(word)
    }

    /// A length, or `-` for none.
    pub(crate) fn length_if_any(&mut self) -> Result<Option<i64>, CaseError>
        ensures { IfOk result (λ length. IfSome length (λ length. unsigned_abs length ≤ 2 ^ 40)) }
    {
        let word = self.word()?;
        if word == "-" {
            return Ok(None);
        }
        let length = length_of(word)?;
        Ok(Some(length))
    }

    /// `yes` or `no`.
    pub(crate) fn flag(&mut self) -> Result<bool, CaseError> {
        match self.word()? {
            "yes" => Ok(true),
            "no" => Ok(false),
            _ => Err(CaseError::Malformed),
        }
    }

    /// No word is left.
    pub(crate) fn end(&mut self) -> Result<(), CaseError> {
        match self.words.next() {
            Some(_) => Err(CaseError::Malformed),
            None => Ok(()),
        }
    }
}

fn length_of(word: &str) -> Result<i64, CaseError>
    ensures { IfOk result (λ length. unsigned_abs length ≤ 2 ^ 40) }
{
    match word.parse::<i64>() {
        Ok(length) if -GREATEST_LENGTH <= length && length <= GREATEST_LENGTH => Ok(length),
        _ => Err(CaseError::Malformed),
    }
}
