//! A line as words.

use fragment_types::BoxName;
use std::alloc::{AllocError, AllocFailed};
use std::str::{FromStr, SplitWhitespace};

/// Why a line is no case.
#[derive(Clone, Copy)]
pub(crate) enum CaseError {
    Malformed,
    Memory,
}

impl From<AllocError> for CaseError {
    fn from(_: AllocError) -> CaseError {
        CaseError::Memory
    }
}

impl<T: Drop> From<AllocFailed<T>> for CaseError {
    fn from(_: AllocFailed<T>) -> CaseError {
        CaseError::Memory
    }
}

/// The words of a line that are still to be read.
#[derive(Drop)]
pub(crate) struct Words<'a> {
    words: SplitWhitespace<'a>,
}

impl<'a> Words<'a> {
    pub(crate) fn new(line: &'a str) -> Words<'a> {
        Words {
            words: line.split_whitespace(),
        }
    }

    pub(crate) fn word(&mut self) -> Result<&'a str, CaseError> {
        match self.words.next() {
            Some(word) => Ok(word),
            None => Err(CaseError::Malformed),
        }
    }

    /// The next word as one of these names.
    pub(crate) fn named<T: Copy>(&mut self, rows: &[(&'static str, T)]) -> Result<T, CaseError> {
        let word = self.word()?;
        for (name, value) in rows {
            if *name == word {
                return Ok(*value);
            }
        }
        Err(CaseError::Malformed)
    }

    /// The next word as a number: a length in units of 1/64 px, a place in a list or a text, how many there are, a node, a level
    /// or a face.
    pub(crate) fn number<T: FromStr>(&mut self) -> Result<T, CaseError>
    where
        T::Err: Drop,
    {
        match self.word()?.parse::<T>() {
            Ok(number) => Ok(number),
            Err(_) => Err(CaseError::Malformed),
        }
    }

    /// The next word as a number, or `-` for none.
    pub(crate) fn number_if_any<T: FromStr>(&mut self) -> Result<Option<T>, CaseError>
    where
        T::Err: Drop,
    {
        match self.word()? {
            "-" => Ok(None),
            word => match word.parse::<T>() {
                Ok(number) => Ok(Some(number)),
                Err(_) => Err(CaseError::Malformed),
            },
        }
    }

    /// `yes` or `no`.
    pub(crate) fn flag(&mut self) -> Result<bool, CaseError> {
        match self.word()? {
            "yes" => Ok(true),
            "no" => Ok(false),
            _ => Err(CaseError::Malformed),
        }
    }

    /// The name of a box: its node and its ordinal.
    pub(crate) fn box_name(&mut self) -> Result<BoxName, CaseError> {
        Ok(BoxName {
            node: self.number()?,
            ordinal: self.number()?,
        })
    }

    /// No word is left.
    pub(crate) fn end(&mut self) -> Result<(), CaseError> {
        match self.words.next() {
            Some(_) => Err(CaseError::Malformed),
            None => Ok(()),
        }
    }
}
