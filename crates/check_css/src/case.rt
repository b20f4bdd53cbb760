//! The cases that are asked.

ghost use Rattle.std.specs.Prelude.{◌≡◌, Some, None, codes};
ghost use Rattle.check_css.specs.declared.case.Reader.TheVariants.{Declarations, Sheet};

use hex::FromHexError;
use std::alloc::Global;
use std::io;

/// A reader of CSS.
#[derive(Clone, Copy)]
pub(crate) enum Reader {
    Declarations,
    Sheet,
}

/// What is to be read: a text, with the place of its first byte.
#[derive(Drop)]
pub(crate) struct Case {
    pub reader: Reader,
    pub start: usize,
    pub text: String,
}

/// The case of a line, if it is one.
pub(crate) fn case_of(alloc: Global, line: &str) -> io::Result<Option<Case>> {
    let mut words = line.split_whitespace();
    match (words.next(), words.next(), words.next(), words.next()) {
        (Some(reader), Some(start), Some(text), None) => case_of_words(alloc, reader, start, text),
        _ => Ok(None),
    }
}

fn case_of_words(alloc: Global, reader: &str, start: &str, text: &str) -> io::Result<Option<Case>> {
    let (Some(reader), Ok(start)) = (reader_of(reader), start.parse::<usize>()) else {
        return Ok(None);
    };
    match text_of(alloc, text)? {
        Some(text) => Ok(Some(Case {
            reader,
            start,
            text,
        })),
        None => Ok(None),
    }
}

fn reader_of(word: &str) -> Option<Reader>
    ensures declarations { result ≡ Some Declarations → word.now ≡ codes "declarations" }
    ensures sheet { result ≡ Some Sheet → word.now ≡ codes "sheet" }
    ensures none { result ≡ None → word.now ≡ codes "sheet" → ⊥ }
{
    match word {
        "declarations" => Some(Reader::Declarations),
        "sheet" => Some(Reader::Sheet),
        _ => None,
    }
}

// The text whose bytes this word has, if it has a text.
fn text_of(alloc: Global, word: &str) -> io::Result<Option<String>> {
    if word == "-" {
        return Ok(Some(String::new(alloc)));
    }
    match hex::decode(alloc, word) {
        Ok(bytes) => Ok(String::from_utf8(bytes).ok()),
        Err(FromHexError::OutOfMemory) => Err(io::ErrorKind::OutOfMemory.into()),
        Err(_) => Ok(None),
    }
}
