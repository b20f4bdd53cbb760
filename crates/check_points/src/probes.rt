//! Probes that are read and probes that are refused.

use hit_caret::{Probe, ProbeError, Refusal, read_probe};
use std::test::*;

/// A probe with an empty line, a comment, a CR at an end, and numbers below zero.
const PROBE: &str = "point 100 5\n\n# two more\npoint -9999999999 -0\r\ncaret 0000003 1";

const ASKED: [Probe; 3] = [
    Probe::At { x: 100, y: 5 },
    Probe::At {
        x: -9_999_999_999,
        y: 0,
    },
    Probe::Caret { node: 3, place: 1 },
];

/// What stands before the probe in its input, in bytes.
const START: usize = 68;

/// Texts that are no probes, with the places of their wrong lines.
const WRONG: [(&str, usize); 8] = [
    ("point 1", 68),
    ("caret 3 1\npoint 12345678901 1", 78),
    ("caret 3 1\ncaret 12345678 1", 78),
    ("\npoint --1 2", 69),
    ("\r\npoint +1 2", 70),
    ("#\npoint 1  2", 70),
    ("point 1 2 ", 68),
    ("caret 1 2\r\r\n", 68),
];

/// How many lines that ask something are read at most.
const MOST: usize = 10_000;

const LINE: &str = "caret 3 1\n";

#[test]
fn probes_are_read(rt: HostRuntime) -> Result<(), Fail> {
    let probes = read_probe(rt.alloc(), PROBE, START)?;
    assert_eq!(rt; probes.as_slice(), ASKED.as_slice());
    Ok(())
}

#[test]
fn wrong_lines_are_refused_with_their_places(rt: HostRuntime) -> Result<(), Fail> {
    for (text, place) in WRONG {
        match read_probe(rt.alloc(), text, START) {
            Err(error) => {
                let refused = ProbeError::Refused {
                    kind: Refusal::ScriptSyntax,
                    place,
                };
                assert_eq!(rt; error, refused);
            }
            Ok(_) => return Err("a wrong probe is read".into()),
        }
    }
    Ok(())
}

#[test]
fn so_many_lines_are_read_and_no_more(rt: HostRuntime) -> Result<(), Fail> {
    let mut text = String::new(rt.alloc());
    for _ in 0..MOST {
        text.push_str(LINE)?;
    }
    let probes = read_probe(rt.alloc(), text.as_str(), START)?;
    assert_eq!(rt; probes.len(), MOST);
    let place = START + text.len();
    text.push_str(LINE)?;
    match read_probe(rt.alloc(), text.as_str(), START) {
        Err(error) => {
            let refused = ProbeError::Refused {
                kind: Refusal::TooManyEdits,
                place,
            };
            assert_eq!(rt; error, refused);
        }
        Ok(_) => return Err("one line too many is read".into()),
    }
    Ok(())
}
