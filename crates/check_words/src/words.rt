//! Words with the job that is due, or none.

use command_line::{Command, Job, Words, WordsError, read_words};
use std::process::Abort;
use std::test::*;
use wm_units::View;

/// Words that give a job: the command, the sizes of the view in pixels, and the count.
const JOBS: [(&[&str], Command, i64, i64, u32); 10] = [
    (&["layout"], Command::Layout, 800, 600, 100),
    (&["edit", "--"], Command::Edit, 800, 600, 100),
    (&["--", "gen"], Command::Gen, 800, 600, 100),
    (&["modes"], Command::Modes, 800, 600, 100),
    (
        &["probe", "--view-inline=200"],
        Command::Probe,
        200,
        600,
        100,
    ),
    (
        &["--view-inline", "16384", "layout"],
        Command::Layout,
        16384,
        600,
        100,
    ),
    (
        &["layout", "--view-block=00001"],
        Command::Layout,
        800,
        1,
        100,
    ),
    (
        &["--count=1000", "gen", "--view-block", "7"],
        Command::Gen,
        800,
        7,
        1_000,
    ),
    (
        &[
            "--view-inline=5",
            "--view-block=6",
            "--count=1",
            "--",
            "gen",
        ],
        Command::Gen,
        5,
        6,
        1,
    ),
    (
        &["--count", "2", "gen", "--view-inline", "3", "--"],
        Command::Gen,
        3,
        600,
        2,
    ),
];

/// Words that give none.
const NONE: [&[&str]; 28] = [
    &[],
    &[""],
    &["--"],
    &["-"],
    &["Modes"],
    &["Layout"],
    &["--help"],
    &["-h"],
    &["layout", "layout"],
    &["layout", ""],
    &["layout", "--", "edit"],
    &["layout", "--", "--"],
    &["--", "layout", "--"],
    &["--", "layout", "--count=3"],
    &["--", "--count=3", "layout"],
    &["layout", "--count"],
    &["layout", "--count="],
    &["layout", "--count", "--"],
    &["layout", "--count", "--view-inline=5"],
    &["layout", "--count=0"],
    &["layout", "--count=1001"],
    &["layout", "--count=000001"],
    &["layout", "--count=+5"],
    &["layout", "--count", "-5"],
    &["layout", "--count=1", "--count=1"],
    &["layout", "--coun=1"],
    &["layout", "--view-inline=16385"],
    &["layout", "--view-block", "5px"],
];

fn words(rt: &(impl Abort + AllocGlobal), texts: &[&str]) -> Result<Words, Fail> {
    let mut words = Words::new(rt.alloc());
    for text in texts {
        words.push(text)?;
    }
    Ok(words)
}

#[test]
fn jobs(rt: HostRuntime) -> Result<(), Fail> {
    for (texts, command, inline, block, count) in JOBS {
        let words = words(&rt, texts)?;
        let job = Job {
            command,
            view: View {
                inline: 64 * inline,
                block: 64 * block,
            },
            count,
        };
        assert_eq!(rt; read_words(rt.alloc(), &words), Ok(job), "{texts:?}");
    }
    Ok(())
}

#[test]
fn no_jobs(rt: HostRuntime) -> Result<(), Fail> {
    for texts in NONE {
        let words = words(&rt, texts)?;
        assert_eq!(rt;
            read_words(rt.alloc(), &words),
            Err(WordsError::Usage),
            "{texts:?}"
        );
    }
    Ok(())
}
