//! An input with a script after its document, one with a probe, one of which the flow is listed with its page in each mode, and what is
//! written for them. Others are compared with outside answers by tools/document-cases.

ghost use Rattle.std.specs.Prelude.{◌≡◌, ◌<◌};

use edit_job::{refusal_line, tell_steps};
use face_api::{Face, Faces, MonoFace};
use input_due::{Due, Follows, due_of_document};
use io_edge::{SteadySink, write_all_of};
use modes_job::tell_modes;
use probe_job::tell_answers;
use std::alloc::Global;
use std::marker::Brand;
use std::sync::ledger::{Blank, Ledger};
use std::test::*;
use wm_units::{Steps, View};

/// The view of 800 by 600 px.
const VIEW: View = View {
    inline: 51200,
    block: 38400,
};

/// The greatest length of an input, in bytes.
const LONGEST_INPUT: usize = 1_048_576;

/// A document with a script that puts a block into an inline box, is refused twice, goes back and ahead, shows a page, and goes back as far as
/// it can.
const INPUT: &[u8] =
    b"<html><body><span>a</span></body></html>\ntext 3 b\ntext 2 x\ninsert 2 1 <p>c</p>\nremove 1\nredo\nremove 4\nundo\nredo\nundo\nshow\nundo\nundo\nundo\n";

/// The listing and the refusals that are due for it.
const DUE: &str = "\
refused NotText 2
refused IsRoot 4
refused NoRedo 5
page 51200 38400 horizontal-tb ltr
box 0 0 0 0 51200 4608
box 1 0 512 512 50176 3072
box 1 1 512 512 50176 1024
line 1 1 0 512 512 50176 1024 768
span 2 0 512 512 512 1024
run 3 0 1 512 512 512 1024 h 0 0062
box 4 0 512 2560 50176 1024
line 4 0 0 512 2560 50176 1024 768
run 5 0 1 512 2560 512 1024 h 0 0063
end
refused NoUndo 13
";

/// A document with a probe behind it, and the answers that are due for it.
const PROBED: &[u8] =
    b"<html><body><span>a</span></body></html>\npoint 512 512\npoint 1023 1535\n# past the text\npoint 1024 512\ncaret 3 1\ncaret 2 0\n";

const ANSWERS: &str = "\
hit 3 0 1 0
hit 3 0 1 1
miss
caret 1024 512 0 1024
nocaret
";

/// A document that no declaration ties to one mode, and the listings of its flow and of its page in each mode.
const TURNABLE: &[u8] = b"<html><body><p>a</p></body></html>";

const PAGES: &str = "\
flow 51200 38400 ltr
box 0 0 0 0 51200 3072
box 1 0 512 1024 50176 1024
box 2 0 512 1024 50176 1024
line 2 0 0 512 1024 50176 1024 768
run 3 0 1 512 1024 512 1024 - 0 0061
end
page 51200 38400 horizontal-tb ltr
box 0 0 0 0 51200 3072
box 1 0 512 1024 50176 1024
box 2 0 512 1024 50176 1024
line 2 0 0 512 1024 50176 1024 768
run 3 0 1 512 1024 512 1024 h 0 0061
end
page 38400 51200 vertical-rl ltr
box 0 0 35328 0 3072 51200
box 1 0 36352 512 1024 50176
box 2 0 36352 512 1024 50176
line 2 0 0 36352 512 1024 50176 768
run 3 0 1 36352 512 1024 512 s 0 0061
end
page 38400 51200 sideways-rl ltr
box 0 0 35328 0 3072 51200
box 1 0 36352 512 1024 50176
box 2 0 36352 512 1024 50176
line 2 0 0 36352 512 1024 50176 768
run 3 0 1 36352 512 1024 512 s 0 0061
end
page 38400 51200 sideways-lr ltr
box 0 0 0 0 3072 51200
box 1 0 1024 512 1024 50176
box 2 0 1024 512 1024 50176
line 2 0 0 1024 512 1024 50176 768
run 3 0 1 1024 50176 1024 512 l 0 0061
end
";

/// A document that a declaration of a size ties to one mode, and its refusal.
const TIED: &[u8] = b"<html><body><p style=\"width:5px\">a</p></body></html>";

const NOT_TURNABLE: &str = "refused NotTurnable 15\n";

// What is written for an input.
fn written<L: Ledger, M: Ledger>(
    alloc: Global,
    input: &[u8],
    follows: Follows,
    first: Blank,
    second: Blank,
) -> Result<SteadySink, Fail>
    requires first_name { first.name ≡ L.name }
    requires first_parts { first.parts ≡ L.parts }
    requires first_some { 0 < first.parts }
    requires second_name { second.name ≡ M.name }
    requires second_parts { second.parts ≡ M.parts }
    requires second_some { 0 < second.parts }
{
    if input.len() > LONGEST_INPUT {
        return Err("too long an input".into());
    }
    let mut own: Vec<Box<dyn Face>> = Vec::new(alloc);
    own.push(Box::new(alloc, MonoFace::new())?)?;
    let faces = Faces::new(alloc, own)?;
    let mut sink = SteadySink::new(alloc);
    match due_of_document(alloc, VIEW, faces, input, follows)? {
        Due::Steps {
            mut session,
            script,
        } => {
            let mut prepared = Steps::<L>::open(first);
            let mut arranged = Steps::<M>::open(second);
            tell_steps(
                &mut session,
                &script,
                &mut sink,
                &mut prepared,
                &mut arranged,
            )?;
        }
        Due::Answers {
            mut session,
            probes,
        } => {
            let mut prepared = Steps::<L>::open(first);
            let mut arranged = Steps::<M>::open(second);
            let placed = session.page(&mut prepared, &mut arranged)?;
            tell_answers(&placed, &probes, &mut sink)?;
        }
        Due::Pages { mut session } => {
            let mut prepared = Steps::<L>::open(first);
            let mut arranged = Steps::<M>::open(second);
            let flow = session.page(&mut prepared, &mut arranged)?;
            tell_modes(alloc, &flow, &mut sink)?;
        }
        Due::Refused { cause, place } => {
            write_all_of(&mut sink, refusal_line(cause.word(), place).as_bytes())?;
        }
    }
    Ok(sink)
}

#[test]
fn edits_are_listed(rt: HostRuntime) -> Result<(), Fail> {
    let sink = written::<Brand, Brand>(
        rt.alloc(),
        INPUT,
        Follows::Script,
        Blank::new(1),
        Blank::new(1),
    )?;
    assert_eq!(rt; sink.bytes(), DUE.as_bytes());
    Ok(())
}

#[test]
fn probes_are_answered(rt: HostRuntime) -> Result<(), Fail> {
    let sink = written::<Brand, Brand>(
        rt.alloc(),
        PROBED,
        Follows::Probe,
        Blank::new(1),
        Blank::new(1),
    )?;
    assert_eq!(rt; sink.bytes(), ANSWERS.as_bytes());
    Ok(())
}

#[test]
fn pages_are_listed_in_each_mode(rt: HostRuntime) -> Result<(), Fail> {
    let sink = written::<Brand, Brand>(
        rt.alloc(),
        TURNABLE,
        Follows::Modes,
        Blank::new(1),
        Blank::new(1),
    )?;
    assert_eq!(rt; sink.bytes(), PAGES.as_bytes());
    Ok(())
}

#[test]
fn tied_documents_are_refused(rt: HostRuntime) -> Result<(), Fail> {
    let sink = written::<Brand, Brand>(
        rt.alloc(),
        TIED,
        Follows::Modes,
        Blank::new(1),
        Blank::new(1),
    )?;
    assert_eq!(rt; sink.bytes(), NOT_TURNABLE.as_bytes());
    Ok(())
}
