//! The log of an editor's steps: more of them than it keeps, taken back and taken again.

use dom_store::ExactEdit as ExactTreeEdit;
use edits::{ExactEdit, Step};
use std::alloc::{AllocError, Global};
use std::test::*;
use undo_log::UndoLog;

// A step with memory of its own, told by this number.
fn step_of(alloc: Global, number: u32) -> Result<Step, AllocError> {
    let mut nodes = Vec::new(alloc);
    nodes.push(number)?;
    Ok(Step {
        back: ExactEdit::Tree(ExactTreeEdit::Take { parent: 1, nodes }),
        again: ExactEdit::Tree(ExactTreeEdit::Move {
            node: number,
            parent: 1,
            index: 0,
        }),
    })
}

fn number_of(step: &Step) -> Option<u32> {
    match &step.back {
        ExactEdit::Tree(ExactTreeEdit::Take { parent: _, nodes }) => nodes.first().copied(),
        _ => None,
    }
}

// The number of the step that is taken back.
fn take_back(log: &mut UndoLog) -> Option<u32> {
    let number = number_of(log.past()?);
    log.down();
    number
}

// The number of the step that is taken again.
fn take_again(log: &mut UndoLog) -> Option<u32> {
    let number = number_of(log.future()?);
    log.up();
    number
}

#[test]
fn of_70_steps_64_are_taken_back_and_again(rt: HostRuntime) -> Result<(), Fail> {
    let mut log = UndoLog::new(rt.alloc())?;
    for number in 0..70 {
        log.record(step_of(rt.alloc(), number)?);
    }
    for number in 0..64 {
        assert_eq!(rt; take_back(&mut log), Some(69 - number));
    }
    assert_eq!(rt; take_back(&mut log), None);
    for number in 6..70 {
        assert_eq!(rt; take_again(&mut log), Some(number));
    }
    assert_eq!(rt; take_again(&mut log), None);
    assert_eq!(rt; take_back(&mut log), Some(69));
    Ok(())
}

#[test]
fn nothing_leads_ahead_of_a_new_step(rt: HostRuntime) -> Result<(), Fail> {
    let mut log = UndoLog::new(rt.alloc())?;
    log.record(step_of(rt.alloc(), 1)?);
    log.record(step_of(rt.alloc(), 2)?);
    assert_eq!(rt; take_back(&mut log), Some(2));
    log.record(step_of(rt.alloc(), 3)?);
    assert_eq!(rt; take_again(&mut log), None);
    assert_eq!(rt; take_back(&mut log), Some(3));
    log.clear();
    assert_eq!(rt; take_back(&mut log), None);
    assert_eq!(rt; take_again(&mut log), None);
    Ok(())
}
