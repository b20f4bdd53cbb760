//! The log: steps that lead back from now, and steps that lead ahead again.

ghost use Rattle.std.specs.Prelude.{◌≡◌, ◌<◌, ◌↔◌, length, IfOk, IsSome, option_copied, option_map};
ghost use Rattle.edits.specs.Exact.{step_as};
ghost use Rattle.undo_log.specs.Log.{IsFew, empty, gone_down, gone_up, next_ahead, next_back, recorded};

use circular_buffer::HeapCircularBuffer;
use edits::Step;
use std::alloc::{AllocError, Global};
use std::marker::Model;

/// How many steps are kept.
const GREATEST_COUNT: usize = 64;

/// The steps of a history that lead back from now, and those that lead ahead again: never more than 64. Contracts see
/// them as two lists, in the order in which the steps were taken.
#[derive(Drop)]
pub struct UndoLog {
    // In one ring, in this order. A step that is taken back or again stays where it is: the place of now moves.
    steps: HeapCircularBuffer<Step>,
    // How many of them, from the front, are the past.
    done: usize,
}

impl Model for UndoLog {
    ghost use Rattle.std.specs.Prelude.{map};
    ghost use Rattle.edits.specs.Exact.{StepOf, step_as};
    ghost use Rattle.undo_log.specs.Log.{IsSound, Log, cut};

    ghost Value = { Log StepOf };

    ghost view = { λ log. cut log.done (map step_as log.steps.items) };

    ghost invariant = { λ log. IsSound log.steps log.done };
}

impl UndoLog {
    /// No steps. The only call that takes memory, and all that the steps of this log will ever lie in.
    pub fn new(alloc: Global) -> Result<UndoLog, AllocError>
        ensures { IfOk result (λ log. log ≡ empty) }
    {
        let steps = HeapCircularBuffer::with_capacity(alloc, GREATEST_COUNT)?;
        Ok(UndoLog { steps, done: 0 })
    }

    /// A step was taken: it comes last in the past, and nothing leads ahead any more. Of a past of 64 steps the oldest goes,
    /// with its memory.
    pub fn record(&mut self, step: Step)
        ensures { self.new ≡ recorded (step_as step) self.old }
    {
        self.steps.truncate_back(self.done);
        self.steps.push_back(step);
        self.done = self.steps.len();
    }

    /// The step that is taken back next, the last of the past; `None` exactly where the past is empty.
    pub fn past(&self) -> Option<&Step>
        ensures step { option_map step_as (option_copied result) ≡ next_back self.now }
        ensures some { IsSome result ↔ (0 < length self.now.past) }
        ensures few { IsFew self.now }
    {
        if self.done == 0 {
            None
        } else {
            self.steps.get(self.done - 1)
        }
    }

    /// The step that is taken again next, the first of the future; `None` exactly where the future is empty.
    pub fn future(&self) -> Option<&Step>
        ensures step { option_map step_as (option_copied result) ≡ next_ahead self.now }
        ensures some { IsSome result ↔ (0 < length self.now.future) }
        ensures few { IsFew self.now }
    {
        self.steps.get(self.done)
    }

    /// The past's last step was taken back: it leads ahead now.
    pub fn down(&mut self)
        requires { 0 < length self.old.past }
        ensures { self.new ≡ gone_down self.old }
    {
        self.done -= 1;
    }

    /// The future's first step was taken again: it leads back now.
    pub fn up(&mut self)
        requires { 0 < length self.old.future }
        ensures { self.new ≡ gone_up self.old }
    {
        self.done += 1;
    }

    /// Nothing leads back or ahead any more; the steps go, with their memory.
    pub fn clear(&mut self)
        ensures { self.new ≡ empty }
    {
        self.steps.clear();
        self.done = 0;
    }
}
