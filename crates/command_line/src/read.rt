//! The job that the words of a command line give.

ghost use Rattle.std.specs.Prelude.{◌≡◌, ◌≤◌, IfOk, IsErrOf};
ghost use Rattle.wm_units.specs.View.{IsView};
ghost use Rattle.clap.specs.Words.{found_of, rows_of};
ghost use Rattle.command_line.specs.Command.{IsJob};
ghost use Rattle.command_line.specs.declared.job.Job.{Job};
ghost use Rattle.command_line.specs.Reading as readings;

use crate::error::WordsError;
use crate::job::{Command, Job};
use crate::line::parsed;
use crate::values::{block_of, command_of, count_of, inline_of};
use crate::words::Words;
use clap::ArgMatches;
use std::alloc::Global;
use wm_units::View;

/// The one job that the words give (docs/PROFILE/commands.md). Usage comes exactly where they give none, and
/// Memory wherever memory runs out.
pub fn read_words(alloc: Global, words: &Words) -> Result<Job, WordsError>
    ensures read { IfOk result (λ job. IsJob words.now job) }
    ensures only { IfOk result (λ job. (other : Job) → IsJob words.now other → other ≡ job) }
    ensures view { IfOk result (λ job. IsView job.view) }
    ensures count { IfOk result (λ job. (1 ≤ job.count) × (job.count ≤ 1000)) }
    ensures usage { IsErrOf result WordsError.Usage → (job : Job) → IsJob words.now job → ⊥ }
{
    let matches = parsed(alloc, words.as_slice())?;
    match job_in(&matches) {
        Some(job) => Ok(job),
        None => Err(WordsError::Usage),
    }
}

fn job_in(matches: &ArgMatches) -> Option<Job>
    ensures { result ≡ readings.job_in (rows_of (found_of matches.now)) }
{
    job_with(
        command_of(matches.get_str("command")),
        inline_of(matches.get_str("view-inline")),
        block_of(matches.get_str("view-block")),
        count_of(matches.get_str("count")),
    )
}

// The job of its values, where each is there.
fn job_with(
    command: Option<Command>,
    inline: Option<i64>,
    block: Option<i64>,
    count: Option<u32>,
) -> Option<Job>
    ensures { result ≡ readings.job_with command inline block count }
{
    Some(Job {
        command: command?,
        view: View {
            inline: inline?,
            block: block?,
        },
        count: count?,
    })
}
