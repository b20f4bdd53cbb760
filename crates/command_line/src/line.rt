//! The words of a command line by their names: one command word and three options.

ghost use Rattle.std.specs.Prelude.{◌≡◌, ◌≢◌, [], map, string_bytes, IfOk, IsErrOf};
ghost use Rattle.clap.specs.Words.{app_of, fault_of, found_of, matches_of, rows_of};
ghost use Rattle.command_line.specs.Reading.{command_line};

use crate::error::WordsError;
use clap::error::ErrorKind;
use clap::{Arg, ArgMatches};
use std::alloc::{AllocError, Global};

/// The words of a command line by their names. Usage comes only where `clap` finds a fault in them.
pub(crate) fn parsed<'a>(alloc: Global, words: &'a [String]) -> Result<ArgMatches<'a>, WordsError>
    ensures fits { IfOk result (λ matches. fault_of command_line (map string_bytes words.now) ≡ []) }
    ensures rows { IfOk result (λ matches. rows_of (found_of matches) ≡ matches_of command_line (map string_bytes words.now)) }
    ensures usage { IsErrOf result WordsError.Usage → fault_of command_line (map string_bytes words.now) ≢ [] }
{
    let line = command_line(alloc)?;
    match line.try_get_matches_from(words) {
        Ok(matches) => Ok(matches),
        Err(error) => match error.kind() {
            ErrorKind::OutOfMemory => Err(WordsError::Memory),
            _ => Err(WordsError::Usage),
        },
    }
}

// The words that a command line has, with no help and no version beside them.
fn command_line<'a>(alloc: Global) -> Result<clap::Command<'a>, AllocError>
    ensures { IfOk result (λ line. app_of line ≡ command_line) }
{
    let command = Arg::new(alloc, "command").required(true);
    let inline = Arg::new(alloc, "view-inline").long("view-inline");
    let block = Arg::new(alloc, "view-block").long("view-block");
    let count = Arg::new(alloc, "count").long("count");
    let none = clap::Command::new(alloc, "wm_layout")
        .no_binary_name(true)
        .disable_help_flag(true)
        .disable_version_flag(true);
    let one = none.arg(command)?;
    let two = one.arg(inline)?;
    let three = two.arg(block)?;
    let four = three.arg(count)?;
    Ok(four)
}
