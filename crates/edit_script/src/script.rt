//! The lines of a script.

ghost use Rattle.std.specs.Prelude.{◌≡◌, ◌+◌, ◌-◌, ◌^◌, ◌<◌, ◌≤◌, true, not, IfErr, IfOk, length};
ghost use Rattle.std.specs.Str.Lines.{strip_carriage_return};
ghost use Rattle.edit_script.specs.Answered.{IsTheScript, RefusesScript, Told};
ghost use Rattle.edit_script.specs.Error.{Reads, told_at};
ghost use Rattle.edit_script.specs.Fitting.{AllFit, HasFitting, bytes_of};
ghost use Rattle.edit_script.specs.Script as scripts;
ghost use Rattle.edit_script.specs.Views.{IsFirstLine, begun_of, command_of, steps_of};

use crate::command::{Command, words_of_line};
use crate::error::{Halt, Refusal, ScriptError};
use crate::laws::scripts_bring_no_more;
use crate::meaning::meaning;
use crate::step::{Script, ScriptLine};
use css_sheet::laws::sheets_spell;
use html_read::laws::fragments_spell;
use std::alloc::Global;

/// The greatest count of edits in a script.
const MOST_EDITS: u32 = 10_000;

/// How often a script lists pages at most.
const MOST_SHOWS: u32 = 64;

/// What is read so far, and what is counted: lines, edits, and listed pages.
#[derive(Drop)]
struct Begun {
    said: Script,
    lines: usize,
    edits: u32,
    shows: u32,
}

/// Reads a script (docs/PROFILE/scripts.md). `start` is the place of its first byte in the input. A refusal has the
/// place of the first byte of a line in that input, held at the last number of usize. The places of declarations are
/// counted from the first byte of the text that is read as declarations or as a sheet, those of style attributes from
/// the first byte of their fragment.
pub fn read_script(alloc: Global, text: &str, start: usize) -> Result<Script, ScriptError>
    // The answer is that of the reading: what the lines say, or the refusal with its place.
    ensures read { Told start (λ script. steps_of script.items) result (scripts.script text.now) }
    // The text is a script that says this and nothing else; where it is refused it is none.
    ensures found { IfOk result (λ script. IsTheScript text.now (steps_of script.items)) }
    ensures refused { IfErr result (λ error. RefusesScript text.now error) }
    // Nodes that are inserted are those of a fragment, each with its own declarations; numbers of declarations, in rules
    // too, are such as a style sheet can say; an advance is at most 10,000, and face 0 isn't retired; and together the
    // edits bring no more bytes of text than the script has.
    ensures fit { IfOk result (λ script. AllFit (steps_of script.items)) }
    ensures bytes { IfOk result (λ script. bytes_of (steps_of script.items) ≤ length text.now) }
{
    fragments_spell();
    sheets_spell();
    scripts_bring_no_more();
    answer_script(alloc, text, start)
}

// The reading of a script, with its places.
fn answer_script(alloc: Global, text: &str, start: usize) -> Result<Script, ScriptError>
    ensures told { Told start (λ script. steps_of script.items) result (scripts.script text.now) }
    ensures fit { IfOk result (λ script. AllFit (steps_of script.items)) }
{
    let mut begun = begin(alloc);
    let mut rest = text;
    while !rest.is_empty() {
        let (line, after) = first_line(rest);
        match read_line(alloc, &mut begun, line) {
            Ok(()) => rest = after,
            Err(halt) => return Err(told(start.saturating_add(text.len() - rest.len()), halt)),
        }
    }
    Ok(begun.said)
}

fn begin(alloc: Global) -> Begun
    ensures { begun_of result ≡ scripts.empty }
{
    Begun {
        said: Script::new(alloc),
        lines: 0,
        edits: 0,
        shows: 0,
    }
}

fn told(place: usize, halt: Halt) -> ScriptError
    ensures { result ≡ told_at place halt }
{
    match halt {
        Halt::Refused(kind) => ScriptError::Refused { kind, place },
        Halt::Memory => ScriptError::Memory,
    }
}

// The first line, and what stands behind its end.
fn first_line(text: &str) -> (&str, &str)
    ensures { IsFirstLine text.now result.0.now result.1.now }
{
    match text.split_once('\n') {
        Some(parts) => parts,
        None => (text, ""),
    }
}

// A line more.
#[tactic(auto, unfolding(crate::specs::Script::with_line))]
fn read_line(alloc: Global, begun: &mut Begun, line: &str) -> Result<(), Halt>
    requires room { begun.old.lines < 2 ^ 64 - 1 }
    ensures read { Reads (λ _. begun_of begun.new) result (scripts.with_line (begun_of begun.old) line.now) }
    ensures line { IfOk result (λ _. begun.new.lines ≡ begun.old.lines + 1) }
    ensures fit { AllFit (steps_of begun.old.said.items) → IfOk result (λ _. AllFit (steps_of begun.new.said.items)) }
{
    begun.lines += 1;
    let line = without_cr(line);
    if is_blank(line) {
        return Ok(());
    }
    let command = words_of_line(line)?;
    put_step(alloc, begun, command)
}

// What a line says whose words say this, behind what is read so far.
fn put_step(alloc: Global, begun: &mut Begun, command: Command<'_>) -> Result<(), Halt>
    ensures read { Reads (λ _. begun_of begun.new) result (scripts.with_command (command_of command.entry) (begun_of begun.old)) }
    ensures line { begun.new.lines ≡ begun.old.lines }
    ensures fit { HasFitting (command_of command.entry) → AllFit (steps_of begun.old.said.items) → IfOk result (λ _. AllFit (steps_of begun.new.said.items)) }
{
    count(begun, command)?;
    let what = meaning(alloc, command)?;
    begun.said.push(ScriptLine {
        line: begun.lines,
        what,
    })?;
    Ok(())
}

fn without_cr(line: &str) -> &str
    ensures { result.now ≡ strip_carriage_return line.now }
{
    match line.strip_suffix('\r') {
        Some(front) => front,
        None => line,
    }
}

fn is_blank(line: &str) -> bool
    ensures { result ≡ scripts.is_blank line.now }
{
    match line.as_bytes() {
        [] => true,
        [byte, ..] => *byte == b'#',
    }
}

// An edit or a listed page more.
fn count(begun: &mut Begun, command: Command<'_>) -> Result<(), Halt>
    ensures read { Reads (λ _. begun_of begun.new) result (scripts.counted (command_of command.entry) (begun_of begun.old)) }
    ensures line { begun.new.lines ≡ begun.old.lines }
    ensures said { begun.new.said ≡ begun.old.said }
{
    match command {
        Command::Show => count_show(begun),
        Command::Text { .. }
        | Command::Style { .. }
        | Command::Class { .. }
        | Command::Insert { .. }
        | Command::Remove { .. }
        | Command::Move { .. }
        | Command::Metric { .. }
        | Command::Retire { .. }
        | Command::Rule { .. }
        | Command::Unrule { .. }
        | Command::Undo
        | Command::Redo => count_edit(begun),
    }
}

fn count_show(begun: &mut Begun) -> Result<(), Halt>
    ensures read { Reads (λ _. begun_of begun.new) result (scripts.counted_show (begun_of begun.old)) }
    ensures line { begun.new.lines ≡ begun.old.lines }
    ensures said { begun.new.said ≡ begun.old.said }
{
    if begun.shows < MOST_SHOWS {
        begun.shows += 1;
        Ok(())
    } else {
        Err(Halt::Refused(Refusal::TooManyShows))
    }
}

fn count_edit(begun: &mut Begun) -> Result<(), Halt>
    ensures read { Reads (λ _. begun_of begun.new) result (scripts.counted_edit (begun_of begun.old)) }
    ensures line { begun.new.lines ≡ begun.old.lines }
    ensures said { begun.new.said ≡ begun.old.said }
{
    if begun.edits < MOST_EDITS {
        begun.edits += 1;
        Ok(())
    } else {
        Err(Halt::Refused(Refusal::TooManyEdits))
    }
}
