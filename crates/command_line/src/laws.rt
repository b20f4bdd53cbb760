//! A law of the command line. This function does nothing: its contract is the law.

ghost use Rattle.command_line.specs.Laws.{IsReadAsSpelled};

/// The words give a job exactly where they are read as that job.
pub fn read_as_spelled()
    ensures { IsReadAsSpelled }
{}
