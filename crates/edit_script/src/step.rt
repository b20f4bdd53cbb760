//! What a script says.

use edits::Edit;

/// What a line says.
#[derive(Debug, Drop)]
pub enum ScriptStep {
    /// The page is listed.
    Show,
    /// The document is edited.
    Edit(Edit),
    /// The last edit is taken back, where one can be.
    Undo,
    /// The edit that was taken back last is done again, where there is one.
    Redo,
}

/// What a line says, and the line's number. Lines count from 1.
#[derive(Debug, Drop)]
pub struct ScriptLine {
    pub line: usize,
    pub what: ScriptStep,
}

/// What the lines of a script say, in order. Lines that say nothing are left out.
pub type Script = Vec<ScriptLine>;
