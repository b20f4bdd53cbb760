//! What a command line asks for.

use wm_units::View;

/// What is to be done.
#[derive(Clone, Copy, Debug, PartialEq, Eq)]
pub enum Command {
    /// A document is read and its listing written.
    Layout,
    /// A document and a script of edits are read, and a listing is written for each `show`.
    Edit,
    /// A document that ties its boxes to no mode is read, and its flow is listed, and its page in each of four modes.
    Modes,
    /// The edits of the generated input are run, and what they write is counted.
    Gen,
    /// A document and the lines of a probe are read, and each line is answered over the page.
    Probe,
}

/// A command with its options.
#[derive(Clone, Copy, Debug, PartialEq, Eq)]
pub struct Job {
    pub command: Command,
    /// The sizes of the view on the root's axes, in units of 1/64 px.
    pub view: View,
    /// How many paragraphs the generated input has, from 1 to 1,000.
    pub count: u32,
}
