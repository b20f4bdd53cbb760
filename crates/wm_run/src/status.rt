//! How a run ends.

/// How a run ended. The program ends with these as its status, 0 to 5 in this order.
#[derive(Clone, Copy, Debug, PartialEq, Eq)]
pub enum Status {
    /// All due bytes are written.
    Done,
    /// The words are no command, and the usage line is written.
    Usage,
    /// The input is refused, and a line with the kind and the place is written.
    Refused,
    /// Memory ran out. A front of the due bytes may be written.
    Memory,
    /// The source failed. Nothing is written.
    ReadFault,
    /// The sink failed. A front of the due bytes is written.
    WriteFault,
}
