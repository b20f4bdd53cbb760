//! What is printed of small values.

use std::fmt::Display;
use std::io;
use std::io::Write;

/// Prints a number, or `-` for none.
pub(crate) fn print_if_any<W: Write, T: Copy + Display>(
    output: &mut W,
    number: Option<T>,
) -> io::Result<()> {
    match number {
        Some(number) => write!(output, " {number}"),
        None => write!(output, " -"),
    }
}

/// Prints `yes` or `no`.
pub(crate) fn print_flag<W: Write>(output: &mut W, flag: bool) -> io::Result<()> {
    if flag {
        write!(output, " yes")
    } else {
        write!(output, " no")
    }
}
