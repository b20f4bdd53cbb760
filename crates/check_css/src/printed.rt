//! How answers are printed.

use css_types::Declaration;
use css_values::CssError;
use std::io;
use std::io::Write;

/// Prints a refusal.
pub(crate) fn print_refusal<W: Write>(output: &mut W, error: CssError) -> io::Result<()> {
    match error {
        CssError::Refused { kind, place } => write!(output, "refused {kind:?} {place}"),
        CssError::Memory => Err(io::ErrorKind::OutOfMemory.into()),
    }
}

/// Prints declarations in order.
pub(crate) fn print_declarations<W: Write>(output: &mut W, all: &[Declaration]) -> io::Result<()> {
    let mut between = "";
    for declaration in all {
        write!(output, "{between}")?;
        print_declaration(output, *declaration)?;
        between = "; ";
    }
    Ok(())
}

fn print_declaration<W: Write>(output: &mut W, declaration: Declaration) -> io::Result<()> {
    write!(output, "{:?} {:?}", declaration.property, declaration.value)?;
    if declaration.important {
        write!(output, " important")?;
    }
    write!(output, " at {}", declaration.place)
}
