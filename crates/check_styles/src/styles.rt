//! How nodes with their styles are printed.

use crate::differences::print_differences;
use std::io;
use std::io::Write;
use style_types::{Style, StyledKind, StyledNode};

/// Prints the nodes of a tree in document order.
pub(crate) fn print_styles<W: Write>(output: &mut W, root: &StyledNode) -> io::Result<()> {
    write!(output, "{}: ", root.node)?;
    print_node(output, root, &Style::initial())?;
    print_inner(output, root)
}

fn print_inner<W: Write>(output: &mut W, node: &StyledNode) -> io::Result<()> {
    for child in &node.children {
        write!(output, "{} in {}: ", child.node, node.node)?;
        print_node(output, child, &node.style)?;
        print_inner(output, child)?;
    }
    Ok(())
}

fn print_node<W: Write>(output: &mut W, node: &StyledNode, parent: &Style) -> io::Result<()> {
    print_kind(output, &node.kind)?;
    print_differences(output, &node.style, parent)?;
    writeln!(output)
}

fn print_kind<W: Write>(output: &mut W, kind: &StyledKind) -> io::Result<()> {
    match kind {
        StyledKind::Element => write!(output, "element"),
        StyledKind::Break => write!(output, "break"),
        StyledKind::Text { text } => print_text(output, text.as_str()),
    }
}

fn print_text<W: Write>(output: &mut W, text: &str) -> io::Result<()> {
    write!(output, "text ")?;
    for byte in text.bytes() {
        write!(output, "{byte:02x}")?;
    }
    Ok(())
}
