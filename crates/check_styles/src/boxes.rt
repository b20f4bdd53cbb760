//! How boxes are printed.

ghost use Rattle.std.specs.Prelude.{◌≡◌, true, false, codes};

use box_gen::{BoxTree, Content};
use fragment_types::{BoxName, Item};
use std::io;
use std::io::Write;

/// Prints the boxes of a tree, each before those inside it.
pub(crate) fn print_boxes<W: Write>(output: &mut W, root: &BoxTree) -> io::Result<()> {
    write!(output, "box ")?;
    print_name(output, root.node.name)?;
    print_content(output, &root.node.content)?;
    print_inner(output, root)
}

fn print_inner<W: Write>(output: &mut W, tree: &BoxTree) -> io::Result<()> {
    for child in &tree.children {
        write!(output, "box ")?;
        print_name(output, child.node.name)?;
        write!(output, " in ")?;
        print_name(output, tree.node.name)?;
        print_content(output, &child.node.content)?;
        print_inner(output, child)?;
    }
    Ok(())
}

fn print_name<W: Write>(output: &mut W, name: BoxName) -> io::Result<()> {
    write!(output, "{}.{}", name.node, name.ordinal)
}

fn print_content<W: Write>(output: &mut W, content: &Content) -> io::Result<()> {
    match content {
        Content::Blocks => writeln!(output, ": blocks"),
        Content::Inline(items) => print_paragraph(output, items),
    }
}

fn print_paragraph<W: Write>(output: &mut W, items: &[Item]) -> io::Result<()> {
    write!(output, ": paragraph")?;
    let mut between = " ";
    for item in items {
        write!(output, "{between}")?;
        print_item(output, item)?;
        between = ", ";
    }
    writeln!(output)
}

fn print_item<W: Write>(output: &mut W, item: &Item) -> io::Result<()> {
    match item {
        Item::Text { node, .. } => write!(output, "text {node}"),
        Item::Open { node, opens, .. } => write!(output, "{} {node}", beginning(*opens)),
        Item::Close { node, closes } => write!(output, "{} {node}", end(*closes)),
        Item::Atom { name } => {
            write!(output, "atom ")?;
            print_name(output, *name)
        }
        Item::Break { node } => write!(output, "break {node}"),
    }
}

// How a piece of an inline box begins, by whether it has the box's inline-start edges.
fn beginning(opens: bool) -> &'static str
    ensures first { opens ≡ true → result.now ≡ codes "open" }
    ensures further { opens ≡ false → result.now ≡ codes "resume" }
{
    if opens { "open" } else { "resume" }
}

// How a piece of an inline box ends, by whether it has the box's inline-end edges.
fn end(closes: bool) -> &'static str
    ensures last { closes ≡ true → result.now ≡ codes "close" }
    ensures earlier { closes ≡ false → result.now ≡ codes "pause" }
{
    if closes { "close" } else { "pause" }
}
