//! How styles are printed: by what differs from another style.

use std::fmt::Debug;
use std::io;
use std::io::Write;
use style_types::{Insets, SideSizes, SideWidths, Style};

/// Prints the fields of a style that differ from the other style's.
pub(crate) fn print_differences<W: Write>(
    output: &mut W,
    style: &Style,
    other: &Style,
) -> io::Result<()> {
    print_modes(output, style, other)?;
    print_text_fields(output, style, other)?;
    print_sizes(output, style, other)?;
    print_sides(output, "margin", style.margin, other.margin)?;
    print_sides(output, "padding", style.padding, other.padding)?;
    print_widths(output, "border", style.border, other.border)?;
    print_field(output, "relative", style.relative, other.relative)?;
    print_insets(output, style.insets, other.insets)
}

fn print_modes<W: Write>(output: &mut W, style: &Style, other: &Style) -> io::Result<()> {
    print_field(output, "display", style.display, other.display)?;
    print_field(output, "mode", style.mode, other.mode)?;
    print_field(output, "direction", style.direction, other.direction)?;
    print_field(output, "orientation", style.orientation, other.orientation)
}

fn print_text_fields<W: Write>(output: &mut W, style: &Style, other: &Style) -> io::Result<()> {
    print_field(output, "combine", style.combine, other.combine)?;
    print_field(output, "bidi", style.bidi, other.bidi)?;
    print_field(output, "font-size", style.font_size, other.font_size)?;
    print_field(output, "face", style.face, other.face)?;
    print_field(output, "line-height", style.line_height, other.line_height)?;
    print_field(output, "align", style.align, other.align)?;
    print_field(output, "shift", style.shift, other.shift)
}

fn print_sizes<W: Write>(output: &mut W, style: &Style, other: &Style) -> io::Result<()> {
    print_field(output, "width", style.width, other.width)?;
    print_field(output, "height", style.height, other.height)?;
    print_field(output, "min-width", style.min_width, other.min_width)?;
    print_field(output, "min-height", style.min_height, other.min_height)?;
    print_field(output, "max-width", style.max_width, other.max_width)?;
    print_field(output, "max-height", style.max_height, other.max_height)
}

fn print_sides<W: Write>(
    output: &mut W,
    name: &str,
    sides: SideSizes,
    other: SideSizes,
) -> io::Result<()> {
    print_side(output, name, "top", sides.top, other.top)?;
    print_side(output, name, "right", sides.right, other.right)?;
    print_side(output, name, "bottom", sides.bottom, other.bottom)?;
    print_side(output, name, "left", sides.left, other.left)
}

fn print_widths<W: Write>(
    output: &mut W,
    name: &str,
    sides: SideWidths,
    other: SideWidths,
) -> io::Result<()> {
    print_side(output, name, "top", sides.top, other.top)?;
    print_side(output, name, "right", sides.right, other.right)?;
    print_side(output, name, "bottom", sides.bottom, other.bottom)?;
    print_side(output, name, "left", sides.left, other.left)
}

fn print_insets<W: Write>(output: &mut W, insets: Insets, other: Insets) -> io::Result<()> {
    print_side(output, "inset", "top", insets.top, other.top)?;
    print_side(output, "inset", "right", insets.right, other.right)?;
    print_side(output, "inset", "bottom", insets.bottom, other.bottom)?;
    print_side(output, "inset", "left", insets.left, other.left)
}

fn print_side<W: Write, T: Copy + Debug + PartialEq>(
    output: &mut W,
    name: &str,
    side: &str,
    value: T,
    other: T,
) -> io::Result<()> {
    if value == other {
        return Ok(());
    }
    write!(output, " {name}-{side}={value:?}")
}

fn print_field<W: Write, T: Copy + Debug + PartialEq>(
    output: &mut W,
    name: &str,
    value: T,
    other: T,
) -> io::Result<()> {
    if value == other {
        return Ok(());
    }
    write!(output, " {name}={value:?}")
}
