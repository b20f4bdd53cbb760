//! The generated input: paragraphs, and an edit of each.

ghost use Rattle.std.specs.Prelude.{◌≡◌, ◌++◌, ◌≤◌, ◌<◌, length, IfOk, OnOk};
ghost use Rattle.generator.specs.Generator as spec;

use itoa::Buffer;
use std::alloc::{AllocError, AllocFailed, Global};

/// A document of `count` paragraphs, and a script that lists it, sets the text of each and lists it again.
#[tactic(auto, unfolding(crate::specs::Generator::gen_input))]
pub fn gen_input(alloc: Global, count: u32) -> Result<Vec<u8>, AllocError>
    requires some { 1 ≤ count }
    requires few { count ≤ 1000 }
    ensures bytes { IfOk result (λ made. made.items ≡ spec.gen_input count) }
    ensures short { IfOk result (λ made. length made.items ≤ 1048576) }
{
    let mut input = Vec::from_slice(alloc, b"<html><body>")?;
    push_paragraphs(&mut input, count)?;
    input.extend_from_slice(b"</body></html>\nshow\n")?;
    push_edits(&mut input, count)?;
    input.extend_from_slice(b"show\n")?;
    Ok(input)
}

fn push_paragraphs(input: &mut Vec<u8>, count: u32) -> Result<(), AllocError>
    ensures { OnOk result (input.new.items ≡ input.old.items ++ spec.pieces spec.paragraph count) }
{
    for k in 0..count {
        input.extend_from_slice(paragraph(k))?;
    }
    Ok(())
}

fn push_edits(input: &mut Vec<u8>, count: u32) -> Result<(), AllocError>
    requires few { count ≤ 1000 }
    ensures { OnOk result (input.new.items ≡ input.old.items ++ spec.pieces spec.edit count) }
{
    for k in 0..count {
        push_edit(input, k)?;
    }
    Ok(())
}

fn paragraph(k: u32) -> &'static [u8]
    ensures { result.now ≡ spec.paragraph k }
{
    if k % 4 == 3 {
        b"<div style=\"writing-mode:vertical-rl\"><p>a b</p></div>"
    } else {
        b"<p>a</p>"
    }
}

// The line that sets the text of a paragraph.
fn push_edit(input: &mut Vec<u8>, k: u32) -> Result<(), AllocError>
    requires few { k < 1000 }
    ensures { OnOk result (input.new.items ≡ input.old.items ++ spec.edit k) }
{
    input.extend_from_slice(b"text ")?;
    input.extend_from_slice(Buffer::new().format(text_node(k)).as_bytes())?;
    push_words(input, k % 7 + 1)?;
    input.extend_from_slice(b"\n")?;
    Ok(())
}

fn push_words(input: &mut Vec<u8>, count: u32) -> Result<(), AllocError>
    ensures { OnOk result (input.new.items ≡ input.old.items ++ spec.words count) }
{
    for _ in 0..count {
        input.extend_from_slice(b" a")?;
    }
    Ok(())
}

// The number of a paragraph's text node.
fn text_node(k: u32) -> u32
    requires few { k < 1000 }
    ensures { result ≡ spec.text_node k }
{
    if k % 4 == 3 {
        9 * (k / 4) + 10
    } else {
        9 * (k / 4) + 2 * (k % 4) + 3
    }
}
