//! The generated input, by what is due by hand.

use generator::gen_input;
use std::str;
use std::test::*;

const FOUR: &str = "\
<html><body><p>a</p><p>a</p><p>a</p><div style=\"writing-mode:vertical-rl\"><p>a b</p></div></body></html>
show
text 3 a
text 5 a a
text 7 a a a
text 10 a a a a
show
";

#[test]
fn four_paragraphs(rt: HostRuntime) -> Result<(), Fail> {
    let input = gen_input(rt.alloc(), 4)?;
    assert_eq!(rt; str::from_utf8(input.as_slice()), Ok(FOUR));
    Ok(())
}

#[test]
fn most_paragraphs(rt: HostRuntime) -> Result<(), Fail> {
    let input = gen_input(rt.alloc(), 1_000)?;
    assert_eq!(rt; input.len(), 37_042);
    Ok(())
}
