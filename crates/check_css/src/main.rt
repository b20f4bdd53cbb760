//! The program `check_css` answers for texts of CSS, one a line, so that the readers of CSS can be compared with others.
//!
//! A line has three words: the reader, which is `declarations` or `sheet`, the place of the text's first byte, and the
//! bytes of the text in hexadecimal, or `-` where it has none. The answer is a line.
//!
//! - Declarations stand with `; ` between them, each with its property, its value, `important` where it is, and its
//!   place, as in `Width Px(100) at 0; Height Keyword(Auto) important at 12`. Properties and values have the names of
//!   their variants, which no table of names plays into. Numbers are in hundredths.
//! - Rules stand with a space between them, each with its selector, as in `p > *.a#b {Width Px(100) at 9}`. A compound
//!   has its type or `*`, its classes and its ids.
//! - What is refused has its cause and place, as in `refused CssSyntax 34`.
//! - A line that is none of these is `not a case`.
#![tactic(auto)]

mod case;
mod printed;
mod rules;

use case::{Case, Reader, case_of};
use css_sheet::read_sheet;
use css_values::read_declarations;
use printed::{print_declarations, print_refusal};
use rules::print_rules;
use std::alloc::Global;
use std::io;
use std::io::{BufRead, BufReader, BufWriter, Write};

fn main(rt: HostRuntime) -> io::Result<()> {
    let input = BufReader::new(rt.alloc(), rt.reader())?;
    let mut output = BufWriter::new(rt.alloc(), io::writer(&rt))?;
    for line in input.lines(rt.alloc()) {
        let line = line?;
        answer(rt.alloc(), line.as_str(), &mut output)?;
    }
    output.flush()
}

fn answer<W: Write>(alloc: Global, line: &str, output: &mut W) -> io::Result<()> {
    match case_of(alloc, line)? {
        Some(case) => answer_case(alloc, &case, output)?,
        None => write!(output, "not a case")?,
    }
    writeln!(output)
}

fn answer_case<W: Write>(alloc: Global, case: &Case, output: &mut W) -> io::Result<()> {
    let text = case.text.as_str();
    match case.reader {
        Reader::Declarations => match read_declarations(alloc, text, case.start) {
            Ok(all) => print_declarations(output, &all),
            Err(error) => print_refusal(output, error),
        },
        Reader::Sheet => match read_sheet(alloc, text, case.start) {
            Ok(rules) => print_rules(output, &rules),
            Err(error) => print_refusal(output, error),
        },
    }
}
