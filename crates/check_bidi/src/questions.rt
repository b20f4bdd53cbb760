//! Questions for the parts of the algorithm: explicit levels, sequences, resolved levels, the ends of lines and their order
//! (UAX 9, P2 to L2).

ghost use Rattle.std.specs.Prelude.{◌≡◌, ◌≤◌, true, IfSome, length};

use bidi_explicit::{ClassList, LevelList, base_level, base_of, levels, runs};
use bidi_order::{BidiParagraph, line_order, order, reset, text_line_order};
use bidi_resolve::{paragraph_levels, resolve, text_levels};
use std::alloc::{AllocError, Global};
use std::fmt::Debug;
use std::io;
use std::io::Write;
use std::str::SplitWhitespace;
use wm_chars::BidiClass;

const CLASSES: [(&'static str, BidiClass); 22] = [
    ("L", BidiClass::L),
    ("R", BidiClass::R),
    ("AL", BidiClass::AL),
    ("EN", BidiClass::EN),
    ("ES", BidiClass::ES),
    ("ET", BidiClass::ET),
    ("AN", BidiClass::AN),
    ("CS", BidiClass::CS),
    ("NSM", BidiClass::NSM),
    ("B", BidiClass::B),
    ("S", BidiClass::S),
    ("WS", BidiClass::WS),
    ("ON", BidiClass::ON),
    ("LRE", BidiClass::LRE),
    ("LRO", BidiClass::LRO),
    ("RLE", BidiClass::RLE),
    ("RLO", BidiClass::RLO),
    ("PDF", BidiClass::PDF),
    ("LRI", BidiClass::LRI),
    ("RLI", BidiClass::RLI),
    ("FSI", BidiClass::FSI),
    ("PDI", BidiClass::PDI),
];

/// A text, each character with a class and a level of its own, and where a line of it begins and ends.
#[derive(Drop)]
pub(crate) struct Question {
    base: Option<u8>,
    start: usize,
    stop: usize,
    classes: ClassList,
    levels: LevelList,
    chars: Vec<char>,
}

/// The question of these words: the base level, the two places of the line, and the characters, each as its class, its
/// level and its code point in hexadecimal, parted by colons. A level that is left out is 0, a character is `a`. A word that is
/// no number or class stands for 0, L or U+FFFD.
pub(crate) fn read_question(
    alloc: Global,
    mut words: SplitWhitespace<'_>,
) -> Result<Question, AllocError> {
    let base = match words.next() {
        Some("0") => Some(0),
        Some("1") => Some(1),
        _ => None,
    };
    let start = place(words.next());
    let stop = place(words.next());
    let mut question = Question {
        base,
        start,
        stop,
        classes: Vec::new(alloc),
        levels: Vec::new(alloc),
        chars: Vec::new(alloc),
    };
    for word in words {
        let mut parts = word.split(':');
        question.classes.push(class(parts.next()))?;
        question.levels.push(level(parts.next()))?;
        question.chars.push(character(parts.next()))?;
    }
    Ok(question)
}

fn place(word: Option<&str>) -> usize {
    match word {
        Some(word) => word.parse::<usize>().unwrap_or(0),
        None => 0,
    }
}

fn class(word: Option<&str>) -> BidiClass {
    match word {
        Some(word) => class_named(word),
        None => BidiClass::L,
    }
}

fn class_named(word: &str) -> BidiClass {
    for (name, class) in &CLASSES {
        if *name == word {
            return *class;
        }
    }
    BidiClass::L
}

fn level(word: Option<&str>) -> u8 {
    match word {
        Some(word) => word.parse::<u8>().unwrap_or(0),
        None => 0,
    }
}

fn character(word: Option<&str>) -> char {
    match word {
        Some(word) => {
            let code = u32::from_str_radix(word, 16).unwrap_or(0xFFFD);
            char::from_u32(code).unwrap_or('\u{FFFD}')
        }
        None => 'a',
    }
}

/// Prints the answer to a question of this kind.
pub(crate) fn answer_question<W: Write>(
    alloc: Global,
    kind: &str,
    question: &Question,
    output: &mut W,
) -> io::Result<()> {
    let count = question.classes.len();
    if question.levels.len() != count
        || question.chars.len() != count
        || question.start > question.stop
        || question.stop > count
        || !is_base(question.base)
    {
        return writeln!(output, "outside");
    }
    match kind {
        "explicit" => print_explicit_levels(alloc, question, output),
        "sequence" => print_sequence(alloc, question, output),
        "resolved" => print_resolved_levels(alloc, question, output),
        "order" => print(output, &order(alloc, &question.levels)?),
        "reset" => print_reset_levels(alloc, question, output),
        "line" => print_line_order(alloc, question, output),
        "text" => print_text(alloc, question, output),
        _ => write!(output, "outside"),
    }?;
    writeln!(output)
}

fn is_base(base: Option<u8>) -> bool
    ensures { result ≡ true → IfSome base (λ base. base ≤ 1) }
{
    match base {
        Some(base) => base <= 1,
        None => true,
    }
}

// The level of the first strong character, the explicit levels, with a sign for what X9 removes, and the isolating run
// sequences.
fn print_explicit_levels<W: Write>(
    alloc: Global,
    question: &Question,
    output: &mut W,
) -> io::Result<()>
    requires { IfSome question.now.base (λ base. base ≤ 1) }
{
    match base_level(&question.classes) {
        Some(level) => write!(output, "{level};")?,
        None => write!(output, "-;")?,
    }
    let base = base_of(question.base, &question.classes);
    let levels = levels(alloc, &question.classes, base)?;
    for (level, removed) in levels.level.iter().zip(&levels.removed) {
        if *removed {
            write!(output, " x")?;
        } else {
            write!(output, " {level}")?;
        }
    }
    for run in &runs(alloc, &levels)? {
        write!(output, "; {:?} {:?}", run.sos, run.eos)?;
        print(output, &run.places)?;
    }
    Ok(())
}

// The levels and classes of a paragraph of one sequence, which is resolved.
fn print_sequence<W: Write>(alloc: Global, question: &Question, output: &mut W) -> io::Result<()>
    requires base { IfSome question.now.base (λ base. base ≤ 1) }
    requires chars { length question.now.chars.items ≡ length question.now.classes.items }
{
    let base = base_of(question.base, &question.classes);
    let mut levels = levels(alloc, &question.classes, base)?;
    let runs = runs(alloc, &levels)?;
    if runs.len() != 1 {
        return write!(output, "outside");
    }
    resolve(alloc, &question.chars, &mut levels, &runs[0])?;
    print(output, &levels.level)?;
    write!(output, ";")?;
    print(output, &levels.class)
}

// The levels by the characters' own classes.
fn print_resolved_levels<W: Write>(
    alloc: Global,
    question: &Question,
    output: &mut W,
) -> io::Result<()>
    requires base { IfSome question.now.base (λ base. base ≤ 1) }
    requires chars { length question.now.chars.items ≡ length question.now.classes.items }
{
    let base = base_of(question.base, &question.classes);
    let levels = paragraph_levels(alloc, &question.chars, &question.classes, base)?;
    print(output, &levels)
}

// The levels behind L1, where the text is one line.
fn print_reset_levels<W: Write>(
    alloc: Global,
    question: &Question,
    output: &mut W,
) -> io::Result<()>
    requires base { IfSome question.now.base (λ base. base ≤ 1) }
    requires levels { length question.now.levels.items ≡ length question.now.classes.items }
{
    let base = base_of(question.base, &question.classes);
    let mut levels = Vec::from_slice(alloc, &question.levels)?;
    reset(&mut levels, &question.classes, base);
    print(output, &levels)
}

// The order of the line.
fn print_line_order<W: Write>(alloc: Global, question: &Question, output: &mut W) -> io::Result<()>
    requires base { IfSome question.now.base (λ base. base ≤ 1) }
    requires levels { length question.now.levels.items ≡ length question.now.classes.items }
    requires start { question.now.start ≤ question.now.stop }
    requires stop { question.now.stop ≤ length question.now.classes.items }
{
    let Question {
        start,
        stop,
        levels,
        classes,
        ..
    } = question;
    let base = base_of(question.base, classes);
    print(
        output,
        &line_order(alloc, levels, classes, base, *start, *stop)?,
    )
}

// The base level, the classes and the levels of the text, and the order of the line, of the paragraph and of the text by
// itself.
fn print_text<W: Write>(alloc: Global, question: &Question, output: &mut W) -> io::Result<()>
    requires base { IfSome question.now.base (λ base. base ≤ 1) }
    requires chars { length question.now.chars.items ≡ length question.now.classes.items }
    requires start { question.now.start ≤ question.now.stop }
    requires stop { question.now.stop ≤ length question.now.classes.items }
{
    let base = question.base;
    let chars = &question.chars;
    let paragraph = BidiParagraph::new(alloc, chars, base)?;
    write!(output, "{};", paragraph.base())?;
    print(output, paragraph.classes())?;
    write!(output, ";")?;
    print(output, paragraph.levels())?;
    write!(output, ";")?;
    print(output, &text_levels(alloc, chars, base)?)?;
    write!(output, ";")?;
    print(
        output,
        &paragraph.line(alloc, question.start, question.stop)?,
    )?;
    write!(output, ";")?;
    print(
        output,
        &text_line_order(alloc, chars, base, question.start, question.stop)?,
    )
}

fn print<W: Write, T: Debug>(output: &mut W, values: &[T]) -> io::Result<()> {
    for value in values {
        write!(output, " {value:?}")?;
    }
    Ok(())
}
