//! How rules are printed.

ghost use Rattle.std.specs.Prelude.{◌≡◌, codes};
ghost use Rattle.css_types.specs.declared.rule.Joint.TheVariants.{Child, Descendant};

use crate::printed::print_declarations;
use css_types::{Joint, Part, Rule};
use std::io;
use std::io::Write;

/// Prints rules in order.
pub(crate) fn print_rules<W: Write>(output: &mut W, rules: &[Rule]) -> io::Result<()> {
    let mut between = "";
    for rule in rules {
        write!(output, "{between}")?;
        print_rule(output, rule)?;
        between = " ";
    }
    Ok(())
}

fn print_rule<W: Write>(output: &mut W, rule: &Rule) -> io::Result<()> {
    print_selector(output, &rule.selector.parts)?;
    write!(output, " {{")?;
    print_declarations(output, &rule.declarations)?;
    write!(output, "}}")
}

fn print_selector<W: Write>(output: &mut W, parts: &[Part]) -> io::Result<()> {
    let Some((first, others)) = parts.split_first() else {
        return Ok(());
    };
    print_compound(output, first)?;
    for part in others {
        write!(output, "{}", joint_of(part.joint))?;
        print_compound(output, part)?;
    }
    Ok(())
}

fn joint_of(joint: Joint) -> &'static str
    ensures descendant { joint ≡ Descendant → result.now ≡ codes " " }
    ensures child { joint ≡ Child → result.now ≡ codes " > " }
{
    match joint {
        Joint::Descendant => " ",
        Joint::Child => " > ",
    }
}

fn print_compound<W: Write>(output: &mut W, part: &Part) -> io::Result<()> {
    match &part.tag {
        Some(tag) => write!(output, "{tag}")?,
        None => write!(output, "*")?,
    }
    print_names(output, ".", &part.classes)?;
    print_names(output, "#", &part.ids)
}

// Prints each name behind its mark.
fn print_names<W: Write>(output: &mut W, mark: &str, names: &[String]) -> io::Result<()> {
    for name in names {
        write!(output, "{mark}{name}")?;
    }
    Ok(())
}
