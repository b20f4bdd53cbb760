//! What stands behind the words of a line.

ghost use Rattle.std.specs.Prelude.{◌≡◌, IfErr, IfOk, length, map};
ghost use Rattle.std.specs.List.{All};
ghost use Rattle.std.specs.String.{string_bytes};
ghost use Rattle.html_read.specs.Judging as judging;
ghost use Rattle.html_read.specs.Shape.{IsFragmentShaped};
ghost use Rattle.css_types.specs.Rule.{rulings_of};
ghost use Rattle.dom_store.specs.State.{AreSaid};
ghost use Rattle.edit_script.specs.declared.error.Halt.TheVariants as halts;
ghost use Rattle.edit_script.specs.Error.{Reads};
ghost use Rattle.edit_script.specs.Fitting.{Fits, HasFitting};
ghost use Rattle.edit_script.specs.Meaning as meanings;
ghost use Rattle.edit_script.specs.Views.{command_of, new_of, step_of};

use crate::command::Command;
use crate::error::{Halt, Refusal};
use crate::step::ScriptStep;
use css_sheet::{read_sheet, read_styled};
use css_types::{Declarations, Rules};
use css_values::read_declarations;
use dom_store::NewNodes;
use edits::{Edit, TreeEdit};
use html_read::{ReadDocument, Sheets, read_fragment};
use html_tokens::gap;
use letters::{LetterList, Letters, SharedText};
use std::alloc::Global;

/// What a line says whose words say this.
#[tactic(auto, unfolding(crate::specs::Meaning::meaning))]
pub(crate) fn meaning(alloc: Global, command: Command<'_>) -> Result<ScriptStep, Halt>
    ensures read { Reads step_of result (meanings.meaning (command_of command.entry)) }
    ensures fits { HasFitting (command_of command.entry) → IfOk result (λ step. Fits (step_of step)) }
{
    match command {
        Command::Text { node, rest } => {
            let text = SharedText::new(alloc, letters(alloc, rest)?)?;
            Ok(ScriptStep::Edit(Edit::Tree(TreeEdit::Text { node, text })))
        }
        Command::Style { node, rest } => {
            let declarations = own(alloc, rest)?;
            Ok(ScriptStep::Edit(Edit::Tree(TreeEdit::Style { node, declarations })))
        }
        Command::Class { node, rest } => {
            let words = class_words(alloc, rest)?;
            Ok(ScriptStep::Edit(Edit::Tree(TreeEdit::Class { node, words })))
        }
        Command::Insert {
            parent,
            index,
            rest,
        } => {
            let nodes = new_nodes(alloc, rest)?;
            Ok(ScriptStep::Edit(Edit::Tree(TreeEdit::Insert {
                parent,
                index,
                nodes,
            })))
        }
        Command::Remove { node } => Ok(ScriptStep::Edit(Edit::Tree(TreeEdit::Remove { node }))),
        Command::Move {
            node,
            parent,
            index,
        } => Ok(ScriptStep::Edit(Edit::Tree(TreeEdit::Move {
            node,
            parent,
            index,
        }))),
        Command::Metric {
            face,
            c,
            upright,
            value,
        } => Ok(ScriptStep::Edit(Edit::Metric {
            face,
            c,
            upright,
            value,
        })),
        Command::Retire { face } => Ok(ScriptStep::Edit(Edit::Retire { face })),
        Command::Rule { rest } => {
            let rules = sheet_rules(alloc, rest)?;
            Ok(ScriptStep::Edit(Edit::Rule { rules }))
        }
        Command::Unrule { index } => Ok(ScriptStep::Edit(Edit::Unrule { index })),
        Command::Undo => Ok(ScriptStep::Undo),
        Command::Redo => Ok(ScriptStep::Redo),
        Command::Show => Ok(ScriptStep::Show),
    }
}

// The letters of a text in which no `<` stands. What stands before the first one is judged before it.
fn letters(alloc: Global, text: &str) -> Result<Letters, Halt>
    ensures { Reads (λ l. string_bytes l) result (meanings.letters text.now) }
{
    match text.split_once('<') {
        None => whole_gap(alloc, text),
        Some((before, _)) => {
            whole_gap(alloc, before)?;
            Err(Halt::Refused(Refusal::Html(html_read::Refusal::Syntax)))
        }
    }
}

// The letters of a text, to its end.
#[tactic(auto, unfolding(crate::specs::Meaning::whole_gap))]
fn whole_gap(alloc: Global, text: &str) -> Result<Letters, Halt>
    ensures { Reads (λ l. string_bytes l) result (meanings.whole_gap text.now) }
{
    let (letters, left) = gap(alloc, text)?;
    if left.is_empty() {
        Ok(letters)
    } else {
        Err(Halt::Refused(Refusal::Html(html_read::Refusal::Syntax)))
    }
}

// Own declarations.
#[tactic(auto, unfolding(crate::specs::Meaning::own))]
fn own(alloc: Global, text: &str) -> Result<Declarations, Halt>
    ensures read { Reads (λ d. d.items) result (meanings.own text.now) }
    ensures said { IfOk result (λ d. AreSaid d.items) }
{
    Ok(read_declarations(alloc, text, 0)?)
}

// The rules of a sheet of its own.
#[tactic(auto, unfolding(crate::specs::Meaning::sheet_rules))]
fn sheet_rules(alloc: Global, text: &str) -> Result<Rules, Halt>
    ensures read { Reads (λ r. rulings_of r.items) result (meanings.sheet_rules text.now) }
    ensures said { IfOk result (λ r. All (λ rule. AreSaid rule.declarations) (rulings_of r.items)) }
{
    Ok(read_sheet(alloc, text, 0)?)
}

// The words of a text, between white space.
fn class_words(alloc: Global, text: &str) -> Result<LetterList, Halt>
    ensures words { IfOk result (λ w. map (λ s. string_bytes s) w.items ≡ judging.words text.now) }
    ensures memory { IfErr result (λ halt. halt ≡ halts.Memory) }
{
    let mut words = LetterList::new(alloc);
    for word in text.split_ascii_whitespace() {
        words.push(Letters::from_str(alloc, word)?)?;
    }
    Ok(words)
}

// The nodes of a fragment, and each one's own declarations.
#[tactic(auto, unfolding(crate::specs::Meaning::new_nodes))]
fn new_nodes(alloc: Global, text: &str) -> Result<NewNodes, Halt>
    ensures read { Reads new_of result (meanings.new_nodes text.now) }
    ensures shaped { IfOk result (λ new. IsFragmentShaped (new_of new).0) }
    ensures each { IfOk result (λ new. length (new_of new).1 ≡ length (new_of new).0) }
    ensures said { IfOk result (λ new. All AreSaid (new_of new).1) }
{
    let fragment = ReadDocument {
        nodes: read_fragment(alloc, text)?,
        sheets: Sheets::new(alloc),
        end: 0,
    };
    let styled = read_styled(alloc, &fragment)?;
    Ok(NewNodes {
        read: fragment.nodes,
        styles: styled.styles,
    })
}
