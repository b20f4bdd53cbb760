//! The author's rules of a session, with some more or some less, and the steps of such edits.

ghost use Rattle.std.specs.Prelude.{◌≡◌, ◌+◌, ◌-◌, ◌<◌, ◌≤◌, ◌^◌, ◌++◌, IfErr, IfOk, OnErr, OnOk, false, drop, length, min, take};
ghost use Rattle.css_types.specs.Rule.{rulings_of};
ghost use Rattle.cascade.specs.Index.{index_rules};
ghost use Rattle.cascade.specs.Winners.{AreSaidRules};
ghost use Rattle.dom_store.specs.State.{IsRooted, IsSaidState, state_of};
ghost use Rattle.edits.specs.Edited as rule;
ghost use Rattle.edits.specs.Exact.{put_at, rule_step as rule_step_of, step_as, taken_at, unrule_step as unrule_step_of};
ghost use Rattle.style_tree.specs.Styling.{styled_document};
ghost use Rattle.box_limits.specs.Limits.{Answers};
ghost use Rattle.box_limits.specs.Rules.{turn_none};

use box_gen::check_boxes;
use box_limits::{LimitError, turn_none};
use cascade::RuleIndex;
use css_types::{Rule, Rules, copy_of_rules};
use dom_store::Document;
use edits::{ExactEdit, Step};
use std::alloc::{AllocError, Global};
use style_tree::styled;

/// The greatest count of an author's rules.
const MOST_RULES: usize = 4096;

/// The greatest count of declarations in them.
const MOST_DECLARATIONS: usize = 65_536;

/// Whether these rules with more are too many.
pub(crate) fn are_too_many(rules: &[Rule], more: &[Rule]) -> bool
    ensures { result ≡ rule.are_too_many (rulings_of rules.now ++ rulings_of more.now) }
{
    rules.len().saturating_add(more.len()) > MOST_RULES
        || declared(rules).saturating_add(declared(more)) > MOST_DECLARATIONS
}

// How many declarations there are in rules, held at the last number of usize.
fn declared(rules: &[Rule]) -> usize
    ensures { result ≡ min (rule.declared (rulings_of rules.now)) (2 ^ 64 - 1) }
{
    let mut count: usize = 0;
    for rule in rules {
        count = count.saturating_add(rule.declarations.len());
    }
    count
}

/// Puts copies of rules behind the others. Where memory runs out nothing is put.
pub(crate) fn put_behind(alloc: Global, rules: &mut Rules, more: &[Rule]) -> Result<(), AllocError>
    ensures put { IfOk result (λ _. rulings_of rules.new.items ≡ rulings_of rules.old.items ++ rulings_of more.now) }
    ensures same { IfErr result (λ _. rules.new.items ≡ rules.old.items) }
{
    let mut copies = copy_of_rules(alloc, more)?;
    rules.append(&mut copies)?;
    Ok(())
}

/// Copies of rules with more behind them.
pub(crate) fn rules_behind(
    alloc: Global,
    rules: &[Rule],
    more: &[Rule],
) -> Result<Rules, AllocError>
    ensures { IfOk result (λ made. rulings_of made.items ≡ rulings_of rules.now ++ rulings_of more.now) }
{
    let mut made = copy_of_rules(alloc, rules)?;
    put_behind(alloc, &mut made, more)?;
    Ok(made)
}

/// The step of rules that come behind these.
pub(crate) fn step_of_rules(
    alloc: Global,
    rules: &[Rule],
    more: &[Rule],
) -> Result<Step, AllocError>
    requires { rule.are_too_many (rulings_of rules.now ++ rulings_of more.now) ≡ false }
    ensures { IfOk result (λ step. step_as step ≡ rule_step_of (rulings_of rules.now) (rulings_of more.now)) }
{
    let index = rules.len() as u32;
    let back = ExactEdit::TakeRules {
        index,
        count: more.len() as u32,
    };
    let again = ExactEdit::PutRules {
        index,
        rules: copy_of_rules(alloc, more)?,
    };
    Ok(Step { back, again })
}

/// The step of a rule that goes.
pub(crate) fn step_without(alloc: Global, rules: &[Rule], index: u32) -> Result<Step, AllocError>
    requires { index < length rules.now }
    ensures { IfOk result (λ step. step_as step ≡ unrule_step_of (rulings_of rules.now) index) }
{
    let (_, behind) = rules.split_at(index as usize);
    let (one, _) = behind.split_at(1);
    let back = ExactEdit::PutRules {
        index,
        rules: copy_of_rules(alloc, one)?,
    };
    let again = ExactEdit::TakeRules { index, count: 1 };
    Ok(Step { back, again })
}

/// Puts copies of rules among the others, the first of them at this index. Where memory runs out nothing is put.
pub(crate) fn put_among(
    alloc: Global,
    rules: &mut Rules,
    index: usize,
    more: &[Rule],
) -> Result<(), AllocError>
    requires { index ≤ length rules.old.items }
    ensures put { OnOk result (rulings_of rules.new.items ≡ put_at index (rulings_of more.now) (rulings_of rules.old.items)) }
    ensures same { OnErr result (rules.new.items ≡ rules.old.items) }
{
    let copies = copy_of_rules(alloc, more)?;
    rules.splice(index..index, copies)?;
    Ok(())
}

/// Takes so many rules away, the first of them at this index. Takes no memory.
pub(crate) fn take_among(rules: &mut Rules, index: usize, count: usize)
    requires { index + count ≤ length rules.old.items }
    ensures { rulings_of rules.new.items ≡ taken_at index count (rulings_of rules.old.items) }
{
    take_run(rules, index, count);
}

// Takes a run of rules out of their list.
fn take_run(rules: &mut Rules, index: usize, count: usize)
    requires { index + count ≤ length rules.old.items }
    ensures { rules.new.items ≡ take index rules.old.items ++ drop (index + count) rules.old.items }
{
    let (_, behind) = rules.split_at_mut(index);
    behind.rotate_left(count);
    rules.truncate(rules.len() - count);
}

/// Copies of all rules but one.
pub(crate) fn rules_without(
    alloc: Global,
    rules: &[Rule],
    index: usize,
) -> Result<Rules, AllocError>
    requires { index < length rules.now }
    ensures { IfOk result (λ made. rulings_of made.items ≡ rule.without index (rulings_of rules.now)) }
{
    let (before, _) = rules.split_at(index);
    let (_, behind) = rules.split_at(index + 1);
    let mut made = copy_of_rules(alloc, before)?;
    put_behind(alloc, &mut made, behind)?;
    Ok(made)
}

/// Whether the rule of this index turns no box.
pub(crate) fn turns_none(rules: &[Rule], index: usize) -> bool
    requires { index < length rules.now }
    ensures { result ≡ turn_none (take 1 (drop index (rulings_of rules.now))) }
{
    let (_, behind) = rules.split_at(index);
    let (one, _) = behind.split_at(1);
    turn_none(one)
}

/// Whether the boxes of a document under these rules are within their limit.
pub(crate) fn check_rules(
    alloc: Global,
    document: &Document,
    rules: &RuleIndex,
) -> Result<(), LimitError>
    requires rooted { IsRooted (state_of document.now) }
    requires rules { AreSaidRules (index_rules rules.now) }
    requires own { IsSaidState (state_of document.now) }
    ensures { Answers (index_rules rules.now) (state_of document.now) result }
{
    let root = styled(alloc, document, rules)?;
    check_boxes(&root)?;
    Ok(())
}
