//! The index of a session's rules, which is made when it is asked.

ghost use Rattle.std.specs.Prelude.{◌≡◌, IfOk, IfSome, IsSome, IsSomeAnd, OnOk, Some};
ghost use Rattle.css_types.specs.Rule.{rulings_of};
ghost use Rattle.cascade.specs.Index.{index_rules};
ghost use Rattle.cascade.specs.Winners.{AreSaidRules};
ghost use Rattle.dom_store.specs.State.{IsRooted, IsSaidState, state_of};
ghost use Rattle.rel_shift.specs.Positions.{positions_of};
ghost use Rattle.style_tree.specs.Styling.{styled_document};

use cascade::RuleIndex;
use css_types::Rule;
use dom_store::Document;
use rel_shift::positions;
use std::alloc::{AllocError, Global};
use style_tree::styled;
use style_types::Positions;

/// Makes the index of these rules where there is none.
pub(crate) fn make_index(
    alloc: Global,
    index: &mut Option<RuleIndex>,
    rules: &[Rule],
) -> Result<(), AllocError>
    requires { IfSome index.old (λ index. index_rules index ≡ rulings_of rules.now) }
    ensures made { OnOk result (IsSomeAnd index.new (λ index. index_rules index ≡ rulings_of rules.now)) }
    ensures kept { IfSome index.new (λ index. index_rules index ≡ rulings_of rules.now) }
{
    if index.is_none() {
        *index = Some(RuleIndex::new(alloc, rules)?);
    }
    Ok(())
}

/// The index, where there is one.
pub(crate) fn made_index(index: &Option<RuleIndex>) -> &RuleIndex
    requires { IsSome index.now }
    ensures { Some result.now ≡ index.now }
{
    match index {
        Some(index) => index,
        None => unreachable!(),
    }
}

/// The positions of a document under these rules, by their index where it is there.
pub(crate) fn listed_positions(
    alloc: Global,
    document: &Document,
    rules: &[Rule],
    index: &Option<RuleIndex>,
) -> Result<Positions, AllocError>
    requires rooted { IsRooted (state_of document.now) }
    requires rules { AreSaidRules (rulings_of rules.now) }
    requires own { IsSaidState (state_of document.now) }
    requires index { IfSome index.now (λ index. index_rules index ≡ rulings_of rules.now) }
    ensures { IfOk result (λ made. made.items ≡ positions_of (styled_document (rulings_of rules.now) (state_of document.now))) }
{
    let root = match index {
        Some(index) => styled(alloc, document, index)?,
        None => {
            let index = RuleIndex::new(alloc, rules)?;
            styled(alloc, document, &index)?
        }
    };
    let made = positions(alloc, &root)?;
    Ok(made)
}
