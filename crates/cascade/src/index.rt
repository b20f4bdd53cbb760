//! Rules made ready for many elements.

ghost use Rattle.std.specs.Prelude.{◌≡◌, IfOk, Some};
ghost use Rattle.css_sheet.specs.Default.{default_rules};
ghost use Rattle.dom_store.specs.State.{IsSaidState, entry_of, line, state_of};
ghost use Rattle.css_types.specs.Rule.{rulings_of};
ghost use Rattle.cascade.specs.Index.{found_claims, index_rules};
ghost use Rattle.cascade.specs.Line.{whats_of};
ghost use Rattle.cascade.specs.Kept.{IsKept, kept_state};
ghost use Rattle.cascade.specs.Winners as definitions;
ghost use Rattle.cascade.specs.Winners.{AreSaidRules, AreSaidWinners};

use crate::claim::Claim;
use crate::claims::{Sheet, claims, put_own};
use crate::class_sets::ClassSets;
use crate::defaults::Defaults;
use crate::filed::Filed;
use crate::kept::KeptLine;
use crate::line::line_of;
use crate::seen::Seen;
use crate::winning::winners_among;
use css_sheet::default_sheet;
use css_types::{Rule, Winners, copy_of_rules};
use dom_store::{Document, Node};
use std::alloc::{AllocError, Global};
use style_types::Style;

// For how many declarations there is room at first: few elements have more. So many lie in about a thousand bytes, which
// are allocated at once and freed as soon as the winners are known.
const ROOM: usize = 18;

/// The winner of each property for an element under these author's rules; the default sheet and the `dir` attribute
/// count beside them. The winners stand under the names of the properties of the page, in the order of the table of
/// properties. It reads the default sheet and goes through all rules: a caller that asks for many elements keeps a
/// `RuleIndex`.
pub fn winners(
    alloc: Global,
    document: &Document,
    rules: &[Rule],
    node: u32,
    parent: &Style,
) -> Result<Winners, AllocError>
    ensures winners { IfOk result (λ w. w.items ≡ definitions.winners (rulings_of rules.now) (line (state_of document.now) node) parent.now) }
    // Where the numbers of the rules and of the elements' own declarations are such as a style sheet can say, so are
    // those of the winners.
    ensures said { AreSaidRules (rulings_of rules.now) → IsSaidState (state_of document.now) → IfOk result (λ w. AreSaidWinners w.items) }
{
    let defaults = default_sheet(alloc)?;
    let none = ClassSets::none();
    let winners = match line_of(document, node) {
        Some(line) => winners_on(alloc, rules, &defaults, line.seen(&none), parent)?,
        None => winners_on(alloc, rules, &defaults, Seen::plain(&[], &none), parent)?,
    };
    Ok(winners)
}

// The winners for the first of a line, under an author's rules and those of the default sheet.
fn winners_on(
    alloc: Global,
    rules: &[Rule],
    defaults: &[Rule],
    line: Seen<'_, '_>,
    parent: &Style,
) -> Result<Winners, AllocError>
    requires { rulings_of defaults.now ≡ default_rules }
    ensures { IfOk result (λ w. w.items ≡ definitions.winners (rulings_of rules.now) (whats_of line.entry.nodes.now) parent.now) }
{
    let claims = claims(alloc, rules, defaults, line)?;
    let winners = winners_among(alloc, &claims, parent)?;
    Ok(winners)
}

/// Author's rules made ready for many elements, with the default sheet beside them. For an element it goes only through
/// the rules whose last compound has an id, or else a class of that element. Where it has neither, the nearest compound
/// to its left that has one must have an id, or else a class of an element above. Where none has one, the last compound
/// has the element's type, or no type.
#[derive(Drop)]
pub struct RuleIndex {
    rules: Filed,
    defaults: Defaults,
}

impl RuleIndex {
    /// The index of these rules.
    pub fn new(alloc: Global, rules: &[Rule]) -> Result<RuleIndex, AllocError>
        ensures { IfOk result (λ index. index_rules index ≡ rulings_of rules.now) }
    {
        let own = copy_of_rules(alloc, rules)?;
        let rules = Filed::new(alloc, own)?;
        let defaults = Defaults::new(alloc)?;
        Ok(RuleIndex { rules, defaults })
    }

    /// The winner of each property for an element under the rules of the index; the default sheet and the `dir`
    /// attribute count beside them.
    pub fn winners(
        &self,
        alloc: Global,
        document: &Document,
        node: u32,
        parent: &Style,
    ) -> Result<Winners, AllocError>
        ensures winners { IfOk result (λ w. w.items ≡ definitions.winners (index_rules self.now) (line (state_of document.now) node) parent.now) }
        // Where the numbers of the rules and of the elements' own declarations are such as a style sheet can say, so are
        // those of the winners.
        ensures said { AreSaidRules (index_rules self.now) → IsSaidState (state_of document.now) → IfOk result (λ w. AreSaidWinners w.items) }
    {
        let none = ClassSets::none();
        let winners = match line_of(document, node) {
            Some(line) => self.winners_on(alloc, line.seen(&none), parent)?,
            None => self.winners_on(alloc, Seen::plain(&[], &none), parent)?,
        };
        Ok(winners)
    }

    /// The winner of each property for a node in hand under the rules of the index. The line of the node is kept for
    /// the next one.
    pub fn winners_in<'a>(
        &self,
        alloc: Global,
        kept: &mut KeptLine<'a>,
        number: u32,
        node: &'a Node,
        parent: &Style,
    ) -> Result<Winners, AllocError>
        requires kept { IsKept kept.old }
        requires here { (kept_state kept.old).node_at number ≡ Some (entry_of node.now) }
        ensures same { kept_state kept.new ≡ kept_state kept.old }
        ensures kept { IsKept kept.new }
        ensures winners { IfOk result (λ w. w.items ≡ definitions.winners (index_rules self.now) (line (kept_state kept.old) number) parent.now) }
        ensures said { AreSaidRules (index_rules self.now) → IsSaidState (kept_state kept.old) → IfOk result (λ w. AreSaidWinners w.items) }
    {
        let winners = if kept.enter(alloc, number, node) {
            self.winners_on(alloc, kept.seen(), parent)?
        } else {
            self.winners(alloc, kept.document(), number, parent)?
        };
        Ok(winners)
    }

    // The winners for the first of a line: by what is found for it, or by all rules in turn where these are fewer.
    fn winners_on(
        &self,
        alloc: Global,
        line: Seen<'_, '_>,
        parent: &Style,
    ) -> Result<Winners, AllocError>
        ensures { IfOk result (λ w. w.items ≡ definitions.winners (index_rules self.now) (whats_of line.entry.nodes.now) parent.now) }
    {
        if self.rules.finds_fewer(line.nodes) {
            let winners = self.winners_found(alloc, line, parent)?;
            return Ok(winners);
        }
        let defaults = &self.defaults.filed.rules;
        let winners = winners_on(alloc, &self.rules.rules, defaults, line, parent)?;
        Ok(winners)
    }

    // The winners by what is found.
    fn winners_found(
        &self,
        alloc: Global,
        line: Seen<'_, '_>,
        parent: &Style,
    ) -> Result<Winners, AllocError>
        ensures { IfOk result (λ w. w.items ≡ definitions.winners (index_rules self.now) (whats_of line.entry.nodes.now) parent.now) }
    {
        let claims = self.claims(alloc, line)?;
        let winners = winners_among(alloc, &claims, parent)?;
        Ok(winners)
    }

    // The declarations that count for the first of a line.
    fn claims(&self, alloc: Global, line: Seen<'_, '_>) -> Result<Vec<Claim>, AllocError>
        ensures { IfOk result (λ all. all.items ≡ found_claims self.now (whats_of line.entry.nodes.now)) }
    {
        let mut all = Vec::with_capacity(alloc, ROOM)?;
        self.rules.put_claims(&mut all, Sheet::Author, line)?;
        put_own(&mut all, self.defaults.filed.rules.len(), line)?;
        self.defaults
            .filed
            .put_claims(&mut all, Sheet::Default, line)?;
        Ok(all)
    }
}
