//! Rules among which those are found at once that an element may match.

ghost use Rattle.std.specs.Prelude.{◌≡◌, ◌++◌, length, map, option_map, slice_get, IfOk, OnOk};
ghost use Rattle.std.specs.String.{string_bytes};
ghost use Rattle.css_types.specs.Rule.{rulings_of};
ghost use Rattle.dom_store.specs.State.{what_of};
ghost use Rattle.cascade.specs.Filing.{AreShelved, claims_at, claims_if, claims_under, headings, headings_of, headings_of_id, of_class, of_id, of_upper_class, of_upper_id, upper_headings, upper_headings_of};
ghost use Rattle.cascade.specs.Line.{whats_of};
ghost use Rattle.cascade.specs.Sheet.{origin_in};

use crate::claim::Claim;
use crate::claims::{Sheet, put_rule_if_matching};
use crate::seen::Seen;
use crate::shelves::Shelves;
use css_types::{Rule, Rules};
use dom_store::{Node, NodeKind};
use letters::Letters;
use std::alloc::{AllocError, Global};

/// What it may cost to look up the names of a line where no look is taken at how many rules they find.
const FEW: usize = 8;

/// How many rules are tried in about the time of the look-ups for one name.
const TRIED: usize = 16;

/// How many bytes of a name are looked up in about the time of another look-up.
const BYTES: usize = 32;

/// Rules, with the place of each on a shelf.
#[derive(Drop)]
pub(crate) struct Filed {
    pub(crate) rules: Rules,
    pub(crate) shelves: Shelves,

    ghost are_shelved: { AreShelved shelves rules.items (length rules.items) },
}

impl Filed {
    /// Puts the place of each of the rules on its shelf.
    pub(crate) fn new(alloc: Global, rules: Rules) -> Result<Filed, AllocError>
        ensures { IfOk result (λ filed. filed.rules ≡ rules) }
    {
        let shelves = Shelves::of(alloc, &rules)?;
        Ok(Filed { rules, shelves })
    }

    /// The declarations of all rules that match the first of the line. Those of a rule may stand there more than once.
    pub(crate) fn put_claims(
        &self,
        all: &mut Vec<Claim>,
        sheet: Sheet,
        line: Seen<'_, '_>,
    ) -> Result<(), AllocError>
        ensures { OnOk result (all.new.items ≡ all.old.items ++ claims_under (origin_in sheet) self.now.rules.items self.now.shelves (headings (whats_of line.entry.nodes.now)) (whats_of line.entry.nodes.now)) }
    {
        self.put_at(all, sheet, &self.shelves.others, line)?;
        if let [node, above @ ..] = line.nodes {
            self.put_of(all, sheet, &node.kind, line)?;
            self.put_of_above(all, sheet, above, line)?;
        }
        Ok(())
    }

    // Those that are found by the ids and the classes of the elements above.
    #[tactic(auto, using(crate::proofs::Filing::above_none), unfolding(crate::specs::Filing::upper_headings))]
    fn put_of_above(
        &self,
        all: &mut Vec<Claim>,
        sheet: Sheet,
        above: &[&Node],
        line: Seen<'_, '_>,
    ) -> Result<(), AllocError>
        ensures { OnOk result (all.new.items ≡ all.old.items ++ claims_under (origin_in sheet) self.now.rules.items self.now.shelves (upper_headings (whats_of above.now)) (whats_of line.entry.nodes.now)) }
    {
        for node in above {
            self.put_of_upper(all, sheet, &node.kind, line)?;
        }
        Ok(())
    }

    // Those that are found by the id and the classes of one of them.
    fn put_of_upper(
        &self,
        all: &mut Vec<Claim>,
        sheet: Sheet,
        kind: &NodeKind,
        line: Seen<'_, '_>,
    ) -> Result<(), AllocError>
        ensures { OnOk result (all.new.items ≡ all.old.items ++ claims_under (origin_in sheet) self.now.rules.items self.now.shelves (upper_headings_of (what_of kind.now)) (whats_of line.entry.nodes.now)) }
    {
        match kind {
            NodeKind::Element { id, classes, .. } => {
                self.put_of_upper_id(all, sheet, id, line)?;
                self.put_of_upper_classes(all, sheet, classes, line)?;
                Ok(())
            }
            NodeKind::Text { .. } => Ok(()),
        }
    }

    fn put_of_upper_id(
        &self,
        all: &mut Vec<Claim>,
        sheet: Sheet,
        id: &Option<Letters>,
        line: Seen<'_, '_>,
    ) -> Result<(), AllocError>
        ensures { OnOk result (all.new.items ≡ all.old.items ++ claims_under (origin_in sheet) self.now.rules.items self.now.shelves (headings_of_id of_upper_id (option_map (λ i. string_bytes i) id.now)) (whats_of line.entry.nodes.now)) }
    {
        if let Some(id) = id {
            self.put_at(all, sheet, self.shelves.by_upper_id.under(id), line)?;
        }
        Ok(())
    }

    #[tactic(auto, using(crate::proofs::Filing::classes_none), unfolding(crate::specs::Filing::claims_under))]
    fn put_of_upper_classes(
        &self,
        all: &mut Vec<Claim>,
        sheet: Sheet,
        classes: &[Letters],
        line: Seen<'_, '_>,
    ) -> Result<(), AllocError>
        ensures { OnOk result (all.new.items ≡ all.old.items ++ claims_under (origin_in sheet) self.now.rules.items self.now.shelves (map of_upper_class (map (λ c. string_bytes c) classes.now)) (whats_of line.entry.nodes.now)) }
    {
        for name in classes {
            self.put_at(all, sheet, self.shelves.by_upper_class.under(name), line)?;
        }
        Ok(())
    }

    // Those that are found by the type, the id and the classes of an element.
    fn put_of(
        &self,
        all: &mut Vec<Claim>,
        sheet: Sheet,
        kind: &NodeKind,
        line: Seen<'_, '_>,
    ) -> Result<(), AllocError>
        ensures { OnOk result (all.new.items ≡ all.old.items ++ claims_under (origin_in sheet) self.now.rules.items self.now.shelves (headings_of (what_of kind.now)) (whats_of line.entry.nodes.now)) }
    {
        match kind {
            NodeKind::Element {
                tag,
                id,
                classes,
                ..
            } => {
                self.put_at(all, sheet, self.shelves.by_type.under(tag.name()), line)?;
                self.put_of_id(all, sheet, id, line)?;
                self.put_of_classes(all, sheet, classes, line)?;
                Ok(())
            }
            NodeKind::Text { .. } => Ok(()),
        }
    }

    fn put_of_id(
        &self,
        all: &mut Vec<Claim>,
        sheet: Sheet,
        id: &Option<Letters>,
        line: Seen<'_, '_>,
    ) -> Result<(), AllocError>
        ensures { OnOk result (all.new.items ≡ all.old.items ++ claims_under (origin_in sheet) self.now.rules.items self.now.shelves (headings_of_id of_id (option_map (λ i. string_bytes i) id.now)) (whats_of line.entry.nodes.now)) }
    {
        if let Some(id) = id {
            self.put_at(all, sheet, self.shelves.by_id.under(id), line)?;
        }
        Ok(())
    }

    #[tactic(auto, using(crate::proofs::Filing::classes_none), unfolding(crate::specs::Filing::claims_under))]
    fn put_of_classes(
        &self,
        all: &mut Vec<Claim>,
        sheet: Sheet,
        classes: &[Letters],
        line: Seen<'_, '_>,
    ) -> Result<(), AllocError>
        ensures { OnOk result (all.new.items ≡ all.old.items ++ claims_under (origin_in sheet) self.now.rules.items self.now.shelves (map of_class (map (λ c. string_bytes c) classes.now)) (whats_of line.entry.nodes.now)) }
    {
        for class in classes {
            self.put_at(all, sheet, self.shelves.by_class.under(class), line)?;
        }
        Ok(())
    }

    // The declarations of the rules at these places, where they match.
    #[tactic(auto, using(crate::proofs::Filing::placed_none), unfolding(crate::specs::Filing::claims_at))]
    fn put_at(
        &self,
        all: &mut Vec<Claim>,
        sheet: Sheet,
        places: &[usize],
        line: Seen<'_, '_>,
    ) -> Result<(), AllocError>
        ensures { OnOk result (all.new.items ≡ all.old.items ++ claims_at (origin_in sheet) self.now.rules.items places.now (whats_of line.entry.nodes.now)) }
    {
        for place in places {
            self.put_if(all, sheet, *place, line)?;
        }
        Ok(())
    }

    fn put_if(
        &self,
        all: &mut Vec<Claim>,
        sheet: Sheet,
        place: usize,
        line: Seen<'_, '_>,
    ) -> Result<(), AllocError>
        ensures { OnOk result (all.new.items ≡ all.old.items ++ claims_if (origin_in sheet) place (slice_get self.now.rules.items place) (whats_of line.entry.nodes.now)) }
    {
        if let Some(rule) = self.rules.get(place) {
            put_rule_if_matching(all, sheet, place, rule, line)?;
        }
        Ok(())
    }

    /// Whether what is found for a line takes less than to try all rules. A name that stands at many elements of the line,
    /// or many times at one, finds its rules each time. Where these and their declarations are more than there are rules, to try
    /// all takes little more. Takes no more steps than there are rules, and a few.
    pub(crate) fn finds_fewer(&self, line: &[&Node]) -> bool {
        let most = FEW.max(self.rules.len() / TRIED);
        let cost = cost_of(line, most);
        cost <= FEW || (cost <= most && self.left_of(line) > 0)
    }

    // What is left of the count of all rules when the weight of those that are found for the line is taken from it.
    fn left_of(&self, line: &[&Node]) -> usize {
        let mut left = self.rules.len();
        for node in line {
            left = self.left_behind(left, &node.kind);
        }
        left
    }

    // What is left of a count of rules when the weight of those that are found by the id and the classes of one
    // element is taken from it.
    fn left_behind(&self, left: usize, kind: &NodeKind) -> usize {
        match kind {
            NodeKind::Element { id, classes, .. } => self.left_by(left, id, classes),
            NodeKind::Text { .. } => left,
        }
    }

    fn left_by(&self, left: usize, id: &Option<Letters>, classes: &[Letters]) -> usize {
        let mut left = match id {
            Some(id) => {
                let left = self.without(left, self.shelves.by_id.under(id));
                self.without(left, self.shelves.by_upper_id.under(id))
            }
            None => left,
        };
        for name in classes {
            if left == 0 {
                break;
            }
            left = self.without(left, self.shelves.by_class.under(name));
            left = self.without(left, self.shelves.by_upper_class.under(name));
        }
        left
    }

    // What is left without the rules at these places.
    fn without(&self, left: usize, places: &[usize]) -> usize {
        let mut left = left;
        for place in places {
            if left == 0 {
                break;
            }
            if let Some(rule) = self.rules.get(*place) {
                left = left.saturating_sub(weight(rule));
            }
        }
        left
    }
}

// A rule counts as one more than its declarations.
fn weight(rule: &Rule) -> usize {
    rule.declarations.len().saturating_add(1)
}

// What it costs to look up the ids and the classes of the elements of a line. No more are counted once it is above `most`.
fn cost_of(line: &[&Node], most: usize) -> usize {
    let mut cost = 0;
    for node in line {
        if let NodeKind::Element { id, classes, .. } = &node.kind {
            cost = cost_behind(cost, most, id, classes);
        }
    }
    cost
}

// What it costs to look up the id and the classes of one element, added to the cost of others. No more are counted
// once it is above `most`.
fn cost_behind(cost: usize, most: usize, id: &Option<Letters>, classes: &[Letters]) -> usize {
    let mut cost = match id {
        Some(id) => with_name(cost, id),
        None => cost,
    };
    for name in classes {
        if cost > most {
            break;
        }
        cost = with_name(cost, name);
    }
    cost
}

fn with_name(cost: usize, name: &Letters) -> usize {
    cost.saturating_add(name.len() / BYTES).saturating_add(1)
}
