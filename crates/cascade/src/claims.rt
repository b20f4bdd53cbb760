//! The declarations that count for an element (CSS Cascading 4, 6; HTML, 15.3.5).

ghost use Rattle.std.specs.Prelude.{◌≡◌, false, List, ◌∷◌, ◌++◌, length, IfOk, OnOk};
ghost use Rattle.css_sheet.specs.Default.{default_rules};
ghost use Rattle.css_sheet.specs.Specificity.{specificity_of};
ghost use Rattle.css_types.specs.Rule.{ruling_of, rulings_of, selector_of};
ghost use Rattle.dom_store.specs.State.{What, what_of};
ghost use Rattle.cascade.specs.Claims as definitions;
ghost use Rattle.cascade.specs.Line.{whats_of};
ghost use Rattle.cascade.specs.Sheet.{origin_in};

use crate::claim::{Claim, Key, Origin};
use crate::matching::matches_line;
use crate::seen::Seen;
use css_sheet::{Specificity, specificity};
use css_types::{Declaration, Keyword, Property, Rule, Value};
use dom_store::NodeKind;
use html_tokens::Tag;
use std::alloc::{AllocError, Global};
use wm_modes::Direction;

/// What is neither a rule nor specific.
const UNSPECIFIC: Specificity = Specificity {
    ids: 0,
    classes: 0,
    types: 0,
};

/// What the declarations of a style attribute have in common.
const STYLE_ATTRIBUTE: Standing = Standing {
    sheet: Sheet::Author,
    own: true,
    specificity: UNSPECIFIC,
    rule: 0,
};

/// All declarations that count for the first of the line, under the author's rules and those of the default sheet. Only
/// want of memory is an error, here and in what follows.
pub(crate) fn claims(
    alloc: Global,
    rules: &[Rule],
    defaults: &[Rule],
    line: Seen<'_, '_>,
) -> Result<Vec<Claim>, AllocError>
    requires { rulings_of defaults.now ≡ default_rules }
    ensures { IfOk result (λ all. all.items ≡ definitions.claims (rulings_of rules.now) (whats_of line.entry.nodes.now)) }
{
    let mut all = Vec::new(alloc);
    put_rules(&mut all, Sheet::Author, rules, line)?;
    put_own(&mut all, defaults.len(), line)?;
    put_rules(&mut all, Sheet::Default, defaults, line)?;
    Ok(all)
}

/// Whose rules they are.
#[derive(Clone, Copy, Debug, PartialEq, Eq)]
pub(crate) enum Sheet {
    Default,
    Author,
}

impl Sheet {
    // The default sheet has no important declarations.
    fn origin(self, is_important: bool) -> Origin
        ensures { result ≡ origin_in self is_important }
    {
        match self {
            Sheet::Default => Origin::Default,
            Sheet::Author if is_important => Origin::Important,
            Sheet::Author => Origin::Author,
        }
    }
}

/// What declarations that stand together have in common.
#[derive(Clone, Copy, Debug, PartialEq, Eq)]
struct Standing {
    sheet: Sheet,
    own: bool,
    specificity: Specificity,
    rule: usize,
}

impl Standing {
    // The declaration at this place.
    fn claim(self, place: usize, declaration: &Declaration) -> Claim
        ensures { result ≡ record {
          key = record { origin = origin_in self.sheet declaration.now.important; own = self.own; specificity = self.specificity; rule = self.rule; declaration = place };
          property = declaration.now.property;
          value = declaration.now.value;
        } }
    {
        Claim {
            key: Key {
                origin: self.sheet.origin(declaration.important),
                own: self.own,
                specificity: self.specificity,
                rule: self.rule,
                declaration: place,
            },
            property: declaration.property,
            value: declaration.value,
        }
    }
}

// Declarations that stand together.
#[tactic(auto, using(crate::proofs::Claiming::stated_none), unfolding(crate::specs::Claims::stated))]
fn put_stated(
    all: &mut Vec<Claim>,
    standing: Standing,
    declarations: &[Declaration],
) -> Result<(), AllocError>
    ensures { OnOk result (all.new.items ≡ all.old.items ++ definitions.stated (origin_in standing.sheet) standing.own standing.specificity standing.rule 0 declarations.now) }
{
    let mut place = 0;
    for declaration in declarations {
        all.push(standing.claim(place, declaration))?;
        place += 1;
    }
    Ok(())
}

/// The declarations of a rule that stands at this place.
pub(crate) fn put_rule(
    all: &mut Vec<Claim>,
    sheet: Sheet,
    place: usize,
    rule: &Rule,
) -> Result<(), AllocError>
    ensures { OnOk result (all.new.items ≡ all.old.items ++ definitions.stated (origin_in sheet) false (specificity_of (selector_of rule.now.selector)) place 0 rule.now.declarations.value.items) }
{
    let standing = Standing {
        sheet,
        own: false,
        specificity: specificity(&rule.selector),
        rule: place,
    };
    put_stated(all, standing, &rule.declarations)
}

/// The declarations of a rule that stands at this place, if the rule matches the first node of the line.
pub(crate) fn put_rule_if_matching(
    all: &mut Vec<Claim>,
    sheet: Sheet,
    place: usize,
    rule: &Rule,
    line: Seen<'_, '_>,
) -> Result<(), AllocError>
    ensures { OnOk result (all.new.items ≡ all.old.items ++ definitions.claims_of_rule (origin_in sheet) place (ruling_of rule.now) (whats_of line.entry.nodes.now)) }
{
    if matches_line(&rule.selector.parts, line) {
        put_rule(all, sheet, place, rule)
    } else {
        Ok(())
    }
}

// The declarations of the rules that match.
#[tactic(auto, using(crate::proofs::Claiming::ruled_none), unfolding(crate::specs::Claims::claims_of_rules))]
fn put_rules(
    all: &mut Vec<Claim>,
    sheet: Sheet,
    rules: &[Rule],
    line: Seen<'_, '_>,
) -> Result<(), AllocError>
    ensures { OnOk result (all.new.items ≡ all.old.items ++ definitions.claims_of_rules (origin_in sheet) 0 (rulings_of rules.now) (whats_of line.entry.nodes.now)) }
{
    let mut place = 0;
    for rule in rules {
        put_rule_if_matching(all, sheet, place, rule, line)?;
        place += 1;
    }
    Ok(())
}

/// What the first of the line itself says: its style attribute and its `dir`, which stands behind the `rules` rules of
/// the default sheet.
pub(crate) fn put_own(
    all: &mut Vec<Claim>,
    rules: usize,
    line: Seen<'_, '_>,
) -> Result<(), AllocError>
    requires { rules ≡ length default_rules }
    ensures { OnOk result (all.new.items ≡ all.old.items ++ definitions.claims_of_element (whats_of line.entry.nodes.now)) }
{
    match line.nodes {
        [node, ..] => put_own_of(all, rules, &node.kind),
        [] => Ok(()),
    }
}

fn put_own_of(all: &mut Vec<Claim>, rules: usize, kind: &NodeKind) -> Result<(), AllocError>
    requires { rules ≡ length default_rules }
    ensures { (above : List What) → OnOk result (all.new.items ≡ all.old.items ++ definitions.claims_of_element (what_of kind.now ∷ above)) }
{
    match kind {
        NodeKind::Element {
            tag,
            dir,
            declarations,
            ..
        } => {
            put_stated(all, STYLE_ATTRIBUTE, declarations)?;
            put_direction(all, rules, *tag, *dir)
        }
        NodeKind::Text { .. } => Ok(()),
    }
}

// The `dir` attribute, as a rule at this place of the default sheet.
fn put_direction(
    all: &mut Vec<Claim>,
    rule: usize,
    tag: Tag,
    dir: Option<Direction>,
) -> Result<(), AllocError>
    ensures { OnOk result (all.new.items ≡ all.old.items ++ definitions.claims_of_dir rule tag dir) }
{
    match dir {
        Some(dir) => {
            all.push(as_default(rule, 0, Property::Direction, direction_keyword(dir)))?;
            all.push(as_default(rule, 1, Property::UnicodeBidi, isolation(tag)))?;
            Ok(())
        }
        None => Ok(()),
    }
}

fn as_default(rule: usize, place: usize, property: Property, keyword: Keyword) -> Claim
    ensures { result ≡ definitions.as_default rule place property keyword }
{
    let key = Key {
        origin: Origin::Default,
        own: false,
        specificity: UNSPECIFIC,
        rule,
        declaration: place,
    };
    Claim {
        key,
        property,
        value: Value::Keyword(keyword),
    }
}

fn direction_keyword(dir: Direction) -> Keyword
    ensures { result ≡ definitions.direction_keyword dir }
{
    match dir {
        Direction::Ltr => Keyword::Ltr,
        Direction::Rtl => Keyword::Rtl,
    }
}

fn isolation(tag: Tag) -> Keyword
    ensures { result ≡ definitions.isolation tag }
{
    match tag {
        Tag::Bdo => Keyword::IsolateOverride,
        _ => Keyword::Isolate,
    }
}
