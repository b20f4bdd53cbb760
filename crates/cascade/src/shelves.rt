//! Places of rules, each where an element that the rule may match looks for it.

ghost use Rattle.std.specs.Prelude.{◌≡◌, ◌∷◌, IfOk, OnOk, length, option_map, reverse};
ghost use Rattle.std.specs.String.{string_bytes};
ghost use Rattle.css_types.specs.Rule.{compound_of, compounds_of, selector_of};
ghost use Rattle.cascade.specs.Filing.{AreShelved, Heading, IsPut, by_first, by_type, heading, heading_above, heading_from_right, of_upper_class, of_upper_id};
ghost use Rattle.cascade.specs.Shelves.{upper_heading};

use crate::places::Places;
use css_types::{Part, Rule, Selector};
use letters::Letters;
use std::alloc::{AllocError, Global};

// A name that an element above the one that is looked for must have.
#[derive(Clone, Copy)]
enum Upper<'a> {
    Id(&'a Letters),
    Class(&'a Letters),
}

// An id or a class of the nearest of these compounds that has one, from the last on.
fn upper_name(left: &[Part]) -> Option<Upper<'_>>
    ensures { (other : Heading) → heading_above (reverse (compounds_of left.now)) other ≡ upper_heading result other }
{
    let mut left = left;
    while let [further @ .., nearest] = left {
        let name = name_in(nearest);
        if name.is_some() {
            return name;
        }
        left = further;
    }
    None
}

// An id of the compound, or else a class.
fn name_in(part: &Part) -> Option<Upper<'_>>
    ensures { (other : Heading) → by_first of_upper_id (compound_of part.now).ids (by_first of_upper_class (compound_of part.now).classes other) ≡ upper_heading result other }
{
    match (part.ids.first(), part.classes.first()) {
        (Some(id), _) => Some(Upper::Id(id)),
        (None, Some(class)) => Some(Upper::Class(class)),
        (None, None) => None,
    }
}

/// Places of rules. Each stands once: under one of the ids of the rule's last compound, or else under one of its classes,
/// or else under an id or a class of the nearest compound to its left that has one, or else under its type, or else among
/// the others.
#[derive(Drop)]
pub(crate) struct Shelves {
    pub(crate) by_id: Places,
    pub(crate) by_class: Places,
    pub(crate) by_type: Places,
    pub(crate) others: Vec<usize>,
    pub(crate) by_upper_id: Places,
    pub(crate) by_upper_class: Places,
}

impl Shelves {
    // No places.
    fn new(alloc: Global) -> Shelves {
        Shelves {
            by_id: Places::new(alloc),
            by_class: Places::new(alloc),
            by_type: Places::new(alloc),
            others: Vec::new(alloc),
            by_upper_id: Places::new(alloc),
            by_upper_class: Places::new(alloc),
        }
    }

    /// The place of each of these rules.
    pub(crate) fn of(alloc: Global, rules: &[Rule]) -> Result<Shelves, AllocError>
        ensures { IfOk result (λ shelves. AreShelved shelves rules.now (length rules.now)) }
    {
        let mut shelves = Shelves::new(alloc);
        let mut place = 0;
        for rule in rules {
            shelves.put(alloc, &rule.selector, place)?;
            place += 1;
        }
        Ok(shelves)
    }

    // Puts the place of a rule with this selector.
    fn put(&mut self, alloc: Global, selector: &Selector, place: usize) -> Result<(), AllocError>
        ensures { OnOk result (IsPut self.old self.new (heading (selector_of selector.now)) place) }
    {
        let parts: &[Part] = &selector.parts;
        match parts {
            [left @ .., last] => self.put_by(alloc, left, last, place)?,
            [] => self.others.push(place)?,
        }
        Ok(())
    }

    // Puts the place of a rule with this last compound and those to its left.
    fn put_by(
        &mut self,
        alloc: Global,
        left: &[Part],
        last: &Part,
        place: usize,
    ) -> Result<(), AllocError>
        ensures { OnOk result (IsPut self.old self.new (heading_from_right (compound_of last.now ∷ reverse (compounds_of left.now))) place) }
    {
        if let Some(id) = last.ids.first() {
            self.by_id.put(alloc, id, place)?;
        } else if let Some(class) = last.classes.first() {
            self.by_class.put(alloc, class, place)?;
        } else {
            self.put_by_left(alloc, left, &last.tag, place)?;
        }
        Ok(())
    }

    // Puts the place of a rule whose last compound has neither id nor class.
    fn put_by_left(
        &mut self,
        alloc: Global,
        left: &[Part],
        tag: &Option<Letters>,
        place: usize,
    ) -> Result<(), AllocError>
        ensures { OnOk result (IsPut self.old self.new (heading_above (reverse (compounds_of left.now)) (by_type (option_map (λ t. string_bytes t) tag.now))) place) }
    {
        match upper_name(left) {
            Some(Upper::Id(id)) => self.by_upper_id.put(alloc, id, place)?,
            Some(Upper::Class(class)) => self.by_upper_class.put(alloc, class, place)?,
            None => self.put_by_type(alloc, tag, place)?,
        }
        Ok(())
    }

    // Puts the place of a rule with no id and no class.
    fn put_by_type(
        &mut self,
        alloc: Global,
        tag: &Option<Letters>,
        place: usize,
    ) -> Result<(), AllocError>
        ensures { OnOk result (IsPut self.old self.new (by_type (option_map (λ t. string_bytes t) tag.now)) place) }
    {
        match tag {
            Some(name) => self.by_type.put(alloc, name, place)?,
            None => self.others.push(place)?,
        }
        Ok(())
    }
}
