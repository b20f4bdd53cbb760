//! Documents that can be set in any of four modes, and the flow of one (CSS Writing Modes 4, 6.2 and 6.4; docs/PROFILE/turned-pages.md).

ghost use Rattle.std.specs.Prelude.{◌≡◌, ◌↔◌, ◌-◌, ◌^◌, IfErr, IfOk, None};
ghost use Rattle.face_api.specs.Faces.{faces_of};
ghost use Rattle.dom_store.specs.State.{state_of};
ghost use Rattle.place_map.specs.Near.{AreNearParts};
ghost use Rattle.place_map.specs.Placed.{placed_of};
ghost use Rattle.rel_shift.specs.Laws.{ArePlacesWithin};
ghost use Rattle.style_modes.specs.Turnable.{IsTurnable};
ghost use Rattle.style_modes.specs.Tying.{first_of, tying_places};
ghost use Rattle.session.specs.Found.{ArrangesFor, HasAll, PreparesFor};
ghost use Rattle.session.specs.State.{IsSound, rules_in};
ghost use Rattle.session.specs.Turning.{turned_flow_in};

use crate::session::Session;
use face_api::Face;
use page_modes::laws::unshifted_pages_turn;
use place_map::Placed;
use std::alloc::AllocError;
use std::sync::ledger::Ledger;
use style_modes::first_tying;
use style_modes::laws::none_is_first_where_turnable;
use wm_units::Steps;

impl Session {
    /// The place of the first declaration that ties the document as it is now to one writing mode: of the author's rules, whether or not
    /// they match, and of the style attributes, also of elements that aren't shown. It is told in bytes of the text that the declaration
    /// was read from, and of one in a style attribute it is the place of the attribute's name. `None` exactly where the document can be
    /// turned to any of the four modes. Takes no memory.
    pub fn physical(&self) -> Option<usize>
        requires sound { IsSound (faces_of ⟦<dyn Face as Face>⟧ self.now.faces) self.now }
        ensures value { result ≡ first_of (tying_places (rules_in self.now) (state_of self.now.document)) }
        ensures turnable { result ≡ None ↔ IsTurnable (rules_in self.now) (state_of self.now.document) }
    {
        none_is_first_where_turnable();
        first_tying(&self.rules, &self.document)
    }

    /// The flow of a document that can be turned, as it is in `horizontal-tb` with sideways text, carried to the page, where no fragment is
    /// shifted: `turn` of page_turn makes of it the flow in each other mode. It is the page of `show`, and costs what that does: what is
    /// kept of its boxes is used, and all that is laid out is kept. Where memory runs out the boxes are dropped, and the flow can be asked
    /// for again.
    pub fn flow<L: Ledger, M: Ledger>(
        &mut self,
        prepared: &mut Steps<L>,
        arranged: &mut Steps<M>,
    ) -> Result<Placed, AllocError>
        requires sound { IsSound (faces_of ⟦<dyn Face as Face>⟧ self.old.faces) self.old }
        requires turnable { IsTurnable (rules_in self.old) (state_of self.old.document) }
        ensures page { IfOk result (λ placed. placed_of placed ≡ turned_flow_in (faces_of ⟦<dyn Face as Face>⟧ self.old.faces) self.old) }
        ensures near { IfOk result (λ placed. AreNearParts (placed_of placed).parts) }
        ensures within { IfOk result (λ placed. ArePlacesWithin (2 ^ 60 - 2 ^ 49) (placed_of placed).parts) }
        ensures rest { self.new ≡ record self.old { index = self.new.index; boxes = self.new.boxes } }
        ensures sound { IsSound (faces_of ⟦<dyn Face as Face>⟧ self.new.faces) self.new }
        ensures prepares { PreparesFor self.old prepared.old prepared.new }
        ensures arranges { ArrangesFor (faces_of ⟦<dyn Face as Face>⟧ self.old.faces) self.old arranged.old arranged.new }
        ensures found { IfOk result (λ _. HasAll (faces_of ⟦<dyn Face as Face>⟧ self.new.faces) self.new) }
        ensures dropped { IfErr result (λ _. self.new.boxes ≡ None) }
    {
        unshifted_pages_turn();
        let placed = self.show(prepared, arranged)?;
        Ok(placed)
    }
}
