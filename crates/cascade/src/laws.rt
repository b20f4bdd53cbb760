//! Laws of the cascade. These functions do nothing: their contracts are the laws.

ghost use Rattle.std.specs.Prelude.{◌≡◌, ℕ, List, [], Some, None};
ghost use Rattle.style_types.specs.declared.style.Style.{Style};
ghost use Rattle.css_types.specs.Rule.{Ruling};
ghost use Rattle.dom_store.specs.State.{IsSaidState, State, What, line};
ghost use Rattle.cascade.specs.declared.claim.Claim.{Claim};
ghost use Rattle.cascade.specs.Claims.{claims};
ghost use Rattle.cascade.specs.Said.{OwnAreSaid, RulesAreSaid};
ghost use Rattle.cascade.specs.Winners.{AreSaidRules, AreSaidWinners, IsGreatest, IsSaidLine, KeysDiffer, greatest, winners};

/// No two of the claims of an element have one key, so that of any two one wins.
pub fn keys_differ()
    ensures { (rules : List Ruling) (line : List What) → KeysDiffer (claims rules line) }
{}

/// The claim that is found is the greatest, and none is found only where there is none. Where keys differ, whatever is
/// the greatest is found.
pub fn the_greatest_wins()
    ensures one { (list : List Claim) (best : Claim) → greatest list ≡ Some best → IsGreatest list best }
    ensures none { (list : List Claim) → greatest list ≡ None → list ≡ [] }
    ensures some { (list : List Claim) (best : Claim) → KeysDiffer list → IsGreatest list best → greatest list ≡ Some best }
{}

/// Where the numbers of an author's rules and of the elements' own declarations are such as a style sheet can say, so
/// are those of the winners. Those of the default sheet are.
pub fn winners_are_said()
    ensures winners { (rules : List Ruling) (line : List What) (parent : Style) → AreSaidRules rules → IsSaidLine line → AreSaidWinners (winners rules line parent) }
    ensures lines { (state : State) (number : ℕ) → IsSaidState state → IsSaidLine (line state number) }
{}

/// What was read as a style sheet has numbers that one can say: the rules, and each node's own declarations.
pub fn what_is_read_is_said()
    ensures rules { RulesAreSaid }
    ensures own { OwnAreSaid }
{}
