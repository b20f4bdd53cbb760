//! The laws between what is read and the grammar. These functions do nothing: their contracts are the laws.

ghost use Rattle.std.specs.Prelude.{◌≡◌, ◌≤◌, ◌↔◌, ℕ, Bool, true, false, List, [], ◌∷◌, ◌++◌, length, Result, Ok, Err, IfOk, IfErr, ◌==◌};
ghost use Rattle.reading.specs.Readers.{mapped, starts};
ghost use Rattle.reading.specs.Placed.{SpellsPlaced};
ghost use Rattle.reading.specs.Places.{IsViable, StopsInPlace};
ghost use Rattle.reading.specs.Spelling.{Anything, Spells};
ghost use Rattle.html_read.specs.Answered.{HaveNoDocument, IsTheDocument, IsTheFragment, RefusesDocument, RefusesFragment};
ghost use Rattle.html_tokens.specs.Error.{Fault};
ghost use Rattle.html_read.specs.Error.{Told};
ghost use Rattle.html_read.specs.Grammar as grammar;
ghost use Rattle.html_tokens.specs.Grammar.{IsEndName};
ghost use Rattle.html_tokens.specs.Text.{in_text};
ghost use Rattle.html_read.specs.Places.{ArePlaces, placed_input};
ghost use Rattle.html_read.specs.Reading as judging;
ghost use Rattle.html_read.specs.Shape.{AreTexts, IsFragmentShaped, IsInDocumentOrder, IsShaped, text_bytes};
ghost use Rattle.html_read.specs.Tree.{AreNodes};
ghost use Rattle.html_read.specs.Values.{Node, Whole};
ghost use Rattle.html_read.specs.declared.content.Base.{Base};
ghost use Rattle.html_read.specs.declared.error.HtmlError.{HtmlError};

/// Tags are read as they are spelled, with what their attributes say in an input of a size.
pub fn tags_spell()
    ensures starts { (size : ℕ) (word : List ℕ) (slash : Bool)
        → SpellsPlaced (judging.start_of size word slash) (grammar.IsStartOf size word slash) Anything }
    ensures body_starts { (size : ℕ) → SpellsPlaced (judging.start_tag size) (grammar.IsStart size) Anything }
    ensures ends { (name : List ℕ) → Spells (judging.end_tag name) (λ text u. IsEndName text name) Anything }
{}

/// What stands in `body`, or in a fragment, is read as it is spelled, where its end comes behind it.
pub fn contents_spell()
    ensures { (size : ℕ) (base : Base) (nodes : List Node) → SpellsPlaced (judging.content size base nodes)
        (grammar.IsContent size (judging.base_parent base) nodes) (λ rest. (in_text rest ≡ false) × (judging.base_ends base rest ≡ true)) }
{}

/// The head is read as it is spelled.
pub fn heads_spell()
    ensures { (size : ℕ) → SpellsPlaced (judging.head size) (grammar.IsHead size) Anything }
{}

/// Bytes are read as a document exactly where they begin with one, with the value and the rest that the grammar gives.
pub fn documents_spell()
    ensures { (bytes rest : List ℕ) (whole : Whole)
        → (judging.input bytes ≡ Ok (whole, rest)) ↔ ((text : List ℕ) × grammar.IsDocument text rest whole × (bytes ≡ text ++ rest)) }
{}

/// A text is read as a fragment exactly where it is one, to its end.
pub fn fragments_spell()
    ensures spelled { (text : List ℕ) (nodes : List Node)
        → ((rest : List ℕ) × (judging.fragment text ≡ Ok (nodes, rest))) ↔ grammar.IsFragment text nodes }
    ensures whole { (text rest : List ℕ) (nodes : List Node) → judging.fragment text ≡ Ok (nodes, rest) → rest ≡ [] }
{}

/// Where the nodes of a document and of a fragment stand.
pub fn nodes_stand_in_place()
    ensures documents { (text behind : List ℕ) (whole : Whole) → grammar.IsDocument text behind whole → IsShaped whole.nodes }
    ensures fragments { (text : List ℕ) (nodes : List Node) → grammar.IsFragment text nodes → IsFragmentShaped nodes }
{}

/// The nodes of a document and of a fragment stand in document order.
pub fn nodes_stand_in_order()
    ensures documents { (nodes : List Node) → AreNodes nodes → IsInDocumentOrder nodes }
    ensures fragments { (text : List ℕ) (nodes : List Node) → grammar.IsFragment text nodes → IsInDocumentOrder nodes }
{}

/// The texts of a document and of a fragment.
pub fn texts_stand_apart()
    ensures documents { (text behind : List ℕ) (whole : Whole) → grammar.IsDocument text behind whole → AreTexts whole.nodes }
    ensures document_bytes { (text behind : List ℕ) (whole : Whole) → grammar.IsDocument text behind whole → text_bytes whole.nodes ≤ length text }
    ensures fragments { (text : List ℕ) (nodes : List Node) → grammar.IsFragment text nodes → AreTexts nodes }
    ensures fragment_bytes { (text : List ℕ) (nodes : List Node) → grammar.IsFragment text nodes → text_bytes nodes ≤ length text }
{}

/// What the readers answer of documents: the one that is there, or that there is none.
pub fn documents_are_found_or_refused()
    ensures found { (bytes rest : List ℕ) (whole : Whole) → judging.input bytes ≡ Ok (whole, rest) → IsTheDocument bytes whole }
    ensures shaped { (bytes rest : List ℕ) (whole : Whole) → judging.input bytes ≡ Ok (whole, rest) → IsShaped whole.nodes }
    ensures refused { (bytes : List ℕ) (fault : Fault) → judging.input bytes ≡ Err fault → HaveNoDocument bytes }
{}

/// What the readers answer of fragments: the nodes that are there, or that the text is no fragment.
pub fn fragments_are_found_or_refused()
    ensures found { (text rest : List ℕ) (nodes : List Node) → judging.fragment text ≡ Ok (nodes, rest) → IsTheFragment text nodes }
    ensures shaped { (text rest : List ℕ) (nodes : List Node) → judging.fragment text ≡ Ok (nodes, rest) → IsFragmentShaped nodes }
    ensures refused { (text : List ℕ) (fault : Fault) → judging.fragment text ≡ Err fault
        → (nodes : List Node) → grammar.IsFragment text nodes → ⊥ }
{}

/// What a call answers of a document or a fragment: what the grammar finds in the bytes, or an error where it finds
/// nothing.
pub fn calls_answer_by_the_grammar<X>()
    ensures documents { (view : X → Whole) (bytes : List ℕ) (answer : Result X HtmlError) → Told (length bytes) view answer (judging.input bytes)
        → IfOk answer (λ x. IsTheDocument bytes (view x) × IsShaped (view x).nodes) × IfErr answer (λ error. RefusesDocument bytes error) }
    ensures fragments { (view : X → List Node) (text : List ℕ) (answer : Result X HtmlError) → Told (length text) view answer (judging.fragment text)
        → IfOk answer (λ x. IsTheFragment text (view x) × IsFragmentShaped (view x)) × IfErr answer (λ error. RefusesFragment text error) }
{}

/// Where the nodes of a document begin.
pub fn nodes_begin_in_place()
    // The bytes are read as without places, which are as many as the nodes.
    ensures alike { (bytes : List ℕ) → mapped (λ places. length places) placed_input bytes ≡ mapped (λ whole. length whole.nodes) judging.input bytes }
    ensures found { (bytes places rest : List ℕ) → placed_input bytes ≡ Ok (places, rest) → ArePlaces bytes places }
{}

/// What stands before `html` stops at the first byte with which it doesn't go on.
pub fn fronts_stop_in_place()
    ensures prologs { StopsInPlace judging.prolog × IsViable judging.prolog grammar.IsProlog }
    // No such text begins with what was read and the next byte.
    ensures no_prolog { (text later more rest behind : List ℕ) (next byte : ℕ) → judging.prolog (text ++ next ∷ later) ≡ Err (next ∷ later)
        → grammar.IsProlog (text ++ next ∷ more) tt → rest ≡ 60 ∷ byte ∷ behind → (byte == 33) ≡ false → ⊥ }
{}
