//! How far a document is taken.

ghost use Rattle.std.specs.Prelude.{◌≡◌, Some, None, codes};
ghost use Rattle.count_styles.specs.declared.stage.Stage.TheVariants.{Document, Read, Nodes, Styles, Boxes};

/// How far a document is taken. Each takes it further than the one before.
#[derive(Clone, Copy, PartialEq, Eq)]
pub(crate) enum Stage {
    /// It is read, without its style sheets.
    Document,
    /// These are read too.
    Read,
    /// Its nodes are stored, and its rules made ready.
    Nodes,
    /// Each node has its style.
    Styles,
    /// The boxes are made.
    Boxes,
}

/// How far this word says.
pub(crate) fn stage_of(word: &str) -> Option<Stage>
    ensures document { result ≡ Some Document → word.now ≡ codes "document" }
    ensures read { result ≡ Some Read → word.now ≡ codes "read" }
    ensures nodes { result ≡ Some Nodes → word.now ≡ codes "nodes" }
    ensures styles { result ≡ Some Styles → word.now ≡ codes "styles" }
    ensures boxes { result ≡ Some Boxes → word.now ≡ codes "boxes" }
{
    match word {
        "document" => Some(Stage::Document),
        "read" => Some(Stage::Read),
        "nodes" => Some(Stage::Nodes),
        "styles" => Some(Stage::Styles),
        "boxes" => Some(Stage::Boxes),
        _ => None,
    }
}
