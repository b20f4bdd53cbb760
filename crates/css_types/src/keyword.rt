//! Keywords, and which of them are values together (docs/PROFILE/properties.md).

ghost use Rattle.std.specs.Prelude.{◌≡◌, map};
ghost use Rattle.css_types.specs.Keywords.{words_of};

/// A keyword that is a value of some property, spelled as in the style sheet but for case and dashes.
#[derive(Clone, Copy, Debug, PartialEq, Eq)]
pub enum Keyword {
    Block,
    Inline,
    InlineBlock,
    FlowRoot,
    None,
    HorizontalTb,
    VerticalRl,
    VerticalLr,
    SidewaysRl,
    SidewaysLr,
    Ltr,
    Rtl,
    Mixed,
    Upright,
    Sideways,
    All,
    Normal,
    Embed,
    Isolate,
    BidiOverride,
    IsolateOverride,
    Plaintext,
    Start,
    End,
    Left,
    Right,
    Center,
    Baseline,
    Auto,
    Hidden,
    Dotted,
    Dashed,
    Solid,
    Double,
    Groove,
    Ridge,
    Inset,
    Outset,
    Static,
    Relative,
}

/// Keywords that are values of one property or of several.
#[derive(Clone, Copy, Debug, PartialEq, Eq)]
pub enum Keywords {
    Nowhere,
    Displays,
    Modes,
    Directions,
    Orientations,
    Combines,
    Bidis,
    Normal,
    Aligns,
    Baseline,
    Auto,
    NoLimit,
    Lines,
    Positions,
}

static DISPLAYS: [&str; 5] = ["block", "inline", "inline-block", "flow-root", "none"];

static MODES: [&str; 5] = [
    "horizontal-tb",
    "vertical-rl",
    "vertical-lr",
    "sideways-rl",
    "sideways-lr",
];

static DIRECTIONS: [&str; 2] = ["ltr", "rtl"];

static ORIENTATIONS: [&str; 3] = ["mixed", "upright", "sideways"];

static COMBINES: [&str; 2] = ["none", "all"];

static BIDIS: [&str; 6] = [
    "normal",
    "embed",
    "isolate",
    "bidi-override",
    "isolate-override",
    "plaintext",
];

static NORMAL: [&str; 1] = ["normal"];

static ALIGNS: [&str; 5] = ["start", "end", "left", "right", "center"];

static BASELINE: [&str; 1] = ["baseline"];

static AUTO: [&str; 1] = ["auto"];

static NO_LIMIT: [&str; 1] = ["none"];

static LINES: [&str; 10] = [
    "none", "hidden", "dotted", "dashed", "solid", "double", "groove", "ridge", "inset", "outset",
];

static POSITIONS: [&str; 2] = ["static", "relative"];

impl Keywords {
    /// Which keywords these are, in lower case and in the order of the docs.
    pub fn words(self) -> &'static [&'static str]
        ensures { map (λ word. word.now) result.now ≡ words_of self }
    {
        match self {
            Keywords::Nowhere => &[],
            Keywords::Displays => &DISPLAYS,
            Keywords::Modes => &MODES,
            Keywords::Directions => &DIRECTIONS,
            Keywords::Orientations => &ORIENTATIONS,
            Keywords::Combines => &COMBINES,
            Keywords::Bidis => &BIDIS,
            Keywords::Normal => &NORMAL,
            Keywords::Aligns => &ALIGNS,
            Keywords::Baseline => &BASELINE,
            Keywords::Auto => &AUTO,
            Keywords::NoLimit => &NO_LIMIT,
            Keywords::Lines => &LINES,
            Keywords::Positions => &POSITIONS,
        }
    }
}

macro_rules! words {
    ($($word:literal $keyword:ident;)*) => {
        [$(($word, Keyword::$keyword)),*]
    };
}

/// Each keyword with its word in lower case.
pub static WORDS: [(&str, Keyword); 40] = words! {
    "block"             Block;
    "inline"            Inline;
    "inline-block"      InlineBlock;
    "flow-root"         FlowRoot;
    "none"              None;
    "horizontal-tb"     HorizontalTb;
    "vertical-rl"       VerticalRl;
    "vertical-lr"       VerticalLr;
    "sideways-rl"       SidewaysRl;
    "sideways-lr"       SidewaysLr;
    "ltr"               Ltr;
    "rtl"               Rtl;
    "mixed"             Mixed;
    "upright"           Upright;
    "sideways"          Sideways;
    "all"               All;
    "normal"            Normal;
    "embed"             Embed;
    "isolate"           Isolate;
    "bidi-override"     BidiOverride;
    "isolate-override"  IsolateOverride;
    "plaintext"         Plaintext;
    "start"             Start;
    "end"               End;
    "left"              Left;
    "right"             Right;
    "center"            Center;
    "baseline"          Baseline;
    "auto"              Auto;
    "hidden"            Hidden;
    "dotted"            Dotted;
    "dashed"            Dashed;
    "solid"             Solid;
    "double"            Double;
    "groove"            Groove;
    "ridge"             Ridge;
    "inset"             Inset;
    "outset"            Outset;
    "static"            Static;
    "relative"          Relative;
};

/// The names of border widths, in lower case, with their lengths in hundredths of a pixel (CSS 2, 8.5.1).
pub static WIDTH_NAMES: [(&str, i64); 3] = [("thin", 100), ("medium", 300), ("thick", 500)];
