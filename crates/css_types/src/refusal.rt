//! The table of values that are refused as unsupported, since they would silently change the layout
//! (docs/PROFILE/properties.md).

/// Which values of a property are refused.
#[derive(Clone, Copy, Debug, PartialEq, Eq)]
pub enum Refused {
    /// Those that are one of these names.
    Names,
    /// Those whose first token is a name that begins so.
    Beginning,
    /// Those that are none of these names.
    AllBut,
}

macro_rules! refusals {
    ($($property:literal $refused:ident $($name:literal)*;)*) => {
        [$(($property, Refused::$refused, &[$($name),*])),*]
    };
}

/// Each refusal once: the name of a property in lower case, the kind, and the names.
pub static REFUSALS: [(&str, Refused, &[&str]); 17] = refusals! {
    "display"              Names     "list-item" "contents" "flex" "inline-flex" "grid" "inline-grid" "ruby" "run-in" "table" "inline-table";
    "display"              Beginning "table-";
    "float"                Names     "left" "right" "inline-start" "inline-end";
    "position"             Names     "absolute" "fixed" "sticky";
    "overflow"             Names     "hidden" "scroll" "auto" "clip";
    "overflow-x"           Names     "hidden" "scroll" "auto" "clip";
    "overflow-y"           Names     "hidden" "scroll" "auto" "clip";
    "white-space"          Names     "nowrap" "pre" "pre-wrap" "pre-line" "break-spaces";
    "box-sizing"           Names     "border-box";
    "columns"              AllBut    "auto" "none";
    "column-count"         AllBut    "auto" "none";
    "column-width"         AllBut    "auto" "none";
    "transform"            AllBut    "auto" "none";
    "break-before"         AllBut    "auto" "avoid";
    "break-after"          AllBut    "auto" "avoid";
    "page-break-before"    AllBut    "auto" "avoid";
    "page-break-after"     AllBut    "auto" "avoid";
};
