//! The names of what stands in a case.

use fragment_types::{Breaking, UnitKind};
use style_types::{Align, Baseline, Combine, TextOrientation, UnicodeBidi};
use wm_chars::BidiClass;
use wm_modes::{Direction, WritingMode};

pub(crate) const MODES: [(&'static str, WritingMode); 5] = [
    ("HorizontalTb", WritingMode::HorizontalTb),
    ("VerticalRl", WritingMode::VerticalRl),
    ("VerticalLr", WritingMode::VerticalLr),
    ("SidewaysRl", WritingMode::SidewaysRl),
    ("SidewaysLr", WritingMode::SidewaysLr),
];

pub(crate) const DIRECTIONS: [(&'static str, Direction); 2] = [
    ("Ltr", Direction::Ltr),
    ("Rtl", Direction::Rtl),
];

pub(crate) const ORIENTATIONS: [(&'static str, TextOrientation); 3] = [
    ("Mixed", TextOrientation::Mixed),
    ("Upright", TextOrientation::Upright),
    ("Sideways", TextOrientation::Sideways),
];

pub(crate) const COMBINES: [(&'static str, Combine); 5] = [
    ("Never", Combine::Never),
    ("All", Combine::All),
    ("Digits2", Combine::Digits(2)),
    ("Digits3", Combine::Digits(3)),
    ("Digits4", Combine::Digits(4)),
];

pub(crate) const BIDIS: [(&'static str, UnicodeBidi); 6] = [
    ("Normal", UnicodeBidi::Normal),
    ("Embed", UnicodeBidi::Embed),
    ("Isolate", UnicodeBidi::Isolate),
    ("BidiOverride", UnicodeBidi::BidiOverride),
    ("IsolateOverride", UnicodeBidi::IsolateOverride),
    ("Plaintext", UnicodeBidi::Plaintext),
];

pub(crate) const ALIGNS: [(&'static str, Align); 5] = [
    ("Start", Align::Start),
    ("End", Align::End),
    ("Left", Align::Left),
    ("Right", Align::Right),
    ("Center", Align::Center),
];

pub(crate) const BASELINES: [(&'static str, Baseline); 2] = [
    ("Alphabetic", Baseline::Alphabetic),
    ("Central", Baseline::Central),
];

pub(crate) const BREAKS: [(&'static str, Breaking); 3] = [
    ("No", Breaking::No),
    ("May", Breaking::May),
    ("Must", Breaking::Must),
];

pub(crate) const FORMS: [(&'static str, UnitKind); 4] = [
    ("Along", UnitKind::Along),
    ("Turned", UnitKind::Turned),
    ("Upright", UnitKind::Upright),
    ("Combined", UnitKind::Combined),
];

pub(crate) const CLASSES: [(&'static str, BidiClass); 22] = [
    ("L", BidiClass::L),
    ("R", BidiClass::R),
    ("AL", BidiClass::AL),
    ("EN", BidiClass::EN),
    ("ES", BidiClass::ES),
    ("ET", BidiClass::ET),
    ("AN", BidiClass::AN),
    ("CS", BidiClass::CS),
    ("NSM", BidiClass::NSM),
    ("B", BidiClass::B),
    ("S", BidiClass::S),
    ("WS", BidiClass::WS),
    ("ON", BidiClass::ON),
    ("LRE", BidiClass::LRE),
    ("LRO", BidiClass::LRO),
    ("RLE", BidiClass::RLE),
    ("RLO", BidiClass::RLO),
    ("PDF", BidiClass::PDF),
    ("LRI", BidiClass::LRI),
    ("RLI", BidiClass::RLI),
    ("FSI", BidiClass::FSI),
    ("PDI", BidiClass::PDI),
];
