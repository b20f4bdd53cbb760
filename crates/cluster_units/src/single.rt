//! The unit of one cluster: its orientation, its advance, its break class (CSS Writing Modes 4, 5.1; UAX 50).

ghost use Rattle.std.specs.Prelude.{◌≡◌, ◌+◌, ◌<◌, ◌≤◌, ◌^◌, pos, ◌≤ℤ◌, ◌&&◌, true, leb, is_some, unsigned_abs, IfSome};
ghost use Rattle.face_api.specs.Table.{IsTable};
ghost use Rattle.wm_chars.specs.Repertoire.{break_class, orientation};
ghost use Rattle.cluster_units.specs.Cluster.{is_control_class};
ghost use Rattle.cluster_units.specs.Laws.{IsUnitIn};
ghost use Rattle.cluster_units.specs.Plain as plain;
ghost use Rattle.cluster_units.specs.Unit as spec;

use crate::Unit;
use crate::cluster::Cluster;
use face_api::Face;
use fragment_types::UnitKind;
use style_types::{Combine, Style, TextOrientation};
use wm_chars::laws::upright_from_u_3000;
use wm_chars::{BreakClass, break_class};
use wm_modes::WritingMode;

/// The unit of a plain character that joins no run, at this place of its text and by this face; None of a bidi control. The
/// font size of its style is from 0 to 65,536.
#[inline(always)]
pub fn character_unit(c: char, place: usize, style: &Style, face: &dyn Face) -> Option<Unit>
    requires place { place < 2 ^ 32 }
    requires low { pos 0 ≤ℤ style.now.font_size }
    requires high { style.now.font_size ≤ℤ pos 65536 }
    ensures unit { result ≡ plain.character_unit style.now (table face.now) place c }
    ensures bounds { IfSome result (IsUnitIn place (place + 1)) }
{
    let cluster = Cluster {
        first: place,
        end: place + 1,
        head: c,
    };
    match break_class(c) {
        Some(BreakClass::Control) => None,
        Some(class) => {
            let kind = kind_of(style, c, Some(class));
            Some(single(cluster, kind, class, style, face))
        }
        None => {
            let kind = kind_of(style, c, None);
            Some(single(cluster, kind, BreakClass::Other, style, face))
        }
    }
}

/// Whether no units are combined in text of this style (CSS Writing Modes 4, 9.1).
pub fn combines_none(style: &Style) -> bool
    ensures { result ≡ plain.combines_none style.now }
{
    !is_vertical(style.mode) || style.combine == Combine::Never
}

/// Whether a plain character belongs to a run that may be combined in text of this style (CSS Writing Modes 4, 9.1).
#[inline(always)]
pub fn character_joins(c: char, style: &Style) -> bool
    ensures { result ≡ plain.character_joins style.now c }
{
    let cluster = Cluster {
        first: 0,
        end: 1,
        head: c,
    };
    joins(cluster, style)
}

// The unit of a cluster that stands by itself; None of a bidi control.
#[inline(always)]
pub(crate) fn cluster_unit(cluster: Cluster, style: &Style, face: &dyn Face) -> Option<Unit>
    requires low { pos 0 ≤ℤ style.now.font_size }
    requires high { style.now.font_size ≤ℤ pos 65536 }
    ensures { result ≡ spec.cluster_unit style.now (table face.now) cluster }
{
    let class = break_class(cluster.head);
    if is_control(class) {
        return None;
    }
    let kind = kind_of(style, cluster.head, class);
    Some(single(cluster, kind, class_of(cluster, class), style, face))
}

fn is_control(class: Option<BreakClass>) -> bool
    ensures { result ≡ is_control_class class }
{
    class == Some(BreakClass::Control)
}

// Whether the cluster belongs to a run that may be combined (CSS Writing Modes 4, 9.1).
#[inline(always)]
pub(crate) fn joins(cluster: Cluster, style: &Style) -> bool
    ensures { result ≡ spec.joins style.now cluster }
{
    is_vertical(style.mode) && may_join(style.combine, cluster)
}

#[inline(always)]
fn may_join(combine: Combine, cluster: Cluster) -> bool
    ensures { result ≡ spec.may_join combine cluster }
{
    match combine {
        Combine::Never => false,
        Combine::All => !cluster.is_space(),
        Combine::Digits(_) => cluster.is_digit(),
    }
}

// Whether a combined run may have so many clusters.
pub(crate) fn may_have(combine: Combine, count: usize) -> bool
    ensures { result ≡ spec.may_have combine count }
{
    match combine {
        Combine::Never => false,
        Combine::All => true,
        Combine::Digits(most) => count <= usize::from(most),
    }
}

fn is_vertical(mode: WritingMode) -> bool
    ensures { result ≡ spec.is_vertical mode }
{
    matches!(mode, WritingMode::VerticalRl | WritingMode::VerticalLr)
}

// The advance of a cluster in text that isn't upright.
pub(crate) fn plain_advance(cluster: Cluster, style: &Style, face: &dyn Face) -> i64
    requires low { pos 0 ≤ℤ style.now.font_size }
    requires high { style.now.font_size ≤ℤ pos 65536 }
    ensures advance { result ≡ spec.plain_advance style.now (table face.now) cluster }
    ensures near { unsigned_abs result ≤ 655360 }
{
    scaled(style.font_size, face.advance(cluster.head, false))
}

// A cluster of this class that stands so by itself.
#[inline(always)]
fn single(
    cluster: Cluster,
    kind: UnitKind,
    class: BreakClass,
    style: &Style,
    face: &dyn Face,
) -> Unit
    requires kind { kind ≡ spec.kind_of style.now cluster.head }
    requires low { pos 0 ≤ℤ style.now.font_size }
    requires high { style.now.font_size ≤ℤ pos 65536 }
    requires class { class ≡ spec.class_of cluster }
    ensures unit { result ≡ spec.single_unit style.now (table face.now) cluster }
    ensures near { unsigned_abs result.natural ≤ 655360 }
    ensures sound { IsTable (table face.now) }
{
    let upright = kind == UnitKind::Upright;
    let advance = scaled(style.font_size, face.advance(cluster.head, upright));
    Unit {
        first: cluster.first,
        end: cluster.end,
        kind,
        advance,
        natural: advance,
        break_class: class,
    }
}

// The break class of a cluster whose first character has this one.
fn class_of(cluster: Cluster, class: Option<BreakClass>) -> BreakClass
    requires { class ≡ break_class cluster.head }
    ensures { result ≡ spec.class_of cluster }
{
    if cluster.is_several() && cluster.head == ' ' {
        BreakClass::Other
    } else {
        class.unwrap_or(BreakClass::Other)
    }
}

// How a unit with this first character, which has this class, stands on its line.
#[inline(always)]
fn kind_of(style: &Style, c: char, class: Option<BreakClass>) -> UnitKind
    requires { class ≡ break_class c }
    ensures { result ≡ spec.kind_of style.now c }
{
    if is_vertical(style.mode) {
        vertical_kind(style.orientation, c, class)
    } else {
        UnitKind::Along
    }
}

// How it stands in a vertical line.
#[inline(always)]
fn vertical_kind(text_orientation: TextOrientation, c: char, class: Option<BreakClass>) -> UnitKind
    requires { class ≡ break_class c }
    ensures { result ≡ spec.vertical_kind text_orientation c }
{
    match text_orientation {
        TextOrientation::Mixed => mixed_kind(c, class),
        TextOrientation::Upright => UnitKind::Upright,
        TextOrientation::Sideways => UnitKind::Turned,
    }
}

// How a unit stands in a vertical line where `text-orientation` is `mixed`: its character decides (UAX 50).
#[inline(always)]
fn mixed_kind(c: char, class: Option<BreakClass>) -> UnitKind
    requires { class ≡ break_class c }
    ensures { result ≡ spec.kind_by (orientation c) }
{
    upright_from_u_3000();
    if is_upright(c, class) {
        UnitKind::Upright
    } else {
        UnitKind::Turned
    }
}

// Characters of the repertoire, which have a class, are upright from U+3000 on.
#[inline(always)]
fn is_upright(c: char, class: Option<BreakClass>) -> bool
    ensures { result ≡ (leb 0x3000 c && is_some class) }
{
    c >= '\u{3000}' && class.is_some()
}

// An advance in thousandths of the font size, rounded down.
fn scaled(font_size: i64, value: u32) -> i64
    requires low { pos 0 ≤ℤ font_size }
    requires high { font_size ≤ℤ pos 65536 }
    requires value { value ≤ 10000 }
    ensures scaled { result ≡ spec.scaled font_size value }
    ensures near { unsigned_abs result ≤ 655360 }
{
    (i64::from(value) * font_size).div_euclid(1000)
}
