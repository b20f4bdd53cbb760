//! The base level of a paragraph (UAX 9, P2 and P3).

ghost use Rattle.std.specs.Prelude.{◌≡◌, ◌≤◌, IfSome};
ghost use Rattle.bidi_explicit.specs.Base as bases;

use crate::isolates::{Kind, kind_of};
use wm_chars::BidiClass;

/// The base level of a paragraph by its first strong character, L, R or AL, outside its isolates: 0 for L, 1 for
/// R and AL, or None exactly where it has none (UAX 9, P2 and P3).
#[tactic(auto, using(crate::proofs::Strong::found_low, crate::proofs::Strong::count_finds))]
pub fn base_level(classes: &[BidiClass]) -> Option<u8>
    ensures first { result ≡ bases.first_strong classes.now }
    ensures low { IfSome result (λ level. level ≤ 1) }
{
    let mut depth: usize = 0;
    for class in classes {
        match kind_of(*class) {
            Kind::Strong(level) => {
                if depth == 0 {
                    return Some(level);
                }
            }
            Kind::Opens => depth += 1,
            Kind::Closes => depth = depth.saturating_sub(1),
            Kind::Other => {}
        }
    }
    None
}

/// The base level of a paragraph: the one that is given, 0 or 1, or by P2 and P3, where a text without a strong character
/// has 0.
pub fn base_of(base: Option<u8>, classes: &[BidiClass]) -> u8
    requires { IfSome base (λ base. base ≤ 1) }
    ensures is { result ≡ bases.base_of base classes.now }
    ensures most { result ≤ 1 }
{
    match base {
        Some(base) => base,
        None => base_level(classes).unwrap_or(0),
    }
}
