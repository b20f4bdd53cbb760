//! The lines that answer a probe.

ghost use Rattle.std.specs.Prelude.{◌≡◌, ◌+◌, ◌≤◌, ◌++◌, length};
ghost use Rattle.probe_job.specs.Lines as spec;

use arrayvec::ArrayString;
use hit_caret::Hit;
use itoa::Buffer;
use wm_modes::Rect;

/// Room for the longest line: a word and four numbers of at most twenty characters.
pub(crate) type Line = ArrayString<96>;

/// What stands at a point.
#[tactic(auto, unfolding(crate::specs::Lines::hit_line))]
pub(crate) fn hit_line(found: Option<Hit>) -> Line
    ensures { result.bytes ≡ spec.hit_line found }
{
    let mut line = Line::new();
    match found {
        Some(hit) => {
            line.push_str("hit");
            push_count(&mut line, hit.node);
            push_count(&mut line, hit.first);
            push_count(&mut line, hit.end);
            push_count(&mut line, hit.place);
            line.push_str("\n");
        }
        None => line.push_str("miss\n"),
    }
    line
}

/// Where a caret stands.
#[tactic(auto, unfolding(crate::specs::Lines::caret_line))]
pub(crate) fn caret_line(found: Option<Rect>) -> Line
    ensures { result.bytes ≡ spec.caret_line found }
{
    let mut line = Line::new();
    match found {
        Some(caret) => {
            line.push_str("caret");
            push_number(&mut line, caret.x);
            push_number(&mut line, caret.y);
            push_number(&mut line, caret.w);
            push_number(&mut line, caret.h);
            line.push_str("\n");
        }
        None => line.push_str("nocaret\n"),
    }
    line
}

// A number from 0 behind a space.
#[tactic(auto, unfolding(crate::specs::Lines::count))]
fn push_count(line: &mut Line, number: u32)
    requires { length line.old.bytes ≤ 80 }
    ensures bytes { line.new.bytes ≡ line.old.bytes ++ spec.count number }
    ensures longer { length line.new.bytes ≤ length line.old.bytes + 11 }
{
    line.push_str(" ");
    line.push_str(Buffer::new().format(number));
}

// A length behind a space.
#[tactic(auto, unfolding(crate::specs::Lines::word))]
fn push_number(line: &mut Line, number: i64)
    requires { length line.old.bytes ≤ 74 }
    ensures bytes { line.new.bytes ≡ line.old.bytes ++ spec.word number }
    ensures longer { length line.new.bytes ≤ length line.old.bytes + 21 }
{
    line.push_str(" ");
    line.push_str(Buffer::new().format(number));
}
