//! The lines that tell what is refused.

ghost use Rattle.std.specs.Prelude.{◌≡◌, ◌≤◌, length};
ghost use Rattle.edit_job.specs.Refusal.{refusal};

use arrayvec::ArrayString;
use itoa::Buffer;

/// The line of a refusal: its word of at most 17 bytes, and its place, the number of a node or that of a line.
#[tactic(auto, unfolding(crate::specs::Refusal::refusal))]
pub fn refusal_line(word: &str, place: usize) -> ArrayString<64>
    requires { length word.now ≤ 17 }
    ensures { result.bytes ≡ refusal word.now place }
{
    let mut line = ArrayString::new();
    line.push_str("refused ");
    line.push_str(word);
    line.push_str(" ");
    line.push_str(Buffer::new().format(place));
    line.push_str("\n");
    line
}
