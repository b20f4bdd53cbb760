//! What an orthogonal box has available, and what it asks of its container (CSS Writing Modes 4, 7.3).

ghost use Rattle.std.specs.Prelude.{◌≡◌, ◌+◌, ◌≤◌, ◌^◌, unsigned_abs};
ghost use Rattle.ortho_flow.specs.Orthogonal as orthogonal;
ghost use Rattle.ortho_flow.specs.Orthogonal.{length_of};

/// The size that an orthogonal box finds on its own inline axis: `containing`, the containing block's block size
/// where that is definite, else the view's size on that axis, less the box's own margins, borders and paddings
/// there, which are `edges`; at least 0 (CSS Writing Modes 4, 7.3.1). The lengths, without their signs, sum to at
/// most 2^60.
pub fn available(containing: Option<i64>, view: i64, edges: i64) -> i64
    requires { length_of containing + unsigned_abs view + unsigned_abs edges ≤ 2 ^ 60 }
    ensures { result ≡ orthogonal.available containing view edges }
{
    (containing.unwrap_or(view) - edges).max(0)
}

/// What an orthogonal box asks of its container's inline axis: the extent there of its margin box, from its block
/// size `block`, its borders and paddings `edges`, and its margins (CSS Writing Modes 4, 7.3.2). The lengths,
/// without their signs, sum to at most 2^60.
pub fn contribution(block: i64, edges: i64, margins: i64) -> i64
    requires { unsigned_abs block + unsigned_abs edges + unsigned_abs margins ≤ 2 ^ 60 }
    ensures { result ≡ orthogonal.contribution block edges margins }
{
    block + edges + margins
}
