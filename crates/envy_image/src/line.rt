ghost use Rattle.std.specs.Prelude.{◌≡◌, ◌+◌, ◌-◌, ◌<◌, ◌≤◌, ◌++◌, [], codes, decimal, slice_index};
ghost use Rattle.arrayvec.specs.ArrayVec.{array_vec_len};
ghost use Rattle.envy_image.specs.Segments.{further, segment_line, standing_at, text_of};
ghost use Rattle.envy_base.specs.Shape.{all_positions_of};

use arrayvec::ArrayVec;
use envy_space::Space;
use envy_trace::{push_number, push_text};

/// The most bytes of a line with its newline: seven numbers of 20 digits at most, six commas and a newline.
pub(crate) const MOST_LINE: usize = 147;

/// Where a segment is.
#[derive(Clone, Copy)]
pub(crate) enum Standing {
    /// At this position in use.
    Position(u32),
    /// At a position in reserve, with no row claimed since it was erased.
    Reserve,
    /// At a position in reserve, set aside until the next formatting.
    Retired,
    /// At no position.
    Spare,
}

/// Where the segment at a position is.
pub(crate) fn standing_at(space: &Space, position: u32) -> Standing
    requires { position < all_positions_of space.now.shape }
    ensures { result ≡ standing_at space.now position }
{
    if position < space.positions() {
        return Standing::Position(position);
    }
    if space.fill(space.segment_at(position)) == 0 {
        Standing::Reserve
    } else {
        Standing::Retired
    }
}

/// Appends a number behind a comma.
fn push_further(out: &mut ArrayVec<u8, MOST_LINE>, number: u64)
    requires room { array_vec_len out.old + 21 ≤ 147 }
    ensures text { out.new.items ≡ out.old.items ++ further number }
    ensures len { array_vec_len out.new ≤ array_vec_len out.old + 21 }
{
    out.push(b',');
    push_number(out, number);
}

/// Appends where a segment is.
fn push_standing(out: &mut ArrayVec<u8, MOST_LINE>, standing: Standing)
    requires room { array_vec_len out.old + 20 ≤ 147 }
    ensures text { out.new.items ≡ out.old.items ++ text_of standing }
    ensures len { array_vec_len out.new ≤ array_vec_len out.old + 20 }
{
    match standing {
        Standing::Position(position) => push_number(out, u64::from(position)),
        Standing::Reserve => push_text(out, b"reserve"),
        Standing::Retired => push_text(out, b"retired"),
        Standing::Spare => push_text(out, b"spare"),
    }
}

/// Puts the line of a segment, without a newline, into an empty buffer.
pub(crate) fn put_line(
    space: &Space,
    segment: u32,
    standing: Standing,
    wear: u64,
    out: &mut ArrayVec<u8, MOST_LINE>,
)
    requires segment { segment < space.now.shape.segments }
    requires empty { out.old.items ≡ [] }
    ensures text { out.new.items ≡ decimal segment
        ++ (codes "," ++ (text_of standing ++ (further wear
        ++ (further (slice_index space.now.fills segment) ++ (further (slice_index space.now.kept segment)
        ++ (further (space.now.shape.rows - slice_index space.now.fills segment)
        ++ further (slice_index space.now.fills segment - slice_index space.now.kept segment))))))) }
    ensures len { array_vec_len out.new < 147 }
{
    push_number(out, u64::from(segment));
    out.push(b',');
    push_standing(out, standing);
    push_further(out, wear);
    push_further(out, u64::from(space.fill(segment)));
    push_further(out, u64::from(space.kept(segment)));
    push_further(out, u64::from(space.free(segment)));
    push_further(out, u64::from(space.dead(segment)));
}
