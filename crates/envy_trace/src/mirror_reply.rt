ghost use Rattle.arrayvec.specs.ArrayVec.{array_vec_len};
ghost use Rattle.std.specs.Prelude.{◌≡◌, ◌≤◌, []};
ghost use Rattle.envy_trace.specs.Mirror.{mirror_bytes};

use crate::reply::Reply;
use crate::write::reply_text;
use crate::{push_number, push_text};
use arrayvec::ArrayVec;

/// The reply to a line of a trace for a pair of boards.
#[derive(Clone, Copy, Debug, PartialEq, Eq)]
pub enum MirrorReply {
    /// The reply of one array.
    Array(Reply),
    /// The side that was cut has no power, and the other goes on.
    Gone,
    /// Both sides are good.
    Whole,
    /// The slot with this number is to be closed first.
    Waiting(u8),
    /// Power came to the side that had none.
    Woken,
    /// This page was copied.
    Copied(u32),
    /// Both sides are good from here on.
    Joined,
    /// Power doesn't come to the side that has none.
    Dead,
    /// Power of the side that follows failed.
    Slipped,
}

/// Writes the reply into an empty buffer, without a newline.
#[tactic(auto, unfolding(crate::specs::Mirror::mirror_bytes))]
pub fn mirror_text(reply: &MirrorReply, out: &mut ArrayVec<u8, 512>)
    requires { out.old.items ≡ [] }
    ensures text { out.new.items ≡ mirror_bytes reply.now }
    ensures short { array_vec_len out.new ≤ 252 }
{
    match reply {
        MirrorReply::Array(reply) => reply_text(reply, out),
        MirrorReply::Gone => push_text(out, b"gone"),
        MirrorReply::Whole => push_text(out, b"whole"),
        MirrorReply::Waiting(slot) => {
            push_text(out, b"waiting ");
            push_number(out, u64::from(*slot));
        }
        MirrorReply::Woken => push_text(out, b"woken"),
        MirrorReply::Copied(page) => {
            push_text(out, b"copied ");
            push_number(out, u64::from(*page));
        }
        MirrorReply::Joined => push_text(out, b"joined"),
        MirrorReply::Dead => push_text(out, b"dead"),
        MirrorReply::Slipped => push_text(out, b"slipped"),
    }
}
