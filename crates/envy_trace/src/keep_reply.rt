ghost use Rattle.arrayvec.specs.ArrayVec.{array_vec_len};
ghost use Rattle.std.specs.Prelude.{◌≡◌, ◌≤◌, []};
ghost use Rattle.envy_trace.specs.Keep.{keep_bytes};

use crate::{Reply, push_text, reply_text};
use arrayvec::ArrayVec;

/// The reply to a line of a trace for a memory that is kept in a file.
#[derive(Clone, Copy, Debug, PartialEq, Eq)]
pub enum KeepReply {
    /// The reply of one array.
    Trace(Reply),
    /// All that was done is on the disk.
    Synced,
}

/// Writes the reply into an empty buffer, without a newline.
#[tactic(auto, unfolding(crate::specs::Keep::keep_bytes))]
pub fn keep_text(reply: &KeepReply, out: &mut ArrayVec<u8, 512>)
    requires { out.old.items ≡ [] }
    ensures text { out.new.items ≡ keep_bytes reply.now }
    ensures short { array_vec_len out.new ≤ 252 }
{
    match reply {
        KeepReply::Trace(reply) => reply_text(reply, out),
        KeepReply::Synced => push_text(out, b"synced"),
    }
}
