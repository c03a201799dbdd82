ghost use Rattle.std.specs.Prelude.{◌≡◌, ◌≤◌, []};
ghost use Rattle.arrayvec.specs.ArrayVec.{array_vec_len};
ghost use Rattle.envy_btree.specs.Replies.{index_bytes};

use arrayvec::ArrayVec;
use envy_trace::{push_number, push_text};

/// The reply to a line of a trace of the index.
#[derive(Clone, Copy, Debug, PartialEq, Eq)]
pub enum IndexReply {
    /// The value of the key, or the one that it had.
    Value(u64),
    /// The key has no value, or had none.
    Missing,
    /// The map has as many pairs as it may have.
    Full,
    /// A flash operation went bad.
    Fault,
    /// Power failed.
    Lost,
    /// Power has returned.
    Restarted,
    /// The fault is planned.
    Armed,
}

/// Writes the reply into an empty buffer, without a newline.
#[tactic(auto, unfolding(crate::specs::Replies::index_bytes))]
pub fn index_text(reply: &IndexReply, out: &mut ArrayVec<u8, 512>)
    requires { out.old.items ≡ [] }
    ensures text { out.new.items ≡ index_bytes reply.now }
    ensures short { array_vec_len out.new ≤ 20 }
{
    match reply {
        IndexReply::Value(value) => push_number(out, *value),
        IndexReply::Missing => push_text(out, b"none"),
        IndexReply::Full => push_text(out, b"full"),
        IndexReply::Fault => push_text(out, b"fault"),
        IndexReply::Lost => push_text(out, b"lost"),
        IndexReply::Restarted => push_text(out, b"restarted"),
        IndexReply::Armed => push_text(out, b"armed"),
    }
}
