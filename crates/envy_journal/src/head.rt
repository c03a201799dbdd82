// The head of a journal: a mark, a version and the sizes of the board.
ghost use Rattle.std.specs.Prelude.{◌≡◌, ◌+◌, ◌≤◌, ◌++◌, ◌∷◌, [], length, take, IfOk, IsErrOf};
ghost use Rattle.envy_journal.specs.Head.{head_bytes, HasHead, HasNoJournal, HasSixSizes, IsOtherVersion};
ghost use Rattle.envy_journal.specs.Version.{version};
ghost use Rattle.envy_journal.specs.declared.head.HeadError.TheVariants.{NoJournal, OtherVersion};

use crate::operation::{copy_behind, number_at, write_number};
use envy_base::Shape;

/// How many bytes a head takes.
pub(crate) const HEAD: usize = 33;

/// What a journal that is made begins with.
pub(crate) const MARK: [u8; 8] = [1, b'e', b'N', b'V', b'y', b'J', b'N', b'L'];

/// The version of the format. The second has counted batches, which a program of the first would take for what a crash
/// left, and the fourth runs of puts, which a program of the second would take for damage.
pub(crate) const VERSION: u8 = 4;

/// The version before it. To a log of that version no run is appended, so that older programs go on reading it.
pub(crate) const OLDER_VERSION: u8 = 2;

/// Why bytes don't begin as a journal does.
#[derive(Clone, Copy, Debug, PartialEq, Eq)]
pub enum HeadError {
    /// They are too few, or not marked as a journal.
    NoJournal,
    /// They are a journal of a version that isn't known here.
    OtherVersion,
}

/// The sizes of the board whose journal this is. They may break the rules of a `Shape`: check them. A head alone is a journal
/// without operations: opening one, cut short, may leave that.
pub fn read_head(bytes: &[u8]) -> Result<Shape, HeadError>
    ensures sizes { IfOk result (λ shape. HasHead shape bytes.now) }
    ensures six { IfOk result (λ shape. HasSixSizes shape) }
    ensures long { IfOk result (λ shape. 33 ≤ length bytes.now) }
    ensures no_journal { IsErrOf result NoJournal → HasNoJournal bytes.now }
    ensures other_version { IsErrOf result OtherVersion → IsOtherVersion bytes.now }
{
    if bytes.len() < HEAD || bytes[..8] != MARK[..] {
        return Err(HeadError::NoJournal);
    }
    if bytes[8] != VERSION && bytes[8] != OLDER_VERSION {
        return Err(HeadError::OtherVersion);
    }
    Ok(Shape {
        segments: number_at(bytes, 9),
        rows: number_at(bytes, 13),
        pages: number_at(bytes, 17),
        shadows: number_at(bytes, 21),
        frames: number_at(bytes, 25),
        entries: number_at(bytes, 29),
        reserves: 0,
        sums: 0,
    })
}

// The head of a journal of such a board.
fn head_of(shape: &Shape) -> [u8; 33]
    ensures { result ≡ head_bytes version shape.now }
{
    let mut bytes = [0; 33];
    copy_behind(&mut bytes, 0, &MARK);
    copy_behind(&mut bytes, 8, &[VERSION]);
    write_number(&mut bytes, 9, shape.segments);
    write_number(&mut bytes, 13, shape.rows);
    write_number(&mut bytes, 17, shape.pages);
    write_number(&mut bytes, 21, shape.shadows);
    write_number(&mut bytes, 25, shape.frames);
    write_number(&mut bytes, 29, shape.entries);
    bytes
}

/// The head of a journal of such a board, and a gate.
pub(crate) fn with_gate(shape: &Shape, gate: u8) -> [u8; 34]
    ensures { result ≡ head_bytes version shape.now ++ gate ∷ [] }
{
    let mut bytes = [gate; 34];
    copy_behind(&mut bytes, 0, &head_of(shape));
    copy_behind(&mut bytes, HEAD, &[gate]);
    bytes
}
