ghost use Rattle.std.specs.Prelude.{◌≡◌, ◌⊎◌, ◌↔◌, ℕ, ◌+◌, ◌<◌, ◌≤◌, List, IsTrue, false, MatchResult, IfOk, MatchOption, length, OnErr};
ghost use Rattle.envy_base.specs.declared.board.Trouble.{Trouble};
ghost use Rattle.envy_array.specs.Words.{Works, Spends, OnPage, Fails};
ghost use Rattle.envy_heap.specs.Pieces.{IsHeap, handed, TakesAs, Gives};

use envy_array::Words;
use envy_base::Trouble;

/// Hands out a piece that isn't handed out, or says that all are.
pub fn take<W: Words>(words: &mut W) -> Result<Option<u32>, Trouble>
    requires begun { IsTrue (W.sheet words.old).started }
    requires room { length (W.sheet words.old).pages + 2 ≤ (W.sheet words.old).room }
    requires heap { (free : List ℕ) × IsHeap (W.sheet words.old).words free }
    ensures works { OnPage 0 (W.sheet words.old) (W.sheet words.new) }
    ensures spends { Spends 1 (W.sheet words.old) (W.sheet words.new) }
    ensures fails { Fails (W.sheet words.old) result (W.sheet words.new) }
    ensures takes { (free : List ℕ) → IsHeap (W.sheet words.old).words free
        → TakesAs (W.sheet words.old).words free result (W.sheet words.new).words }
{
    let link = words.load(1)?;
    if link > 0 {
        let piece = (link - 1) as u32;
        let next = words.load(64 + 64 * piece)?;
        words.put(1, next)?;
        return Ok(Some(piece));
    }
    let used = words.load(2)?;
    if used as u32 == (words.size() - 64) / 64 {
        return Ok(None);
    }
    words.put(2, used + 1)?;
    Ok(Some(used as u32))
}

/// Takes a piece back that is handed out.
pub fn give<W: Words>(words: &mut W, piece: u32) -> Result<(), Trouble>
    requires begun { IsTrue (W.sheet words.old).started }
    requires room { length (W.sheet words.old).pages + 2 ≤ (W.sheet words.old).room }
    requires heap { (free : List ℕ) × IsHeap (W.sheet words.old).words free
        × (handed (W.sheet words.old).words free piece ≡ 1) }
    ensures works { Works 2 (W.sheet words.old) (W.sheet words.new) }
    ensures spends { Spends 2 (W.sheet words.old) (W.sheet words.new) }
    ensures fails { Fails (W.sheet words.old) result (W.sheet words.new) }
    ensures gives { (free : List ℕ) → IsHeap (W.sheet words.old).words free
        → handed (W.sheet words.old).words free piece ≡ 1
        → Gives piece (W.sheet words.old).words free result (W.sheet words.new).words }
{
    let link = words.load(1)?;
    words.put(64 + 64 * piece, link)?;
    words.put(1, piece as u64 + 1)?;
    Ok(())
}
