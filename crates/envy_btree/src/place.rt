ghost use Rattle.std.specs.Prelude.{◌≡◌, ◌+◌, ◌%◌, ◌≤◌, false, length, IfOk, IsTrue, MatchResult};
ghost use Rattle.envy_array.specs.Words.{IsPlace};
ghost use Rattle.envy_base.specs.declared.page.TheConstants.{PAGE_WORDS};
ghost use Rattle.envy_btree.specs.Looking.{Looks};

use envy_array::{KeyPlace, Words};
use envy_base::Off;

/// The place of a key among the `count` words from `a` on, within one page. Where none is on one side, `low` or `top` is
/// the bound that was passed.
pub(crate) fn place_of<W: Words>(
    words: &mut W,
    a: u32,
    count: u32,
    key: u64,
    low: u64,
    top: u64,
) -> Result<KeyPlace, Off>
    requires within { a + count ≤ length (W.sheet words.old).words }
    requires page { a % PAGE_WORDS + count ≤ PAGE_WORDS }
    requires above { low ≤ key }
    requires below { key ≤ top }
    ensures looks { Looks (W.sheet words.old) (W.sheet words.new) }
    ensures power { MatchResult result (λ _. IsTrue (W.sheet words.old).on → IsTrue (W.sheet words.new).on)
        (λ _. (W.sheet words.new).on ≡ false) }
    ensures place { IfOk result (λ x.
        IsPlace (W.sheet words.old).words a count key low top x.index x.low x.top) }
{
    words.search(a, count, key, low, top)
}
