ghost use Rattle.std.specs.Prelude.{◌≡◌, ℕ, ◌/◌, ◌<◌, List, length};
ghost use Rattle.envy_bank.specs.Commands.{upset_at};
ghost use Rattle.envy_bank.specs.Lanes.{lane_of};
ghost use Rattle.envy_base.specs.State.{IsPage, ands};
ghost use Rattle.envy_bank.specs.Rows.{BankState, IsBank, ErasesBlock, row_of, with_row};
ghost use Rattle.envy_bank.specs.Chips.{EachChip, programmed_by_bytes, erased_by_bytes, row_read};

/// What `program_row` makes of a bank is what the bytes of a program, given to each chip at the row's
/// address with its lane of the page, make of the 256 chips.
pub fn programs_are_writes_to_each_chip()
    ensures { (s : BankState) (q : ℕ) (page : List ℕ) → IsBank s → q < length s.flash → IsPage page
        → EachChip (λ j. programmed_by_bytes q (lane_of page j)) s (with_row s q (ands (row_of s q) page)) }
{}

/// What `erase_block` makes of a bank is what the bytes of an erase, given to each chip at any address of
/// the block, make of the 256 chips.
pub fn erases_are_writes_to_each_chip()
    ensures { (s new : BankState) (block q : ℕ) → IsBank s → block < length s.erases → ErasesBlock block s new
        → q / s.rows ≡ block → EachChip (λ _. erased_by_bytes q) s new }
{}

/// What `upset_row` makes of a bank is that each chip's byte at the row's address is its lane of the page.
pub fn upsets_reach_each_chip()
    ensures { (s : BankState) (q : ℕ) (page : List ℕ)
        → EachChip (λ j c. upset_at c q (lane_of page j)) s (with_row s q page) }
{}

/// A row is what reads of the 256 chips at its address give.
pub fn rows_are_read_from_the_chips()
    ensures { (s : BankState) (q : ℕ) → IsBank s → q < length s.flash → row_read s q ≡ row_of s q }
{}
