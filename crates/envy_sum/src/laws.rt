ghost use Rattle.std.specs.Prelude.{◌≡◌, ◌≢◌, ℕ, List};
ghost use Rattle.envy_base.specs.State.{IsPage};
ghost use Rattle.envy_sum.specs.Register.{bytes_sum};
ghost use Rattle.envy_sum.specs.Rows.{AgreeBut, AreBytesOf, bit_of, row_sum};

/// Two rows that differ, and in no more than 32 consecutive bits, have different sums.
pub fn a_burst_changes_the_sum()
    ensures { (x y : List ℕ) (k : ℕ) → IsPage x → IsPage y → AgreeBut k 32 x y → x ≢ y → row_sum x ≢ row_sum y }
{}

/// Two rows that differ in one bit have different sums.
pub fn a_changed_bit_changes_the_sum()
    ensures { (x y : List ℕ) (i : ℕ) → IsPage x → IsPage y → AgreeBut i 1 x y → bit_of x i ≢ bit_of y i
        → row_sum x ≢ row_sum y }
{}

/// The sum of a row is that of its bytes.
pub fn a_row_is_summed_by_its_bytes()
    ensures { (row bytes : List ℕ) → AreBytesOf row bytes → row_sum row ≡ bytes_sum bytes }
{}
