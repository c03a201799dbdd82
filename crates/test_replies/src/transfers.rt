//! What a load draws.

use envy_tpca::{Load, Transfer};

// The first three words of the generator are 15492934433077865799, 319104231195455319 and 2101115697694094752, by an
// independent program. The teller is the last digit of the first, and the account is the second modulo 8,000.
#[test]
fn the_first_transfer_is_that_of_the_first_three_words(rt: HostRuntime) {
    let mut load = Load::new(1, 1, 8000);
    let wanted = Transfer {
        account: 7319,
        teller: 9,
        branch: 0,
        delta: -531_121,
    };
    assert_eq!(rt; load.next(), wanted);
}
