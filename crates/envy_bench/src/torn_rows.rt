ghost use Rattle.std.specs.Prelude.{◌≡◌};
ghost use Rattle.envy_bench.specs.Draws.{next_word};
ghost use Rattle.envy_bench.specs.TornRows.{after_steps, next_words};

use crate::Torn;
use envy_base::{PAGE_LENGTH, PAGE_WORDS, Page};

/// The next 32 words, which fill a row.
pub fn next_row(torn: &mut Torn) -> Page
    ensures row { result ≡ next_words next_word torn.old }
    ensures rest { torn.new ≡ after_steps next_word PAGE_WORDS torn.old }
{
    let mut row = [0; PAGE_LENGTH];
    for word in row.iter_mut() {
        *word = torn.next();
    }
    row
}
