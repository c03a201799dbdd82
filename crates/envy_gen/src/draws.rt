ghost use Rattle.std.specs.Prelude.{◌≡◌, ◌≤◌};
ghost use Rattle.envy_trace.specs.Spelling.{HasPlace};
ghost use Rattle.envy_gen.specs.Traces.{IsMix, address_of, drawn, hot_pages, next_line};

use crate::mix::{Mix, Skew};
use envy_base::{MOST_ROWS, PAGE_WORDS};
use envy_trace::Line;
use rand_core::Rng;

/// How many slots are drawn from.
const DRAWN_SLOTS: u64 = 4;

/// The hot pages among so many.
fn hot_pages(pages: u32, skew: &Skew) -> u32
    requires some { 1 ≤ pages }
    requires few { pages ≤ MOST_ROWS }
    requires hot { skew.now.hot ≤ 99 }
    ensures value { result ≡ hot_pages pages skew.now }
    ensures some { 1 ≤ result }
    ensures all { result ≤ pages }
{
    (pages * skew.hot / 100).max(1)
}

/// The address that a word chooses.
fn address(y: u64, mix: &Mix) -> u32
    requires { IsMix mix.now }
    ensures { result ≡ address_of y mix.now }
{
    let Some(skew) = mix.skew else {
        return (y % (PAGE_WORDS as u64 * u64::from(mix.pages))) as u32;
    };
    let hot = u64::from(hot_pages(mix.pages, &skew));
    let cold = u64::from(mix.pages) - hot;
    if cold == 0 || (y >> 34) % 100 < u64::from(skew.share) {
        return (y % (PAGE_WORDS as u64 * hot)) as u32;
    }
    (PAGE_WORDS as u64 * hot + y % (PAGE_WORDS as u64 * cold)) as u32
}

/// The line of three words. The first chooses its kind, the second its address and slot, and the third is the
/// word that it writes.
#[tactic(auto, unfolding(crate::specs::Traces::drawn))]
fn draw(x: u64, y: u64, z: u64, mix: &Mix) -> Line
    requires { IsMix mix.now }
    ensures line { result ≡ drawn x y z mix.now }
    ensures place { HasPlace result }
{
    let address = address(y, mix);
    if let Some(stores) = mix.stores {
        if x % 100 < u64::from(stores) {
            return Line::Store { address, word: z };
        }
        return Line::Load { address };
    }
    let slot = ((y >> 32) % DRAWN_SLOTS) as u8;
    match x % 16 {
        0..=5 => Line::Load { address },
        6..=9 => Line::Store { address, word: z },
        10 | 11 => Line::Put {
            slot,
            address,
            word: z,
        },
        12 => Line::Begin,
        13 => Line::Commit { slot },
        14 => Line::Abort { slot },
        _ => Line::Tick,
    }
}

/// Draws the next line.
#[tactic(auto, unfolding(crate::specs::Traces::next_line))]
pub fn next_line<R: Rng>(words: &mut R, mix: &Mix) -> Line
    requires { IsMix mix.now }
    ensures line { (result, R.stream words.new) ≡ next_line mix.now (R.stream words.old) }
    ensures place { HasPlace result }
{
    let x = words.next_u64();
    let y = words.next_u64();
    let z = words.next_u64();
    draw(x, y, z, mix)
}
