ghost use Rattle.std.specs.Prelude.{◌<◌};

use crate::{Sums, sum_of_bytes};
use envy_base::Page;
use std::test::Fail;

// A number drawn after `x`, by three shifts.
fn drawn(x: u64) -> u64 {
    let x = x ^ (x << 13);
    let x = x ^ (x >> 7);
    x ^ (x << 17)
}

// Turns the bits of `burst` from bit `at` of the row on.
fn turn(row: &mut Page, at: usize, burst: u32)
    requires { at < 2048 }
{
    let (word, shift) = (at / 64, at % 64);
    row[word] ^= u64::from(burst) << shift;
    if shift > 32 && word < 31 {
        row[word + 1] ^= u64::from(burst) >> (64 - shift);
    }
}

#[test]
fn texts_have_the_sums_of_the_standard(rt: HostRuntime) {
    assert_eq!(rt; sum_of_bytes(b"123456789"), 0xE306_9283);
    assert_eq!(rt; sum_of_bytes(&[0; 32]), 0x8A91_36AA);
    assert_eq!(rt; sum_of_bytes(&[0xFF; 32]), 0x62A8_AB43);
    let mut rising = [0; 32];
    let mut falling = [0; 32];
    for i in 0..32 {
        rising[i as usize] = i;
        falling[i as usize] = 31 - i;
    }
    assert_eq!(rt; sum_of_bytes(&rising), 0x46DD_794E);
    assert_eq!(rt; sum_of_bytes(&falling), 0x113F_DB5C);
    assert_eq!(rt; sum_of_bytes(&[]), 0);
}

#[test]
fn rows_have_their_sums(rt: HostRuntime) -> Result<(), Fail> {
    let sums = Sums::new(rt.alloc())?;
    let mut counting = [0; 32];
    for i in 0..32 {
        counting[i as usize] = i;
    }
    let mut row = [0; 32];
    assert_eq!(rt; sums.sum_of(&row), 0xB872_B190);
    assert_eq!(rt; sums.sum_of(&[u64::MAX; 32]), 0x0F46_4A5C);
    assert_eq!(rt; sums.sum_of(&counting), 0x7C22_8D6E);
    row[0] = 1;
    assert_eq!(rt; sums.sum_of(&row), 0x64C3_CB34);
    row[0] = 5;
    assert_eq!(rt; sums.sum_of(&row), 0x1832_BAB7);
    row[0] = 6;
    assert_eq!(rt; sums.sum_of(&row), 0x780D_43AA);
    row[0] = 0;
    row[31] = 1 << 63;
    assert_eq!(rt; sums.sum_of(&row), 0x3A84_8AE8);
    Ok(())
}

// A thousand drawn rows, and each with a drawn burst. The number that folds up their sums is from a model by long
// division of polynomials, written apart.
#[test]
fn bursts_are_seen(rt: HostRuntime) -> Result<(), Fail> {
    let sums = Sums::new(rt.alloc())?;
    let (mut x, mut folded, mut seen) = (1, 0u32, 0u32);
    let mut row = [0; 32];
    for _ in 0..1000u32 {
        for word in row.iter_mut() {
            x = drawn(x);
            *word = x;
        }
        let before = sums.sum_of(&row);
        x = drawn(x);
        let at = (x % 2017) as usize;
        x = drawn(x);
        turn(&mut row, at, ((x % (1 << 32)) as u32).max(1));
        let after = sums.sum_of(&row);
        if before != after {
            seen = seen.wrapping_add(1);
        }
        folded = folded
            .wrapping_mul(31)
            .wrapping_add(before)
            .wrapping_mul(31)
            .wrapping_add(after);
    }
    assert_eq!(rt; seen, 1000);
    assert_eq!(rt; folded, 0x4AD7_F436);
    Ok(())
}
