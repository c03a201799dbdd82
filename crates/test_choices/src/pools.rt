ghost use Rattle.std.specs.Prelude.{◌≡◌, ◌<◌, ◌≤◌};

use crate::told::same_of;
use envy_base::Shape;
use envy_space::Space;
use std::alloc::Global;
use std::process::Abort;

/// A shape of 10 segments, of which 9 stand at positions, of 4 rows each.
const SHAPE: Shape = Shape {
    segments: 10,
    rows: 4,
    pages: 16,
    shadows: 4,
    frames: 8,
    entries: 4,
    reserves: 0,
    sums: 0,
};

fn made(rt: &impl Abort, alloc: Global) -> Space
    ensures { result.shape ≡ SHAPE }
{
    SHAPE.check().expect(rt, "the shape");
    Space::new(alloc, &SHAPE).expect(rt, "no room for a pool")
}

/// A linear congruential generator.
#[derive(Drop)]
struct Draws(u64);

impl Draws {
    /// A number below `end`.
    fn below(&mut self, end: u32) -> u32
        requires { 0 < end }
        ensures { result < end }
    {
        self.0 = self
            .0
            .wrapping_mul(6364136223846793005)
            .wrapping_add(1442695040888963407);
        (self.0 >> 33) as u32 % end
    }
}

/// One drawn change of a segment, or of the segment at a position.
fn change(space: &mut Space, draws: &mut Draws)
    requires { space.old.shape ≡ SHAPE }
    ensures { space.new.shape ≡ SHAPE }
{
    let segment = draws.below(10);
    let (fill, kept) = (space.fill(segment), space.kept(segment));
    match draws.below(8) {
        0 => space.stand(draws.below(9), segment),
        1 if kept == 0 => space.note_erased(segment),
        2 | 3 if kept < fill => space.note_kept(segment * 4),
        4 | 5 if kept > 0 => space.note_dead(segment * 4 + 3),
        _ if fill < 4 => space.set_fill(segment, fill + 1),
        _ => {}
    }
}

/// What `most_dead` answers, by looking at each position.
fn scanned(space: &Space, first: u32, last: u32) -> Option<u32>
    requires order { first ≤ last }
    requires last { last < 9 }
    requires shape { space.now.shape ≡ SHAPE }
{
    let mut found = None;
    let mut most = 0;
    for position in first..last + 1 {
        let dead = space.dead(space.segment_at(position));
        if dead > most {
            most = dead;
            found = Some(position);
        }
    }
    found
}

/// What a pool answers of segment 9, of the positions 0 to 8, of position 8 and of the spare.
type Answers = ((u32, u32, u32, u32), (u32, u32, u32), Option<u32>);

fn asked(space: &Space) -> Answers
    requires { space.now.shape ≡ SHAPE }
{
    (
        (space.fill(9), space.kept(9), space.free(9), space.dead(9)),
        (space.free_in(0, 8), space.segment_at(8), space.spare()),
        space.most_dead(0, 8),
    )
}

const NEW: Answers = ((0, 0, 4, 0), (36, 8, 9), None);

/// Tests the answers of a new pool.
fn check_new(rt: &impl Abort, space: &Space)
    requires { space.now.shape ≡ SHAPE }
{
    same_of(rt, asked(space), NEW, "new pool of", SHAPE.segments);
}

#[test]
fn a_new_pool_is_empty(rt: HostRuntime) {
    let space = made(&rt, rt.alloc());
    check_new(&rt, &space);
}

/// Tests what `most_dead` answers for each range of positions, in a turn.
fn check_ranges(rt: &impl Abort, space: &Space, turn: u32)
    requires { space.now.shape ≡ SHAPE }
{
    for first in 0..9 {
        for last in first..9 {
            let found = space.most_dead(first, last);
            let wanted = scanned(space, first, last);
            same_of(rt, found, wanted, "most dead", (first, last, turn));
        }
    }
}

#[test]
fn most_dead_is_that_of_a_scan(rt: HostRuntime) {
    let mut space = made(&rt, rt.alloc());
    let mut draws = Draws(1);
    for turn in 0..500 {
        change(&mut space, &mut draws);
        check_ranges(&rt, &space, turn);
    }
}
