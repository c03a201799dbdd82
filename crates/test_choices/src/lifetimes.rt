ghost use Rattle.std.specs.Prelude.{◌≡◌, ◌<◌, ◌≤◌, ℕ, length, slice_index};

use crate::told::same_of;
use envy_base::Shape;
use envy_policy::{Choice, Class, Lifetime, Rows};
use std::alloc::Global;
use std::process::Abort;

/// Rows at three positions, by lists of their numbers.
#[derive(Clone, Copy)]
struct Listed {
    free: [u32; 3],
    dead: [u32; 3],
    kept: [u32; 3],
}

impl Rows for Listed {
    ghost counts = { λ a. record { free = a.free; dead = a.dead; kept = a.kept } };

    fn free(&self, position: u32) -> u32 {
        self.free[position as usize]
    }

    fn dead(&self, position: u32) -> u32 {
        self.dead[position as usize]
    }

    fn kept(&self, position: u32) -> u32 {
        self.kept[position as usize]
    }

    fn first_free(&self, start: u32) -> Option<u32> {
        for position in start..3 {
            if self.free[position as usize] > 0 {
                return Some(position);
            }
        }
        None
    }
}

/// Nothing noted, over three positions and 16 pages.
fn unnoted(rt: &impl Abort, alloc: Global) -> Lifetime
    ensures { (length result.cleaned ≡ 3) × (length result.born ≡ 16) }
{
    let shape = Shape {
        segments: 4,
        rows: 16,
        pages: 16,
        shadows: 0,
        frames: 8,
        entries: 4,
        reserves: 0,
        sums: 0,
    };
    shape.check().expect(rt, "the shape");
    Lifetime::new(alloc, &shape).expect(rt, "no room for lives")
}

/// As many flushes of page 1 to position 0.
fn flush_others(lifetime: &mut Lifetime, flushes: u32)
    requires positions { length lifetime.old.cleaned ≡ 3 }
    requires pages { length lifetime.old.born ≡ 16 }
    ensures positions { length lifetime.new.cleaned ≡ 3 }
    ensures pages { length lifetime.new.born ≡ 16 }
{
    for _flush in 0..flushes {
        lifetime.note_flush(0, 1);
    }
}

/// What is noted, or asked with its answer.
#[derive(Clone, Copy)]
enum Step {
    /// A flush to a position, of a page.
    Flushes(u32, u32),
    /// So many flushes of page 1 to position 0.
    Others(u32),
    Cleans(u32),
    Resets,
    IsOf(u32, Class),
    /// By free, dead and kept rows, for a page.
    Chooses([[u8; 3]; 3], u32, Choice),
    /// By free rows, beside a job that may be emptying a position, for a page.
    Beside([u8; 3], Option<u32>, u32, Option<u32>),
}

fn widened(numbers: [u8; 3]) -> [u32; 3]
    ensures { (k : ℕ) → slice_index result k ≤ 255 }
{
    let [first, second, third] = numbers;
    [first as u32, second as u32, third as u32]
}

/// The choice for a page; none where no row is free or dead.
fn chosen(lifetime: &Lifetime, rows: [[u8; 3]; 3], page: u32) -> Option<Choice>
    requires positions { length lifetime.now.cleaned ≡ 3 }
    requires pages { length lifetime.now.born ≡ 16 }
    requires page { page < 16 }
{
    let [free, dead, kept] = rows;
    let (free, dead, kept) = (widened(free), widened(dead), widened(kept));
    for position in 0..3 {
        if free[position] > 0 || dead[position] > 0 {
            return Some(lifetime.choose(&free, &dead, &kept, page));
        }
    }
    None
}

fn chosen_beside(lifetime: &Lifetime, free: [u8; 3], emptied: Option<u32>, page: u32) -> Option<u32>
    requires positions { length lifetime.now.cleaned ≡ 3 }
    requires pages { length lifetime.now.born ≡ 16 }
    requires page { page < 16 }
{
    let rows = Listed {
        free: widened(free),
        dead: [0, 0, 0],
        kept: [0, 0, 0],
    };
    lifetime.beside(&rows, emptied, page)
}

/// Makes a step, and tests that it is answered as it says.
fn check_step(rt: &impl Abort, lifetime: &mut Lifetime, name: &str, at: u64, step: Step)
    requires positions { length lifetime.old.cleaned ≡ 3 }
    requires pages { length lifetime.old.born ≡ 16 }
    ensures positions { length lifetime.new.cleaned ≡ 3 }
    ensures pages { length lifetime.new.born ≡ 16 }
{
    match step {
        Step::Flushes(position, page) if position < 3 && page < 16 => {
            lifetime.note_flush(position, page);
        }
        Step::Others(flushes) => flush_others(lifetime, flushes),
        Step::Cleans(position) if position < 3 => lifetime.note_clean(position),
        Step::Resets => lifetime.reset(),
        Step::IsOf(page, class) if page < 16 => {
            same_of(rt, lifetime.class_of(page), class, name, at);
        }
        Step::Chooses(rows, page, choice) if page < 16 => {
            same_of(rt, chosen(lifetime, rows, page), Some(choice), name, at);
        }
        Step::Beside(free, emptied, page, position) if page < 16 => {
            let found = chosen_beside(lifetime, free, emptied, page);
            same_of(rt, found, position, name, at);
        }
        // there is no such position or page
        _ => same_of(rt, false, true, name, at),
    }
}

/// Nothing is noted before the steps. Where one is answered otherwise, its number is told.
fn check_steps(rt: &impl Abort, alloc: Global, name: &str, steps: &[Step]) {
    let mut lifetime = unnoted(rt, alloc);
    for i in 0..steps.len() {
        check_step(rt, &mut lifetime, name, i as u64, steps[i]);
    }
}

/// For so many flushes since a page's own: its class.
const CLASSES: [(u32, Class); 7] = [
    (0, Class::Brief),
    (3, Class::Brief),
    (4, Class::Short),
    (7, Class::Short),
    (8, Class::Long),
    (15, Class::Long),
    (16, Class::Lasting),
];

#[test]
fn classes_part_at_a_quarter_a_half_and_the_whole(rt: HostRuntime) {
    for (flushes, class) in CLASSES.as_slice() {
        let steps = [
            Step::Flushes(1, 0),
            Step::Others(*flushes),
            Step::IsOf(0, *class),
            Step::IsOf(2, Class::Lasting),
        ];
        check_steps(&rt, rt.alloc(), "classes", &steps);
    }
}

const FREE_1: Choice = Choice::Free { position: 1 };

const FREE_2: Choice = Choice::Free { position: 2 };

const CLEAN_0: Choice = Choice::Clean {
    position: 0,
    aside: None,
};

const CLEAN_1: Choice = Choice::Clean {
    position: 1,
    aside: None,
};

const OPEN_CLASS: [Step; 4] = [
    Step::Chooses([[0, 2, 1], [0, 0, 0], [0, 0, 0]], 0, FREE_1),
    Step::Flushes(2, 0),
    Step::Chooses([[0, 2, 1], [0, 0, 0], [0, 0, 0]], 1, FREE_2),
    Step::Chooses([[0, 2, 1], [0, 0, 0], [0, 0, 0]], 0, FREE_1),
];

const CLEANING_FIRST: [Step; 3] = [
    Step::Flushes(2, 0),
    Step::Chooses([[0, 0, 1], [2, 3, 9], [0, 0, 0]], 0, CLEAN_1),
    Step::Chooses([[0, 0, 1], [0, 0, 9], [0, 0, 0]], 0, FREE_2),
];

// position 0 has age 6 then, the others age 10
const AGE_COUNTS: [Step; 8] = [
    Step::Others(4),
    Step::Cleans(0),
    Step::Others(5),
    // page 2 was never flushed: 48 to 40, 36 to 40, 60 to 60 thirds
    Step::Chooses([[0, 0, 0], [8, 4, 4], [1, 1, 1]], 2, CLEAN_0),
    Step::Chooses([[0, 0, 0], [6, 4, 4], [1, 1, 1]], 2, CLEAN_1),
    Step::Chooses([[0, 0, 0], [10, 6, 6], [1, 1, 1]], 2, CLEAN_0),
    // page 1 was the last to be flushed
    Step::Chooses([[0, 0, 0], [6, 4, 4], [1, 1, 1]], 1, CLEAN_0),
    Step::Chooses([[0, 0, 0], [4, 5, 5], [1, 1, 1]], 1, CLEAN_1),
];

// 3 * 1 / 1 to 8 * 1 / 3 to 15 * 1 / 5
const KEPT_COUNT_TWICE: [Step; 1] = [Step::Chooses([[0, 0, 0], [3, 8, 15], [0, 1, 2]], 0, CLEAN_0)];

const BESIDE_A_JOB: [Step; 5] = [
    Step::Flushes(2, 0),
    Step::Beside([0, 2, 1], None, 1, Some(2)),
    Step::Beside([0, 2, 1], Some(2), 1, Some(1)),
    Step::Beside([0, 2, 1], None, 0, Some(1)),
    Step::Beside([0, 2, 1], Some(1), 0, None),
];

const RESET: [Step; 4] = [
    Step::Flushes(2, 0),
    Step::Resets,
    Step::IsOf(0, Class::Lasting),
    Step::Chooses([[0, 2, 1], [0, 0, 0], [0, 0, 0]], 1, FREE_1),
];

/// Sessions of the four rules of a choice, each of which begins with nothing noted. A table of them would be one of nested
/// slices, which cost more proof.
fn check_rules(rt: &impl Abort, alloc: Global) {
    check_steps(
        rt,
        alloc,
        "a page goes where its class is open",
        &OPEN_CLASS,
    );
    check_steps(
        rt,
        alloc,
        "a cleaning comes before another class",
        &CLEANING_FIRST,
    );
    check_steps(
        rt,
        alloc,
        "age counts for all classes but brief",
        &AGE_COUNTS,
    );
    check_steps(
        rt,
        alloc,
        "kept rows count twice and one",
        &KEPT_COUNT_TWICE,
    );
}

/// The same of a job beside the choice, and of a reset.
fn check_others(rt: &impl Abort, alloc: Global) {
    check_steps(
        rt,
        alloc,
        "beside a job the emptied position takes none",
        &BESIDE_A_JOB,
    );
    check_steps(rt, alloc, "nothing noted outlasts a reset", &RESET);
}

#[test]
fn positions_are_chosen_by_lives(rt: HostRuntime) {
    check_rules(&rt, rt.alloc());
    check_others(&rt, rt.alloc());
}
