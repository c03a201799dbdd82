ghost use Rattle.std.specs.Prelude.{◌≡◌};

use crate::told::same_of;
use envy_base::Shape;
use envy_policy::{Choice, Chooser, Policy, Setup};
use std::alloc::Global;
use std::process::Abort;

/// A setup of 8 segments of 16 rows.
fn setup(policy: Policy) -> Setup {
    let shape = Shape {
        segments: 8,
        rows: 16,
        pages: 64,
        shadows: 16,
        frames: 8,
        entries: 4,
        reserves: 0,
        sums: 0,
    };
    Setup {
        shape,
        policy,
        limit: 100,
        mark: 8,
    }
}

/// What a chooser is told behind its flushes.
#[derive(Clone, Copy)]
enum Then {
    Nothing,
    /// A cleaning of this position.
    Cleans(u32),
    Resets,
}

/// A choice among three positions.
#[derive(Clone, Copy)]
struct Case {
    name: &'static str,
    policy: Policy,
    /// How many flushes went to each.
    flushes: [u8; 3],
    then: Then,
    /// How many rows of each are free, and dead.
    free: [u32; 3],
    dead: [u32; 3],
    home: u32,
    choice: Choice,
}

const CASES: [Case; 8] = [
    Case {
        name: "greedy cleans the most dead",
        policy: Policy::Greedy,
        flushes: [0, 0, 0],
        then: Then::Nothing,
        free: [0, 0, 0],
        dead: [1, 4, 2],
        home: 0,
        choice: Choice::Clean {
            position: 1,
            aside: None,
        },
    },
    Case {
        name: "first in, first out begins at the first position",
        policy: Policy::Fifo,
        flushes: [0, 0, 0],
        then: Then::Nothing,
        free: [0, 0, 0],
        dead: [1, 4, 2],
        home: 0,
        choice: Choice::Clean {
            position: 0,
            aside: None,
        },
    },
    Case {
        name: "first in, first out goes on behind its turn",
        policy: Policy::Fifo,
        flushes: [0, 0, 0],
        then: Then::Cleans(0),
        free: [0, 0, 0],
        dead: [1, 0, 2],
        home: 0,
        choice: Choice::Clean {
            position: 2,
            aside: None,
        },
    },
    Case {
        name: "the lower of two near partitions has the page",
        policy: Policy::Locality,
        flushes: [0, 0, 0],
        then: Then::Nothing,
        free: [2, 0, 0],
        dead: [0, 0, 3],
        home: 1,
        choice: Choice::Free { position: 0 },
    },
    Case {
        name: "a hot partition sets rows aside",
        policy: Policy::Locality,
        flushes: [1, 9, 2],
        then: Then::Nothing,
        free: [2, 0, 1],
        dead: [0, 1, 0],
        home: 1,
        choice: Choice::Clean {
            position: 1,
            aside: Some(0),
        },
    },
    Case {
        name: "a partition of mean heat sets none aside",
        policy: Policy::Locality,
        flushes: [4, 4, 4],
        then: Then::Nothing,
        free: [2, 0, 1],
        dead: [0, 1, 0],
        home: 1,
        choice: Choice::Clean {
            position: 1,
            aside: None,
        },
    },
    Case {
        name: "hybrid looks at partitions of two",
        policy: Policy::Hybrid(2),
        flushes: [2, 3, 1],
        then: Then::Nothing,
        free: [0, 0, 1],
        dead: [0, 3, 0],
        home: 0,
        choice: Choice::Clean {
            position: 1,
            aside: Some(1),
        },
    },
    Case {
        name: "a reset chooser is as at its start",
        policy: Policy::Locality,
        flushes: [1, 9, 2],
        then: Then::Resets,
        free: [2, 0, 1],
        dead: [0, 1, 0],
        home: 1,
        choice: Choice::Clean {
            position: 1,
            aside: None,
        },
    },
];

/// A chooser over three positions, after so many flushes to each.
fn after_flushes(rt: &impl Abort, alloc: Global, policy: Policy, flushes: [u8; 3]) -> Chooser
    ensures { result.positions ≡ 3 }
{
    let mut setup = setup(policy);
    setup.shape.segments = 4;
    setup.shape.pages = 16;
    setup.check().expect(rt, "the setup");
    let mut chooser = Chooser::new(alloc, &setup).expect(rt, "no room for a chooser");
    for position in 0..3 {
        for _flush in 0..flushes[position] {
            chooser.note_flush(position as u32);
        }
    }
    chooser
}

fn tell(chooser: &mut Chooser, then: Then)
    requires { chooser.old.positions ≡ 3 }
    ensures { chooser.new.positions ≡ 3 }
{
    match then {
        Then::Cleans(position) if position < 3 => chooser.note_clean(position),
        Then::Resets => chooser.reset(),
        _ => {}
    }
}

/// The choice; none where no row is free or dead, or there is no such home.
fn chosen(chooser: &Chooser, case: &Case) -> Option<Choice>
    requires { chooser.now.positions ≡ 3 }
{
    for position in 0..3 {
        let has_rows = case.free[position] > 0 || case.dead[position] > 0;
        if has_rows && case.home < 3 {
            return Some(chooser.choose(&case.free, &case.dead, case.home));
        }
    }
    None
}

#[test]
fn choices_are_made(rt: HostRuntime) {
    for case in CASES.as_slice() {
        let mut chooser = after_flushes(&rt, rt.alloc(), case.policy, case.flushes);
        tell(&mut chooser, case.then);
        let found = chosen(&chooser, case);
        same_of(&rt, found, Some(case.choice), case.name, case.home);
    }
}

/// Makes a chooser of a setup, which is dropped.
fn make(rt: &impl Abort, alloc: Global, setup: &Setup) {
    setup.check().expect(rt, "the setup");
    let _chooser = Chooser::new(alloc, setup).expect(rt, "no room for a chooser");
}

#[test]
fn the_usual_setup_makes_a_chooser(rt: HostRuntime) {
    make(&rt, rt.alloc(), &setup(Policy::Greedy));
}

/// A further fault of a setup.
#[derive(Clone, Copy)]
enum Fault {
    Nothing,
    Mark,
    Limit,
    Policy,
    Segments,
    Shadows,
    Entries,
    Frames,
    Pages,
    Rows,
    FewSegments,
}

/// The setup with a further fault.
fn faulty(setup: Setup, fault: Fault) -> Setup {
    let mut setup = setup;
    match fault {
        Fault::Nothing => {}
        Fault::Mark => setup.mark = 9,
        Fault::Limit => setup.limit = 0,
        Fault::Policy => setup.policy = Policy::Hybrid(8),
        Fault::Segments => {
            setup.shape.segments = 257;
            setup.shape.rows = 65536;
        }
        Fault::Shadows => setup.shape.shadows = 4294967295,
        Fault::Entries => setup.shape.entries = 0,
        Fault::Frames => setup.shape.frames = 1,
        Fault::Pages => setup.shape.pages = 0,
        Fault::Rows => setup.shape.rows = 1,
        Fault::FewSegments => setup.shape.segments = 3,
    }
    setup
}

/// Faults, each beside those before it, and the number of the first rule that fails.
const FAULTS: [(&str, Fault, Option<u8>); 11] = [
    ("no fault", Fault::Nothing, None),
    ("mark", Fault::Mark, Some(10)),
    ("limit", Fault::Limit, Some(9)),
    ("policy", Fault::Policy, Some(8)),
    ("rows in all", Fault::Segments, Some(7)),
    ("shadows", Fault::Shadows, Some(6)),
    ("entries", Fault::Entries, Some(5)),
    ("frames", Fault::Frames, Some(4)),
    ("pages", Fault::Pages, Some(3)),
    ("rows", Fault::Rows, Some(2)),
    ("segments", Fault::FewSegments, Some(1)),
];

/// The number of the first rule that fails.
fn first_fault(setup: Setup) -> Option<u8> {
    setup.check().err().map(|fault| fault.rule())
}

#[test]
fn rules_are_asked_in_order(rt: HostRuntime) {
    let mut setup = setup(Policy::Greedy);
    for (name, fault, rule) in FAULTS.as_slice() {
        setup = faulty(setup, *fault);
        same_of(
            &rt,
            first_fault(setup),
            *rule,
            name,
            "first rule that fails",
        );
    }
}
