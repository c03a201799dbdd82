use crate::told::{same, same_at};
use envy_base::{Job, Place, Shape, Slot, Undo};
use envy_map::{MAGIC, decode_job, decode_place, decode_slot, decode_undo, words};

#[test]
fn the_map_of_a_small_board_has_559_words(rt: HostRuntime) {
    let shape = Shape {
        segments: 8,
        rows: 16,
        pages: 64,
        shadows: 16,
        frames: 8,
        entries: 4,
        reserves: 0,
        sums: 0,
    };
    same(&rt, &words(&shape), &559, "words");
}

#[test]
fn the_magic_word_spells_its_text(rt: HostRuntime) {
    same(&rt, &MAGIC.to_be_bytes(), b"eNVyFLSH", "magic word");
}

const JOBS: [(u64, Option<Job>); 6] = [
    (0, Some(Job::Idle)),
    (3, Some(Job::Erase)),
    (16_381, Some(Job::Copy(4095))),
    (16_382, Some(Job::Switch(4095))),
    (16_385, None),
    (7, None),
];

const SLOTS: [(u64, Option<Slot>); 2] = [(2, Some(Slot::Committed)), (3, None)];

const PLACES: [(u64, Option<Place>); 4] = [
    (67_108_861, Some(Place::Row(16_777_215))),
    (67_108_865, None),
    (262_142, Some(Place::Frame(65_535))),
    (262_146, None),
];

const LAST_SHADOW: Undo = Undo::Shadow {
    slot: 63,
    row: 16_777_215,
};

const UNDOS: [(u64, Option<Undo>); 4] = [
    (253, Some(Undo::Blank { slot: 63 })),
    (257, None),
    (4_294_967_294, Some(LAST_SHADOW)),
    (4_294_967_298, None),
];

#[test]
fn decoders_read_the_largest_numbers_and_refuse_the_next(rt: HostRuntime) {
    for (code, job) in JOBS.as_slice() {
        same_at(&rt, &decode_job(*code), job, "job", *code);
    }
    for (code, slot) in SLOTS.as_slice() {
        same_at(&rt, &decode_slot(*code), slot, "slot", *code);
    }
    for (code, place) in PLACES.as_slice() {
        same_at(&rt, &decode_place(*code), place, "place", *code);
    }
    for (code, undo) in UNDOS.as_slice() {
        same_at(&rt, &decode_undo(*code), undo, "undo", *code);
    }
}
