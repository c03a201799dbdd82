ghost use Rattle.std.specs.Prelude.{◌≡◌, IfSome, IfNone};
ghost use Rattle.envy_map.specs.Codes.{job_code, job_of, IsJob, slot_code, slot_of, place_code, place_of, IsPlace, undo_code, undo_of, IsUndo};

use envy_base::{Job, MOST_ROWS, Place, Slot, Undo};

/// The number that stands for a job.
pub fn encode_job(job: Job) -> u64
    requires { IsJob job }
    ensures { result ≡ job_code job }
{
    match job {
        Job::Idle => 0,
        Job::Copy(segment) => 1 + 4 * segment as u64,
        Job::Switch(segment) => 2 + 4 * segment as u64,
        Job::Erase => 3,
    }
}

/// The job that a number stands for, or none.
#[tactic(auto, unfolding(crate::specs::Codes::job_of))]
pub fn decode_job(number: u64) -> Option<Job>
    ensures value { result ≡ job_of number }
    ensures code { IfSome result (λ job. IsJob job × (number ≡ job_code job)) }
    ensures none { IfNone result ((job : Job) → IsJob job → number ≡ job_code job → ⊥) }
{
    if number == 0 {
        Some(Job::Idle)
    } else if number == 3 {
        Some(Job::Erase)
    } else if number % 4 == 1 && number / 4 < 4096 {
        Some(Job::Copy((number / 4) as u32))
    } else if number % 4 == 2 && number / 4 < 4096 {
        Some(Job::Switch((number / 4) as u32))
    } else {
        None
    }
}

/// The number that stands for a slot.
pub fn encode_slot(slot: Slot) -> u64
    ensures { result ≡ slot_code slot }
{
    match slot {
        Slot::Vacant => 0,
        Slot::Active => 1,
        Slot::Committed => 2,
    }
}

/// The slot that a number stands for, or none.
#[tactic(auto, unfolding(crate::specs::Codes::slot_of))]
pub fn decode_slot(number: u64) -> Option<Slot>
    ensures value { result ≡ slot_of number }
    ensures code { IfSome result (λ slot. number ≡ slot_code slot) }
    ensures none { IfNone result ((slot : Slot) → number ≡ slot_code slot → ⊥) }
{
    match number {
        0 => Some(Slot::Vacant),
        1 => Some(Slot::Active),
        2 => Some(Slot::Committed),
        _ => None,
    }
}

/// The number that stands for a place.
pub fn encode_place(place: Place) -> u32
    requires { IsPlace place }
    ensures { result ≡ place_code place }
{
    match place {
        Place::Absent => 0,
        Place::Row(row) => 1 + 4 * row,
        Place::Frame(frame) => 2 + 4 * frame,
    }
}

/// The place that a number, the half of a packed word, stands for, or none.
#[tactic(auto, unfolding(crate::specs::Codes::place_of))]
pub fn decode_place(number: u64) -> Option<Place>
    ensures value { result ≡ place_of number }
    ensures code { IfSome result (λ place. IsPlace place × (number ≡ place_code place)) }
    ensures none { IfNone result ((place : Place) → IsPlace place → number ≡ place_code place → ⊥) }
{
    if number == 0 {
        Some(Place::Absent)
    } else if number % 4 == 1 && number / 4 < MOST_ROWS as u64 {
        Some(Place::Row((number / 4) as u32))
    } else if number % 4 == 2 && number / 4 < 65_536 {
        Some(Place::Frame((number / 4) as u32))
    } else {
        None
    }
}

/// The number that stands for an undo.
pub fn encode_undo(undo: Undo) -> u32
    requires { IsUndo undo }
    ensures { result ≡ undo_code undo }
{
    match undo {
        Undo::Clear => 0,
        Undo::Blank { slot } => 1 + 4 * slot as u32,
        Undo::Shadow { slot, row } => 2 + 4 * slot as u32 + 256 * row,
    }
}

/// The undo that a number, the half of a packed word, stands for, or none.
#[tactic(auto, unfolding(crate::specs::Codes::undo_of))]
pub fn decode_undo(number: u64) -> Option<Undo>
    ensures value { result ≡ undo_of number }
    ensures code { IfSome result (λ undo. IsUndo undo × (number ≡ undo_code undo)) }
    ensures none { IfNone result ((undo : Undo) → IsUndo undo → number ≡ undo_code undo → ⊥) }
{
    if number == 0 {
        Some(Undo::Clear)
    } else if number % 4 == 1 && number / 4 < 64 {
        Some(Undo::Blank {
            slot: (number / 4) as u8,
        })
    } else if number % 4 == 2 && number / 256 < MOST_ROWS as u64 {
        Some(Undo::Shadow {
            slot: (number % 256 / 4) as u8,
            row: (number / 256) as u32,
        })
    } else {
        None
    }
}
