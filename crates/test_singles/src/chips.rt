//! A chip that is driven by the bytes that are written to it.

use crate::told::{same, same_at};
use envy_bank::{Chip, READ_ARRAY};
use envy_cfi::{Bus, ModelBus};
use std::alloc::Global;
use std::process::Abort;

/// A new chip of two bytes, on a bus that passes on what lies within it.
fn wired(rt: &impl Abort, alloc: Global) -> ModelBus {
    let chip = Chip::new(alloc, 1, 2).expect(rt, "no room for a chip");
    ModelBus {
        chip,
        size: 2,
        heard: 0,
    }
}

/// Writes, and the status and the bytes of the chip behind them, by the data sheet.
type Row = (&'static [(u32, u8)], u8, [u8; 2]);

const COMMANDS: [Row; 5] = [
    (&[(0, 0x40), (0, 0x0F)], 0x80, [0x0F, 0xFF]),
    (&[(0, 0x40), (0, 0xF0)], 0x90, [0x00, 0xFF]),
    (&[(0, 0x50), (1, 0x20), (1, 0xD0)], 0x80, [0xFF, 0xFF]),
    (&[(0, 0x20), (0, 0x40)], 0xA0, [0xFF, 0xFF]),
    (&[(0, 0x50), (0, 0xFF)], 0x80, [0xFF, 0xFF]),
];

#[test]
fn a_new_chip_is_erased_and_ready(rt: HostRuntime) {
    let mut bus = wired(&rt, rt.alloc());
    same(&rt, &bus.chip.status(), &0x80, "status");
    same(&rt, &bus.read(0), &0xFF, "first byte");
    same(&rt, &bus.read(1), &0xFF, "second byte");
}

/// The status and the bytes of a new chip to which all of these writes were made. Its bytes are read in array mode, which
/// comes last.
fn after(rt: &impl Abort, alloc: Global, rows: &[Row]) -> (u8, [u8; 2]) {
    let mut bus = wired(rt, alloc);
    for (writes, _, _) in rows {
        for (address, byte) in *writes {
            bus.write(*address, *byte);
        }
    }
    let status = bus.chip.status();
    bus.write(0, READ_ARRAY);
    (status, [bus.read(0), bus.read(1)])
}

#[test]
fn each_command_leaves_the_status_and_bytes_of_the_data_sheet(rt: HostRuntime) {
    let rows = COMMANDS.as_slice();
    for i in 0..rows.len() {
        let (_, status, bytes) = rows[i];
        let found = after(&rt, rt.alloc(), &rows[..i + 1]);
        same_at(&rt, &found, &(status, bytes), "row", i as u64);
    }
}
