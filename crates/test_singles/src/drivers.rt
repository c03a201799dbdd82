//! The driver of a flash part, over a bus that notes what is written and over a model of a chip.

ghost use Rattle.std.specs.Prelude.{None};

use crate::told::{same, same_at};
use envy_bank::Chip;
use envy_cfi::{Bus, DriverFault, ModelBus, erase_block, program_byte, program_row};
use std::process::Abort;

const FAILED: Result<(), DriverFault> = Err(DriverFault::Failed);

/// A part that is ready at the look after so many, and has one status then. It notes the first bytes that are written.
#[derive(Drop)]
struct Fake {
    looks: u32,
    status: u8,
    written: [u8; 8],
    count: usize,
    heard: u8,
}

impl Fake {
    fn new(looks: u32, status: u8) -> Fake {
        Fake {
            looks,
            status,
            written: [0; 8],
            count: 0,
            heard: 0,
        }
    }
}

impl Bus for Fake {
    ghost chip = { λ _. None };

    ghost heard = { λ b. b.heard };

    fn write(&mut self, _addr: u32, byte: u8) {
        if self.count < 8 {
            self.written[self.count] = byte;
            self.count += 1;
        }
    }

    fn read(&mut self, _addr: u32) -> u8 {
        let byte = if self.looks == 0 { self.status } else { 0 };
        self.looks = self.looks.saturating_sub(1);
        self.heard = byte;
        byte
    }
}

/// What a part is asked to do.
#[derive(Clone, Copy)]
enum Order {
    /// To program a byte at an address.
    Byte(u32, u8),
    /// To program a row of such bytes from an address on, but for the first and the last one.
    Row(u32, u8, u8, u8),
    /// To erase the block of an address.
    Block(u32),
}

/// Gives the order to a part.
fn obeyed<B: Bus>(bus: &mut B, order: Order) -> Result<(), DriverFault> {
    match order {
        Order::Byte(address, byte) => program_byte(bus, address, byte),
        Order::Row(address, byte, first, last) if address < 512 => {
            let mut row = [byte; 256];
            row[0] = first;
            row[255] = last;
            program_row(bus, address, &row)
        }
        Order::Row(_, _, _, _) => Err(DriverFault::Late),
        Order::Block(address) => erase_block(bus, address),
    }
}

/// A part that is ready after so many looks, an order that it does, and the first bytes that are written.
type Orders = (&'static str, u32, Order, [u8; 8]);

// The commands of the data sheet: clear status 0x50, read array 0xFF, program 0x40, erase 0x20 and 0xD0.
const WRITTEN: [Orders; 3] = [
    (
        "byte",
        3,
        Order::Byte(7, 0x5A),
        [0x50, 0xFF, 0x40, 0x5A, 0x50, 0xFF, 0, 0],
    ),
    (
        "block",
        3,
        Order::Block(7),
        [0x50, 0xFF, 0x20, 0xD0, 0x50, 0xFF, 0, 0],
    ),
    (
        "row",
        0,
        Order::Row(0, 0x5A, 0x5A, 0x5A),
        [0x50, 0xFF, 0x40, 0x5A, 0x40, 0x5A, 0x40, 0x5A],
    ),
];

#[test]
fn orders_are_those_of_the_data_sheet(rt: HostRuntime) {
    for (name, looks, order, written) in WRITTEN.as_slice() {
        let mut bus = Fake::new(*looks, 0x80);
        same(&rt, &obeyed(&mut bus, *order), &Ok(()), name);
        same(&rt, &bus.written, written, name);
    }
}

const EACH: [(&str, Order); 3] = [
    ("byte", Order::Byte(0, 0)),
    ("row", Order::Row(0, 0, 0, 0)),
    ("block", Order::Block(0)),
];

#[test]
fn each_bit_of_an_error_is_a_failure(rt: HostRuntime) {
    for status in [0xA0, 0x90, 0x88, 0x82].as_slice() {
        for (name, order) in EACH.as_slice() {
            let found = obeyed(&mut Fake::new(1, *status), *order);
            same_at(&rt, &found, &FAILED, name, *status as u64);
        }
    }
}

#[test]
fn a_part_that_is_never_ready_is_late(rt: HostRuntime) {
    let mut bus = Fake::new(0, 0x00);
    let found = erase_block(&mut bus, 0);
    same(&rt, &found, &Err(DriverFault::Late), "part");
    same(&rt, &bus.heard, &0, "byte that was read");
}

/// What a chip is asked: an order and its answer, or the bytes at an address and behind it.
#[derive(Clone, Copy)]
enum Ask {
    Do(Order, Result<(), DriverFault>),
    Read(u32, (u8, u8)),
}

const ASKED: [(&str, Ask); 9] = [
    ("row", Ask::Do(Order::Row(256, 0x5A, 0x0F, 0x01), Ok(()))),
    ("before the row", Ask::Read(255, (0xFF, 0x0F))),
    ("end of the row", Ask::Read(510, (0x5A, 0x01))),
    (
        "byte over bits that are clear",
        Ask::Do(Order::Byte(256, 0xF0), FAILED),
    ),
    (
        "row over that",
        Ask::Do(Order::Row(256, 0x5A, 0x0F, 0x01), FAILED),
    ),
    (
        "byte before the row",
        Ask::Do(Order::Byte(255, 0x7F), Ok(())),
    ),
    ("both", Ask::Read(255, (0x7F, 0x00))),
    ("block", Ask::Do(Order::Block(300), Ok(()))),
    ("before the block", Ask::Read(255, (0x7F, 0xFF))),
];

/// Asks a chip this.
fn check(rt: &impl Abort, bus: &mut ModelBus, name: &str, ask: &Ask) {
    match ask {
        Ask::Do(order, answer) => same(rt, &obeyed(bus, *order), answer, name),
        Ask::Read(address, bytes) => {
            let found = (bus.read(*address), bus.read(address.saturating_add(1)));
            same(rt, &found, bytes, name);
        }
    }
}

#[test]
fn rows_and_blocks_of_a_chip(rt: HostRuntime) {
    let chip = Chip::new(rt.alloc(), 2, 256).expect(&rt, "no room for a chip");
    let mut bus = ModelBus {
        chip,
        size: 512,
        heard: 0,
    };
    for (name, ask) in ASKED.as_slice() {
        check(&rt, &mut bus, name, ask);
    }
}
