// A place for a memory, as a caller in C holds it.
ghost use Rattle.std.specs.Prelude.{◌≡◌, Option};
ghost use Rattle.std.specs.Borrow.{MutBor};
ghost use Rattle.std.specs.Option.{ForSome};
ghost use Rattle.envy_memory.specs.Picture.{Picture};
ghost use Rattle.envy_parted.specs.Held.{slot_owns, lent_row};
ghost use Rattle.envy_parted.specs.Lit.{IsLit};
ghost use denote.RawPtr.{InBlock};

use envy_memory::Memory;
use envy_part::{IoPort, PartBoard};
use std::marker::Model;

/// A place that may hold a memory.
pub type Slot = Option<Memory<PartBoard<'static, IoPort>>>;

/// What a caller in C holds: a pointer to a place, through which it never reads.
#[repr(C)]
#[derive(Drop)]
pub struct EnvyParted {
    pub at: *mut u8,
    pub ghost slot: { MutBor (Option Picture) } by { lent_row.coded },
}

impl Model for EnvyParted {
    ghost also_owns = { λ h. slot_owns h.at h.slot };
}

impl EnvyParted {
    /// A handle of no place.
    pub fn none() -> EnvyParted {
        EnvyParted {
            at: std::ptr::null_mut(),
        }
    }

    /// The handle of a place.
    pub fn of(slot: &'static mut Option<Memory<PartBoard<'static, IoPort>>>) -> EnvyParted
        ensures slot { result.slot ≡ slot.entry }
        ensures live { InBlock result.at }
    {
        EnvyParted {
            at: slot as *mut Option<Memory<PartBoard<'static, IoPort>>> as *mut u8,
        }
    }

    /// The place of a handle.
    pub fn into_slot(self) -> &'static mut Option<Memory<PartBoard<'static, IoPort>>>
        requires { InBlock self.at }
        ensures { result ≡ self.slot }
    {
        let EnvyParted { at } = self;
        unsafe { &mut *(at as *mut Option<Memory<PartBoard<'static, IoPort>>>) }
    }
}

// What the board of a memory over a part says.
fn lit(slot: &Option<Memory<PartBoard<'static, IoPort>>>)
    ensures { ForSome slot.now IsLit }
{
    if let Some(memory) = slot {
        let _board = memory.board();
    }
}

/// Takes the place out of a handle, which is one of no place then.
pub fn lend(m: &mut EnvyParted) -> &'static mut Option<Memory<PartBoard<'static, IoPort>>>
    requires { InBlock m.old.at }
    ensures slot { result ≡ m.old.slot }
    ensures lit { ForSome result.now IsLit }
{
    let slot = std::mem::replace(m, EnvyParted::none()).into_slot();
    lit(&*slot);
    slot
}

/// Puts a place back into a handle.
pub fn give_back(m: &mut EnvyParted, slot: &'static mut Option<Memory<PartBoard<'static, IoPort>>>)
    ensures slot { m.new.slot ≡ slot.entry }
    ensures live { InBlock m.new.at }
    ensures lit { ForSome slot.entry.now IsLit }
{
    lit(&*slot);
    *m = EnvyParted::of(slot);
}
