// A place for a memory, as a caller in C holds it.
ghost use Rattle.std.specs.Prelude.{◌≡◌};
ghost use Rattle.std.specs.Borrow.{MutBor};
ghost use Rattle.envy_library.specs.Held.{place_owns, place_row, lent_row};
ghost use Rattle.envy_openings.specs.Faultless.{IsFaultless};
ghost use denote.RawPtr.{InBlock};

use envy_bench::CalmBoard;
use envy_openings::faultless;
use envy_places::MemoryPlace;
use envy_portfile::PortFile;
use envy_region::{BorrowedBoard, OwnedBoard};
use envy_synced::Kept;
use std::marker::Model;

/// What a caller in C holds: a pointer to a place, through which it never reads.
#[repr(C)]
#[derive(Drop)]
pub struct Envy {
    pub at: *mut u8,
    pub ghost place: { MutBor place_row.Denot } by { lent_row.coded },
}

impl Model for Envy {
    ghost also_owns = { λ h. place_owns h.at h.place };
}

impl Envy {
    /// A handle of no place.
    pub fn none() -> Envy {
        Envy {
            at: std::ptr::null_mut(),
        }
    }

    /// The handle of a place.
    pub fn of(
        place: &'static mut MemoryPlace<
            BorrowedBoard<'static>,
            Kept<OwnedBoard, PortFile>,
            CalmBoard,
        >,
    ) -> Envy
        ensures place { result.place ≡ place.entry }
        ensures live { InBlock result.at }
    {
        Envy {
            at: place as *mut MemoryPlace<
                BorrowedBoard<'static>,
                Kept<OwnedBoard, PortFile>,
                CalmBoard,
            > as *mut u8,
        }
    }

    /// The place of a handle.
    pub fn into_place(
        self,
    ) -> &'static mut MemoryPlace<BorrowedBoard<'static>, Kept<OwnedBoard, PortFile>, CalmBoard>
        requires { InBlock self.at }
        ensures { result ≡ self.place }
    {
        let Envy { at } = self;
        unsafe {
            &mut *(at as *mut MemoryPlace<
                BorrowedBoard<'static>,
                Kept<OwnedBoard, PortFile>,
                CalmBoard,
            >)
        }
    }
}

/// Takes the place out of a handle, which is one of no place then.
pub fn lend(
    m: &mut Envy,
) -> &'static mut MemoryPlace<BorrowedBoard<'static>, Kept<OwnedBoard, PortFile>, CalmBoard>
    requires { InBlock m.old.at }
    ensures place { result ≡ m.old.place }
    ensures faultless { IsFaultless result.now }
{
    let place = std::mem::replace(m, Envy::none()).into_place();
    faultless(&*place);
    place
}

/// Puts a place back into a handle.
pub fn give_back(
    m: &mut Envy,
    place: &'static mut MemoryPlace<BorrowedBoard<'static>, Kept<OwnedBoard, PortFile>, CalmBoard>,
)
    ensures place { m.new.place ≡ place.entry }
    ensures live { InBlock m.new.at }
    ensures faultless { IsFaultless place.entry.now }
{
    faultless(&*place);
    *m = Envy::of(place);
}
