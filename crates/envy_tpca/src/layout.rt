ghost use Rattle.std.specs.Prelude.{◌≡◌, ◌+◌, ◌*◌, ◌^◌, ◌≤◌};
ghost use Rattle.envy_array.specs.Area.{Fits};
ghost use Rattle.envy_tpca.specs.Tpc.{places_of};
ghost use Rattle.envy_tpca.specs.Trial.{AreSpots, InRange};

use crate::{Places, Spots, Transfer};
use envy_array::Area;
use envy_base::{Board, MOST_ROWS, MOST_WORDS};

/// Where the records of an area that fits stand.
pub fn lay_out<B: Board>(area: &Area, board: &B) -> Places
    requires { Fits area.now (B.state board.now).shape.pages }
    ensures places { result ≡ places_of area.now }
    ensures low { (B.state board.now).shape.pages ≤ MOST_ROWS }
{
    // the caller has asked
    if !area.fits(board.shape().pages) {
        unreachable!();
    }
    let accounts = area.branches * area.accounts;
    Places {
        branches: area.branches,
        accounts,
        history: (1 + 11 * area.branches + accounts + 3) / 4 * 4,
    }
}

/// Where the records of transfer `i` stand.
pub fn spots(places: Places, i: u32, transfer: Transfer) -> Spots
    requires { InRange places MOST_WORDS i transfer }
    ensures { AreSpots places i transfer result }
{
    Spots {
        account: 1 + 11 * places.branches + transfer.account,
        teller: 1 + places.branches + transfer.teller,
        branch: 1 + transfer.branch,
        row: places.history + 4 * i,
    }
}
