// What the board of a memory holds, for those who draw it.
ghost use Rattle.std.specs.Prelude.{◌≡◌};
ghost use Rattle.envy_openings.specs.Faultless.{AreFaultless};
ghost use Rattle.envy_places.specs.Places.{held};
ghost use Rattle.envy_shown.specs.Shown.{ShowsJob, ShowsPage, ShowsPosition, ShowsRow, ShowsSegment};
ghost use denote.RawPtr.{InBlock};

use crate::handle::{Envy, give_back, lend};
use envy_shown::{
    EnvyJob, EnvyPage, EnvyRow, EnvySegment, job_in, page_in, position_in, row_in, segment_in,
};

/// Writes what a row of flash is.
#[unsafe(no_mangle)]
pub extern "C" fn envy_show_row(m: &mut Envy, row: u32, found: &mut EnvyRow) -> u32
    requires { InBlock m.old.at }
    ensures live { InBlock m.new.at }
    ensures faultless { AreFaultless m.old.place.now m.new.place.now }
    ensures same { m.new.place.now ≡ m.old.place.now }
    ensures shows { ShowsRow (held m.old.place.now) row result found.old found.new }
{
    let place = lend(m);
    let code = row_in(place, row, found);
    give_back(m, place);
    code
}

/// Writes where a page is, and what it goes back to.
#[unsafe(no_mangle)]
pub extern "C" fn envy_show_page(m: &mut Envy, page: u32, found: &mut EnvyPage) -> u32
    requires { InBlock m.old.at }
    ensures live { InBlock m.new.at }
    ensures faultless { AreFaultless m.old.place.now m.new.place.now }
    ensures same { m.new.place.now ≡ m.old.place.now }
    ensures shows { ShowsPage (held m.old.place.now) page result found.old found.new }
{
    let place = lend(m);
    let code = page_in(place, page, found);
    give_back(m, place);
    code
}

/// Writes which segment is at a position.
#[unsafe(no_mangle)]
pub extern "C" fn envy_show_position(m: &mut Envy, position: u32, found: &mut u32) -> u32
    requires { InBlock m.old.at }
    ensures live { InBlock m.new.at }
    ensures faultless { AreFaultless m.old.place.now m.new.place.now }
    ensures same { m.new.place.now ≡ m.old.place.now }
    ensures shows { ShowsPosition (held m.old.place.now) position result found.old found.new }
{
    let place = lend(m);
    let code = position_in(place, position, found);
    give_back(m, place);
    code
}

/// Writes a segment's wear and fill.
#[unsafe(no_mangle)]
pub extern "C" fn envy_show_segment(m: &mut Envy, segment: u32, found: &mut EnvySegment) -> u32
    requires { InBlock m.old.at }
    ensures live { InBlock m.new.at }
    ensures faultless { AreFaultless m.old.place.now m.new.place.now }
    ensures same { m.new.place.now ≡ m.old.place.now }
    ensures shows { ShowsSegment (held m.old.place.now) segment result found.old found.new }
{
    let place = lend(m);
    let code = segment_in(place, segment, found);
    give_back(m, place);
    code
}

/// Writes the cleaner's job.
#[unsafe(no_mangle)]
pub extern "C" fn envy_show_job(m: &mut Envy, found: &mut EnvyJob) -> u32
    requires { InBlock m.old.at }
    ensures live { InBlock m.new.at }
    ensures faultless { AreFaultless m.old.place.now m.new.place.now }
    ensures same { m.new.place.now ≡ m.old.place.now }
    ensures shows { ShowsJob (held m.old.place.now) result found.old found.new }
{
    let place = lend(m);
    let code = job_in(place, found);
    give_back(m, place);
    code
}
