ghost use Rattle.std.specs.Prelude.{◌≡◌, Ok, IfOk, IfErr, MatchResult};
ghost use Rattle.envy_array.specs.Array.{Array};
ghost use Rattle.envy_begun.specs.Beginning.{HasBegun, HasOperationsOf};
ghost use Rattle.envy_begun.specs.Plans.{BeginsAs, BeginsOn, Plans};
ghost use Rattle.envy_begun.specs.declared.file_contents.FileContents.{FileContents as OfHolding};
ghost use Rattle.envy_begun.specs.declared.file_contents.FileContents.TheVariants.{Written};
ghost use Rattle.envy_journal.specs.Head.{HasSixSizes};
ghost use Rattle.envy_openings.specs.Files.{Opened, RefusesFile, RefusesOpen, code_of_fault, options_of};
ghost use Rattle.envy_openings.specs.Opening.{Opens};
ghost use Rattle.envy_places.specs.declared.code.PlaceCode.TheVariants.{Of};
ghost use Rattle.envy_places.specs.declared.place.MemoryPlace.TheVariants.{File};
ghost use Rattle.envy_policy.specs.Setup.{checked};

use crate::place::Place;
use envy_args::{KeepOptions, Sizes};
use envy_base::ShapeFault;
use envy_begun::{OpenFault, begin, plan};
use envy_calls::{Code, EnvySetup, checked_setup};
use envy_memory::Memory;
use envy_places::{MemoryPlace, PlaceCode, is_open};
use envy_policy::{Setup, SetupFault};
use envy_portfile::{FilePort, PortFile};
use envy_region::OwnedBoard;
use envy_synced::Kept;
use std::alloc::Global;

// The answer where no memory began in a file.
fn fault_code(open_fault: OpenFault) -> PlaceCode
    ensures { result ≡ code_of_fault open_fault }
{
    match open_fault {
        OpenFault::Setup(fault) | OpenFault::Options(fault) => PlaceCode::Of(Code::Setup(fault)),
        OpenFault::NoJournal => PlaceCode::NoJournal,
        OpenFault::OtherVersion => PlaceCode::OtherVersion,
        OpenFault::Damaged(_) => PlaceCode::Damaged,
        OpenFault::OtherSizes => PlaceCode::Of(Code::OtherShape),
        OpenFault::Memory => PlaceCode::Of(Code::NoMemory),
        OpenFault::NotMade | OpenFault::Failed(_) => PlaceCode::Of(Code::Off),
    }
}

// Options that name all that a setup has.
fn options(setup: &Setup) -> KeepOptions
    ensures { result ≡ options_of setup.now }
{
    let shape = &setup.shape;
    KeepOptions {
        sizes: Sizes {
            segments: Some(shape.segments),
            rows: Some(shape.rows),
            pages: Some(shape.pages),
            shadows: Some(shape.shadows),
            frames: Some(shape.frames),
            entries: Some(shape.entries),
        },
        policy: setup.policy,
        limit: setup.limit,
        mark: Some(setup.mark),
        compact: false,
    }
}

// The memory in a file, by a setup that breaks no rule.
fn begun(
    alloc: Global,
    setup: &Setup,
    file: &[u8],
    port: i32,
    bytewise: bool,
) -> Result<Memory<Kept<OwnedBoard, PortFile>>, OpenFault>
    requires checks { checked setup.now ≡ Ok tt }
    requires six { HasSixSizes setup.now.shape }
    ensures begun { IfOk result (λ memory. (holding : OfHolding) × (array : Array)
        × Plans holding (options_of setup.now) file.now setup.now × BeginsAs holding file.now setup.now array
        × HasBegun setup.now array memory × BeginsOn holding file.now memory.chart
        × (holding ≡ Written → HasOperationsOf file.now memory.chart)) }
    ensures refused { IfErr result (RefusesFile (options_of setup.now) file.now) }
{
    let options = options(setup);
    let (setup, holding) = plan(&options, file)?;
    let Ok(board) = OwnedBoard::blank(alloc, &setup.shape) else {
        return Err(OpenFault::Memory);
    };
    let device = FilePort::found(port, file, bytewise);
    match begin(alloc, board, device, &options, file, setup, holding) {
        Ok(memory) => Ok(memory),
        Err((open_fault, _device)) => Err(open_fault),
    }
}

// The memory in a file.
fn opened(
    alloc: Global,
    given: &EnvySetup,
    file: &[u8],
    port: i32,
    bytewise: bool,
) -> Result<Memory<Kept<OwnedBoard, PortFile>>, PlaceCode>
    ensures { MatchResult result (Opened given.now file.now) (RefusesOpen given.now file.now) }
{
    let setup = match checked_setup(given) {
        Ok(setup) => setup,
        Err(code) => return Err(PlaceCode::Of(code)),
    };
    if setup.shape.reserves != 0 {
        let fault = SetupFault::Shape(ShapeFault::Reserves);
        return Err(PlaceCode::Of(Code::Setup(fault)));
    }
    match begun(alloc, &setup, file, port, bytewise) {
        Ok(memory) => Ok(memory),
        Err(open_fault) => Err(fault_code(open_fault)),
    }
}

/// Makes a memory in a file that holds no journal yet, or takes up the one that the file holds, in a place that holds none.
/// `file` are its bytes, all of them on the disk, and `port` is the number under which it is served. That the file is
/// written byte by byte is a premise, which the caller states or doesn't.
pub fn open_file(
    alloc: Global,
    place: &mut Place,
    given: &EnvySetup,
    file: &[u8],
    port: i32,
    bytewise: bool,
) -> PlaceCode
    ensures { Opens File Of (Opened given.now file.now) (RefusesOpen given.now file.now) place.old place.new result }
{
    if is_open(place) {
        return PlaceCode::Of(Code::Open);
    }
    match opened(alloc, given, file, port, bytewise) {
        Ok(memory) => {
            drop(std::mem::replace(place, MemoryPlace::File(Some(memory))));
            PlaceCode::Of(Code::Done)
        }
        Err(code) => code,
    }
}
