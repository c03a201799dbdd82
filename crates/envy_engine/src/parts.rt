ghost use Rattle.std.specs.Prelude.{◌≡◌, IfOk};
ghost use Rattle.envy_policy.specs.Setup.{IsSetup};
ghost use Rattle.envy_engine.specs.Starting.{started_parts};

use envy_base::NoMemory;
use envy_frames::Frames;
use envy_policy::{Chooser, Setup};
use envy_reloc::Reloc;
use envy_space::Space;
use envy_table::Cache;
use envy_wear::Stages;
use std::alloc::Global;

/// The parts of a memory beside its board.
#[derive(Drop)]
pub struct Parts {
    pub frames: Frames,
    pub space: Space,
    pub cache: Cache,
    pub chooser: Chooser,
    pub reloc: Reloc,
    pub stages: Stages,
    /// Programs begun by flushes, and swaps begun.
    pub flushes: u64,
    pub swaps: u64,
}

impl Parts {
    /// The parts of a memory over an empty formatted board. They take all memory that is ever needed.
    pub fn new(alloc: Global, setup: &Setup) -> Result<Parts, NoMemory>
        requires { IsSetup setup.now }
        ensures { IfOk result (λ parts. parts ≡ started_parts setup.now) }
    {
        let shape = setup.shape;
        let frames = Frames::new(alloc, shape.frames)?;
        let space = Space::new(alloc, &shape)?;
        let cache = Cache::new(alloc, shape.entries)?;
        let chooser = Chooser::new(alloc, setup)?;
        Ok(Parts {
            frames,
            space,
            cache,
            chooser,
            reloc: Reloc::new(),
            stages: Stages::new(),
            flushes: 0,
            swaps: 0,
        })
    }
}
