ghost use Rattle.std.specs.Prelude.{◌≡◌, [], IfOk};
ghost use Rattle.envy_policy.specs.Setup.{IsSetup};
ghost use Rattle.envy_engine.specs.Starting.{started_parts};

use envy_base::NoMemory;
use envy_engine::Parts;
use envy_policy::Setup;
use envy_txn::Owned;
use std::alloc::Global;

/// The parts of a memory of an empty board, of which no page is owned. They take all memory that is ever needed.
pub fn make_parts(alloc: Global, setup: &Setup) -> Result<(Parts, Owned), NoMemory>
    requires { IsSetup setup.now }
    ensures parts { IfOk result (λ made. made.0 ≡ started_parts setup.now) }
    ensures owned { IfOk result (λ made. made.1 ≡ record { pairs = []; limit = setup.now.shape.shadows }) }
{
    let parts = Parts::new(alloc, setup)?;
    let owned = Owned::of_pages(alloc, setup.shape.shadows, setup.shape.pages)?;
    Ok((parts, owned))
}
