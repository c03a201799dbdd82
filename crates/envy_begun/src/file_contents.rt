// What a file holds, as far as its first bytes tell, and which memory the options ask for over it.
ghost use Rattle.std.specs.Prelude.{◌≡◌, ◌≢◌, ◌↔◌, ◌⊎◌, ◌≤◌, [], IfOk, IfErr, IsTrue, length, Ok, Err};
ghost use Rattle.envy_args.specs.Keep.{new_shape, setup_over};
ghost use Rattle.envy_args.specs.declared.keep.KeepOptions.{KeepOptions as Options};
ghost use Rattle.envy_policy.specs.declared.setup.SetupFault.{SetupFault};
ghost use Rattle.envy_begun.specs.declared.open_fault.OpenFault.TheVariants.{Setup as OfSetup};
ghost use Rattle.envy_base.specs.Shape.{IsShape, checked as shape_checked};
ghost use Rattle.envy_journal.specs.Head.{HasHead, HasSixSizes, IsUnmade};
ghost use Rattle.envy_journal.specs.Reading.{operations};
ghost use Rattle.envy_begun.specs.Plans.{IsFound, Plans};
ghost use Rattle.envy_begun.specs.Unserved.{Refuses};
ghost use Rattle.envy_policy.specs.Setup.{checked};

use crate::open_fault::OpenFault;
use envy_args::KeepOptions;
use envy_base::Shape;
use envy_journal::{HeadError, has_operations, read_head};
use envy_policy::Setup;

/// What a file holds.
#[derive(Clone, Copy, Debug, PartialEq, Eq)]
pub enum FileContents {
    /// Nothing: it is empty.
    Unmade,
    /// A journal in which nothing was done yet.
    Blank,
    /// A journal with operations.
    Written,
}

// What a journal holds.
fn holding_of(bytes: &[u8]) -> FileContents
    requires { 33 ≤ length bytes.now }
    ensures { ((result ≡ FileContents.Written) × (operations bytes.now ≢ []))
        ⊎ ((result ≡ FileContents.Blank) × (operations bytes.now ≡ [])) }
{
    if has_operations(bytes) {
        FileContents::Written
    } else {
        FileContents::Blank
    }
}

// The sizes that a journal has, where they break no rule.
fn sizes(bytes: &[u8]) -> Result<Shape, OpenFault>
    requires made { IsUnmade bytes.now → ⊥ }
    ensures head { IfOk result (λ shape. HasHead shape bytes.now) }
    ensures six { IfOk result (λ shape. HasSixSizes shape) }
    ensures long { IfOk result (λ _. 33 ≤ length bytes.now) }
    ensures checks { IfOk result (λ shape. shape_checked shape ≡ Ok tt) }
    ensures refused { IfErr result (λ open_fault. (options : Options) → Refuses options bytes.now open_fault) }
{
    let shape = match read_head(bytes) {
        Ok(shape) => shape,
        Err(HeadError::NoJournal) => return Err(OpenFault::NoJournal),
        Err(HeadError::OtherVersion) => return Err(OpenFault::OtherVersion),
    };
    match shape.check() {
        Ok(()) => Ok(shape),
        Err(_) => Err(OpenFault::NoJournal),
    }
}

// The setup over a journal.
fn found(options: &KeepOptions, bytes: &[u8]) -> Result<Setup, OpenFault>
    requires made { IsUnmade bytes.now → ⊥ }
    ensures found { IfOk result (IsFound options.now bytes.now) }
    ensures long { IfOk result (λ _. 33 ≤ length bytes.now) }
    ensures checks { IfOk result (λ setup. checked setup ≡ Ok tt) }
    ensures shape { IfOk result (λ setup. IsShape setup.shape) }
    ensures refused { IfErr result (λ open_fault. Refuses options.now bytes.now open_fault) }
{
    let shape = sizes(bytes)?;
    if options.sizes.over(&shape) != shape {
        return Err(OpenFault::OtherSizes);
    }
    let setup = options.setup(&shape);
    match setup.check() {
        Ok(()) => Ok(setup),
        Err(fault) => Err(OpenFault::Options(fault)),
    }
}

// The setup of a new file.
fn new_setup(options: &KeepOptions) -> Result<Setup, OpenFault>
    ensures setup { IfOk result (λ setup. setup ≡ setup_over options.now (new_shape options.now)) }
    ensures checks { IfOk result (λ setup. checked setup ≡ Ok tt) }
    ensures shape { IfOk result (λ setup. IsShape setup.shape) }
    ensures refused { IfErr result (λ open_fault. (fault : SetupFault) × (open_fault ≡ OfSetup fault)
        × (checked (setup_over options.now (new_shape options.now)) ≡ Err fault)) }
{
    let setup = options.setup(&options.new_shape());
    match setup.check() {
        Ok(()) => Ok(setup),
        Err(fault) => Err(OpenFault::Setup(fault)),
    }
}

/// What a file holds and the setup of a memory in it, or why there is none.
pub fn plan(options: &KeepOptions, bytes: &[u8]) -> Result<(Setup, FileContents), OpenFault>
    ensures plans { IfOk result (λ plan. Plans plan.1 options.now bytes.now plan.0) }
    ensures checks { IfOk result (λ plan. checked plan.0 ≡ Ok tt) }
    ensures shape { IfOk result (λ plan. IsShape plan.0.shape) }
    ensures refused { IfErr result (λ open_fault. Refuses options.now bytes.now open_fault) }
{
    if bytes.is_empty() {
        let fresh = new_setup(options)?;
        return Ok((fresh, FileContents::Unmade));
    }
    let setup = found(options, bytes)?;
    Ok((setup, holding_of(bytes)))
}
