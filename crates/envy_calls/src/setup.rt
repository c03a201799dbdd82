ghost use Rattle.std.specs.Prelude.{◌≡◌, Some, Ok, MatchOption, MatchResult};
ghost use Rattle.envy_policy.specs.Setup.{IsSetup, checked};
ghost use Rattle.envy_calls.specs.Making.{IsNoSetup};
ghost use Rattle.envy_calls.specs.Setups.{policy_of, setup_of, shape_given};

use crate::code::Code;
use envy_base::Shape;
use envy_policy::{Policy, Setup};

/// What a memory is made with, in numbers.
#[repr(C)]
#[derive(Clone, Copy)]
pub struct EnvySetup {
    /// Segments of flash, each of which is erased as one: 4 to 4,096.
    pub segments: u32,
    /// Rows of a segment, each of one page: 2 to 65,536.
    pub rows: u32,
    /// Pages of the array, each of 32 words: at least 1.
    pub pages: u32,
    /// Pages that open transactions may own together.
    pub shadows: u32,
    /// Frames of SRAM, each of one page: 2 to 65,536.
    pub frames: u32,
    /// Entries of the translation cache: 1 to 65,536.
    pub entries: u32,
    /// How the cleaner chooses: 0 greedy, 1 first in first out, 2 locality, 3 hybrid, 4 lifetime.
    pub policy: u32,
    /// Positions of a partition, where the policy is hybrid.
    pub part: u32,
    /// How far wear may differ before two segments are swapped: at least 1.
    pub limit: u64,
    /// Held frames from which on a background step writes pages back: 1 to the number of frames.
    pub mark: u32,
    /// Positions in reserve, whose segments stand in for those that wear out: at most `segments` - 4.
    pub reserves: u32,
    /// Whether each row has a sum: 0, since no board keeps them yet.
    pub sums: u32,
}

// The policy of a number.
fn policy(number: u32, part: u32) -> Option<Policy>
    ensures { result ≡ policy_of number part }
{
    match number {
        0 => Some(Policy::Greedy),
        1 => Some(Policy::Fifo),
        2 => Some(Policy::Locality),
        3 => Some(Policy::Hybrid(part)),
        4 => Some(Policy::Lifetime),
        _ => None,
    }
}

/// The setup that the numbers give, if it breaks no rule.
///
/// # Errors
///
/// `Policy`, or `Setup` with the first rule that is broken.
pub fn checked_setup(given: &EnvySetup) -> Result<Setup, Code>
    ensures { MatchResult result
        (λ setup. (setup_of given.now ≡ Some setup) × (checked setup ≡ Ok tt) × IsSetup setup)
        (IsNoSetup given.now) }
{
    let Some(policy) = policy(given.policy, given.part) else {
        return Err(Code::Policy);
    };
    let setup = Setup {
        shape: Shape {
            segments: given.segments,
            rows: given.rows,
            pages: given.pages,
            shadows: given.shadows,
            frames: given.frames,
            entries: given.entries,
            reserves: given.reserves,
            sums: given.sums,
        },
        policy,
        limit: given.limit,
        mark: given.mark,
    };
    match setup.check() {
        Ok(()) => Ok(setup),
        Err(fault) => Err(Code::Setup(fault)),
    }
}
