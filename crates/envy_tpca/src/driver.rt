//! Driving a load.

ghost use Rattle.std.specs.Prelude.{◌≡◌, ◌↔◌, ◌+◌, ◌*◌, ◌%◌, ◌^◌, ◌<◌, ◌≤◌, ℕ, false, IfOk, OnOk, Ok, Err, List, Some, if◌then◌else◌};
ghost use Rattle.envy_array.specs.Area.{Fits};
ghost use Rattle.envy_array.specs.Array.{Array, zeros, put_back};
ghost use Rattle.envy_meaning.specs.Stands.{Stands};
ghost use Rattle.envy_soundness.specs.Words.{durable};
ghost use Rattle.envy_memory.specs.Calls.{planned};
ghost use Rattle.envy_tpca.specs.declared.places.Places.{Places as APlaces};
ghost use Rattle.envy_tpca.specs.declared.transfer.Transfer.{Transfer as ATransfer};
ghost use Rattle.envy_tpca.specs.Driving.{IsLoadOf, HasCounted, IsDriven, PlansCuts, cut_before, is_planned, plans_in};
ghost use Rattle.envy_tpca.specs.Load.{after};
ghost use Rattle.envy_tpca.specs.Loading.{CountsUncut};
ghost use Rattle.envy_tpca.specs.Running.{MayDrive, AfterAll};
ghost use Rattle.envy_tpca.specs.Since.{IsPast, Keeps, RisesWithin, Since};
ghost use Rattle.envy_tpca.specs.Trial.{IsTried, writes};
ghost use Rattle.envy_tpca.specs.Trying.{AfterTransfer, Trial};

use crate::layout::{lay_out, spots};
use crate::load_sums::{load_at, sum_balances, sum_history};
use crate::restart::{restart, tick_four_times};
use crate::trial::try_transfer;
use crate::{DriveFault, Fault, Load, Places, Spots, Sums, Transfer};
use envy_array::Area;
use envy_base::Bench;
use envy_memory::Memory;

/// Tries transfer `i` until it is done, and ticks. After a restart address 0 tells whether it is done. Where power never
/// fails it makes three loads and eight puts.
pub fn transfer_once<B: Bench>(
    memory: &mut Memory<B>,
    at: Spots,
    i: u32,
    t: Transfer,
) -> Result<(), DriveFault>
    requires trial { Trial i t at memory.old }
    requires row { at.row < 2 ^ 31 }
    ensures after { (l : APlaces) (size : ℕ) (ts : List ATransfer)
        → IsTried memory.old.chart.shape.shadows l size ts (durable memory.old.chart) i t at
        → AfterTransfer 0 memory.old (durable memory.old.chart) (put_back (writes l ts t) (durable memory.old.chart))
        result memory.new }
    ensures uncut { OnOk result (CountsUncut 11 memory.old memory.new) }
{
    loop {
        match try_transfer(memory, at, i, t) {
            Ok(()) => return tick_four_times(memory),
            Err(Fault::Bad) => return Err(DriveFault::Bad),
            Err(Fault::Refused) => unreachable!(),
            Err(Fault::Off) => {}
        }
        restart(memory)?;
        if load_at(memory, 0) == u64::from(i) + 1 {
            return tick_four_times(memory);
        }
    }
}

/// The cut that is planned before transfer `i` comes in the operation of this number from there.
fn place_of(i: u32) -> u32
    ensures { result ≡ 1 + (37 * i) % 512 }
{
    1 + 37 * (i % 512) % 512
}

/// Plans the cut before transfer `i`.
fn arm_before<B: Bench>(memory: &mut Memory<B>, i: u32)
    ensures { memory.new ≡ record memory.old { chart = planned (cut_before i) memory.old.chart } }
{
    memory.arm_cut(place_of(i), u64::from(i));
}

/// Plans a cut before transfer `i`, where it is a multiple of `every` and that is above 0.
pub fn plan_cut<B: Bench>(memory: &mut Memory<B>, every: u32, i: u32)
    ensures since { Since (if is_planned every i then 1 else 0) memory.old memory.new }
    ensures last { memory.new.chart.last_plan
        ≡ (if is_planned every i then Some (cut_before i) else memory.old.chart.last_plan) }
    ensures stands { (m : Array) → Stands memory.old.chart m → Stands memory.new.chart m }
    ensures same { durable memory.new.chart ≡ durable memory.old.chart }
    ensures parts { memory.new.parts ≡ memory.old.parts }
{
    if every != 0 && i % every == 0 {
        arm_before(memory, i);
    }
}

/// Does all transfers, and adds up their deltas.
fn transfer_all<B: Bench>(
    memory: &mut Memory<B>,
    load: &mut Load,
    area: &Area,
    places: Places,
    every: u32,
) -> Result<i64, DriveFault>
    requires { MayDrive area.now places load.old memory.old }
    ensures after { AfterAll area.now load.old every memory.old result load.new memory.new }
    ensures uncut { OnOk result (CountsUncut (11 * area.now.transfers) memory.old memory.new) }
{
    let mut deltas: i64 = 0;
    for i in 0..area.transfers {
        let t = load.next();
        plan_cut(memory, every, i);
        transfer_once(memory, spots(places, i, t), i, t)?;
        deltas = deltas.wrapping_add(t.delta);
    }
    Ok(deltas)
}

/// Does the transfers of a load, each as one transaction with four ticks behind it, and adds up the balances and the
/// history. Before each transfer that is a multiple of `every` a cut is planned, where `every` is above 0. Where power
/// fails it is asked for, and address 0 tells whether the transfer is done.
///
/// # Errors
///
/// `Dead` where power doesn't return, `Bad` where a flash operation failed. However it ends, a restart finds the words
/// after as many transfers as address 0 says.
pub fn drive<B: Bench>(
    memory: &mut Memory<B>,
    load: &mut Load,
    area: &Area,
    every: u32,
) -> Result<Sums, DriveFault>
    requires fits { Fits area.now memory.old.chart.shape.pages }
    requires load { IsLoadOf area.now load.old }
    requires room { 5 ≤ memory.old.chart.shape.shadows }
    requires zeros { Stands memory.old.chart (zeros memory.old.chart.shape.pages memory.old.chart.shape.shadows) }
    ensures counted { HasCounted area.now load.old memory.new }
    ensures driven { IfOk result (λ sums. IsDriven area.now load.old every memory.old sums memory.new) }
    ensures drawn { OnOk result (load.new ≡ after area.now.transfers load.old) }
    ensures dead { (result ≡ Err DriveFault.Dead) ↔ (memory.new.chart.on ≡ false) }
    ensures lost { (result ≡ Err DriveFault.Dead) → (memory.new.chart.lives ≡ 0)
        × IsPast memory.old.chart.cuts memory.new.chart.cuts }
    ensures bad { (result ≡ Err DriveFault.Bad) → IsPast memory.old.chart.bads memory.new.chart.bads }
    ensures keeps { Keeps memory.old memory.new }
    ensures plans { RisesWithin (plans_in every area.now.transfers) memory.old.chart.plans memory.new.chart.plans }
    ensures last { PlansCuts area.now every memory.old.chart.last_plan memory.new.chart.last_plan }
{
    let given = memory.lives();
    let places = lay_out(area, memory.board());
    let deltas = transfer_all(memory, load, area, places, every)?;
    let counts = memory.counts();
    let cuts = u64::from(given - memory.lives());
    let branches = sum_balances(memory, 1, places.branches);
    let tellers = sum_balances(memory, 1 + places.branches, 10 * places.branches);
    let accounts = sum_balances(memory, 1 + 11 * places.branches, places.accounts);
    let history = sum_history(memory, places.history, area.transfers);
    Ok(Sums {
        branches,
        tellers,
        accounts,
        history,
        deltas,
        cuts,
        counts,
    })
}
