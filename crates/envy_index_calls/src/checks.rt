// The check of a range, whatever its words are: whether they stand for a map, and if not, which rule they break.
ghost use Rattle.std.specs.Prelude.{◌≡◌, ◌≢◌, ◌<◌};
ghost use Rattle.std.specs.Option.{ForSome};
ghost use Rattle.envy_calls.specs.Codes.{number_of};
ghost use Rattle.envy_calls.specs.declared.code.Code.TheVariants.{BrokenMap};
ghost use Rattle.envy_index_calls.specs.Checked.{Checks, TellsCheck, number_of_rule};
ghost use Rattle.envy_index_calls.specs.Ranged.{Calls};
ghost use Rattle.envy_index_calls.specs.Ranges.{MayHold};

use crate::ranges::{EnvyMap, Whose, give_back, lend};
use envy_base::Board;
use envy_calls::Code;
use envy_memory::Memory;
use envy_range::Within;
use envy_tree_check::{MapFault, check};

// The number of a rule that words break, from 1 on.
fn rule_number(fault: MapFault) -> u32
    ensures { result ≡ number_of_rule fault }
{
    match fault {
        MapFault::Off => 0,
        MapFault::Short => 1,
        MapFault::Used => 2,
        MapFault::Many => 3,
        MapFault::FreeList => 4,
        MapFault::Deep => 5,
        MapFault::Node => 6,
        MapFault::Head => 7,
        MapFault::Level => 8,
        MapFault::Few => 9,
        MapFault::Keys => 10,
        MapFault::Freed => 11,
        MapFault::Lost => 12,
        MapFault::Count => 13,
    }
}

// The code of a check. The number of a rule that is broken is written.
fn told_check(checked: Result<(), MapFault>, rule: &mut u32) -> Code
    ensures { TellsCheck checked result rule.old rule.new }
{
    match checked {
        Ok(()) => Code::Done,
        Err(MapFault::Off) => Code::Off,
        Err(fault) => {
            *rule = rule_number(fault);
            Code::BrokenMap
        }
    }
}

/// Whether the words of a range stand for a map, whatever they are, in time linear in them. After `BrokenMap` the number
/// of the first rule that they break is written.
pub fn map_check<B: Board + Drop>(
    place: &mut Option<Memory<B>>,
    range: EnvyMap,
    rule: &mut u32,
) -> Code
    requires { ForSome place.old MayHold }
    ensures checks { Calls 0 (Checks range rule.new) place.old place.new (number_of result) }
    ensures unwritten { result ≢ BrokenMap → rule.new ≡ rule.old }
{
    let words = match lend(place, Whose::Any, Some(range)) {
        Ok(words) => words,
        Err(code) => return code,
    };
    let mut view = Within::of(words, range.first, range.words);
    let checked = check(&mut view);
    give_back(place, view.into_words());
    told_check(checked, rule)
}
