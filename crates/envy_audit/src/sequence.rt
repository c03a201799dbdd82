ghost use Rattle.std.specs.Prelude.{◌≡◌, false, length, MatchResult};
ghost use Rattle.envy_map.specs.Fields.{chart};
ghost use Rattle.envy_audit.specs.Judging.{Before, FindsFirst};
ghost use Rattle.envy_audit.specs.Points.{Decodes, rows_of};
ghost use Rattle.envy_audit.specs.Tables.{MarksPlaced, MarksUsed, NotesOwners};

use crate::Rule;
use crate::jobs::{job_stands, kept_once};
use crate::kept::{kept_are_claimed, kept_are_placed, reserves_are_unkept};
use crate::segments::{free_are_ones, idle_spare_is_empty};
use crate::undos::{few_are_owned, undos_are_in_use};
use envy_base::{Board, Off};

/// The first point that fails, where the points on names hold.
pub(crate) fn first_of_kept<B: Board>(
    board: &B,
    placed: &[bool],
    used: &[bool],
    owners: &[u32],
    copied: &mut [bool],
) -> Result<Option<Rule>, Off>
    requires decodes { Decodes (chart (B.state board.now)) }
    requires before { Before Rule.E (chart (B.state board.now)) }
    requires marks { MarksPlaced (chart (B.state board.now)) placed.now }
    requires used { MarksUsed (chart (B.state board.now)) used.now }
    requires notes { NotesOwners (chart (B.state board.now)) owners.now }
    requires long { length copied.old ≡ rows_of (B.state board.now).shape }
    ensures { let c = chart (B.state board.now) in MatchResult result (FindsFirst c) (λ _. c.on ≡ false) }
{
    let claimed = kept_are_claimed(board, owners)?;
    if !claimed {
        return Ok(Some(Rule::E));
    }
    let ones = free_are_ones(board, placed)?;
    if !ones {
        return Ok(Some(Rule::F));
    }
    let empty = idle_spare_is_empty(board, placed)?;
    if !empty {
        return Ok(Some(Rule::G));
    }
    let in_place = kept_are_placed(board, owners, placed)?;
    if !in_place {
        return Ok(Some(Rule::H));
    }
    first_of_job(board, placed, used, owners, copied)
}

// The first point that fails, where the points on kept and free rows hold too.
fn first_of_job<B: Board>(
    board: &B,
    placed: &[bool],
    used: &[bool],
    owners: &[u32],
    copied: &mut [bool],
) -> Result<Option<Rule>, Off>
    requires decodes { Decodes (chart (B.state board.now)) }
    requires before { Before Rule.I (chart (B.state board.now)) }
    requires marks { MarksPlaced (chart (B.state board.now)) placed.now }
    requires used { MarksUsed (chart (B.state board.now)) used.now }
    requires notes { NotesOwners (chart (B.state board.now)) owners.now }
    requires long { length copied.old ≡ rows_of (B.state board.now).shape }
    ensures { let c = chart (B.state board.now) in MatchResult result (FindsFirst c) (λ _. c.on ≡ false) }
{
    let stands = job_stands(board, placed, used, owners, copied)?;
    if !stands {
        return Ok(Some(Rule::I));
    }
    let once = kept_once(board, placed, used, owners)?;
    if !once {
        return Ok(Some(Rule::J));
    }
    let few = few_are_owned(board)?;
    if !few {
        return Ok(Some(Rule::K));
    }
    let in_use = undos_are_in_use(board)?;
    if !in_use {
        return Ok(Some(Rule::L));
    }
    let unkept = reserves_are_unkept(board, owners, placed, used);
    if !unkept {
        return Ok(Some(Rule::M));
    }
    Ok(None)
}
