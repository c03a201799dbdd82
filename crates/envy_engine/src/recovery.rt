ghost use Rattle.std.specs.Prelude.{◌≡◌, false, IsTrue, OnOk, OnErr};
ghost use Rattle.envy_base.specs.Shape.{version_of};
ghost use Rattle.envy_map.specs.Fields.{chart};
ghost use Rattle.envy_soundness.specs.Same.{SameDurable};
ghost use Rattle.envy_soundness.specs.Sound.{IsSound};
ghost use Rattle.envy_soundness.specs.Words.{durable};
ghost use Rattle.envy_engine.specs.Agreement.{Fits, Ready};
ghost use Rattle.envy_engine.specs.Restarts.{IsSettled, IsRestarted, SameCounts, IsRebuilt, SettlesAll};
ghost use Rattle.envy_soundness.specs.Power.{power_of};

use crate::parts::Parts;
use envy_base::{Board, Off};
use envy_reloc::Reloc;
use envy_txn::settle;

/// Reads all parts anew from a board whose transactions and job are settled.
pub fn rebuild<B: Board>(board: &B, parts: &mut Parts) -> Result<(), Off>
    requires sound { IsSound (chart (B.state board.now)) }
    requires fits { Fits (B.state board.now).shape parts.old }
    requires settled { IsTrue (B.state board.now).on → IsSettled (chart (B.state board.now)) }

    ensures ready { OnOk result (Ready (chart (B.state board.now)) parts.new) }
    ensures fits { Fits (B.state board.now).shape parts.new }
    ensures rebuilt { OnOk result (IsRebuilt (chart (B.state board.now)) parts.old parts.new) }
    ensures counts { SameCounts parts.old parts.new }
    ensures kept { parts.new
        ≡ record parts.old {
          frames = parts.new.frames;
          space = parts.new.space;
          cache = parts.new.cache;
          chooser =
              parts.new.chooser;
          stages = parts.new.stages;
          reloc = parts.new.reloc;
        } }
    ensures halted { OnErr result
        (parts.new ≡ record parts.old { frames = parts.new.frames; space = parts.new.space }) }
    ensures off { OnErr result ((B.state board.now).on ≡ false) }
{
    parts.frames.rebuild(board)?;
    parts.space.rebuild(board)?;
    parts.cache.empty();
    parts.chooser.reset();
    parts.stages.clear();
    parts.reloc.clear();
    parts.reloc.count_anew();
    Ok(())
}

/// Settles transactions and the job.
fn settle_all<B: Board>(board: &mut B) -> Result<(), Off>
    requires sound { IsSound (chart (B.state board.old)) }
    requires version { (chart (B.state board.old)).fields.version ≡ version_of (B.state board.old).shape }
    ensures durable { SameDurable 0 0 (chart (B.state board.old)) (chart (B.state board.new)) }
    ensures settled { OnOk result (IsSettled (chart (B.state board.new))) }
    ensures restarted { OnOk result (IsRestarted (chart (B.state board.old)) (chart (B.state board.new))) }
    ensures power { (B.state board.new).on ≡ power_of result }
{
    settle(board)?;
    Reloc::settle(board)?;
    Ok(())
}

/// After power came: settles transactions and the job, and reads all parts anew. A restart after a failure of
/// power in it does the same.
pub fn restart<B: Board>(board: &mut B, parts: &mut Parts) -> Result<(), Off>
    requires sound { IsSound (chart (B.state board.old)) }
    requires version { (chart (B.state board.old)).fields.version ≡ version_of (B.state board.old).shape }
    requires fits { Fits (B.state board.old).shape parts.old }

    ensures durable { SameDurable 0 0 (chart (B.state board.old)) (chart (B.state board.new)) }
    ensures restarts { OnOk result (SettlesAll (chart (B.state board.old)) (chart (B.state board.new))) }
    ensures ready { OnOk result (Ready (chart (B.state board.new)) parts.new) }
    ensures rebuilt { OnOk result (IsRebuilt (chart (B.state board.new)) parts.old parts.new) }
    ensures fits { Fits (B.state board.new).shape parts.new }
    ensures counts { SameCounts parts.old parts.new }
    ensures kept { parts.new
        ≡ record parts.old {
          frames = parts.new.frames;
          space = parts.new.space;
          cache = parts.new.cache;
          chooser =
              parts.new.chooser;
          stages = parts.new.stages;
          reloc = parts.new.reloc;
        } }
    ensures halted { OnErr result
        (parts.new ≡ record parts.old { frames = parts.new.frames; space = parts.new.space }) }
    ensures power { (B.state board.new).on ≡ power_of result }
{
    settle_all(board)?;
    rebuild(board, parts)
}
