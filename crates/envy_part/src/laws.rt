ghost use Rattle.std.specs.Prelude.{ℕ, List};
ghost use Rattle.envy_map.specs.Fields.{Chart};
ghost use Rattle.envy_part.specs.Dead.{OnlyDeadDiffer, AreAlike, with_flash};

/// What a restart makes of a board doesn't depend on what its dead rows hold, as one that a cut program tore.
pub fn a_restart_reads_no_dead_row()
    ensures { (c : Chart) (rows : List (List ℕ)) → OnlyDeadDiffer c rows → AreAlike c (with_flash rows c) }
{}
