ghost use Rattle.std.specs.Prelude.{ℕ};
ghost use Rattle.envy_map.specs.Fields.{Chart};
ghost use Rattle.envy_memory.specs.Picture.{Picture};
ghost use Rattle.envy_index_calls.specs.Indexed.{Works};
ghost use Rattle.envy_synced.specs.Disk.{IsLast, IsBefore};

/// The last two syncs are the same behind a call of a map, whatever it answered, as behind the other calls
/// (`calls_keep_the_last_sync` of envy_synced).
pub fn calls_of_a_map_keep_the_last_sync()
    ensures last { (was : Chart) (puts : ℕ) (p q : Picture) → Works puts p q → IsLast was p.chart → IsLast was q.chart }
    ensures before { (was : Chart) (puts : ℕ) (p q : Picture) → Works puts p q → IsBefore was p.chart → IsBefore was q.chart }
{}
