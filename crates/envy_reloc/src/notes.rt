ghost use Rattle.std.specs.Prelude.{◌≡◌, ◌*◌, ◌/◌, ◌<◌, ℕ, slice_index};
ghost use Rattle.envy_map.specs.Fields.{Fields};
ghost use Rattle.envy_soundness.specs.Naming.{with_named};
ghost use Rattle.envy_space.specs.Pool.{noted_kept, noted_dead};
ghost use Rattle.envy_table.specs.Agreement.{AreCurrent};
ghost use Rattle.envy_table.specs.Hits.{Rests};

use envy_base::Place;
use envy_soundness::Kept;
use envy_space::Space;
use envy_table::Cache;

/// Lets the pool and the cache follow a page that names a row in place of another that it kept.
#[inline(always)]
pub(crate) fn follow(space: &mut Space, cache: &mut Cache, row: u32, kept: Kept, copy: u32)
    requires row { row < space.old.shape.segments * space.old.shape.rows }
    requires copy { copy < space.old.shape.segments * space.old.shape.rows }
    requires some { 0 < slice_index space.old.kept (row / space.old.shape.rows) }
    requires room { slice_index (noted_dead row space.old).kept (copy / space.old.shape.rows)
        < slice_index space.old.fills (copy / space.old.shape.rows) }

    ensures space { space.new ≡ noted_kept copy (noted_dead row space.old) }
    ensures rests { Rests cache.old cache.new }
    ensures cache { (pages : ℕ) (f : Fields) → AreCurrent pages f.places cache.old.entries
        → AreCurrent pages (Fields.places (with_named kept.page copy kept.undo f)) cache.new.entries }
{
    space.note_dead(row);
    space.note_kept(copy);
    match kept.undo {
        None => cache.retarget(kept.page, Place::Row(copy)),
        Some(_) => {}
    }
}
