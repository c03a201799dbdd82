ghost use Rattle.std.specs.Prelude.{◌≡◌, ℕ, List, Ok};
ghost use Rattle.envy_base.specs.State.{State};
ghost use Rattle.envy_disk.specs.Disk.{SyncsChart};
ghost use Rattle.envy_journal.specs.Content.{content_of, holds};
ghost use Rattle.envy_journal.specs.Reading.{operations};
ghost use Rattle.envy_synced.specs.Disk.{IsBefore, IsLast, Reopens};
ghost use Rattle.envy_soundness.specs.Sound.{IsSound};
ghost use Rattle.envy_soundness.specs.Words.{durable};
ghost use Rattle.envy_map.specs.Fields.{Chart, chart};
ghost use Rattle.envy_memory.specs.Attaching.{IsAttachable};
ghost use Rattle.envy_memory.specs.Calls.{Works};

/// The last two syncs are the same behind a call of a memory, whatever it answered.
pub fn calls_keep_the_last_sync()
    ensures last { (was old new : Chart) (k j : ℕ) → Works k j old new → IsLast was old → IsLast was new }
    ensures before { (was old new : Chart) (k j : ℕ) → Works k j old new → IsBefore was old → IsBefore was new }
{}

/// Behind a sync that succeeded the memory is as that sync left it, and the one that was the last is the one before.
pub fn a_sync_is_the_last()
    ensures last { (c : Chart) → IsLast c c }
    ensures before { (was old new : Chart) → SyncsChart {T = Unit {0}} old (Ok tt) new → IsLast was old → IsBefore was new }
{}

/// A board that is opened from a file that opens as another has the words of that one, as a restart finds them. Where
/// that one is sound, a memory may be attached.
pub fn a_file_opens_as_one_board()
    ensures words { (was : Chart) (s : State) (file : List ℕ) → Reopens was file → s.shape ≡ was.shape
        → content_of s ≡ holds s.shape (operations file) → durable (chart s) ≡ durable was }
    ensures fields { (was : Chart) (s : State) (file : List ℕ) → Reopens was file → s.shape ≡ was.shape
        → content_of s ≡ holds s.shape (operations file) → (chart s).fields ≡ was.fields }
    ensures sound { (was : Chart) (s : State) (file : List ℕ) → Reopens was file → s.shape ≡ was.shape
        → content_of s ≡ holds s.shape (operations file) → IsSound was → IsAttachable (chart s) }
{}
