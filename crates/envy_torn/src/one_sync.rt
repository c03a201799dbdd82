ghost use Rattle.std.specs.Prelude.{◌≡◌, ℕ, ◌<◌, ◌≤◌, List, length};
ghost use Rattle.envy_torn.specs.Batches.{Change, SamePlaces, Fits, synced, Crashed, different_places};

/// A log that answers Ok behind one sync obliges its reader to take the file that it left for that batch. Where a crash may
/// leave any bytes in what was being written:
///
/// * `alike`: a crash in a batch may leave the synced file of each other batch that lies in the same places;
/// * `many`: of more batches than there are different places for so many changes, two are such;
/// * `told`: so whoever tells each synced batch takes, after some crash, one for synced that was never written.
///
/// With one sync a batch of b bits in a file of n bytes so takes at least b / (2 log2 n) calls, about; else it takes a second
/// sync.
pub fn one_sync_of_few_changes_is_not_enough()
    ensures alike { (file : List ℕ) (size : ℕ) (batch other : List Change) → SamePlaces batch other → Fits size other file
        → Crashed batch file (synced other file) }
    ensures many { (file : List ℕ) (size changes batches : ℕ) (batch : ℕ → List Change)
        → ((i : ℕ) → i < batches → Fits size (batch i) file) → ((i : ℕ) → i < batches → length (batch i) ≤ changes)
        → different_places size changes < batches
        → (one other : ℕ) × (one < other) × (other < batches) × SamePlaces (batch one) (batch other) }
    ensures told { (file : List ℕ) (size changes batches : ℕ) (batch : ℕ → List Change) (tells : List ℕ → ℕ)
        → ((i : ℕ) → i < batches → Fits size (batch i) file) → ((i : ℕ) → i < batches → length (batch i) ≤ changes)
        → different_places size changes < batches → ((i : ℕ) → i < batches → tells (synced (batch i) file) ≡ i)
        → (one other : ℕ) × (one < other) × (other < batches) × (crash : List ℕ) × Crashed (batch one) file crash
        × (tells crash ≡ other) }
{}
