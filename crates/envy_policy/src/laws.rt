ghost use Rattle.std.specs.Prelude.{◌≡◌, ℕ, ◌+◌, ◌/◌, ◌<◌, ◌==◌, List, None, length, fold, count_by, slice_index};
ghost use Rattle.envy_policy.specs.declared.choice.Choice.{Choice};
ghost use Rattle.envy_policy.specs.declared.choice.Choice.TheVariants.{Free, Clean};
ghost use Rattle.envy_policy.specs.declared.setup.Policy.TheVariants.{Greedy};
ghost use Rattle.envy_policy.specs.History.{History, IsHistory, SameSizes, partition_of, flushed, claimed, cleaned};
ghost use Rattle.envy_policy.specs.Choice.{IsChoice, IsLeast, IsMost, IsWithin};

/// Heats, turns, rows and home leave one choice.
pub fn rows_leave_one_choice()
    ensures { (h : History) (free dead : List ℕ) (home : ℕ) (a b : Choice)
        → IsChoice h free dead home a → IsChoice h free dead home b → a ≡ b }
{}

/// Until 1,024 flushes a partition's heat counts the flushes to it, and the 1,024th halves it.
pub fn heats_count_flushes()
    ensures counted { (h : History) (positions : List ℕ) (g : ℕ)
        → g < length h.heats → h.flushes + length positions < 1024
        → slice_index (fold flushed h positions).heats g ≡ slice_index h.heats g + count_by (λ p.
        partition_of h p == g) positions }
    ensures halved { (h : History) (positions : List ℕ) (g : ℕ)
        → g < length h.heats → h.flushes < 1024 → h.flushes + length positions ≡ 1024
        → slice_index (fold flushed h positions).heats g
        ≡ (slice_index h.heats g + count_by (λ p. partition_of h p == g) positions) / 2 }
{}

/// Under greedy all positions are one partition: the lowest with a free row is the choice, or else
/// the one with most dead rows.
pub fn greedy_looks_at_all_positions()
    ensures free { (h : History) (free dead : List ℕ) (home position : ℕ)
        → IsHistory h → h.policy ≡ Greedy → length free ≡ h.positions → home < h.positions
        → IsLeast (λ x. 0 < slice_index free x) (λ x. x) position
        → IsChoice h free dead home (Free position) }
    ensures clean { (h : History) (free dead : List ℕ) (home position : ℕ)
        → IsHistory h → h.policy ≡ Greedy → length dead ≡ h.positions → home < h.positions
        → ((x : ℕ) → slice_index free x ≡ 0)
        → IsMost (λ x. 0 < slice_index dead x) (slice_index dead) position
        → IsChoice h free dead home (Clean position None) }
{}

/// A choice is of a position that there is, with a free row or with a dead one, and the partition beside
/// it is one that there is.
pub fn a_choice_has_rows()
    ensures { (h : History) (free dead : List ℕ) (home : ℕ) (choice : Choice)
        → length free ≡ h.positions → length dead ≡ h.positions → IsChoice h free dead home choice
        → IsWithin h free dead choice }
{}

/// A flush or a cleaning that is noted changes heats, turns and lives alone, and not how many there are.
pub fn notes_keep_the_sizes()
    ensures flushed { (h : History) (position : ℕ) → SameSizes h (flushed h position) }
    ensures claimed { (h : History) (position page : ℕ) → SameSizes h (claimed h position page) }
    ensures cleaned { (h : History) (position : ℕ) → SameSizes h (cleaned h position) }
{}
