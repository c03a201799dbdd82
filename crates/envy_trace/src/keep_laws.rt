ghost use Rattle.std.specs.Prelude.{◌≡◌, ◌≢◌, ◌↔◌, ℕ, ◌<◌, List, length, All, Ok, Err};
ghost use Rattle.envy_trace.specs.Keep.{IsKeepLine, ReadsKeep, keep_line_of, keep_line_bytes};
ghost use Rattle.envy_trace.specs.declared.keep_line.KeepLine.{KeepLine};
ghost use Rattle.envy_trace.specs.declared.fault.LineFault.{LineFault};

/// What is read is spelled so, and what is spelled so is read. Only its length makes a line too long. Each
/// written line reads back as itself, and no newline stands in it.
pub fn keep_grammar_holds_both_ways()
    ensures spelled { (bytes : List ℕ) (line : KeepLine) → (keep_line_of bytes ≡ Ok line) ↔ ReadsKeep bytes line }
    ensures long { (bytes : List ℕ) → (keep_line_of bytes ≡ Err LineFault.Long) ↔ (120 < length bytes) }
    ensures reads_back { (line : KeepLine) → IsKeepLine line → keep_line_of (keep_line_bytes line) ≡ Ok line }
    ensures one_line { (line : KeepLine) → IsKeepLine line → All (λ byte. byte ≢ 10) (keep_line_bytes line) }
{}
