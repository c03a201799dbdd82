ghost use Rattle.std.specs.Prelude.{◌≡◌, ◌≢◌, ◌↔◌, ℕ, ◌<◌, List, length, All, Ok, Err};
ghost use Rattle.envy_trace.specs.declared.fault.LineFault.{LineFault};
ghost use Rattle.envy_trace.specs.declared.line.Line.{Line};
ghost use Rattle.envy_trace.specs.Grammar.{line_of};
ghost use Rattle.envy_trace.specs.declared.mirror_line.MirrorLine.{MirrorLine};
ghost use Rattle.envy_trace.specs.Mirror.{IsMirrorLine, ReadsMirror, mirror_line_of, mirror_line_bytes};
ghost use Rattle.envy_trace.specs.Spelling.{IsLine, Reads, line_bytes};

/// What is read is spelled so, and what is spelled so is read. Only its length makes a line too long. Each
/// written line reads back as itself, and no newline stands in it.
pub fn grammar_holds_both_ways()
    ensures spelled { (bytes : List ℕ) (line : Line) → (line_of bytes ≡ Ok line) ↔ Reads bytes line }
    ensures long { (bytes : List ℕ) → (line_of bytes ≡ Err LineFault.Long) ↔ (120 < length bytes) }
    ensures reads_back { (line : Line) → IsLine line → line_of (line_bytes line) ≡ Ok line }
    ensures one_line { (line : Line) → IsLine line → All (λ byte. byte ≢ 10) (line_bytes line) }
{}

/// The same of the lines for a pair of boards.
pub fn mirror_grammar_holds_both_ways()
    ensures spelled { (bytes : List ℕ) (line : MirrorLine) → (mirror_line_of bytes ≡ Ok line) ↔ ReadsMirror bytes line }
    ensures long { (bytes : List ℕ) → (mirror_line_of bytes ≡ Err LineFault.Long) ↔ (120 < length bytes) }
    ensures reads_back { (line : MirrorLine) → IsMirrorLine line → mirror_line_of (mirror_line_bytes line) ≡ Ok line }
    ensures one_line { (line : MirrorLine) → IsMirrorLine line → All (λ byte. byte ≢ 10) (mirror_line_bytes line) }
{}
