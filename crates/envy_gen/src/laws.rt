ghost use Rattle.std.specs.Prelude.{◌≡◌, ℕ, ◌≤◌, length, map, Result, Ok};
ghost use Rattle.envy_io.specs.Lines.{lines_of};
ghost use Rattle.envy_trace.specs.declared.fault.LineFault.{LineFault};
ghost use Rattle.envy_trace.specs.declared.line.Line.{Line};
ghost use Rattle.envy_trace.specs.Grammar.{line_of};
ghost use Rattle.envy_gen.specs.Traces.{IsMix, generated, trace_bytes};
ghost use Rattle.envy_gen.specs.declared.mix.Mix.{Mix};

use envy_trace::grammar_holds_both_ways;

/// A generated trace has as many lines as were asked for. Its bytes, read line by line, are exactly the lines
/// that were drawn: the grammar accepts each of them.
pub fn generated_traces_read_back()
    ensures count { (start lines : ℕ) (mix : Mix) → length (generated start lines mix) ≡ lines }
    ensures reads_back { (start lines : ℕ) (mix : Mix) → IsMix mix
        → map line_of (lines_of (trace_bytes start lines mix)) ≡ map (λ line. Ok line) (generated start lines mix) }
{
    grammar_holds_both_ways();
}
