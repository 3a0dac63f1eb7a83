//! What follows from the definitions. None of these does anything.

ghost use Rattle.std.specs.Prelude.{◌≡◌, ◌≤◌, ◌↔◌, ℕ, length};
ghost use Rattle.slub_trace_reader.specs.declared.reading.Why.{Why};
ghost use Rattle.slub_trace.specs.declared.trace.Trace.{Trace};
ghost use Rattle.slub_trace_reader.specs.Faults.{IsFirstBad};
ghost use Rattle.slub_trace_reader.specs.Grammar.{IsTrace};
ghost use Rattle.slub_trace_reader.specs.Reading.{reading};

/// The reading as a function is the grammar, both ways: it gives a trace exactly where the bytes
/// spell that trace, and a fault exactly where that is their first bad line and its first reason.
pub fn reading_is_the_grammar(bytes: &[u8])
    requires { length bytes.now ≤ 16777216 }
    ensures traces { (trace : Trace) → (reading bytes.now ≡ Ok trace) ↔ IsTrace bytes.now trace }
    ensures faults { (line : ℕ) (why : Why) → (reading bytes.now ≡ Err (line, why)) ↔ IsFirstBad bytes.now line why }
{}
