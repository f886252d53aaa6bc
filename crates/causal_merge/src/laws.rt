//! Laws of torn lines. The function computes nothing: its postcondition is the law.
ghost use Rattle.std.specs.Prelude.{codes};
ghost use Rattle.causal_merge.specs.Laws.{IsWholeLine, PrefixesAreTorn, TornLinesStayOpen, WholeLinesAreKept};

/// A line that a kill cut short is torn wherever it was cut. A torn line has a bracket open after each of its bytes, and
/// no line that has a whole line in it is torn, so that no event is passed over.
#[tactic(auto, using(crate::proofs::TornLemmas::prefix_is_torn, crate::proofs::TornLemmas::torn_stays_open, crate::proofs::TornLemmas::whole_line_is_kept))]
pub fn torn_lines_are_cut()
    ensures cut { PrefixesAreTorn }
    ensures stay_open { TornLinesStayOpen }
    ensures kept { WholeLinesAreKept }
    ensures example { IsWholeLine (codes "[\"forget\",1,2,[]]") }
{}
