//! Laws of the definitions. Each function computes nothing: its postcondition is the law.
ghost use Rattle.causal_trace.specs.Sizes.{NumbersAreBounded, LimitsAreKept};
ghost use Rattle.causal_trace.specs.Laws.{InstantsArePrefixes, InstantsPersist, OneMoreInstant, InstantsKeepPlaces, DownIsLastTransition, LogIsLastListing, ReachesByPath};
ghost use Rattle.causal_trace.specs.Laws.{SendsAreCounted, DeliveriesAreCounted, DeliveredAtPosition, StableAtPosition};

/// States other forms of the definitions. Instant t is the state after the first t entries, and one more entry adds
/// exactly one instant. The last crash or restart decides whether a process is down. A lane's counts are the numbers
/// of its send and delivery entries. A determinant is delivered, or stable, if and only if some entry delivers, or
/// writes, it. A log contains what its lane's last listing put there. Happened-before is reachability by direct
/// precedence.
pub fn definitions_agree()
    ensures prefixes { InstantsArePrefixes }
    ensures stay { InstantsPersist }
    ensures one_more { OneMoreInstant }
    ensures places { InstantsKeepPlaces }
    ensures down { DownIsLastTransition }
    ensures sends { SendsAreCounted }
    ensures deliveries { DeliveriesAreCounted }
    ensures delivered { DeliveredAtPosition }
    ensures stable { StableAtPosition }
    ensures logs { LogIsLastListing }
    ensures reaches { ReachesByPath }
{}

/// Bounds the numbers of a well-formed trace: process numbers are below the process count, all others below
/// 16,777,216. Such a trace is within the limits of any trace.
pub fn numbers_are_bounded()
    ensures small { NumbersAreBounded }
    ensures limits { LimitsAreKept }
{}
