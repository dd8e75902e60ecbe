// How much a frame may hold. The functions are on numbers and booleans, since the counts that they are asked of are a type
// of a crate above.
ghost use Rattle.std.specs.Prelude.{◌≡◌, not, ◌||◌};
ghost use Rattle.layout.specs.Tally.{within_limits};
ghost use Rattle.layout.specs.Counting.{CountsFollow, FitsBefore};

/// Whether these counts of a frame are within the limits. What a frame counts after a text is told by what it counted
/// before.
#[tactic(auto, using(crate::proofs::Laws::counts_follow))]
pub fn within_limits(bytes: usize, runs: usize, rows: usize) -> bool
    ensures value { result ≡ within_limits bytes runs rows }
    ensures law { CountsFollow }
{
    bytes <= 16384 && runs <= 1024 && rows <= 256
}

/// Whether the end of a row adds one: `always`, or where it has runs or the current run joins it. What fits behind it
/// fitted before.
#[tactic(auto, using(crate::proofs::Laws::fits_before))]
pub fn closing_adds(always: bool, begun: bool, text: bool, bare: bool) -> bool
    ensures value { result ≡ (always || ((text || not bare) || begun)) }
    ensures law { FitsBefore }
{
    always || text || !bare || begun
}
