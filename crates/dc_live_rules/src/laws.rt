//! Laws of live sessions. The functions do nothing; each one's contract is a law.

ghost use Rattle.dc_live_rules.specs.Laws.{LiveRuns, RunsAreLive, RecordedLive};

/// Where in a live session each honest station gives its word over the sums before and each member
/// that of the script, the accepted words and their sums are those of the net's run.
pub fn live_runs()
    ensures { LiveRuns }
{}

/// Where every delivery is the sum and the accepted words are those of the net's run, each station
/// gave its word over the sums before.
pub fn runs_are_live()
    ensures { RunsAreLive }
{}

/// The recorded session of such accepted words has the words of the net's run and its superposed
/// words.
pub fn recorded_live()
    ensures { RecordedLive }
{}
