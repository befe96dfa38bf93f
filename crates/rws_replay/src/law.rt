//! What a replay is good for. The function computes nothing: its contract is the theorem.
ghost use Rattle.rws_replay.specs.Runs.{ReplaysAreWhole};

/// Once a replay has no next item, the replies since its last loss were those that the log holds: all of them, in order.
pub fn replays_are_whole()
    ensures { ReplaysAreWhole }
{}
