//! What follows for every node from what its steps and ticks are defined to be.
ghost use Rattle.node.specs.Laws.{CommitsTold, OthersLeave, TicksLeave, AbortsLeaveIdle, ForeignDropped, StartsReplace, AbortsEnd, OthersRefused, UnknownRefused, BlockAborted, BlockStays};
ghost use Rattle.node.specs.Laws.{FramesRestart, NoneChangesNothing, TimeRunsOut};
ghost use Rattle.node.specs.Runs.{OneAtMost, ValuesCarried, TogglesAlternate};

/// States that only a commit changes the dictionary, that it is told and counted, that a transfer has one at most, and that its value is what the transfer carried, with toggles in turn, of the announced size and with the given CRC.
pub fn commit_laws()
    ensures commits_told { CommitsTold }
    ensures others_leave { OthersLeave }
    ensures ticks_leave { TicksLeave }
    ensures one_at_most { OneAtMost }
    ensures values_carried { ValuesCarried }
    ensures toggles_alternate { TogglesAlternate }
{}

/// States what a node makes of starts, aborts and all that it does not await.
pub fn answer_laws()
    ensures aborts_leave_idle { AbortsLeaveIdle }
    ensures foreign_dropped { ForeignDropped }
    ensures starts_replace { StartsReplace }
    ensures aborts_end { AbortsEnd }
    ensures others_refused { OthersRefused }
    ensures unknown_refused { UnknownRefused }
    ensures block_aborted { BlockAborted }
    ensures block_stays { BlockStays }
{}

/// States when a node's time runs out.
pub fn time_laws()
    ensures frames_restart { FramesRestart }
    ensures none_changes_nothing { NoneChangesNothing }
    ensures time_runs_out { TimeRunsOut }
{}
