//! What holds of every master, whatever it hears and whenever it is called.
ghost use Rattle.master.specs.Laws.{RepeatsAreBounded, TenthTickEnds, OnlyOpenTransfersEnd, RestsForThirtyTicks, SuccessIsAnswered, AbortHeardEnds};
ghost use Rattle.master.specs.Listening.{FailuresTold};

/// States that a write's frames are bounded, when time ends a transfer, how long a master rests, what success and an abort rest on, and what a failure tells.
pub fn master_laws()
    ensures repeats { RepeatsAreBounded }
    ensures tenth { TenthTickEnds }
    ensures closed { OnlyOpenTransfersEnd }
    ensures rests { RestsForThirtyTicks }
    ensures success { SuccessIsAnswered }
    ensures abort { AbortHeardEnds }
    ensures failure { FailuresTold }
{}
