// Histories of round-by-round protocols, and the fault schedules that they keep.
#![tactic(auto)]

ghost use Rattle.history.specs.Claims.{RunsExist};

// Every fault schedule is kept by a history, whatever the protocol.
pub fn schedules_are_kept<S>()
    ensures { RunsExist S }
{}
