// What is promised of processes that are called in any order.
ghost use Rattle.machine.specs.Promise.{PromiseKept};

// For every lawful rule and every list of calls over which the crew keeps a fault schedule that the rule holds:
// standing processes show at most one verdict, a shared bit is kept, and a verdict shows exactly after all rounds.
pub fn promise_is_kept()
    ensures { PromiseKept }
{}
