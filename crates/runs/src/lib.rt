// What is true of every run of calls: the whole promise.
#![tactic(auto)]

ghost use Rattle.runs.specs.Promise.{PromiseKept};

// Over any register that keeps the register's rules, every run of calls keeps the whole promise.
pub fn promise_kept()
    ensures { PromiseKept }
{}
