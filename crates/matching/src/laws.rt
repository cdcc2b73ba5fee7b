// What is true of attempts and rounds: each law is the contract of a function.
ghost use Rattle.matching.specs.Laws.{ActiveSaid, AttemptsFair, QuietLocal, RoundsSettle, CallsFit, RowsFree};

// The trades of a working order's attempt are fair and at the waiting orders' prices, and all orders trade all that they have left or nothing.
pub fn attempts_fair()
    ensures { AttemptsFair }
{}

// Which order a round makes active, and that it trades.
pub fn active_said()
    ensures { ActiveSaid }
{}

// Whether an issue is quiet is a matter of its own orders alone.
pub fn quiet_local()
    ensures { QuietLocal }
{}

// Each round trades, rounds end, and they leave a quiet issue and the other issues as they were.
pub fn rounds_settle()
    ensures { RoundsSettle }
{}

// An attempt and the rounds after it make at most as many trades as there are live orders.
pub fn calls_fit()
    ensures { CallsFit }
{}

// Tables that hold the same orders in other places trade alike.
pub fn rows_free()
    ensures { RowsFree }
{}
