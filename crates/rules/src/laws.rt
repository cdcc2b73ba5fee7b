// What is true of every call: each law is the contract of a function.
ghost use Rattle.rules.specs.Laws.{RefusalsChangeNothing, RunsKeepTheRegister};
ghost use Rattle.rules.specs.Shares.{TradesSettle};

// A refused call changes nothing.
pub fn refusals_change_nothing()
    ensures { RefusalsChangeNothing }
{}

// Every run keeps the register's rules.
pub fn runs_keep_the_register()
    ensures { RunsKeepTheRegister }
{}

// Fair trades over a covered register are settled in full, and leave it covered.
pub fn trades_settle()
    ensures { TradesSettle }
{}
