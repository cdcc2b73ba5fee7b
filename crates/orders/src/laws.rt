// What is true of orders, their rank and their trades: each law is the contract of a function.
ghost use Rattle.orders.specs.Laws.{RankSaid, RankDecides, TradesOrderly};

// What the rank of two orders on one side says in words.
pub fn rank_said()
    ensures { RankSaid }
{}

// Rank decides which order is first and which comes next, however the orders are listed.
pub fn rank_decides()
    ensures { RankDecides }
{}

// Fair trades keep a book sound, and there are at most as many as orders have ended.
pub fn trades_orderly()
    ensures { TradesOrderly }
{}
