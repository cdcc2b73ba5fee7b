// What is true of the opening: each law is the contract of a function.
ghost use Rattle.opening.specs.Laws.{QuantitiesSaid, PricesOpen, TradesAddUp, BestFirst, TradesFair, OthersStay, IssuesApart, ListsAlike, RowsFree};

// What B and S of a price add up.
pub fn quantities_said()
    ensures { QuantitiesSaid }
{}

// The opening price opens the issue, no other price does, and it is absent exactly if nothing would trade.
pub fn price_opens()
    ensures { PricesOpen }
{}

// The opening trades add up to the lesser of B and S, and at no limit would more trade.
pub fn trades_add_up()
    ensures { TradesAddUp }
{}

// Each trade joins the best-ranked buy and sell that still stand.
pub fn best_first()
    ensures { BestFirst }
{}

// Opening trades are at the opening price, and fair.
pub fn trades_fair()
    ensures { TradesFair }
{}

// Orders that take no part, as those of other issues, suspended ones and special ones, are as before.
pub fn others_stay()
    ensures { OthersStay }
{}

// Each issue opens as if it were alone.
pub fn issues_apart()
    ensures { IssuesApart }
{}

// The order of a list of orders plays no part.
pub fn lists_alike()
    ensures { ListsAlike }
{}

// The place that holds an order decides nothing.
pub fn rows_free()
    ensures { RowsFree }
{}
