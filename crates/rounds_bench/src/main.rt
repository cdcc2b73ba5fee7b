// How long it takes to find that no round is due, on a full table of one issue: 128 all buys and 128 all sells, of which none is ready.
#![tactic(auto)]

ghost use Rattle.std.specs.Prelude.{◌≡◌, true};
ghost use Rattle.orders.specs.Strip.{clean};

use book::table::Table;
use matching::active::active;
use orders::order::{Entry, Life, Price, Side, Term};
use orders::strip::PLACES;
use std::io;
use std::time::Instant;

// Repeated so often, so that the clock's own cost does not count.
const TIMES: u64 = 1000;

fn all_or_none(side: Side, quantity: u64) -> Entry
    ensures quantity { result.quantity ≡ quantity }
    ensures term { result.term ≡ Term.All }
{
    Entry {
        account: 1,
        issue: 1,
        side,
        quantity,
        price: Price::Limit(1000),
        term: Term::All,
        life: Life::Day,
    }
}

// Each buy wants 2 and each sell has 3, all or none: every walk passes all orders opposite and none is filled.
fn full_table() -> Table {
    let mut table = Table::new();
    for _ in 0..PLACES / 2 {
        table.place(all_or_none(Side::Buy, 2), 1000);
        table.place(all_or_none(Side::Sell, 3), 1000);
    }
    table
}

// How often a round was due.
fn times_due(table: &Table, strip: &mut [u8]) -> u64
    requires { clean strip.old ≡ true }
{
    // A loop and no chain: a closure could not show that each call leaves the strip clean for the next.
    let mut due = 0;
    for _ in 0..TIMES {
        if active(table, strip, 1).is_some() {
            due += 1;
        }
    }
    due
}

fn main(rt: HostRuntime) -> io::Result<()> {
    let table = full_table();
    let mut strip = [0u8; PLACES];
    let start = Instant::now(&rt)?;
    let due = times_due(&table, &mut strip);
    let took = start.elapsed(&rt)?.as_micros();
    println!(rt; "{TIMES} times: a round was due {due} times")?;
    eprintln!(rt; "{took} microseconds in all")
}
