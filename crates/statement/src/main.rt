// Reads the rows of a register from standard input, and prints its statement.
#![tactic(auto)]

use statements::report::report;
use std::io;
use std::io::{Read, Write};

fn main(rt: HostRuntime) -> io::Result<()> {
    let mut input = Vec::new(rt.alloc());
    rt.stdin().read_to_end(&mut input)?;
    let out = report(rt.alloc(), &input)?;
    rt.stdout().write_all(out.as_bytes())
}
