// The statement of the rows that an input lists.
ghost use Rattle.std.specs.Prelude.{◌≡◌, IfOk, string_bytes, OnOk};
ghost use Rattle.statements.specs.Report.{statement_of, Reported, Line};

use super::read::read_row;
use super::write::{Refused, Unread, write_statement};
use register::contract::Register;
use register::holding::Row;
use rows::{RowRegister, check};
use std::alloc::{AllocError, Global};
use text::form::Malformed;

// The statement of rows, or the refusal of rows that break the register's rules.
pub fn statement(heap: Global, rows: &mut [Row]) -> Result<String, AllocError>
    ensures text { IfOk result (λ s. string_bytes s ≡ statement_of rows.old) }
    ensures untouched { rows.new ≡ rows.old }
{
    let mut out = String::new(heap);
    match check(rows) {
        Ok(()) => {
            let register = RowRegister::new(rows);
            write_statement(&mut out, &register, register.rows())?;
        }
        Err(fault) => write!(out, "{}", Refused(fault))?,
    }
    Ok(out)
}

// Reads one line: a row more, or one line more that is refused.
fn take_line(
    rows: &mut Vec<Row>,
    refused: &mut String,
    number: usize,
    line: &[u8],
) -> Result<(), AllocError>
    ensures { OnOk result (Line number line.now rows.old.items (string_bytes refused.old) rows.new.items (string_bytes refused.new)) }
{
    match read_row(line) {
        Ok(row) => rows.push(row)?,
        Err(Malformed { column }) => write!(refused, "{}", Unread { number, column })?,
    }
    Ok(())
}

// The answer to an input: the statement of the rows that its lines are, or the lines that are none.
pub fn report(heap: Global, input: &[u8]) -> Result<String, AllocError>
    ensures { IfOk result (λ s. Reported input.now (string_bytes s)) }
{
    let mut rows = Vec::new(heap);
    let mut refused = String::new(heap);
    for (i, line) in input.split_inclusive(|b| *b == b'\n').enumerate() {
        take_line(&mut rows, &mut refused, i + 1, line)?;
    }
    if !refused.is_empty() {
        return Ok(refused);
    }
    statement(heap, &mut rows)
}
