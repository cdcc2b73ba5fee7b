// Rows read from lines.
ghost use Rattle.std.specs.Result.{MatchResult};
ghost use Rattle.text.specs.Columns.{Only, Column};
ghost use Rattle.statements.specs.Rows.{RowLine};

use register::holding::Row;
use text::form::{Form, Malformed};
use text::reader::{NumberEnd, Reader};

// Lines that are rows.
pub struct RowLines;

impl Form for RowLines {
    type Value = Row;

    ghost spells = { RowLine };
}

// The row that a line is, or the column at which it stops being one.
pub fn read_row(line: &[u8]) -> Result<Row, Malformed>
    ensures { MatchResult result (λ c. Only RowLine line.now c) (λ e. Column RowLine line.now e.column) }
{
    let mut reader = Reader::new(line);
    reader.literal::<RowLines>(b"(row ")?;
    let account = reader.number::<RowLines>(NumberEnd::Space)?;
    let issue = reader.number::<RowLines>(NumberEnd::Space)?;
    let free = reader.number::<RowLines>(NumberEnd::Space)?;
    let held = reader.number::<RowLines>(NumberEnd::Close)?;
    reader.literal::<RowLines>(b"\n")?;
    reader.end::<RowLines>(Row {
        account,
        issue,
        free,
        held,
    })
}
