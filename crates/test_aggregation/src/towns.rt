//! Rows of towns, each with a number, and queries over them, for tests of what groups them.

ghost use Rattle.std.specs.Prelude.{◌≡◌, List, length, IfOk};
ghost use Rattle.grouping_model.specs.Datum.{Row};
ghost use Rattle.having_filter.specs.Meaning.{meaning};
ghost use Rattle.hash_agg.specs.Inputs.{ArePackings};

use batch_reader::{PackedRows, build_batch};
use csv::ByteRecord;
use group_parser::parse;
use having_filter::Query;
use packed_rows::Schema;
use std::test::*;

/// The columns of most tests.
pub const COLUMNS: &str = "c text, d bigint";

/// The count and the sum of each town.
pub const TOWNS: &str = "SELECT c, count(*), sum(d) FROM batches GROUP BY c";

/// A query over some columns.
pub fn query(rt: HostRuntime, columns: &str, text: &str) -> Result<Query, Fail> {
    let schema = Schema::parse(rt.alloc(), columns)?;
    let parsed = parse(rt.alloc(), &schema, text);
    drop(schema);
    match parsed {
        Ok(query) => Ok(query),
        Err(error) => Err(Fail::from(error)),
    }
}

/// Lines `k0000,0` and on for so many towns, with a mark behind each. The names have five digits where there are more than 10,000.
pub fn lines(rt: HostRuntime, towns: u32, mark: &str) -> Result<String, Fail> {
    let mut lines = String::new(rt.alloc());
    for town in 0..towns {
        let line = if towns > 10_000 {
            format!(in rt.alloc(); "k{town:05},{town}{mark}")
        } else {
            format!(in rt.alloc(); "k{town:04},{town}{mark}")
        };
        lines.push_str(&line?)?;
    }
    Ok(lines)
}

/// A record of fields that a comma parts.
fn csv_record(rt: HostRuntime, line: &str) -> Result<ByteRecord, Fail> {
    let mut fields = ByteRecord::new(rt.alloc());
    for field in line.split(',') {
        fields.push_field(field.as_bytes())?;
    }
    Ok(fields)
}

/// Records with a `;` between them.
pub fn records(rt: HostRuntime, lines: &str) -> Result<Vec<ByteRecord>, Fail> {
    let mut records = Vec::new(rt.alloc());
    for line in lines.split_terminator(';') {
        records.push(csv_record(rt, line)?)?;
    }
    Ok(records)
}

/// So many rows of the query's table, packed.
pub fn packed(rt: HostRuntime, query: &Query, told: u32, lines: &str) -> Result<PackedRows, Fail>
    ensures { IfOk result (λ packed. (rows : List Row)
        × ArePackings (meaning query.now).kinds packed rows
        × (length packed ≡ told)) }
{
    let records = records(rt, lines)?;
    let batch = build_batch(rt.alloc(), query.schema(), b"0", b"1", told, &records)?;
    Ok(batch.rows)
}
