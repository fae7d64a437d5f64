// The second program's walks: records from standard input, a line for each to standard output.
#![tactic(auto)]

ghost use Rattle.std.specs.Prelude.{◌≤◌};

use crate::line::{print_answer, print_changes};
use crate::record::Record;
use std::io;
use std::io::{Read, Write};

mod line;
mod record;

// The most bytes of memory that a record may ask for.
const MOST: usize = 32768;

// Walks as a record asks, and prints its line: memory is laid out twice, so that one is left as it was.
fn walk_record(out: &mut impl Write, count: u64, record: &Record, wanted: usize) -> io::Result<()>
    requires { wanted ≤ MOST }
{
    let mut before = [0u8; MOST];
    let mut memory = [0u8; MOST];
    record.lay_out(&mut before[..wanted]);
    print_answer(out, count, record.ask(&mut memory[..wanted]))?;
    print_changes(out, &before[..wanted], &memory[..wanted])?;
    out.write_all(b"\n")
}

// Reads one record and walks; gives whether there was one, and one that can be walked.
fn one_record(input: &mut impl Read, out: &mut impl Write, count: u64) -> io::Result<bool> {
    let Some(record) = Record::read(input)? else {
        return Ok(false);
    };
    let wanted = record.memory_length();
    if MOST < wanted {
        return Ok(false);
    }
    walk_record(out, count, &record, wanted)?;
    Ok(true)
}

fn main(rt: HostRuntime) -> io::Result<()> {
    let mut input = rt.reader();
    let mut out = io::writer(&rt);
    for count in 1..=u64::MAX {
        if !one_record(&mut input, &mut out, count)? {
            break;
        }
    }
    Ok(())
}
