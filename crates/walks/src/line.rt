// The line of one walk.
ghost use Rattle.std.specs.Prelude.{◌++◌, OnOk, codes, decimal};
ghost use Rattle.std.specs.Io.KnownBytes.{Appends};
ghost use Rattle.walk.specs.Print.{text};

use std::io;
use std::io::Write;
use walk::Numbers;

// The bytes that are compared at once.
const PART: usize = 64;

// Prints the record's number and the answer's five.
pub(crate) fn print_answer<W: Write>(out: &mut W, count: u64, numbers: Numbers) -> io::Result<()>
    ensures { OnOk result (Appends (W.contents out.old) (W.contents out.new) (decimal count ++ codes " " ++ text numbers)) }
{
    write!(out, "{count} {numbers}")
}

// Prints each byte that differs, in rising order: its offset and what it is now. Equal parts are passed over whole.
pub(crate) fn print_changes(out: &mut impl Write, before: &[u8], after: &[u8]) -> io::Result<()> {
    let parts = before.chunks(PART).zip(after.chunks(PART));
    for (start, (old, new)) in (0..before.len()).step_by(PART).zip(parts) {
        if old != new {
            for (at, (was, is)) in (start..before.len()).zip(old.iter().zip(new)) {
                if was != is {
                    write!(out, " {at}:{is:02x}")?;
                }
            }
        }
    }
    Ok(())
}
