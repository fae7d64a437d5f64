// What the writer gathers and passes on.
ghost use Rattle.std.specs.Prelude.{◌+◌, ◌≤◌, ◌≡◌, OnOk, length};
ghost use Rattle.std.specs.Io.KnownBytes.{Appends, Keeps};
ghost use Rattle.play.specs.Output as spec;
ghost use Rattle.play.specs.declared.gathered.TheConstants.{ROOM};

use super::{Gathered, ROOM};
use std::io;
use std::io::Write;

impl<W: Write> Gathered<W> {
    // Nothing is gathered yet.
    pub(crate) fn new(output: W) -> Gathered<W>
        ensures { Keeps (W.contents output) (spec.given W.contents result) }
    {
        Gathered {
            output,
            text: [0u8; ROOM],
            used: 0,
        }
    }

    // Passes on what is gathered.
    pub(crate) fn pass_on(&mut self) -> io::Result<()>
        ensures passed { OnOk result (Keeps (spec.given W.contents self.old) (W.contents self.new.output)) }
        ensures none { OnOk result (self.new.used ≡ 0) }
    {
        self.output.write_all(&self.text[..self.used])?;
        self.used = 0;
        Ok(())
    }

    // Passes on what is gathered, and then bytes that have no room beside it; set apart, so that what each line does is small.
    #[cold]
    #[inline(never)]
    fn pass_on_with(&mut self, bytes: &[u8]) -> io::Result<()>
        ensures { OnOk result (Appends (spec.given W.contents self.old) (spec.given W.contents self.new) bytes.now) }
    {
        self.pass_on()?;
        self.output.write_all(bytes)
    }

    // Gathers bytes that have room.
    #[inline(always)]
    fn gather(&mut self, bytes: &[u8])
        requires { self.old.used + length bytes.now ≤ ROOM }
        ensures { Appends (spec.given W.contents self.old) (spec.given W.contents self.new) bytes.now }
    {
        let end = self.used + bytes.len();
        self.text[self.used..end].copy_from_slice(bytes);
        self.used = end;
    }
}

impl<W: Write> Write for Gathered<W> {
    ghost contents = { spec.given W.contents };

    // Takes what has room; where none is left, nothing.
    fn write(&mut self, bytes: &[u8]) -> io::Result<usize> {
        let count = bytes.len().min(ROOM - self.used);
        self.gather(&bytes[..count]);
        Ok(count)
    }

    // Leaves what is gathered to `pass_on`: a flush owes, by std's law, that a failure loses no byte.
    fn flush(&mut self) -> io::Result<()> {
        Ok(())
    }

    #[inline(always)]
    fn write_all(&mut self, bytes: &[u8]) -> io::Result<()> {
        if ROOM - self.used < bytes.len() {
            return self.pass_on_with(bytes);
        }
        self.gather(bytes);
        Ok(())
    }
}
