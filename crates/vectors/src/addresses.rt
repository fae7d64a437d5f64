// One address: canonical form, splitting, the named sums.
use address::{PhysAddr, VirtAddr};
use std::io;
use std::io::Write;

// Prints what a virtual address is made of: its form, the index at each level, the offset in a page of each size, the tag.
fn split(out: &mut impl Write, plain: u64) -> io::Result<()> {
    let address = VirtAddr(plain);
    let form = if address.canonical() {
        ": canonical"
    } else {
        ": not canonical"
    };
    write!(out, "address {plain:#x}{form}, indexes")?;
    for level in (1..=4).rev() {
        write!(out, " {}", address.index(level))?;
    }
    write!(out, ", offsets")?;
    for size in 1..=3 {
        write!(out, " {:#x}", address.offset(size))?;
    }
    writeln!(out, ", tag {:#x}", address.tag())
}

// Prints the frame of a physical address.
fn frame(out: &mut impl Write, plain: u64) -> io::Result<()> {
    let frame = PhysAddr(plain).frame();
    writeln!(out, "physical address {plain:#x}: frame {:#x}", frame.0)
}

// The examples of one address.
pub(crate) fn all(out: &mut impl Write) -> io::Result<()> {
    for plain in [
        0x40_3abc,
        0x61_2345,
        0x5234_5678,
        0x80_8000_0000,
        0x7fff_ffff_ffff,
        0x8000_0000_0000,
        0xffff_7fff_ffff_ffff,
        0xffff_8000_0000_0000,
        0xffff_ffff_ffff_ffff,
    ] {
        split(out, plain)?;
    }
    frame(out, 0x5abc)
}
