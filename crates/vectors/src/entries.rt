// One entry: what it says at its level, its rights, reading and marking it.
use address::PhysAddr;
use entry::mark::mark;
use entry::read::look;
use entry::{Entry, Says};
use std::io;
use std::io::Write;
use word::bytes::{load64, store64};

// Prints what an entry says at a level, with an M and NXE. Each piece of text is one write, with what stands round its words.
fn at(out: &mut impl Write, value: u64, level: u64, width: u64, nxe: bool) -> io::Result<()> {
    let entry = Entry { value, level };
    let clear = if nxe { "" } else { ", NXE clear" };
    write!(out, "entry {value:#x} at level {level}, M {width}{clear}: ")?;
    match entry.says(width, nxe) {
        Says::Missing => write!(out, "missing")?,
        Says::Reserved => write!(out, "reserved")?,
        Says::Table(address) => write!(out, "table {:#x}", address.0)?,
        Says::Page(address) => write!(out, "page {:#x}", address.0)?,
    }
    writeln!(out)
}

// Prints the rights of an entry by itself: they are the same at each level.
fn rights(out: &mut impl Write, value: u64) -> io::Result<()> {
    let entry = Entry { value, level: 1 };
    let rights = entry.own();
    write!(out, "entry {value:#x}: rights")?;
    for (weight, name) in [(1, " write"), (2, " user"), (4, " fetch")] {
        if rights & weight != 0 {
            write!(out, "{name}")?;
        }
    }
    writeln!(out)
}

// Prints the memory type index of an entry at a level.
fn kind(out: &mut impl Write, value: u64, level: u64) -> io::Result<()> {
    let entry = Entry { value, level };
    let index = entry.memory_type();
    writeln!(
        out,
        "entry {value:#x} at level {level}: memory type {index}"
    )
}

// Prints what a load found, and ends the line.
fn found(out: &mut impl Write, loaded: Option<u64>) -> io::Result<()> {
    match loaded {
        Some(value) => write!(out, "{value:#x}")?,
        None => write!(out, "outside")?,
    }
    writeln!(out)
}

// Prints an entry after it was marked.
fn marked(out: &mut impl Write, words: &str, entry: u64, dirty: bool) -> io::Result<()> {
    let mut memory = [0u8; 8];
    store64(&mut memory, 0, entry);
    mark(&mut memory, PhysAddr(0), dirty);
    write!(out, "entry {entry:#x}{words}")?;
    found(out, load64(&memory, 0))
}

// Prints the entry at an index of a table, in 16 bytes of which the last 8 hold 0x5007.
fn read(out: &mut impl Write, table: u64, index: u64) -> io::Result<()> {
    let mut memory = [0u8; 16];
    store64(&mut memory, 8, 0x5007);
    write!(out, "16 bytes, table {table:#x}, index {index}: ")?;
    found(out, look(&memory, PhysAddr(table), index))
}

// "PS at level 3 ends the walk with bits 51:30 as base, at level 2 with bits 51:21. At level 1 bit 7 is PAT.", "P clear at any level: fault"
fn plain(out: &mut impl Write) -> io::Result<()> {
    for (entry, level) in [
        (0x2007, 4),
        (0x3007, 3),
        (0x8000_0087, 3),
        (0x4007, 2),
        (0x80_0087, 2),
        (0x80_1087, 2),
        (0x5007, 1),
        (0x5087, 1),
        (0, 4),
    ] {
        at(out, entry, level, 40, true)?;
    }
    at(out, 0xffff_ffff_ffff_fffe, 1, 40, false)
}

// "Otherwise a reserved-bit fault. Bits 62:52 are ignored."
fn reserved(out: &mut impl Write) -> io::Result<()> {
    for (entry, level, width, nxe) in [
        (0x2087, 4, 40, true),
        (0x8000_2087, 3, 40, true),
        (0xa000_0087, 3, 40, true),
        (0x80_2087, 2, 40, true),
        (0x90_0087, 2, 40, true),
        (0x8000_0000_0000_7007, 1, 40, true),
        (0x8000_0000_0000_7007, 1, 40, false),
        (0x100_0000_8007, 1, 40, true),
        (0x100_0000_8007, 1, 41, true),
        (0x8_0000_0000_5007, 1, 52, true),
        (0x8_0000_0000_5007, 1, 51, true),
        (0x7ff0_0000_0000_5007, 1, 32, false),
    ] {
        at(out, entry, level, width, nxe)?;
    }
    Ok(())
}

// "P 0, R/W 1, U/S 2, A 5, D 6, ... XD 63"
fn bits(out: &mut impl Write) -> io::Result<()> {
    for entry in [0x5007, 0x6005, 0x2001, 0x8000_0000_0000_7007] {
        rights(out, entry)?;
    }
    marked(out, " read: ", 0x5007, false)?;
    marked(out, " written: ", 0x6005, true)?;
    marked(out, " written: ", 0x6065, true)
}

// "PWT (bit 3), PCD (bit 4) and PAT (bit 7 at level 1, bit 12 of a large page)"
fn kinds(out: &mut impl Write) -> io::Result<()> {
    for (entry, level) in [
        (0x500f, 1),
        (0x5017, 1),
        (0x5087, 1),
        (0x509f, 1),
        (0x80_0087, 2),
        (0x80_1087, 2),
        (0x80_1097, 2),
        (0x8000_108f, 3),
        (0x501f, 2),
    ] {
        kind(out, entry, level)?;
    }
    Ok(())
}

// "it is inside when its address plus 8 is at most the memory's length"
fn reads(out: &mut impl Write) -> io::Result<()> {
    for (table, index) in [
        (0, 0),
        (0, 1),
        (8, 0),
        (9, 0),
        (0, 2),
        (16, 0),
        (0xffff_ffff_ffff_f000, 1),
    ] {
        read(out, table, index)?;
    }
    Ok(())
}

// The examples of one entry.
pub(crate) fn all(out: &mut impl Write) -> io::Result<()> {
    plain(out)?;
    reserved(out)?;
    bits(out)?;
    kinds(out)?;
    reads(out)
}
