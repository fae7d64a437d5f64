// One settings record: what is served, and the root.
use settings::Settings;
use std::io;
use std::io::Write;

// The exercises' settings: "CR0 0x80010001, CR4 0x20, EFER 0x900, root 0x1000", with M 40.
pub(crate) const EXERCISES: Settings = Settings {
    cr0: 0x8001_0001,
    cr3: 0x1000,
    cr4: 0x20,
    efer: 0x900,
    width: 40,
};

// The exercises' settings with PE clear.
const PE_CLEAR: Settings = Settings {
    cr0: 0x8001_0000,
    ..EXERCISES
};

// Prints whether a record is served, or the number with which it is refused.
fn judge(out: &mut impl Write, words: &str, settings: Settings) -> io::Result<()> {
    match settings.judge() {
        Ok(()) => writeln!(out, "{words}: served"),
        Err(why) => writeln!(out, "{words}: {}", why.number()),
    }
}

// Prints the root of a record.
fn root(out: &mut impl Write, words: &str, settings: Settings) -> io::Result<()> {
    let root = settings.root();
    writeln!(out, "{words}: root {:#x}", root.0)
}

// "M from 32 to 52, CR3 below 2^M"
fn widths(out: &mut impl Write) -> io::Result<()> {
    for (words, width, cr3) in [
        ("M 31", 31, 0x1000),
        ("M 32, root 0x1000", 32, 0x1000),
        ("M 52", 52, 0x1000),
        ("M 53", 53, 0x1000),
        ("M 32, CR3 0xffffffff", 32, 0xffff_ffff),
        ("M 32, CR3 0x100000000", 32, 0x1_0000_0000),
    ] {
        let settings = Settings {
            width,
            cr3,
            ..EXERCISES
        };
        judge(out, words, settings)?;
    }
    Ok(())
}

// "and, when PG = 1, PE = PAE = LME = 1"
fn enabled(out: &mut impl Write) -> io::Result<()> {
    let pae_clear = Settings {
        cr4: 0,
        ..EXERCISES
    };
    let lme_clear = Settings {
        efer: 0x800,
        ..EXERCISES
    };
    judge(out, "the exercises' settings", EXERCISES)?;
    judge(out, "PE clear", PE_CLEAR)?;
    judge(out, "PAE clear", pae_clear)?;
    judge(out, "LME clear", lme_clear)
}

// The first that applies is told: the width, then the root, then PE, then CR4's bits.
fn ordered(out: &mut impl Write) -> io::Result<()> {
    for (words, settings, width, cr3) in [
        ("M 64, CR3 2^63", EXERCISES, 64, 1 << 63),
        ("M 31, CR3 2^31", Settings::initial(), 31, 1 << 31),
        ("M 32, CR3 2^32, PE clear", PE_CLEAR, 32, 1 << 32),
    ] {
        let settings = Settings {
            width,
            cr3,
            ..settings
        };
        judge(out, words, settings)?;
    }
    let extended = Settings {
        cr4: 0x10_0020,
        ..PE_CLEAR
    };
    judge(out, "PE clear, CR4 bit 20 set", extended)
}

// "and CR4 bits 12 [..] and 20 to 24 clear. With PG = 0 no other bit is tested."; "Serve CR4 bit 17", but not "with paging off"
fn extensions(out: &mut impl Write) -> io::Result<()> {
    let off = Settings::initial();
    for (words, settings, cr4) in [
        ("CR4 bit 12 set", EXERCISES, 0x1020),
        ("CR4 bit 17 set", EXERCISES, 0x2_0020),
        ("CR4 bit 19 set", EXERCISES, 0x8_0020),
        ("CR4 bit 20 set", EXERCISES, 0x10_0020),
        ("CR4 bit 24 set", EXERCISES, 0x100_0020),
        ("CR4 bit 25 set", EXERCISES, 0x200_0020),
        ("PG clear, CR4 bits 12, 20 to 24 set", off, 0x1f0_1000),
        ("PG clear, CR4 bit 17 set", off, 0x2_0000),
        ("CR4 bits 17 and 20 set", EXERCISES, 0x12_0020),
        ("all registers 0, M 40", off, 0),
    ] {
        judge(out, words, Settings { cr4, ..settings })?;
    }
    Ok(())
}

// The examples of one settings record; "The low 12 bits of CR3 do not count; the rest is the root."
pub(crate) fn all(out: &mut impl Write) -> io::Result<()> {
    widths(out)?;
    enabled(out)?;
    ordered(out)?;
    extensions(out)?;
    let off = Settings::initial();
    for (words, cr3) in [("CR3 0x1000", 0x1000), ("CR3 0x1fff", 0x1fff)] {
        root(out, words, Settings { cr3, ..off })?;
    }
    Ok(())
}
