// The exercises with known results and examples beside them, each on fresh memory, with the entries that it changes.
use crate::records::EXERCISES;
use address::VirtAddr;
use settings::Settings;
use std::io::Write;
use std::{fmt, io};
use walk::Numbers;
use walk::translate::translate;
use word::bytes::{load64, store64};

// "Access is 0 read, 1 write, 2 fetch; mode is 0 supervisor, 1 user." Numbers and no enum, as the examples ask with others too.
const READ: u64 = 0;

const WRITE: u64 = 1;

const FETCH: u64 = 2;

const SUPERVISOR: u64 = 0;

const USER: u64 = 1;

// The exercises' settings with WP = 0.
const WP_CLEAR: Settings = Settings {
    cr0: 0x8000_0001,
    ..EXERCISES
};

// The exercises' settings with NXE = 0.
const NXE_CLEAR: Settings = Settings {
    efer: 0x100,
    ..EXERCISES
};

// The exercises' entries, each at its address.
const ENTRIES: [(usize, u64); 13] = [
    (0x1000, 0x2007),
    (0x1008, 0x2005),
    (0x2000, 0x3007),
    (0x2008, 0x8000_0087),
    (0x2018, 0x9007),
    (0x3010, 0x4007),
    (0x3018, 0x80_0087),
    (0x3020, 0x80_2087),
    (0x3028, 0x80_1087),
    (0x4018, 0x5007),
    (0x4030, 0x6005),
    (0x4038, 0x8000_0000_0000_7007),
    (0x4040, 0x100_0000_8007),
];

// One entry that names its own table, and so is read at every level.
const ROUND: [(usize, u64); 1] = [(0x1000, 0x1007)];

// A question, under settings, with words on what is particular to it.
#[derive(Clone, Copy)]
struct Question {
    words: &'static str,
    settings: Settings,
    mode: u64,
    access: u64,
    address: u64,
}

impl fmt::Display for Question {
    fn fmt<W: fmt::Write>(&self, f: &mut fmt::Formatter<W>) -> fmt::Result {
        match self.mode {
            SUPERVISOR => write!(f, "supervisor ")?,
            USER => write!(f, "user ")?,
            mode => write!(f, "mode {mode} ")?,
        }
        match self.access {
            READ => write!(f, "read ")?,
            WRITE => write!(f, "write ")?,
            FETCH => write!(f, "fetch ")?,
            access => write!(f, "access {access} ")?,
        }
        write!(f, "{:#x}{}", self.address, self.words)
    }
}

// The first exercise's question, under the exercises' settings.
const FIRST: Question = Question {
    words: "",
    settings: EXERCISES,
    mode: USER,
    access: READ,
    address: 0x40_3abc,
};

// A question under the exercises' settings.
fn usual(mode: u64, access: u64, address: u64) -> Question {
    Question {
        mode,
        access,
        address,
        ..FIRST
    }
}

// A question under other settings, with words on them.
fn under(words: &'static str, settings: Settings, question: Question) -> Question {
    Question {
        words,
        settings,
        ..question
    }
}

// Prints an entry's new value, where it is not as it was.
fn changed(out: &mut impl Write, memory: &[u8], at: usize, was: u64) -> io::Result<()> {
    match load64(memory, at) {
        Some(is) if is == was => Ok(()),
        Some(is) => write!(out, "; {at:#x} becomes {is:#x}"),
        None => write!(out, "; outside"),
    }
}

// Prints a question, its answer on memory with some entries, and the entries that changed.
fn ask(
    out: &mut impl Write,
    memory: &mut [u8],
    entries: &[(usize, u64)],
    question: Question,
) -> io::Result<()> {
    for (at, entry) in entries {
        store64(memory, *at, *entry);
    }
    let told = Numbers::from(translate(
        memory,
        question.settings,
        VirtAddr(question.address),
        question.access,
        question.mode,
    ));
    write!(
        out,
        "{question}: answer {}, value {:#x}",
        told.answer, told.value
    )?;
    write!(out, ", detail {}, reads {}", told.detail, told.reads)?;
    write!(out, ", memory type {}", told.memory_type)?;
    for (at, entry) in entries {
        changed(out, memory, *at, *entry)?;
    }
    writeln!(out)
}

// Prints questions, each on fresh memory with the exercises' entries. A frame of its own: the stack has one such memory at a time.
#[inline(never)]
fn ask_all(out: &mut impl Write, questions: &[Question]) -> io::Result<()> {
    for question in questions {
        ask(out, &mut [0u8; 32768], &ENTRIES, *question)?;
    }
    Ok(())
}

// The starred exercises that end at a page.
fn given() -> [Question; 6] {
    let wide = Settings {
        width: 41,
        ..EXERCISES
    };
    [
        FIRST,
        usual(USER, READ, 0x61_2345),
        usual(USER, READ, 0x5234_5678),
        usual(USER, READ, 0xa0_0010),
        under(", WP 0", WP_CLEAR, usual(SUPERVISOR, WRITE, 0x40_6000)),
        under(", M 41", wide, usual(SUPERVISOR, READ, 0x40_8000)),
    ]
}

// The starred exercises that end in a refusal.
fn refused() -> [Question; 12] {
    [
        usual(USER, READ, 0x80_0000),
        usual(USER, WRITE, 0x40_6000),
        usual(SUPERVISOR, WRITE, 0x40_6000),
        usual(USER, WRITE, 0x80_8000_0000),
        usual(USER, FETCH, 0x40_7000),
        under(", NXE 0", NXE_CLEAR, usual(USER, READ, 0x40_7000)),
        usual(SUPERVISOR, READ, 0x40_8000),
        usual(SUPERVISOR, READ, 0xffff_8000_0000_0000),
        usual(SUPERVISOR, READ, 0xc000_0000),
        usual(USER, READ, 0xc000_0000),
        usual(SUPERVISOR, READ, 0x8000_0000_0000),
        usual(USER, FETCH, 0x8000_0000_0000),
    ]
}

// "unless the mode is supervisor and WP = 0", "needs R/W in all", "the highest level whose own entry lacks any needed right"
fn rights() -> [Question; 5] {
    [
        under(", WP 0", WP_CLEAR, usual(USER, WRITE, 0x40_6000)),
        usual(USER, READ, 0x80_0040_3abc),
        usual(USER, WRITE, 0x80_0040_3abc),
        usual(USER, WRITE, 0x80_0040_6000),
        usual(USER, FETCH, 0x80_0040_7000),
    ]
}

// "Bit 4 is set exactly for a fetch with NXE = 1."
fn fetches() -> [Question; 3] {
    [
        usual(USER, FETCH, 0x40_0000),
        under(", NXE 0", NXE_CLEAR, usual(USER, FETCH, 0x40_0000)),
        under(", NXE 0", NXE_CLEAR, usual(USER, FETCH, 0x40_7000)),
    ]
}

// "M 31 and 53: answer 2; 32 (with root 0x1000) and 52 served"
fn widths() -> [Question; 4] {
    [
        (", M 31", 31),
        (", M 32", 32),
        (", M 52", 52),
        (", M 53", 53),
    ]
    .map(|(words, width)| under(words, Settings { width, ..EXERCISES }, FIRST))
}

// "tested in this order: 1, 2, 3", and "Paging off"
fn tested() -> [Question; 5] {
    let narrow = Settings {
        width: 31,
        ..EXERCISES
    };
    let beyond = under(", M 31", narrow, usual(USER, READ, 0x8000_0000_0000));
    let off = under(
        ", paging off",
        Settings::initial(),
        usual(USER, WRITE, 0xffff_ffff),
    );
    [
        Question {
            access: 3,
            ..beyond
        },
        Question { mode: 2, ..beyond },
        beyond,
        off,
        Question {
            address: 0x1_0000_0000,
            ..off
        },
    ]
}

// "and CR4 bits 12 [..] and 20 to 24 clear. With PG = 0 no other bit is tested."; "Serve CR4 bit 17", but not "with paging off"
fn extensions() -> [Question; 9] {
    let off = Settings::initial();
    [
        (", CR4 bit 12 set", EXERCISES, 0x1020),
        (", CR4 bit 17 set", EXERCISES, 0x2_0020),
        (", CR4 bit 20 set", EXERCISES, 0x10_0020),
        (", CR4 bit 21 set", EXERCISES, 0x20_0020),
        (", CR4 bit 22 set", EXERCISES, 0x40_0020),
        (", CR4 bit 23 set", EXERCISES, 0x80_0020),
        (", CR4 bit 24 set", EXERCISES, 0x100_0020),
        (", paging off, CR4 bits 12, 20 to 24 set", off, 0x1f0_1000),
        (", paging off, CR4 bit 17 set", off, 0x2_0000),
    ]
    .map(|(words, settings, cr4)| under(words, Settings { cr4, ..settings }, FIRST))
}

// Two walks over one table at every level. A frame of its own, as above.
#[inline(never)]
fn one_table(out: &mut impl Write) -> io::Result<()> {
    for access in [READ, WRITE] {
        let words = ", one table at every level";
        let question = under(words, EXERCISES, usual(USER, access, 0xabc));
        ask(out, &mut [0u8; 8192], &ROUND, question)?;
    }
    Ok(())
}

// Every exercise, and two walks over one table at every level.
pub(crate) fn all(out: &mut impl Write) -> io::Result<()> {
    ask_all(out, &given())?;
    ask_all(out, &refused())?;
    ask_all(out, &rights())?;
    ask_all(out, &fetches())?;
    ask_all(out, &widths())?;
    ask_all(out, &tested())?;
    ask_all(out, &extensions())?;
    one_table(out)
}
