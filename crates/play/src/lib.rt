// Playing a deck of exercise cards: cards in on standard input, a line for each out.
#![tactic(auto)]

ghost use Rattle.std.specs.Prelude.{◌≡◌, ◌+◌, ◌*◌, ◌^◌, ◌<◌, ◌≤◌, OnOk, length};
ghost use Rattle.std.specs.Io.KnownBytes.{Appends};
ghost use Rattle.play.specs.Output as spec;
ghost use Rattle.play.specs.declared.TheConstants.{CARD, CARDS, LINE};

use crate::gathered::Gathered;
use crate::input::read_full;
use card::lent::step;
use machine::Machine;
use settings::Settings;
use std::io;
use std::io::{Read, Write};
use walk::Numbers;

mod gathered;
mod input;

// The bytes of guest memory.
const MEMORY: usize = 32768;

// The bytes of a card.
const CARD: usize = 32;

// The cards that are read and played at once.
const CARDS: usize = 128;

// The bytes that a line takes at most.
const LINE: usize = 122;

// Writes the line of one card: its number and the answer's five.
fn write_line<W: Write>(output: &mut W, number: u64, numbers: Numbers) -> io::Result<()>
    ensures written { OnOk result (Appends (W.contents output.old) (W.contents output.new) (spec.line number numbers)) }
    ensures short { length (spec.line number numbers) ≤ LINE }
{
    writeln!(output, "{number} {numbers}")
}

// A board: the machine and its guest memory.
#[derive(Drop)]
struct Board {
    machine: Machine,
    memory: [u8; MEMORY],
}

impl Board {
    // Memory of zeros, registers 0 and M = 40.
    fn start() -> Board {
        let started = Machine::start(Settings::initial());
        Board {
            machine: started.machine,
            memory: [0u8; MEMORY],
        }
    }

    // Plays some cards, the last of which may be short, and writes their lines, numbered from `first`.
    fn play(&mut self, cards: &[u8], first: u64, output: &mut impl Write) -> io::Result<()>
        requires block { length cards.now ≤ CARD * CARDS }
        requires numbers { first + CARDS < 2 ^ 64 }
    {
        for (number, card) in (first..).zip(cards.chunks(CARD)) {
            let numbers = step(&mut self.machine, &mut self.memory, card);
            write_line(output, number, numbers)?;
        }
        Ok(())
    }
}

// Reads some cards and plays them, those before a failed read too; gives whether more can follow. "The deck is standard input."; "an empty deck prints nothing".
fn read<W: Write>(
    input: &mut impl Read,
    output: &mut Gathered<W>,
    board: &mut Board,
    first: u64,
) -> io::Result<bool>
    requires { first + CARDS < 2 ^ 64 }
    ensures { OnOk result (output.new.used ≡ 0) }
{
    let mut cards = [0u8; CARD * CARDS];
    let block = read_full(input, &mut cards);
    board.play(block.bytes, first, output)?;
    output.pass_on()?;
    block.read?;
    Ok(block.bytes.len() == CARD * CARDS)
}

// Plays a deck; the cards' numbers end where no deck does.
pub fn deck<R: Read, W: Write>(input: &mut R, output: &mut W) -> io::Result<()> {
    let mut board = Board::start();
    let mut lines = Gathered::new(output);
    for first in (1..u64::MAX - 256).step_by(CARDS) {
        if !read(input, &mut lines, &mut board, first)? {
            break;
        }
    }
    Ok(())
}
