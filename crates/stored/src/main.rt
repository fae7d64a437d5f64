// The deck program once more, since the gate runs a program on one input alone: a deck of the second program's in stdin, its lines in stdout.
#![tactic(auto)]

use std::io;

fn main(rt: HostRuntime) -> io::Result<()> {
    play::deck(&mut rt.reader(), &mut io::writer(&rt))
}
