// The program that plays a deck of exercise cards.
#![tactic(auto)]

use std::io;

fn main(rt: HostRuntime) -> io::Result<()> {
    play::deck(&mut rt.reader(), &mut io::writer(&rt))
}
