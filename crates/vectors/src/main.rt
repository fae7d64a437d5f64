// Runs document 01's examples of one settings record, one address and one entry, and its exercises, a line each.
#![tactic(auto)]

use std::io;

mod addresses;
mod entries;
mod records;
mod walks;

fn main(rt: HostRuntime) -> io::Result<()> {
    let mut out = io::writer(&rt);
    records::all(&mut out)?;
    addresses::all(&mut out)?;
    entries::all(&mut out)?;
    walks::all(&mut out)
}
