// Plays the script on standard input and prints its lines.
#![tactic(auto)]

use player::printed;
use std::io;
use std::io::Read;

fn main(rt: HostRuntime) -> io::Result<()> {
    let mut bytes = Vec::new(rt.alloc());
    rt.stdin().read_to_end(&mut bytes)?;
    let page = printed(&bytes, rt.alloc())?;
    print!(rt; "{page}")
}
