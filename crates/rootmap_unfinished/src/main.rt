// The program rootmap, run on a file of 1,025 pieces.
#![tactic(auto)]

use std::io;

fn main(rt: HostRuntime) -> io::Result<()> {
    listing::run(&mut rt.stdin(), &mut rt.stdout())
}
