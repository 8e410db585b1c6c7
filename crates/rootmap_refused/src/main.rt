// The program rootmap, run on one.root with the segment 297 to 309.
#![tactic(auto)]

use std::io;

fn main(rt: HostRuntime) -> io::Result<()> {
    listing::run(&mut rt.stdin(), &mut rt.stdout())
}
