// The program rootmap, run on 32,769 bytes.
#![tactic(auto)]

use std::io;

fn main(rt: HostRuntime) -> io::Result<()> {
    listing::run(&mut rt.stdin(), &mut rt.stdout())
}
