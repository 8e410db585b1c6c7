// The program rootmap, run on the longest input that it takes: a wide file of 32,768 bytes with narrow and wide records.
#![tactic(auto)]

use std::io;

fn main(rt: HostRuntime) -> io::Result<()> {
    listing::run(&mut rt.stdin(), &mut rt.stdout())
}
