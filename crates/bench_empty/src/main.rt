// The bench on no input at all. Its code is that of `bench`: a program has one stored input, so each input is a program.
#![tactic(auto)]

use std::io;

fn main(rt: HostRuntime) -> io::Result<()> {
    bench_run::run(&rt)
}
