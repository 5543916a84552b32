// The bench on the three records of document 01's example.
#![tactic(auto)]

use std::io;

fn main(rt: HostRuntime) -> io::Result<()> {
    bench_run::run(&rt)
}
