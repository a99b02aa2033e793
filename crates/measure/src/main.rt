// Works through storage and packs at full and at lesser size, and counts what came out right.
// With the argument `times` it also tells how long each part took.
#![tactic(auto)]

mod report;
mod tracks;
mod words;

use crate::report::Report;
use pack::plain_pack::open::{THREE_HEADS_BYTES, TWO_HEADS_BYTES};
use std::env;

fn run(rt: &HostRuntime) -> anyhow::Result<()> {
    let times = env::args(rt)?.any(|argument| argument.as_str() == "times");
    let report = Report { rt, times };
    for blocks in [16, 32] {
        words::each_make(&report, blocks)?;
    }
    for size in [TWO_HEADS_BYTES, THREE_HEADS_BYTES] {
        tracks::whole_pack(&report, size)?;
    }
    Ok(())
}

fn main(rt: HostRuntime) -> anyhow::Result<()> {
    run(&rt)
}
