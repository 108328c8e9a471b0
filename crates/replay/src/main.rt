// Replays a fixed sample of lists: what this library answers must be, byte for byte, what the Rust original answered (docs/DIFFERENCES.md tells how
// the file `stdout` beside this folder was made from the original).
#![tactic(auto)]

use transcript::run_lists;

fn main(rt: HostRuntime) -> anyhow::Result<()> {
    Ok(run_lists(&rt)?)
}
