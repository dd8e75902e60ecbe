// Plays a script of writes on a frame, and prints the answers and the rows.

#![tactic(auto)]

mod fault;
mod play;
mod styles;

use std::env;
use std::io::Read;

const HELP: &str =
    "usage: rows < SCRIPT: lines `script NAME`, `size W H`, `write STYLE HEX`, `mark N`, `finish`";

fn run(rt: &HostRuntime) -> anyhow::Result<()> {
    if env::args(rt)?.count() > 1 {
        rt.println(HELP)?;
        return Ok(());
    }
    let heap = rt.alloc();
    let mut input = Vec::new(heap);
    rt.stdin().read_to_end(&mut input)?;
    // A byte that is no text becomes a character that no line of a script has.
    let script = String::from_utf8_lossy(heap, input.as_slice())?;
    rt.print(play::answers(heap, script.as_str())?)?;
    Ok(())
}

fn main(rt: HostRuntime) -> anyhow::Result<()> {
    run(&rt)
}
