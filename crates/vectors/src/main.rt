// Replays stored answers: those of the Rust, answers made by hand for sequences that CAN and SUB end, and published
// vectors of FNV-1a.

#![tactic(auto)]

mod fnv;
mod frames;
mod pieces;

use anyhow::anyhow;
use std::fs;

// Prints each line that does not agree, and then how many do.
fn replay<F: Fn(&str) -> anyhow::Result<bool>>(
    rt: &HostRuntime,
    name: &str,
    file: &str,
    agrees: F,
) -> anyhow::Result<bool>
    requires { F.IsAlwaysCallable agrees }
{
    let text = fs::read_to_string(rt, file)?;
    let mut right = 0usize;
    for (number, line) in text.as_str().lines().enumerate() {
        if agrees(line)? {
            right = right.saturating_add(1);
        } else {
            let number = number.saturating_add(1);
            println!(rt; "{name} {number}: {line}")?;
        }
    }
    let lines = text.as_str().lines().count();
    println!(rt; "{name}: {right} of {lines} agree")?;
    Ok(right == lines)
}

fn run(rt: &HostRuntime) -> anyhow::Result<()> {
    let heap = rt.alloc();
    let agree = [
        replay(
            rt,
            "pieces",
            "pieces.txt",
            |line| pieces::agrees(heap, line),
        )?,
        replay(
            rt,
            "cancel",
            "cancel.txt",
            |line| pieces::agrees(heap, line),
        )?,
        replay(
            rt,
            "frames",
            "frames.txt",
            |line| frames::agrees(heap, line),
        )?,
        replay(rt, "fnv", "fnv.txt", |line| fnv::agrees(heap, line))?,
    ];
    if agree.contains(&false) {
        Err(anyhow!("some stored answers differ"))
    } else {
        Ok(())
    }
}

fn main(rt: HostRuntime) -> anyhow::Result<()> {
    run(&rt)
}
