// Rounds of work, timed.
use anyhow::anyhow;
use std::time::Instant;

// A checksum with a number more.
pub(crate) fn mixed(sum: u64, n: u64) -> u64 {
    sum.wrapping_mul(31).wrapping_add(n)
}

// The time of the fastest round in nanoseconds, none where there is no round. Each round has this answer.
pub(crate) fn fastest<T: PartialEq + Drop, F: FnMut() -> T>(
    rt: &HostRuntime,
    rounds: u32,
    answer: T,
    mut round: F,
) -> anyhow::Result<Option<u128>>
    requires { F.IsAlwaysCallable round }
{
    let mut least = None;
    for _ in 0..rounds {
        let start = Instant::now(rt)?;
        let again = round();
        let time = start.elapsed(rt)?.as_nanos();
        if again != answer {
            return Err(anyhow!("two rounds differ"));
        }
        least = Some(least.map_or(time, |least: u128| least.min(time)));
    }
    Ok(least)
}

pub(crate) fn report(
    rt: &HostRuntime,
    name: &str,
    sum: u64,
    least: Option<u128>,
) -> anyhow::Result<()> {
    match least {
        Some(least) => println!(rt; "{name} {sum} {least}")?,
        None => println!(rt; "{name} {sum}")?,
    }
    Ok(())
}
