// Times the reading of a text into pieces, and its writing to a frame.

#![tactic(auto)]

mod rounds;
mod writes;

use ansi::{AnsiAware, AnsiAwareChars, AnsiStrippable, Piece};
use rounds::{fastest, mixed, report};
use std::{env, fs};

// One more than the last code point, so that an escape sequence counts as no character does.
const ESCAPE: u64 = 0x11_0000;

// The sums are calls of their own: where a loop of few instructions stands in a program decides its time by up to twice, and
// so it does not hang on what calls it.
#[inline(never)]
fn sum_of(pieces: AnsiAwareChars) -> u64 {
    pieces.fold(0, |sum, piece| match piece {
        Piece::Escape { text, .. } => mixed(sum, ESCAPE.wrapping_add(text.len() as u64)),
        Piece::Char(c) => mixed(sum, u64::from(u32::from(c))),
    })
}

#[inline(never)]
fn pieces_sum(text: &str) -> u64 {
    sum_of(text.ansi_aware_chars())
}

#[inline(never)]
fn stripped_sum(text: &str) -> u64 {
    text.ansi_stripped_chars()
        .fold(0, |sum, c| mixed(sum, u64::from(u32::from(c))))
}

// A match and no map_or, with which plain text takes 11 in 100 longer.
#[inline(never)]
fn checked_sum(text: &str) -> u64 {
    match AnsiAwareChars::new(text.as_bytes()) {
        Ok(pieces) => sum_of(pieces),
        Err(_) => 0,
    }
}

// Prints the checksum, and the time of the fastest round if there are any.
fn measure<F: Fn(&str) -> u64>(
    rt: &HostRuntime,
    name: &str,
    round: F,
    text: &str,
    rounds: u32,
) -> anyhow::Result<()>
    requires { F.IsAlwaysCallable round }
{
    let sum = round(text);
    let least = fastest(rt, rounds, sum, || round(text))?;
    report(rt, name, sum, least)
}

const HELP: &str =
    "usage: bench FILE ROUNDS: times the reading of a text; bench write FILE ROUNDS: its writing to a frame";

fn read(rt: &HostRuntime, file: &str, rounds: &str) -> anyhow::Result<()> {
    let rounds = rounds.parse::<u32>()?;
    let text = fs::read_to_string(rt, file)?;
    let text = text.as_str();
    measure(rt, "pieces", pieces_sum, text, rounds)?;
    measure(rt, "stripped", stripped_sum, text, rounds)?;
    measure(rt, "checked", checked_sum, text, rounds)
}

fn write(rt: &HostRuntime, file: &str, rounds: &str) -> anyhow::Result<()> {
    let rounds = rounds.parse::<u32>()?;
    let text = fs::read_to_string(rt, file)?;
    writes::measure(rt, text.as_str(), rounds)
}

fn run(rt: &HostRuntime) -> anyhow::Result<()> {
    let mut args = env::args(rt)?;
    let _program = args.next();
    match (args.next(), args.next(), args.next()) {
        (Some(file), Some(rounds), None) => read(rt, file.as_str(), rounds.as_str()),
        (Some(_write), Some(file), Some(rounds)) => write(rt, file.as_str(), rounds.as_str()),
        _ => {
            rt.println(HELP)?;
            Ok(())
        }
    }
}

fn main(rt: HostRuntime) -> anyhow::Result<()> {
    run(&rt)
}
