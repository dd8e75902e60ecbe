// Lists the pieces of a text: escape sequences and characters.

#![tactic(auto)]

mod lines;
mod listing;

use ansi::{AnsiAwareChars, AnsiStrippedChars};
use lines::push_answer;
use std::io::Read;
use std::{env, fmt};

const HELP: &str =
    "usage: pieces [list | stripped] < INPUT: the pieces of a text; list, stripped: of the text in hex on each line";

fn print_listing(rt: &HostRuntime) -> anyhow::Result<()> {
    let heap = rt.alloc();
    let mut input = Vec::new(heap);
    rt.stdin().read_to_end(&mut input)?;
    rt.print(listing::listing(heap, input.as_slice())?)?;
    Ok(())
}

fn print_answers<F: Fn(&mut String, &[u8]) -> fmt::Result>(
    rt: &HostRuntime,
    answer: F,
) -> anyhow::Result<()>
    requires { F.IsAlwaysCallable answer }
{
    let heap = rt.alloc();
    let mut input = String::new(heap);
    rt.stdin().read_to_string(&mut input)?;
    rt.print(lines::answers(heap, input.as_str(), answer)?)?;
    Ok(())
}

fn run(rt: &HostRuntime) -> anyhow::Result<()> {
    let mut args = env::args(rt)?;
    let _program = args.next();
    let (word, more) = (args.next(), args.next());
    match (word.as_deref(), more) {
        (None, _) => print_listing(rt),
        (Some("list"), None) => {
            print_answers(rt, |out, text| push_answer(out, AnsiAwareChars::new(text)))
        }
        (Some("stripped"), None) => {
            print_answers(
                rt,
                |out, text| push_answer(out, AnsiStrippedChars::new(text)),
            )
        }
        _ => {
            rt.println(HELP)?;
            Ok(())
        }
    }
}

fn main(rt: HostRuntime) -> anyhow::Result<()> {
    run(&rt)
}
