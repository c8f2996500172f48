// cardtrace plays a card script and prints what each turn gave. It reads the script from standard input, or from the file that
// its one argument names, and prints to standard output. What is printed is worked out by a session, byte by byte; here are
// only the reading and the writing.
#![tactic(auto)]

mod player;
mod session;

use anyhow::anyhow;
use arrayvec::ArrayString;
use session::Session;
use std::env;
use std::fs::File;
use std::io::{BufWriter, Read, Write};

// Plays the script that an input holds.
fn play<R: Read, W: Write>(input: &mut R, output: &mut W) -> anyhow::Result<()> {
    let Ok(mut session) = Session::new() else {
        return Err(anyhow!("the card could not be made"));
    };
    let mut text = ArrayString::new();
    for _ in 0..u64::MAX {
        let mut chunk = [0u8; 4096];
        let count = input.read(&mut chunk)?;
        if count == 0 {
            break;
        }
        for byte in &chunk[..count] {
            session.push(*byte, &mut text);
            output.write_all(text.as_bytes())?;
        }
    }
    session.finish(&mut text);
    output.write_all(text.as_bytes())?;
    output.flush()?;
    Ok(())
}

// The file that the one argument names, if there is one.
fn argument(rt: &HostRuntime) -> anyhow::Result<Option<String>> {
    let mut args = env::args(rt)?.skip(1);
    let named = args.next();
    if args.next().is_some() {
        return Err(anyhow!("usage: cardtrace [SCRIPT]"));
    }
    Ok(named)
}

fn run(rt: &HostRuntime) -> anyhow::Result<()> {
    let named = argument(rt)?;
    eprintln!(rt;
        "cardtrace: plays on the direct card: no character lines, and damage has no effect"
    )?;
    let mut output = BufWriter::new(rt.alloc(), rt.stdout())?;
    match named {
        Some(path) => play(&mut File::open(rt, path.as_str())?, &mut output),
        None => play(&mut rt.stdin(), &mut output),
    }
}

fn main(rt: HostRuntime) -> anyhow::Result<()> {
    run(&rt)
}
