// cardtrace plays a card script and prints each character and what each turn gave. It reads the script from standard input, or
// from the file that its one argument names, and prints to standard output. What is printed is worked out by a session, byte by
// byte; here are only the reading and the writing.
#![tactic(auto)]

mod session;

use anyhow::anyhow;
use session::{Session, Trouble};
use std::env;
use std::fs::File;
use std::io::{BufWriter, Read, Write};

// Ends the playing at a failure of the session: what was played before it is written out first.
fn fail<W: Write>(trouble: Trouble, output: &mut W) -> anyhow::Result<bool> {
    output.flush()?;
    Err(trouble.into())
}

// Plays the script that an input holds; whether it was played on the direct card.
fn play<R: Read, W: Write>(
    rt: &HostRuntime,
    input: &mut R,
    output: &mut W,
) -> anyhow::Result<bool> {
    let mut session = Session::new();
    let mut text = Vec::new(rt.alloc());
    for _ in 0..u64::MAX {
        let mut chunk = [0u8; 4096];
        let count = input.read(&mut chunk)?;
        if count == 0 {
            break;
        }
        for byte in &chunk[..count] {
            if let Err(trouble) = session.push(*byte, &mut text) {
                return fail(trouble, output);
            }
            output.write_all(&text)?;
            text.clear();
        }
    }
    if let Err(trouble) = session.finish(&mut text) {
        return fail(trouble, output);
    }
    output.write_all(&text)?;
    output.flush()?;
    Ok(session.is_direct())
}

// The file that the one argument names, if there is one.
fn argument(rt: &HostRuntime) -> anyhow::Result<Option<String>> {
    let mut args = env::args(rt)?.skip(1);
    let named = args.next();
    if args.next().is_some() {
        return Err(anyhow!("usage: cardtrace [SCRIPT]"));
    }
    Ok(named)
}

fn run(rt: &HostRuntime) -> anyhow::Result<()> {
    let named = argument(rt)?;
    let mut output = BufWriter::new(rt.alloc(), rt.stdout())?;
    let direct = match named {
        Some(path) => play(rt, &mut File::open(rt, path.as_str())?, &mut output)?,
        None => play(rt, &mut rt.stdin(), &mut output)?,
    };
    if direct {
        eprintln!(rt;
            "cardtrace: T=1 is played on the direct card as yet: no character lines, and damage has no effect"
        )?;
    }
    Ok(())
}

fn main(rt: HostRuntime) -> anyhow::Result<()> {
    run(&rt)
}
