//! Prints the reports on recorded passes that are kept as files, each read at one go and in small pieces.
#![tactic(auto)]

use passes::report;
use std::fs::File;
use std::io::Read;
use std::{env, io};

// Gives at most so many bytes at a time, as a pipe may.
#[derive(Drop)]
struct Trickle<R> {
    input: R,
    most: usize,
}

impl<R: Read> Read for Trickle<R> {
    fn read(&mut self, buf: &mut [u8]) -> io::Result<usize> {
        let most = self.most.min(buf.len());
        self.input.read(&mut buf[0..most])
    }
}

fn report_in_pieces(rt: &HostRuntime, name: &str, most: usize) -> anyhow::Result<String> {
    let input = File::open(rt, name)?;
    report(rt.alloc(), Trickle { input, most })
}

fn show(rt: &HostRuntime, name: &str) -> anyhow::Result<()> {
    // Not by `?`: the other cases are still to be shown.
    let Ok(text) = report(rt.alloc(), File::open(rt, name)?) else {
        println!(rt; "# {name}: not read")?;
        return Ok(());
    };
    for most in [1, 100, 511] {
        if report_in_pieces(rt, name, most)? != text {
            println!(rt; "# {name}: another report, {most} bytes at a time")?;
        }
    }
    print!(rt; "# {name}\n{text}")?;
    Ok(())
}

fn show_all(rt: &HostRuntime) -> anyhow::Result<()> {
    for name in env::args(rt)?.skip(1) {
        show(rt, name.as_str())?;
    }
    Ok(())
}

fn main(rt: HostRuntime) -> anyhow::Result<()> {
    show_all(&rt)
}
