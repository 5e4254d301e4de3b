// Reads a capture of the bus and tells what stands in each burst.
#![tactic(auto)]

use anyhow::anyhow;
use burst::read;
use capture::{HexFault, Seen, Tally, decode};
use report::{BadLine, Report};
use std::env;
use std::fs::File;
use std::io::{BufRead, BufReader};

// Tells what stands on one line.
fn scan_line(rt: &HostRuntime, number: u64, text: &[u8]) -> anyhow::Result<Seen> {
    let bytes = match decode(rt.alloc(), text) {
        Ok(bytes) => bytes,
        Err(HexFault::OutOfMemory) => return Err(anyhow!("out of memory")),
        Err(fault) => {
            let bad = BadLine {
                line: number,
                fault,
            };
            println!(rt; "{bad}")?;
            return Ok(Seen::NotHex);
        }
    };
    if bytes.is_empty() {
        return Ok(Seen::Blank);
    }
    let burst = bytes.as_slice();
    let finding = read(burst);
    let report = Report {
        line: number,
        burst,
        finding,
    };
    println!(rt; "{report}")?;
    Ok(Seen::from(&finding))
}

// A line at a time, so that a capture of any length needs no more memory than its longest line.
fn scan<R: BufRead + Drop>(rt: &HostRuntime, mut input: R) -> anyhow::Result<()> {
    let mut tally = Tally::new();
    let mut text = Vec::new(rt.alloc());
    for number in 1..u64::MAX {
        text.clear();
        if input.read_until(b'\n', &mut text)? == 0 {
            break;
        }
        let line = text.strip_suffix(b"\n").unwrap_or(text.as_slice());
        tally.note(scan_line(rt, number, line)?);
    }
    println!(rt; "{tally}")?;
    Ok(())
}

fn run(rt: &HostRuntime) -> anyhow::Result<()> {
    let mut args = env::args(rt)?;
    let _program = args.next();
    match args.next() {
        Some(path) => {
            let file = File::open(rt, path.as_str()).map_err(|cause| anyhow!(
                "cannot read {path}: {cause}"
            ))?;
            scan(rt, BufReader::new(rt.alloc(), file)?)
        }
        None => scan(rt, BufReader::new(rt.alloc(), rt.stdin())?),
    }
}

fn main(rt: HostRuntime) -> anyhow::Result<()> {
    run(&rt)
}
