// Sets up a cabinet from a script, makes the calls of the script and tells what came of each.
#![tactic(auto)]

mod meaning;
mod parse;
mod refused;
mod run;
mod script;
mod statement;
mod tell;
mod values;
mod words;
mod wrong;

use anyhow::anyhow;
use script::{Script, read};
use std::env;
use std::fs::File;
use std::io::BufReader;

fn script_in(rt: &HostRuntime, path: &str) -> anyhow::Result<Script> {
    let file = File::open(rt, path).map_err(|cause| anyhow!("cannot read {path}: {cause}"))?;
    read(rt.alloc(), BufReader::new(rt.alloc(), file)?)
}

// Tells whether a script can be read, and what is wrong with it if not.
fn check(rt: &HostRuntime, path: &str) -> anyhow::Result<()> {
    match script_in(rt, path) {
        Ok(_) => println!(rt; "{path}: a good script")?,
        Err(fault) => println!(rt; "{path}: {fault}")?,
    }
    Ok(())
}

// Carries out a script, with its name in front where it is one of several.
fn run_file(rt: &HostRuntime, path: &str, one_of_several: bool) -> anyhow::Result<()> {
    if one_of_several {
        println!(rt; "script {path}")?;
    }
    run::run(rt, script_in(rt, path)?)
}

// Carries out the scripts that are named, and only reads those behind `--check`.
fn run_named(rt: &HostRuntime, names: &[String]) -> anyhow::Result<()> {
    let mut groups = names.split(|name| name.as_str() == "--check");
    for name in groups.next().unwrap_or(&[]) {
        run_file(rt, name.as_str(), names.len() > 1)?;
    }
    for group in groups {
        for name in group {
            check(rt, name.as_str())?;
        }
    }
    Ok(())
}

fn run_all(rt: &HostRuntime) -> anyhow::Result<()> {
    let names: Vec<String> = env::args(rt)?.skip(1).collect(rt.alloc())?;
    if names.is_empty() {
        return run::run(
            rt,
            read(rt.alloc(), BufReader::new(rt.alloc(), rt.stdin())?)?,
        );
    }
    run_named(rt, names.as_slice())
}

fn main(rt: HostRuntime) -> anyhow::Result<()> {
    run_all(&rt)
}
