//! `bench` times what the library does, and is an example of its caller: a command for each work.
//!
//! `bench segment KEYS EPS [WORKERS]`, `bench lookup KEYS QUERIES EPS [BITS]`, `bench hints KEYS
//! QUERIES EPS`, `bench read KEYS LOOKS`, `bench box POINTS DIMS SCRIPT..`, `bench near POINTS DIMS
//! SCRIPT..` and `bench map N`. The README has what each times and prints. With no words it prints
//! its commands. No contract says how long anything takes.
#![tactic(auto)]

mod borrowed;
mod lookups;
mod map;
mod nearest;
mod readers;
mod regions;
mod segmenting;
mod shared;
mod visiting;

use anyhow::{Result, bail};
use std::env;
use std::rt::{Clock, Env, Files};
use std::sync::Wait;
use std::thread::Threads;

const USAGE: &str = "usage: bench segment|lookup|hints|read|box|near|map ..";

fn main(rt: HostRuntime) -> Result<()> {
    let words: Vec<String> = env::args(&rt)?.collect(rt.alloc())?;
    run(&rt, &words)
}

fn run<R: AllocGlobal + Files + Print + Clock + Threads + Wait + Sync>(
    rt: &R,
    words: &[String],
) -> Result<()> {
    let [_, command, words @ ..] = words else {
        println!(rt; "{USAGE}")?;
        return Ok(());
    };
    match command.as_str() {
        "segment" => segmenting::run(rt, words),
        "lookup" => lookups::run(rt, words),
        "hints" => borrowed::run(rt, words),
        "read" => readers::run(rt, words),
        "box" => regions::run(rt, words),
        "near" => nearest::run(rt, words),
        "map" => map::run(rt, words),
        _ => bail!("{USAGE}"),
    }
}
