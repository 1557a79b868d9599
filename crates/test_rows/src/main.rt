//! Rows of tests: of commands of the server, and of its parts, from the files that the arguments name
//! (`docs/SCRIPTS.md`).
#![tactic(auto)]

mod block;
mod call;
mod commands;
mod configs;
mod events;
mod fields;
mod forms;
mod frames;
mod gaps;
mod graphite;
mod keys;
mod kinds;
mod line;
mod messages;
mod numbers;
mod piece;
mod plans;
mod queries;
mod reader;
mod reading;
mod rising;
mod row;
mod sheet;
mod shown;
mod spelled;
mod suites;
mod tally;
mod values;

use crate::sheet::read_sheet;
use crate::tally::Tally;
use std::rt::{Env, Files};
use std::{env, fs, io};

fn main(rt: HostRuntime) -> io::Result<()> {
    for name in env::args(&rt)?.skip(1) {
        print_file(&rt, name.as_str())?;
    }
    Ok(())
}

/// Prints what is found of the rows of the file.
fn print_file<R: Files + Print + AllocGlobal>(rt: &R, name: &str) -> io::Result<()> {
    let text = fs::read_to_string(rt, name)?;
    let mut tally = Tally::fresh(rt.alloc());
    match read_sheet(rt.alloc(), text.as_str(), &mut tally) {
        Ok(()) => tally.print(rt, name),
        Err(_) => println!(rt; "{name}: out of memory"),
    }
}
