//! Runs recorded operation lists over both kinds of stores, and compares what comes of them with the recorded listings.
#![tactic(auto)]

use model::setting::Setting;
use std::alloc::{AllocError, Global};
use std::process::ExitCode;
use std::{fs, io};
use zone_report::no_memory::NoMemory;
use zone_report::{report_hashed, report_listed};
use zone_text::script::{ParseError, parse};

/// A line that divides two lists, or two listings.
const DIVIDER: &str = "=====";

/// What became of one list.
#[derive(Drop)]
enum Outcome {
    Same,
    Differs,
    Unreadable,
}

/// Memory was wanting, or a file or standard output failed: the program ends with status 1.
#[derive(Drop)]
struct Failure;

impl From<io::Error> for Failure {
    fn from(_error: io::Error) -> Failure {
        Failure
    }
}

impl From<NoMemory> for Failure {
    fn from(_error: NoMemory) -> Failure {
        Failure
    }
}

impl From<AllocError> for Failure {
    fn from(_error: AllocError) -> Failure {
        Failure
    }
}

/// The parts of a text that its dividers end.
fn parts(heap: Global, text: &str) -> Result<Vec<String>, AllocError> {
    let mut all = Vec::new(heap);
    let mut part = String::new(heap);
    for line in text.lines() {
        if line == DIVIDER {
            all.push(part)?;
            part = String::new(heap);
        } else {
            part.push_str(line)?;
            part.push('\n')?;
        }
    }
    Ok(all)
}

/// Runs a list over hashed stores and over list stores.
fn replay(heap: Global, list: &str, expected: &str) -> Result<Outcome, Failure> {
    let script = match parse(heap, list.as_bytes()) {
        Ok(script) => script,
        Err(ParseError::Line(_)) => return Ok(Outcome::Unreadable),
        Err(ParseError::NoMemory) => return Err(Failure),
    };
    let Ok(setting) = Setting::try_from(script.setting.unwrap_or(0)) else {
        return Ok(Outcome::Unreadable);
    };
    let calls = script.calls.as_slice();
    let hashed = report_hashed(heap, setting, calls)?;
    let listed = report_listed(heap, setting, calls)?;
    if hashed.as_str() == expected && listed.as_str() == expected {
        Ok(Outcome::Same)
    } else {
        Ok(Outcome::Differs)
    }
}

fn run(rt: &HostRuntime) -> Result<(), Failure> {
    let lists = fs::read_to_string(rt, "lists.txt")?;
    let listings = fs::read_to_string(rt, "listings.txt")?;
    let lists = parts(rt.alloc(), lists.as_str())?;
    let listings = parts(rt.alloc(), listings.as_str())?;
    let mut same = 0usize;
    for (number, (list, expected)) in (1usize..).zip(lists.iter().zip(listings.iter())) {
        match replay(rt.alloc(), list.as_str(), expected.as_str())? {
            Outcome::Same => same = same.saturating_add(1),
            Outcome::Differs => println!(rt; "list {number} differs")?,
            Outcome::Unreadable => println!(rt; "list {number} cannot be read")?,
        }
    }
    let all = lists.len().min(listings.len());
    println!(rt;
        "{same} of {all} lists came out as recorded, over hashed stores and over list stores"
    )?;
    Ok(())
}

fn main(rt: HostRuntime) -> ExitCode {
    match run(&rt) {
        Ok(()) => ExitCode::SUCCESS,
        Err(_) => ExitCode::FAILURE,
    }
}
