//! The program `zone`: reads an operation list, runs it, and lists the answers and the tables.
#![tactic(auto)]

use model::setting::Setting;
use std::io::Read;
use std::process::ExitCode;
use std::{env, fs, io};
use zone_listing::answer::AnswerLine;
use zone_report::no_memory::NoMemory;
use zone_report::{report_hashed, report_listed};
use zone_text::script::{ParseError, Script, parse};

/// What ends the program with status 1.
#[derive(Drop)]
enum Failure {
    Usage,
    /// The list could not be read.
    Unread(io::Error),
    Unparsed(ParseError),
    /// No memory for the arguments or the report, or an output that could not be written: nothing is said of it.
    Silent,
}

impl From<ParseError> for Failure {
    fn from(error: ParseError) -> Failure {
        Failure::Unparsed(error)
    }
}

impl From<io::Error> for Failure {
    fn from(_error: io::Error) -> Failure {
        Failure::Silent
    }
}

impl From<NoMemory> for Failure {
    fn from(_error: NoMemory) -> Failure {
        Failure::Silent
    }
}

impl Failure {
    /// Says why the program ends.
    fn say(&self, rt: &HostRuntime) -> io::Result<()> {
        match self {
            Failure::Usage => eprintln!(rt; "zone: usage: zone [--list-stores] [FILE]"),
            Failure::Unread(error) => eprintln!(rt; "zone: {error}"),
            Failure::Unparsed(error) => eprintln!(rt; "zone: {error}"),
            Failure::Silent => Ok(()),
        }
    }
}

/// The kinds of stores that a list is run over.
#[derive(Clone, Copy)]
enum Stores {
    Hashed,
    Listed,
}

#[derive(Drop)]
struct Options {
    stores: Stores,
    /// Standard input if there is none.
    file: Option<String>,
}

fn read_options(rt: &HostRuntime) -> Result<Options, Failure> {
    let mut stores = Stores::Hashed;
    let mut file = None;
    for word in env::args(rt)?.skip(1) {
        if word.as_str() == "--list-stores" {
            stores = Stores::Listed;
        } else if file.is_none() {
            file = Some(word);
        } else {
            return Err(Failure::Usage);
        }
    }
    Ok(Options { stores, file })
}

fn read_text(rt: &HostRuntime, file: &Option<String>) -> io::Result<Vec<u8>> {
    match file {
        Some(path) => fs::read(rt, path.as_str()),
        None => {
            let mut text = Vec::new(rt.alloc());
            rt.stdin().read_to_end(&mut text)?;
            Ok(text)
        }
    }
}

/// Runs the list under its setting, if that is granted.
fn list(rt: &HostRuntime, script: &Script, stores: Stores) -> Result<(), Failure> {
    match Setting::try_from(script.setting.unwrap_or(0)) {
        Ok(setting) => {
            let calls = script.calls.as_slice();
            let report = match stores {
                Stores::Hashed => report_hashed(rt.alloc(), setting, calls)?,
                Stores::Listed => report_listed(rt.alloc(), setting, calls)?,
            };
            print!(rt; "{report}")?;
            Ok(())
        }
        Err(refusal) => {
            let line = AnswerLine(Err(refusal));
            println!(rt; "{line}")?;
            Ok(())
        }
    }
}

fn run(rt: &HostRuntime) -> Result<(), Failure> {
    let options = read_options(rt)?;
    let text = read_text(rt, &options.file).map_err(Failure::Unread)?;
    let script = parse(rt.alloc(), text.as_slice())?;
    list(rt, &script, options.stores)
}

// No result is returned, since an error in it would be printed once more.
fn main(rt: HostRuntime) -> ExitCode {
    match run(&rt) {
        Ok(()) => ExitCode::SUCCESS,
        Err(failure) => {
            // The status says it also where standard error cannot be written.
            let _ = failure.say(&rt);
            ExitCode::FAILURE
        }
    }
}
