// The loom's command line: checks texts at the panel, and prints what it finds.
//
// `main` reads the arguments, the files and the standard input, and prints. What it prints of a text is counted by
// functions with contracts (module `report`); what the words of the command line mean is decided in module `command`.
#![tactic(auto)]

use std::alloc::AllocError;
use std::{env, fs, io};

mod command;
mod report;

use command::Command;
use report::report_on;
use std::io::Read;

const HELP: &str = "loom: checks texts for the loom

Usage:
  loom text FILE...   tell of each file whether it is a byte text and a UTF-8 text:
                      its bytes, items and lines, or the refusal with its number
  loom --help         print this text

A FILE that is a single '-' is the standard input.
The status is 0 unless the command line is wrong or a file cannot be read.";

// Why the program ends with a status that is not 0.
#[derive(Debug, Drop)]
enum Ended {
    Usage,
    Unreadable,
    Output,
    Memory,
}

impl From<io::Error> for Ended {
    fn from(_error: io::Error) -> Ended {
        Ended::Output
    }
}

impl From<AllocError> for Ended {
    fn from(_error: AllocError) -> Ended {
        Ended::Memory
    }
}

fn read_input(rt: &HostRuntime, name: &str) -> io::Result<Vec<u8>> {
    if name == "-" {
        let mut bytes = Vec::new(rt.alloc());
        rt.stdin().read_to_end(&mut bytes)?;
        return Ok(bytes);
    }
    fs::read(rt, name)
}

// Tells of each file; one that cannot be read does not keep the others from being told of.
fn tell_texts(rt: &HostRuntime, names: &[String]) -> Result<(), Ended> {
    let mut ended = Ok(());
    for name in names {
        match read_input(rt, name.as_str()) {
            Ok(bytes) => {
                let report = report_on(bytes.as_slice());
                println!(rt; "{name}\n{report}")?;
            }
            Err(error) => {
                eprintln!(rt; "loom: cannot read '{name}': {error}")?;
                ended = Err(Ended::Unreadable);
            }
        }
    }
    ended
}

fn run(rt: &HostRuntime) -> Result<(), Ended> {
    let words: Vec<String> = env::args(rt)?.skip(1).collect(rt.alloc())?;
    match Command::parse(words.as_slice()) {
        Ok(Command::Help) => println!(rt; "{HELP}")?,
        Ok(Command::Text(names)) => tell_texts(rt, names)?,
        Err(error) => {
            eprintln!(rt; "loom: {error}\nTry 'loom --help'.")?;
            return Err(Ended::Usage);
        }
    }
    Ok(())
}

fn main(rt: HostRuntime) -> Result<(), Ended> {
    run(&rt)
}
