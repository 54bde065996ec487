// Shows what the demonstration's parser makes of each line that the command line gives, by check and by emit, when more
// input may follow and when none does.
#![tactic(auto)]

use std::{env, io};

mod lines;

use lines::show_line;

fn show_lines(rt: &HostRuntime, lines: &[String]) -> io::Result<()> {
    for line in lines {
        println!(rt; "{line}")?;
        show_line(rt, line.as_str().as_bytes())?;
    }
    Ok(())
}

fn main(rt: HostRuntime) -> io::Result<()> {
    let words: Vec<String> = env::args(&rt)?.skip(1).collect(rt.alloc())?;
    show_lines(&rt, words.as_slice())
}
