// A demonstration of the parsers: two runs of hooks, as `3u,5d`, read by check and by emit.
use parse::{Checked, Emitted, Error, Fault};
use std::{fmt, io};
use text::{ByteText, Complete, Manner, Span, Streaming};

// Both runs: a number of hooks, and the code of `u` or `d`.
type Runs = ((u32, u32), (u32, u32));

// What a parser answers, in words.
#[derive(Drop)]
struct Answer {
    answer: Result<(Span, Runs), Fault<Error>>,
}

impl fmt::Display for Answer {
    fn fmt<W: fmt::Write>(&self, f: &mut fmt::Formatter<W>) -> fmt::Result {
        match &self.answer {
            Ok((rest, runs)) => {
                let at = rest.start;
                write!(f, "done at {at}, output {runs:?}")
            }
            Err(fault) => write!(f, "{fault}"),
        }
    }
}

// Emits into so many places, and prints the answer and the items.
fn show_emit<M: Manner + Copy>(
    rt: &HostRuntime,
    text: &ByteText,
    manner: M,
    places: &mut [u32],
) -> io::Result<()> {
    let len = places.len();
    let Emitted { answer, count } = parse::emit_into::<u32, Error, _, _, _>(
        &demo::line(),
        text,
        manner,
        places,
    );
    let answer = Answer { answer };
    print!(rt; "    emit, {len} places: {answer}; items")?;
    for item in places.iter().take(count) {
        print!(rt; " {item}")?;
    }
    println!(rt)
}

fn show_manner<M: Manner + Copy>(
    rt: &HostRuntime,
    name: &str,
    text: &ByteText,
    manner: M,
) -> io::Result<()> {
    let Checked {
        answer,
        count,
        peak,
    } = parse::check::<u32, Error, _, _, _>(&demo::line(), text, manner);
    let answer = Answer { answer };
    println!(rt; "  {name}")?;
    println!(rt; "    check: {answer}; items {count}, peak {peak}")?;
    show_emit(rt, text, manner, &mut [0; 4])?;
    show_emit(rt, text, manner, &mut [0; 2])
}

// Prints what the parser gives on the line, under both manners, by check and by emit into enough and into too few places.
pub fn show_line(rt: &HostRuntime, line: &[u8]) -> io::Result<()> {
    let text = match ByteText::try_from(line) {
        Ok(text) => text,
        Err(refusal) => return println!(rt; "  refused: {refusal}"),
    };
    show_manner(rt, "streaming", &text, Streaming)?;
    show_manner(rt, "complete", &text, Complete)
}
