// What the words of the command line ask for.
ghost use Rattle.loom.specs.Words.{Parsed};

use std::fmt;

#[derive(Clone, Copy)]
pub enum Command<'a> {
    Help,
    // tell of the texts in these files, at least one
    Text(&'a [String]),
}

#[derive(Clone, Copy)]
pub enum UsageError<'a> {
    NoCommand,
    UnknownCommand(&'a str),
    NoFile,
    // words that the command does not take
    TooManyWords,
}

impl<'a> fmt::Display for UsageError<'a> {
    fn fmt<W: fmt::Write>(&self, f: &mut fmt::Formatter<W>) -> fmt::Result {
        match self {
            UsageError::NoCommand => write!(f, "no command given"),
            UsageError::UnknownCommand(word) => write!(f, "'{word}' is not a command"),
            UsageError::NoFile => write!(f, "'text' takes at least one file"),
            UsageError::TooManyWords => write!(f, "'--help' takes no other words"),
        }
    }
}

impl<'a> Command<'a> {
    // The words are those after the program's name.
    pub fn parse(words: &'a [String]) -> Result<Command<'a>, UsageError<'a>>
        ensures { Parsed words.now result }
    {
        let [first, rest @ ..] = words else {
            return Err(UsageError::NoCommand);
        };
        match (first.as_str(), rest) {
            ("--help", []) => Ok(Command::Help),
            ("--help", _) => Err(UsageError::TooManyWords),
            ("text", []) => Err(UsageError::NoFile),
            ("text", names) => Ok(Command::Text(names)),
            (word, _) => Err(UsageError::UnknownCommand(word)),
        }
    }
}
