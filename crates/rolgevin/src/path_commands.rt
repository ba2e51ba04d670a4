// Path words: what they say, and how they are written.
use crate::fault::Fault;
use crate::line::{Argument, Line};
use std::alloc::Global;
use std::fmt;
use std::fmt::Write;
use words::{Kind, Path, PathWord};

/// A command on path words.
#[derive(Drop)]
pub(crate) enum PathCommand {
    /// `read W`
    Read(u32),
    /// `write KIND TAIL S..`
    Write { kind: u8, tail: u8, sites: Vec<u8> },
}

// What a path word says, in plain words.
#[derive(Clone, Copy)]
struct Described(PathWord);

// A kind in plain words.
#[derive(Clone, Copy)]
struct Named(Kind);

impl fmt::Display for Named {
    fn fmt<W: fmt::Write>(&self, f: &mut fmt::Formatter<W>) -> fmt::Result {
        match self.0 {
            Kind::Flood => write!(f, "flood word"),
            Kind::Route => write!(f, "route"),
            Kind::Fan => write!(f, "fan path"),
        }
    }
}

impl fmt::Display for Described {
    fn fmt<W: fmt::Write>(&self, f: &mut fmt::Formatter<W>) -> fmt::Result {
        let word = self.0;
        write!(f, "{}: the ", Named(word.kind()))?;
        let path = word.path();
        if path.sites().is_empty() {
            write!(f, "empty path")?;
        } else {
            write!(f, "path {path}")?;
        }
        if word.kind() == Kind::Flood {
            write!(f, " with bit {}", word.tail())?;
        }
        Ok(())
    }
}

// What a word says, part by part.
fn read(word: u32, reply: &mut String) -> Result<(), Fault> {
    let word = PathWord::read(word)?;
    let (kind, tail, path) = (word.kind().number(), word.tail(), word.path());
    write!(reply, "ok {kind} {tail} [{path}]  # {}", Described(word))?;
    Ok(())
}

// The word of a kind's number, a tail and some sites.
fn write(kind: u8, tail: u8, sites: &[u8], reply: &mut String) -> Result<(), Fault> {
    let kind = Kind::try_from(u32::from(kind))?;
    let word = PathWord::new(kind, Path::new(sites)?, tail)?;
    write!(reply, "ok {:08X}  # {}", word.write(), Described(word))?;
    Ok(())
}

impl PathCommand {
    /// The command that a line is; nothing where there is none of its name here.
    pub(crate) fn read(heap: Global, line: Line<'_>) -> Result<Option<PathCommand>, Fault> {
        match line.name {
            "read" => PathCommand::one_word(line).map(Some),
            "write" => PathCommand::numbers(heap, line).map(Some),
            _ => Ok(None),
        }
    }

    // `read` with its word.
    fn one_word(line: Line<'_>) -> Result<PathCommand, Fault> {
        let [token] = line.tokens else {
            return Err(Fault::NoCommand("read takes one word"));
        };
        let word = u32::read(token).ok_or(Fault::NoCommand(
            "a word is up to eight hexadecimal digits",
        ))?;
        Ok(PathCommand::Read(word))
    }

    // `write` with its numbers.
    fn numbers(heap: Global, line: Line<'_>) -> Result<PathCommand, Fault> {
        let takes = "write takes a kind, a tail and sites, in decimal";
        let numbers = line.all::<u8>(heap, takes)?;
        let [kind, tail, sites @ ..] = numbers.as_slice() else {
            return Err(Fault::NoCommand(takes));
        };
        let (kind, tail, sites) = (*kind, *tail, sites.to_vec(heap)?);
        Ok(PathCommand::Write { kind, tail, sites })
    }

    /// Performs the command and writes the answer.
    pub(crate) fn perform(self, reply: &mut String) -> Result<(), Fault> {
        match self {
            PathCommand::Read(word) => read(word, reply),
            PathCommand::Write { kind, tail, sites } => write(kind, tail, sites.as_slice(), reply),
        }
    }
}
