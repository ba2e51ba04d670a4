// The console's own air.
use crate::fault::Fault;
use crate::line::{Line, Site};
use crate::text::Lanes;
use airs::Air;
use std::fmt::Write;

/// A command on the console's own air.
#[derive(Clone, Copy)]
pub(crate) enum AirCommand {
    /// `eput S W`
    Put { site: u8, word: u32 },
    /// `ecount S`
    Count(Site),
    /// `eat S POS`
    At { site: u8, position: usize },
    /// `eclear`
    Clear,
    /// `elanes`
    Lanes,
}

impl AirCommand {
    /// The command that a line is; nothing where there is none of its name here.
    pub(crate) fn read(line: Line<'_>) -> Result<Option<AirCommand>, Fault> {
        let command = match line.name {
            "eput" => {
                let (site, word) = line.read("eput takes a site and a word")?;
                AirCommand::Put { site, word }
            }
            "ecount" => AirCommand::Count(line.read("ecount takes a site")?),
            "eat" => {
                let (site, position) = line.read("eat takes a site and a position")?;
                AirCommand::At { site, position }
            }
            "eclear" => {
                line.none("eclear takes no arguments")?;
                AirCommand::Clear
            }
            "elanes" => {
                line.none("elanes takes no arguments")?;
                AirCommand::Lanes
            }
            _ => return Ok(None),
        };
        Ok(Some(command))
    }

    /// Performs the command on an air and writes the answer.
    pub(crate) fn perform<A: Air>(self, air: &mut A, reply: &mut String) -> Result<(), Fault> {
        match self {
            AirCommand::Put { site, word } => {
                let count = air.put(site, word)?;
                write!(reply, "ok {count}  # words in the lane of site {site}")?;
            }
            AirCommand::Count(site) => {
                let count = air.count(site.id());
                write!(reply, "ok {count}  # words in the lane of site {site}")?;
            }
            AirCommand::At { site, position } => match air.at(site, position) {
                Some(word) => write!(
                    reply,
                    "ok {word:08X}  # the word at position {position} of site {site}"
                )?,
                None => write!(reply, "ok none  # no word stands there")?,
            },
            AirCommand::Clear => {
                air.clear();
                write!(reply, "ok  # all lanes are empty")?;
            }
            AirCommand::Lanes => write!(reply, "ok{}  # the words of each lane", Lanes(&*air))?,
        }
        Ok(())
    }
}
