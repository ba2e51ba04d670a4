// Sheets and the plan in hand.
use crate::fault::Fault;
use crate::line::Line;
use crate::text::Words;
use plans::Plan;
use sheets::{Item, Reader};
use sites::SiteMask;
use std::alloc::Global;
use std::fmt;
use std::fmt::Write;
use words::PathWord;

/// A command on sheets and the plan in hand.
#[derive(Drop)]
pub(crate) enum SheetCommand {
    /// `sheet W..`
    Load(Vec<u32>),
    /// `plan`
    List,
    /// `items W..`
    Items(Vec<u32>),
    /// `route F U V`
    Route {
        set: SiteMask,
        from: u8,
        to: u8,
    },
    /// `fan F V A`
    Fan {
        set: SiteMask,
        at: u8,
        among: SiteMask,
    },
}

// A sheet in place of the plan in hand.
fn load(words: &[u32], plan: &mut Plan, reply: &mut String) -> Result<(), Fault> {
    plan.reload(words)?;
    let (sites, rogues) = (plan.site_count(), plan.rogue_limit());
    write!(
        reply,
        "ok  # a plan for {sites} sites, of which {rogues} may be rogue"
    )?;
    Ok(())
}

// The words of the plan in hand.
fn list(plan: &Plan, reply: &mut String) -> Result<(), Fault> {
    let words = plan.words();
    let count = words.len();
    let words = Words { mark: ' ', words };
    write!(reply, "ok {count}{words}  # the words of the plan in hand")?;
    Ok(())
}

// An item of a sheet, with its place.
#[derive(Clone, Copy)]
struct Placed<'a>(Item<'a>);

impl fmt::Display for Placed<'_> {
    fn fmt<W: fmt::Write>(&self, f: &mut fmt::Formatter<W>) -> fmt::Result {
        match self.0 {
            Item::Head {
                place,
                sites,
                rogues,
            } => write!(f, "head@{place}:{sites},{rogues}"),
            Item::Edge { place, low, high } => write!(f, "edge@{place}:{low}-{high}"),
            Item::Route { place, word } => write!(f, "route@{place}:{word:08X}"),
            Item::Fan { place, run } => {
                write!(f, "fan@{place}:")?;
                let Some((first, words)) = run.split_first() else {
                    return Ok(());
                };
                write!(f, "{first:08X}{}", Words { mark: '+', words })
            }
        }
    }
}

// The items that a reader gives, a space before each.
#[derive(Clone, Copy)]
struct Listed<'a>(Reader<'a>);

impl fmt::Display for Listed<'_> {
    fn fmt<W: fmt::Write>(&self, f: &mut fmt::Formatter<W>) -> fmt::Result {
        for item in self.0 {
            write!(f, " {}", Placed(item))?;
        }
        Ok(())
    }
}

// The items of a sheet.
fn items(words: &[u32], reply: &mut String) -> Result<(), Fault> {
    let reader = Reader::open(words)?;
    write!(reply, "ok{}  # {} items", Listed(reader), reader.count())?;
    Ok(())
}

// The route taken between two sites.
fn route(set: SiteMask, from: u8, to: u8, plan: &Plan, reply: &mut String) -> Result<(), Fault> {
    let Some(place) = plan.find_route(set, from, to) else {
        write!(reply, "ok none  # no route is named for these")?;
        return Ok(());
    };
    let path = plan.route(set, from, to);
    write!(
        reply,
        "ok {place} {path}  # the route taken from {from} to {to}"
    )?;
    Ok(())
}

// The paths of a fan in the plan in hand, a space before each. All words of a plan's fans are lawful.
#[derive(Clone, Copy)]
struct Paths<'a>(&'a [u32]);

impl fmt::Display for Paths<'_> {
    fn fmt<W: fmt::Write>(&self, f: &mut fmt::Formatter<W>) -> fmt::Result {
        for word in self.0 {
            if let Ok(word) = PathWord::read(*word) {
                write!(f, " {}", word.path())?;
            }
        }
        Ok(())
    }
}

// The fan taken at a site.
fn fan(
    set: SiteMask,
    at: u8,
    among: SiteMask,
    plan: &Plan,
    reply: &mut String,
) -> Result<(), Fault> {
    let Some(place) = plan.find_fan(set, at, among) else {
        write!(reply, "ok none  # no fan is named for these")?;
        return Ok(());
    };
    let paths = Paths(plan.fan(set, at, among));
    write!(reply, "ok {place}{paths}  # the fan taken at {at}")?;
    Ok(())
}

impl SheetCommand {
    /// The command that a line is; nothing where there is none of its name here.
    pub(crate) fn read(heap: Global, line: Line<'_>) -> Result<Option<SheetCommand>, Fault> {
        let command = match line.name {
            "sheet" => SheetCommand::Load(line.all(
                heap,
                "sheet takes words of up to eight hexadecimal digits",
            )?),
            "plan" => {
                line.none("plan takes no arguments")?;
                SheetCommand::List
            }
            "items" => SheetCommand::Items(line.all(
                heap,
                "items takes words of up to eight hexadecimal digits",
            )?),
            "route" => {
                let (set, from, to) = line.read("route takes a mask and two sites")?;
                SheetCommand::Route { set, from, to }
            }
            "fan" => {
                let (set, at, among) = line.read("fan takes a mask, a site and a mask")?;
                SheetCommand::Fan { set, at, among }
            }
            _ => return Ok(None),
        };
        Ok(Some(command))
    }

    /// Performs the command with the plan in hand and writes the answer.
    pub(crate) fn perform(self, plan: &mut Plan, reply: &mut String) -> Result<(), Fault> {
        match self {
            SheetCommand::Load(words) => load(words.as_slice(), plan, reply),
            SheetCommand::List => list(plan, reply),
            SheetCommand::Items(words) => items(words.as_slice(), reply),
            SheetCommand::Route { set, from, to } => route(set, from, to, plan, reply),
            SheetCommand::Fan { set, at, among } => fan(set, at, among, plan, reply),
        }
    }
}
