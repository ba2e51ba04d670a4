ghost use Rattle.std.specs.Prelude.{◌≡◌};
ghost use Rattle.sites.specs.Refusals.{number_of};

use std::error::Error;
use std::fmt;

/// Why a call was refused, in the order of the table: where several apply, the upper one answers.
#[derive(Clone, Copy, PartialEq, Eq, Debug)]
pub enum Refusal {
    /// A sheet of no words, or of more than 1,024.
    SheetSize = 1,
    /// The first word is no lawful head.
    Head = 2,
    /// A later word is no edge, route or fan path, or its kind is below the kind before.
    Kind = 3,
    /// An edge with bad bits or sites, or not above the word before.
    Edge = 4,
    /// A path that is unlawful, names a site not below n, or takes a step where no edge is.
    Path = 5,
    /// A fan that is short, whose ends differ, or that shares another site.
    Fan = 6,
    /// No route for some suspect set.
    NoRoute = 7,
    /// No fan for some suspect set.
    NoFan = 8,
    /// A mask names a site not below n.
    MaskSite = 11,
    /// More than f rogues.
    ManyRogues = 12,
    /// The plan's n or f is not the one that the site began with.
    OtherPlan = 14,
    /// The site is not below n; at an air, not below 6.
    NoSite = 21,
    /// A word transmitted for a sound site.
    SoundSite = 22,
    /// A sound site's call for a rogue.
    RogueSite = 23,
    /// After the last phase.
    Over = 24,
    /// The site has spoken in this round.
    Spoken = 26,
    /// The lane cannot take what is put.
    LaneFull = 25,
    /// A sound site has not spoken.
    Unspoken = 27,
    /// Before the last phase ended.
    Undecided = 28,
    /// The path is not expected there, or not yet heard.
    Unheard = 29,
}

impl Refusal {
    /// The number that the table gives it.
    pub fn number(&self) -> u8
        ensures { result ≡ number_of self.now }
    {
        *self as u8
    }
}

impl fmt::Display for Refusal {
    fn fmt<W: fmt::Write>(&self, f: &mut fmt::Formatter<W>) -> fmt::Result {
        f.write_str(match self {
            Refusal::SheetSize => "a sheet has 1 to 1,024 words",
            Refusal::Head => "the first word is no lawful head",
            Refusal::Kind =>
                "a later word is no edge, route or fan path, or its kind is below the kind before",
            Refusal::Edge => "an edge has bad bits or sites, or does not ascend",
            Refusal::Path => "not a lawful path, or a site not below n, or a missing edge",
            Refusal::Fan => "a fan is short, its ends differ, or its paths share another site",
            Refusal::NoRoute => "no route for this suspect set",
            Refusal::NoFan => "no fan for this suspect set",
            Refusal::MaskSite => "a mask names a site not below n",
            Refusal::ManyRogues => "more than f rogues",
            Refusal::OtherPlan => "the plan's n or f is not the one at the start",
            Refusal::NoSite => "no such site",
            Refusal::SoundSite => "the site is sound",
            Refusal::RogueSite => "the site is a rogue",
            Refusal::Over => "the last phase is over",
            Refusal::Spoken => "the site has spoken in this round",
            Refusal::LaneFull => "the lane cannot take what is put",
            Refusal::Unspoken => "a sound site has not spoken",
            Refusal::Undecided => "the last phase is not over",
            Refusal::Unheard => "the path is not expected there, or not yet heard",
        })
    }
}

impl Error for Refusal {}
