// Small things of answers, and how they print.
use airs::Air;
use std::fmt;

/// A bit as a bid: `held` or `live`.
#[derive(Clone, Copy)]
pub(crate) struct Bid(pub bool);

impl fmt::Display for Bid {
    fn fmt<W: fmt::Write>(&self, f: &mut fmt::Formatter<W>) -> fmt::Result {
        let bid = if self.0 { "held" } else { "live" };
        write!(f, "{bid}")
    }
}

/// Some words, each of eight hexadecimal digits, with a mark before each.
#[derive(Clone, Copy)]
pub(crate) struct Words<'a> {
    pub mark: char,
    pub words: &'a [u32],
}

impl fmt::Display for Words<'_> {
    fn fmt<W: fmt::Write>(&self, f: &mut fmt::Formatter<W>) -> fmt::Result {
        let mark = self.mark;
        for word in self.words {
            write!(f, "{mark}{word:08X}")?;
        }
        Ok(())
    }
}

// The words of a site's lane, a space before each.
#[derive(Drop)]
struct Lane<'a, A: Air> {
    air: &'a A,
    site: u8,
}

impl<A: Air> fmt::Display for Lane<'_, A> {
    fn fmt<W: fmt::Write>(&self, f: &mut fmt::Formatter<W>) -> fmt::Result {
        let Lane { air, site } = *self;
        for word in (0..air.count(site)).filter_map(|position| air.at(site, position)) {
            write!(f, " {word:08X}")?;
        }
        Ok(())
    }
}

/// The words of all six lanes.
#[derive(Drop)]
pub(crate) struct Lanes<'a, A: Air>(pub &'a A);

impl<A: Air> fmt::Display for Lanes<'_, A> {
    fn fmt<W: fmt::Write>(&self, f: &mut fmt::Formatter<W>) -> fmt::Result {
        let air = self.0;
        for site in 0..6u8 {
            let mark = if site > 0 { " |" } else { "" };
            write!(f, "{mark} {site}:{}", Lane { air, site })?;
        }
        Ok(())
    }
}

/// Some words without the zeros at their end.
pub(crate) fn trimmed(words: &[u32]) -> &[u32] {
    match words.iter().rposition(|word| *word != 0) {
        Some(last) => &words[..last + 1],
        None => &[],
    }
}
