// A line as a command's name and what stands behind it.
use crate::fault::Fault;
use crate::numbers::{decimal, hex};
use sites::SiteMask;
use std::alloc::Global;
use std::fmt;

/// What a command takes as one token.
pub(crate) trait Argument: Drop {
    /// The value that a token writes; nothing where it writes none.
    fn read(token: &str) -> Option<Self>;
}

/// A kind, a tail, or a site whose number no answer repeats unless there is such a site: decimal, and 255 for a larger
/// number, since no kind, tail or site is as large.
impl Argument for u8 {
    fn read(token: &str) -> Option<u8> {
        let number = decimal(token.as_bytes())?;
        Some(u8::try_from(number).unwrap_or(u8::MAX))
    }
}

/// A place or a position: decimal.
impl Argument for usize {
    fn read(token: &str) -> Option<usize> {
        let number = decimal(token.as_bytes())?;
        Some(number as usize)
    }
}

/// A word: hexadecimal.
impl Argument for u32 {
    fn read(token: &str) -> Option<u32> {
        hex(token.as_bytes())
    }
}

/// A mask: hexadecimal.
impl Argument for SiteMask {
    fn read(token: &str) -> Option<SiteMask> {
        let bits = hex(token.as_bytes())?;
        Some(SiteMask { bits })
    }
}

/// A bit: 0 or 1.
impl Argument for bool {
    fn read(token: &str) -> Option<bool> {
        match decimal(token.as_bytes())? {
            0 => Some(false),
            1 => Some(true),
            _ => None,
        }
    }
}

/// A site whose number the answer repeats, whether or not there is such a site: decimal.
#[derive(Clone, Copy)]
pub(crate) struct Site(u32);

impl Site {
    /// The site for a call; no site is as large as 255.
    pub(crate) fn id(self) -> u8 {
        u8::try_from(self.0).unwrap_or(u8::MAX)
    }
}

impl fmt::Display for Site {
    fn fmt<W: fmt::Write>(&self, f: &mut fmt::Formatter<W>) -> fmt::Result {
        let number = self.0;
        write!(f, "{number}")
    }
}

impl Argument for Site {
    fn read(token: &str) -> Option<Site> {
        let number = decimal(token.as_bytes())?;
        Some(Site(number))
    }
}

/// What a command takes as all its tokens.
pub(crate) trait Arguments: Drop {
    /// The values that the tokens write; nothing where they write no such values.
    fn read_all(tokens: &[&str]) -> Option<Self>;
}

/// One value.
impl<A: Argument> Arguments for A {
    fn read_all(tokens: &[&str]) -> Option<A> {
        let [token] = tokens else {
            return None;
        };
        A::read(token)
    }
}

/// Two values.
impl<A: Argument, B: Argument> Arguments for (A, B) {
    fn read_all(tokens: &[&str]) -> Option<(A, B)> {
        let [first, second] = tokens else {
            return None;
        };
        Some((A::read(first)?, B::read(second)?))
    }
}

/// Three values.
impl<A: Argument, B: Argument, C: Argument> Arguments for (A, B, C) {
    fn read_all(tokens: &[&str]) -> Option<(A, B, C)> {
        let [first, second, third] = tokens else {
            return None;
        };
        Some((A::read(first)?, B::read(second)?, C::read(third)?))
    }
}

/// A command's name, and the tokens behind it.
#[derive(Clone, Copy)]
pub(crate) struct Line<'a> {
    pub name: &'a str,
    pub tokens: &'a [&'a str],
}

// Each of the functions below is given what the command takes, for the answer where the tokens are not that.
impl Line<'_> {
    /// No arguments.
    pub(crate) fn none(self, takes: &'static str) -> Result<(), Fault> {
        match self.tokens {
            [] => Ok(()),
            _ => Err(Fault::NoCommand(takes)),
        }
    }

    /// One argument, two or three.
    pub(crate) fn read<A: Arguments>(self, takes: &'static str) -> Result<A, Fault> {
        A::read_all(self.tokens).ok_or(Fault::NoCommand(takes))
    }

    /// Any number of arguments, of one kind.
    pub(crate) fn all<A: Argument>(
        self,
        heap: Global,
        takes: &'static str,
    ) -> Result<Vec<A>, Fault> {
        let mut values = Vec::new(heap);
        for token in self.tokens {
            values.push(A::read(token).ok_or(Fault::NoCommand(takes))?)?;
        }
        Ok(values)
    }
}
