ghost use Rattle.std.specs.Prelude.{◌≡◌, ℕ, ◌+◌, ◌-◌, ◌<◌, ◌≤◌, true, length, take};
ghost use Rattle.sites.specs.Positions.{all_from};
ghost use Rattle.words.specs.Paths.{fresh_at, site_ok, path?, zero_from};
ghost use Rattle.words.specs.Words.{MakesPath, MakesFrom, sites_of};

use crate::path::Path;
use sites::Refusal;
use std::fmt;

// Whether some sites are below 6 and differ.
fn are_different(sites: &[u8]) -> bool
    ensures { result ≡ all_from (site_ok sites.now) 0 (length sites.now) }
{
    sites
        .iter()
        .enumerate()
        .all(|(i, site)| *site < 6 && !sites[..i].contains(site))
}

// Whether the fields from place n on are zero.
fn is_zero_from(fields: &[u8; 6], n: usize) -> bool
    requires { n ≤ 6 }
    ensures { result ≡ zero_from fields.now n }
{
    fields.iter().skip(n).all(|field| *field == 0)
}

// Some sites in six fields, with zeros past their end.
fn padded(sites: &[u8]) -> [u8; 6]
    requires { length sites.now ≤ 6 }
    ensures front { take (length sites.now) result ≡ sites.now }
    ensures zeros { zero_from result (length sites.now) ≡ true }
    ensures six { length result ≡ 6 }
{
    let len = sites.len();
    let mut fields = [0u8; 6];
    fields[0..len].copy_from_slice(sites);
    fields
}

impl Path {
    // The path in six fields, of which so many count.
    pub(crate) fn from_fields(fields: [u8; 6], len: usize) -> Result<Path, Refusal>
        requires { (len ≤ 6) × (length fields ≡ 6) }
        ensures { MakesFrom fields len result }
    {
        if !are_different(&fields[0..len]) || !is_zero_from(&fields, len) {
            return Err(Refusal::Path);
        }
        Ok(Path { sites: fields, len })
    }

    /// The path over some sites; refused with 5 where they are more than six, not below 6, or not different.
    pub fn new(sites: &[u8]) -> Result<Path, Refusal>
        ensures { MakesPath sites.now result }
    {
        if sites.len() > 6 || !are_different(sites) {
            return Err(Refusal::Path);
        }
        Ok(Path {
            sites: padded(sites),
            len: sites.len(),
        })
    }

    /// Its sites, from its first to its last.
    pub fn sites(&self) -> &[u8]
        ensures { result.now ≡ sites_of self.now }
    {
        &self.sites[0..self.len]
    }
}

/// Its sites in decimal with dashes between; nothing for the empty path.
impl fmt::Display for Path {
    fn fmt<W: fmt::Write>(&self, f: &mut fmt::Formatter<W>) -> fmt::Result {
        for (i, site) in self.sites().iter().enumerate() {
            if i > 0 {
                f.write_str("-")?;
            }
            write!(f, "{site}")?;
        }
        Ok(())
    }
}
