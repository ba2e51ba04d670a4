ghost use Rattle.std.specs.Prelude.{◌≡◌, ◌^◌, bit_and, count_ones, nat_lt};
ghost use Rattle.sites.specs.Sets.{in_set};

/// A set of sites: site s is in it where bit s is set, bit 0 lowest.
#[derive(Clone, Copy, PartialEq, Eq, Debug)]
pub struct SiteMask {
    pub bits: u32,
}

impl SiteMask {
    /// Whether a site is in the set.
    pub fn contains(&self, site: u8) -> bool
        ensures { result ≡ in_set self.now.bits site }
    {
        let bits = self.bits;
        site < 32 && (bits >> site) % 2 == 1
    }

    /// How many sites are in the set.
    pub fn count(&self) -> u32
        ensures { result ≡ count_ones self.now.bits }
    {
        self.bits.count_ones()
    }

    /// Whether every site of the set is below n.
    pub fn is_below(&self, n: u8) -> bool
        ensures { result ≡ nat_lt self.now.bits (2 ^ n) }
    {
        let bits = self.bits;
        n >= 32 || bits >> n == 0
    }

    /// The sites that are in both sets.
    pub fn and(&self, other: SiteMask) -> SiteMask
        ensures { result.bits ≡ bit_and self.now.bits other.bits }
    {
        SiteMask {
            bits: self.bits & other.bits,
        }
    }
}
