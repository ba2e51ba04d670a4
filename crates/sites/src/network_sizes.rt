ghost use Rattle.std.specs.Prelude.{◌≡◌, ◌-◌, ◌/◌, ◌^◌, ◌<◌, ◌≤◌, length, bit_and, count_ones, slice_index};
ghost use Rattle.std.specs.Option.{option_map};
ghost use Rattle.sites.specs.Keepers.{keepers};
ghost use Rattle.sites.specs.Suspects.{suspects, suspect?, set_at};

use crate::mask::SiteMask;
use crate::network_size::NetworkSize;

// The sets of two of six sites, by mask; those of n sites stand first.
const PAIRS: [u32; 15] = [3, 5, 6, 9, 10, 12, 17, 18, 20, 24, 33, 34, 36, 40, 48];

impl NetworkSize {
    /// The set of all sites.
    pub fn all(&self) -> SiteMask
        ensures { result.bits ≡ 2 ^ self.now.sites - 1 }
    {
        SiteMask {
            bits: (1 << self.sites) - 1,
        }
    }

    /// How many suspect sets there are: the sets of at most f of the n sites.
    pub fn suspect_count(&self) -> usize
        ensures { result ≡ length (suspects self.now.sites self.now.rogues) }
    {
        let n = usize::from(self.sites);
        match self.rogues {
            0 => 1,
            1 => 1 + n,
            _ => 1 + n * (n + 1) / 2,
        }
    }

    // The k-th of them.
    #[tactic(auto, using(crate::proofs::Table::nth_is, crate::proofs::Table::pair_within, std::proofs::lemmas::Bool::Decides::nat_tests))]
    fn nth_suspect(&self, k: usize) -> u32
        requires { k < length (suspects self.now.sites self.now.rogues) }
        ensures { result ≡ slice_index (suspects self.now.sites self.now.rogues) k }
    {
        let n = usize::from(self.sites);
        if k == 0 {
            return 0;
        }
        if k <= n {
            return 1 << (k - 1);
        }
        PAIRS[k - n - 1]
    }

    /// The k-th suspect set, by size and then by mask; none past the last.
    pub fn suspect(&self, k: usize) -> Option<SiteMask>
        ensures { option_map (λ m. m.bits) result ≡ set_at self.now.sites self.now.rogues k }
    {
        if k >= self.suspect_count() {
            return None;
        }
        let bits = self.nth_suspect(k);
        Some(SiteMask { bits })
    }

    /// Whether a set is a suspect set.
    pub fn is_suspect(&self, set: SiteMask) -> bool
        ensures { result ≡ suspect? self.now.sites self.now.rogues set.bits }
    {
        set.is_below(self.sites) && set.count() <= u32::from(self.rogues)
    }

    // Half of the rogues, rounded down: how many suspects a set may have and still be trusted.
    fn half(&self) -> u32
        ensures { result ≡ self.now.rogues / 2 }
    {
        u32::from(self.rogues) / 2
    }

    /// The set A of the sites that keep their bits when a phase is weighed, where a set is suspected and the sites of Z
    /// have bit 0; N are the others of the n sites, and B is the other one of Z and N.
    ///
    /// | suspects in Z | further | A |
    /// |---|---|---|
    /// | at most f / 2 | more than f sites in N | N |
    /// | at most f / 2 | at most f sites in N | Z |
    /// | more than f / 2 | more than f sites in Z | Z |
    /// | more than f / 2 | at most f sites in Z | N |
    #[tactic(auto, using(std::proofs::lemmas::Bool::Decides::nat_tests), unfolding(crate::specs::Keepers::keepers))]
    pub fn keepers(&self, set: SiteMask, zeros: SiteMask) -> SiteMask
        ensures { result.bits ≡ keepers self.now.sites self.now.rogues set.bits zeros.bits }
    {
        let limit = u32::from(self.rogues);
        let rest = SiteMask {
            bits: self.all().bits.saturating_sub(zeros.bits),
        };
        if suspects_in(set, zeros) <= self.half() {
            if rest.count() > limit {
                return rest;
            }
            return zeros;
        }
        if zeros.count() > limit {
            return zeros;
        }
        rest
    }
}

// How many suspects have bit 0.
fn suspects_in(set: SiteMask, zeros: SiteMask) -> u32
    ensures { result ≡ count_ones (bit_and zeros.bits set.bits) }
{
    zeros.and(set).count()
}
