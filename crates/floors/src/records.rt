ghost use Rattle.std.specs.Prelude.{◌≡◌, ◌<◌, ◌&&◌, map};
ghost use Rattle.std.specs.List.{range_with_len};
ghost use Rattle.sites.specs.Sets.{in_set};
ghost use Rattle.floors.specs.Views.{seen, record_at, fresh, sound_of};

use crate::record::{Records, SiteRecord};
use rounds::Notebook;
use sites::SiteMask;
use std::array;

// Whether a site is below n and no rogue. n and the rogues stand apart: the plan has the one and the floor the other, and a
// pair of them would be made anew at each call.
pub(crate) fn is_sound(n: u8, rogues: SiteMask, site: u8) -> bool
    ensures { result ≡ sound_of n rogues.bits site }
{
    site < n && !rogues.contains(site)
}

impl Records {
    // The record of a site when a floor is opened: it has heard nothing.
    fn first(n: u8, rogues: SiteMask, bits: SiteMask, site: u8) -> SiteRecord
        ensures { seen result ≡ fresh (sound_of n rogues.bits site && in_set bits.bits site) }
    {
        SiteRecord {
            bit: is_sound(n, rogues, site) && bits.contains(site),
            spoken: false,
            notebook: Notebook::new(),
        }
    }

    // The records when a floor is opened: the sound sites hold their bits.
    pub(crate) fn opened(n: u8, rogues: SiteMask, bits: SiteMask) -> Records
        ensures { map seen result.sites ≡ map (λ s. fresh (sound_of n rogues.bits s && in_set bits.bits s)) (range_with_len 0 6) }
    {
        Records {
            sites: array::from_fn(|site| Records::first(n, rogues, bits, site as u8)),
        }
    }

    // The record of a site.
    pub(crate) fn of(&self, site: u8) -> &SiteRecord
        requires { site < 6 }
        ensures { seen result.now ≡ record_at self.now site }
    {
        &self.sites[site as usize]
    }
}
