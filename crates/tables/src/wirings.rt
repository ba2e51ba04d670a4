ghost use Rattle.std.specs.Prelude.{◌≡◌};
ghost use Rattle.sites.specs.Sets.{mask_of};
ghost use Rattle.tables.specs.Wirings.{SameEdges};
ghost use Rattle.tables.specs.Tables.{network_of};

use crate::routing::Routing;
use crate::wiring::Wiring;
use std::array;

// The sites below n that hear a site.
fn hearers<P: Routing>(plan: &P, site: u8) -> u32
    ensures { result ≡ mask_of (P.network plan.now).n (λ s. (P.network plan.now).joined site s) }
{
    // a loop here and in a phase's zeros: one function for both would be public and ask that a closure may be called
    let mut mask = 0;
    for s in 0..plan.site_count() {
        if plan.are_joined(site, s) {
            mask += 1 << s;
        }
    }
    mask
}

impl Wiring {
    /// The sites and edges of a plan.
    pub fn of<P: Routing>(plan: &P) -> Wiring
        ensures { SameEdges (P.network plan.now) (network_of result) }
    {
        Wiring {
            n: plan.site_count(),
            near: array::from_fn(|site| hearers(plan, site as u8)),
        }
    }
}
