ghost use Rattle.std.specs.Prelude.{◌<◌};

use crate::wiring::Wiring;

/// A site of a network and the wiring of that network: what the paths that the site expects are made from.
#[derive(Clone, Copy)]
pub(crate) struct SiteWiring<'a> {
    pub(crate) wiring: &'a Wiring,
    pub(crate) site: u8,
    ghost inside: { site < wiring.now.n },
}
