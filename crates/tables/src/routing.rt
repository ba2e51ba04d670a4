ghost use Rattle.std.specs.Prelude.{◌≡◌, ℕ, ◌≤◌, true, map, is_some};
ghost use Rattle.std.specs.List.{AllByRecursion};
ghost use Rattle.words.specs.Layout.{path_field};
ghost use Rattle.words.specs.Words.{meaning, sites_of};
ghost use Rattle.theory.specs.Network.{Network, Lawful};

use sites::SiteMask;
use words::Path;

/// What a site must know of its network: the sites and edges, and the routes and fans taken. Its meaning is a lawful
/// network of at most six sites.
pub trait Routing {
    ghost network: { Self → Network };

    /// How many sites there are: n.
    fn site_count(&self) -> u8
        ensures { result ≡ (network self.now).n };

    /// How many of them may be rogue: f.
    fn rogue_limit(&self) -> u8
        ensures { result ≡ (network self.now).f };

    /// Whether the second site hears the first.
    fn are_joined(&self, a: u8, b: u8) -> bool
        ensures { result ≡ (network self.now).joined a b };

    /// The route taken from one site to another where a set is suspected.
    fn route(&self, set: SiteMask, from: u8, to: u8) -> Path
        ensures { sites_of result ≡ (network self.now).route set.bits from to };

    /// The fan taken at a site, from sources among some sites, where a set is suspected: lawful path words.
    fn fan(&self, set: SiteMask, at: u8, among: SiteMask) -> &[u32]
        ensures paths { map path_field result.now ≡ (network self.now).fan set.bits at among.bits }
        ensures lawful { AllByRecursion (λ w. is_some (meaning w) ≡ true) result.now };

    ghost lawful: { (p : Self) → Lawful (network p) };

    ghost few: { (p : Self) → (network p).n ≤ 6 };

    ghost limited: { (p : Self) → (network p).f ≤ 2 };
}
