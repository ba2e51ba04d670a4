ghost use Rattle.std.specs.Prelude.{◌≡◌, ℕ, ◌<◌, true, [], map, length, slice_index, slice_index_or};
ghost use Rattle.theory.specs.Flooding.{expected};
ghost use Rattle.floors.specs.Tables.{site_network, table_site, table_count, level_at, same_paths};

use site_plans::SitePlan;
use tables::PathTable;

/// What a floor was opened on: a copy of the plan and, for each site, the table of the paths along which it expects a
/// bit. Each table is that of its place, and has the paths that the plan's network has.
#[derive(Clone, Copy)]
pub(crate) struct Ground {
    pub(crate) base: SitePlan,
    pub(crate) tables: [PathTable; 6],
    ghost six: { length tables ≡ 6 },
    ghost placed: { (s : ℕ) → s < 6 → slice_index (map table_site tables) s ≡ s },
    ghost counted: { (s : ℕ) → s < 6 → slice_index (map table_count tables) s ≡ (site_network base).n },
    ghost listed: { (s k : ℕ) → s < (site_network base).n → same_paths (slice_index_or (map (level_at k) tables) s []) (expected (site_network base) s k) ≡ true },
}
