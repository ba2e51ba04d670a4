ghost use Rattle.tables.specs.Laws.{EdgesLaw};

/// What a site expects depends only on the sites and edges of a network: a table that is made from a plan's wiring
/// lists what the plan's network has its site expect.
pub fn edges_tell_the_paths()
    ensures { EdgesLaw }
{}
