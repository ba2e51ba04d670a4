ghost use Rattle.rounds.specs.Laws.{AlikeLaw};

/// What is noted, put, recalled and told depends only on the sites and edges of a network: a table that is made from a
/// plan's wiring serves the plan's network.
pub fn edges_tell_the_notebook()
    ensures { AlikeLaw }
{}
