#![tactic(auto)]

ghost use Rattle.theory.specs.Complete.{CompleteLaw};
ghost use Rattle.theory.specs.Examples.{Table, TriangleAndPair};
ghost use Rattle.theory.specs.Expected.{ExpectedLaw};
ghost use Rattle.theory.specs.Laws.{AgreementLaw, CoverLaw, OneRunLaw, PastLaw, PhaseLaw, RelayLaw, SettledLaw, TurnsLaw};

/// The expected paths of a site are exactly those of the rule, none twice, ascending, and few.
pub fn expected_paths_follow_the_rule()
    ensures { ExpectedLaw }
{}

/// A path whose relays are sound carries the bit that its source flooded.
pub fn sound_relays_carry()
    ensures { RelayLaw }
{}

/// After each phase a sound site holds a bit that some sound site held before it.
pub fn phases_keep_sound_bits()
    ensures { PhaseLaw }
{}

/// From the end of a phase whose suspect set holds every rogue, all sound sites hold the same bit.
pub fn covering_phase_settles()
    ensures { SettledLaw }
{}

/// Some phase has a suspect set that holds every rogue.
pub fn some_phase_covers()
    ensures { CoverLaw }
{}

/// When all phases are over, all sound sites hold the same bit, and some sound site opened with it.
pub fn sound_sites_agree()
    ensures { AgreementLaw }
{}

/// Origin and agreement after any number of turns.
pub fn sound_sites_agree_by_turns()
    ensures { TurnsLaw }
{}

/// What is held and owed depends only on what was said in earlier turns.
pub fn only_the_past_counts()
    ensures { PastLaw }
{}

/// For any words of the rogues there is exactly one run.
pub fn rogues_fix_the_run()
    ensures { OneRunLaw }
{}

/// A network that passes the test of completeness is lawful.
pub fn complete_networks_are_lawful()
    ensures { CompleteLaw }
{}

/// The runs of the triangle and of the pair, and the rows of the table.
pub fn examples_come_out()
    ensures { (TriangleAndPair) × (Table) }
{}
