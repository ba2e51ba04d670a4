#![tactic(auto)]

ghost use Rattle.notebooks.specs.Laws.{FloodLaws, NotebookLaw};

/// A flood word is read back, and no other word says the same.
pub fn flood_words_read_back()
    ensures { FloodLaws }
{}

/// What a notebook shows: empty, after one round more, what is to be put, and the bit of each path.
pub fn notebooks_show_what_was_heard()
    ensures { NotebookLaw }
{}
