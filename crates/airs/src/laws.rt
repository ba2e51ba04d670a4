ghost use Rattle.std.specs.Prelude.{◌≡◌, ◌↔◌, IsTrue};
ghost use Rattle.airs.specs.Lanes.{lane};
ghost use Rattle.airs.specs.Laws.{PutLaw, AlikeLaw, ClearLaw, PastLaw};

use super::air::Air;

/// Whether some words are exactly a site's lane, read by `count` and `at`.
pub fn is_lane<A: Air>(air: &A, site: u8, words: &[u32]) -> bool
    ensures { IsTrue result ↔ (words.now ≡ lane (A.lanes air.now) site) }
{
    air.count(site) == words.len()
        && words
            .iter()
            .enumerate()
            .all(|(k, word)| air.at(site, k) == Some(*word))
}

/// What a put does to its own lane and to the others, and that the lane size shows only in a full lane.
#[tactic(auto, using(crate::proofs::Puts::put_law, crate::proofs::Puts::alike_law))]
pub fn put_law_holds()
    ensures put { PutLaw }
    ensures alike { AlikeLaw }
{}

/// What is in the lanes after a clearing, and in the lane of a site of 6 or more.
#[tactic(auto, using(crate::proofs::Puts::clear_law, crate::proofs::Puts::past_law))]
pub fn empty_law_holds()
    ensures cleared { ClearLaw }
    ensures past { PastLaw }
{}
