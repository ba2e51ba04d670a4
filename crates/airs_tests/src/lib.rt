// Both airs on many cases.
#![tactic(auto)]

#[cfg(test)]
mod tests {
    use airs::{Air, Board, Entry, Strip, is_lane};
    use sites::Refusal;
    use std::process::Abort;
    use std::test::Fail;

    // The word that the tests put at a position of a site's lane.
    fn word_for(site: u8, position: usize) -> u32 {
        site as u32 * 0x0100_0000 + (position % 1000) as u32
    }

    // Puts words into a lane until it has some count, and tests each answer.
    fn fill<A: Air>(rt: &impl Abort, air: &mut A, site: u8, count: usize) {
        for k in 0..count {
            assert_eq!(rt; air.put(site, word_for(site, k)), Ok(k + 1));
        }
    }

    // Tests that a lane has exactly the words that `fill` puts.
    fn holds<A: Air>(rt: &impl Abort, air: &A, site: u8, count: usize) -> Result<(), Fail> {
        assert_eq!(rt; air.count(site), count);
        for k in 0..count {
            assert_eq!(rt; air.at(site, k), Some(word_for(site, k)));
        }
        assert_eq!(rt; air.at(site, count), None);
        assert_eq!(rt; air.at(site, usize::MAX), None);
        Ok(())
    }

    // Tests one lane with some count of words, beside five with none.
    fn one_lane<A: Air>(rt: &impl Abort, air: &mut A, site: u8, count: usize) -> Result<(), Fail> {
        air.clear();
        fill(rt, air, site, count);
        for other in 0..6 {
            holds(rt, air, other, if other == site { count } else { 0 })?;
        }
        let next = air.put(site, 0xFFFF_FFFF);
        if count < air.lane_size() {
            assert_eq!(rt; next, Ok(count + 1));
            Ok(())
        } else {
            assert_eq!(rt; next, Err(Refusal::LaneFull));
            holds(rt, air, site, count)
        }
    }

    // Tests six full lanes, sites past them, and a clearing.
    fn six_lanes<A: Air>(rt: &impl Abort, air: &mut A) -> Result<(), Fail> {
        let size = air.lane_size();
        for site in 0..6 {
            fill(rt, air, site, size);
        }
        for site in 0..6 {
            assert_eq!(rt; air.put(site, 1), Err(Refusal::LaneFull));
            holds(rt, air, site, size)?;
        }
        for site in [6, 7, 255] {
            assert_eq!(rt; air.put(site, 1), Err(Refusal::NoSite));
            holds(rt, air, site, 0)?;
        }
        air.clear();
        for site in 0..6 {
            holds(rt, air, site, 0)?;
        }
        one_lane(rt, air, 5, 2)
    }

    // Puts words of six sites in turn into two airs, of different lengths a lane, and tests that they answer alike.
    fn in_turn<A: Air, B: Air>(rt: &impl Abort, a: &mut A, b: &mut B) -> Result<(), Fail> {
        for k in 0..120 {
            for site in 0..8 {
                if k < 115 + site as usize {
                    let word = word_for(site, k);
                    assert_eq!(rt; a.put(site, word), b.put(site, word));
                }
            }
        }
        for site in 0..8 {
            assert_eq!(rt; a.count(site), b.count(site));
            for k in 0..121 {
                assert_eq!(rt; a.at(site, k), b.at(site, k));
            }
        }
        holds(rt, a, 0, 115)?;
        holds(rt, a, 4, 119)?;
        holds(rt, a, 5, 120)
    }

    // Tests an air's size of a lane, and one lane with each of some counts of words.
    fn limits<A: Air>(
        rt: &impl Abort,
        air: &mut A,
        size: usize,
        counts: &[usize],
    ) -> Result<(), Fail> {
        assert_eq!(rt; air.lane_size(), size);
        for count in counts {
            one_lane(rt, air, 3, *count)?;
        }
        Ok(())
    }

    #[test]
    fn board_limits(rt: HostRuntime) -> Result<(), Fail> {
        limits(&rt, &mut Board::new(), 120, &[0, 1, 119, 120])
    }

    #[test]
    fn strip_limits(rt: HostRuntime) -> Result<(), Fail> {
        limits(&rt, &mut Strip::new(), 160, &[0, 1, 119, 120, 159, 160])
    }

    #[test]
    fn full_lanes(rt: HostRuntime) -> Result<(), Fail> {
        six_lanes(&rt, &mut Board::new())?;
        six_lanes(&rt, &mut Strip::new())
    }

    #[test]
    fn alike(rt: HostRuntime) -> Result<(), Fail> {
        in_turn(&rt, &mut Board::new(), &mut Strip::new())
    }

    #[test]
    fn run_of_pairs(rt: HostRuntime) {
        let mut strip = Strip::new();
        let puts = [(5, 0x1000_0001), (0, 7), (6, 8), (5, 0xFFFF_FFFF), (2, 0)];
        for (site, word) in puts {
            let _ = strip.put(site, word);
        }
        let pair = |site_word, word| Entry { site_word, word };
        let pairs = [
            pair(0xC000_0005, 0x1000_0001),
            pair(0xC000_0000, 7),
            pair(0xC000_0005, 0xFFFF_FFFF),
            pair(0xC000_0002, 0),
        ];
        assert_eq!(rt; strip.pairs(), pairs.as_slice());
    }

    #[test]
    fn whole_lanes(rt: HostRuntime) {
        let mut strip = Strip::new();
        assert!(rt; is_lane(&strip, 1, &[]));
        let _ = strip.put(1, 10);
        let _ = strip.put(0, 11);
        let _ = strip.put(1, 12);
        assert!(rt; is_lane(&strip, 1, &[10, 12]));
        assert!(rt; !is_lane(&strip, 1, &[10, 11]));
        assert!(rt; !is_lane(&strip, 1, &[10]));
        assert!(rt; is_lane(&strip, 6, &[]));
    }
}
