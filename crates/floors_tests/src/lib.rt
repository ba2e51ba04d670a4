// Runs of the triangle and of the pair, over both airs.
#![tactic(auto)]

#[cfg(test)]
mod tests {
    use airs::{Air, Board, Strip};
    use floors::Floor;
    use plans::Plan;
    use runs::{Call, Value};
    use sites::{Refusal, SiteMask};
    use std::process::Abort;
    use std::test::Fail;

    // Three sites, each joined to the others, of which one may be rogue.
    const TRIANGLE: [u32; 16] = [
        0x8000_0031,
        0x9000_0001,
        0x9000_0002,
        0x9000_000A,
        0xA408_0000,
        0xA410_0000,
        0xA440_0000,
        0xA450_0000,
        0xA480_0000,
        0xA488_0000,
        0xB440_0000,
        0xB480_0000,
        0xB408_0000,
        0xB488_0000,
        0xB410_0000,
        0xB450_0000,
    ];

    // Opens the triangle: site 0 has bit 0, site 1 has bit 1, and site 2 is rogue.
    fn open_triangle<A: Air>(rt: &impl Abort, floor: &mut Floor<A>) -> Result<(), Fail> {
        let Ok(plan) = Plan::load(&TRIANGLE) else {
            return Err(Fail::new("the triangle does not load"));
        };
        assert_eq!(rt;
            floor.open(&plan, SiteMask { bits: 4 }, SiteMask { bits: 2 }),
            Ok(())
        );
        Ok(())
    }

    // Lets sites 0 and 1 speak, and ends the round.
    fn round<A: Air>(rt: &impl Abort, floor: &mut Floor<A>, turn: usize) {
        assert!(rt; floor.speak(0).is_ok());
        assert_eq!(rt; floor.turn(), Err(Refusal::Unspoken));
        assert!(rt; floor.speak(1).is_ok());
        assert_eq!(rt; floor.speak(1), Err(Refusal::Spoken));
        assert_eq!(rt; floor.turn(), Ok(turn));
    }

    // The rogue says 1 in round 1 and nothing later.
    fn lying_rogue<A: Air>(rt: &impl Abort, floor: &mut Floor<A>) -> Result<(), Fail> {
        open_triangle(rt, floor)?;
        assert_eq!(rt; floor.transmit(2, 0x1000_0001), Ok(1));
        round(rt, floor, 1);
        assert_eq!(rt; floor.recalled(0, 0x1240_0000), Ok(true));
        assert_eq!(rt; floor.recalled(0, 0x1450_0000), Err(Refusal::Unheard));
        round(rt, floor, 2);
        assert_eq!(rt; floor.held(0), Ok(true));
        assert_eq!(rt; floor.held(1), Ok(true));
        for turn in 3..8 {
            round(rt, floor, turn);
        }
        assert_eq!(rt; floor.decision(0), Err(Refusal::Undecided));
        round(rt, floor, 8);
        assert_eq!(rt; floor.decision(0), Ok(true));
        assert_eq!(rt; floor.decision(1), Ok(true));
        assert_eq!(rt; floor.turn(), Err(Refusal::Over));
        assert_eq!(rt; floor.speak(0), Err(Refusal::Over));
        assert_eq!(rt; floor.transmit(2, 0), Err(Refusal::Over));
        assert_eq!(rt; floor.turns(), 8);
        Ok(())
    }

    // The rogue says 0 and then 1: the first word counts.
    fn first_word<A: Air>(rt: &impl Abort, floor: &mut Floor<A>) -> Result<(), Fail> {
        open_triangle(rt, floor)?;
        assert_eq!(rt; floor.transmit(2, 0x1000_0000), Ok(1));
        assert_eq!(rt; floor.transmit(2, 0x1000_0001), Ok(2));
        round(rt, floor, 1);
        round(rt, floor, 2);
        assert_eq!(rt; floor.held(0), Ok(false));
        assert_eq!(rt; floor.held(1), Ok(false));
        Ok(())
    }

    // What is refused, the upper row of the table first.
    fn refusals<A: Air>(rt: &impl Abort, floor: &mut Floor<A>) -> Result<(), Fail> {
        open_triangle(rt, floor)?;
        let pair = Plan::built_in();
        assert_eq!(rt;
            floor.open(&pair, SiteMask { bits: 4 }, SiteMask { bits: 0 }),
            Err(Refusal::MaskSite)
        );
        assert_eq!(rt;
            floor.open(&pair, SiteMask { bits: 3 }, SiteMask { bits: 4 }),
            Err(Refusal::MaskSite)
        );
        assert_eq!(rt;
            floor.open(&pair, SiteMask { bits: 1 }, SiteMask { bits: 0 }),
            Err(Refusal::ManyRogues)
        );
        assert_eq!(rt; floor.transmit(3, 0), Err(Refusal::NoSite));
        assert_eq!(rt; floor.transmit(0, 0), Err(Refusal::SoundSite));
        assert_eq!(rt; floor.speak(3), Err(Refusal::NoSite));
        assert_eq!(rt; floor.speak(2), Err(Refusal::RogueSite));
        assert_eq!(rt; floor.held(255), Err(Refusal::NoSite));
        assert_eq!(rt; floor.held(2), Err(Refusal::RogueSite));
        assert_eq!(rt; floor.decision(3), Err(Refusal::NoSite));
        assert_eq!(rt; floor.decision(2), Err(Refusal::RogueSite));
        assert_eq!(rt; floor.decision(0), Err(Refusal::Undecided));
        assert_eq!(rt; floor.recalled(3, 0x1240_0001), Err(Refusal::Path));
        assert_eq!(rt; floor.recalled(3, 0x1240_0000), Err(Refusal::NoSite));
        assert_eq!(rt; floor.recalled(2, 0x1240_0000), Err(Refusal::RogueSite));
        assert_eq!(rt; floor.recalled(0, 0x1240_0000), Err(Refusal::Unheard));
        Ok(())
    }

    // The runs of the triangle over an air.
    fn triangle<A: Air + Drop>(rt: &impl Abort, air: A) -> Result<(), Fail> {
        let mut floor = Floor::new(air);
        lying_rogue(rt, &mut floor)?;
        first_word(rt, &mut floor)?;
        refusals(rt, &mut floor)
    }

    #[test]
    fn triangle_on_the_board(rt: HostRuntime) -> Result<(), Fail> {
        triangle(&rt, Board::new())
    }

    #[test]
    fn triangle_on_the_strip(rt: HostRuntime) -> Result<(), Fail> {
        triangle(&rt, Strip::new())
    }

    #[test]
    fn pair_in_one_list(rt: HostRuntime) {
        let calls = [
            Call::Speak { site: 0 },
            Call::Speak { site: 1 },
            Call::Decision { site: 0 },
            Call::Turn,
            Call::Decision { site: 0 },
            Call::Decision { site: 1 },
            Call::Turn,
        ];
        let wanted = [
            Ok(Value::Count(1)),
            Ok(Value::Count(1)),
            Err(Refusal::Undecided),
            Ok(Value::Count(1)),
            Ok(Value::Bit(true)),
            Ok(Value::Bit(true)),
            Err(Refusal::Over),
        ];
        let mut answers = [Ok(Value::Count(0)); 7];
        let mut floor = Floor::new(Board::new());
        let plan = Plan::built_in();
        assert_eq!(rt;
            floor.run(
                &plan,
                SiteMask { bits: 0 },
                SiteMask { bits: 2 },
                &calls,
                &mut answers,
            ),
            Ok(7)
        );
        assert_eq!(rt; answers, wanted);
    }
}
