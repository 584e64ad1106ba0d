// The rules for curves tried on examples, with numbers worked out by hand.
#![tactic(auto)]

#[cfg(test)]
mod tests {
    use curve::Curve;
    use curve::band::Band;
    use curve::cost::cost_at;
    use curve::fault::CurveFault;
    use curve::knees::Knees;
    use curve::pair::Pair;
    use curve::square::Square;
    use curve::written::Written;
    use std::process::Abort;
    use std::test::Fail;

    const SQUARE_COSTS: [(u16, i64); 5] = [(0, 18), (2, 2), (3, 0), (4, 2), (1_023, 2_080_800)];

    const BAND_COSTS: [(u16, i64); 5] = [(0, 10), (1, 0), (4, 0), (5, 1), (1_023, 1_019)];

    const KNEES_COSTS: [(u16, i64); 5] = [(0, 12), (4, 0), (6, 0), (7, 5), (1_023, 5_085)];

    // Costs 2 times the square of the distance from 3.
    fn square() -> Result<Square, CurveFault> {
        Square::new(2, 3)
    }

    // Free from 1 to 4, 10 for the level below and 1 for each level above.
    fn band() -> Result<Band, CurveFault> {
        Band::new(1, 4, 10, 1)
    }

    // Falls from 12 by 3 for each level, is flat from 4 on, and climbs by 5 for each level from 6 on.
    fn knees() -> Result<Knees, CurveFault> {
        Knees::new(12, -3, 2, [4, 6, 0, 0, 0, 0], [0, 5, 0, 0, 0, 0])
    }

    // Steps once at level 0, not above 0, and once at level 1,022, not below 0; flat between.
    fn bent(ground: i64, first: i32, last: i32) -> Result<Knees, CurveFault> {
        Knees::new(
            ground,
            first,
            2,
            [1, 1_022, 0, 0, 0, 0],
            [0, last, 0, 0, 0, 0],
        )
    }

    fn costs<C: Curve>(rt: &impl Abort, curve: &C, table: &[(u16, i64)]) {
        for (level, cost) in table {
            assert_eq!(rt; cost_at(curve, *level), Some(*cost));
        }
        assert_eq!(rt; cost_at(curve, 1_024), None);
        assert_eq!(rt; cost_at(curve, u16::MAX), None);
    }

    fn steps_end<C: Curve>(rt: &impl Abort, curve: &C, last: i64) {
        for level in [1_022, 1_023, 1_024, u16::MAX] {
            assert_eq!(rt; curve.step(level), last);
        }
    }

    fn agree<C: Curve, D: Curve>(rt: &impl Abort, first: &C, second: &D) {
        assert_eq!(rt; first.ground(), second.ground());
        for level in 0..1_023 {
            assert_eq!(rt; first.step(level), second.step(level));
        }
    }

    #[test]
    fn each_refusal_has_its_number(rt: HostRuntime) {
        for (fault, number) in [
            (CurveFault::Weight, 1),
            (CurveFault::Target, 2),
            (CurveFault::Edges, 3),
            (CurveFault::Rate, 4),
            (CurveFault::KneeCount, 5),
            (CurveFault::KneeLevels, 6),
            (CurveFault::KneeSteps, 7),
            (CurveFault::Ground, 8),
            (CurveFault::Sum, 9),
        ] {
            assert_eq!(rt; fault.number(), number);
        }
    }

    #[test]
    fn squares_keep_their_rules(rt: HostRuntime) {
        for (weight, target, fault) in [
            (1, 0, None),
            (400_000, 1_023, None),
            (0, 0, Some(CurveFault::Weight)),
            (400_001, 0, Some(CurveFault::Weight)),
            (1, 1_024, Some(CurveFault::Target)),
            (400_001, 1_024, Some(CurveFault::Weight)),
        ] {
            assert_eq!(rt; Square::new(weight, target).err(), fault);
            assert_eq!(rt; Written::Square { weight, target }.fault(), fault);
        }
    }

    #[test]
    fn bands_keep_their_rules(rt: HostRuntime) {
        for (cold, warm, cold_rate, warm_rate, fault) in [
            (500, 500, 0, 0, None),
            (0, 1_023, 900_000_000, 900_000_000, None),
            (501, 500, 0, 0, Some(CurveFault::Edges)),
            (0, 1_024, 0, 0, Some(CurveFault::Edges)),
            (0, 0, 900_000_001, 0, Some(CurveFault::Rate)),
            (0, 0, 0, 900_000_001, Some(CurveFault::Rate)),
            (501, 500, 900_000_001, 0, Some(CurveFault::Edges)),
        ] {
            assert_eq!(rt; Band::new(cold, warm, cold_rate, warm_rate).err(), fault);
            let written = Written::Band {
                cold,
                warm,
                cold_rate,
                warm_rate,
            };
            assert_eq!(rt; written.fault(), fault);
        }
    }

    fn knees_answer(
        rt: &impl Abort,
        ground: i64,
        first: i32,
        count: u8,
        levels: [u16; 6],
        steps: [i32; 6],
        fault: Option<CurveFault>,
    ) {
        assert_eq!(rt;
            Knees::new(ground, first, count as usize, levels, steps).err(),
            fault
        );
        let written = Written::Knees {
            ground,
            first,
            count,
            levels,
            steps,
        };
        assert_eq!(rt; written.fault(), fault);
    }

    #[test]
    fn knees_are_counted(rt: HostRuntime) {
        for (count, fault) in [
            (0, Some(CurveFault::KneeCount)),
            (1, None),
            (6, None),
            (7, Some(CurveFault::KneeCount)),
            (u8::MAX, Some(CurveFault::KneeCount)),
        ] {
            knees_answer(&rt, 0, 0, count, [1, 2, 3, 4, 5, 6], [0; 6], fault);
        }
    }

    #[test]
    fn knees_rise(rt: HostRuntime) {
        let refused = Some(CurveFault::KneeLevels);
        for (count, levels, fault) in [
            (1, [0, 0, 0, 0, 0, 0], refused),
            (1, [1, 0, 0, 0, 0, 0], None),
            (1, [1_022, 0, 0, 0, 0, 0], None),
            (1, [1_023, 0, 0, 0, 0, 0], refused),
            (2, [4, 5, 0, 0, 0, 0], None),
            (2, [4, 4, 0, 0, 0, 0], refused),
            (2, [4, 3, 0, 0, 0, 0], refused),
            (6, [1, 2, 3, 4, 5, 1_022], None),
            (6, [1, 2, 3, 4, 5, 1_023], refused),
            (5, [1, 2, 3, 4, 5, 1_023], None),
        ] {
            knees_answer(&rt, 0, 0, count, levels, [0; 6], fault);
        }
    }

    #[test]
    fn knees_never_fall(rt: HostRuntime) {
        let refused = Some(CurveFault::KneeSteps);
        for (first, steps, fault) in [
            (-900_000_000, [0, 0, 0, 0, 0, 0], None),
            (-900_000_001, [0, 0, 0, 0, 0, 0], refused),
            (900_000_000, [900_000_000, 900_000_000, 0, 0, 0, 0], None),
            (900_000_001, [900_000_001, 900_000_001, 0, 0, 0, 0], refused),
            (-900_000_000, [-900_000_000, 0, 0, 0, 0, 0], None),
            (-900_000_001, [-900_000_001, 0, 0, 0, 0, 0], refused),
            (0, [0, 900_000_000, 0, 0, 0, 0], None),
            (0, [0, 900_000_001, 0, 0, 0, 0], refused),
            (0, [-1, 0, 0, 0, 0, 0], refused),
            (0, [5, 4, 0, 0, 0, 0], refused),
            (0, [5, 5, 4, 0, 0, 0], None),
        ] {
            knees_answer(&rt, 0, first, 2, [1, 2, 0, 0, 0, 0], steps, fault);
        }
    }

    #[test]
    fn knees_stand_on_a_held_ground(rt: HostRuntime) {
        for (ground, fault) in [
            (1_000_000_000_000, None),
            (1_000_000_000_001, Some(CurveFault::Ground)),
            (-1_000_000_000_000, None),
            (-1_000_000_000_001, Some(CurveFault::Ground)),
        ] {
            knees_answer(&rt, ground, 0, 1, [1, 0, 0, 0, 0, 0], [0; 6], fault);
        }
    }

    // Each row mends the rule that the row before it is refused for, and breaks those behind it.
    #[test]
    fn knees_name_the_first_broken_rule(rt: HostRuntime) {
        for (count, levels, first, fault) in [
            (7, [2, 1, 0, 0, 0, 0], 1, CurveFault::KneeCount),
            (2, [2, 1, 0, 0, 0, 0], 1, CurveFault::KneeLevels),
            (2, [1, 2, 0, 0, 0, 0], 1, CurveFault::KneeSteps),
            (2, [1, 2, 0, 0, 0, 0], 0, CurveFault::Ground),
        ] {
            knees_answer(
                &rt,
                1_000_000_000_001,
                first,
                count,
                levels,
                [0; 6],
                Some(fault),
            );
        }
    }

    #[test]
    fn knees_past_the_count_are_ignored(rt: HostRuntime) -> Result<(), Fail> {
        let levels = [4, 6, 0, u16::MAX, 5, 5];
        let steps = [0, 5, i32::MIN, i32::MAX, -1, 7];
        let garbage = Knees::new(12, -3, 2, levels, steps)?;
        costs(&rt, &garbage, &KNEES_COSTS);
        agree(&rt, &garbage, &knees()?);
        Ok(())
    }

    #[test]
    fn curves_cost_what_their_rules_say(rt: HostRuntime) -> Result<(), Fail> {
        costs(&rt, &square()?, &SQUARE_COSTS);
        costs(&rt, &band()?, &BAND_COSTS);
        costs(&rt, &knees()?, &KNEES_COSTS);
        let far = Square::new(400_000, 1_023)?;
        costs(
            &rt,
            &far,
            &[(0, 418_611_600_000), (1_022, 400_000), (1_023, 0)],
        );
        let steep = Band::new(1_023, 1_023, 900_000_000, 0)?;
        costs(&rt, &steep, &[(0, 920_700_000_000), (1_023, 0)]);
        Ok(())
    }

    #[test]
    fn the_last_step_holds_above_it(rt: HostRuntime) -> Result<(), Fail> {
        steps_end(&rt, &square()?, 4_078);
        steps_end(&rt, &Square::new(7, 1_023)?, -7);
        steps_end(&rt, &band()?, 1);
        steps_end(&rt, &Band::new(0, 1_023, 7, 9)?, 0);
        steps_end(&rt, &Band::new(1_023, 1_023, 7, 9)?, -7);
        steps_end(&rt, &bent(0, 0, 8)?, 8);
        steps_end(&rt, &Pair::new(square()?, bent(0, 0, 8)?)?, 4_086);
        let written = Written::Square {
            weight: 7,
            target: 1_023,
        };
        steps_end(&rt, &written, -7);
        Ok(())
    }

    #[test]
    fn pairs_keep_to_the_limits(rt: HostRuntime) -> Result<(), Fail> {
        let refused = Some(CurveFault::Sum);
        let steep = Square::new(400_000, 0)?;
        assert_eq!(rt; Pair::new(steep, steep).err(), refused);
        let far = 1_000_000_000_000;
        for (first, second, fault) in [
            (bent(far, 0, 0)?, bent(0, 0, 0)?, None),
            (bent(far, 0, 0)?, bent(1, 0, 0)?, refused),
            (bent(-far, 0, 0)?, bent(0, 0, 0)?, None),
            (bent(-far, 0, 0)?, bent(-1, 0, 0)?, refused),
            (bent(0, -900_000_000, 0)?, bent(0, -100_000_000, 0)?, None),
            (
                bent(0, -900_000_000, 0)?,
                bent(0, -100_000_001, 0)?,
                refused,
            ),
            (bent(0, 0, 900_000_000)?, bent(0, 0, 100_000_000)?, None),
            (bent(0, 0, 900_000_000)?, bent(0, 0, 100_000_001)?, refused),
        ] {
            assert_eq!(rt; Pair::new(first, second).err(), fault);
        }
        Ok(())
    }

    #[test]
    fn a_pair_of_pairs_costs_the_sum(rt: HostRuntime) -> Result<(), Fail> {
        let left = Pair::new(square()?, band()?)?;
        let right = Pair::new(knees()?, Square::new(1, 0)?)?;
        costs(&rt, &left, &[(0, 28), (4, 2), (7, 35), (1_023, 2_081_819)]);
        costs(
            &rt,
            &right,
            &[(0, 12), (4, 16), (7, 54), (1_023, 1_051_614)],
        );
        let both = Pair::new(left, right)?;
        costs(&rt, &both, &[(0, 40), (4, 18), (7, 89), (1_023, 3_133_433)]);
        Ok(())
    }

    #[test]
    fn written_curves_cost_what_the_made_ones_cost(rt: HostRuntime) -> Result<(), Fail> {
        let written = Written::Square {
            weight: 2,
            target: 3,
        };
        agree(&rt, &written, &square()?);
        costs(&rt, &written, &SQUARE_COSTS);
        let written = Written::Band {
            cold: 1,
            warm: 4,
            cold_rate: 10,
            warm_rate: 1,
        };
        agree(&rt, &written, &band()?);
        costs(&rt, &written, &BAND_COSTS);
        let written = Written::Knees {
            ground: 12,
            first: -3,
            count: 2,
            levels: [4, 6, 0, 0, 0, 0],
            steps: [0, 5, 0, 0, 0, 0],
        };
        agree(&rt, &written, &knees()?);
        costs(&rt, &written, &KNEES_COSTS);
        Ok(())
    }

    #[test]
    fn the_default_makes_a_curve(rt: HostRuntime) {
        let written = Written::default();
        assert_eq!(rt; written.fault(), None);
        costs(&rt, &written, &[(0, 0), (1, 1), (3, 9), (1_023, 1_046_529)]);
    }

    #[test]
    fn numbers_that_make_no_curve_cost_nothing(rt: HostRuntime) -> Result<(), Fail> {
        let free = Band::new(0, 0, 0, 0)?;
        for (written, fault) in [
            (
                Written::Square {
                    weight: 400_001,
                    target: 3,
                },
                CurveFault::Weight,
            ),
            (
                Written::Band {
                    cold: 4,
                    warm: 1,
                    cold_rate: 10,
                    warm_rate: 1,
                },
                CurveFault::Edges,
            ),
            (
                Written::Knees {
                    ground: 12,
                    first: -3,
                    count: 2,
                    levels: [6, 4, 0, 0, 0, 0],
                    steps: [0, 5, 0, 0, 0, 0],
                },
                CurveFault::KneeLevels,
            ),
        ] {
            assert_eq!(rt; written.fault(), Some(fault));
            agree(&rt, &written, &free);
            costs(&rt, &written, &[(0, 0), (4, 0), (7, 0), (1_023, 0)]);
        }
        Ok(())
    }
}
