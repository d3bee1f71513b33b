//! Examples of runs, run as tests.
#![tactic(auto)]

#[cfg(test)]
mod examples {
    use groups::clock::{Clock, ClockPoint};
    use groups::curve::{Curve, CurvePoint};
    use groups::device::GroupDevice;
    use groups::sums::Sums;
    use groups::tally::Tally;
    use inputs::sizes::Sizes;
    use inputs::window_rule::WindowRule;
    use runs::run::{run, run_both};
    use runs::task::{Ask, Task};
    use std::alloc::{AllocError, Global};
    use std::process::Abort;
    use std::test::Fail;

    // Sizes that the tests take for granted.
    fn sized(k: u32, b: u32, m: u32) -> Result<Sizes, Fail> {
        Sizes::new(k, b, m).map_err(|_| Fail::new("sizes refused"))
    }

    fn the_curve() -> Result<Curve, Fail> {
        Curve::new(11).map_err(|_| Fail::new("curve refused"))
    }

    // A task with a key of one word, three bytes of draws, and enough cells and words.
    fn task<E: Clone + Copy>(
        heap: Global,
        rule: WindowRule,
        sizes: Sizes,
        key: u32,
        base: E,
    ) -> Result<Task<E, WindowRule>, AllocError> {
        let key = vec![in heap; key]?;
        let draws = vec![in heap; 9u8, 38u8, 21u8]?;
        let cells = vec![in heap; base; 40]?;
        let words = vec![in heap; 7i32; 8]?;
        Ok(Task {
            ask: Ask {
                rule,
                sizes,
                key,
                base,
                draws,
                mark: 1,
            },
            cells,
            words,
            mark: 0,
            outcome: None,
        })
    }

    // The answer of a task that was accepted.
    fn answer<E: Copy>(task: &Task<E, WindowRule>) -> Result<E, Fail> {
        match task.outcome {
            Some(Ok(answer)) => Ok(answer),
            Some(Err(_)) => Err(Fail::new("refused")),
            None => Err(Fail::new("no outcome")),
        }
    }

    // The number of the refusal of a task, or 0.
    fn refusal<E: Copy>(task: &Task<E, WindowRule>) -> u32 {
        match task.outcome {
            Some(Err(refusal)) => refusal.number(),
            _ => 0,
        }
    }

    #[test]
    fn two_keys_cross_on_the_curve(rt: HostRuntime) -> Result<(), Fail> {
        let heap = rt.alloc();
        let mut curve = the_curve()?;
        let start = CurvePoint::Affine { x: 2, y: 7 };
        let mut firsts = [
            task(heap, WindowRule::Shifted, sized(3, 6, 3)?, 3, start)?,
            task(heap, WindowRule::Nonzero, sized(4, 5, 2)?, 5, start)?,
        ];
        run(&mut curve, &mut firsts);
        let a = answer(&firsts[0])?;
        let c = answer(&firsts[1])?;
        assert_eq!(rt; a, CurvePoint::Affine { x: 8, y: 3 });
        assert_eq!(rt; c, CurvePoint::Affine { x: 3, y: 6 });
        let mut seconds = [
            task(heap, WindowRule::Centered, sized(2, 7, 4)?, 5, a)?,
            task(heap, WindowRule::Shifted, sized(5, 3, 2)?, 3, c)?,
        ];
        run(&mut curve, &mut seconds);
        let agreed = CurvePoint::Affine { x: 5, y: 2 };
        assert_eq!(rt; answer(&seconds[0])?, agreed);
        assert_eq!(rt; answer(&seconds[1])?, agreed);
        assert_eq!(rt; firsts[0].mark, 2, "one byte is drawn");
        Ok(())
    }

    // Two tasks that are accepted and between them one that is not, since its base is no member.
    fn three<E: Clone + Copy>(
        heap: Global,
        keys: [u32; 2],
        base: E,
        stranger: E,
    ) -> Result<[Task<E, WindowRule>; 3], Fail> {
        let first = task(heap, WindowRule::Shifted, sized(3, 6, 3)?, keys[0], base)?;
        let refused = task(heap, WindowRule::Centered, sized(4, 4, 4)?, 1, stranger)?;
        let last = task(heap, WindowRule::Nonzero, sized(4, 5, 2)?, keys[1], base)?;
        Ok([first, refused, last])
    }

    #[test]
    fn tallies_are_equal_on_two_kinds_of_devices(rt: HostRuntime) -> Result<(), Fail> {
        let heap = rt.alloc();
        let Ok(mut sums) = Sums::new(1000) else {
            return Err(Fail::new("sums refused"));
        };
        let Ok(mut clock) = Clock::new(7) else {
            return Err(Fail::new("clock refused"));
        };
        let mut first = three(heap, [25725, 100], 1, 5000)?;
        let outside = ClockPoint { x: 1, y: 1 };
        let mut second = three(heap, [3, 511], ClockPoint { x: 2, y: 2 }, outside)?;
        run_both(&mut sums, &mut first, &mut clock, &mut second);
        assert_eq!(rt; answer(&first[0])?, 725);
        assert_eq!(rt; answer(&first[2])?, 100);
        assert_eq!(rt; refusal(&first[1]), 8);
        assert_eq!(rt; refusal(&second[1]), 8);
        assert_eq!(rt; sums.tally(), clock.tally());
        // 31 and 27 doublings, 24 and 27 additions
        assert_eq!(rt; sums.tally().doublings, 58);
        assert_eq!(rt; sums.tally().additions, 51);
        Ok(())
    }

    // The task was refused by that number, and left its cells and its mark.
    fn left(rt: &impl Abort, task: &Task<CurvePoint, WindowRule>, number: u32, cell: CurvePoint) {
        assert_eq!(rt; refusal(task), number);
        assert_eq!(rt; task.mark, 1, "the mark stays");
        for there in task.cells.as_slice() {
            assert_eq!(rt; *there, cell, "the cells stay");
        }
        for word in task.words.as_slice() {
            assert_eq!(rt; *word, 0, "the words are zero");
        }
    }

    #[test]
    fn refusals_leave_cells_and_device(rt: HostRuntime) -> Result<(), Fail> {
        let heap = rt.alloc();
        let mut curve = the_curve()?;
        let sizes = sized(3, 6, 3)?;
        let base = CurvePoint::Affine { x: 2, y: 7 };
        let outside = CurvePoint::Affine { x: 1, y: 1 };
        let mut no_words = task(heap, WindowRule::Shifted, sizes, 3, base)?;
        no_words.ask.key = Vec::new(heap);
        // Keys have 15 bits.
        let too_large = task(heap, WindowRule::Shifted, sizes, 32768, base)?;
        let mut few_digits = task(heap, WindowRule::Shifted, sizes, 3, base)?;
        few_digits.words = vec![in heap; 7i32, 7i32]?;
        // Rule 1 uses 13 cells.
        let mut short_table = task(heap, WindowRule::Shifted, sizes, 3, base)?;
        short_table.cells = vec![in heap; base; 12]?;
        let stranger = task(heap, WindowRule::Shifted, sizes, 3, outside)?;
        // Rule 3 admits no draw of 0.
        let mut no_draw = task(heap, WindowRule::Nonzero, sizes, 3, base)?;
        no_draw.ask.draws = vec![in heap; 9u8, 0x40u8]?;
        let mut tasks = [
            no_words,
            too_large,
            few_digits,
            short_table,
            stranger,
            no_draw,
        ];
        run(&mut curve, &mut tasks);
        left(&rt, &tasks[0], 4, base);
        left(&rt, &tasks[1], 5, base);
        left(&rt, &tasks[2], 6, base);
        left(&rt, &tasks[3], 7, base);
        left(&rt, &tasks[4], 8, outside);
        left(&rt, &tasks[5], 9, base);
        assert_eq!(rt; curve.tally(), Tally::zero(), "the device has done nothing");
        Ok(())
    }
}
