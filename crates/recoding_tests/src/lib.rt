//! Examples of the recoding and of what it takes, run as tests.
#![tactic(auto)]

#[cfg(test)]
mod examples {
    use common::refusal::Refusal;
    use common::stream::Stream;
    use inputs::draw::Draw;
    use inputs::sizes::Sizes;
    use inputs::window_rule::WindowRule;
    use recoding::check::check_coding;
    use recoding::digit::DigitGuard;
    use recoding::recode::recode;
    use std::process::Abort;
    use std::test::Fail;

    // The sizes of the worked runs.
    fn small() -> Result<Sizes, Fail> {
        Sizes::new(3, 6, 3).map_err(|_| Fail::new("sizes refused"))
    }

    // The first draw of some bytes.
    fn drawn(rule: WindowRule, sizes: Sizes, bytes: &[u8]) -> Result<Draw, Fail> {
        let mut stream = Stream::new(bytes);
        Draw::from_stream(&rule, sizes, &mut stream).map_err(|_| Fail::new("no draw"))
    }

    // Recodes 25724, whose half is 12862, by the draw 38, and compares words and correction.
    fn recodes(
        rt: &impl Abort,
        rule: WindowRule,
        want: [i32; 3],
        correction: i32,
    ) -> Result<(), Fail> {
        let sizes = small()?;
        let draw = drawn(rule, sizes, &[38])?;
        let key = [25724u32];
        let mut words = [7i32; 4];
        let coded = recode(&rule, sizes, &key, draw, &mut words).map_err(|(_, draw)| {
            draw.end();
            Fail::new("refused")
        })?;
        let c = coded.correction();
        coded.end();
        assert_eq!(rt; c, correction);
        assert_eq!(rt; words[0], want[0]);
        assert_eq!(rt; words[1], want[1]);
        assert_eq!(rt; words[2], want[2]);
        assert_eq!(rt; words[3], 7, "a word past the digits is not touched");
        let verdict = check_coding(&rule, sizes, &key, 38, c, &words);
        assert!(rt; verdict.unwrap_or(false), "the check accepts it");
        let other = check_coding(&rule, sizes, &key, 37, c, &words);
        assert!(rt; !other.unwrap_or(true), "another draw is declined");
        Ok(())
    }

    #[test]
    fn worked_runs(rt: HostRuntime) -> Result<(), Fail> {
        recodes(&rt, WindowRule::Centered, [1, -5, 6], 20)?;
        recodes(&rt, WindowRule::Nonzero, [1, -5, 6], 20)?;
        recodes(&rt, WindowRule::Shifted, [-1, 8, 4], -12)
    }

    #[test]
    fn draws_that_are_zero_are_skipped(rt: HostRuntime) -> Result<(), Fail> {
        let sizes = small()?;
        let bytes = [0x40, 0x80, 0x26, 0x11];
        let mut stream = Stream::new(&bytes);
        let draw = Draw::from_stream(&WindowRule::Nonzero, sizes, &mut stream).map_err(
            |_| Fail::new("no draw"),
        )?;
        assert_eq!(rt; draw.end(), 38);
        assert_eq!(rt; stream.mark(), 3);
        assert_eq!(rt; stream.remaining(), 1);
        Ok(())
    }

    #[test]
    fn a_refused_draw_leaves_the_mark(rt: HostRuntime) -> Result<(), Fail> {
        let sizes = small()?;
        let bytes = [9, 0, 64];
        let mut stream = Stream::new(&bytes);
        assert_eq!(rt; stream.next_byte(), Some(9));
        match Draw::from_stream(&WindowRule::Nonzero, sizes, &mut stream) {
            Ok(draw) => {
                draw.end();
                return Err(Fail::new("drawn"));
            }
            Err(refusal) => assert_eq!(rt; refusal, Refusal::DrawsExhausted { mark: 1 }),
        }
        assert_eq!(rt; stream.mark(), 1);
        Ok(())
    }

    #[test]
    fn a_refused_recoding_gives_the_draw_back(rt: HostRuntime) -> Result<(), Fail> {
        let sizes = small()?;
        let draw = drawn(WindowRule::Shifted, sizes, &[0])?;
        let key = [3u32];
        let mut words = [7i32; 5];
        match recode(&WindowRule::Nonzero, sizes, &key, draw, &mut words) {
            Ok(coded) => {
                coded.end();
                Err(Fail::new("recoded"))
            }
            Err((refusal, draw)) => {
                let width = draw.width();
                let value = draw.end();
                assert_eq!(rt; width, 6);
                assert_eq!(rt; value, 0);
                assert_eq!(rt; refusal, Refusal::UnfitDraw);
                for word in words {
                    assert_eq!(rt; word, 0, "all words are zero");
                }
                Ok(())
            }
        }
    }

    #[test]
    fn a_guard_zeroes_its_words(rt: HostRuntime) {
        let mut words = [1i32, -2, 3];
        {
            let _guard = DigitGuard::new(&mut words);
        }
        assert_eq!(rt; words[0], 0);
        assert_eq!(rt; words[1], 0);
        assert_eq!(rt; words[2], 0);
    }
}
