//! Answers questions to the three group devices, one line of standard input each.
//!
//! A line `GROUP MODULUS X1 Y1 X2 Y2` has six decimal numbers: group 1 sums, whose Y are not used,
//! 2 clock, 3 curve, where 11 11 is infinity. Its answer tells whether the two elements belong,
//! their sum, the double and the negative of the first, and the tally; or the refusal of the
//! modulus; or that the line can't be read.
#![tactic(auto)]

mod answer;
mod query;

use answer::answer_to;
use query::Query;
use std::io;
use std::io::Read;

fn main(rt: HostRuntime) -> io::Result<()> {
    let mut input = Vec::new(rt.alloc());
    rt.stdin().read_to_end(&mut input)?;
    for line in input.split_inclusive(|byte| *byte == b'\n') {
        let line = line.strip_suffix(b"\n").unwrap_or(line);
        match answer_to(Query::read(line)) {
            Ok(report) => rt.println(report)?,
            Err(unanswered) => rt.println(unanswered)?,
        }
    }
    Ok(())
}
