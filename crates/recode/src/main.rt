//! Recodes the keys that standard input asks for, a line each, and checks every coding.
//!
//! A line is `RULE K B M KEY DRAWS`. Each is answered by `ok S C W0 W1 .. verdict`, by
//! `no NUMBER LAYER PLACE` or by `unreadable`; a last line says how many of each there were.
#![tactic(auto)]

use console::program::Recode;
use lines::program::answer_all;
use std::io;

fn main(rt: HostRuntime) -> io::Result<()> {
    answer_all(&Recode, rt.alloc(), &mut rt.stdin(), &mut rt.stdout())
}
