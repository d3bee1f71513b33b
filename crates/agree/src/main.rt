//! Carries out the exchanges that standard input asks for, a line each.
//!
//! A line is `GROUP MODULUS X Y KEY1 KEY2 DRAWS1 DRAWS2`. Each is answered by
//! `agreed X Y machine .. chip ..`, by `no NUMBER LAYER PLACE` and whose call was refused, or by
//! `unreadable`; a last line says how many of each there were.
#![tactic(auto)]

use exchange_lines::program::Agree;
use lines::program::answer_all;
use std::io;

fn main(rt: HostRuntime) -> io::Result<()> {
    answer_all(&Agree, rt.alloc(), &mut rt.stdin(), &mut rt.stdout())
}
