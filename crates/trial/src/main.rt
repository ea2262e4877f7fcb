// Runs a script of calls of the library and prints what each one answered, a line for each call. The
// script, on standard input, and the lines that are expected are made from tests/cases by a model
// that is independent of this code; tests/README.md has the format of both.
#![tactic(auto)]

mod calls;
mod headers;
mod portions;
mod print;
mod script;
mod streams;

use crate::calls::run_case;
use crate::headers::{entry_case, list_case, open_case, sum_case, write_case, write_pi_case};
use crate::portions::receive_case;
use crate::script::{item, number};
use crate::streams::{append_case, first_case, search_case};
use input::read_full;
use std::io;

// The most bytes of a script.
const SCRIPT: usize = 1376256;

fn main(rt: HostRuntime) -> io::Result<()> {
    let mut input = [0u8; SCRIPT];
    run_input(&rt, &mut input)
}

// A proof writes out an array of the function's own, byte by byte; of one that is lent it takes the length alone, so that it becomes a slice here.
fn run_input(rt: &(impl Input + Print), input: &mut [u8; SCRIPT]) -> io::Result<()> {
    run_read(rt, input)
}

fn run_read(rt: &(impl Input + Print), input: &mut [u8]) -> io::Result<()> {
    let n = read_full(&mut rt.reader(), input)?;
    run_script(rt, &input[..n])
}

// A script is a list: the number of cases, then the cases.
fn run_script(out: &impl Print, script: &[u8]) -> io::Result<()> {
    for k in 0..number(script, 0) {
        one_case(out, item(script, (k as usize).wrapping_add(1)))?;
    }
    Ok(())
}

// A case is a list: its name, what is called, and the arguments. The script names what is called by a number.
fn one_case(out: &impl Print, case: &[u8]) -> io::Result<()> {
    match number(case, 1) {
        0 => open_case(out, case),
        1 => write_case(out, case),
        2 => list_case(out, case),
        3 => run_case(out, case),
        4 => search_case(out, case),
        5 => append_case(out, case),
        6 => sum_case(out, case),
        7 => write_pi_case(out, case),
        8 => entry_case(out, case),
        10 => receive_case(out, case),
        _ => first_case(out, case),
    }
}
