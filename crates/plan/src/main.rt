//! The plan program: reads one line that names a method, a width and an exponent, and prints the plan's sheet or a refusal.
#![tactic(auto)]

ghost use Rattle.std.specs.Prelude.{◌≤◌, length, IfOk};

use methods::{MOST_BYTES, respond};
use std::io::{Read, Write};
use std::{env, io};

// One byte more than a line has, so that a longer input is seen to be longer.
const MOST_INPUT: usize = 29;

// Reads until the input ends or `buffer` is full, and answers how many bytes came.
fn read_line(input: &mut impl Read, buffer: &mut [u8]) -> io::Result<usize>
    ensures { IfOk result (λ n. n ≤ length buffer.new) }
{
    let mut have = 0;
    while have < buffer.len() {
        let got = input.read(&mut buffer[have..])?;
        if got == 0 {
            break;
        }
        have += got;
    }
    Ok(have)
}

fn print_usage(rt: &HostRuntime) -> io::Result<()> {
    println!(rt; "usage: plan < LINE")?;
    println!(rt;
        "LINE: method in columns 1-4, width in 5-8 (0 except for method 4), exponent in 9-27, newline"
    )?;
    println!(rt;
        "methods: 1 left to right, 2 right to left, 3 factor, 4 digits of 1 to 5 bits, 5 tree"
    )
}

fn main(rt: HostRuntime) -> io::Result<()> {
    if env::args(&rt)?.count() > 1 {
        return print_usage(&rt);
    }
    let mut line = [0u8; MOST_INPUT];
    let have = read_line(&mut rt.stdin(), &mut line)?;
    let mut out = [0u8; MOST_BYTES];
    match respond(&line[0..have], &mut out) {
        Ok(size) if size <= MOST_BYTES => rt.stdout().write_all(&out[0..size]),
        _ => Ok(()),
    }
}
