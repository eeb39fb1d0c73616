// Reads sheets, runs them by `runner`, and writes a line for each: how the run ended, and what the registers hold.
// The stored input and output are made by the reference program.
//
// A sheet is its size in two bytes, the lowest first, and then its bytes.
//
// A line is A and the count, or E with the number, the place and the count of the refusal, which is 0; then the register, the
// index and the value of each word that is not 0.
//
// The program ends where the input does. It also ends, with no line, at a sheet that is cut off, and at one of more than 4,097
// bytes.

#![tactic(auto)]

use refusals::{Answer, Refusal};
use std::io;
use vector_io::{print_field, read_front, read_number};

fn print_ending(rt: &impl Print, ending: Result<Answer, Refusal>) -> io::Result<()> {
    match ending {
        Ok(_) => print!(rt; "A")?,
        Err(why) => print!(rt; "E {why}")?,
    }
    print_field(rt, refusals::count_of(ending))
}

// The register's number, the index and the value of each word that is not 0.
fn print_register(rt: &impl Print, r: usize, words: &[u64]) -> io::Result<()> {
    for (i, word) in words.iter().enumerate() {
        if *word != 0 {
            print_field(rt, r as u64)?;
            print_field(rt, i as u64)?;
            print_field(rt, *word)?;
        }
    }
    Ok(())
}

fn print_run(rt: &impl Print, sheet: &[u8]) -> io::Result<()> {
    let done = runner::run(sheet);
    print_ending(rt, done.ending)?;
    for (r, words) in done.registers.iter().enumerate() {
        print_register(rt, r, words)?;
    }
    println!(rt)
}

// The next sheet, which is read into the front of the buffer.
fn read_sheet<'a>(input: &mut impl io::Read, buffer: &'a mut [u8]) -> Option<&'a [u8]> {
    let size = read_number(input, 2)?;
    read_front(input, size as usize, buffer)
}

// A proved loop ends: 65,536 lines are more than are stored.
fn main(rt: HostRuntime) -> io::Result<()> {
    let mut input = rt.stdin();
    let mut buffer = [0u8; 4097];
    for _ in 0..65536 {
        let Some(sheet) = read_sheet(&mut input, &mut buffer) else {
            break;
        };
        print_run(&rt, sheet)?;
    }
    Ok(())
}
