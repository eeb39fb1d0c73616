// Reads calls of `image_walk`, `towers` and `tower_words`, runs them, and writes a line for each: the call's answer and then the bytes of its buffer.
// The stored input and output are made by the reference program.
//
// A call is a byte, from 1 for tower_of to 7 for descents in the order of `run`; a list; for a product a second list; and,
// but for length and descents, the size of the lent buffer in two bytes, the lowest first. A list is a byte, its size, and
// that many bytes. Each byte of the buffer is 170 before the call.
//
// A line is A and the numbers that the call answers, or E with the number and the place of the refusal; then the buffer.

#![tactic(auto)]

use refusals::Refusal;
use std::io;
use vector_io::{print_field, read_front};

// Which call it is, in the order of its byte, from 1 on.
#[derive(Clone, Copy)]
enum Kind {
    TowerOf,
    ImagesOf,
    Inverse,
    Product,
    Length,
    StandardWord,
    Descents,
    // Any other byte: it answers the descents too, and is lent a buffer as the others are.
    Other,
}

impl From<u8> for Kind {
    fn from(byte: u8) -> Kind {
        match byte {
            1 => Kind::TowerOf,
            2 => Kind::ImagesOf,
            3 => Kind::Inverse,
            4 => Kind::Product,
            5 => Kind::Length,
            6 => Kind::StandardWord,
            7 => Kind::Descents,
            _ => Kind::Other,
        }
    }
}

// A call and its lists.
#[derive(Clone, Copy)]
struct Call<'a> {
    kind: Kind,
    first: &'a [u8],
    second: &'a [u8],
}

fn read_byte(input: &mut impl io::Read) -> Option<u8> {
    let mut bytes = [0u8; 1];
    input.read_exact(&mut bytes).ok()?;
    Some(bytes[0])
}

// A list, whose bytes are put in front of the space.
fn read_list<'a>(input: &mut impl io::Read, space: &'a mut [u8; 255]) -> Option<&'a [u8]> {
    let size = read_byte(input)?;
    read_front(input, usize::from(size), space)
}

// A call; one that is no product has a second list of size 0.
fn read_call<'a>(
    input: &mut impl io::Read,
    first: &'a mut [u8; 255],
    second: &'a mut [u8; 255],
) -> Option<Call<'a>> {
    let kind = Kind::from(read_byte(input)?);
    let first = read_list(input, first)?;
    let second = match kind {
        Kind::Product => read_list(input, second)?,
        _ => &[],
    };
    Some(Call {
        kind,
        first,
        second,
    })
}

// A buffer of the size that is read; for a call that is lent none, of size 0.
fn lend<'a>(
    input: &mut impl io::Read,
    kind: Kind,
    space: &'a mut [u8; 2048],
) -> Option<&'a mut [u8]> {
    let mut size = [0u8; 2];
    if !matches!(kind, Kind::Length | Kind::Descents) {
        input.read_exact(&mut size).ok()?;
    }
    space.get_mut(..usize::from(u16::from_le_bytes(size)))
}

// The numbers that a call answers.
fn run(call: Call, buffer: &mut [u8]) -> Result<[Option<u64>; 2], Refusal> {
    match call.kind {
        Kind::TowerOf => image_walk::tower_of(call.first, buffer)?,
        Kind::ImagesOf => towers::images_of(call.first, buffer)?,
        Kind::Inverse => towers::inverse(call.first, buffer)?,
        Kind::Product => towers::product(call.first, call.second, buffer)?,
        Kind::Length => return Ok([Some(tower_words::length(call.first)? as u64), None]),
        Kind::StandardWord => return Ok([
            Some(tower_words::standard_word(call.first, buffer)? as u64),
            None,
        ]),
        Kind::Descents | Kind::Other => {
            let set = tower_words::descents(call.first)?;
            return Ok([Some(set.mask), Some(u64::from(set.count))]);
        }
    }
    Ok([None, None])
}

fn print_answer(rt: &impl Print, answer: Result<[Option<u64>; 2], Refusal>) -> io::Result<()> {
    match answer {
        Ok(numbers) => {
            print!(rt; "A")?;
            for n in numbers.iter().flatten() {
                print_field(rt, *n)?;
            }
            Ok(())
        }
        Err(why) => print!(rt; "E {why}"),
    }
}

fn print_bytes(rt: &impl Print, bytes: &[u8]) -> io::Result<()> {
    for b in bytes {
        print_field(rt, u64::from(*b))?;
    }
    Ok(())
}

fn print_line(rt: &impl Print, call: Call, buffer: &mut [u8]) -> io::Result<()> {
    print_answer(rt, run(call, buffer))?;
    print_bytes(rt, buffer)?;
    println!(rt)
}

// A proved loop ends: 65,536 lines are more than are stored.
fn main(rt: HostRuntime) -> io::Result<()> {
    let mut input = rt.stdin();
    for _ in 0..65536 {
        let mut first = [0u8; 255];
        let mut second = [0u8; 255];
        let mut space = [170u8; 2048];
        let Some(call) = read_call(&mut input, &mut first, &mut second) else {
            break;
        };
        let Some(buffer) = lend(&mut input, call.kind, &mut space) else {
            break;
        };
        print_line(&rt, call, buffer)?;
    }
    Ok(())
}
