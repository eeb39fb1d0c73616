// Reads calls on elements, runs them, and writes a line for each: the call's answer and then what its slices hold.
// The stored input and output are made by the reference program.
//
// A call is a byte: 1 for sum, 2 for scaling, 3 for the action of a word, 5 for that of a word of signed letters, 6 for a pairing,
// 7 for a trace, and any other for a product; the rank in a byte; the word q or c; two lists of words; the word of letters; and
// the sizes of the lent result and scratch. A list is its size and then its words, or letters. A size is two bytes, a word eight,
// the lowest byte first; a signed letter is a byte by two's complement. A word action changes the first list, a pairing nothing,
// and a trace the scratch alone; the z of a trace is the first word of the second list, or 0 where that is empty. Each word of the
// result and the scratch is 170 before the call.
//
// A line is A and the count, or the value of a pairing or a trace, or E with the number, the place and the count or value of the
// refusal, which is 0; then the result or the element, where the call writes one; for a product and a trace the digest of the
// scratch. A slice of over 120 words is written as its digest.
//
// The program ends where the input does. It also ends, with no line, at a call that is cut off, and at one with more than 5,041
// words in a list or the result, 4,097 letters or 60,500 words of scratch.

#![tactic(auto)]

use refusals::{Answer, Refusal};
use std::io;
use vector_io::{print_field, read_front, read_number};

// What is read and lent stands in these; each word of the result and the scratch is 170 before the call.
struct Space<'a> {
    left: &'a mut [u64; 5041],
    right: &'a mut [u64; 5041],
    word: &'a mut [u8; 4097],
    res: &'a mut [u64; 5041],
    scratch: &'a mut [u64; 60500],
}

// A call with all that it is given and lent.
struct Call<'a> {
    kind: u64,
    m: usize,
    q: u64,
    left: &'a mut [u64],
    right: &'a [u64],
    word: &'a [u8],
    res: &'a mut [u64],
    scratch: &'a mut [u64],
}

// As many words at the front of the space as the size that is read says.
fn read_size<'a>(input: &mut impl io::Read, space: &'a mut [u64]) -> Option<&'a mut [u64]> {
    let size = read_number(input, 2)?;
    space.get_mut(0..size as usize)
}

// A list of words, at the front of the space.
fn read_words<'a>(input: &mut impl io::Read, space: &'a mut [u64]) -> Option<&'a mut [u64]> {
    let words = read_size(input, space)?;
    for word in words.iter_mut() {
        *word = read_number(input, 8)?;
    }
    Some(words)
}

// A list of letters, at the front of the space.
fn read_letters<'a>(input: &mut impl io::Read, space: &'a mut [u8]) -> Option<&'a [u8]> {
    let size = read_number(input, 2)?;
    read_front(input, size as usize, space)
}

// The rest of a call, if it is all there.
fn read_call<'a>(input: &mut impl io::Read, kind: u64, space: Space<'a>) -> Option<Call<'a>> {
    let Space {
        left,
        right,
        word,
        res,
        scratch,
    } = space;
    Some(Call {
        kind,
        m: read_number(input, 1)? as usize,
        q: read_number(input, 8)?,
        left: read_words(input, left)?,
        right: read_words(input, right)?,
        word: read_letters(input, word)?,
        res: read_size(input, res)?,
        scratch: read_size(input, scratch)?,
    })
}

// A and the number that is answered, or E with the number and the place of the refusal, and then 0.
fn print_number(rt: &impl Print, answered: Result<u64, Refusal>) -> io::Result<()> {
    match answered {
        Ok(_) => print!(rt; "A")?,
        Err(why) => print!(rt; "E {why}")?,
    }
    print_field(rt, answered.unwrap_or(0))
}

// The words as digits of a number modulo 2^64, the first the highest. The base is odd: each word counts.
fn digest(words: &[u64]) -> u64 {
    words.iter().fold(0, |sum, word| {
        ring::add(ring::mul(sum, 0x5851_f42d_4c95_7f2d), *word)
    })
}

fn print_words(rt: &impl Print, words: &[u64]) -> io::Result<()> {
    if 120 < words.len() {
        return print_field(rt, digest(words));
    }
    for word in words {
        print_field(rt, *word)?;
    }
    Ok(())
}

// The count of a call that writes, and what is then written.
fn print_written(
    rt: &impl Print,
    answered: Result<Answer, Refusal>,
    words: &[u64],
) -> io::Result<()> {
    print_number(rt, answered.map(|answer| answer.count))?;
    print_words(rt, words)
}

// The signed letters of the bytes, at the front of the space.
fn signed_letters<'a>(bytes: &[u8], space: &'a mut [i8]) -> Option<&'a [i8]> {
    let letters = space.get_mut(0..bytes.len())?;
    for (letter, byte) in letters.iter_mut().zip(bytes) {
        *letter = byte.cast_signed();
    }
    Some(letters)
}

fn run_signed_word(
    rt: &impl Print,
    m: usize,
    q: u64,
    bytes: &[u8],
    element: &mut [u64],
) -> io::Result<()> {
    let mut space = [0i8; 4097];
    let Some(letters) = signed_letters(bytes, &mut space) else {
        return Ok(());
    };
    print_written(
        rt,
        word_actions::act_signed_word(m, q, letters, element),
        element,
    )
}

fn run(rt: &impl Print, call: Call) -> io::Result<()> {
    let Call {
        kind,
        m,
        q,
        left,
        right,
        word,
        res,
        scratch,
    } = call;
    // The byte is matched here alone: an enum of the calls would be matched a second time, to be made of it.
    match kind {
        1 => print_written(rt, linear::sum(m, left, right, res), res),
        2 => print_written(rt, linear::scale(m, q, left, res), res),
        3 => print_written(rt, word_actions::act_word(m, q, word, left), left),
        5 => run_signed_word(rt, m, q, word, left),
        6 => print_number(rt, pairings::pairing(m, q, left, right)),
        7 => {
            let z = right.first().copied().unwrap_or(0);
            print_number(rt, traces::trace(m, q, z, left, scratch))?;
            print_field(rt, digest(scratch))
        }
        _ => {
            print_written(rt, hecke::product(m, q, left, right, res, scratch), res)?;
            print_field(rt, digest(scratch))
        }
    }
}

// A proved loop ends: 65,536 lines are more than are stored.
fn main(rt: HostRuntime) -> io::Result<()> {
    let mut input = rt.stdin();
    for _ in 0..65536 {
        let Some(kind) = read_number(&mut input, 1) else {
            break;
        };
        let mut left = [0; 5041];
        let mut right = [0; 5041];
        let mut word = [0; 4097];
        let mut res = [170; 5041];
        let mut scratch = [170; 60500];
        let space = Space {
            left: &mut left,
            right: &mut right,
            word: &mut word,
            res: &mut res,
            scratch: &mut scratch,
        };
        let Some(call) = read_call(&mut input, kind, space) else {
            break;
        };
        run(&rt, call)?;
        println!(rt)?;
    }
    Ok(())
}
