// Reads pairs of words, lowest byte first, and writes a line for each pair: its sum and its product by `ring`.
// The stored input and output are made by the reference program.

#![tactic(auto)]

use std::io;

// The next two words, if there are two.
fn pair(input: &mut impl io::Read) -> Option<(u64, u64)> {
    let a = vector_io::read_number(input, 8)?;
    let b = vector_io::read_number(input, 8)?;
    Some((a, b))
}

// A proved loop ends: 65,536 lines are more than are stored.
fn main(rt: HostRuntime) -> io::Result<()> {
    let mut input = rt.stdin();
    for _ in 0..65536 {
        let Some((a, b)) = pair(&mut input) else {
            break;
        };
        let sum = ring::add(a, b);
        let product = ring::mul(a, b);
        println!(rt; "{sum} {product}")?;
    }
    Ok(())
}
