// Bytes from an input.

ghost use Rattle.program.specs.Pieces.{ReadInto, ReadFront};

use std::io;

// Reads until the buffer is full or the input ends, and answers how many bytes stand at the front of the buffer.
pub(crate) fn read<R: io::Read>(input: &mut R, buffer: &mut [u8]) -> io::Result<usize>
    ensures within { ReadInto result buffer.new }
    ensures bytes { ReadFront (R.remaining input.old) result buffer.new }
{
    let mut done = 0;
    while done < buffer.len() {
        let n = input.read(&mut buffer[done..])?;
        if n == 0 {
            return Ok(done);
        }
        done += n;
    }
    Ok(done)
}
