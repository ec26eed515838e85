// Reading of an input whose length is not known before: as much of it as a buffer holds.
#![tactic(auto)]

ghost use Rattle.std.specs.Prelude.{◌≡◌, ◌≤◌, ◌<◌, length, take, IfOk};
ghost use Rattle.std.specs.Io.{ReadsAtMost};
ghost use Rattle.std.specs.Io.KnownBytes.{Consumes, IsAtEnd};

use std::io::{self, Read};

// Reads until the buffer is full or the input ends, and returns how many bytes stand at the start of the buffer then.
pub fn read_full<R: Read>(reader: &mut R, buffer: &mut [u8]) -> io::Result<usize>
    ensures bound { ReadsAtMost result buffer.new }
    ensures len { length buffer.new ≡ length buffer.old }
    ensures bytes { IfOk result (λ n. Consumes (R.remaining reader.old) (R.remaining reader.new) (take n buffer.new)) }
    ensures end { IfOk result (λ n. n < length buffer.new → IsAtEnd (R.remaining reader.new)) }
{
    // Each turn goes on by as many bytes as were read, so no range or chunks fit.
    let mut done = 0;
    while done < buffer.len() {
        let count = reader.read(&mut buffer[done..])?;
        if count == 0 {
            break;
        }
        done += count;
    }
    Ok(done)
}

#[cfg(test)]
mod tests {
    use super::*;
    use std::test::Fail;

    #[test]
    fn joins_the_pieces(rt: HostRuntime) -> Result<(), Fail> {
        let (first, second): (&[u8], &[u8]) = (b"ab", b"cde");
        let mut input = first.chain(second);
        let mut buffer = [0u8; 4];
        assert_eq!(rt; read_full(&mut input, &mut buffer)?, 4);
        assert_eq!(rt; buffer, [b'a', b'b', b'c', b'd']);
        assert_eq!(rt; read_full(&mut input, &mut buffer)?, 1);
        assert_eq!(rt; buffer[0], b'e');
        assert_eq!(rt; read_full(&mut input, &mut buffer)?, 0);
        Ok(())
    }
}
