// The input of a program: what a reader gives, up to a number of bytes.
ghost use Rattle.std.specs.Prelude.{◌≡◌, ◌≤◌, ◌<◌, IfOk, IfSome, length, take};
ghost use Rattle.std.specs.Io.KnownBytes.{Consumes, IsAtEnd};

use std::alloc::Global;
use std::io;
use std::io::Read;

// Reads to the front of a buffer, as far as the reader gives bytes; how many came. Behind them the buffer may hold anything.
//
// Each read is offered all the room that is left: of a message that is longer than the room a socket drops the rest.
fn read_front<R: Read>(source: &mut R, buffer: &mut [u8]) -> io::Result<usize>
    ensures fits { IfOk result (λ n. n ≤ length buffer.old) }
    ensures came { IfOk result (λ n.
        Consumes (R.Read.remaining source.old) (R.Read.remaining source.new) (take n buffer.new)) }
    ensures all { IfOk result (λ n. n < length buffer.old → IsAtEnd (R.Read.remaining source.new)) }
{
    let mut at = 0;
    while at < buffer.len() {
        let count = source.read(&mut buffer[at..])?;
        if count == 0 {
            return Ok(at);
        }
        at += count;
    }
    Ok(at)
}

// What a reader gives, up to `most` bytes, for which memory is taken; what is behind them is left with the reader.
pub(crate) fn input_from<R: Read>(
    alloc: Global,
    source: &mut R,
    most: usize,
) -> anyhow::Result<Vec<u8>>
    ensures front { IfSome (R.Read.remaining source.old) (λ bytes.
        IfOk result (λ input. input.items ≡ take most bytes)) }
    ensures left { IfOk result (λ input.
        Consumes (R.Read.remaining source.old) (R.Read.remaining source.new) input.items) }
{
    let mut input = vec![in alloc; 0u8; most]?;
    let count = read_front(source, &mut input)?;
    input.truncate(count);
    Ok(input)
}

#[cfg(test)]
mod tests {
    use super::*;
    use std::test::Fail;

    // One message, of which is lost what is read with too little room.
    #[derive(Drop)]
    struct Message {
        length: usize,
    }

    impl Read for Message {
        fn read(&mut self, buf: &mut [u8]) -> io::Result<usize> {
            let count = buf.len().min(self.length);
            self.length = 0;
            Ok(count)
        }
    }

    #[test]
    fn a_message_is_read_whole(rt: HostRuntime) -> Result<(), Fail> {
        let mut source = Message { length: 17000 };
        let input = input_from(rt.alloc(), &mut source, 17206)?;
        assert_eq!(rt; input.len(), 17000);
        Ok(())
    }
}
