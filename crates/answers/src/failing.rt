// A writer for tests, which fails in mid-stream.
use std::io::{ErrorKind, Result, Write};

/// Takes so many bytes more, and then fails.
#[derive(Drop)]
pub struct Failing {
    pub taken: Vec<u8>,
    pub room: usize,
}

impl Write for Failing {
    fn write(&mut self, bytes: &[u8]) -> Result<usize> {
        if self.room == 0 {
            return Err(ErrorKind::BrokenPipe.into());
        }
        let count = bytes.len().min(self.room);
        self.taken.extend_from_slice(&bytes[..count])?;
        self.room -= count;
        Ok(count)
    }

    fn flush(&mut self) -> Result<()> {
        Ok(())
    }
}
