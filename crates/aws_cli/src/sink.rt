ghost use Rattle.std.specs.Prelude.{None};

use crate::again::write_again;
use aws_world::{Sink, SinkFault};
use std::io::Write;

/// A standard stream.
#[derive(Drop)]
pub struct StreamSink<W: Write> {
    stream: W,
    faults: u64,
}

impl<W: Write> StreamSink<W> {
    pub fn new(stream: W) -> StreamSink<W> {
        StreamSink { stream, faults: 0 }
    }
}

impl<W: Write> Sink for StreamSink<W> {
    ghost told = { λ _. None };

    ghost faults = { λ sink. sink.faults };

    fn write(&mut self, piece: &[u8]) -> Result<usize, SinkFault> {
        match write_again(&mut self.stream, piece) {
            Ok(count) if count > 0 => Ok(count),
            _ => {
                self.faults = self.faults.saturating_add(1);
                Err(SinkFault)
            }
        }
    }
}

#[cfg(test)]
mod tests {
    use super::*;
    use std::test::Fail;

    #[test]
    fn writes_to_streams(rt: HostRuntime) -> Result<(), Fail> {
        let mut out = StreamSink::new(rt.stdout());
        assert_eq!(rt; out.write(b"text\n"), Ok(5));
        let full = std::fs::OpenOptions::new()
            .write(true)
            .open(&rt, "/dev/full")?;
        let mut sink = StreamSink::new(full);
        assert_eq!(rt; sink.write(b"text\n"), Err(SinkFault));
        assert_eq!(rt; sink.faults, 1);
        Ok(())
    }
}
