// Sources and sinks in memory, and those over a reader and a writer that fail in mid-stream.

use dev_model::{Failed, ReadSource, Sink, Source, WriteSink, send_all};
use mem_device::{MemSink, MemSource};
use std::alloc::AllocError;
use std::io::{Error, ErrorKind, Read, Write};

#[test]
fn a_source_gives_its_bytes_in_pieces(rt: HostRuntime) -> Result<(), AllocError> {
    let fail = [2].to_vec(rt.alloc())?;
    let mut source = MemSource::new(b"abcde".to_vec(rt.alloc())?, fail);
    let mut buf = [b'-'; 2];
    for (answer, after, faults) in [
        (Ok(2), b"ab", 0),
        (Err(Failed), b"ab", 1),
        (Ok(2), b"cd", 1),
        (Ok(1), b"ed", 1),
        (Ok(0), b"ed", 1),
    ] {
        assert_eq!(rt; source.read(&mut buf), answer);
        assert_eq!(rt; buf, *after);
        assert_eq!(rt; source.faults(), faults);
    }
    Ok(())
}

#[test]
fn a_sink_takes_its_room(rt: HostRuntime) -> Result<(), AllocError> {
    let fail = [2].to_vec(rt.alloc())?;
    let mut sink = MemSink::new(rt.alloc(), 5, fail)?;
    for (text, answer, taken, faults) in [
        ("abc", Ok(()), "abc", 0),
        ("no", Err(Failed), "abc", 1),
        ("", Ok(()), "abc", 1),
        ("def", Err(Failed), "abcde", 2),
        ("no", Err(Failed), "abcde", 3),
    ] {
        assert_eq!(rt; send_all(&mut sink, text.as_bytes()), answer);
        assert_eq!(rt; sink.taken(), taken.as_bytes());
        assert_eq!(rt; sink.faults(), faults);
    }
    Ok(())
}

/// Answers a byte, an error, and then nothing.
#[derive(Drop)]
struct Faltering {
    calls: u8,
}

impl Read for Faltering {
    fn read(&mut self, buf: &mut [u8]) -> std::io::Result<usize> {
        self.calls = self.calls.saturating_add(1);
        match self.calls {
            1 if !buf.is_empty() => {
                buf[0] = b'a';
                Ok(1)
            }
            2 => Err(Error::from(ErrorKind::BrokenPipe)),
            _ => Ok(0),
        }
    }
}

impl Write for Faltering {
    fn write(&mut self, buf: &[u8]) -> std::io::Result<usize> {
        self.calls = self.calls.saturating_add(1);
        match self.calls {
            1 if !buf.is_empty() => Ok(1),
            2 => Err(Error::from(ErrorKind::BrokenPipe)),
            _ => Ok(0),
        }
    }

    fn flush(&mut self) -> std::io::Result<()> {
        if self.calls > 3 {
            return Err(Error::from(ErrorKind::BrokenPipe));
        }
        Ok(())
    }
}

#[test]
fn a_reader_fails_in_mid_stream(rt: HostRuntime) {
    let mut source = ReadSource::new(Faltering { calls: 0 });
    let mut buf = [0; 4];
    assert_eq!(rt; source.faults(), 0);
    for (answer, faults) in [(Ok(1), 0), (Err(Failed), 1), (Ok(0), 1)] {
        assert_eq!(rt; source.read(&mut buf), answer);
        assert_eq!(rt; source.faults(), faults);
    }
    assert_eq!(rt; buf, [b'a', 0, 0, 0]);
}

#[test]
fn a_writer_fails_and_then_takes_nothing(rt: HostRuntime) {
    let mut sink = WriteSink::new(Faltering { calls: 0 });
    assert_eq!(rt; sink.faults(), 0);
    for (answer, faults) in [(Ok(1), 0), (Err(Failed), 1), (Err(Failed), 2)] {
        assert_eq!(rt; sink.write(b"ab"), answer);
        assert_eq!(rt; sink.faults(), faults);
    }
    assert_eq!(rt; sink.flush(), Ok(()));
    assert_eq!(rt; sink.write(b"ab"), Err(Failed));
    assert_eq!(rt; sink.flush(), Err(Failed));
    assert_eq!(rt; sink.faults(), 4);
}
