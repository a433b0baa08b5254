// Inputs that fail or wait for their replies, an output that fails, and what is served of them.
use quote_desk::service::serve;
use std::cell::Cell;
use std::io;
use std::io::{Error, ErrorKind, Read, Write};
use streams::failure::Failure;

// An input that gives a line a read, and with the last one the half of another, once all before are answered. Then it
// fails.
#[derive(Drop)]
struct Waiting<'a> {
    given: u64,
    answered: &'a Cell<u64>,
}

impl<'a> Read for Waiting<'a> {
    fn read(&mut self, buf: &mut [u8]) -> io::Result<usize> {
        if self.answered.get() != self.given {
            return Err(Error::from(ErrorKind::TimedOut));
        }
        let given = match self.given {
            0 => b"x\n".as_slice(),
            1 => b"link 20200315 1000 2\n",
            2 => b"y\nlink 2020",
            _ => return Err(Error::from(ErrorKind::Other)),
        };
        let count = given.len().min(buf.len());
        buf[..count].copy_from_slice(&given[..count]);
        self.given += 1;
        Ok(count)
    }
}

// An output that counts the lines that it is given.
#[derive(Drop)]
struct Counting<'a> {
    lines: &'a Cell<u64>,
}

impl<'a> Write for Counting<'a> {
    fn write(&mut self, buf: &[u8]) -> io::Result<usize> {
        for byte in buf {
            if *byte == b'\n' {
                self.lines.set(self.lines.get().wrapping_add(1));
            }
        }
        Ok(buf.len())
    }

    fn flush(&mut self) -> io::Result<()> {
        Ok(())
    }
}

// An output that takes nothing.
#[derive(Drop)]
struct Full;

impl Write for Full {
    fn write(&mut self, _buf: &[u8]) -> io::Result<usize> {
        Err(Error::from(ErrorKind::StorageFull))
    }

    fn flush(&mut self) -> io::Result<()> {
        Ok(())
    }
}

// Each line is answered before more is waited for, and what was answered stands where the input then fails.
#[test]
fn replies_are_not_kept_back(rt: HostRuntime) {
    let answered = Cell::new(0);
    let input = Waiting {
        given: 0,
        answered: &answered,
    };
    let output = Counting { lines: &answered };
    let served = serve(rt.alloc(), input, output);
    assert!(&rt; matches!(served, Err(Failure::Input(ErrorKind::Other))));
    assert_eq!(&rt; answered.get(), 3);
}

// An output that fails is told as such.
#[test]
fn outputs_fail(rt: HostRuntime) {
    let served = serve(rt.alloc(), b"x\n".as_slice(), Full);
    assert!(&rt; matches!(served, Err(Failure::Output(ErrorKind::StorageFull))));
}
