// Inputs that fail or do not end, and what is read of them.
use event_file::input::file_bytes;
use std::io;
use std::io::{Error, ErrorKind, Read};
use std::test::Fail;

// An input that gives a byte at a time, and fails after so many.
#[derive(Drop)]
struct Failing {
    left: u32,
}

impl Read for Failing {
    fn read(&mut self, buf: &mut [u8]) -> io::Result<usize> {
        let Some(first) = buf.first_mut() else {
            return Ok(0);
        };
        if self.left == 0 {
            return Err(Error::from(ErrorKind::Other));
        }
        self.left -= 1;
        *first = b'E';
        Ok(1)
    }
}

// A failure in mid-file is no shorter file.
#[test]
fn failures_are_told(rt: HostRuntime) {
    assert!(&rt; file_bytes(rt.alloc(), Failing { left: 512 }).is_err());
}

// One byte more than the longest file is read, and no more.
#[test]
fn long_inputs_are_cut(rt: HostRuntime) -> Result<(), Fail> {
    let bytes = file_bytes(rt.alloc(), io::repeat(0))?;
    assert_eq!(&rt; bytes.len(), 65_537);
    Ok(())
}
