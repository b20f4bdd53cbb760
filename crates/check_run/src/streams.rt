//! Readers and writers of std as sources and sinks: what they give and take, and that their faults aren't passed over.

use io_edge::{
    ReadError, StdSink, StdSource, SteadySink, Waiting, WriteError, read_all, write_all_of,
};
use std::io;
use std::io::{ErrorKind, Read};
use std::test::Fail;

// Gives one byte, and then nothing but errors.
#[derive(Drop)]
struct Torn {
    is_given: bool,
}

impl Read for Torn {
    fn read(&mut self, buf: &mut [u8]) -> io::Result<usize> {
        if self.is_given || buf.is_empty() {
            return Err(io::Error::from(ErrorKind::Other));
        }
        self.is_given = true;
        buf[0] = b'a';
        Ok(1)
    }
}

#[test]
fn readers_and_writers_of_std(rt: HostRuntime) -> Result<(), Fail> {
    let mut source = StdSource::new(b"hello".as_slice());
    let bytes = read_all(rt.alloc(), &mut source, 5)?;
    assert_eq!(rt; bytes.as_slice(), b"hello".as_slice());

    let mut torn = StdSource::new(Torn { is_given: false });
    let failed = read_all(rt.alloc(), &mut torn, 5);
    assert!(rt; matches!(failed, Err(ReadError::ReadFault)));

    let mut room = *b"....";
    let mut full = StdSink::new(room.as_mut_slice());
    assert_eq!(rt;
        write_all_of(&mut full, b"hello"),
        Err(WriteError::WriteFault)
    );
    assert_eq!(rt; room.as_slice(), b"hell".as_slice());
    Ok(())
}

/// No clause says how long the pieces are that a sink gets.
#[test]
fn small_puts_are_handed_on_in_pieces_of_4096_bytes(rt: HostRuntime) -> Result<(), Fail> {
    let mut sink = SteadySink::new(rt.alloc());
    let mut waiting = Waiting::new();
    for _ in 0..1_000 {
        waiting.put(b"abcdefghijklmnopqrst", &mut sink)?;
    }
    assert_eq!(rt; sink.bytes().len(), 16_384);
    Ok(())
}
