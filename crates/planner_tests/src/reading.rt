// Readers: what they have is answered, up to one byte more than a file may have; where reading fails nothing is.

use planner::{Room, answer_from, answer_through};
use std::io;
use std::io::{ErrorKind, Read};
use std::test::Fail;

const FILE: &[u8] = b"(net (nodes 1) (arcs 0) (tiers 1))\n";

// A file in so many bytes a turn, which ends or breaks off there.
#[derive(Drop)]
struct Pieces<'a> {
    left: &'a [u8],
    at_once: usize,
    breaks: bool,
}

impl Read for Pieces<'_> {
    fn read(&mut self, buf: &mut [u8]) -> io::Result<usize> {
        if self.left.is_empty() && self.breaks {
            return Err(ErrorKind::BrokenPipe.into());
        }
        let n = self.at_once.min(self.left.len()).min(buf.len());
        let (now, later) = self.left.split_at(n);
        buf[..n].copy_from_slice(now);
        self.left = later;
        Ok(n)
    }
}

#[test]
fn in_pieces(rt: HostRuntime) -> Result<(), Fail> {
    for at_once in [1, 7, 65_537] {
        let mut reader = Pieces {
            left: FILE,
            at_once,
            breaks: false,
        };
        let answer = answer_from(Room::ask(rt.alloc())?, &mut reader)?;
        assert_eq!(rt; answer.as_str(), "(least 0)\n");
    }
    Ok(())
}

// The bytes that came would be refused as an early end, or be answered where the file has come whole.
#[test]
fn a_reader_that_breaks_off(rt: HostRuntime) -> Result<(), Fail> {
    for some in [0, 20, FILE.len()] {
        let mut reader = Pieces {
            left: &FILE[..some],
            at_once: 10,
            breaks: true,
        };
        let mut written = Vec::new(rt.alloc());
        let done = answer_through(Room::ask(rt.alloc())?, &mut reader, &mut written);
        let Err(error) = done else {
            panic!(rt; "an answer after {some} bytes");
        };
        assert_eq!(rt; error.kind(), ErrorKind::BrokenPipe);
        assert!(rt; written.is_empty());
    }
    Ok(())
}

// Of a file of 65,537 bytes or more, so many are read, and it is told as too long.
#[test]
fn long_files(rt: HostRuntime) -> Result<(), Fail> {
    let cases = [
        (65_536, 0, "(refused 13 1 1 1)\n"),
        (65_537, 0, "(refused 13 1 1 8)\n"),
        (70_000, 4_463, "(refused 13 1 1 8)\n"),
    ];
    for (len, over, due) in cases {
        let bytes = [b'#'; 70_000];
        let mut reader = &bytes[..len];
        let answer = answer_from(Room::ask(rt.alloc())?, &mut reader)?;
        assert_eq!(rt; answer.as_str(), due);
        assert_eq!(rt; reader.len(), over);
    }
    Ok(())
}
