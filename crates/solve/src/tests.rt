// What the proofs of `moving` leave open: calls that are broken off, and calls that fail half-way.
use crate::moving::{read, write};
use std::io;
use std::io::{Error, ErrorKind, Read, Write};
use std::test::Fail;

// Every other call is broken off, and the rest move one byte each, until `most` have been moved; then a call fails.
#[derive(Drop)]
struct Slow {
    calls: u8,
    moved: u8,
    most: u8,
}

impl Slow {
    fn new(most: u8) -> Slow {
        Slow {
            calls: 0,
            moved: 0,
            most,
        }
    }

    // How many bytes are moved after this call.
    fn step(&mut self) -> io::Result<u8> {
        self.calls = self.calls.wrapping_add(1);
        if self.calls % 2 == 1 {
            return Err(Error::from(ErrorKind::Interrupted));
        }
        if self.moved >= self.most {
            return Err(Error::from(ErrorKind::StorageFull));
        }
        self.moved = self.moved.wrapping_add(1);
        Ok(self.moved)
    }
}

impl Read for Slow {
    fn read(&mut self, buf: &mut [u8]) -> io::Result<usize> {
        let byte = self.step()?;
        if buf.is_empty() {
            return Ok(0);
        }
        buf[0] = byte;
        Ok(1)
    }
}

impl Write for Slow {
    fn write(&mut self, buf: &[u8]) -> io::Result<usize> {
        self.step()?;
        if buf.is_empty() {
            return Ok(0);
        }
        Ok(1)
    }

    fn flush(&mut self) -> io::Result<()> {
        Ok(())
    }
}

#[test]
fn what_is_broken_off_goes_on(rt: HostRuntime) -> Result<(), Fail> {
    let mut from = Slow::new(9);
    let mut file = [0u8; 4];
    assert!(rt; read(&mut from, &mut file).is_ok_and(|count| count == 4));
    assert_eq!(rt; file, [1, 2, 3, 4]);
    let mut to = Slow::new(4);
    assert!(rt; write(&mut to, &file).is_ok());
    assert_eq!(rt; to.moved, 4);
    Ok(())
}

#[test]
fn what_fails_is_told(rt: HostRuntime) -> Result<(), Fail> {
    let mut from = Slow::new(3);
    let mut file = [0u8; 4];
    assert!(rt;
        read(&mut from, &mut file).is_err_and(|short| short.count == 3
            && short.why.kind() == ErrorKind::StorageFull)
    );
    let mut to = Slow::new(3);
    assert!(rt; write(&mut to, &file).is_err_and(|why| why.kind() == ErrorKind::StorageFull));
    assert_eq!(rt; to.moved, 3);
    Ok(())
}

#[test]
fn the_input_ends_or_fills_the_file(rt: HostRuntime) -> Result<(), Fail> {
    let mut file = [0u8; 4];
    let mut short: &[u8] = b"abc";
    assert!(rt; read(&mut short, &mut file).is_ok_and(|count| count == 3));
    let mut long: &[u8] = b"defgh";
    assert!(rt; read(&mut long, &mut file).is_ok_and(|count| count == 4));
    assert_eq!(rt; file, *b"defg");
    Ok(())
}
