// What the programs share to read their input and to print: bytes from a reader to the front of a lent buffer, bytes and numbers to
// a writer, the program's arguments, and files by their names. A write that fails is told by the answer and no more; a read that
// fails counts as the end.
#![tactic(auto)]

ghost use Rattle.std.specs.Prelude.{List, ℕ, ◌≡◌, ◌≤◌, ◌<◌, IfSome, IfNone, IsTrue, length, take, decimal};
ghost use Rattle.std.specs.Io.KnownBytes.{Appends, Consumes};

use std::env::FillError;
use std::io::{Read, Write};
use std::rt::{Env, Files};
use std::{fs, io};

// 4,096 zeros, which hold any path.
pub fn buffer() -> [u8; 4096]
    ensures { 4096 ≡ length result }
{
    [0; 4096]
}

// 65,536 zeros, which hold any input of a program and a byte more.
pub fn large_buffer() -> [u8; 65536]
    ensures { 65536 ≡ length result }
{
    [0; 65536]
}

// Reads until `buf` is full, the input ends or a read fails, and answers how many bytes it put at the front: the next bytes of the
// input.
pub fn read_full<R: Read>(from: &mut R, buf: &mut [u8]) -> usize
    ensures in_bounds { result ≤ length buf.new }
    ensures same_room { length buf.new ≡ length buf.old }
    ensures bytes { Consumes (R.remaining from.old) (R.remaining from.new) (take result buf.new) }
{
    let mut done = 0;
    while done < buf.len() {
        match from.read(&mut buf[done..]) {
            Ok(0) => return done,
            Ok(n) => done += n,
            Err(_) => return done,
        }
    }
    done
}

// Reads an input of at most `most` bytes to the front of `buf`; none where it is longer, for which `buf` has room. A read that fails counts as the
// input's end.
pub fn read_within<'a, R: Read>(from: &mut R, buf: &'a mut [u8], most: usize) -> Option<&'a [u8]>
    requires { most < length buf.old }
    ensures short { IfSome result (λ input. length input.now ≤ most) }
    ensures long { IfNone result ((bytes : List ℕ) × Consumes (R.remaining from.old) (R.remaining from.new) bytes × (most < length bytes)) }
    ensures bytes { IfSome result (λ input. Consumes (R.remaining from.old) (R.remaining from.new) input.now) }
{
    let len = read_full(from, buf);
    if len > most {
        return None;
    }
    Some(&buf[..len])
}

// Writes all the bytes, and answers whether they were written. Where not, some may have been.
pub fn write_all<W: Write>(out: &mut W, bytes: &[u8]) -> bool
    ensures { IsTrue result → Appends (W.contents out.old) (W.contents out.new) bytes.now }
{
    out.write_all(bytes).is_ok()
}

// Writes the decimal digits of a number, as `write_all` does.
pub fn print_decimal<W: Write>(out: &mut W, n: u64) -> bool
    ensures { IsTrue result → Appends (W.contents out.old) (W.contents out.new) (decimal n) }
{
    write!(out, "{n}").is_ok()
}

// How many arguments the program was started with, its own name among them.
pub fn arg_count(rt: &impl Env) -> usize {
    let mut none = [0u8; 0];
    for i in 0..usize::MAX {
        if let Err(FillError::NotPresent) = rt.arg(i, &mut none) {
            return i;
        }
    }
    usize::MAX
}

// Reads argument `i` to the front of `buf`; nothing where it is missing, or longer than `buf`.
pub fn arg<'a>(rt: &impl Env, i: usize, buf: &'a mut [u8]) -> &'a [u8]
    ensures in_bounds { length result.now ≤ length buf.old }
{
    match rt.arg(i, buf) {
        Ok(len) => &buf[..len],
        Err(_) => &[],
    }
}

// Opens a file for reading. A name that is no UTF-8 is refused: std has no path for it.
pub fn open_read<R: Files>(rt: &R, name: &[u8]) -> io::Result<R::File> {
    match std::str::from_utf8(name) {
        Ok(text) => fs::open(rt, text),
        Err(_) => Err(io::Error::from(io::ErrorKind::InvalidFilename)),
    }
}

// Writes a line that says what failed and why: a name, a colon and the system's word for the error.
pub fn fail<W: Write>(out: &mut W, what: &[u8], error: io::Error) {
    let mut text = [0u8; 256];
    write_all(out, what);
    write_all(out, b": ");
    write_all(out, error_text(&error, &mut text));
    write_all(out, b"\n");
}

// Writes the system's word for an error to the front of `buf`. std writes the error's number after it, in brackets, which is left out.
fn error_text<'a>(error: &io::Error, buf: &'a mut [u8; 256]) -> &'a [u8]
    ensures in_bounds { length result.now ≤ length buf.old }
{
    let buf_len = buf.len();
    let mut rest = &mut buf[..];
    let _ = write!(rest, "{error}");
    let len = buf_len.saturating_sub(rest.len());
    let said = &buf[..len];
    match std::str::from_utf8(said) {
        Ok(text) => &said[..text.find(" (os error ").unwrap_or(len)],
        Err(_) => said,
    }
}

#[cfg(test)]
mod tests {
    use super::*;

    // Gives or takes a byte at a time, so many, and then fails each time.
    #[derive(Drop)]
    struct Torn {
        left: usize,
    }

    impl Read for Torn {
        fn read(&mut self, buf: &mut [u8]) -> io::Result<usize> {
            if self.left == 0 {
                return Err(io::Error::from(io::ErrorKind::BrokenPipe));
            }
            if buf.is_empty() {
                return Ok(0);
            }
            self.left -= 1;
            buf[0] = b'a';
            Ok(1)
        }
    }

    impl Write for Torn {
        fn write(&mut self, buf: &[u8]) -> io::Result<usize> {
            if self.left == 0 {
                return Err(io::Error::from(io::ErrorKind::BrokenPipe));
            }
            if buf.is_empty() {
                return Ok(0);
            }
            self.left -= 1;
            Ok(1)
        }

        fn flush(&mut self) -> io::Result<()> {
            Ok(())
        }
    }

    #[test]
    fn a_read_that_fails_is_the_end(rt: HostRuntime) {
        let mut space = [0u8; 4];
        assert_eq!(rt; read_full(&mut Torn { left: 3 }, &mut space), 3);
        assert!(rt; space == *b"aaa\0");
        assert_eq!(rt; read_full(&mut Torn { left: 5 }, &mut space), 4);
    }

    #[test]
    fn a_write_that_fails_is_told(rt: HostRuntime) {
        assert!(rt; write_all(&mut Torn { left: 3 }, b"abc"));
        assert!(rt; !write_all(&mut Torn { left: 2 }, b"abc"));
        assert!(rt; !print_decimal(&mut Torn { left: 2 }, 207));
    }

    #[test]
    fn an_error_is_said_without_its_number(rt: HostRuntime) {
        let mut space = [0u8; 64];
        let mut rest = &mut space[..];
        fail(&mut rest, b"note.txt", io::Error::from_raw_os_error(2));
        assert!(rt; space.starts_with(b"note.txt: No such file or directory\n\0"));
    }
}
