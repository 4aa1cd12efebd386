// The streams that programs print to.
ghost use Rattle.std.specs.Prelude.{◌≡◌, IsOk};

use std::fmt::Write;
use std::{fmt, io};

/// A stream that is written on, also after a write that failed: what it does not take is lost, and is no error. Of a text each
/// piece, as a number or the words between two, is a write of its own, so that one that fails takes no other with it.
#[derive(Clone, Copy)]
pub struct Stream<P> {
    to: P,
}

impl<P> Stream<P> {
    /// On a stream, which it keeps.
    pub fn new(to: P) -> Stream<P>
        ensures { result.to ≡ to }
    {
        Stream { to }
    }
}

impl<P: Print> Print for Stream<P> {
    fn print<D: fmt::Display + Drop>(&self, value: D) -> io::Result<()>
        ensures { IsOk result }
    {
        let _ = Pieces { to: &self.to }.write(value);
        Ok(())
    }

    fn println<D: fmt::Display + Drop>(&self, value: D) -> io::Result<()>
        ensures { IsOk result }
    {
        let _ = Pieces { to: &self.to }.writeln(value);
        Ok(())
    }

    fn write_all(&self, bytes: &[u8]) -> io::Result<()>
        ensures { IsOk result }
    {
        let _ = self.to.write_all(bytes);
        Ok(())
    }
}

// Hands on each piece of a text as it comes. The stream's own `print` would leave out what follows a piece that failed.
#[derive(Clone, Copy)]
struct Pieces<'a, P> {
    to: &'a P,
}

impl<'a, P: Print> fmt::Write for Pieces<'a, P> {
    fn write_str(&mut self, piece: &str) -> fmt::Result
        ensures { IsOk result }
    {
        let _ = self.to.write_all(piece.as_bytes());
        Ok(())
    }
}
