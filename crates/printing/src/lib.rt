// Printing that goes on where standard output can't be written, as the programs do: what is lost there ends none of them.
#![tactic(auto)]

ghost use Rattle.std.specs.Prelude.{◌≡◌, IsOk};

use std::fmt::Display;
use std::io;

#[derive(Drop)]
pub struct Printer<P: Print> {
    out: P,
}

impl<P: Print> Printer<P> {
    pub fn new(out: P) -> Printer<P>
        ensures { result.out ≡ out }
    {
        Printer { out }
    }
}

impl<P: Print> Print for Printer<P> {
    fn print<D: Display + Drop>(&self, value: D) -> io::Result<()>
        ensures { IsOk result }
    {
        let _ = self.out.print(value);
        Ok(())
    }

    fn println<D: Display + Drop>(&self, value: D) -> io::Result<()>
        ensures { IsOk result }
    {
        let _ = self.out.println(value);
        Ok(())
    }

    fn write_all(&self, bytes: &[u8]) -> io::Result<()>
        ensures { IsOk result }
    {
        let _ = self.out.write_all(bytes);
        Ok(())
    }
}
