// The input, through a buffer of fixed size: what is read and not used yet lies at its front.
ghost use Rattle.std.specs.Prelude.{◌≡◌, true, ◌-◌, ◌≤◌, length, take, drop, OnOk, OnErr};
ghost use Rattle.std.specs.Io.KnownBytes.{Consumes, IsAtEnd, Keeps};
ghost use Rattle.std.specs.List.{copy_within};

use std::io;
use std::io::Read;

#[derive(Clone, Copy)]
pub struct Feed {
    // bytes that are there
    pub have: usize,
    // the input has no more
    pub last: bool,
}

impl Feed {
    // One read after the bytes that are there, which stay, if there is room and the input has more. What is added is what was next in
    // the input, and the input has no more only where it is at its end. A read that fails adds nothing.
    pub fn fill<R: Read>(&mut self, from: &mut R, buf: &mut [u8]) -> io::Result<()>
        requires { self.old.have ≤ length buf.old }
        ensures kept { (self.old.have ≤ self.new.have) × (self.new.have ≤ length buf.new) × (take self.old.have buf.new ≡ take self.old.have buf.old) }
        ensures added { OnOk result (Consumes (R.remaining from.old) (R.remaining from.new) (drop self.old.have (take self.new.have buf.new))) }
        ensures end { OnOk result ((self.old.last ≡ true → IsAtEnd (R.remaining from.old)) → self.new.last ≡ true → IsAtEnd (R.remaining from.new)) }
        ensures err { OnErr result ((self.new ≡ self.old) × Keeps (R.remaining from.old) (R.remaining from.new)) }
    {
        if self.last || buf.len() <= self.have {
            return Ok(());
        }
        let n = from.read(&mut buf[self.have..])?;
        self.have += n;
        self.last = n == 0;
        Ok(())
    }

    // Lets the first n bytes go: those after them move to the front.
    pub fn let_go(&mut self, buf: &mut [u8], n: usize)
        requires { (n ≤ self.old.have) × (self.old.have ≤ length buf.old) }
        ensures fields { (self.new.have ≡ self.old.have - n) × (self.new.last ≡ self.old.last) }
        ensures bytes { buf.new ≡ copy_within buf.old n self.old.have 0 }
    {
        buf.copy_within(n..self.have, 0);
        self.have -= n;
    }
}
