// A packet written again from what was read, and compared with the words lent.
ghost use Rattle.std.specs.Prelude.{◌≡◌, replicate};
ghost use Rattle.std.specs.Fn.{FnOnceReturnsAtMut};
ghost use Rattle.guide.specs.Again.{agrees, command_again, response_again};

use commandout::write_command;
use meaning::packet::{Command, Response, Written};
use responseout::write_response;
use units::Form;

// Whether what is written again is the words.
fn same<F: FnOnce(&mut [u16]) -> Written>(words: &[u16], write: F) -> bool
    requires { F.IsAlwaysCallable write }
    ensures { (r : _) × (out : _) × FnOnceReturnsAtMut F.FnOnce write (replicate 256 0) r out
        × (result ≡ agrees words.now r out) }
{
    let mut out = [0u16; 256];
    match write(&mut out) {
        Written::Refused(_) => false,
        Written::Done(n) => out.get(..n.0 as usize) == Some(words),
    }
}

pub fn same_command(words: &[u16], form: Form, m: Command, bytes: &[u8]) -> bool
    ensures { result ≡ command_again words.now form m bytes.now 256 }
{
    same(words, |out| write_command(form, m, bytes, out))
}

pub fn same_response(words: &[u16], form: Form, r: Response, bytes: &[u8]) -> bool
    ensures { result ≡ response_again words.now form r bytes.now 256 }
{
    same(words, |out| write_response(form, r, bytes, out))
}
