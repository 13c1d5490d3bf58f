// The run file: a view of the lent bytes with its position, and the record that begins there.
#![tactic(auto)]

pub mod cursor;

ghost use Rattle.std.specs.Prelude.{◌≡◌, drop};
ghost use Rattle.meaning.specs.Bench.{full};
ghost use Rattle.runfile.specs.Records.{count_of, plaque_of, command_of};

use crate::cursor::{command_of, count_of, plaque_of, rest_at};
use units::{Bytes, Words};

// No run file is longer.
pub const LONGEST_FILE: usize = 65536;

// A plaque's node, and the length of its bytes, which begin 11 bytes after the record does.
#[derive(Clone, Copy)]
pub struct PlaqueRecord {
    pub node: u8,
    pub length: Bytes,
}

#[derive(Clone, Copy)]
pub struct RunFile<'a> {
    pub bytes: &'a [u8],
    pub at: usize,
}

impl<'a> RunFile<'a> {
    // The bytes that are left.
    pub fn rest(self) -> &'a [u8]
        ensures { result.now ≡ drop self.entry.at self.entry.bytes.now }
    {
        rest_at(self.bytes, self.at)
    }
}

// The count at a position, where it is not broken.
pub fn read_count(bytes: &[u8], at: usize) -> Option<u16>
    ensures { result ≡ count_of (drop at bytes.now) }
{
    count_of(RunFile { bytes, at }.rest())
}

// The plaque at a position, where its record is not broken.
pub fn read_plaque(bytes: &[u8], at: usize) -> Option<PlaqueRecord>
    ensures { result ≡ plaque_of full (drop at bytes.now) }
{
    plaque_of(RunFile { bytes, at }.rest())
}

// The Overall Length of the command at a position, where its record is not broken. The command's words begin 5 bytes after the record does.
pub fn read_command(bytes: &[u8], at: usize) -> Option<Words>
    ensures { result ≡ command_of (drop at bytes.now) }
{
    command_of(RunFile { bytes, at }.rest())
}
