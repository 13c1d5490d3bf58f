// The bytes that are left at a position, and the record that they begin with: none where they are too few for it.
ghost use Rattle.std.specs.Prelude.{◌≡◌, ◌+◌, ◌≤◌, length, drop};
ghost use Rattle.meaning.specs.Bench.{full};
ghost use Rattle.listing.specs.Records.{two};
ghost use Rattle.runfile.specs.Records.{count_of, plaque_of, command_of};

use crate::PlaqueRecord;
use units::word::word;
use units::{Bytes, LAST_READER, Words};

// The bytes from a position on; none are left past the end.
pub fn rest_at(bytes: &[u8], at: usize) -> &[u8]
    ensures { result.now ≡ drop at bytes.now }
{
    bytes.get(at..).unwrap_or(&[])
}

fn two_at(rest: &[u8], i: usize) -> u16
    requires { i + 2 ≤ length rest.now }
    ensures { result ≡ two rest.now i }
{
    let msb = rest[i];
    let lsb = rest[i + 1];
    word(msb, lsb)
}

#[tactic(auto, unfolding(crate::specs::Records::count_of, listing::specs::Records::count_whole))]
pub fn count_of(rest: &[u8]) -> Option<u16>
    ensures { result ≡ count_of rest.now }
{
    if rest.len() < 2 {
        return None;
    }
    Some(two_at(rest, 0))
}

#[tactic(auto, unfolding(crate::specs::Records::plaque_of, listing::specs::Records::plaque_whole))]
pub fn plaque_of(rest: &[u8]) -> Option<PlaqueRecord>
    ensures { result ≡ plaque_of full rest.now }
{
    if rest.len() < 11 {
        return None;
    }
    let node = rest[0];
    if node < 1 || LAST_READER < node {
        return None;
    }
    let length = Bytes(two_at(rest, 1));
    if length.0 < 1 || Bytes::REGION.0 < length.0 {
        return None;
    }
    if rest.len() < 11 + length.0 as usize {
        return None;
    }
    Some(PlaqueRecord { node, length })
}

#[tactic(auto, unfolding(crate::specs::Records::command_of, listing::specs::Records::command_whole))]
pub fn command_of(rest: &[u8]) -> Option<Words>
    ensures { result ≡ command_of rest.now }
{
    if rest.len() < 7 {
        return None;
    }
    let words = Words(two_at(rest, 5));
    if words.0 < Words::FIXED.0 || Words::PACKET.0 < words.0 {
        return None;
    }
    if rest.len() < 5 + words.bytes().0 as usize {
        return None;
    }
    Some(words)
}
