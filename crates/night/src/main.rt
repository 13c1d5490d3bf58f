// Plays run files, and writes their listings to standard output: each file that is named, with `-` for standard input, or standard input
// where none is. A file that cannot be read is said on standard error and has no listing; where a listing cannot be written, that is said
// there too, and nothing more is played.
#![tactic(auto)]

ghost use Rattle.std.specs.Prelude.{◌<◌, ◌≤◌, length, IfOk};

use nightrun::{LONGEST_LISTING, Listed, list};
use std::env::Env;
use std::fs::File;
use std::io::{self, ErrorKind, Read};
use streams::{Failed, fail, put, say, take, word_count};

// The longest word that is taken from the command line: it holds any path.
const LONGEST_WORD: usize = 4096;

// The system's number for a name that is too long.
const ENAMETOOLONG: i32 = 36;

// The results from here on say whether the listing could be written.
fn write_into(rt: HostRuntime, file: &[u8], out: &mut [u8]) -> bool {
    let Listed::Written(n) = list(file, out) else {
        return false;
    };
    put(rt, &out[..n]).is_ok()
}

// With room for every listing. (In a function of its own: no proof then looks at each of so many bytes.)
fn write_listing(rt: HostRuntime, file: &[u8]) -> bool {
    let mut out = [0u8; LONGEST_LISTING];
    write_into(rt, file, &mut out)
}

// Adds bytes behind the first n of a file, as many as there is room for; the result is how many it then has.
fn add(file: &mut [u8], n: usize, bytes: &[u8]) -> usize
    requires { (n < length file.old) × (1 ≤ length bytes.now) }
    ensures { (n < result) × (result ≤ length file.new) }
{
    let more = bytes.len().min(file.len() - n);
    file[n..n + more].copy_from_slice(&bytes[..more]);
    n + more
}

// Reads a file's bytes, as many as there is room for.
fn read_file<R: Read>(
    rt: HostRuntime,
    name: &[u8],
    from: &mut R,
    file: &mut [u8],
) -> Result<usize, Failed>
    ensures { IfOk result (λ n. n ≤ length file.new) }
{
    let mut chunk = [0u8; 4096];
    let mut n = 0;
    while n < file.len() {
        let more = take(rt, name, from, &mut chunk)?;
        if more == 0 {
            break;
        }
        n = add(file, n, &chunk[..more]);
    }
    Ok(n)
}

// A byte more than a run file may have shows that it is too long.
fn play<R: Read>(rt: HostRuntime, name: &[u8], from: &mut R) -> bool {
    let mut file = [0u8; 65537];
    match read_file(rt, name, from, &mut file) {
        Ok(n) => write_listing(rt, &file[..n]),
        Err(_) => true,
    }
}

fn play_input(rt: HostRuntime) -> bool {
    play(rt, b"standard input", &mut rt.stdin())
}

// A name is text: a file with another one is played by `night - < FILE`.
fn open(rt: HostRuntime, name: &[u8]) -> io::Result<File> {
    match str::from_utf8(name) {
        Ok(path) => File::open(&rt, path),
        Err(_) => Err(io::Error::from(ErrorKind::InvalidFilename)),
    }
}

fn play_file(rt: HostRuntime, name: &[u8]) -> bool {
    match open(rt, name) {
        Ok(mut file) => play(rt, name, &mut file),
        Err(error) => {
            let what = if name.is_empty() {
                b"empty file name"
            } else {
                name
            };
            fail(rt, what, error);
            true
        }
    }
}

// Whether an argument asks for help: -h, --help, or what begins so.
fn is_help(word: &[u8]) -> bool {
    word.starts_with(b"-h") || word.starts_with(b"--h")
}

// No file is played after an option.
fn explain(rt: HostRuntime, option: &[u8]) {
    if is_help(option) {
        let _ = put(rt, b"usage: night [FILE..]\n");
        let _ = put(
            rt,
            b"Plays run files and writes their listings. No FILE, or -: standard input. See docs/NIGHT.md\n",
        );
        return;
    }
    say(rt.stderr(), b"night: no such option: ");
    say(rt.stderr(), option);
    say(rt.stderr(), b" (a file of that name is ./");
    say(rt.stderr(), option);
    say(rt.stderr(), b")\n");
}

fn play_word(rt: HostRuntime, word: &[u8]) -> bool {
    match word {
        [b'-'] => play_input(rt),
        [b'-', ..] => {
            explain(rt, word);
            false
        }
        _ => play_file(rt, word),
    }
}

fn play_argument(rt: HostRuntime, i: usize) -> bool {
    let mut word = [0u8; LONGEST_WORD];
    match rt.arg(i, &mut word) {
        Ok(length) => play_word(rt, &word[..length]),
        Err(_) => {
            fail(rt, b"file name", io::Error::from_raw_os_error(ENAMETOOLONG));
            true
        }
    }
}

fn main(rt: HostRuntime) {
    let words = word_count(rt);
    if words < 2 {
        play_input(rt);
        return;
    }
    for i in 1..words {
        if !play_argument(rt, i) {
            return;
        }
    }
}
