// Files that a program reads whole.
#![tactic(auto)]

ghost use Rattle.std.specs.Prelude.{take};
ghost use Rattle.std.specs.Io.KnownBytes.{Consumes};
ghost use Rattle.io.specs.Counts.{IsPrefixLen};

use std::fs::File;
use std::io::Read;
use std::rt::Files;

// Reads until a buffer is full, the input ends or a read fails, and says how many bytes it put to the
// buffer's front.
pub fn read_full<R: Read>(from: &mut R, buf: &mut [u8]) -> usize
    ensures prefix_len { IsPrefixLen result buf.new }
    ensures bytes { Consumes (R.remaining from.old) (R.remaining from.new) (take result buf.new) }
{
    let mut done = 0;
    while done < buf.len() {
        match from.read(&mut buf[done..]) {
            Ok(0) | Err(_) => break,
            Ok(n) => done += n,
        }
    }
    done
}

// Reads a file to the front of a buffer, and says how many bytes: 0 where it cannot be read.
pub fn read_file<R: Files>(rt: &R, path: &str, buf: &mut [u8]) -> usize
    ensures { IsPrefixLen result buf.new }
{
    let Ok(mut file) = File::open(rt, path) else {
        return 0;
    };
    read_full(&mut file, buf)
}
