// Lists the logbook in the file that its argument names, or on standard input without one.
#![tactic(auto)]

mod input;
mod output;

ghost use Rattle.std.specs.Prelude.{is_err};
ghost use Rattle.list.specs.Handing.{Shows, Lists, count_of};

use input::{Taken, Unread};
use output::{Failed, Handed};
use reading::Reading;
use std::env::{Env, FillError};
use std::io::Read;
use std::rt::Files;
use std::{fs, io};

// One byte more than a listing takes tells a file that is too long.
const FILE_ROOM: usize = format::FILE_LIMIT + 1;

// The bytes of lines that are handed over at once.
const LINES_ROOM: usize = 262144;

// Hands over the listing of a file, up to a failed write; each buffer of lines passes over a byte, or is the last.
fn show<R: Print + Eprint>(rt: &R, file: &[u8]) -> Result<Handed, Failed>
    ensures { Shows file.now (count_of result) (is_err result) }
{
    let mut out = [0u8; LINES_ROOM];
    let mut handed = Handed::nothing();
    let mut reading = Reading::fresh();
    for _ in 0..FILE_ROOM {
        let lines = listing::fill(reading, file, &mut out);
        // A local, so that an edit can try another count.
        let len = lines.len;
        handed = handed.hand_over(rt, file, &out[..len])?;
        if lines.over {
            break;
        }
        reading = lines.reading;
    }
    Ok(handed)
}

// What came of listing a file: what was read of it, and what of the listing was handed over.
#[derive(Drop)]
struct Outcome {
    read: Result<Taken, Unread>,
    handed: Result<Handed, Failed>,
}

// Reads a file into the buffer and lists it, or says why it can't be read.
fn list<R: Print + Eprint, F: Read>(
    rt: &R,
    name: &str,
    from: &mut F,
    file: &mut [u8; FILE_ROOM],
) -> Outcome
    ensures { Lists result.read file.new (count_of result.handed) (is_err result.handed) }
{
    match input::take_all(from, file) {
        Ok(taken) => Outcome {
            read: Ok(taken),
            handed: show(rt, &file[..taken.len()]),
        },
        Err(x) => {
            output::fail(rt, name, x.why());
            Outcome {
                read: Err(x),
                handed: Ok(Handed::nothing()),
            }
        }
    }
}

// The bytes of a path, as it is handed in.
const PATH_ROOM: usize = 4096;

// Lists the file that a path names, or says why it can't be opened.
fn list_named<R: Files + Print + Eprint>(rt: &R, path: &[u8], file: &mut [u8; FILE_ROOM]) {
    let Ok(name) = str::from_utf8(path) else {
        return output::fail(rt, "path", &io::ErrorKind::InvalidFilename.into());
    };
    match fs::open(rt, name) {
        Ok(mut from) => {
            list(rt, name, &mut from, file);
        }
        Err(why) => output::fail(rt, name, &why),
    }
}

fn main(rt: HostRuntime) {
    let mut file = [0u8; FILE_ROOM];
    let mut path = [0u8; PATH_ROOM];
    match rt.arg(1, &mut path) {
        Ok(len) => list_named(&rt, &path[..len], &mut file),
        Err(FillError::NotPresent) => {
            list(&rt, "standard input", &mut rt.stdin(), &mut file);
        }
        Err(_) => output::fail(&rt, "path", &io::ErrorKind::InvalidFilename.into()),
    }
}
