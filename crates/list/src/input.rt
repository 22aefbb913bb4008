// A file's bytes, read into a buffer.
ghost use Rattle.std.specs.Prelude.{◌≡◌, ◌≤◌, length, IfOk};

use std::io;
use std::io::Read;

// How many bytes were read to the front of a buffer, and how many it holds: a part of the buffer isn't all of it. The fields are private,
// as that of `Unread` is, so that neither is made up.
#[derive(Clone, Copy)]
pub struct Taken {
    len: usize,
    room: usize,
}

// Why a file couldn't be read.
#[derive(Drop)]
pub struct Unread {
    why: io::Error,
}

impl Taken {
    pub fn len(self) -> usize
        ensures { result ≡ self.len }
    {
        self.len
    }
}

impl Unread {
    pub fn why(&self) -> &io::Error
        ensures { result.now ≡ self.now.why }
    {
        &self.why
    }
}

// Reads until the buffer is full or the input is over.
pub fn take_all<F: Read>(from: &mut F, buf: &mut [u8]) -> Result<Taken, Unread>
    ensures within { IfOk result (λ taken. taken.len ≤ length buf.new) }
    ensures room { IfOk result (λ taken. taken.room ≡ length buf.new) }
{
    let room = buf.len();
    let mut rest = &mut buf[..];
    while !rest.is_empty() {
        match from.read(rest) {
            Ok(0) => break,
            Ok(more) => rest = &mut rest[more..],
            Err(why) => return Err(Unread { why }),
        }
    }
    Ok(Taken {
        len: room - rest.len(),
        room,
    })
}
