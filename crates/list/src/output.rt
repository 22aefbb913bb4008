// Standard output: the one place that hands bytes to it, and counts them.
ghost use Rattle.std.specs.Prelude.{◌≡◌, ◌+◌, length};
ghost use Rattle.list.specs.Handing.{NextPart, count_of};

use std::io;
use std::io::Write;

// How many bytes of a listing were handed over, where no write failed. The field is private, so that none is made up.
#[derive(Drop)]
pub struct Handed {
    len: usize,
}

// How many, where the last write failed: nothing is handed over behind it.
#[derive(Drop)]
pub struct Failed {
    len: usize,
}

impl Handed {
    // Before the first part.
    pub fn nothing() -> Handed
        ensures { result.len ≡ 0 }
    {
        Handed { len: 0 }
    }

    // Hands over the next part of the file's listing, and says where its write fails. The file stands here for the contract.
    pub fn hand_over<R: Print + Eprint>(
        self,
        rt: &R,
        file: &[u8],
        part: &[u8],
    ) -> Result<Handed, Failed>
        requires { NextPart file.now self.len part.now }
        ensures { count_of result ≡ self.len + length part.now }
    {
        let len = self.len + part.len();
        match io::writer(rt).write_all(part) {
            Ok(()) => Ok(Handed { len }),
            Err(why) => {
                fail(rt, "standard output", &why);
                Err(Failed { len })
            }
        }
    }
}

// Says on standard error what failed and why; where that fails too, nothing is left to say it on.
pub fn fail<R: Eprint>(rt: &R, what: &str, why: &io::Error) {
    let _said = eprintln!(rt; "{what}: {why}");
}
