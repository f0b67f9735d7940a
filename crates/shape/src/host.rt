//! The real desk: files of the system and standard output. It is the trusted edge of the program.
//! It tells neither its files nor any bytes, so its contract is the trait's alone.
ghost use Rattle.std.specs.Prelude.{◌≡◌, ◌<◌, ◌≤◌, ◌^◌, None, false, is_some, IfSome, length};
ghost use Rattle.shape_desk.specs.Memory.{pick};

use shape_desk::{Desk, Failed, Place};
use std::fs::{File, Files};
use std::io::{self, Read, Write};

/// Files of the system, two of them open for reading, and standard output.
#[derive(Drop)]
pub struct HostDesk<'a, R: Files + Print> {
    rt: &'a R,
    picture: Option<R::File>,
    report: Option<R::File>,
    read_faults: u64,
    write_faults: u64,
    ghost reads_counted: { read_faults < 2 ^ 64 },
    ghost writes_counted: { write_faults < 2 ^ 64 },
}

impl<'a, R: Files + Print> HostDesk<'a, R> {
    /// A desk with no place begun.
    pub fn new(rt: &'a R) -> HostDesk<'a, R>
        ensures picture { is_some result.picture ≡ false }
        ensures report { is_some result.report ≡ false }
        ensures read_faults { result.read_faults ≡ 0 }
        ensures write_faults { result.write_faults ≡ 0 }
    {
        HostDesk {
            rt,
            picture: None,
            report: None,
            read_faults: 0,
            write_faults: 0,
        }
    }
}

// Opens a file for reading. A name that is no text is the name of no file.
fn open<R: Files>(rt: &R, name: &[u8]) -> Option<R::File> {
    let Ok(name) = str::from_utf8(name) else {
        return None;
    };
    File::open(rt, name).ok()
}

// Reads the next bytes of a file that is open.
fn read_next<F: Read + Drop>(file: &mut Option<F>, buf: &mut [u8]) -> Option<usize>
    ensures open { is_some file.new ≡ is_some file.old }
    ensures count { IfSome result (λ n. n ≤ length buf.new) }
{
    match file {
        Some(file) => file.read(buf).ok(),
        None => None,
    }
}

impl<'a, R: Files + Print> Desk for HostDesk<'a, R> {
    ghost state = { λ d. record {
      files = None;
      left = λ p. None;
      begun = λ p. pick p (is_some d.picture) (is_some d.report);
      written = None;
      read_faults = d.read_faults;
      write_faults = d.write_faults;
    } };

    ghost tells_left = { λ d p tells _. tells };

    ghost counts = { λ d. record { reads = d.reads_counted; writes = d.writes_counted } };

    fn begin(&mut self, place: Place, name: &[u8]) -> Result<(), Failed> {
        let file = open(self.rt, name);
        let begun = file.is_some();
        match place {
            Place::Picture => self.picture = file,
            Place::Report => self.report = file,
        }
        if begun {
            return Ok(());
        }
        self.read_faults = self.read_faults.saturating_add(1);
        Err(Failed)
    }

    fn read(&mut self, place: Place, buf: &mut [u8]) -> Result<usize, Failed> {
        let answer = match place {
            Place::Picture => read_next(&mut self.picture, buf),
            Place::Report => read_next(&mut self.report, buf),
        };
        match answer {
            Some(count) => Ok(count),
            None => {
                self.read_faults = self.read_faults.saturating_add(1);
                Err(Failed)
            }
        }
    }

    fn write(&mut self, bytes: &[u8]) -> Result<usize, Failed> {
        match io::writer(self.rt).write(bytes) {
            Ok(count) if count > 0 => Ok(count),
            _ => {
                self.write_faults = self.write_faults.saturating_add(1);
                Err(Failed)
            }
        }
    }
}
