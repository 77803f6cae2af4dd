//! How far the reading of a file is, as it is shown to who waits.

ghost use Rattle.std.specs.Prelude.{◌≡◌, ◌+◌, ◌-◌, ◌^◌, IfSome, min};

use std::io::Eprint;
use std::time::{Clock, Instant};

// How many seconds a line stands before the next one may come.
const PAUSE: u64 = 1;

// How many bytes a megabyte has.
const MEGABYTE: u64 = 1_000_000;

/// How far the reading of a file is. A line is shown a second after the one before it at the earliest, and one where the file
/// that is read last is at its end.
#[derive(Drop)]
pub struct Progress<'a, R> {
    rt: &'a R,
    name: String,
    // How many bytes the file has, 0 where that isn't known.
    size: u64,
    read: u64,
    // The last file is read, and that wasn't shown yet.
    is_last: bool,
    shown: Instant,
}

impl<'a, R: Clock + Eprint> Progress<'a, R> {
    /// A file of so many bytes, 0 where that isn't known, of which nothing is read. None where the clock doesn't answer.
    pub fn new(rt: &'a R, name: String, size: u64, is_last: bool) -> Option<Progress<'a, R>>
        ensures { IfSome result (λ progress. progress.read ≡ 0) }
    {
        match Instant::now(rt) {
            Ok(shown) => Some(Progress {
                rt,
                name,
                size,
                read: 0,
                is_last,
                shown,
            }),
            Err(_) => None,
        }
    }

    /// So many bytes more were read, or where it is none, the file is at its end.
    pub fn step(&mut self, taken: usize)
        ensures { self.new.read ≡ min (self.old.read + taken) (2 ^ 64 - 1) }
    {
        self.read = self.read.saturating_add(taken as u64);
        if taken == 0 {
            if self.is_last {
                self.is_last = false;
                let _ = eprintln!(self.rt; "deciding");
            }
            return;
        }
        let Ok(now) = Instant::now(self.rt) else {
            return;
        };
        if now.duration_since(self.shown).as_secs() >= PAUSE {
            self.shown = now;
            self.show();
        }
    }

    // Shows how far it is: in hundredths, or in megabytes where the file's length isn't known. What can't be shown is left.
    fn show(&self) {
        let name = self.name.as_str();
        if self.size == 0 {
            let _ = eprintln!(self.rt; "reading {name}, {} MB", self.read / MEGABYTE);
        } else {
            let _ = eprintln!(self.rt;
                "reading {name}, {} %",
                self.read.saturating_mul(100) / self.size
            );
        }
    }
}
