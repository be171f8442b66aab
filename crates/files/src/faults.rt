// Faults of a network file, and why a table is not read.

ghost use Rattle.std.specs.Prelude.{◌≡◌, ℕ, Some};
ghost use Rattle.files.specs.Faults.{cause_number, told, fault_text, stop_in, refusal_text};
ghost use Rattle.files.specs.declared.faults.FileFault.TheVariants.{Line};
ghost use Rattle.files.specs.declared.faults.ReadStop.TheVariants.{Fault, Stop as StopRead};

use networks::Stop;
use std::fmt;
use tokens::{Cause, LineFault};

#[derive(Clone, Copy, Debug, PartialEq, Eq)]
pub enum FileFault {
    Line(LineFault),
    // A byte after the last line, on this line.
    After(usize),
    // More bytes than a file may have.
    Long,
}

impl From<LineFault> for FileFault {
    ghost from_gives = { λ e r. r ≡ Line e };

    fn from(e: LineFault) -> FileFault {
        FileFault::Line(e)
    }
}

// The number of a cause that stands in a line.
fn number(cause: Cause) -> u8
    ensures { result ≡ cause_number cause }
{
    match cause {
        Cause::Byte => 1,
        Cause::Number => 2,
        Cause::NotDue => 3,
        Cause::End => 4,
        Cause::Range => 6,
        Cause::Bounds(_) => 7,
    }
}

impl FileFault {
    // The line, the byte in it, both from 1, and the number of the cause.
    pub fn told(self) -> (usize, usize, u8)
        ensures { result ≡ told self }
    {
        match self {
            FileFault::Line(LineFault { spot, cause }) => (spot.line, spot.place, number(cause)),
            FileFault::After(line) => (line, 1, 5),
            FileFault::Long => (1, 1, 8),
        }
    }

    pub fn line(self) -> usize
        ensures { result ≡ (told self).0 }
    {
        self.told().0
    }

    pub fn place(self) -> usize
        ensures { result ≡ (told self).1 }
    {
        self.told().1
    }

    pub fn cause(self) -> u8
        ensures { result ≡ (told self).2 }
    {
        self.told().2
    }

    // The stop of bounds that cannot be made.
    pub fn stop(self) -> Option<Stop>
        ensures { result ≡ stop_in self }
    {
        match self {
            FileFault::Line(
                LineFault {
                    cause: Cause::Bounds(stop),
                    ..
                },
            ) => Some(stop),
            _ => None,
        }
    }
}

// A fault prints as its line, its place and the number of its cause.
impl fmt::Display for FileFault {
    ghost output = { λ e. Some (fault_text e) };

    fn fmt<W: fmt::Write>(&self, f: &mut fmt::Formatter<W>) -> fmt::Result {
        let (line, place, cause) = self.told();
        write!(f, "{line} {place} {cause}")
    }
}

// Why a table is not read: a fault of the file, or a stop of the call.
#[derive(Clone, Copy, Debug, PartialEq, Eq)]
pub enum ReadStop {
    Fault(FileFault),
    Stop(Stop),
}

// A stop prints as its number and its place, a fault of the file as number 13.
impl fmt::Display for ReadStop {
    ghost output = { λ e. Some (refusal_text e) };

    fn fmt<W: fmt::Write>(&self, f: &mut fmt::Formatter<W>) -> fmt::Result {
        match self {
            ReadStop::Fault(fault) => write!(f, "13 {fault}"),
            ReadStop::Stop(stop) => write!(f, "{stop}"),
        }
    }
}

impl From<FileFault> for ReadStop {
    ghost from_gives = { λ e r. r ≡ Fault e };

    fn from(e: FileFault) -> ReadStop {
        ReadStop::Fault(e)
    }
}

impl From<LineFault> for ReadStop {
    ghost from_gives = { λ e r. r ≡ Fault (Line e) };

    fn from(e: LineFault) -> ReadStop {
        ReadStop::Fault(FileFault::Line(e))
    }
}

impl From<Stop> for ReadStop {
    ghost from_gives = { λ e r. r ≡ StopRead e };

    fn from(e: Stop) -> ReadStop {
        ReadStop::Stop(e)
    }
}
