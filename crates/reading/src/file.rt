// A study's file.
ghost use Rattle.std.specs.Prelude.{◌≡◌, IfOk, IfErr, IsOk};
ghost use Rattle.std.specs.Str.{IsUtf8};
ghost use Rattle.arrayvec.specs.ArrayVec.{array_vec_len};
ghost use Rattle.reading.specs.Bounds.{LaidOk};
ghost use Rattle.reading.specs.Kept.{KeptUnlessFault};
ghost use Rattle.reading.specs.declared.faults.FileError.TheVariants.{Unopened};

use crate::faults::FileError;
use crate::study::Study;
use arrayvec::ArrayVec;
use std::io::Read;
use std::rt::Files;
use std::{fs, io};

// The longest file that is read, in bytes.
const LONGEST: usize = 65536;

/// Opens the file that a name names. A name that is no UTF-8 text names none.
pub fn open<R: Files>(rt: &R, name: &[u8]) -> Result<R::File, FileError>
    ensures text { IsOk result → IsUtf8 name.now }
    ensures error { IfErr result (λ e. e ≡ Unopened) }
{
    let path = std::str::from_utf8(name).map_err(|_| FileError::Unopened)?;
    fs::open(rt, path).map_err(|_| FileError::Unopened)
}

/// Reads the study in the file that a name names.
pub fn load(rt: &impl Files, name: &[u8]) -> Result<Study, FileError>
    ensures { IfOk result (λ s. LaidOk s.rows (array_vec_len s.rain) (array_vec_len s.records) (array_vec_len s.pond_rows)) }
{
    let mut study = Study::new();
    load_into(&mut open(rt, name)?, &mut study)?;
    Ok(study)
}

/// Reads the study in an open file into one that is lent, for a program that is to take little stack: a study has 25 KB, and
/// through each hand that it goes by value as many again. After a fault of the text it has what was read whole up to there in the
/// place of what it held, and the rest as it was, which is no study; after any other error it is as it was.
// One byte more is asked for, which tells a file that ends from one that cannot be read or is too long: also behind an end and
// behind a read that failed, since a terminal may go on after the one and end after the other. The file's bytes have a frame of
// their own, which is gone before the study is worked.
#[inline(never)]
pub fn load_into<F: Read>(file: &mut F, study: &mut Study) -> Result<(), FileError>
    ensures laid { LaidOk study.new.rows (array_vec_len study.new.rain) (array_vec_len study.new.records)
        (array_vec_len study.new.pond_rows) }
    ensures kept { IfErr result (λ e. KeptUnlessFault e study.old study.new) }
{
    let mut bytes = ArrayVec::<u8, LONGEST>::new();
    let _ = io::copy(&mut file.by_ref().take(LONGEST as u64), &mut bytes);
    match file.read(&mut [0]) {
        // By `map_err`: `?` would go through thiserror's `From`, of which no proof knows what it gives.
        Ok(0) => study.fill(&bytes).map_err(FileError::Fault),
        Ok(_) => Err(FileError::TooLong),
        Err(_) => Err(FileError::Unread),
    }
}
