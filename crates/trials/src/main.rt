// Runs the calls on each trial that an argument names (a file, see reading.rt), and prints one line for it, which begins with the
// name; a patch trial, a mirror trial, a line trial, a weight trial and a tangent trial have more lines. mesh_trial.rt, patch_trial.rt,
// mirror_trial.rt, sample_trial.rt, marked_trial.rt, line_trial.rt, weight_trial.rt and tangent_trial.rt say what follows the name. `no
// file` says that none has that name, as a name that is no UTF-8 text, `not whole` that the file is longer or shorter than its sizes and
// lists, and `too long` that a list has more places than reading.rt has for it.
#![tactic(auto)]

mod line_trial;
mod marked_trial;
mod mesh_trial;
mod mirror_trial;
mod patch_trial;
mod printing;
mod reading;
mod sample_trial;
mod sums;
mod tangent_trial;
mod weight_trial;

use crate::reading::{Failure, Kind, Reader};
use std::env::{Env, FillError};
use std::fs::File;
use std::io::{ErrorKind, Read};
use std::{io, str};

// The places for a name: one that is longer is no name of a file, and taken for the empty one.
const NAME_PLACES: usize = 4096;

// The most bytes of a file that are read.
const FILE_PLACES: u64 = 65536;

// The trial in a file's bytes.
fn run(rt: HostRuntime, bytes: &[u8]) -> Result<(), Failure> {
    let mut file = Reader::new(bytes);
    match Kind::from(file.number::<u16>()?) {
        Kind::Mesh => mesh_trial::run(rt, &mut Reader::new(bytes)),
        Kind::Patch => patch_trial::run(rt, &mut file),
        Kind::Mirror => mirror_trial::run(rt, &mut file),
        Kind::Tangent => tangent_trial::run(rt, &mut file),
        Kind::Sample => sample_trial::run(rt, &mut file),
        Kind::Marked => marked_trial::run(rt, &mut file),
        Kind::Line => line_trial::run(rt, &mut file),
        Kind::Weight => weight_trial::run(rt, &mut file),
    }
}

// The bytes of an open file, as far as they are read. Where a read fails they are those before it.
fn read_file(rt: HostRuntime, file: File) -> io::Result<Vec<u8>> {
    let mut input = Vec::new(rt.alloc());
    match file.take(FILE_PLACES).read_to_end(&mut input) {
        Err(e) if e.kind() == ErrorKind::OutOfMemory => Err(e),
        _ => Ok(input),
    }
}

// The trial in an open file, or why it has none.
fn run_file(rt: HostRuntime, file: File) -> io::Result<()> {
    let input = read_file(rt, file)?;
    match run(rt, input.as_slice()) {
        Ok(()) => Ok(()),
        Err(Failure::NotWhole) => print!(rt; " not whole"),
        Err(Failure::TooLong) => print!(rt; " too long"),
        Err(Failure::Io(error)) => Err(error),
    }
}

// The file of a name, if there is one.
fn open(rt: HostRuntime, name: &[u8]) -> Option<File> {
    let path = str::from_utf8(name).ok()?;
    File::open(&rt, path).ok()
}

// The trial of a name.
fn trial(rt: HostRuntime, name: &[u8]) -> io::Result<()> {
    rt.write_all(name)?;
    match open(rt, name) {
        Some(file) => run_file(rt, file)?,
        None => print!(rt; " no file")?,
    }
    println!(rt)
}

// Argument by argument, since `env::args` ends at a name that is no UTF-8 text, which has its line too. vectors has the same ten lines: a crate for them would
// be no plainer.
fn main(rt: HostRuntime) -> io::Result<()> {
    for i in 1..usize::MAX {
        let mut name = [0u8; NAME_PLACES];
        match rt.arg(i, &mut name) {
            Ok(k) => trial(rt, &name[..k])?,
            Err(FillError::TooLong) => trial(rt, b"")?,
            Err(FillError::NotPresent) => break,
        }
    }
    Ok(())
}
