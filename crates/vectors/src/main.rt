// Prints, for each vector that an argument names (a file, rule F1), the name on a line and then the lines of the file (rule F10).
// `no file` says that none has that name, as a name that is no UTF-8 text.
#![tactic(auto)]

use std::env::{Env, FillError};
use std::fs::File;
use std::io::{ErrorKind, Read};
use std::{io, str};

// The places for a name: one that is longer is no name of a file, and taken for the empty one.
const NAME_PLACES: usize = 4096;

// The bytes of an open file, up to those that show that it is too long. Where a read fails they are those before it.
// As `trials` reads its files, which stands on no crate of this program's: a crate for these ten lines alone would be no plainer.
fn read_file(rt: HostRuntime, file: File) -> io::Result<Vec<u8>> {
    let mut input = Vec::new(rt.alloc());
    let most = printing::FILE_PLACES as u64;
    match file.take(most).read_to_end(&mut input) {
        Err(e) if e.kind() == ErrorKind::OutOfMemory => Err(e),
        _ => Ok(input),
    }
}

// The lines of an open file. Of a write of these lines that fails nothing is said.
fn print_file(rt: HostRuntime, file: File) -> io::Result<()> {
    let input = read_file(rt, file)?;
    let mut patches = [0i32; printing::PATCH_PLACES];
    let _ = printing::print(
        input.as_slice(),
        &mut patches,
        b"",
        &mut rt.stdout(),
        &mut rt.stderr(),
    );
    Ok(())
}

// The file of a name, if there is one. trials has the same, as it has `read_file` and the loop over names: a crate for them would be no plainer.
fn open(rt: HostRuntime, name: &[u8]) -> Option<File> {
    let path = str::from_utf8(name).ok()?;
    File::open(&rt, path).ok()
}

// The name and the lines of a vector.
fn vector(rt: HostRuntime, name: &[u8]) -> io::Result<()> {
    rt.write_all(name)?;
    println!(rt; "")?;
    match open(rt, name) {
        Some(file) => print_file(rt, file),
        None => println!(rt; "no file"),
    }
}

// Argument by argument, since `env::args` ends at a name that is no UTF-8 text, which has its lines too.
fn main(rt: HostRuntime) -> io::Result<()> {
    for i in 1..usize::MAX {
        let mut name = [0u8; NAME_PLACES];
        match rt.arg(i, &mut name) {
            Ok(k) => vector(rt, &name[..k])?,
            Err(FillError::TooLong) => vector(rt, b"")?,
            Err(FillError::NotPresent) => break,
        }
    }
    Ok(())
}
