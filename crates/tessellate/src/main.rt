// Reads a file from standard input and prints its text on standard output; a read or a write that fails is told on standard error.
#![tactic(auto)]

use std::io::{Read, Write};

// Of an input that is too long no more is read than shows it.
fn main(rt: HostRuntime) {
    let mut input = Vec::new(rt.alloc());
    let most = printing::FILE_PLACES as u64;
    if rt.stdin().take(most).read_to_end(&mut input).is_err() {
        let _ = rt
            .stderr()
            .write_all(b"tessellate: read failed, nothing is printed\n");
        return;
    }
    let mut patches = [0i32; printing::PATCH_PLACES];
    // the text says whether the file was refused
    let _ = printing::print(
        input.as_slice(),
        &mut patches,
        b"tessellate: write failed, the listing is incomplete\n",
        &mut rt.stdout(),
        &mut rt.stderr(),
    );
}
