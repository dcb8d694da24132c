// The program: the call of running.rt over the machine's words, disk and output streams, which `main` makes and nothing else does.
// Nothing is buffered here: each piece that the top call writes goes to the machine at once.
#![tactic(auto)]

mod answered;
mod running;
mod words;

use crate::running::on_machine;
use lucid_io::{RealDisk, RealFiles, RealOut, RealStream};
use std::env;
use std::process::ExitCode;

fn main(rt: HostRuntime) -> ExitCode {
    let (mut out, mut err) = (
        RealOut::new(RealStream::new(rt.stdout())),
        RealOut::new(RealStream::new(rt.stderr())),
    );
    on_machine(
        rt.alloc(),
        env::args(&rt),
        &mut RealFiles::new(RealDisk::new(rt)),
        &mut out,
        &mut err,
    )
}
