//! The program.
#![tactic(auto)]

ghost use Rattle.std.specs.Prelude.{◌<ℤ◌, IfSome, pos};
ghost use Rattle.std.specs.Fd.{file_raw_fd};

use bench_types::Push;
use command_line::run_process;
use std::fs;
use std::os::fd::AsRawFd;
use std::process::ExitCode;

// The standard streams are the files with the numbers below this.
const STREAMS: i32 = 3;

fn main(rt: HostRuntime) -> ExitCode {
    // (held to the end, so that no file of the program gets the number of a stream that its caller closed)
    let _first = in_place_of_a_stream(&rt);
    let _second = in_place_of_a_stream(&rt);
    let _third = in_place_of_a_stream(&rt);
    ExitCode::from(run_process(&rt, &mut Push::new(rt.stderr())))
}

// A file in the place of the first standard stream that is closed, if one is. It is a folder, so that reading and
// writing fail there as they do at a closed stream.
fn in_place_of_a_stream(rt: &HostRuntime) -> Option<fs::File>
    ensures { IfSome result (λ file. file_raw_fd file <ℤ pos 3) }
{
    let folder = fs::open(rt, "/").ok()?;
    if folder.as_raw_fd() < STREAMS {
        Some(folder)
    } else {
        None
    }
}
