// Runs the plan and the events in each of the folders that its arguments name, and prints what the runner prints of them under the folder's name.
#![tactic(auto)]

ghost use Rattle.std.specs.Prelude.{◌+◌, ◌≤◌, length};

use disk::{arg_count, short_arg};
use runner_files::run_files;
use runner_lines::put_text;

// The first argument after the program's own name.
const FIRST: usize = 1;

// The most bytes of a folder's name, and of a file's path in it.
const NAME_BYTES: usize = 64;

const PATH_BYTES: usize = 96;

// Puts together the path of a file in a folder, and answers how long it is.
fn join(folder: &[u8], file: &[u8], path: &mut [u8]) -> usize
    requires { length folder.now + length file.now ≤ length path.old }
    ensures { result ≤ length path.old }
{
    let at = put_text(path, 0, folder);
    put_text(path, at, file)
}

// Runs the case in a folder.
fn run_case(rt: &HostRuntime, folder: &[u8])
    requires { length folder.now ≤ NAME_BYTES }
{
    let _ = rt.stdout().write_all(folder);
    let _ = rt.stdout().write_all(b"\n");
    let mut plan = [0u8; PATH_BYTES];
    let mut events = [0u8; PATH_BYTES];
    let plan_end = join(folder, b"/plan.bin", &mut plan);
    let events_end = join(folder, b"/events.bin", &mut events);
    run_files(rt, &plan[..plan_end], &events[..events_end], b"", b"");
}

fn main(rt: HostRuntime) {
    let mut name = [0u8; NAME_BYTES];
    for i in FIRST..arg_count(&rt) {
        let size = short_arg(&rt, i, &mut name);
        run_case(&rt, &name[..size]);
    }
}
