// Translates the texts of two files, a list of names and a script, to a third, the program; all three are arguments.
#![tactic(auto)]

use disk::{ARG_BYTES, Outcome, arg_count, misused, short_arg, tell};
use translating::translate_files;

// The arguments, the program's own name among them.
const ARGUMENTS: usize = 4;

// Translates as the arguments say.
fn run(rt: &HostRuntime) -> Outcome {
    if arg_count(rt) != ARGUMENTS {
        return misused(rt);
    }
    let mut names = [0u8; ARG_BYTES];
    let mut script = [0u8; ARG_BYTES];
    let mut program = [0u8; ARG_BYTES];
    let names_end = short_arg(rt, 1, &mut names);
    let script_end = short_arg(rt, 2, &mut script);
    let program_end = short_arg(rt, 3, &mut program);
    translate_files(
        rt,
        &names[..names_end],
        &script[..script_end],
        &program[..program_end],
    )
}

fn main(rt: HostRuntime) {
    tell(&rt, run(&rt));
}
