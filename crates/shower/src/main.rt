// Shows an image in words on standard output: the argument is the image's file.
#![tactic(auto)]

use describing::describe;
use disk::{
    ARG_BYTES, IMAGE_BYTES, IMAGE_WORDS, Outcome, arg_count, ended, load_image, misused, short_arg,
    tell,
};
use inspect::good_shape;
use saying::say_refused_image;

// How many arguments there are, the program's own name among them, and where the image's stands.
const ARGUMENTS: usize = 2;

const IMAGE_AT: usize = 1;

// Shows an image; where it is refused, it is said why.
fn show_image(rt: &HostRuntime, path: &[u8], im: &[u16]) -> Outcome {
    match good_shape(im) {
        Ok(s) => ended(rt, describe(&mut rt.stdout(), s, im)),
        Err(r) => {
            say_refused_image(rt, path, im, r);
            Outcome::Refused
        }
    }
}

// Shows the image of the file that is asked for.
fn show_file(rt: &HostRuntime) -> Outcome {
    let mut path = [0u8; ARG_BYTES];
    let end = short_arg(rt, IMAGE_AT, &mut path);
    let mut buffer = [0u8; IMAGE_BYTES];
    let mut words = [0u16; IMAGE_WORDS];
    match load_image(rt, &path[..end], &mut buffer, &mut words) {
        Some(count) => show_image(rt, &path[..end], &words[..count]),
        None => Outcome::Unread,
    }
}

// Shows an image as the arguments say.
fn run(rt: &HostRuntime) -> Outcome {
    match arg_count(rt) {
        ARGUMENTS => show_file(rt),
        _ => misused(rt),
    }
}

fn main(rt: HostRuntime) {
    tell(&rt, run(&rt));
}
