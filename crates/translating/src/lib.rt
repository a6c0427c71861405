// Translating files: what a run does, and all that it says.
#![tactic(auto)]

ghost use Rattle.std.specs.Prelude.{◌≤◌, length};
ghost use Rattle.tokens.specs.Shown.{part};
ghost use Rattle.texts.specs.Reads.{Within};
ghost use Rattle.outside.specs.Reasons.{Lies, Fits};
ghost use Rattle.reasons.specs.UsedNames.{most_text};
ghost use Rattle.translating.specs.Files.{Short};

use disk::{Outcome, blank, load, save, say, say_number};
use grammar::{Line, Refusal, Text};
use outside::Reason;
use reasons::{line_number, reason};
use texts::{judge, translate};

// The most bytes of a text that is read.
const TEXT_BYTES: usize = 524288;

// The words of the target: those of the longest segment.
const TARGET_WORDS: usize = 32715;

// Says what a word of a line has to do with its refusal, and the word.
fn say_word(rt: &HostRuntime, text: &[u8], line: &[u8], from: usize, to: usize)
    requires { Lies line.now from to }
{
    say(rt, text);
    say(rt, &line[from..to]);
}

// Says a reason.
fn say_reason(rt: &HostRuntime, r: Reason, line: &[u8])
    requires { Fits line.now r }
{
    match r {
        Reason::NinthBracket => say(rt, b"a ninth bracket inside eight"),
        Reason::TooManyNames => say(rt, b"the 8193rd name or label"),
        Reason::KeptWord(from, to) => say_word(
            rt,
            b"a kept word where a name stands: ",
            line,
            from,
            to,
        ),
        Reason::LaterOrder(from, to) => say_word(
            rt,
            b"an order of a later edition: ",
            line,
            from,
            to,
        ),
        Reason::StrayByte => say(rt, b"a byte that never stands there"),
        Reason::Other => say(rt, b"not a line of the grammar"),
        Reason::GivenTwice(from, to) => say_word(rt, b"given before: ", line, from, to),
        Reason::NotGiven(from, to) => say_word(rt, b"not given: ", line, from, to),
        Reason::OutOfRange => say(rt, b"a value outside 0..65535"),
        Reason::NoRoom => say(rt, b"more than 32715 words"),
    }
}

// Says a refusal: the file, the number of the line, the refusal's number with its reason, and the line.
fn say_refusal(
    rt: &HostRuntime,
    path: &[u8],
    text: &[u8],
    from: usize,
    to: usize,
    r: Refusal,
    why: Reason,
)
    requires lies { Lies text.now from to }
    requires text_len_bound { length text.now ≤ most_text }
    requires fits { Fits (part text.now from to) why }
{
    let line = &text[from..to];
    say(rt, path);
    say(rt, b": line ");
    say_number(rt, line_number(text, from));
    say(rt, b": refused ");
    say_number(rt, u16::from(r) as usize);
    say(rt, b": ");
    say_reason(rt, why, line);
    say(rt, b"\n");
    say(rt, line);
    say(rt, b"\n");
}

// Says why two texts are refused.
fn say_refused<'a>(
    rt: &HostRuntime,
    names_path: &[u8],
    script_path: &[u8],
    names: &'a [u8],
    script: &'a [u8],
    r: Refusal,
    line: Line,
)
    requires within { Within names.now script.now line }
    requires short { Short names.now script.now }
{
    let why = reason(names, script, r, line);
    let text = line.text;
    let from = line.from;
    let to = line.from + line.count;
    match text {
        Text::Names => say_refusal(rt, names_path, names, from, to, r, why),
        Text::Script => say_refusal(rt, script_path, script, from, to, r, why),
    }
}

// Says what is wrong with two texts that are refused.
fn refuse<'a>(
    rt: &HostRuntime,
    names_path: &[u8],
    script_path: &[u8],
    names: &'a [u8],
    script: &'a [u8],
) -> Outcome
    requires { Short names.now script.now }
{
    if let Err((r, line)) = judge(names, script, TARGET_WORDS) {
        say_refused(rt, names_path, script_path, names, script, r, line);
    }
    Outcome::Refused
}

// Translates two texts to a file.
fn translate_texts<'a>(
    rt: &HostRuntime,
    names_path: &[u8],
    script_path: &[u8],
    program_path: &[u8],
    names: &'a [u8],
    script: &'a [u8],
) -> Outcome
    requires { Short names.now script.now }
{
    let mut words = blank::<u16, TARGET_WORDS>(0);
    match translate(names, script, &mut words) {
        Err(_) => refuse(rt, names_path, script_path, names, script),
        Ok(count) => save(rt, program_path, &words[..count]),
    }
}

// Translates the texts of two files to a third.
pub fn translate_files(
    rt: &HostRuntime,
    names_path: &[u8],
    script_path: &[u8],
    program_path: &[u8],
) -> Outcome {
    let mut names = blank::<u8, TEXT_BYTES>(0);
    let mut script = blank::<u8, TEXT_BYTES>(0);
    let Some(names_end) = load(rt, names_path, &mut names) else {
        return Outcome::Unread;
    };
    let Some(script_end) = load(rt, script_path, &mut script) else {
        return Outcome::Unread;
    };
    translate_texts(
        rt,
        names_path,
        script_path,
        program_path,
        &names[..names_end],
        &script[..script_end],
    )
}
