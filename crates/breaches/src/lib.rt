// Of the rules of an image, in their order, the first that is broken, and the first task or queue that breaks it.
#![tactic(auto)]

ghost use Rattle.std.specs.Prelude.{◌≡◌, ◌<◌, length};
ghost use Rattle.paper.specs.Rules.{Fit};
ghost use Rattle.laws.specs.Sound.{Sized};
ghost use Rattle.single_rules.specs.Each.{subjects as subjects_of};
ghost use Rattle.breaches.specs.Order.{rules, rule as nth_rule, number_of_rule, subject};
ghost use Rattle.breaches.specs.Broken.{breaker, breach, TellsBroken};

use inspect::inspect;
use paper::{Queue, Refusal, Shape, Task};
pub use single_rules::Rule;
use single_rules::{Kind, holds, kind_of, queue_at};

// How many rules there are.
const RULES: usize = 21;

// What breaks a rule.
#[derive(Clone, Copy)]
pub enum Subject {
    Clock,
    Task(Task),
    Queue(Queue),
}

// Rule k, counted from 0.
fn rule_at(k: usize) -> Rule
    requires { k < length rules }
    ensures { result ≡ nth_rule k }
{
    match k {
        0 => Rule::Flags,
        1 => Rule::Both,
        2 => Rule::Status,
        3 => Rule::Capacity,
        4 => Rule::HeadTail,
        5 => Rule::Length,
        6 => Rule::Round,
        7 => Rule::Characters,
        8 => Rule::Tasks,
        9 => Rule::Readied,
        10 => Rule::ClockRange,
        11 => Rule::ClockIdle,
        12 => Rule::Port,
        13 => Rule::IdlePort,
        14 => Rule::Sends,
        15 => Rule::Receives,
        16 => Rule::Inputs,
        17 => Rule::Outputs,
        18 => Rule::Stopped,
        19 => Rule::Peerless,
        _ => Rule::FreeSlots,
    }
}

// The number of a rule, 1 to 21: a match, since a must-fail edit exchanges two of its lines.
pub fn rule_number(rule: Rule) -> u16
    ensures { result ≡ number_of_rule rule }
{
    match rule {
        Rule::Flags => 1,
        Rule::Both => 2,
        Rule::Status => 3,
        Rule::Capacity => 4,
        Rule::HeadTail => 5,
        Rule::Length => 6,
        Rule::Round => 7,
        Rule::Characters => 8,
        Rule::Tasks => 9,
        Rule::Readied => 10,
        Rule::ClockRange => 11,
        Rule::ClockIdle => 12,
        Rule::Port => 13,
        Rule::IdlePort => 14,
        Rule::Sends => 15,
        Rule::Receives => 16,
        Rule::Inputs => 17,
        Rule::Outputs => 18,
        Rule::Stopped => 19,
        Rule::Peerless => 20,
        Rule::FreeSlots => 21,
    }
}

// How many tasks, queues or clocks an image has.
fn subjects(s: Shape, kind: Kind) -> usize
    requires { Fit s }
    ensures { result ≡ subjects_of s kind }
{
    match kind {
        Kind::Task => s.n,
        Kind::Queue => 1 + s.n + s.n + s.n * s.n,
        Kind::Clock => 1,
    }
}

// Task k, queue k, or the clock.
fn subject_at(s: Shape, kind: Kind, k: usize) -> Subject
    requires fit { Fit s }
    requires k_bound { k < subjects_of s kind }
    ensures { result ≡ subject s kind k }
{
    match kind {
        Kind::Task => Subject::Task(Task(k as u16)),
        Kind::Queue => Subject::Queue(queue_at(s, k)),
        Kind::Clock => Subject::Clock,
    }
}

// Where a rule fails first.
fn first_failing(s: Shape, im: &[u16], rule: Rule) -> Option<usize>
    requires { Sized s im.now }
    ensures { result ≡ breaker s im.now rule }
{
    let end = subjects(s, kind_of(rule));
    for k in 0..end {
        if !holds(s, im, rule, k) {
            return Some(k);
        }
    }
    None
}

// The first rule that fails and its first subject that breaks it.
fn first_broken(s: Shape, im: &[u16]) -> Option<(Rule, Subject)>
    requires { Sized s im.now }
    ensures { result ≡ breach s im.now }
{
    for k in 0..RULES {
        let rule = rule_at(k);
        if let Some(at) = first_failing(s, im, rule) {
            return Some((rule, subject_at(s, kind_of(rule), at)));
        }
    }
    None
}

// The first broken rule of an image and what breaks it, where it breaks one; or the refusal of what is no image.
pub fn broken_rule(im: &[u16]) -> Result<Option<(Rule, Subject)>, Refusal>
    ensures { TellsBroken im.now result }
{
    let found = inspect(im);
    let Err(r) = found.verdict else {
        return Ok(None);
    };
    if r == Refusal::RuleBroken {
        return Ok(first_broken(found.shape, im));
    }
    Err(r)
}
