// A line of a trace and its request.
#![tactic(auto, using(crate::proofs::FieldRequestLaws::by_word_lem), unfolding(crate::specs::Lines::spelling))]

ghost use Rattle.std.specs.Prelude.{◌≡◌};
ghost use Rattle.trace_fields.specs.Fields.{reading, closed, fields_in};
ghost use Rattle.trace_requests.specs.Lines.{Reads};
ghost use Rattle.trace_requests.specs.FieldRequests.{Tells, first, of_none, of_one, of_two, of_three, of_four, of_seven, request_of};

use confidential_hart::{ConfidentialHartId, HardwareHartId};
use confidential_hart_remote_command::ConfidentialHartRemoteCommand;
use monitor_requests::{Request, Setup};
use trace_fields::Line;

// The words of the requests, each as one number: two decimal digits for a letter, of which a is 01. A line may have any length and there is no
// heap, so a number is all that is kept of a word.
pub const SETUP: u64 = 19_05_20_21_16;

pub const STEAL: u64 = 19_20_05_01_12;

pub const RETURN: u64 = 18_05_20_21_18_14;

pub const START: u64 = 19_20_01_18_20;

pub const SUSPEND: u64 = 19_21_19_16_05_14_04;

pub const STOP: u64 = 19_20_15_16;

pub const WAKE: u64 = 23_01_11_05;

pub const OFF: u64 = 15_06_06;

pub const STATUS: u64 = 19_20_01_20_21_19;

pub const AWAIT: u64 = 1_23_01_09_20;

pub const PROCESS: u64 = 16_18_15_03_05_19_19;

pub const RESUME: u64 = 18_05_19_21_13_05;

pub const BROADCAST: u64 = 2_18_15_01_04_03_01_19_20;

pub const SEND: u64 = 19_05_14_04;

pub const ALLOW: u64 = 1_12_12_15_23;

pub const ADD: u64 = 1_04_04;

pub const REMOVE: u64 = 18_05_13_15_22_05;

pub const DEFINED: u64 = 4_05_06_09_14_05_04;

pub const HOME: u64 = 8_15_13_05;

// The most fields that the line of a request has.
pub const FIELDS: usize = 8;

// A line of a trace is a setup or a request.
#[derive(Clone, Copy)]
pub enum TraceLine {
    SetUp(Setup),
    Ask(Request),
}

// The line of a word that no number follows.
fn of_none(word: u64) -> Option<TraceLine>
    ensures { result ≡ first word of_none }
{
    match word {
        HOME => Some(TraceLine::Ask(Request::Home)),
        _ => None,
    }
}

// The line of a word and one number.
fn of_one(word: u64, a: u64) -> Option<TraceLine>
    ensures { result ≡ first word (of_one a) }
{
    let on = HardwareHartId(a);
    let request = match word {
        RETURN => Request::Return(on),
        SUSPEND => Request::Suspend(on),
        STOP => Request::Stop(on),
        OFF => Request::Off(on),
        STATUS => Request::Status(ConfidentialHartId(a)),
        PROCESS => Request::Process(on),
        RESUME => Request::Resume(on),
        ALLOW => Request::Allow(a),
        _ => return None,
    };
    Some(TraceLine::Ask(request))
}

// The line of a word and two numbers.
fn of_two(word: u64, a: u64, b: u64) -> Option<TraceLine>
    ensures { result ≡ first word (of_two a b) }
{
    let request = match word {
        STEAL => Request::Steal(ConfidentialHartId(a), HardwareHartId(b)),
        ADD => Request::Add(a, b),
        REMOVE => Request::Remove(a, b),
        DEFINED => Request::Defined(a, b),
        _ => return None,
    };
    Some(TraceLine::Ask(request))
}

// The line of a word and three numbers.
fn of_three(word: u64, a: u64, b: u64, c: u64) -> Option<TraceLine>
    ensures { result ≡ first word (of_three a b c) }
{
    let request = match word {
        START => Request::Start(ConfidentialHartId(a), b, c),
        WAKE => Request::Wake(HardwareHartId(a), b, c),
        _ => return None,
    };
    Some(TraceLine::Ask(request))
}

// The line of a word and four numbers.
fn of_four(word: u64, a: u64, b: u64, c: u64, d: u64) -> Option<TraceLine>
    ensures { result ≡ first word (of_four a b c d) }
{
    match word {
        AWAIT => Some(TraceLine::Ask(Request::Await(HardwareHartId(a), b, c, d))),
        _ => None,
    }
}

// The line of a word and seven numbers.
fn of_seven(word: u64, a: u64, b: u64, c: u64, d: u64, e: u64, f: u64, g: u64) -> Option<TraceLine>
    ensures { result ≡ first word (of_seven a b c d e f g) }
{
    let setup = Setup {
        harts: a,
        hardware: b,
        boot: c,
        a1: d,
        mepc: e,
        vsatp: f,
        vsstatus: g,
    };
    let command = ConfidentialHartRemoteCommand {
        kind: b,
        mask: c,
        base: d,
        start: e,
        size: f,
        tag: g,
    };
    let line = match word {
        SETUP => TraceLine::SetUp(setup),
        SEND => TraceLine::Ask(Request::Send(a, command)),
        BROADCAST => TraceLine::Ask(Request::Broadcast(HardwareHartId(a), command)),
        _ => return None,
    };
    Some(line)
}

// The line of fields: by their number, then by the word.
fn request_of(fields: &[u64]) -> Option<TraceLine>
    ensures { result ≡ request_of fields.now }
{
    match *fields {
        [word] => of_none(word),
        [word, a] => of_one(word, a),
        [word, a, b] => of_two(word, a, b),
        [word, a, b, c] => of_three(word, a, b, c),
        [word, a, b, c, d] => of_four(word, a, b, c, d),
        [word, a, b, c, d, e, f, g] => of_seven(word, a, b, c, d, e, f, g),
        _ => None,
    }
}

// Ends a line that was read in parts, and tells what it says: `None` of a line that is no request's. Where fewer than 8 words are lent, a line
// of more fields than words is no request.
pub fn request(line: Line, fields: &mut [u64]) -> Option<TraceLine>
    ensures { Tells (fields_in (reading line fields.old)) result
        × (fields.new ≡ (closed (reading line fields.old)).fields) }
{
    let count = trace_fields::end(line, fields)?;
    request_of(&fields[..count])
}

// What a line says, which is given without its end.
pub fn parse(text: &[u8]) -> Option<TraceLine>
    ensures { Reads text.now result }
{
    let mut fields = [0u64; FIELDS];
    let line = trace_fields::read(Line::start(), text, &mut fields);
    request(line, &mut fields)
}
