// What a trace prints for an answer: a line for each command that was done, then the number, the word and the details.
#![tactic(auto)]

ghost use Rattle.std.specs.Prelude.{◌≡◌, Some, ◌∷◌, ◌+◌, ◌*◌, ◌≤◌, length};
ghost use Rattle.table_rows.specs.Rows.{rows_of};
ghost use Rattle.effects.specs.Effects.{effect_words};
ghost use Rattle.trace_text.specs.Text.{tab, word, Put};
ghost use Rattle.monitor_requests.specs.Answers.{given};
ghost use Rattle.trace_answers.specs.Printed.{word_text, answer_line, did_line, did_bytes, answer_bytes, printable, printing, printed_over};

use effects::EFFECT_WORDS;
use error::Error;
use monitor_requests::{Answer, Reply, Told, Word};
use remote_commands::MAX_NUMBER_OF_COMMANDS;
use trace_text::{LINE_END, TAB};

// The words of the lines, as numbers with two decimal digits for each letter, as they are read (`trace_requests`).
const DID: u64 = 04_09_04;

const RUN: u64 = 18_21_14;

const OFF: u64 = 15_06_06;

const OP: u64 = 15_16;

// The most bytes of a line of an effect, of an answer's line, and of all that is printed for one request.
const DID_BYTES: usize = 151;

const ANSWER_BYTES: usize = 68;

pub const MOST_PRINTED: usize = MAX_NUMBER_OF_COMMANDS * DID_BYTES + ANSWER_BYTES;

// Writes a tab and a word.
fn put_said(key: u64, at: usize, out: &mut [u8]) -> usize
    requires { at + length (tab ∷ word key) ≤ length out.old }
    ensures { Put at (tab ∷ word key) out.old result out.new }
{
    let place = trace_text::put_byte(TAB, at, out);
    trace_text::put_word(key, place, out)
}

// The letters of an answer's word, as one number.
fn key_of(said: Word) -> u64
    ensures { tab ∷ word result ≡ word_text (Some said) }
{
    match said {
        Word::Run => RUN,
        Word::Off => OFF,
        Word::Op => OP,
    }
}

// Writes the word of an answer after a tab, if there is one.
fn put_word_of(said: Option<Word>, at: usize, out: &mut [u8]) -> usize
    requires { at + length (word_text said) ≤ length out.old }
    ensures { Put at (word_text said) out.old result out.new }
{
    match said {
        None => at,
        Some(said) => put_said(key_of(said), at, out),
    }
}

// Writes the line of what a request gives, without its end.
fn put_answer(answered: Result<Answer, Error>, at: usize, out: &mut [u8]) -> usize
    requires { at + answer_bytes ≤ length out.old }
    ensures { Put at (answer_line (given answered)) out.old result out.new }
{
    let told = Told::new(answered);
    let named = trace_text::put_number(told.number(), at, out);
    let said = put_word_of(told.word(), named, out);
    trace_text::put_numbers(told.details(), said, out)
}

// Writes the line of effect record `i`.
fn put_did(effects: &[u64], i: usize, at: usize, out: &mut [u8]) -> usize
    requires { (i * effect_words + effect_words ≤ length effects.now) × (at + did_bytes ≤ length out.old) }
    ensures { Put at (did_line effects.now i) out.old result out.new }
{
    let record = table_rows::row(effects, EFFECT_WORDS, i);
    let place = trace_text::put_word(DID, at, out);
    let end = trace_text::put_numbers(record, place, out);
    trace_text::put_byte(LINE_END, end, out)
}

// Writes the lines of the first `did` effect records over the front.
fn put_all_did(effects: &[u64], did: usize, out: &mut [u8]) -> usize
    requires { (did * effect_words ≤ length effects.now) × (did * did_bytes ≤ length out.old) }
    ensures { Put 0 (rows_of (did_line effects.now) did) out.old result out.new }
{
    let mut place = 0;
    for i in 0..did {
        place = put_did(effects, i, place, out);
    }
    place
}

// Whether the effects are there, and there is room for whatever is printed.
#[tactic(auto, unfolding(crate::specs::Printed::printable))]
fn is_printable(answer: Reply, effects: &[u64], out: &[u8]) -> bool
    ensures { result ≡ printable answer effects.now out.now }
{
    let did = answer.did as usize;
    did <= MAX_NUMBER_OF_COMMANDS
        && did * EFFECT_WORDS <= effects.len()
        && MOST_PRINTED <= out.len()
}

// Prints an answer over the front of `out`, and gives how many bytes that are. Nothing is printed where there is too little room, or the
// records are not there or more than 64.
pub fn print(answer: Reply, effects: &[u64], out: &mut [u8]) -> Option<usize>
    ensures { printing result out.new ≡ printed_over answer effects.now out.old }
{
    if !is_printable(answer, effects, out) {
        return None;
    }
    let did = answer.did as usize;
    let place = put_all_did(effects, did, out);
    let end = put_answer(answer.answer, place, out);
    Some(trace_text::put_byte(LINE_END, end, out))
}
