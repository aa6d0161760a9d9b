// What the C functions of the entries share: an answer's values over the front of a lent slice, and its number.
#![tactic(auto)]

ghost use Rattle.std.specs.Prelude.{◌≡◌, ◌≤◌, length};
ghost use Rattle.table_rows.specs.Choice.{pick};
ghost use Rattle.monitor_requests.specs.Answers.{given, word_values};
ghost use Rattle.export_values.specs.Exports.{value_words, Fronted, written, told};

use error::Error;
use monitor_requests::{Answer, Told, Word};

// A truth as a number, 1 or 0: `u64::from`, as a public function with a wrong variant of its own.
pub fn word_of(flag: bool) -> u64
    ensures { result ≡ pick flag 1 0 }
{
    u64::from(flag)
}

// The number that a request gives, of an answer that has no values.
pub fn number(answered: Result<Answer, Error>) -> u64
    ensures { result ≡ (given answered).number }
{
    Told::new(answered).number()
}

// Writes the value of a word, if there is one, over the front, and gives the place after it.
fn tell_word(word: Option<Word>, value: &mut [u64]) -> usize
    requires { value_words ≤ length value.old }
    ensures { Fronted (word_values word) value.old result value.new }
{
    match word {
        None => 0,
        Some(word) => {
            value[0] = word as u64;
            1
        }
    }
}

// Writes the values of what a request gives over the front, and gives its number.
pub fn tell(answered: Result<Answer, Error>, value: &mut [u64]) -> u64
    requires { value_words ≤ length value.old }
    ensures { written result value.new ≡ told answered value.old }
{
    let told = Told::new(answered);
    let at = tell_word(told.word(), value);
    let details = told.details();
    let end = at + details.len();
    value[at..end].copy_from_slice(details);
    told.number()
}
