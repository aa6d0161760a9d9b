// Tables as rows of `w` words in a lent run of numbers, an argument as in the definitions. Each function asks that its row lies within the
// run: a type that says so would be made at each call. `clear` and `copy` are the library's `fill` and `copy_from_slice`; they, `clear_row`
// and `set_word` are public functions with wrong variants of their own. A row that is to be written is cut out where it is used: what lends
// it would have to say what becomes of the whole.
#![tactic(auto)]

ghost use Rattle.std.specs.Prelude.{◌≡◌, ◌+◌, ◌*◌, ◌≤◌, ◌<◌, length, set, replicate};
ghost use Rattle.table_rows.specs.Rows.{word_at, row, put};
ghost use Rattle.table_rows.specs.Choice.{all_zero};

// Whether each word is 0: all words are joined and tested once, which is faster than a test a word.
pub fn all_zero(s: &[u64]) -> bool
    ensures { result ≡ all_zero s.now }
{
    s.iter().fold(0, |seen, word| seen | word) == 0
}

// Makes each word 0.
pub fn clear(s: &mut [u64])
    ensures { s.new ≡ replicate (length s.old) 0 }
{
    s.fill(0);
}

// Makes each word of `to` that of `from`.
pub fn copy(from: &[u64], to: &mut [u64])
    requires { length to.old ≡ length from.now }
    ensures { to.new ≡ from.now }
{
    to.copy_from_slice(from);
}

// The words of row `i`.
pub fn row(rows: &[u64], w: usize, i: usize) -> &[u64]
    requires { i * w + w ≤ length rows.now }
    ensures words { result.now ≡ row w rows.now i }
    ensures as_many { length result.now ≡ w }
{
    let start = i * w;
    let end = start + w;
    &rows[start..end]
}

// Makes each word of row `i` 0.
pub fn clear_row(rows: &mut [u64], w: usize, i: usize)
    requires { i * w + w ≤ length rows.old }
    ensures { rows.new ≡ put w rows.old i (replicate w 0) }
{
    let a = i * w;
    let e = a + w;
    clear(&mut rows[a..e]);
}

// Word `j` of row `i`.
pub fn word(rows: &[u64], w: usize, i: usize, j: usize) -> u64
    requires { (i * w + w ≤ length rows.now) × (j < w) }
    ensures { result ≡ word_at w rows.now i j }
{
    let at = i * w + j;
    rows[at]
}

// Writes `v` to word `j` of row `i`.
pub fn set_word(rows: &mut [u64], w: usize, i: usize, j: usize, v: u64)
    requires { (i * w + w ≤ length rows.old) × (j < w) }
    ensures { rows.new ≡ put w rows.old i (set (row w rows.old i) j v) }
{
    let place = i * w + j;
    rows[place] = v;
}
