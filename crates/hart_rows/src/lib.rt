// Hart records as rows of a table.
#![tactic(auto)]

ghost use Rattle.std.specs.Prelude.{◌≡◌, ◌+◌, ◌*◌, ◌≤◌, length, get_or};
ghost use Rattle.table_rows.specs.Rows.{put};
ghost use Rattle.confidential_hart.specs.Hart.{well_formed};
ghost use Rattle.hart_rows.specs.HartRows.{vm_word, hart_words, to_words, from_words, hart_at};

use confidential_hart::{A0, A1, ConfidentialHart, MEPC, MSTATUS, REGISTERS, VSATP, VSSTATUS};

// The places of a row's words: the registers are the last.
pub const VM_WORD: usize = 0;

pub const ID_WORD: usize = 1;

pub const LIFECYCLE_WORD: usize = 2;

pub const OPERATION_WORD: usize = 3;

pub const X_WORD: usize = 4;

pub const Y_WORD: usize = 5;

pub const REGISTER_WORD: usize = 6;

// How many words a row has.
pub const HART_WORDS: usize = REGISTER_WORD + REGISTERS;

// Whether a row of twelve words holds a record that is as it must be. The words are read in their place, which is faster than a record by
// value; the VM is handed over by the caller, who has read it.
pub fn is_row_well_formed(vm: u64, row: &[u64]) -> bool
    requires { (length row.now ≡ hart_words) × (vm ≡ get_or row.now vm_word 0) }
    ensures { result ≡ well_formed (from_words row.now) }
{
    confidential_hart::are_parts_well_formed(
        vm,
        row[LIFECYCLE_WORD],
        row[OPERATION_WORD],
        row[X_WORD],
        row[Y_WORD],
        &row[REGISTER_WORD..HART_WORDS],
    )
}

// The record that twelve words hold. They are lent from a table, or by C, and are no array, so this and the next are no `From`, and each
// function on a row asks for its length.
pub fn from_words(row: &[u64]) -> ConfidentialHart
    requires { length row.now ≡ hart_words }
    ensures { result ≡ from_words row.now }
{
    let &[a0, a1, mepc, vsatp, mstatus, vsstatus] = &row[REGISTER_WORD..HART_WORDS] else {
        unreachable!()
    };
    ConfidentialHart {
        vm: row[VM_WORD],
        id: row[ID_WORD],
        lifecycle: row[LIFECYCLE_WORD],
        operation: row[OPERATION_WORD],
        x: row[X_WORD],
        y: row[Y_WORD],
        registers: [a0, a1, mepc, vsatp, mstatus, vsstatus],
    }
}

// Writes a record to a row of twelve words.
pub fn to_words(hart: ConfidentialHart, row: &mut [u64])
    requires { length row.old ≡ hart_words }
    ensures { row.new ≡ to_words hart }
{
    row[VM_WORD] = hart.vm;
    row[ID_WORD] = hart.id;
    row[LIFECYCLE_WORD] = hart.lifecycle;
    row[OPERATION_WORD] = hart.operation;
    row[X_WORD] = hart.x;
    row[Y_WORD] = hart.y;
    // Word by word: `copy_from_slice` asks at run time whether the two overlap, and a record took twice as long to write.
    let [a0, a1, mepc, vsatp, mstatus, vsstatus] = hart.registers;
    row[REGISTER_WORD + A0] = a0;
    row[REGISTER_WORD + A1] = a1;
    row[REGISTER_WORD + MEPC] = mepc;
    row[REGISTER_WORD + VSATP] = vsatp;
    row[REGISTER_WORD + MSTATUS] = mstatus;
    row[REGISTER_WORD + VSSTATUS] = vsstatus;
}

// The record in row `i` of a table.
pub fn load(rows: &[u64], i: usize) -> ConfidentialHart
    requires { i * hart_words + hart_words ≤ length rows.now }
    ensures { result ≡ hart_at rows.now i }
{
    from_words(table_rows::row(rows, HART_WORDS, i))
}

// Writes `hart` to row `i` of a table.
pub fn store(rows: &mut [u64], i: usize, hart: ConfidentialHart)
    requires { i * hart_words + hart_words ≤ length rows.old }
    ensures { rows.new ≡ put hart_words rows.old i (to_words hart) }
{
    let start = i * HART_WORDS;
    let end = start + HART_WORDS;
    to_words(hart, &mut rows[start..end]);
}
