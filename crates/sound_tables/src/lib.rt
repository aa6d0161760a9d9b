// Whether the tables are sound: the judge that every request but setup asks first. The five tables are lent one by one, here and in the
// entries: C lends those that a request does not write as `const`, so a struct that lends all five to be written would ask for more than C
// gives. What takes all five to be written hands them on to such entries, and a struct would only be taken apart there.
#![tactic(auto)]

ghost use Rattle.std.specs.Prelude.{◌≡◌, ◌+◌, ◌*◌, ◌≤◌, length};
ghost use Rattle.table_rows.specs.Rows.{row};
ghost use Rattle.table_rows.specs.Choice.{every};
ghost use Rattle.hart_rows.specs.HartRows.{hart_words};
ghost use Rattle.remote_commands.specs.Queue.{queue_words, queue_well_formed};
ghost use Rattle.monitor_requests.specs.Tables.{max_harts, max_hardware_harts, counts_in_range, long_enough, row_sound, sound, tables};
ghost use Rattle.monitor_requests.specs.Requests.{judgement};

use confidential_hart::{NO_VM, VM};
use error::Error;
use hart_rows::HART_WORDS;
use mmio_regions::TABLE_WORDS;
use monitor_requests::{
    HARDWARE_WORD, HARTS_WORD, HEAD_WORDS, MAX_NUMBER_OF_HARDWARE_HARTS,
    MAX_NUMBER_OF_HARTS_PER_VM, REGIONS_WORD,
};
use remote_commands::QUEUE_WORDS;

// Whether there are 1 to 1,024 harts and 1 to 64 hardware harts.
pub fn are_counts_in_range(n: u64, m: u64) -> bool
    ensures { result ≡ counts_in_range n m }
{
    (1 <= n) & (n <= MAX_NUMBER_OF_HARTS_PER_VM) & (1 <= m) & (m <= MAX_NUMBER_OF_HARDWARE_HARTS)
}

// Whether the tables have room for `n` harts and `m` hardware harts.
pub fn are_long_enough(
    n: u64,
    m: u64,
    head: &[u64],
    home: &[u64],
    hardware: &[u64],
    queues: &[u64],
    regions: &[u64],
) -> bool
    requires { (n ≤ max_harts) × (m ≤ max_hardware_harts) }
    ensures { result ≡ long_enough (tables head.now home.now hardware.now queues.now regions.now) n m }
{
    (HEAD_WORDS <= head.len())
        & (n as usize * HART_WORDS <= home.len())
        & (m as usize * HART_WORDS <= hardware.len())
        & (n as usize * QUEUE_WORDS <= queues.len())
        & (TABLE_WORDS <= regions.len())
}

// Whether row `i` holds its own, number `i` of the VM `own`, or one of the other table, whose row of that number holds this row's own.
fn is_row_sound(own: u64, rows: &[u64], others: &[u64], count: usize, i: usize) -> bool
    requires { (i * hart_words + hart_words ≤ length rows.now) × (count * hart_words ≤ length others.now) }
    ensures { result ≡ row_sound own rows.now others.now count i }
{
    let vm = hart_tables::vm(rows, i);
    if !hart_rows::is_row_well_formed(vm, table_rows::row(rows, HART_WORDS, i)) {
        return false;
    }
    let id = hart_tables::id(rows, i);
    if vm == own {
        return id == i as u64;
    }
    let j = id as usize;
    if count <= j {
        return false;
    }
    let other = hart_tables::vm(others, j);
    let back = hart_tables::id(others, j);
    (other == own) & (back == i as u64)
}

// Whether each of `n` rows is sound beside the `count` rows of the other table.
fn are_rows_sound(own: u64, rows: &[u64], others: &[u64], n: usize, count: usize) -> bool
    requires { (n * hart_words ≤ length rows.now) × (count * hart_words ≤ length others.now) }
    ensures { result ≡ every (row_sound own rows.now others.now count) n }
{
    (0..n).all(|i| is_row_sound(own, rows, others, count, i))
}

// Whether the queue of hart `i` is well formed.
fn is_queue_sound(queues: &[u64], i: usize) -> bool
    requires { i * queue_words + queue_words ≤ length queues.now }
    ensures { result ≡ queue_well_formed (row queue_words queues.now i) }
{
    remote_commands::is_queue_well_formed(table_rows::row(queues, QUEUE_WORDS, i))
}

// Whether each of `n` queues is well formed.
fn are_queues_sound(queues: &[u64], n: usize) -> bool
    requires { n * queue_words ≤ length queues.now }
    ensures { result ≡ every (λ h. queue_well_formed (row queue_words queues.now h)) n }
{
    (0..n).all(|i| is_queue_sound(queues, i))
}

// Whether the tables are sound, whatever they hold and however long they are.
pub fn are_tables_sound(
    head: &[u64],
    home: &[u64],
    hardware: &[u64],
    queues: &[u64],
    regions: &[u64],
) -> bool
    ensures { result ≡ sound (tables head.now home.now hardware.now queues.now regions.now) }
{
    if head.len() < HEAD_WORDS {
        return false;
    }
    let n = head[HARTS_WORD];
    let m = head[HARDWARE_WORD];
    if !are_counts_in_range(n, m) {
        return false;
    }
    if !are_long_enough(n, m, head, home, hardware, queues, regions) {
        return false;
    }
    let at_home = are_rows_sound(VM, home, hardware, n as usize, m as usize);
    let on_hardware = are_rows_sound(NO_VM, hardware, home, m as usize, n as usize);
    let waiting = are_queues_sound(queues, n as usize);
    let standing = mmio_regions::regions_are_sound(regions, head[REGIONS_WORD]);
    at_home & on_hardware & waiting & standing
}

// Refuses tables that are not sound.
pub fn judge(
    head: &[u64],
    home: &[u64],
    hardware: &[u64],
    queues: &[u64],
    regions: &[u64],
) -> Result<(), Error>
    ensures { result ≡ judgement (tables head.now home.now hardware.now queues.now regions.now) }
{
    if are_tables_sound(head, home, hardware, queues, regions) {
        Ok(())
    } else {
        Err(Error::TablesNotSound)
    }
}
