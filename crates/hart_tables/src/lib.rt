// SPDX-FileCopyrightText: 2023 IBM Corporation
// SPDX-FileContributor: Wojciech Ozga <woz@zurich.ibm.com>, IBM Research - Zurich
// SPDX-License-Identifier: Apache-2.0
// Changed: ported to Rattle from the confidential harts of core/control_data/confidential_vm.rs and what it asks of
// core/control_data/confidential_hart.rs. A table of harts is a lent run of rows, whose words are read in their place.
#![tactic(auto)]

ghost use Rattle.std.specs.Prelude.{◌≡◌, ◌+◌, ◌*◌, ◌≤◌, length};
ghost use Rattle.table_rows.specs.Rows.{row, put};
ghost use Rattle.confidential_hart.specs.Hart.{is_dummy, is_executable};
ghost use Rattle.hart_rows.specs.HartRows.{hart_words, hart_at};

use confidential_hart::NO_VM;
use hart_lifecycle_state::{STARTED, SUSPENDED};
use hart_rows::{HART_WORDS, ID_WORD, LIFECYCLE_WORD, OPERATION_WORD, VM_WORD};

// A word of a row, by its name. One function over the places would be no plainer: each of these is one call. A type that says that row `i` lies
// within the table would be made at each call too, since a request looks at rows of numbers that it was asked for.

// The VM of the hart in row `i`.
pub fn vm(rows: &[u64], i: usize) -> u64
    requires { i * hart_words + hart_words ≤ length rows.now }
    ensures { result ≡ (hart_at rows.now i).vm }
{
    table_rows::word(rows, HART_WORDS, i, VM_WORD)
}

// The number of the hart in row `i`.
pub fn id(rows: &[u64], i: usize) -> u64
    requires { i * hart_words + hart_words ≤ length rows.now }
    ensures { result ≡ (hart_at rows.now i).id }
{
    table_rows::word(rows, HART_WORDS, i, ID_WORD)
}

// The lifecycle of the hart in row `i`.
pub fn lifecycle(rows: &[u64], i: usize) -> u64
    requires { i * hart_words + hart_words ≤ length rows.now }
    ensures { result ≡ (hart_at rows.now i).lifecycle }
{
    table_rows::word(rows, HART_WORDS, i, LIFECYCLE_WORD)
}

// The operation that the hart in row `i` waits for.
pub fn operation(rows: &[u64], i: usize) -> u64
    requires { i * hart_words + hart_words ≤ length rows.now }
    ensures { result ≡ (hart_at rows.now i).operation }
{
    table_rows::word(rows, HART_WORDS, i, OPERATION_WORD)
}

// Whether row `i` holds a dummy.
pub fn is_dummy(rows: &[u64], i: usize) -> bool
    requires { i * hart_words + hart_words ≤ length rows.now }
    ensures { result ≡ is_dummy (hart_at rows.now i) }
{
    vm(rows, i) == NO_VM
}

// Whether the hart in row `i` may run.
pub fn is_executable(rows: &[u64], i: usize) -> bool
    requires { i * hart_words + hart_words ≤ length rows.now }
    ensures { result ≡ is_executable (hart_at rows.now i) }
{
    matches!(lifecycle(rows, i), STARTED | SUSPENDED)
}

// Exchanges row `h` of one table with row `k` of another.
pub fn exchange(home: &mut [u64], h: usize, hardware: &mut [u64], k: usize)
    requires { (h * hart_words + hart_words ≤ length home.old) × (k * hart_words + hart_words ≤ length hardware.old) }
    ensures { (home.new ≡ put hart_words home.old h (row hart_words hardware.old k))
        × (hardware.new ≡ put hart_words hardware.old k (row hart_words home.old h)) }
{
    let a = h * HART_WORDS;
    let b = k * HART_WORDS;
    home[a..a + HART_WORDS].swap_with_slice(&mut hardware[b..b + HART_WORDS]);
}
