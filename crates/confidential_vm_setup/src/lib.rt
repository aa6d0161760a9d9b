// SPDX-FileCopyrightText: 2023 IBM Corporation
// SPDX-FileContributor: Wojciech Ozga <woz@zurich.ibm.com>, IBM Research - Zurich
// SPDX-License-Identifier: Apache-2.0
// Changed: ported to Rattle from `ConfidentialVm::new` of core/control_data/confidential_vm.rs. The tables are lent runs of numbers, and the
// harts are made here. The five tables are lent one by one: `sound_tables` says why.
#![tactic(auto)]

ghost use Rattle.std.specs.Prelude.{◌≡◌, ◌*◌, ◌≤◌, [], ◌∷◌, length, replicate};
ghost use Rattle.table_rows.specs.Rows.{rows_of, over};
ghost use Rattle.confidential_hart.specs.Hart.{dummy};
ghost use Rattle.hart_rows.specs.HartRows.{hart_words, to_words};
ghost use Rattle.monitor_requests.specs.Tables.{max_harts, head_words, Long, tables};
ghost use Rattle.monitor_requests.specs.Requests.{answering, set_up, setup_hart, fresh};

use confidential_hart::{ConfidentialHart, ConfidentialHartId, HardwareHartId};
use error::Error;
use mmio_regions::TABLE_WORDS;
use monitor_requests::{ALLOWED_WORD, Answer, HARDWARE_WORD, HARTS_WORD, REGIONS_WORD, Setup};
use remote_commands::QUEUE_WORDS;

// Hart `h` at setup: the boot hart with its registers, or a hart after a reset.
fn hart_at_setup(setup: Setup, h: u64) -> ConfidentialHart
    ensures { result ≡ setup_hart setup h }
{
    let id = ConfidentialHartId(h);
    if h == setup.boot {
        return ConfidentialHart::from_vm_hart(
            id,
            setup.mepc,
            setup.a1,
            setup.vsatp,
            setup.vsstatus,
        );
    }
    ConfidentialHart::from_vm_hart_reset(id)
}

// Writes each hart to its home row. This and the next differ in the record that they write, and are a loop of a line each.
fn set_home(home: &mut [u64], setup: Setup)
    requires { setup.harts * hart_words ≤ length home.old }
    ensures { home.new ≡ over (rows_of (λ h. to_words (setup_hart setup h)) setup.harts) home.old }
{
    for h in 0..setup.harts {
        hart_rows::store(home, h as usize, hart_at_setup(setup, h));
    }
}

// Writes the dummy of each of the first `m` hardware harts to its row.
fn set_hardware(hardware: &mut [u64], m: u64)
    requires { m * hart_words ≤ length hardware.old }
    ensures { hardware.new ≡ over (rows_of (λ k. to_words (dummy k)) m) hardware.old }
{
    for k in 0..m {
        let dummy = ConfidentialHart::dummy(HardwareHartId(k));
        hart_rows::store(hardware, k as usize, dummy);
    }
}

// Writes the head: `n` harts and `m` hardware harts, no interrupt is allowed, and no region stands.
fn set_head(head: &mut [u64], n: u64, m: u64)
    requires { head_words ≤ length head.old }
    ensures { head.new ≡ over (n ∷ m ∷ 0 ∷ 0 ∷ []) head.old }
{
    head[HARTS_WORD] = n;
    head[HARDWARE_WORD] = m;
    head[ALLOWED_WORD] = 0;
    head[REGIONS_WORD] = 0;
}

// Makes the first `n` words 0.
fn clear_front(words: &mut [u64], n: usize)
    requires { n ≤ length words.old }
    ensures { words.new ≡ over (replicate n 0) words.old }
{
    table_rows::clear(&mut words[0..n]);
}

// Writes the tables of a VM that has room in them.
fn write(
    setup: Setup,
    head: &mut [u64],
    home: &mut [u64],
    hardware: &mut [u64],
    queues: &mut [u64],
    regions: &mut [u64],
)
    requires { (setup.harts ≤ max_harts) × Long (tables head.old home.old hardware.old queues.old regions.old) setup.harts setup.hardware }
    ensures { tables head.new home.new hardware.new queues.new regions.new ≡ fresh setup (tables head.old home.old hardware.old queues.old regions.old) }
{
    let commands = setup.harts as usize * QUEUE_WORDS;
    set_head(head, setup.harts, setup.hardware);
    set_home(home, setup);
    set_hardware(hardware, setup.hardware);
    clear_front(queues, commands);
    clear_front(regions, TABLE_WORDS);
}

// Sets up one VM in the tables, whatever stood there: its harts at home, a dummy for each hardware hart, and all else empty or 0.
pub fn new(
    setup: Setup,
    head: &mut [u64],
    home: &mut [u64],
    hardware: &mut [u64],
    queues: &mut [u64],
    regions: &mut [u64],
) -> Result<Answer, Error>
    ensures { answering result (tables head.new home.new hardware.new queues.new regions.new) []
        ≡ set_up setup (tables head.old home.old hardware.old queues.old regions.old) }
{
    let in_range = sound_tables::are_counts_in_range(setup.harts, setup.hardware);
    let out_of_range = !(in_range & (setup.boot < setup.harts));
    if out_of_range {
        return Err(Error::SetupOutOfRange);
    }
    let too_short = !sound_tables::are_long_enough(
        setup.harts,
        setup.hardware,
        head,
        home,
        hardware,
        queues,
        regions,
    );
    if too_short {
        return Err(Error::RoomTooShort);
    }
    write(setup, head, home, hardware, queues, regions);
    Ok(Answer::Done)
}
