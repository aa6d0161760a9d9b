// SPDX-FileCopyrightText: 2023 IBM Corporation
// SPDX-FileContributor: Wojciech Ozga <woz@zurich.ibm.com>, IBM Research - Zurich
// SPDX-License-Identifier: Apache-2.0
// Changed: ported to Rattle from the lifecycle of core/control_data/confidential_vm.rs. The tables are lent. Each entry takes any numbers and
// any tables. The five tables are lent one by one: `sound_tables` says why.
#![tactic(auto)]

ghost use Rattle.std.specs.Prelude.{◌≡◌, [], not, ◌*◌, ◌≤◌, length};
ghost use Rattle.table_rows.specs.Choice.{every};
ghost use Rattle.confidential_hart.specs.Hart.{is_dummy};
ghost use Rattle.hart_rows.specs.HartRows.{hart_words, hart_at};
ghost use Rattle.monitor_requests.specs.declared.Request.TheVariants.{Start, Status, Home};
ghost use Rattle.monitor_requests.specs.Tables.{tables};
ghost use Rattle.monitor_requests.specs.Requests.{answering, performed};

use confidential_hart::ConfidentialHartId;
use error::Error;
use monitor_requests::{Answer, HARTS_WORD};

// Starts a stopped confidential hart at an address.
pub fn start_confidential_hart(
    hart: ConfidentialHartId,
    address: u64,
    opaque: u64,
    head: &[u64],
    home: &mut [u64],
    hardware: &[u64],
    queues: &[u64],
    regions: &[u64],
) -> Result<Answer, Error>
    ensures { answering result (tables head.now home.new hardware.now queues.now regions.now) []
        ≡ performed (Start hart address opaque) (tables head.now home.old hardware.now queues.now regions.now) [] }
{
    sound_tables::judge(head, home, hardware, queues, regions)?;
    if head[HARTS_WORD] <= hart.0 {
        return Err(Error::InvalidHartId);
    }
    let h = hart.0 as usize;
    if hart_tables::is_dummy(home, h) {
        return Err(Error::HartAlreadyRunning);
    }
    let started = hart_rows::load(home, h).transition_from_stopped_to_started(address, opaque)?;
    hart_rows::store(home, h, started);
    Ok(Answer::Done)
}

// The lifecycle state of a confidential hart. That of a hart that runs is Started, since a dummy stands in its home row.
pub fn confidential_hart_lifecycle_state(
    hart: ConfidentialHartId,
    head: &[u64],
    home: &[u64],
    hardware: &[u64],
    queues: &[u64],
    regions: &[u64],
) -> Result<Answer, Error>
    ensures { answering result (tables head.now home.now hardware.now queues.now regions.now) []
        ≡ performed (Status hart) (tables head.now home.now hardware.now queues.now regions.now) [] }
{
    sound_tables::judge(head, home, hardware, queues, regions)?;
    if head[HARTS_WORD] <= hart.0 {
        return Err(Error::InvalidHartId);
    }
    Ok(Answer::State(hart_tables::lifecycle(home, hart.0 as usize)))
}

// Whether each of the first `n` home rows holds its hart.
fn are_all_home(home: &[u64], n: usize) -> bool
    requires { n * hart_words ≤ length home.now }
    ensures { result ≡ every (λ h. not (is_dummy (hart_at home.now h))) n }
{
    (0..n).all(|h| !hart_tables::is_dummy(home, h))
}

// Whether no confidential hart is on a hardware hart. The name is the Rust's, and so is the answer.
pub fn is_vm_executing(
    head: &[u64],
    home: &[u64],
    hardware: &[u64],
    queues: &[u64],
    regions: &[u64],
) -> Result<Answer, Error>
    ensures { answering result (tables head.now home.now hardware.now queues.now regions.now) []
        ≡ performed Home (tables head.now home.now hardware.now queues.now regions.now) [] }
{
    sound_tables::judge(head, home, hardware, queues, regions)?;
    Ok(Answer::Flag(are_all_home(home, head[HARTS_WORD] as usize)))
}
