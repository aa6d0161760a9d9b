// SPDX-FileCopyrightText: 2023 IBM Corporation
// SPDX-FileContributor: Wojciech Ozga <woz@zurich.ibm.com>, IBM Research - Zurich
// SPDX-License-Identifier: Apache-2.0
// Changed: ported to Rattle from the lifecycle transitions of confidential_flow/finite_state_machine.rs. The flow's hart is the one that a
// hardware hart holds in the lent tables. Each entry takes any numbers and any tables. The five tables are lent one by one: `sound_tables`
// says why.
#![tactic(auto)]

ghost use Rattle.std.specs.Prelude.{◌≡◌, [], ◌∷◌};
ghost use Rattle.monitor_requests.specs.declared.Request.TheVariants.{Suspend, Stop, Wake, Off};
ghost use Rattle.monitor_requests.specs.Tables.{hardware_hart, tables};
ghost use Rattle.monitor_requests.specs.Requests.{answering, tried, unsound, no_hardware_hart, idle, performed};

use confidential_hart::{ConfidentialHart, HardwareHartId};
use error::Error;
use monitor_requests::Answer;

// The confidential hart that a hardware hart holds, or the first of three tests that refuses.
fn held(
    on: HardwareHartId,
    head: &[u64],
    home: &[u64],
    hardware: &[u64],
    queues: &[u64],
    regions: &[u64],
) -> Result<ConfidentialHart, Error>
    ensures { let t = tables head.now home.now hardware.now queues.now regions.now in
        result ≡ tried (unsound t ∷ no_hardware_hart on.0 t ∷ idle on.0 t ∷ []) (hardware_hart t on.0) }
{
    sound_tables::judge(head, home, hardware, queues, regions)?;
    let k = held_hart::held(on, head, hardware)?;
    Ok(hart_rows::load(hardware, k))
}

// Suspends the confidential hart that a hardware hart holds. This and the three below differ in the step: one function that takes the step
// would have to say in its contract what a step gives, and be no plainer than these four lines.
pub fn suspend_confidential_hart(
    on: HardwareHartId,
    head: &[u64],
    home: &[u64],
    hardware: &mut [u64],
    queues: &[u64],
    regions: &[u64],
) -> Result<Answer, Error>
    ensures { answering result (tables head.now home.now hardware.new queues.now regions.now) []
        ≡ performed (Suspend on) (tables head.now home.now hardware.old queues.now regions.now) [] }
{
    let hart = held(on, head, home, hardware, queues, regions)?;
    let suspended = hart.transition_from_started_to_suspended()?;
    hart_rows::store(hardware, on.0 as usize, suspended);
    Ok(Answer::Done)
}

// Stops the confidential hart that a hardware hart holds.
pub fn stop_confidential_hart(
    on: HardwareHartId,
    head: &[u64],
    home: &[u64],
    hardware: &mut [u64],
    queues: &[u64],
    regions: &[u64],
) -> Result<Answer, Error>
    ensures { answering result (tables head.now home.now hardware.new queues.now regions.now) []
        ≡ performed (Stop on) (tables head.now home.now hardware.old queues.now regions.now) [] }
{
    let hart = held(on, head, home, hardware, queues, regions)?;
    let stopped = hart.transition_from_started_to_stopped()?;
    hart_rows::store(hardware, on.0 as usize, stopped);
    Ok(Answer::Done)
}

// Wakes the confidential hart that a hardware hart holds, at an address.
pub fn resume_confidential_hart(
    on: HardwareHartId,
    address: u64,
    opaque: u64,
    head: &[u64],
    home: &[u64],
    hardware: &mut [u64],
    queues: &[u64],
    regions: &[u64],
) -> Result<Answer, Error>
    ensures { answering result (tables head.now home.now hardware.new queues.now regions.now) []
        ≡ performed (Wake on address opaque) (tables head.now home.now hardware.old queues.now regions.now) [] }
{
    let hart = held(on, head, home, hardware, queues, regions)?;
    let started = hart.transition_from_suspended_to_started(address, opaque)?;
    hart_rows::store(hardware, on.0 as usize, started);
    Ok(Answer::Done)
}

// Powers off the confidential hart that a hardware hart holds, whatever its state.
pub fn shutdown_confidential_hart(
    on: HardwareHartId,
    head: &[u64],
    home: &[u64],
    hardware: &mut [u64],
    queues: &[u64],
    regions: &[u64],
) -> Result<Answer, Error>
    ensures { answering result (tables head.now home.now hardware.new queues.now regions.now) []
        ≡ performed (Off on) (tables head.now home.now hardware.old queues.now regions.now) [] }
{
    let hart = held(on, head, home, hardware, queues, regions)?;
    let off = hart.transition_to_shutdown()?;
    hart_rows::store(hardware, on.0 as usize, off);
    Ok(Answer::Done)
}
