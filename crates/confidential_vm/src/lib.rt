// SPDX-FileCopyrightText: 2023 IBM Corporation
// SPDX-FileContributor: Wojciech Ozga <woz@zurich.ibm.com>, IBM Research - Zurich
// SPDX-License-Identifier: Apache-2.0
// Changed: ported to Rattle from the context switches and the interrupts of core/control_data/confidential_vm.rs. The tables are lent. Each
// entry takes any numbers and any tables. The five tables are lent one by one: `sound_tables` says why.
#![tactic(auto)]

ghost use Rattle.std.specs.Prelude.{◌≡◌, []};
ghost use Rattle.monitor_requests.specs.declared.Request.TheVariants.{Steal, Return, Allow};
ghost use Rattle.monitor_requests.specs.Tables.{tables};
ghost use Rattle.monitor_requests.specs.Requests.{answering, performed};

use confidential_hart::{ConfidentialHartId, HardwareHartId};
use error::Error;
use monitor_requests::{ALLOWED_WORD, Answer, HARDWARE_WORD, HARTS_WORD};

// Assigns a confidential hart to a hardware hart, and gives the external interrupts that are allowed. A hart that runs already, or that may not
// run, is refused, and so is a hardware hart that holds one.
pub fn steal_confidential_hart(
    hart: ConfidentialHartId,
    on: HardwareHartId,
    head: &[u64],
    home: &mut [u64],
    hardware: &mut [u64],
    queues: &[u64],
    regions: &[u64],
) -> Result<Answer, Error>
    ensures { answering result (tables head.now home.new hardware.new queues.now regions.now) []
        ≡ performed (Steal hart on) (tables head.now home.old hardware.old queues.now regions.now) [] }
{
    sound_tables::judge(head, home, hardware, queues, regions)?;
    if head[HARDWARE_WORD] <= on.0 {
        return Err(Error::NoSuchHardwareHart);
    }
    let k = on.0 as usize;
    let busy = !hart_tables::is_dummy(hardware, k);
    if busy {
        return Err(Error::HardwareHartBusy);
    }
    if head[HARTS_WORD] <= hart.0 {
        return Err(Error::InvalidHartId);
    }
    let h = hart.0 as usize;
    if hart_tables::is_dummy(home, h) {
        return Err(Error::HartAlreadyRunning);
    }
    if !hart_tables::is_executable(home, h) {
        return Err(Error::HartNotExecutable);
    }
    hart_tables::exchange(home, h, hardware, k);
    Ok(Answer::Mask(head[ALLOWED_WORD]))
}

// Unassigns the confidential hart that a hardware hart holds: it goes home, and the dummy that stood there goes back to the hardware hart.
pub fn return_confidential_hart(
    on: HardwareHartId,
    head: &[u64],
    home: &mut [u64],
    hardware: &mut [u64],
    queues: &[u64],
    regions: &[u64],
) -> Result<Answer, Error>
    ensures { answering result (tables head.now home.new hardware.new queues.now regions.now) []
        ≡ performed (Return on) (tables head.now home.old hardware.old queues.now regions.now) [] }
{
    sound_tables::judge(head, home, hardware, queues, regions)?;
    let k = held_hart::held(on, head, hardware)?;
    let h = hart_tables::id(hardware, k) as usize;
    hart_tables::exchange(home, h, hardware, k);
    Ok(Answer::Done)
}

// Allows the external interrupts of a mask, beside those that are allowed already.
pub fn allow_external_interrupt(
    bits: u64,
    head: &mut [u64],
    home: &[u64],
    hardware: &[u64],
    queues: &[u64],
    regions: &[u64],
) -> Result<Answer, Error>
    ensures { answering result (tables head.new home.now hardware.now queues.now regions.now) []
        ≡ performed (Allow bits) (tables head.old home.now hardware.now queues.now regions.now) [] }
{
    sound_tables::judge(head, home, hardware, queues, regions)?;
    head[ALLOWED_WORD] |= bits;
    Ok(Answer::Done)
}
