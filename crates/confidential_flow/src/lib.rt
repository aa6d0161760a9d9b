// SPDX-FileCopyrightText: 2023 IBM Corporation
// SPDX-FileContributor: Wojciech Ozga <woz@zurich.ibm.com>, IBM Research - Zurich
// SPDX-License-Identifier: Apache-2.0
// Changed: ported to Rattle from `set_resumable_operation` and `resume_confidential_hart_execution` of
// confidential_flow/finite_state_machine.rs. The flow's hart is the one that a hardware hart holds in the lent tables. Each entry takes any
// numbers and any tables. The kind of an operation and its two numbers go on one by one, as C gives them: the kind may be any number. The
// five tables are lent one by one: `sound_tables` says why.
#![tactic(auto)]

ghost use Rattle.std.specs.Prelude.{◌≡◌, []};
ghost use Rattle.confidential_hart.specs.Hart.{is_operation};
ghost use Rattle.monitor_requests.specs.declared.Request.TheVariants.{Await, Resume};
ghost use Rattle.monitor_requests.specs.Tables.{tables};
ghost use Rattle.monitor_requests.specs.Requests.{answering, performed, replied};

use confidential_hart::{HardwareHartId, LAST_OPERATION, NO_OPERATION};
use error::Error;
use monitor_requests::{Answer, Reply};

// Whether a hart can wait for an operation of this kind.
fn is_operation(kind: u64) -> bool
    ensures { result ≡ is_operation kind }
{
    (kind != NO_OPERATION) & (kind <= LAST_OPERATION)
}

// Sets the operation that the confidential hart on a hardware hart waits for, a kind and two numbers.
pub fn set_resumable_operation(
    on: HardwareHartId,
    kind: u64,
    x: u64,
    y: u64,
    head: &[u64],
    home: &[u64],
    hardware: &mut [u64],
    queues: &[u64],
    regions: &[u64],
) -> Result<Answer, Error>
    ensures { answering result (tables head.now home.now hardware.new queues.now regions.now) []
        ≡ performed (Await on kind x y) (tables head.now home.now hardware.old queues.now regions.now) [] }
{
    sound_tables::judge(head, home, hardware, queues, regions)?;
    if !is_operation(kind) {
        return Err(Error::UnknownKind);
    }
    let k = held_hart::held(on, head, hardware)?;
    if hart_tables::operation(hardware, k) != NO_OPERATION {
        return Err(Error::OperationPending);
    }
    let waiting = hart_rows::load(hardware, k).set_resumable_operation(kind, x, y);
    hart_rows::store(hardware, k, waiting);
    Ok(Answer::Done)
}

// The hart that a hardware hart holds does every command of its queue, and goes on: it is powered off, or the operation that it waited for is
// taken, or it runs.
pub fn resume_confidential_hart_execution(
    on: HardwareHartId,
    head: &[u64],
    home: &[u64],
    hardware: &mut [u64],
    queues: &mut [u64],
    regions: &[u64],
    effects: &mut [u64],
) -> Reply
    ensures { replied result (tables head.now home.now hardware.new queues.new regions.now) effects.new
        ≡ performed (Resume on) (tables head.now home.now hardware.old queues.old regions.now) effects.old }
{
    if !sound_tables::are_tables_sound(head, home, hardware, queues, regions) {
        return Reply::refused(Error::TablesNotSound);
    }
    let done = confidential_flow_remote_commands::process(
        on, head, home, hardware, queues, regions, effects,
    );
    match done {
        Ok(did) => {
            let answer = held_hart::go_on(hardware, on.0 as usize);
            Reply {
                answer: Ok(answer),
                did,
            }
        }
        Err(e) => Reply::refused(e),
    }
}
