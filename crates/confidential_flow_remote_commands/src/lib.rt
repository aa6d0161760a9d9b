// SPDX-FileCopyrightText: 2023 IBM Corporation
// SPDX-FileContributor: Wojciech Ozga <woz@zurich.ibm.com>, IBM Research - Zurich
// SPDX-License-Identifier: Apache-2.0
// Changed: ported to Rattle from the remote commands of confidential_flow/finite_state_machine.rs. The tables and the room for effects are
// lent. Each entry takes any numbers and any tables. The five tables are lent one by one: `sound_tables` says why.
#![tactic(auto)]

ghost use Rattle.std.specs.Prelude.{◌≡◌, true};
ghost use Rattle.monitor_requests.specs.Tables.{sound, Sized, tables};
ghost use Rattle.monitor_requests.specs.declared.Request.TheVariants.{Broadcast, Process};
ghost use Rattle.monitor_requests.specs.Requests.{replied, replying, counting, performed};

use confidential_hart::HardwareHartId;
use confidential_hart_remote_command::ConfidentialHartRemoteCommand;
use effects::EFFECT_WORDS;
use error::Error;
use monitor_requests::{Answer, Reply};
use remote_commands::MAX_NUMBER_OF_COMMANDS;

// The tests of a broadcast in their order. Then the sender does the command if it is selected, and the tables broadcast it.
fn broadcast(
    on: HardwareHartId,
    c: ConfidentialHartRemoteCommand,
    head: &[u64],
    home: &[u64],
    hardware: &mut [u64],
    queues: &mut [u64],
    regions: &[u64],
    effects: &mut [u64],
) -> Result<Reply, Error>
    ensures { replied (replying result) (tables head.now home.now hardware.new queues.new regions.now) effects.new
        ≡ performed (Broadcast on c) (tables head.now home.now hardware.old queues.old regions.now) effects.old }
{
    sound_tables::judge(head, home, hardware, queues, regions)?;
    if effects.len() < EFFECT_WORDS {
        return Err(Error::RoomTooShort);
    }
    if !c.is_well_formed() {
        return Err(Error::UnknownKind);
    }
    let k = held_hart::held(on, head, hardware)?;
    let hart = hart_tables::id(hardware, k);
    let did = held_hart::execute_own(c, hart, hardware, k, effects);
    let answer = confidential_vm_remote_commands::broadcast(
        hart, c, head, home, hardware, queues, regions,
    );
    Ok(Reply { answer, did })
}

// Sends a command from the hart that a hardware hart holds. If the command selects its sender, the sender first does it, which stands even if a
// full queue then refuses. Gives the hardware harts that hold a hart which received.
pub fn broadcast_remote_command(
    on: HardwareHartId,
    c: ConfidentialHartRemoteCommand,
    head: &[u64],
    home: &[u64],
    hardware: &mut [u64],
    queues: &mut [u64],
    regions: &[u64],
    effects: &mut [u64],
) -> Reply
    ensures { replied result (tables head.now home.now hardware.new queues.new regions.now) effects.new
        ≡ performed (Broadcast on c) (tables head.now home.now hardware.old queues.old regions.now) effects.old }
{
    match broadcast(on, c, head, home, hardware, queues, regions, effects) {
        Ok(reply) => reply,
        Err(e) => Reply::refused(e),
    }
}

// The tests of a process in their order, and the commands of the held hart's queue. Gives how many there were. It is public for a caller that has
// judged the tables: a judge reads them all, and this one row and one queue.
pub fn process(
    on: HardwareHartId,
    head: &[u64],
    home: &[u64],
    hardware: &mut [u64],
    queues: &mut [u64],
    regions: &[u64],
    effects: &mut [u64],
) -> Result<u64, Error>
    requires { let t = tables head.now home.now hardware.old queues.old regions.now in Sized t × (sound t ≡ true) }
    ensures { replied (counting result) (tables head.now home.now hardware.new queues.new regions.now) effects.new
        ≡ performed (Process on) (tables head.now home.now hardware.old queues.old regions.now) effects.old }
{
    if effects.len() < MAX_NUMBER_OF_COMMANDS * EFFECT_WORDS {
        return Err(Error::RoomTooShort);
    }
    let k = held_hart::held(on, head, hardware)?;
    let hart = hart_tables::id(hardware, k);
    Ok(held_hart::execute_queued(hart, hardware, k, queues, effects))
}

// The hart that a hardware hart holds does every command of its queue in order, and the queue is empty afterwards. Gives how many there were.
pub fn process_confidential_hart_remote_commands(
    on: HardwareHartId,
    head: &[u64],
    home: &[u64],
    hardware: &mut [u64],
    queues: &mut [u64],
    regions: &[u64],
    effects: &mut [u64],
) -> Reply
    ensures { replied result (tables head.now home.now hardware.new queues.new regions.now) effects.new
        ≡ performed (Process on) (tables head.now home.now hardware.old queues.old regions.now) effects.old }
{
    if !sound_tables::are_tables_sound(head, home, hardware, queues, regions) {
        return Reply::refused(Error::TablesNotSound);
    }
    match process(on, head, home, hardware, queues, regions, effects) {
        Ok(n) => Reply {
            answer: Ok(Answer::Count(n)),
            did: n,
        },
        Err(e) => Reply::refused(e),
    }
}
