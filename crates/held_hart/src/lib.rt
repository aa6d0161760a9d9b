// SPDX-FileCopyrightText: 2023 IBM Corporation
// SPDX-FileContributor: Wojciech Ozga <woz@zurich.ibm.com>, IBM Research - Zurich
// SPDX-License-Identifier: Apache-2.0
// Changed: ported to Rattle from confidential_flow/finite_state_machine.rs: what the flow does to the hart that it holds, which is a row of the
// hardware harts' table, and to that hart's queue.
#![tactic(auto)]

ghost use Rattle.std.specs.Prelude.{◌≡◌, ◌+◌, ◌*◌, ◌≤◌, [], length, get_or, Ok};
ghost use Rattle.table_rows.specs.Rows.{row, put, over};
ghost use Rattle.table_rows.specs.Choice.{pick};
ghost use Rattle.remote_commands.specs.Queue.{max_commands, queue_words, count, commands, emptied};
ghost use Rattle.effects.specs.Effects.{effect_words, effects_of};
ghost use Rattle.confidential_hart.specs.Transition.{after_off};
ghost use Rattle.hart_rows.specs.HartRows.{hart_words, hart_at, to_words};
ghost use Rattle.monitor_requests.specs.Tables.{hardware_word, head_words, tables};
ghost use Rattle.monitor_requests.specs.Requests.{held_at, did_rows, own_commands, going, goes_on};

use confidential_hart::{HardwareHartId, NO_OPERATION};
use confidential_hart_remote_command::ConfidentialHartRemoteCommand;
use error::Error;
use hart_lifecycle_state::POWERED_OFF;
use monitor_requests::{Answer, HARDWARE_WORD};
use remote_commands::QUEUE_WORDS;

// The row of the confidential hart that a hardware hart holds: there is such a hardware hart, and its row holds no dummy.
pub fn held(on: HardwareHartId, head: &[u64], hardware: &[u64]) -> Result<usize, Error>
    requires { (head_words ≤ length head.now) × (get_or head.now hardware_word 0 * hart_words ≤ length hardware.now) }
    ensures { result ≡ held_at on.0 (tables head.now [] hardware.now [] []) }
{
    if head[HARDWARE_WORD] <= on.0 {
        return Err(Error::NoSuchHardwareHart);
    }
    let k = on.0 as usize;
    if hart_tables::is_dummy(hardware, k) {
        return Err(Error::HardwareHartIdle);
    }
    Ok(k)
}

// Powers off the hart in row `k`, if it is to be: both callers have the flag, so it is tested here once.
fn power_off_if(off: bool, hardware: &mut [u64], k: usize)
    requires { k * hart_words + hart_words ≤ length hardware.old }
    ensures { hardware.new
        ≡ pick off (put hart_words hardware.old k (to_words (after_off (hart_at hardware.old k)).hart)) hardware.old }
{
    if off {
        if let Ok(hart) = hart_rows::load(hardware, k).transition_to_shutdown() {
            hart_rows::store(hardware, k, hart);
        }
    }
}

// Hart `hart` in row `k` does a command that it sends, if the command selects it. Gives how many effect records were written.
pub fn execute_own(
    c: ConfidentialHartRemoteCommand,
    hart: u64,
    hardware: &mut [u64],
    k: usize,
    effects: &mut [u64],
) -> u64
    requires { (k * hart_words + hart_words ≤ length hardware.old) × (effect_words ≤ length effects.old) }
    ensures { (result ≡ length (own_commands c hart))
        × (hardware.new ≡ did_rows (own_commands c hart) hardware.old k)
        × (effects.new ≡ over (effects_of hart (own_commands c hart)) effects.old) }
{
    if !c.is_hart_selected(hart) {
        return 0;
    }
    let off = effects::execute(hart, c, effects, 0);
    power_off_if(off, hardware, k);
    1
}

// Hart `hart` in row `k` does every command of its queue in order, and the queue is empty afterwards. Gives how many there were.
pub fn execute_queued(
    hart: u64,
    hardware: &mut [u64],
    k: usize,
    queues: &mut [u64],
    effects: &mut [u64],
) -> u64
    requires { (k * hart_words + hart_words ≤ length hardware.old)
        × (hart * queue_words + queue_words ≤ length queues.old)
        × (count (row queue_words queues.old hart) ≤ max_commands)
        × (max_commands * effect_words ≤ length effects.old) }
    ensures { (result ≡ length (commands (row queue_words queues.old hart)))
        × (hardware.new ≡ did_rows (commands (row queue_words queues.old hart)) hardware.old k)
        × (queues.new ≡ put queue_words queues.old hart emptied)
        × (effects.new ≡ over (effects_of hart (commands (row queue_words queues.old hart))) effects.old) }
{
    let a = hart as usize * QUEUE_WORDS;
    let e = a + QUEUE_WORDS;
    let n = queues[a];
    let off = effects::execute_all(hart, &queues[a..e], effects);
    power_off_if(off, hardware, k);
    remote_commands::empty(&mut queues[a..e]);
    n
}

// What the hart in row `k` goes on with: off, the operation that it waited for, which is taken, or run.
pub fn go_on(hardware: &mut [u64], k: usize) -> Answer
    requires { k * hart_words + hart_words ≤ length hardware.old }
    ensures { going (Ok result) hardware.new ≡ goes_on hardware.old k }
{
    let hart = hart_rows::load(hardware, k);
    if hart.lifecycle == POWERED_OFF {
        return Answer::PoweredOff;
    }
    if hart.operation != NO_OPERATION {
        hart_rows::store(hardware, k, hart.take_resumable_operation());
        return Answer::Operation(hart.operation, hart.x, hart.y);
    }
    Answer::Run
}
