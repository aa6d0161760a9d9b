// SPDX-FileCopyrightText: 2023 IBM Corporation
// SPDX-FileContributor: Wojciech Ozga <woz@zurich.ibm.com>, IBM Research - Zurich
// SPDX-License-Identifier: Apache-2.0
// Changed: ported to Rattle from `execute` of core/control_data/confidential_hart.rs and the loop that calls it in
// confidential_flow/finite_state_machine.rs. Doing a command writes an effect record, which the caller lends room for.
#![tactic(auto)]

ghost use Rattle.std.specs.Prelude.{◌≡◌, ◌+◌, ◌*◌, ◌≤◌, length};
ghost use Rattle.table_rows.specs.Rows.{put, over};
ghost use Rattle.remote_commands.specs.Queue.{max_commands, queue_words, count, commands};
ghost use Rattle.effects.specs.Effects.{effect_words, effect_of, effects_of, is_shutdown, shuts_down};

use confidential_hart_remote_command::{
    COMMAND_WORDS, ConfidentialHartRemoteCommand, SHUTDOWN_REQUEST,
};

// The words of an effect record: a hart's number, and those of the command that it did.
pub const EFFECT_WORDS: usize = 1 + COMMAND_WORDS;

// Writes an effect record to its words.
fn write(hart: u64, c: ConfidentialHartRemoteCommand, row: &mut [u64])
    requires { length row.old ≡ effect_words }
    ensures { row.new ≡ effect_of hart c }
{
    c.to_words(&mut row[1..EFFECT_WORDS]);
    row[0] = hart;
}

// A hart does a command: effect record `i`. Gives whether the hart is to be powered off.
pub fn execute(hart: u64, c: ConfidentialHartRemoteCommand, effects: &mut [u64], i: usize) -> bool
    requires { i * effect_words + effect_words ≤ length effects.old }
    ensures { (result ≡ is_shutdown c) × (effects.new ≡ put effect_words effects.old i (effect_of hart c)) }
{
    let a = i * EFFECT_WORDS;
    let e = a + EFFECT_WORDS;
    write(hart, c, &mut effects[a..e]);
    c.kind == SHUTDOWN_REQUEST
}

// A hart does every command of its queue in order. Gives whether it is to be powered off.
pub fn execute_all(hart: u64, queue: &[u64], effects: &mut [u64]) -> bool
    requires { (length queue.now ≡ queue_words) × (count queue.now ≤ max_commands) × (max_commands * effect_words ≤ length effects.old) }
    ensures { (result ≡ shuts_down (commands queue.now))
        × (effects.new ≡ over (effects_of hart (commands queue.now)) effects.old) }
{
    let n = queue[0] as usize;
    let mut off = false;
    for i in 0..n {
        off |= execute(hart, remote_commands::command(queue, i), effects, i);
    }
    off
}
