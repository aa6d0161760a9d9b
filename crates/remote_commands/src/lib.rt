// SPDX-FileCopyrightText: 2023 IBM Corporation
// SPDX-FileContributor: Wojciech Ozga <woz@zurich.ibm.com>, IBM Research - Zurich
// SPDX-License-Identifier: Apache-2.0
// Changed: ported to Rattle from the remote commands of core/control_data/confidential_vm.rs: one hart's queue is a row of words that the
// caller lends.
#![tactic(auto)]

ghost use Rattle.std.specs.Prelude.{◌≡◌, ◌≤◌, ◌<◌, length};
ghost use Rattle.table_rows.specs.Choice.{every};
ghost use Rattle.confidential_hart_remote_command.specs.Command.{well_formed};
ghost use Rattle.remote_commands.specs.Queue.{queue_words, max_commands, count, command_at, queued, queue_well_formed, pushed, emptied, offer, offered};

use confidential_hart_remote_command::{COMMAND_WORDS, ConfidentialHartRemoteCommand};
use error::Error;

// A queue is a row that is lent from the table of queues, so each function asks for its length: a type for it would be made at each call.

// A queue's room.
pub const MAX_NUMBER_OF_COMMANDS: usize = 64;

// The words of a queue: its count and its commands.
pub const QUEUE_WORDS: usize = 1 + MAX_NUMBER_OF_COMMANDS * COMMAND_WORDS;

// Command `i` of a queue, waiting or not.
pub fn command(queue: &[u64], i: usize) -> ConfidentialHartRemoteCommand
    requires { (length queue.now ≡ queue_words) × (i < max_commands) }
    ensures { result ≡ command_at queue.now i }
{
    let places = &queue[1..];
    ConfidentialHartRemoteCommand::from_words(table_rows::row(places, COMMAND_WORDS, i))
}

// Whether each of the first `n` commands is well formed.
fn are_commands_well_formed(queue: &[u64], n: usize) -> bool
    requires { (length queue.now ≡ queue_words) × (n ≤ max_commands) }
    ensures { result ≡ every (λ i. well_formed (command_at queue.now i)) n }
{
    (0..n).all(|i| command(queue, i).is_well_formed())
}

// Whether a row is a queue: at most 64 commands, each well formed, and 0 in every place past the last.
pub fn is_queue_well_formed(queue: &[u64]) -> bool
    requires { length queue.now ≡ queue_words }
    ensures { result ≡ queue_well_formed queue.now }
{
    let n = queue[0] as usize;
    if MAX_NUMBER_OF_COMMANDS < n {
        return false;
    }
    let end = 1 + n * COMMAND_WORDS;
    are_commands_well_formed(queue, n) & table_rows::all_zero(&queue[end..])
}

// Whether a command waits in a queue. The masks are compared first: they tell most commands apart, and a search took twice as long without.
pub fn find(queue: &[u64], c: ConfidentialHartRemoteCommand) -> bool
    requires { (length queue.now ≡ queue_words) × (count queue.now ≤ max_commands) }
    ensures { result ≡ queued queue.now c }
{
    let n = queue[0] as usize;
    (0..n).any(|i| {
        let other = command(queue, i);
        other.mask == c.mask && other == c
    })
}

// The command goes last.
fn push(queue: &mut [u64], c: ConfidentialHartRemoteCommand)
    requires { (length queue.old ≡ queue_words) × (count queue.old < max_commands) }
    ensures { queue.new ≡ pushed queue.old c }
{
    let n = queue[0];
    let a = 1 + n as usize * COMMAND_WORDS;
    let e = a + COMMAND_WORDS;
    c.to_words(&mut queue[a..e]);
    queue[0] = n + 1;
}

// A command for the hart of a queue. A full queue refuses, even a duplicate; a command that waits already is not added again; else it
// goes last.
pub fn offer(queue: &mut [u64], c: ConfidentialHartRemoteCommand) -> Result<(), Error>
    requires { length queue.old ≡ queue_words }
    ensures { offer result queue.new ≡ offered queue.old c }
{
    let n = queue[0] as usize;
    if MAX_NUMBER_OF_COMMANDS <= n {
        return Err(Error::ReachedMaxNumberOfRemoteCommands);
    }
    if find(queue, c) {
        return Ok(());
    }
    push(queue, c);
    Ok(())
}

// Leaves no command.
pub fn empty(queue: &mut [u64])
    requires { length queue.old ≡ queue_words }
    ensures { queue.new ≡ emptied }
{
    table_rows::clear(queue);
}
