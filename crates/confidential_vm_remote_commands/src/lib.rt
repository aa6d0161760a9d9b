// SPDX-FileCopyrightText: 2023 IBM Corporation
// SPDX-FileContributor: Wojciech Ozga <woz@zurich.ibm.com>, IBM Research - Zurich
// SPDX-License-Identifier: Apache-2.0
// Changed: ported to Rattle from `broadcast_remote_command` of core/control_data/confidential_vm.rs. The lazy fold over the harts is a loop
// that stops at a full queue, and the tables are runs of words that the caller lends. A sender's number and a command go on one by one, as in
// the Rust: the sender may be any number. The five tables are lent one by one: `sound_tables` says why.
#![tactic(auto)]

ghost use Rattle.std.specs.Prelude.{◌≡◌, [], true, ◌+◌, ◌*◌, ◌≤◌, length};
ghost use Rattle.remote_commands.specs.Queue.{queue_words};
ghost use Rattle.hart_rows.specs.HartRows.{hart_words};
ghost use Rattle.monitor_requests.specs.Tables.{Sized, sound, tables};
ghost use Rattle.monitor_requests.specs.declared.Request.TheVariants.{Send};
ghost use Rattle.monitor_requests.specs.Requests.{receives, delivery, masked, deliver, answering, performed};
ghost use Rattle.confidential_vm_remote_commands.specs.Homes.{Numbered, Homes};

use confidential_hart_remote_command::ConfidentialHartRemoteCommand;
use error::Error;
use monitor_requests::{Answer, HARTS_WORD};
use remote_commands::QUEUE_WORDS;

// Whether hart `i` receives a command.
fn is_receiver(home: &[u64], sender: u64, c: ConfidentialHartRemoteCommand, i: usize) -> bool
    requires { i * hart_words + hart_words ≤ length home.now }
    ensures { result ≡ receives home.now sender c i }
{
    let hart = i as u64;
    c.is_hart_selected(hart) & (hart != sender) & hart_tables::is_executable(home, i)
}

// Hart `i`'s turn in a broadcast: the mask afterwards, or the refusal of a full queue.
fn visit(
    home: &[u64],
    sender: u64,
    c: ConfidentialHartRemoteCommand,
    i: usize,
    mask: u64,
    queues: &mut [u64],
) -> Result<u64, Error>
    requires { (i * hart_words + hart_words ≤ length home.now) × (Numbered home.now i) × (i * queue_words + queue_words ≤ length queues.old) }
    ensures { delivery (masked result) queues.new ≡ deliver home.now sender c 1 i mask queues.old }
{
    if !is_receiver(home, sender, c, i) {
        return Ok(mask);
    }
    let a = i * QUEUE_WORDS;
    let e = a + QUEUE_WORDS;
    remote_commands::offer(&mut queues[a..e], c)?;
    if hart_tables::is_dummy(home, i) {
        let on = hart_tables::id(home, i);
        return Ok(bits::enable_bit(mask, on));
    }
    Ok(mask)
}

// Visits the harts in rising order, until a queue refuses, which ends the broadcast as an error ends the Rust's `try_fold`. Gives the mask.
// The refusal is a return of its own and no `?`, so that a wrong variant can give another answer there.
fn deliver(
    home: &[u64],
    n: usize,
    sender: u64,
    c: ConfidentialHartRemoteCommand,
    queues: &mut [u64],
) -> Result<u64, Error>
    requires { (Homes n home.now) × (n * queue_words ≤ length queues.old) }
    ensures { delivery (masked result) queues.new ≡ deliver home.now sender c n 0 0 queues.old }
{
    let mut mask = 0;
    for i in 0..n {
        match visit(home, sender, c, i, mask, queues) {
            Ok(next) => mask = next,
            Err(full) => return Err(full),
        }
    }
    Ok(mask)
}

// The broadcast over sound tables, for a caller that has judged them.
pub fn broadcast(
    sender: u64,
    c: ConfidentialHartRemoteCommand,
    head: &[u64],
    home: &[u64],
    hardware: &[u64],
    queues: &mut [u64],
    regions: &[u64],
) -> Result<Answer, Error>
    requires { let t = tables head.now home.now hardware.now queues.old regions.now in Sized t × (sound t ≡ true) }
    ensures { answering result (tables head.now home.now hardware.now queues.new regions.now) []
        ≡ performed (Send sender c) (tables head.now home.now hardware.now queues.old regions.now) [] }
{
    if !c.is_well_formed() {
        return Err(Error::UnknownKind);
    }
    let mask = deliver(home, head[HARTS_WORD] as usize, sender, c, queues)?;
    Ok(Answer::Mask(mask))
}

// Queues a command for the harts that it selects, in rising order and without the sender, whose number may be any. A hart that may not
// run is passed over, and a queue of 64 refuses and ends the broadcast. Gives the hardware harts that hold a hart which received.
pub fn broadcast_remote_command(
    sender: u64,
    c: ConfidentialHartRemoteCommand,
    head: &[u64],
    home: &[u64],
    hardware: &[u64],
    queues: &mut [u64],
    regions: &[u64],
) -> Result<Answer, Error>
    ensures { answering result (tables head.now home.now hardware.now queues.new regions.now) []
        ≡ performed (Send sender c) (tables head.now home.now hardware.now queues.old regions.now) [] }
{
    sound_tables::judge(head, home, hardware, queues, regions)?;
    broadcast(sender, c, head, home, hardware, queues, regions)
}
