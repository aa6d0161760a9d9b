// SPDX-FileCopyrightText: 2023 IBM Corporation
// SPDX-FileContributor: Wojciech Ozga <woz@zurich.ibm.com>, IBM Research - Zurich
// SPDX-License-Identifier: Apache-2.0
// Changed: ported to Rattle, with the limits of core/control_data/confidential_vm.rs: its methods and those of
// confidential_flow/finite_state_machine.rs are requests, and what they give is an answer. What a request does is said once, in
// `specs/Requests.antt`.
#![tactic(auto)]

ghost use Rattle.std.specs.Prelude.{◌≡◌, ◌≤◌, length};
ghost use Rattle.monitor_requests.specs.Answers.{gives, given, most_details};
ghost use Rattle.monitor_requests.specs.Requests.{refused_reply};

use confidential_hart::{ConfidentialHartId, HardwareHartId};
use confidential_hart_remote_command::ConfidentialHartRemoteCommand;
use error::{DONE, Error};
use std::marker::Model;

// The words of the head, which stand in this order: how many harts and hardware harts there are, the external interrupts that are
// allowed, and how many regions stand.
pub const HARTS_WORD: usize = 0;

pub const HARDWARE_WORD: usize = 1;

pub const ALLOWED_WORD: usize = 2;

pub const REGIONS_WORD: usize = 3;

pub const HEAD_WORDS: usize = 4;

// How many harts a confidential VM can have, and how many hardware harts there can be.
pub const MAX_NUMBER_OF_HARTS_PER_VM: u64 = 1024;

pub const MAX_NUMBER_OF_HARDWARE_HARTS: u64 = 64;

// What setup takes: how many harts and hardware harts, and the boot hart with its registers.
#[derive(Clone, Copy)]
pub struct Setup {
    pub harts: u64,
    pub hardware: u64,
    pub boot: u64,
    pub a1: u64,
    pub mepc: u64,
    pub vsatp: u64,
    pub vsstatus: u64,
}

// A request on tables that stand, by the name of its line in a trace.
#[derive(Clone, Copy)]
pub enum Request {
    Steal(ConfidentialHartId, HardwareHartId),
    Return(HardwareHartId),
    // a hart, an address and an opaque number
    Start(ConfidentialHartId, u64, u64),
    // this and the four below are for the hart that a hardware hart holds
    Suspend(HardwareHartId),
    Stop(HardwareHartId),
    // an address and an opaque number
    Wake(HardwareHartId, u64, u64),
    Off(HardwareHartId),
    // the kind of an operation and its two numbers, which may be any numbers: 19 refuses what is no kind
    Await(HardwareHartId, u64, u64, u64),
    Status(ConfidentialHartId),
    // whether every hart is at home
    Home,
    // a sender's number and a command
    Send(u64, ConfidentialHartRemoteCommand),
    Allow(u64),
    // a region's base and size, here and in the two below
    Add(u64, u64),
    Remove(u64, u64),
    Defined(u64, u64),
    // the three that do commands: a hardware hart, whose hart is the sender, and a command
    Broadcast(HardwareHartId, ConfidentialHartRemoteCommand),
    Process(HardwareHartId),
    Resume(HardwareHartId),
}

// What the monitor answers where it does not refuse.
#[derive(Clone, Copy)]
pub enum Answer {
    Done,
    // the external interrupts that are allowed, or the hardware harts to interrupt
    Mask(u64),
    // a lifecycle, by the number that stands in the tables
    State(u64),
    Flag(bool),
    // how many commands were done
    Count(u64),
    // what a hart goes on with: it runs, it is powered off, or the operation that it waited for, a kind and two numbers, is taken
    Run,
    PoweredOff,
    Operation(u64, u64, u64),
}

// The word that says what a hart goes on with. As a value it is a number.
#[derive(Clone, Copy, Debug, PartialEq, Eq)]
pub enum Word {
    Run = 0,
    Off = 1,
    Op = 2,
}

// How many numbers the details of an answer are at most.
pub const MOST_DETAILS: usize = 3;

// What a request gives, for whoever writes it down: its number, which C and the trace are given, its word if it has one, and its details.
#[derive(Clone, Copy)]
pub struct Told {
    number: u64,
    word: Option<Word>,
    // the details are the first `count` of these, and the others are 0: there is no heap, and a vector of fixed capacity was not tried
    numbers: [u64; MOST_DETAILS],
    count: usize,
}

impl Model for Told {
    ghost use Rattle.std.specs.Prelude.{◌≡◌, ◌≤◌, take, length};
    ghost use Rattle.monitor_requests.specs.Answers.{Given, gives, most_details, filled};

    ghost Value = { Given };

    ghost view = { λ t. gives t.number t.word (take t.count t.numbers) };

    ghost invariant = { λ t. (t.count ≤ most_details)
        × (length (take t.count t.numbers) ≡ t.count) × (filled (take t.count t.numbers) ≡ t.numbers) };

    ghost inverse = { λ g. record {
      number = g.number;
      word = g.word;
      numbers = filled g.details;
      count = length g.details;
    } };

    ghost inverse_ok = { λ a h. λ i. record {
      number = a.number;
      word = a.word;
      numbers = h.2 i;
      count = h.1 i;
    } };
}

impl Told {
    fn with(number: u64, word: Option<Word>, details: &[u64]) -> Told
        requires { length details.now ≤ most_details }
        ensures { result ≡ gives number word details.now }
    {
        let count = details.len();
        let mut numbers = [0; MOST_DETAILS];
        numbers[..count].copy_from_slice(details);
        Told {
            number,
            word,
            numbers,
            count,
        }
    }

    // What a request gives.
    pub fn new(answered: Result<Answer, Error>) -> Told
        ensures { result ≡ given answered }
    {
        match answered {
            Err(e) => Told::with(e.number(), None, &[]),
            Ok(Answer::Done) => Told::with(DONE, None, &[]),
            Ok(Answer::Mask(mask)) => Told::with(DONE, None, &[mask]),
            Ok(Answer::State(state)) => Told::with(DONE, None, &[state]),
            Ok(Answer::Flag(flag)) => Told::with(DONE, None, &[u64::from(flag)]),
            Ok(Answer::Count(count)) => Told::with(DONE, None, &[count]),
            Ok(Answer::Run) => Told::with(DONE, Some(Word::Run), &[]),
            Ok(Answer::PoweredOff) => Told::with(DONE, Some(Word::Off), &[]),
            Ok(Answer::Operation(kind, x, y)) => Told::with(DONE, Some(Word::Op), &[kind, x, y]),
        }
    }

    // Its number.
    pub fn number(&self) -> u64
        ensures { result ≡ self.now.number }
    {
        self.number
    }

    // Its word.
    pub fn word(&self) -> Option<Word>
        ensures { result ≡ self.now.word }
    {
        self.word
    }

    // Its details, at most three.
    pub fn details(&self) -> &[u64]
        ensures same { result.now ≡ self.now.details }
        ensures few { length result.now ≤ most_details }
    {
        &self.numbers[..self.count]
    }
}

// What a request that does commands gives: its answer or the error that refuses it, and how many effect records it wrote. A broadcast that is
// refused because a queue is full may have written one.
#[derive(Clone, Copy)]
pub struct Reply {
    pub answer: Result<Answer, Error>,
    pub did: u64,
}

impl Reply {
    // A refusal before any command was done.
    pub fn refused(e: Error) -> Reply
        ensures { result ≡ refused_reply e }
    {
        Reply {
            answer: Err(e),
            did: 0,
        }
    }
}
