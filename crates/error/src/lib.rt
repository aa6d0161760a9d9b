// SPDX-FileCopyrightText: 2023 IBM Corporation
// SPDX-FileContributor: Wojciech Ozga <woz@zurich.ibm.com>, IBM Research - Zurich
// SPDX-License-Identifier: Apache-2.0
// Changed: ported to Rattle from error.rs: the errors of the hart tables, each with its number, and those that the port adds.
#![tactic(auto)]

ghost use Rattle.std.specs.Prelude.{◌≡◌};
ghost use Rattle.error.specs.Error.{number_of, number_in};

// The request was done.
pub const DONE: u64 = 0;

// Why a request was refused: the Rust's errors, and from `EndTooLarge` on what it asserts or leaves to others.
#[derive(Clone, Copy, Debug, PartialEq, Eq)]
pub enum Error {
    InvalidHartId = 1,
    HartAlreadyRunning = 2,
    HartNotExecutable = 3,
    CannotStartNotStoppedHart = 4,
    CannotSuspedNotStartedHart = 5,
    CannotStopNotStartedHart = 6,
    CannotStartNotSuspendedHart = 7,
    ReachedMaxNumberOfRemoteCommands = 8,
    ReachedMaxNumberOfMmioRegions = 9,
    OverlappingMmioRegion = 10,
    EndTooLarge = 11,
    TablesNotSound = 12,
    RoomTooShort = 13,
    NoSuchHardwareHart = 14,
    HardwareHartBusy = 15,
    HardwareHartIdle = 16,
    OperationPending = 17,
    SetupOutOfRange = 18,
    UnknownKind = 19,
    BadLine = 20,
}

impl Error {
    // Its number, as C and the trace are given it.
    pub fn number(self) -> u64
        ensures { result ≡ number_of self }
    {
        self as u64
    }
}

// The number of an answer: that of its error, or 0.
pub fn number_in<T: Drop>(answer: Result<T, Error>) -> u64
    ensures { result ≡ number_in answer }
{
    match answer {
        Ok(_) => DONE,
        Err(e) => e.number(),
    }
}
