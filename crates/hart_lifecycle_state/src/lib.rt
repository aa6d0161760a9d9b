// SPDX-FileCopyrightText: 2023 IBM Corporation
// SPDX-FileContributor: Wojciech Ozga <woz@zurich.ibm.com>, IBM Research - Zurich
// SPDX-License-Identifier: Apache-2.0
// Changed: ported to Rattle from core/architecture/riscv/hart_lifecycle_state.rs and the transitions of
// core/control_data/confidential_hart.rs: the transitions are one table.
#![tactic(auto)]

ghost use Rattle.std.specs.Prelude.{◌≡◌};
ghost use Rattle.hart_lifecycle_state.specs.Lifecycle.{change_of, state_number, StateOf, entry_of};

use HartLifecycleState::{PoweredOff, Started, Stopped, Suspended};
use error::Error;
use error::Error::{
    CannotStartNotStoppedHart as NoStart, CannotStartNotSuspendedHart as NoWake,
    CannotStopNotStartedHart as NoStop, CannotSuspedNotStartedHart as NoSuspend,
};

// The words that stand for the states in a table, where any other word may stand too. Who reads a table asks for a word by its name.
pub const STARTED: u64 = 0;

pub const STOPPED: u64 = 1;

pub const SUSPENDED: u64 = 2;

pub const POWERED_OFF: u64 = 3;

// The states of the lifecycle.
#[derive(Clone, Copy, Debug, PartialEq, Eq)]
pub enum HartLifecycleState {
    Started,
    Stopped,
    Suspended,
    PoweredOff,
}

// The changes of the lifecycle.
#[derive(Clone, Copy, Debug, PartialEq, Eq)]
pub enum LifecycleChange {
    Start,
    Suspend,
    Stop,
    Wake,
    Off,
}

// One table, as document 01 asks. A row a state, and in it for start, suspend, stop, wake and off the new state or the error that refuses. It
// is a static, since a const of results is built anew at each use.
#[rattlefmt::skip]
static LIFECYCLE: [[Result<HartLifecycleState, Error>; 5]; 4] = [
    [Err(NoStart), Ok(Suspended), Ok(Stopped), Err(NoWake), Ok(PoweredOff)],
    [Ok(Started), Err(NoSuspend), Err(NoStop), Err(NoWake), Ok(PoweredOff)],
    [Err(NoStart), Err(NoSuspend), Err(NoStop), Ok(Started), Ok(PoweredOff)],
    [Err(NoStart), Err(NoSuspend), Err(NoStop), Err(NoWake), Ok(PoweredOff)],
];

impl TryFrom<u64> for HartLifecycleState {
    type Error = Error;

    ghost try_from_gives = { StateOf };

    fn try_from(word: u64) -> Result<Self, Error> {
        match word {
            STARTED => Ok(Started),
            STOPPED => Ok(Stopped),
            SUSPENDED => Ok(Suspended),
            POWERED_OFF => Ok(PoweredOff),
            _ => Err(Error::TablesNotSound),
        }
    }
}

impl From<HartLifecycleState> for u64 {
    ghost from_gives = { λ state word. word ≡ state_number state };

    fn from(state: HartLifecycleState) -> u64 {
        match state {
            Started => STARTED,
            Stopped => STOPPED,
            Suspended => SUSPENDED,
            PoweredOff => POWERED_OFF,
        }
    }
}

impl HartLifecycleState {
    // The state that a change leads to from this one, or why it is refused.
    pub fn after(self, change: LifecycleChange) -> Result<HartLifecycleState, Error>
        ensures { entry_of result ≡ change_of change (state_number self) }
    {
        LIFECYCLE[self as usize][change as usize]
    }
}
