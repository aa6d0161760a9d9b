// SPDX-FileCopyrightText: 2023 IBM Corporation
// SPDX-FileContributor: Wojciech Ozga <woz@zurich.ibm.com>, IBM Research - Zurich
// SPDX-License-Identifier: Apache-2.0
// Changed: ported to Rattle from core/control_data/confidential_hart.rs. The transitions on a lent record, each by the step by value
// and under the name by which C calls it.
#![tactic(auto)]

ghost use Rattle.std.specs.Prelude.{◌≡◌};
ghost use Rattle.confidential_hart.specs.Transition.{stepped, after_start, after_suspend, after_stop, after_wake, after_off};
ghost use Rattle.lent_hart.specs.Lent.{left};

use confidential_hart::ConfidentialHart;
use error::Error;

// Leaves in a lent record what a transition gives, and gives its number, which is 0 for C where it is done. A refusal stores nothing.
// C lends records here and rows in `leaf_exports`, which has a `leave` too.
fn leave(hart: &mut ConfidentialHart, step: Result<ConfidentialHart, Error>) -> u64
    ensures { left result hart.new ≡ stepped hart.old step }
{
    match step {
        Ok(after) => {
            *hart = after;
            error::DONE
        }
        Err(e) => e.number(),
    }
}

// Starts a stopped hart at an address.
#[unsafe(no_mangle)]
pub extern "C" fn lent_start(hart: &mut ConfidentialHart, address: u64, opaque: u64) -> u64
    ensures { left result hart.new ≡ after_start address opaque hart.old }
{
    let step = hart.transition_from_stopped_to_started(address, opaque);
    leave(hart, step)
}

// Suspends a started hart.
#[unsafe(no_mangle)]
pub extern "C" fn lent_suspend(hart: &mut ConfidentialHart) -> u64
    ensures { left result hart.new ≡ after_suspend hart.old }
{
    let step = hart.transition_from_started_to_suspended();
    leave(hart, step)
}

// Stops a started hart.
#[unsafe(no_mangle)]
pub extern "C" fn lent_stop(hart: &mut ConfidentialHart) -> u64
    ensures { left result hart.new ≡ after_stop hart.old }
{
    let step = hart.transition_from_started_to_stopped();
    leave(hart, step)
}

// Wakes a suspended hart at an address.
#[unsafe(no_mangle)]
pub extern "C" fn lent_wake(hart: &mut ConfidentialHart, address: u64, opaque: u64) -> u64
    ensures { left result hart.new ≡ after_wake address opaque hart.old }
{
    let step = hart.transition_from_suspended_to_started(address, opaque);
    leave(hart, step)
}

// Powers a hart off, whatever its state.
#[unsafe(no_mangle)]
pub extern "C" fn lent_off(hart: &mut ConfidentialHart) -> u64
    ensures { left result hart.new ≡ after_off hart.old }
{
    let step = hart.transition_to_shutdown();
    leave(hart, step)
}
