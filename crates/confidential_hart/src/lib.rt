// SPDX-FileCopyrightText: 2023 IBM Corporation
// SPDX-FileContributor: Wojciech Ozga <woz@zurich.ibm.com>, IBM Research - Zurich
// SPDX-License-Identifier: Apache-2.0
// Changed: ported to Rattle from core/control_data/confidential_hart.rs, with numbers of core/architecture/riscv/specification.rs. A record
// has the six registers that the hart tables need, and each transition is a step by value.
#![tactic(auto)]

ghost use Rattle.std.specs.Prelude.{◌≡◌, ℕ, List};
ghost use Rattle.error.specs.Error.{number_of};
ghost use Rattle.confidential_hart.specs.Hart.{no_operation, hart_of, is_dummy, with_operation, well_formed, dummy, reset_hart, boot_hart};
ghost use Rattle.hart_lifecycle_state.specs.Lifecycle.{change_of};
ghost use Rattle.confidential_hart.specs.Transition.{stepped, turned, transition, after_start, after_suspend, after_stop, after_wake, after_off};

use error::Error;
use hart_lifecycle_state::LifecycleChange::{Off, Start, Stop, Suspend, Wake};
use hart_lifecycle_state::{HartLifecycleState, LifecycleChange, POWERED_OFF, STARTED, STOPPED};

// How many registers are saved.
pub const REGISTERS: usize = 6;

// The places of the saved registers.
pub const A0: usize = 0;

pub const A1: usize = 1;

pub const MEPC: usize = 2;

pub const VSATP: usize = 3;

pub const MSTATUS: usize = 4;

pub const VSSTATUS: usize = 5;

// The bits of the status registers.
pub const CSR_STATUS_SIE: u64 = 1;

pub const CSR_MSTATUS_SIE: u64 = 1;

pub const CSR_MSTATUS_SPIE: u64 = 5;

pub const CSR_MSTATUS_MPIE: u64 = 7;

pub const CSR_MSTATUS_MPP: u64 = 11;

pub const CSR_MSTATUS_MPV: u64 = 39;

pub const INITIAL_MSTATUS: u64 = (1 << CSR_MSTATUS_MPV)
    | (1 << CSR_MSTATUS_MPP)
    | (1 << CSR_MSTATUS_SIE)
    | (1 << CSR_MSTATUS_SPIE);

// No VM, which makes a dummy, and the one VM.
pub const NO_VM: u64 = 0;

pub const VM: u64 = 1;

// No operation that a hart waits for, and the last of the kinds there are: numbers, since any may stand in a record.
pub const NO_OPERATION: u64 = 0;

pub const LAST_OPERATION: u64 = 5;

// A confidential hart's number and a hardware hart's number are two kinds, so that they cannot be exchanged.
#[derive(Clone, Copy)]
pub struct ConfidentialHartId(pub u64);

#[derive(Clone, Copy)]
pub struct HardwareHartId(pub u64);

// A confidential hart of the VM, or the dummy of a hardware hart: `vm` is 1 or, of a dummy, 0. The C interface has this record, with any
// numbers in it, so its VM, its lifecycle and its operation are numbers.
#[repr(C)]
#[derive(Clone, Copy)]
pub struct ConfidentialHart {
    pub vm: u64,
    pub id: u64,
    pub lifecycle: u64,
    pub operation: u64,
    pub x: u64,
    pub y: u64,
    pub registers: [u64; REGISTERS],
}

// Whether a record of these parts is as it must be. Any number passes, so the contract has 0 in its place. No test waits for another, which
// is faster than `&&`. It takes parts and no record, since `hart_rows` reads a row's words in their place, which is faster too.
pub fn are_parts_well_formed(
    vm: u64,
    lifecycle: u64,
    operation: u64,
    x: u64,
    y: u64,
    registers: &[u64],
) -> bool
    ensures { result ≡ well_formed (hart_of vm 0 lifecycle operation x y registers.now) }
{
    let blank = table_rows::all_zero(registers);
    (vm <= VM)
        & (lifecycle <= POWERED_OFF)
        & (operation <= LAST_OPERATION)
        & ((operation != NO_OPERATION) | ((x == 0) & (y == 0)))
        & ((vm != NO_VM) | ((lifecycle == STARTED) & (operation == NO_OPERATION) & blank))
}

impl ConfidentialHart {
    // The dummy of a hardware hart. It is Started, since it stands in the home row of a stolen hart, which runs.
    pub fn dummy(hardware: HardwareHartId) -> ConfidentialHart
        ensures { result ≡ dummy hardware.0 }
    {
        ConfidentialHart {
            vm: NO_VM,
            id: hardware.0,
            lifecycle: STARTED,
            operation: NO_OPERATION,
            x: 0,
            y: 0,
            registers: [0; REGISTERS],
        }
    }

    // A confidential hart after a reset. The Rust adds the VM later; here the record is whole at once.
    pub fn from_vm_hart_reset(id: ConfidentialHartId) -> ConfidentialHart
        ensures { result ≡ reset_hart id.0 }
    {
        ConfidentialHart {
            vm: VM,
            id: id.0,
            lifecycle: STOPPED,
            operation: NO_OPERATION,
            x: 0,
            y: 0,
            registers: [0, 0, 0, 0, INITIAL_MSTATUS, 0],
        }
    }

    // The hart that boots: a hart after a reset, with the registers of the VM that became confidential.
    pub fn from_vm_hart(
        id: ConfidentialHartId,
        pc: u64,
        fdt: u64,
        vsatp: u64,
        vsstatus: u64,
    ) -> ConfidentialHart
        ensures { result ≡ boot_hart id.0 pc fdt vsatp vsstatus }
    {
        let mut hart = ConfidentialHart::from_vm_hart_reset(id);
        hart.registers[A0] = id.0;
        hart.registers[A1] = fdt;
        hart.registers[VSSTATUS] = vsstatus;
        hart.registers[VSATP] = vsatp;
        hart.registers[MEPC] = pc;
        hart.lifecycle = STARTED;
        hart
    }

    // Whether the record is a dummy: it belongs to no VM.
    pub fn is_dummy(self) -> bool
        ensures { result ≡ is_dummy self }
    {
        self.vm == NO_VM
    }

    // Whether the record is as it must be. Any number passes.
    pub fn is_well_formed(self) -> bool
        ensures { result ≡ well_formed self }
    {
        are_parts_well_formed(
            self.vm,
            self.lifecycle,
            self.operation,
            self.x,
            self.y,
            &self.registers,
        )
    }

    // The checks of a change in their order, and the state that it leads to. `idle` refuses a dummy.
    fn change(self, change: LifecycleChange, idle: Error) -> Result<HartLifecycleState, Error>
        ensures { (registers : List ℕ) → turned registers self result ≡ transition (change_of change) (number_of idle) registers self }
    {
        if !self.is_well_formed() {
            return Err(Error::TablesNotSound);
        }
        if self.is_dummy() {
            return Err(idle);
        }
        HartLifecycleState::try_from(self.lifecycle)?.after(change)
    }

    // Starts a stopped hart, as SBI's hart start has it: at an address, with no address translation and interrupts off. The address and the
    // opaque number go on one by one wherever a request has them, as in the Rust's methods.
    pub fn transition_from_stopped_to_started(
        mut self,
        address: u64,
        opaque: u64,
    ) -> Result<ConfidentialHart, Error>
        ensures { stepped self result ≡ after_start address opaque self }
    {
        self.lifecycle = self.change(Start, Error::HartAlreadyRunning)?.into();
        let mstatus = bits::disable_bit(self.registers[MSTATUS], CSR_MSTATUS_SPIE);
        let vsstatus = self.registers[VSSTATUS];
        self.registers[VSATP] = 0;
        self.registers[MSTATUS] = bits::disable_bit(mstatus, CSR_MSTATUS_MPIE);
        self.registers[VSSTATUS] = bits::disable_bit(vsstatus, CSR_STATUS_SIE);
        self.registers[A0] = self.id;
        self.registers[A1] = opaque;
        self.registers[MEPC] = address;
        Ok(self)
    }

    // Suspends a started hart. This, a stop and a power-off are one call of `change` each.
    pub fn transition_from_started_to_suspended(mut self) -> Result<ConfidentialHart, Error>
        ensures { stepped self result ≡ after_suspend self }
    {
        self.lifecycle = self.change(Suspend, Error::HardwareHartIdle)?.into();
        Ok(self)
    }

    // Stops a started hart.
    pub fn transition_from_started_to_stopped(mut self) -> Result<ConfidentialHart, Error>
        ensures { stepped self result ≡ after_stop self }
    {
        self.lifecycle = self.change(Stop, Error::HardwareHartIdle)?.into();
        Ok(self)
    }

    // Wakes a suspended hart at an address.
    pub fn transition_from_suspended_to_started(
        mut self,
        address: u64,
        opaque: u64,
    ) -> Result<ConfidentialHart, Error>
        ensures { stepped self result ≡ after_wake address opaque self }
    {
        self.lifecycle = self.change(Wake, Error::HardwareHartIdle)?.into();
        self.registers[A1] = opaque;
        self.registers[MEPC] = address;
        Ok(self)
    }

    // Powers a hart off, whatever its state.
    pub fn transition_to_shutdown(mut self) -> Result<ConfidentialHart, Error>
        ensures { stepped self result ≡ after_off self }
    {
        self.lifecycle = self.change(Off, Error::HardwareHartIdle)?.into();
        Ok(self)
    }

    // Sets the operation that the hart waits for, whatever stood there: who asks has seen that none is pending.
    pub fn set_resumable_operation(mut self, operation: u64, x: u64, y: u64) -> ConfidentialHart
        ensures { result ≡ with_operation operation x y self }
    {
        self.operation = operation;
        self.x = x;
        self.y = y;
        self
    }

    // Takes the operation: afterwards there is none. Who asks has read it.
    pub fn take_resumable_operation(mut self) -> ConfidentialHart
        ensures { result ≡ with_operation no_operation 0 0 self }
    {
        self.set_resumable_operation(NO_OPERATION, 0, 0)
    }
}
