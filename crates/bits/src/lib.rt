// SPDX-FileCopyrightText: 2023 IBM Corporation
// SPDX-FileContributor: Wojciech Ozga <woz@zurich.ibm.com>, IBM Research - Zurich
// SPDX-License-Identifier: Apache-2.0
// Changed: ported to Rattle from core/architecture/mod.rs, with a function each to clear and to set a bit.
#![tactic(auto)]

ghost use Rattle.std.specs.Prelude.{◌≡◌, ◌<◌, eqb};
ghost use Rattle.bits.specs.Bit.{bit, clear_bit, set_bit};

// Each of the three asks that there is such a bit. A type for the numbers below 64 would be made at each call, and be no plainer.

// Whether a bit of a register is 1.
pub fn is_bit_enabled(register: u64, index: u64) -> bool
    requires { index < 64 }
    ensures { result ≡ eqb (bit index register) 1 }
{
    (register >> index) & 1 == 1
}

// The register with a bit 0.
pub fn disable_bit(register: u64, index: u64) -> u64
    requires { index < 64 }
    ensures { result ≡ clear_bit index register }
{
    register & !(1 << index)
}

// The register with a bit 1.
pub fn enable_bit(register: u64, index: u64) -> u64
    requires { index < 64 }
    ensures { result ≡ set_bit index register }
{
    register | (1 << index)
}
