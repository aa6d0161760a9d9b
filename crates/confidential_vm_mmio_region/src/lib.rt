// SPDX-FileCopyrightText: 2023 IBM Corporation
// SPDX-FileContributor: Wojciech Ozga <woz@zurich.ibm.com>, IBM Research - Zurich
// SPDX-License-Identifier: Apache-2.0
// Changed: ported to Rattle from core/control_data/confidential_vm_mmio_region.rs. An end that does not fit is refused.
#![tactic(auto)]

ghost use Rattle.std.specs.Prelude.{◌≡◌};
ghost use Rattle.confidential_vm_mmio_region.specs.Region.{new_region, overlaps, contains};

use error::Error;

// A range of guest physical addresses: its base and one past its end. The default is the empty range at 0.
#[repr(C)]
#[derive(Clone, Copy, Default)]
pub struct ConfidentialVmMmioRegion {
    pub base: u64,
    pub end: u64,
}

impl ConfidentialVmMmioRegion {
    // The region of `size` addresses from `start` on. An end above the largest is refused, so that nothing wraps.
    pub fn new(start: u64, size: u64) -> Result<ConfidentialVmMmioRegion, Error>
        ensures { result ≡ new_region start size }
    {
        let end = start.checked_add(size).ok_or(Error::EndTooLarge)?;
        Ok(ConfidentialVmMmioRegion { base: start, end })
    }

    // Whether each base is below the other's end.
    pub fn overlaps(self, other: ConfidentialVmMmioRegion) -> bool
        ensures { result ≡ overlaps self other }
    {
        (self.base < other.end) & (other.base < self.end)
    }

    // Whether the other lies within this one.
    pub fn contains(self, other: ConfidentialVmMmioRegion) -> bool
        ensures { result ≡ contains self other }
    {
        (self.base <= other.base) & (other.end <= self.end)
    }
}
