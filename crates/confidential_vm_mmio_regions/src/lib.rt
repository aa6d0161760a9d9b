// SPDX-FileCopyrightText: 2023 IBM Corporation
// SPDX-FileContributor: Wojciech Ozga <woz@zurich.ibm.com>, IBM Research - Zurich
// SPDX-License-Identifier: Apache-2.0
// Changed: ported to Rattle from `add_mmio_region`, `remove_mmio_region` and `is_mmio_region_defined` of
// core/control_data/confidential_vm.rs. A region comes as its base and size, since C gives them and a refused one is no region, and each
// entry judges the tables first. The five tables are lent one by one: `sound_tables` says why.
#![tactic(auto)]

ghost use Rattle.std.specs.Prelude.{◌≡◌, []};
ghost use Rattle.monitor_requests.specs.declared.Request.TheVariants.{Add, Remove, Defined};
ghost use Rattle.monitor_requests.specs.Tables.{tables};
ghost use Rattle.monitor_requests.specs.Requests.{answering, performed};

use confidential_vm_mmio_region::ConfidentialVmMmioRegion;
use error::Error;
use monitor_requests::{Answer, REGIONS_WORD};

// Adds a region after those that stand: refused where 1,024 stand, and where it overlaps one.
pub fn add_mmio_region(
    base: u64,
    size: u64,
    head: &mut [u64],
    home: &[u64],
    hardware: &[u64],
    queues: &[u64],
    regions: &mut [u64],
) -> Result<Answer, Error>
    ensures { answering result (tables head.new home.now hardware.now queues.now regions.new) []
        ≡ performed (Add base size) (tables head.old home.now hardware.now queues.now regions.old) [] }
{
    sound_tables::judge(head, home, hardware, queues, regions)?;
    let region = ConfidentialVmMmioRegion::new(base, size)?;
    head[REGIONS_WORD] = mmio_regions::add(regions, head[REGIONS_WORD], region)?;
    Ok(Answer::Done)
}

// Removes all regions that overlap the one given, and keeps the order of the others.
pub fn remove_mmio_region(
    base: u64,
    size: u64,
    head: &mut [u64],
    home: &[u64],
    hardware: &[u64],
    queues: &[u64],
    regions: &mut [u64],
) -> Result<Answer, Error>
    ensures { answering result (tables head.new home.now hardware.now queues.now regions.new) []
        ≡ performed (Remove base size) (tables head.old home.now hardware.now queues.now regions.old) [] }
{
    sound_tables::judge(head, home, hardware, queues, regions)?;
    let removed = ConfidentialVmMmioRegion::new(base, size)?;
    head[REGIONS_WORD] = mmio_regions::remove(regions, head[REGIONS_WORD], removed);
    Ok(Answer::Done)
}

// Whether one region contains the one given.
pub fn is_mmio_region_defined(
    base: u64,
    size: u64,
    head: &[u64],
    home: &[u64],
    hardware: &[u64],
    queues: &[u64],
    regions: &[u64],
) -> Result<Answer, Error>
    ensures { answering result (tables head.now home.now hardware.now queues.now regions.now) []
        ≡ performed (Defined base size) (tables head.now home.now hardware.now queues.now regions.now) [] }
{
    sound_tables::judge(head, home, hardware, queues, regions)?;
    let asked = ConfidentialVmMmioRegion::new(base, size)?;
    let defined = mmio_regions::is_mmio_region_defined(regions, head[REGIONS_WORD], asked);
    Ok(Answer::Flag(defined))
}
