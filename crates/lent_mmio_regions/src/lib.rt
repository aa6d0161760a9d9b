// SPDX-FileCopyrightText: 2023 IBM Corporation
// SPDX-FileContributor: Wojciech Ozga <woz@zurich.ibm.com>, IBM Research - Zurich
// SPDX-License-Identifier: Apache-2.0
// Changed: ported to Rattle from the MMIO regions of core/control_data/confidential_vm.rs. They are a lent run of
// region records with a count, as C lends them. C may also lend regions as words (`mmio_regions`), so adding, removing and asking stand there
// once more.
#![tactic(auto)]

ghost use Rattle.std.specs.Prelude.{◌≡◌, ◌≤◌, length};
ghost use Rattle.mmio_region_survey.specs.Survey.{unseen, seen_through, joined_through, surveyed, changed_by};
ghost use Rattle.lent_mmio_regions.specs.Run.{run, without, run_change, added, removed, defined};

use confidential_vm_mmio_region::ConfidentialVmMmioRegion;
use error::Error;
use mmio_region_survey::{Changed, Defined, Survey};

// Looks at each region that stands.
fn survey_standing(standing: &[ConfidentialVmMmioRegion], query: ConfidentialVmMmioRegion) -> Survey
    ensures { result ≡ seen_through unseen query standing.now }
{
    standing
        .iter()
        .fold(Survey::new(), |seen, region| seen.with(*region, query))
}

// Joins the numbers of the unused records.
fn join_unused(unused: &[ConfidentialVmMmioRegion]) -> u64
    ensures { result ≡ joined_through 0 unused.now }
{
    unused.iter().fold(
        0,
        |joined, region| mmio_region_survey::join(joined, *region),
    )
}

// Looks once at each of the first 1,024 records; at none where the run is too short or the count too large.
fn survey_run(
    regions: &[ConfidentialVmMmioRegion],
    count: u64,
    query: ConfidentialVmMmioRegion,
) -> Survey
    ensures { result ≡ surveyed regions.now count query }
{
    let places = mmio_region_survey::places(regions.len(), count);
    let standing = mmio_region_survey::standing(places, count);
    let (standing, unused) = regions[..places as usize].split_at(standing as usize);
    let seen = survey_standing(standing, query);
    seen.judged(places, join_unused(unused))
}

// Whether a region contains `size` addresses from `base` on.
#[unsafe(no_mangle)]
pub extern "C" fn lent_is_mmio_region_defined(
    regions: &[ConfidentialVmMmioRegion],
    count: u64,
    base: u64,
    size: u64,
) -> Defined
    ensures { result ≡ defined regions.now count base size }
{
    let query = mmio_region_survey::requested(base, size);
    Defined::from(survey_run(regions, count, query).is_defined(base, size))
}

// Adds the region of `size` addresses from `base` on after the first `count`: how many stand then.
fn add(
    regions: &mut [ConfidentialVmMmioRegion],
    count: u64,
    base: u64,
    size: u64,
) -> Result<u64, Error>
    ensures { run_change (changed_by count result) regions.new ≡ added regions.old count base size }
{
    let query = mmio_region_survey::requested(base, size);
    let more = survey_run(&*regions, count, query).add(count, base, size)?;
    regions[count as usize] = query;
    Ok(more)
}

// Adds the region of `size` addresses from `base` on after the first `count`.
#[unsafe(no_mangle)]
pub extern "C" fn lent_add_mmio_region(
    regions: &mut [ConfidentialVmMmioRegion],
    count: u64,
    base: u64,
    size: u64,
) -> Changed
    ensures { run_change result regions.new ≡ added regions.old count base size }
{
    Changed::new(count, add(regions, count, base, size))
}

// Removes each of the first `count` regions that overlaps the query, and keeps the order of the others. Each record is taken out of its place
// and written to the next that is kept, `next`, so that the freed records are 0: a slice has no `retain`. The answer is how many stand then.
fn remove_overlapping(
    regions: &mut [ConfidentialVmMmioRegion],
    count: u64,
    query: ConfidentialVmMmioRegion,
) -> u64
    requires { count ≤ length regions.old }
    ensures { run result regions.new ≡ without query regions.old count }
{
    let mut next: u64 = 0;
    for i in 0..count as usize {
        let region = std::mem::take(&mut regions[i]);
        let kept = mmio_region_survey::keep(next, region, query);
        regions[next as usize] = kept.region;
        next = kept.next;
    }
    next
}

// Removes every region that overlaps the one of `size` addresses from `base` on: how many stand then.
fn remove(
    regions: &mut [ConfidentialVmMmioRegion],
    count: u64,
    base: u64,
    size: u64,
) -> Result<u64, Error>
    ensures { run_change (changed_by count result) regions.new ≡ removed regions.old count base size }
{
    let query = mmio_region_survey::requested(base, size);
    survey_run(&*regions, count, query).check(base, size)?;
    Ok(remove_overlapping(regions, count, query))
}

// Removes every region that overlaps the one of `size` addresses from `base` on.
#[unsafe(no_mangle)]
pub extern "C" fn lent_remove_mmio_region(
    regions: &mut [ConfidentialVmMmioRegion],
    count: u64,
    base: u64,
    size: u64,
) -> Changed
    ensures { run_change result regions.new ≡ removed regions.old count base size }
{
    Changed::new(count, remove(regions, count, base, size))
}
