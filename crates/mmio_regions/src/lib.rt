// SPDX-FileCopyrightText: 2023 IBM Corporation
// SPDX-FileContributor: Wojciech Ozga <woz@zurich.ibm.com>, IBM Research - Zurich
// SPDX-License-Identifier: Apache-2.0
// Changed: ported to Rattle from the MMIO regions of core/control_data/confidential_vm.rs. They are a lent run of numbers with a count:
// the C interface lends the words (`regions`) apart from the count, which stands in `head`.
#![tactic(auto)]

ghost use Rattle.std.specs.Prelude.{◌≡◌, ◌+◌, ◌*◌, ◌≤◌, [], ◌∷◌, length};
ghost use Rattle.table_rows.specs.Rows.{put};
ghost use Rattle.confidential_vm_mmio_region.specs.Region.{overlaps, contains, ordered};
ghost use Rattle.table_rows.specs.Lists.{all_of};
ghost use Rattle.mmio_regions.specs.Regions.{any_overlaps, any_contains};
ghost use Rattle.mmio_regions.specs.Table.{
  region_words,
  region_at,
  standing,
  First,
  words_of,
  regions_sound,
  Sized,
  table,
  addition,
  added,
  removed,
};

use confidential_vm_mmio_region::ConfidentialVmMmioRegion;
use error::Error;

// How many MMIO regions a confidential VM can register.
pub const MAX_NUMBER_OF_MMIO_REGIONS: usize = 1024;

// Words of a region in the table: its base and one past its end.
pub const REGION_WORDS: usize = 2;

// Words of the whole table.
pub const TABLE_WORDS: usize = MAX_NUMBER_OF_MMIO_REGIONS * REGION_WORDS;

// The region in place `i`. Its words lie in a lent run and are no array, so this and the next are no `From`.
fn region(regions: &[u64], i: usize) -> ConfidentialVmMmioRegion
    requires { i * region_words + region_words ≤ length regions.now }
    ensures { result ≡ region_at regions.now i }
{
    ConfidentialVmMmioRegion {
        base: table_rows::word(regions, REGION_WORDS, i, 0),
        end: table_rows::word(regions, REGION_WORDS, i, 1),
    }
}

// Writes a region to place `i`.
fn set_region(regions: &mut [u64], i: usize, region: ConfidentialVmMmioRegion)
    requires { i * region_words + region_words ≤ length regions.old }
    ensures { regions.new ≡ put region_words regions.old i (words_of (region ∷ [])) }
{
    let at = i * REGION_WORDS;
    regions[at] = region.base;
    regions[at + 1] = region.end;
}

// Whether each of the first `count` regions has base ≤ end: one flag is carried through, which is faster than a test a region.
fn all_ordered(regions: &[u64], count: u64) -> bool
    requires { count * region_words ≤ length regions.now }
    ensures { result ≡ all_of ordered (standing regions.now count) }
{
    (0..count as usize).fold(true, |ok, i| {
        let r = region(regions, i);
        ok & (r.base <= r.end)
    })
}

// Whether the table is sound: any words with any count.
pub fn regions_are_sound(regions: &[u64], count: u64) -> bool
    ensures { result ≡ regions_sound regions.now count }
{
    if regions.len() < TABLE_WORDS {
        return false;
    }
    if (MAX_NUMBER_OF_MMIO_REGIONS as u64) < count {
        return false;
    }
    let unused = &regions[count as usize * REGION_WORDS..TABLE_WORDS];
    all_ordered(regions, count) & table_rows::all_zero(unused)
}

// The first place whose region overlaps the query, or `count`. This and the next are a `for` that gives the place: the library's `find` and `any`
// compile to two instructions more in each round, and a `for` that gives a flag to more still.
fn find_overlapping(regions: &[u64], count: u64, query: ConfidentialVmMmioRegion) -> usize
    requires { count * region_words ≤ length regions.now }
    ensures { First (λ x. overlaps x query) regions.now count result }
{
    let n = count as usize;
    for i in 0..n {
        if region(regions, i).overlaps(query) {
            return i;
        }
    }
    n
}

// The first place whose region contains the query, or `count`.
fn find_containing(regions: &[u64], count: u64, query: ConfidentialVmMmioRegion) -> usize
    requires { count * region_words ≤ length regions.now }
    ensures { First (λ x. contains x query) regions.now count result }
{
    let n = count as usize;
    for i in 0..n {
        if region(regions, i).contains(query) {
            return i;
        }
    }
    n
}

// Whether one of the first `count` regions overlaps the query: one `any`, which compiles here as a loop by hand does.
fn overlaps_any(regions: &[u64], count: u64, query: ConfidentialVmMmioRegion) -> bool
    requires { count * region_words ≤ length regions.now }
    ensures { result ≡ any_overlaps query (standing regions.now count) }
{
    (0..count as usize).any(|i| region(regions, i).overlaps(query))
}

// Whether one of the first `count` regions contains the query.
pub fn is_mmio_region_defined(regions: &[u64], count: u64, query: ConfidentialVmMmioRegion) -> bool
    requires { count * region_words ≤ length regions.now }
    ensures { result ≡ any_contains query (standing regions.now count) }
{
    find_containing(regions, count, query) < count as usize
}

// Adds a region after the first `count`: it is refused when all places are taken, then when it overlaps one. A region that `new` made has
// its base no higher than its end, and leaves a sound table sound.
pub fn add(regions: &mut [u64], count: u64, region: ConfidentialVmMmioRegion) -> Result<u64, Error>
    requires { Sized regions.old count }
    ensures { addition count result regions.new ≡ added regions.old count region }
{
    if MAX_NUMBER_OF_MMIO_REGIONS as u64 <= count {
        return Err(Error::ReachedMaxNumberOfMmioRegions);
    }
    if overlaps_any(regions, count, region) {
        return Err(Error::OverlappingMmioRegion);
    }
    set_region(regions, count as usize, region);
    Ok(count + 1)
}

// Removes each of the first `count` regions that overlaps the query, and keeps the order of the others. From the first that overlaps on,
// each is written to the next place that is kept, which `kept` counts, and the freed places are cleared: a slice has no `retain`. The answer is
// how many stand then.
pub fn remove(regions: &mut [u64], count: u64, query: ConfidentialVmMmioRegion) -> u64
    requires { Sized regions.old count }
    ensures { table result regions.new ≡ removed regions.old count query }
{
    let n = count as usize;
    let mut kept = find_overlapping(regions, count, query);
    for i in kept..n {
        let r = region(regions, i);
        set_region(regions, kept, r);
        if !r.overlaps(query) {
            kept += 1;
        }
    }
    regions[kept * REGION_WORDS..n * REGION_WORDS].fill(0);
    kept as u64
}
