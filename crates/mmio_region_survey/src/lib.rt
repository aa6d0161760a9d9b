// SPDX-FileCopyrightText: 2023 IBM Corporation
// SPDX-FileContributor: Wojciech Ozga <woz@zurich.ibm.com>, IBM Research - Zurich
// SPDX-License-Identifier: Apache-2.0
// Changed: ported to Rattle from the MMIO regions of core/control_data/confidential_vm.rs. The steps by value of
// the requests on a lent run of region records.
#![tactic(auto)]

ghost use Rattle.std.specs.Prelude.{◌≡◌, ◌+◌, ◌^◌, ◌<◌};
ghost use Rattle.std.specs.Result.{result_unwrap_or};
ghost use Rattle.error.specs.Error.{number_in};
ghost use Rattle.confidential_vm_mmio_region.specs.Region.{region_of, new_region};
ghost use Rattle.mmio_region_survey.specs.Survey.{
  places_of,
  standing_of,
  joined_with,
  unseen,
  seen_with,
  judged_with,
  refusal,
  changed_by,
  add_answer,
  defined_by,
  defined_answer,
  kept_of,
};

use confidential_vm_mmio_region::ConfidentialVmMmioRegion;
use error::Error;
use mmio_regions::MAX_NUMBER_OF_MMIO_REGIONS;

// The number that adding or removing gives, and how many regions stand then: a struct of the C interface.
#[repr(C)]
#[derive(Clone, Copy)]
pub struct Changed {
    pub number: u64,
    pub count: u64,
}

// The number that asking for a region gives, and whether one contains it: a struct of the C interface. A refusal says no.
#[repr(C)]
#[derive(Clone, Copy)]
pub struct Defined {
    pub number: u64,
    pub defined: bool,
}

// What one look through a run shows: whether the run is sound, and whether a region that stands overlaps the query or contains it.
#[derive(Clone, Copy)]
pub struct Survey {
    pub sound: bool,
    pub overlapping: bool,
    pub containing: bool,
}

// What is written to the next free place, and which place is next then.
#[derive(Clone, Copy)]
pub struct Kept {
    pub region: ConfidentialVmMmioRegion,
    pub next: u64,
}

// The region that is asked for: empty where its end is too large.
pub fn requested(base: u64, size: u64) -> ConfidentialVmMmioRegion
    ensures { result ≡ result_unwrap_or (new_region base size) (region_of 0 0) }
{
    ConfidentialVmMmioRegion::new(base, size).unwrap_or_default()
}

// How many records of a run are judged: all 1,024, or none where the run is too short or the count too large. The definition `places_of` is
// this number. The look that follows goes over none of a run just as well, and such a run is not sound.
pub fn places(length: usize, count: u64) -> u64
    ensures { result ≡ places_of length count }
{
    let most = MAX_NUMBER_OF_MMIO_REGIONS as u64;
    if (length as u64) < most {
        return 0;
    }
    if most < count {
        return 0;
    }
    most
}

// How many of them stand.
pub fn standing(places: u64, count: u64) -> u64
    ensures { result ≡ standing_of places count }
{
    count.min(places)
}

// The numbers of unused records joined, with one more. Joined they are tested once, as `table_rows::all_zero` does it.
pub fn join(joined: u64, region: ConfidentialVmMmioRegion) -> u64
    ensures { result ≡ joined_with joined region }
{
    joined | region.base | region.end
}

impl Survey {
    // Before the first look.
    pub fn new() -> Survey
        ensures { result ≡ unseen }
    {
        Survey {
            sound: true,
            overlapping: false,
            containing: false,
        }
    }

    // With one more region that stands: its base is no higher than its end.
    pub fn with(self, region: ConfidentialVmMmioRegion, query: ConfidentialVmMmioRegion) -> Survey
        ensures { result ≡ seen_with self region query }
    {
        Survey {
            sound: self.sound & (region.base <= region.end),
            overlapping: self.overlapping | region.overlaps(query),
            containing: self.containing | region.contains(query),
        }
    }

    // With the numbers of the unused records joined: they are 0. A run of which nothing is judged is not sound.
    pub fn judged(self, places: u64, joined: u64) -> Survey
        ensures { result ≡ judged_with self places joined }
    {
        Survey {
            sound: self.sound & (places != 0) & (joined == 0),
            ..self
        }
    }

    // Whether any request for `size` addresses from `base` on is refused: where the run is not sound, then where the end is too large.
    pub fn check(self, base: u64, size: u64) -> Result<(), Error>
        ensures { number_in result ≡ refusal self base size }
    {
        if !self.sound {
            return Err(Error::TablesNotSound);
        }
        ConfidentialVmMmioRegion::new(base, size)?;
        Ok(())
    }

    // What adding answers: how many stand then.
    pub fn add(self, count: u64, base: u64, size: u64) -> Result<u64, Error>
        ensures { changed_by count result ≡ add_answer self count base size }
    {
        self.check(base, size)?;
        if MAX_NUMBER_OF_MMIO_REGIONS as u64 <= count {
            return Err(Error::ReachedMaxNumberOfMmioRegions);
        }
        if self.overlapping {
            return Err(Error::OverlappingMmioRegion);
        }
        Ok(count + 1)
    }

    // What asking for a region answers.
    pub fn is_defined(self, base: u64, size: u64) -> Result<bool, Error>
        ensures { defined_by result ≡ defined_answer self base size }
    {
        self.check(base, size)?;
        Ok(self.containing)
    }
}

impl Changed {
    // What is given back where `count` regions stood: a refusal keeps the count.
    pub fn new(count: u64, answer: Result<u64, Error>) -> Changed
        ensures { result ≡ changed_by count answer }
    {
        Changed {
            number: error::number_in(answer),
            count: answer.unwrap_or(count),
        }
    }
}

// What is given back: a refusal says no.
impl From<Result<bool, Error>> for Defined {
    ghost from_gives = { λ answer r. r ≡ defined_by answer };

    fn from(answer: Result<bool, Error>) -> Defined {
        Defined {
            number: error::number_in(answer),
            defined: answer.unwrap_or(false),
        }
    }
}

// Where the region overlaps the query an unused record is written and the place stays the next one; else the region takes the place.
pub fn keep(next: u64, region: ConfidentialVmMmioRegion, query: ConfidentialVmMmioRegion) -> Kept
    requires { next + 1 < 2 ^ 64 }
    ensures { result ≡ kept_of next region query }
{
    if region.overlaps(query) {
        return Kept {
            region: ConfidentialVmMmioRegion::default(),
            next,
        };
    }
    Kept {
        region,
        next: next + 1,
    }
}
