// The leaves as C functions, so that `compare/` can run them beside the original Rust. C lends words, so each asks for as many as it reads.
// Each promises what the function that it calls promises.
#![tactic(auto)]

ghost use Rattle.std.specs.Prelude.{◌≡◌, ◌*◌, ◌≤◌, length};
ghost use Rattle.confidential_vm_mmio_region.specs.Region.{region_of, new_region};
ghost use Rattle.mmio_regions.specs.Regions.{any_contains};
ghost use Rattle.mmio_regions.specs.Table.{region_words, standing, regions_sound, Sized, added, removed, table};
ghost use Rattle.confidential_hart_remote_command.specs.Command.{well_formed, command_words, from_words as command_of};
ghost use Rattle.confidential_hart_remote_command.specs.Selection.{selects};
ghost use Rattle.remote_commands.specs.Queue.{queue_words, queue_well_formed, offered};
ghost use Rattle.confidential_hart.specs.Hart.{well_formed as hart_well_formed, dummy, reset_hart, boot_hart};
ghost use Rattle.hart_rows.specs.HartRows.{hart_words, to_words, from_words};
ghost use Rattle.confidential_hart.specs.Transition.{stepped, after_start, after_suspend, after_stop, after_wake, after_off};
ghost use Rattle.leaf_exports.specs.LeafAnswers.{answer, of_offer, of_region, of_addition, of_transition};

use confidential_hart::{ConfidentialHart, ConfidentialHartId, HardwareHartId};
use confidential_hart_remote_command::ConfidentialHartRemoteCommand;
use confidential_vm_mmio_region::ConfidentialVmMmioRegion;
use error::Error;

// Whether six words are a command.
#[unsafe(no_mangle)]
pub extern "C" fn leaf_is_well_formed(words: &[u64]) -> bool
    requires { length words.now ≡ command_words }
    ensures { result ≡ well_formed (command_of words.now) }
{
    ConfidentialHartRemoteCommand::from_words(words).is_well_formed()
}

// Whether the command that six words hold is for a hart.
#[unsafe(no_mangle)]
pub extern "C" fn leaf_is_hart_selected(words: &[u64], hart: u64) -> bool
    requires { length words.now ≡ command_words }
    ensures { result ≡ selects (command_of words.now) hart }
{
    ConfidentialHartRemoteCommand::from_words(words).is_hart_selected(hart)
}

// Whether a row is a queue.
#[unsafe(no_mangle)]
pub extern "C" fn leaf_is_queue_well_formed(queue: &[u64]) -> bool
    requires { length queue.now ≡ queue_words }
    ensures { result ≡ queue_well_formed queue.now }
{
    remote_commands::is_queue_well_formed(queue)
}

// Offers the command that six words hold to a queue.
#[unsafe(no_mangle)]
pub extern "C" fn leaf_offer(queue: &mut [u64], words: &[u64]) -> u64
    requires { (length queue.old ≡ queue_words) × (length words.now ≡ command_words) }
    ensures { answer result queue.new ≡ of_offer (offered queue.old (command_of words.now)) }
{
    let c = ConfidentialHartRemoteCommand::from_words(words);
    error::number_in(remote_commands::offer(queue, c))
}

// Makes a region, and writes its base and its end, or 0 and 0 where it is refused.
#[unsafe(no_mangle)]
pub extern "C" fn leaf_new_region(region: &mut [u64], start: u64, size: u64) -> u64
    requires { length region.old ≡ region_words }
    ensures { answer result region.new ≡ of_region (new_region start size) }
{
    let made = ConfidentialVmMmioRegion::new(start, size);
    let written = made.unwrap_or_default();
    region[0] = written.base;
    region[1] = written.end;
    error::number_in(made)
}

// Whether words with a count are a region table.
#[unsafe(no_mangle)]
pub extern "C" fn leaf_regions_are_sound(regions: &[u64], count: u64) -> bool
    ensures { result ≡ regions_sound regions.now count }
{
    mmio_regions::regions_are_sound(regions, count)
}

// Adds a region.
#[unsafe(no_mangle)]
pub extern "C" fn leaf_add(regions: &mut [u64], count: u64, base: u64, end: u64) -> u64
    requires { Sized regions.old count }
    ensures { answer result regions.new ≡ of_addition (added regions.old count (region_of base end)) }
{
    let region = ConfidentialVmMmioRegion { base, end };
    error::number_in(mmio_regions::add(regions, count, region))
}

// Removes all regions that overlap one, and gives how many are left.
#[unsafe(no_mangle)]
pub extern "C" fn leaf_remove(regions: &mut [u64], count: u64, base: u64, end: u64) -> u64
    requires { Sized regions.old count }
    ensures { table result regions.new ≡ removed regions.old count (region_of base end) }
{
    let query = ConfidentialVmMmioRegion { base, end };
    mmio_regions::remove(regions, count, query)
}

// Whether a region contains one.
#[unsafe(no_mangle)]
pub extern "C" fn leaf_is_mmio_region_defined(
    regions: &[u64],
    count: u64,
    base: u64,
    end: u64,
) -> bool
    requires { count * region_words ≤ length regions.now }
    ensures { result ≡ any_contains (region_of base end) (standing regions.now count) }
{
    let query = ConfidentialVmMmioRegion { base, end };
    mmio_regions::is_mmio_region_defined(regions, count, query)
}

// Whether a row holds a hart's record.
#[unsafe(no_mangle)]
pub extern "C" fn leaf_is_row_well_formed(row: &[u64]) -> bool
    requires { length row.now ≡ hart_words }
    ensures { result ≡ hart_well_formed (from_words row.now) }
{
    hart_rows::is_row_well_formed(row[hart_rows::VM_WORD], row)
}

// Writes a dummy to a row.
#[unsafe(no_mangle)]
pub extern "C" fn leaf_dummy(row: &mut [u64], hardware: u64)
    requires { length row.old ≡ hart_words }
    ensures { row.new ≡ to_words (dummy hardware) }
{
    let hart = ConfidentialHart::dummy(HardwareHartId(hardware));
    hart_rows::to_words(hart, row);
}

// Writes a hart after a reset to a row.
#[unsafe(no_mangle)]
pub extern "C" fn leaf_from_vm_hart_reset(row: &mut [u64], id: u64)
    requires { length row.old ≡ hart_words }
    ensures { row.new ≡ to_words (reset_hart id) }
{
    let hart = ConfidentialHart::from_vm_hart_reset(ConfidentialHartId(id));
    hart_rows::to_words(hart, row);
}

// Writes the hart that boots to a row.
#[unsafe(no_mangle)]
pub extern "C" fn leaf_from_vm_hart(
    row: &mut [u64],
    id: u64,
    pc: u64,
    fdt: u64,
    vsatp: u64,
    vsstatus: u64,
)
    requires { length row.old ≡ hart_words }
    ensures { row.new ≡ to_words (boot_hart id pc fdt vsatp vsstatus) }
{
    let hart = ConfidentialHart::from_vm_hart(ConfidentialHartId(id), pc, fdt, vsatp, vsstatus);
    hart_rows::to_words(hart, row);
}

// Leaves in a row what a transition of its hart gives, and gives its number. A refusal leaves the row as it was.
fn leave(row: &mut [u64], step: Result<ConfidentialHart, Error>) -> u64
    requires { length row.old ≡ hart_words }
    ensures { answer result row.new ≡ of_transition (stepped (from_words row.old) step) }
{
    let hart = step.unwrap_or(hart_rows::from_words(row));
    hart_rows::to_words(hart, row);
    error::number_in(step)
}

// Starts the hart in a row.
#[unsafe(no_mangle)]
pub extern "C" fn leaf_start(row: &mut [u64], address: u64, opaque: u64) -> u64
    requires { length row.old ≡ hart_words }
    ensures { answer result row.new ≡ of_transition (after_start address opaque (from_words row.old)) }
{
    let step = hart_rows::from_words(row).transition_from_stopped_to_started(address, opaque);
    leave(row, step)
}

// Suspends the hart in a row.
#[unsafe(no_mangle)]
pub extern "C" fn leaf_suspend(row: &mut [u64]) -> u64
    requires { length row.old ≡ hart_words }
    ensures { answer result row.new ≡ of_transition (after_suspend (from_words row.old)) }
{
    let step = hart_rows::from_words(row).transition_from_started_to_suspended();
    leave(row, step)
}

// Stops the hart in a row.
#[unsafe(no_mangle)]
pub extern "C" fn leaf_stop(row: &mut [u64]) -> u64
    requires { length row.old ≡ hart_words }
    ensures { answer result row.new ≡ of_transition (after_stop (from_words row.old)) }
{
    let step = hart_rows::from_words(row).transition_from_started_to_stopped();
    leave(row, step)
}

// Wakes the hart in a row.
#[unsafe(no_mangle)]
pub extern "C" fn leaf_wake(row: &mut [u64], address: u64, opaque: u64) -> u64
    requires { length row.old ≡ hart_words }
    ensures { answer result row.new ≡ of_transition (after_wake address opaque (from_words row.old)) }
{
    let step = hart_rows::from_words(row).transition_from_suspended_to_started(address, opaque);
    leave(row, step)
}

// Powers off the hart in a row.
#[unsafe(no_mangle)]
pub extern "C" fn leaf_off(row: &mut [u64]) -> u64
    requires { length row.old ≡ hart_words }
    ensures { answer result row.new ≡ of_transition (after_off (from_words row.old)) }
{
    let step = hart_rows::from_words(row).transition_to_shutdown();
    leave(row, step)
}
