// The entries of the tables and of the flow as C functions: plain numbers and lent tables in, and a lent room for effects where commands are
// done, and document 01's number back. An answer's values go over the front of one more lent slice; those that do commands write before them
// how many effect records they wrote. C needs a name and arguments for each, so there are eighteen alike. Each promises what the entry that
// it calls promises, for any numbers and any tables.
#![tactic(auto)]

ghost use Rattle.std.specs.Prelude.{◌≡◌, ◌≤◌, length};
ghost use Rattle.table_rows.specs.Choice.{pick};
ghost use Rattle.monitor_requests.specs.declared.Request.TheVariants.{Steal, Return, Start, Status, Home, Send, Allow, Add, Remove, Defined, Suspend, Stop, Wake, Off, Await, Broadcast, Process, Resume};
ghost use Rattle.monitor_requests.specs.Tables.{sound, tables};
ghost use Rattle.monitor_requests.specs.FromNumbers.{hart_id, hardware_hart_id, setup_of, command_of};
ghost use Rattle.export_values.specs.Exports.{written, exported, valued, numbered, unvalued, unvalued_setup};
ghost use Rattle.monitor_exports.specs.Replies.{reply_value_words, reply_told, reply_exported, reply_valued};

use confidential_hart::{ConfidentialHartId, HardwareHartId};
use confidential_hart_remote_command::ConfidentialHartRemoteCommand;
use error::Error;
use monitor_requests::{Reply, Setup};

// How many words are asked for an answer's values: an operation has the most.
const VALUE_WORDS: usize = 4;

// How many words are asked for how many effect records were written and an answer's values.
const REPLY_VALUE_WORDS: usize = 5;

// Whether the tables are sound, as 1 or 0.
#[unsafe(no_mangle)]
pub extern "C" fn oudrameng_are_tables_sound(
    head: &[u64],
    home: &[u64],
    hardware: &[u64],
    queues: &[u64],
    regions: &[u64],
) -> u64
    ensures { result ≡ pick (sound (tables head.now home.now hardware.now queues.now regions.now)) 1 0 }
{
    export_values::word_of(sound_tables::are_tables_sound(head, home, hardware, queues, regions))
}

// Sets up a VM.
#[unsafe(no_mangle)]
pub extern "C" fn oudrameng_new(
    n: u64,
    m: u64,
    boot: u64,
    a1: u64,
    mepc: u64,
    vsatp: u64,
    vsstatus: u64,
    head: &mut [u64],
    home: &mut [u64],
    hardware: &mut [u64],
    queues: &mut [u64],
    regions: &mut [u64],
) -> u64
    ensures { numbered result (tables head.new home.new hardware.new queues.new regions.new)
        ≡ unvalued_setup (setup_of n m boot a1 mepc vsatp vsstatus) (tables head.old home.old hardware.old queues.old regions.old) }
{
    let setup = Setup {
        harts: n,
        hardware: m,
        boot,
        a1,
        mepc,
        vsatp,
        vsstatus,
    };
    export_values::number(confidential_vm_setup::new(setup, head, home, hardware, queues, regions))
}

// Assigns a hart to a hardware hart. The value is the mask of external interrupts.
#[unsafe(no_mangle)]
pub extern "C" fn oudrameng_steal_confidential_hart(
    hart: u64,
    on: u64,
    head: &[u64],
    home: &mut [u64],
    hardware: &mut [u64],
    queues: &[u64],
    regions: &[u64],
    value: &mut [u64],
) -> u64
    ensures { exported result value.new (tables head.now home.new hardware.new queues.now regions.now)
        ≡ valued (Steal (hart_id hart) (hardware_hart_id on)) value.old (tables head.now home.old hardware.old queues.now regions.now) }
{
    if value.len() < VALUE_WORDS {
        return Error::RoomTooShort.number();
    }
    let answer = confidential_vm::steal_confidential_hart(
        ConfidentialHartId(hart),
        HardwareHartId(on),
        head,
        home,
        hardware,
        queues,
        regions,
    );
    export_values::tell(answer, value)
}

// Takes the hart of a hardware hart home.
#[unsafe(no_mangle)]
pub extern "C" fn oudrameng_return_confidential_hart(
    on: u64,
    head: &[u64],
    home: &mut [u64],
    hardware: &mut [u64],
    queues: &[u64],
    regions: &[u64],
) -> u64
    ensures { numbered result (tables head.now home.new hardware.new queues.now regions.now)
        ≡ unvalued (Return (hardware_hart_id on)) (tables head.now home.old hardware.old queues.now regions.now) }
{
    export_values::number(confidential_vm::return_confidential_hart(
        HardwareHartId(on),
        head,
        home,
        hardware,
        queues,
        regions,
    ))
}

// Allows external interrupts.
#[unsafe(no_mangle)]
pub extern "C" fn oudrameng_allow_external_interrupt(
    bits: u64,
    head: &mut [u64],
    home: &[u64],
    hardware: &[u64],
    queues: &[u64],
    regions: &[u64],
) -> u64
    ensures { numbered result (tables head.new home.now hardware.now queues.now regions.now)
        ≡ unvalued (Allow bits) (tables head.old home.now hardware.now queues.now regions.now) }
{
    export_values::number(confidential_vm::allow_external_interrupt(
        bits, head, home, hardware, queues, regions,
    ))
}

// Starts a hart.
#[unsafe(no_mangle)]
pub extern "C" fn oudrameng_start_confidential_hart(
    hart: u64,
    address: u64,
    opaque: u64,
    head: &[u64],
    home: &mut [u64],
    hardware: &[u64],
    queues: &[u64],
    regions: &[u64],
) -> u64
    ensures { numbered result (tables head.now home.new hardware.now queues.now regions.now)
        ≡ unvalued (Start (hart_id hart) address opaque) (tables head.now home.old hardware.now queues.now regions.now) }
{
    export_values::number(confidential_vm_lifecycle::start_confidential_hart(
        ConfidentialHartId(hart),
        address,
        opaque,
        head,
        home,
        hardware,
        queues,
        regions,
    ))
}

// The value is the lifecycle of a hart.
#[unsafe(no_mangle)]
pub extern "C" fn oudrameng_confidential_hart_lifecycle_state(
    hart: u64,
    head: &[u64],
    home: &[u64],
    hardware: &[u64],
    queues: &[u64],
    regions: &[u64],
    value: &mut [u64],
) -> u64
    ensures { exported result value.new (tables head.now home.now hardware.now queues.now regions.now)
        ≡ valued (Status (hart_id hart)) value.old (tables head.now home.now hardware.now queues.now regions.now) }
{
    if value.len() < VALUE_WORDS {
        return Error::RoomTooShort.number();
    }
    let answer = confidential_vm_lifecycle::confidential_hart_lifecycle_state(
        ConfidentialHartId(hart),
        head,
        home,
        hardware,
        queues,
        regions,
    );
    export_values::tell(answer, value)
}

// The value is 1 where every hart is at home, and else 0.
#[unsafe(no_mangle)]
pub extern "C" fn oudrameng_is_vm_executing(
    head: &[u64],
    home: &[u64],
    hardware: &[u64],
    queues: &[u64],
    regions: &[u64],
    value: &mut [u64],
) -> u64
    ensures { exported result value.new (tables head.now home.now hardware.now queues.now regions.now)
        ≡ valued Home value.old (tables head.now home.now hardware.now queues.now regions.now) }
{
    if value.len() < VALUE_WORDS {
        return Error::RoomTooShort.number();
    }
    let answer = confidential_vm_lifecycle::is_vm_executing(head, home, hardware, queues, regions);
    export_values::tell(answer, value)
}

// Sends a command. The value is the mask of hardware harts to interrupt.
#[unsafe(no_mangle)]
pub extern "C" fn oudrameng_broadcast_remote_command(
    sender: u64,
    kind: u64,
    mask: u64,
    base: u64,
    start: u64,
    size: u64,
    tag: u64,
    head: &[u64],
    home: &[u64],
    hardware: &[u64],
    queues: &mut [u64],
    regions: &[u64],
    value: &mut [u64],
) -> u64
    ensures { exported result value.new (tables head.now home.now hardware.now queues.new regions.now)
        ≡ valued (Send sender (command_of kind mask base start size tag)) value.old (tables head.now home.now hardware.now queues.old regions.now) }
{
    if value.len() < VALUE_WORDS {
        return Error::RoomTooShort.number();
    }
    let c = ConfidentialHartRemoteCommand {
        kind,
        mask,
        base,
        start,
        size,
        tag,
    };
    let answer = confidential_vm_remote_commands::broadcast_remote_command(
        sender, c, head, home, hardware, queues, regions,
    );
    export_values::tell(answer, value)
}

// Adds a region.
#[unsafe(no_mangle)]
pub extern "C" fn oudrameng_add_mmio_region(
    base: u64,
    size: u64,
    head: &mut [u64],
    home: &[u64],
    hardware: &[u64],
    queues: &[u64],
    regions: &mut [u64],
) -> u64
    ensures { numbered result (tables head.new home.now hardware.now queues.now regions.new)
        ≡ unvalued (Add base size) (tables head.old home.now hardware.now queues.now regions.old) }
{
    export_values::number(confidential_vm_mmio_regions::add_mmio_region(
        base, size, head, home, hardware, queues, regions,
    ))
}

// Removes the regions that overlap one.
#[unsafe(no_mangle)]
pub extern "C" fn oudrameng_remove_mmio_region(
    base: u64,
    size: u64,
    head: &mut [u64],
    home: &[u64],
    hardware: &[u64],
    queues: &[u64],
    regions: &mut [u64],
) -> u64
    ensures { numbered result (tables head.new home.now hardware.now queues.now regions.new)
        ≡ unvalued (Remove base size) (tables head.old home.now hardware.now queues.now regions.old) }
{
    export_values::number(confidential_vm_mmio_regions::remove_mmio_region(
        base, size, head, home, hardware, queues, regions,
    ))
}

// The value is 1 where a region contains the one given, and else 0.
#[unsafe(no_mangle)]
pub extern "C" fn oudrameng_is_mmio_region_defined(
    base: u64,
    size: u64,
    head: &[u64],
    home: &[u64],
    hardware: &[u64],
    queues: &[u64],
    regions: &[u64],
    value: &mut [u64],
) -> u64
    ensures { exported result value.new (tables head.now home.now hardware.now queues.now regions.now)
        ≡ valued (Defined base size) value.old (tables head.now home.now hardware.now queues.now regions.now) }
{
    if value.len() < VALUE_WORDS {
        return Error::RoomTooShort.number();
    }
    let answer = confidential_vm_mmio_regions::is_mmio_region_defined(
        base, size, head, home, hardware, queues, regions,
    );
    export_values::tell(answer, value)
}

// Writes how many effect records were written and the values of the answer, and gives its number.
fn tell_reply(given: Reply, value: &mut [u64]) -> u64
    requires { reply_value_words ≤ length value.old }
    ensures { written result value.new ≡ reply_told given value.old }
{
    let number = export_values::tell(given.answer, &mut value[1..]);
    value[0] = given.did;
    number
}

// The hart that a hardware hart holds is suspended.
#[unsafe(no_mangle)]
pub extern "C" fn oudrameng_suspend_confidential_hart(
    on: u64,
    head: &[u64],
    home: &[u64],
    hardware: &mut [u64],
    queues: &[u64],
    regions: &[u64],
) -> u64
    ensures { numbered result (tables head.now home.now hardware.new queues.now regions.now)
        ≡ unvalued (Suspend (hardware_hart_id on)) (tables head.now home.now hardware.old queues.now regions.now) }
{
    export_values::number(confidential_flow_lifecycle::suspend_confidential_hart(
        HardwareHartId(on),
        head,
        home,
        hardware,
        queues,
        regions,
    ))
}

// The hart that a hardware hart holds stops.
#[unsafe(no_mangle)]
pub extern "C" fn oudrameng_stop_confidential_hart(
    on: u64,
    head: &[u64],
    home: &[u64],
    hardware: &mut [u64],
    queues: &[u64],
    regions: &[u64],
) -> u64
    ensures { numbered result (tables head.now home.now hardware.new queues.now regions.now)
        ≡ unvalued (Stop (hardware_hart_id on)) (tables head.now home.now hardware.old queues.now regions.now) }
{
    export_values::number(confidential_flow_lifecycle::stop_confidential_hart(
        HardwareHartId(on),
        head,
        home,
        hardware,
        queues,
        regions,
    ))
}

// The hart that a hardware hart holds wakes.
#[unsafe(no_mangle)]
pub extern "C" fn oudrameng_resume_confidential_hart(
    on: u64,
    address: u64,
    opaque: u64,
    head: &[u64],
    home: &[u64],
    hardware: &mut [u64],
    queues: &[u64],
    regions: &[u64],
) -> u64
    ensures { numbered result (tables head.now home.now hardware.new queues.now regions.now)
        ≡ unvalued (Wake (hardware_hart_id on) address opaque) (tables head.now home.now hardware.old queues.now regions.now) }
{
    export_values::number(confidential_flow_lifecycle::resume_confidential_hart(
        HardwareHartId(on),
        address,
        opaque,
        head,
        home,
        hardware,
        queues,
        regions,
    ))
}

// The hart that a hardware hart holds is powered off.
#[unsafe(no_mangle)]
pub extern "C" fn oudrameng_shutdown_confidential_hart(
    on: u64,
    head: &[u64],
    home: &[u64],
    hardware: &mut [u64],
    queues: &[u64],
    regions: &[u64],
) -> u64
    ensures { numbered result (tables head.now home.now hardware.new queues.now regions.now)
        ≡ unvalued (Off (hardware_hart_id on)) (tables head.now home.now hardware.old queues.now regions.now) }
{
    export_values::number(confidential_flow_lifecycle::shutdown_confidential_hart(
        HardwareHartId(on),
        head,
        home,
        hardware,
        queues,
        regions,
    ))
}

// Sets the operation that the hart on a hardware hart waits for.
#[unsafe(no_mangle)]
pub extern "C" fn oudrameng_set_resumable_operation(
    on: u64,
    kind: u64,
    x: u64,
    y: u64,
    head: &[u64],
    home: &[u64],
    hardware: &mut [u64],
    queues: &[u64],
    regions: &[u64],
) -> u64
    ensures { numbered result (tables head.now home.now hardware.new queues.now regions.now)
        ≡ unvalued (Await (hardware_hart_id on) kind x y) (tables head.now home.now hardware.old queues.now regions.now) }
{
    export_values::number(confidential_flow::set_resumable_operation(
        HardwareHartId(on),
        kind,
        x,
        y,
        head,
        home,
        hardware,
        queues,
        regions,
    ))
}

// Sends a command from the hart that a hardware hart holds. The value is the mask of hardware harts to interrupt.
#[unsafe(no_mangle)]
pub extern "C" fn oudrameng_flow_broadcast_remote_command(
    on: u64,
    kind: u64,
    mask: u64,
    base: u64,
    start: u64,
    size: u64,
    tag: u64,
    head: &[u64],
    home: &[u64],
    hardware: &mut [u64],
    queues: &mut [u64],
    regions: &[u64],
    effects: &mut [u64],
    value: &mut [u64],
) -> u64
    ensures { reply_exported result value.new (tables head.now home.now hardware.new queues.new regions.now) effects.new
        ≡ reply_valued (Broadcast (hardware_hart_id on) (command_of kind mask base start size tag))
        value.old (tables head.now home.now hardware.old queues.old regions.now) effects.old }
{
    if value.len() < REPLY_VALUE_WORDS {
        return Error::RoomTooShort.number();
    }
    let c = ConfidentialHartRemoteCommand {
        kind,
        mask,
        base,
        start,
        size,
        tag,
    };
    let given = confidential_flow_remote_commands::broadcast_remote_command(
        HardwareHartId(on),
        c,
        head,
        home,
        hardware,
        queues,
        regions,
        effects,
    );
    tell_reply(given, value)
}

// The hart that a hardware hart holds does the commands of its queue. The value is how many there were.
#[unsafe(no_mangle)]
pub extern "C" fn oudrameng_process_confidential_hart_remote_commands(
    on: u64,
    head: &[u64],
    home: &[u64],
    hardware: &mut [u64],
    queues: &mut [u64],
    regions: &[u64],
    effects: &mut [u64],
    value: &mut [u64],
) -> u64
    ensures { reply_exported result value.new (tables head.now home.now hardware.new queues.new regions.now) effects.new
        ≡ reply_valued (Process (hardware_hart_id on)) value.old (tables head.now home.now hardware.old queues.old regions.now) effects.old }
{
    if value.len() < REPLY_VALUE_WORDS {
        return Error::RoomTooShort.number();
    }
    let given = confidential_flow_remote_commands::process_confidential_hart_remote_commands(
        HardwareHartId(on),
        head,
        home,
        hardware,
        queues,
        regions,
        effects,
    );
    tell_reply(given, value)
}

// The hart that a hardware hart holds does the commands of its queue. The values say what it goes on with.
#[unsafe(no_mangle)]
pub extern "C" fn oudrameng_resume_confidential_hart_execution(
    on: u64,
    head: &[u64],
    home: &[u64],
    hardware: &mut [u64],
    queues: &mut [u64],
    regions: &[u64],
    effects: &mut [u64],
    value: &mut [u64],
) -> u64
    ensures { reply_exported result value.new (tables head.now home.now hardware.new queues.new regions.now) effects.new
        ≡ reply_valued (Resume (hardware_hart_id on)) value.old (tables head.now home.now hardware.old queues.old regions.now) effects.old }
{
    if value.len() < REPLY_VALUE_WORDS {
        return Error::RoomTooShort.number();
    }
    let given = confidential_flow::resume_confidential_hart_execution(
        HardwareHartId(on),
        head,
        home,
        hardware,
        queues,
        regions,
        effects,
    );
    tell_reply(given, value)
}
