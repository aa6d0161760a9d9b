// Any request of the monitor on lent tables: the request's own entry performs it. It is done in three parts, each of which lends what its
// requests write. A request is an enum with what it takes, so a match is all that a choice of the entry needs. The five tables are lent one
// by one: `sound_tables` says why.
#![tactic(auto)]

ghost use Rattle.std.specs.Prelude.{◌≡◌, true, []};
ghost use Rattle.monitor_requests.specs.Tables.{tables};
ghost use Rattle.monitor_requests.specs.Requests.{answering, replied, performed, does_no_command};
ghost use Rattle.perform_request.specs.HardwareAlone.{hardware_alone};

use error::Error;
use monitor_requests::{Answer, Reply, Request};

// Performs a request that writes no table but the hardware rows. The last arm is `Home`.
fn perform_on_hardware(
    request: Request,
    head: &[u64],
    home: &[u64],
    hardware: &mut [u64],
    queues: &[u64],
    regions: &[u64],
) -> Result<Answer, Error>
    requires { hardware_alone request ≡ true }
    ensures { answering result (tables head.now home.now hardware.new queues.now regions.now) []
        ≡ performed request (tables head.now home.now hardware.old queues.now regions.now) [] }
{
    match request {
        Request::Suspend(on) => confidential_flow_lifecycle::suspend_confidential_hart(
            on, head, home, hardware, queues, regions,
        ),
        Request::Stop(on) => confidential_flow_lifecycle::stop_confidential_hart(
            on, head, home, hardware, queues, regions,
        ),
        Request::Wake(on, address, opaque) => confidential_flow_lifecycle::resume_confidential_hart(
            on, address, opaque, head, home, hardware, queues, regions,
        ),
        Request::Off(on) => confidential_flow_lifecycle::shutdown_confidential_hart(
            on, head, home, hardware, queues, regions,
        ),
        Request::Await(on, kind, x, y) => confidential_flow::set_resumable_operation(
            on, kind, x, y, head, home, hardware, queues, regions,
        ),
        Request::Status(hart) => confidential_vm_lifecycle::confidential_hart_lifecycle_state(
            hart, head, home, hardware, queues, regions,
        ),
        Request::Defined(base, size) => confidential_vm_mmio_regions::is_mmio_region_defined(
            base, size, head, home, hardware, queues, regions,
        ),
        _ => confidential_vm_lifecycle::is_vm_executing(head, home, hardware, queues, regions),
    }
}

// Performs a request that does no command.
fn perform_without_effects(
    request: Request,
    head: &mut [u64],
    home: &mut [u64],
    hardware: &mut [u64],
    queues: &mut [u64],
    regions: &mut [u64],
) -> Result<Answer, Error>
    requires { does_no_command request ≡ true }
    ensures { answering result (tables head.new home.new hardware.new queues.new regions.new) []
        ≡ performed request (tables head.old home.old hardware.old queues.old regions.old) [] }
{
    match request {
        Request::Steal(hart, on) => confidential_vm::steal_confidential_hart(
            hart, on, head, home, hardware, queues, regions,
        ),
        Request::Return(on) => confidential_vm::return_confidential_hart(
            on, head, home, hardware, queues, regions,
        ),
        Request::Start(hart, address, opaque) => confidential_vm_lifecycle::start_confidential_hart(
            hart, address, opaque, head, home, hardware, queues, regions,
        ),
        Request::Send(sender, c) => confidential_vm_remote_commands::broadcast_remote_command(
            sender, c, head, home, hardware, queues, regions,
        ),
        Request::Allow(bits) => confidential_vm::allow_external_interrupt(
            bits, head, home, hardware, queues, regions,
        ),
        Request::Add(base, size) => confidential_vm_mmio_regions::add_mmio_region(
            base, size, head, home, hardware, queues, regions,
        ),
        Request::Remove(base, size) => confidential_vm_mmio_regions::remove_mmio_region(
            base, size, head, home, hardware, queues, regions,
        ),
        _ => perform_on_hardware(request, head, home, hardware, queues, regions),
    }
}

// Performs any request. One that does no command has no effects.
pub fn perform(
    request: Request,
    head: &mut [u64],
    home: &mut [u64],
    hardware: &mut [u64],
    queues: &mut [u64],
    regions: &mut [u64],
    effects: &mut [u64],
) -> Reply
    ensures { replied result (tables head.new home.new hardware.new queues.new regions.new) effects.new
        ≡ performed request (tables head.old home.old hardware.old queues.old regions.old) effects.old }
{
    match request {
        Request::Broadcast(on, c) => confidential_flow_remote_commands::broadcast_remote_command(
            on, c, head, home, hardware, queues, regions, effects,
        ),
        Request::Process(on) =>
            confidential_flow_remote_commands::process_confidential_hart_remote_commands(
                on, head, home, hardware, queues, regions, effects,
            ),
        Request::Resume(on) => confidential_flow::resume_confidential_hart_execution(
            on, head, home, hardware, queues, regions, effects,
        ),
        _ => Reply {
            answer: perform_without_effects(request, head, home, hardware, queues, regions),
            did: 0,
        },
    }
}
