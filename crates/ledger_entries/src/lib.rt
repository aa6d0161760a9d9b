// The steps of a run as code: a setup that is accepted starts one, any request goes on with it, and every row is the row worked out from the
// log. The five tables are lent one by one: `sound_tables` says why.
#![tactic(auto)]

ghost use Rattle.monitor_requests.specs.Tables.{tables};
ghost use Rattle.ledger_entries.specs.Steps.{Begun, Asked};

use error::Error;
use monitor_requests::{Answer, Reply, Request, Setup};

// Sets up one VM in the tables. If it is done, a run left them, with the log of that setup and nothing asked since.
pub fn new(
    setup: Setup,
    head: &mut [u64],
    home: &mut [u64],
    hardware: &mut [u64],
    queues: &mut [u64],
    regions: &mut [u64],
) -> Result<Answer, Error>
    ensures { Begun setup (tables head.old home.old hardware.old queues.old regions.old) result (tables head.new home.new hardware.new queues.new regions.new) }
{
    confidential_vm_setup::new(setup, head, home, hardware, queues, regions)
}

// Performs any request. If a run left the tables with a log, a run leaves them now with that log and the request and its answer noted in it.
pub fn perform(
    request: Request,
    head: &mut [u64],
    home: &mut [u64],
    hardware: &mut [u64],
    queues: &mut [u64],
    regions: &mut [u64],
    effects: &mut [u64],
) -> Reply
    ensures { Asked request (tables head.old home.old hardware.old queues.old regions.old) effects.old
        result (tables head.new home.new hardware.new queues.new regions.new) effects.new }
{
    perform_request::perform(request, head, home, hardware, queues, regions, effects)
}
