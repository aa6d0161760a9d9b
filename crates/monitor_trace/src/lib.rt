// A trace, line by line: what each does to the tables, and what is printed for it.
#![tactic(auto)]

ghost use Rattle.std.specs.Prelude.{◌≡◌};
ghost use Rattle.monitor_requests.specs.Tables.{tables};
ghost use Rattle.monitor_requests.specs.Requests.{replied};
ghost use Rattle.monitor_trace.specs.Trace.{line_outcome, turn, turned};

use error::Error;
use monitor_requests::Reply;
use trace_answers::MOST_PRINTED;
use trace_requests::TraceLine;

// What a turn gives: whether the trace is ready, which it is from the first accepted setup on, and how many bytes were printed, if any were.
#[derive(Clone, Copy)]
pub struct Turn {
    pub ready: bool,
    pub length: Option<usize>,
}

// Performs the request of a line. A line that is no request's is refused, and so is a request before the trace is ready.
// The tables are lent one by one, as the entries take them (`perform_request::perform`).
fn perform_line(
    line: Option<TraceLine>,
    ready: bool,
    head: &mut [u64],
    home: &mut [u64],
    hardware: &mut [u64],
    queues: &mut [u64],
    regions: &mut [u64],
    effects: &mut [u64],
) -> Reply
    ensures { replied result (tables head.new home.new hardware.new queues.new regions.new) effects.new
        ≡ line_outcome line ready (tables head.old home.old hardware.old queues.old regions.old) effects.old }
{
    match line {
        Some(TraceLine::SetUp(setup)) => Reply {
            answer: confidential_vm_setup::new(setup, head, home, hardware, queues, regions),
            did: 0,
        },
        Some(TraceLine::Ask(request)) if ready => perform_request::perform(
            request, head, home, hardware, queues, regions, effects,
        ),
        _ => Reply::refused(Error::BadLine),
    }
}

// A line of a trace: performs its request, and prints the answer over the front of `out`. With less room than any answer may take nothing is
// done, and nothing printed.
pub fn answer_line(
    line: Option<TraceLine>,
    ready: bool,
    head: &mut [u64],
    home: &mut [u64],
    hardware: &mut [u64],
    queues: &mut [u64],
    regions: &mut [u64],
    effects: &mut [u64],
    out: &mut [u8],
) -> Turn
    ensures { turned result (tables head.new home.new hardware.new queues.new regions.new) effects.new out.new
        ≡ turn line ready (tables head.old home.old hardware.old queues.old regions.old) effects.old out.old }
{
    if out.len() < MOST_PRINTED {
        return Turn {
            ready,
            length: None,
        };
    }
    let reply = perform_line(line, ready, head, home, hardware, queues, regions, effects);
    Turn {
        ready: ready | reply.answer.is_ok(),
        length: trace_answers::print(reply, effects, out),
    }
}
