// A request as a line of a trace. What writes a part of a line asks for the room of the longest line, which `render` tests once.
#![tactic(auto)]

ghost use Rattle.std.specs.Prelude.{◌≡◌, ◌∷◌, ◌^◌, ◌≤◌, ◌<◌, length};
ghost use Rattle.confidential_hart_remote_command.specs.Command.{to_words};
ghost use Rattle.trace_text.specs.Text.{word, line, Put, printing};
ghost use Rattle.trace_requests.specs.Lines.{line_of};
ghost use Rattle.trace_rendering.specs.Rendered.{most_rendered, rendered_over};

use confidential_hart_remote_command::ConfidentialHartRemoteCommand;
use monitor_requests::Request;
use trace_requests::TraceLine;

// The most bytes of a line without its end.
pub const MOST_RENDERED: usize = 156;

// Writes a word of nine letters at most and seven numbers at most.
fn put_line(key: u64, numbers: &[u64], out: &mut [u8]) -> usize
    requires { (key < 100 ^ 9) × (length numbers.now ≤ 7) × (most_rendered ≤ length out.old) }
    ensures { Put 0 (line (word key) numbers.now) out.old result out.new }
{
    let place = trace_text::put_word(key, 0, out);
    trace_text::put_numbers(numbers, place, out)
}

// Writes a word and the numbers of a command behind another.
fn put_command(key: u64, first: u64, c: ConfidentialHartRemoteCommand, out: &mut [u8]) -> usize
    requires { (key < 100 ^ 9) × (most_rendered ≤ length out.old) }
    ensures { Put 0 (line (word key) (first ∷ to_words c)) out.old result out.new }
{
    let numbers = [first, c.kind, c.mask, c.base, c.start, c.size, c.tag];
    put_line(key, &numbers, out)
}

// Writes the line of a request.
fn put_request(request: Request, out: &mut [u8]) -> usize
    requires { most_rendered ≤ length out.old }
    ensures { Put 0 (line_of (TraceLine.Ask request)) out.old result out.new }
{
    match request {
        Request::Steal(hart, on) => put_line(trace_requests::STEAL, &[hart.0, on.0], out),
        Request::Return(on) => put_line(trace_requests::RETURN, &[on.0], out),
        Request::Start(hart, address, opaque) => put_line(
            trace_requests::START,
            &[hart.0, address, opaque],
            out,
        ),
        Request::Suspend(on) => put_line(trace_requests::SUSPEND, &[on.0], out),
        Request::Stop(on) => put_line(trace_requests::STOP, &[on.0], out),
        Request::Wake(on, address, opaque) => put_line(
            trace_requests::WAKE,
            &[on.0, address, opaque],
            out,
        ),
        Request::Off(on) => put_line(trace_requests::OFF, &[on.0], out),
        Request::Await(on, kind, x, y) => put_line(trace_requests::AWAIT, &[on.0, kind, x, y], out),
        Request::Status(hart) => put_line(trace_requests::STATUS, &[hart.0], out),
        Request::Home => put_line(trace_requests::HOME, &[], out),
        Request::Send(sender, c) => put_command(trace_requests::SEND, sender, c, out),
        Request::Allow(bits) => put_line(trace_requests::ALLOW, &[bits], out),
        Request::Add(base, size) => put_line(trace_requests::ADD, &[base, size], out),
        Request::Remove(base, size) => put_line(trace_requests::REMOVE, &[base, size], out),
        Request::Defined(base, size) => put_line(trace_requests::DEFINED, &[base, size], out),
        Request::Broadcast(on, c) => put_command(trace_requests::BROADCAST, on.0, c, out),
        Request::Process(on) => put_line(trace_requests::PROCESS, &[on.0], out),
        Request::Resume(on) => put_line(trace_requests::RESUME, &[on.0], out),
    }
}

// Writes a line of a trace.
fn put_trace_line(line: TraceLine, out: &mut [u8]) -> usize
    requires { most_rendered ≤ length out.old }
    ensures { Put 0 (line_of line) out.old result out.new }
{
    match line {
        TraceLine::SetUp(s) => {
            let numbers = [
                s.harts, s.hardware, s.boot, s.a1, s.mepc, s.vsatp, s.vsstatus,
            ];
            put_line(trace_requests::SETUP, &numbers, out)
        }
        TraceLine::Ask(request) => put_request(request, out),
    }
}

// Writes a line of a trace over the front of `out`, without its end, and gives how many bytes that are. With too little room nothing is
// written.
pub fn render(line: TraceLine, out: &mut [u8]) -> Option<usize>
    ensures { printing result out.new ≡ rendered_over line out.old }
{
    if out.len() < MOST_RENDERED {
        return None;
    }
    Some(put_trace_line(line, out))
}
