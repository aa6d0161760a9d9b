// A line read and written again, as a C function, so that it can be run beside the oracle.
#![tactic(auto)]

ghost use Rattle.trace_exports.specs.TraceExports.{Rewrites};

// Reads a line, writes what it says as a line over the front of `out`, and gives how many bytes that are: 0, as C is told it, for a line that
// is no request's, or where there is too little room.
#[unsafe(no_mangle)]
pub extern "C" fn oudrameng_rewrite_line(text: &[u8], out: &mut [u8]) -> usize
    ensures { Rewrites text.now out.old result out.new }
{
    let Some(line) = trace_requests::parse(text) else {
        return 0
    };
    trace_rendering::render(line, out).unwrap_or(0)
}
