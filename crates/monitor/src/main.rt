// The trace program: reads a trace on standard input, and prints the answers on standard output. It reads and writes in blocks, and keeps
// nothing of the trace but its tables and the fields of the line that it is reading, so a trace and a line may have any length.
#![tactic(auto)]

ghost use Rattle.std.specs.Prelude.{◌≤◌};
ghost use Rattle.monitor.specs.declared.TheConstants.{BUFFER};

use effects::EFFECT_WORDS;
use hart_rows::HART_WORDS;
use memchr::memchr;
use mmio_regions::TABLE_WORDS;
use monitor_requests::HEAD_WORDS;
use remote_commands::{MAX_NUMBER_OF_COMMANDS, QUEUE_WORDS};
use std::io;
use std::io::{Print, Read};
use trace_answers::MOST_PRINTED;
use trace_fields::Line;
use trace_requests::FIELDS;
use trace_text::LINE_END;

// How many harts and hardware harts the tables have room for.
const HARTS: usize = 8;

const HARDWARE_HARTS: usize = 4;

const HOME_WORDS: usize = HARTS * HART_WORDS;

const HARDWARE_WORDS: usize = HARDWARE_HARTS * HART_WORDS;

const QUEUES_WORDS: usize = HARTS * QUEUE_WORDS;

const EFFECTS_WORDS: usize = MAX_NUMBER_OF_COMMANDS * EFFECT_WORDS;

// The bytes of the buffers that the input is read to and the output waits in.
const BUFFER: usize = 1 << 16;

// A trace so far: the tables and the room for effects, the line that is being read and its fields, whether a setup was accepted, and the
// output, an array of which the first `waiting` bytes wait to be written, since there is no heap. The tables stand first: behind an odd
// number of words a trace took 3 % longer.
#[derive(Drop)]
struct Trace {
    head: [u64; HEAD_WORDS],
    home: [u64; HOME_WORDS],
    hardware: [u64; HARDWARE_WORDS],
    queues: [u64; QUEUES_WORDS],
    regions: [u64; TABLE_WORDS],
    effects: [u64; EFFECTS_WORDS],
    fields: [u64; FIELDS],
    output: [u8; BUFFER],
    line: Line,
    ready: bool,
    waiting: usize,
    ghost within: { waiting ≤ BUFFER },
}

impl Trace {
    // Nothing was read yet.
    fn start() -> Trace {
        Trace {
            head: [0; HEAD_WORDS],
            home: [0; HOME_WORDS],
            hardware: [0; HARDWARE_WORDS],
            queues: [0; QUEUES_WORDS],
            regions: [0; TABLE_WORDS],
            effects: [0; EFFECTS_WORDS],
            fields: [0; FIELDS],
            output: [0; BUFFER],
            line: Line::start(),
            ready: false,
            waiting: 0,
        }
    }

    // Writes the output that waits.
    fn flush<R: Print>(&mut self, rt: &R) -> io::Result<()> {
        let waiting = self.waiting;
        self.waiting = 0;
        rt.write_all(&self.output[..waiting])
    }

    // Answers the line that was read, and begins the next. What waits is written first where the rest has too little room for an answer.
    fn answer<R: Print>(&mut self, rt: &R) -> io::Result<()> {
        if BUFFER - self.waiting < MOST_PRINTED {
            self.flush(rt)?;
        }
        let line = trace_requests::request(self.line, &mut self.fields);
        let at = self.waiting;
        let turn = monitor_trace::answer_line(
            line,
            self.ready,
            &mut self.head,
            &mut self.home,
            &mut self.hardware,
            &mut self.queues,
            &mut self.regions,
            &mut self.effects,
            &mut self.output[at..],
        );
        self.line = Line::start();
        self.ready = turn.ready;
        self.waiting = at + turn.length.unwrap_or(0);
        Ok(())
    }

    // Answers the lines that end in a part of the input, and reads the start of the next: it goes from line end to line end, by no index.
    fn read<R: Print>(&mut self, rt: &R, input: &[u8]) -> io::Result<()> {
        let mut rest = input;
        while let Some(end) = memchr(LINE_END, rest) {
            self.line = trace_fields::read(self.line, &rest[..end], &mut self.fields);
            self.answer(rt)?;
            rest = &rest[end + 1..];
        }
        self.line = trace_fields::read(self.line, rest, &mut self.fields);
        self.flush(rt)
    }

    // Answers a last line that has no line end.
    fn end<R: Print>(&mut self, rt: &R) -> io::Result<()> {
        if trace_fields::is_empty(self.line) {
            return Ok(());
        }
        self.answer(rt)?;
        self.flush(rt)
    }
}

// Reads the whole input, block by block, and answers the lines that end in each. The end of the input ends a line too; after a read that fails
// a line that was begun is left alone. A loop has to end, so this one has a number of blocks that no run uses up.
fn run(rt: &HostRuntime) -> io::Result<()> {
    let mut input = [0; BUFFER];
    let mut trace = Trace::start();
    for _ in 0..u64::MAX {
        let count = rt.stdin().read(&mut input)?;
        if count == 0 {
            return trace.end(rt);
        }
        trace.read(rt, &input[..count])?;
    }
    Ok(())
}

// A read or a write that fails ends the program without a word.
fn main(rt: HostRuntime) {
    let _ = run(&rt);
}
