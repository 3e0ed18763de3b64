ghost use Rattle.std.specs.Prelude.{◌≡◌, ◌≤◌, ◌%◌, ◌^◌, ◌++◌, true, sum};
ghost use Rattle.arrayvec.specs.ArrayString.{array_string_len};
ghost use Rattle.std.specs.Bool.{then_some};
ghost use Rattle.program_io.specs.ProgressLine.{progress_line, run_text, events_text, seconds_text};
ghost use Rattle.program_io.specs.ProgressLine.{rounds_line, steps_text, search_line, states_text, choices_line, choices_text};

use actors::{Gate, Point};
use arrayvec::ArrayString;
use core_lock::BoardView;
use std::io::Write;
use std::sync::atomic::{AtomicBool, AtomicU64, Ordering};
use std::time::Clock;
use text_fields::{push_ascii, push_decimal};

/// How many turns its actor takes from one look at the clock to the next.
const TURNS_A_LOOK: u64 = 1024;

/// How many milliseconds pass from one line to the next.
const MILLISECONDS_A_LINE: u64 = 1000;

/// The actor in whose turns the clock is looked at. Every run has it.
const WATCHER: u8 = 0;

/// Back to the beginning of a terminal's line, all of which it is to forget.
const CLEARED: &[u8] = b"\r\x1b[K";

/// The line that is shown of a run.
type ProgressLine = ArrayString<160>;

/// A gate that lets every actor on, and shows on a terminal how far the run is: about once a
/// second, from its first second on, on one line, which is cleared when the run is over.
///
/// It takes no lock. Only the turns of one actor change its numbers, so none of them is lost.
#[derive(Drop)]
pub struct Progress<C: Clock + Copy, W: Write + Copy> {
    clock: C,
    /// Where the line is shown; none where nothing is.
    terminal: Option<W>,
    /// How many events the run may make.
    limit: AtomicU64,
    /// How many turns the watcher has begun.
    turns: AtomicU64,
    /// What the clock showed as the run began, in milliseconds.
    start: AtomicU64,
    /// What the clock has to show for the next line, in milliseconds.
    due: AtomicU64,
    /// Whether there is a line to clear.
    shows: AtomicBool,
    /// How many runs there are, where there is more than one; else 0.
    times: AtomicU64,
    /// How many of them have begun.
    run: AtomicU64,
}

impl<C: Clock + Copy, W: Write + Copy> Progress<C, W> {
    /// A gate for a run that hasn't begun. It writes on `stream` where that is a terminal, and
    /// nowhere else.
    pub fn new(clock: C, stream: W, is_terminal: bool) -> Self
        ensures { result.terminal ≡ then_some is_terminal stream }
    {
        Progress {
            clock,
            terminal: is_terminal.then_some(stream),
            limit: AtomicU64::new(0),
            turns: AtomicU64::new(0),
            start: AtomicU64::new(0),
            due: AtomicU64::new(u64::MAX),
            shows: AtomicBool::new(false),
            times: AtomicU64::new(0),
            run: AtomicU64::new(0),
        }
    }

    /// Shows a new line where one is due. The clock is looked at in few of the turns.
    fn look(&self, seen: &BoardView) {
        let turn = self.turns.fetch_add(1, Ordering::SeqCst);
        if turn % TURNS_A_LOOK != 0 {
            return;
        }
        if let Some(seconds) = self.seconds_if_due() {
            self.show(seen, seconds);
        }
    }

    /// How many seconds it took so far, where a line is due; then the next one is due a second later.
    fn seconds_if_due(&self) -> Option<u64> {
        let now = milliseconds(&self.clock)?;
        if now < self.due.load(Ordering::SeqCst) {
            return None;
        }
        let next = now.saturating_add(MILLISECONDS_A_LINE);
        self.due.store(next, Ordering::SeqCst);
        Some(now.saturating_sub(self.start.load(Ordering::SeqCst)) / 1000)
    }

    fn show(&self, seen: &BoardView, seconds: u64) {
        let limit = self.limit.load(Ordering::SeqCst);
        let run = self.run.load(Ordering::SeqCst);
        let times = self.times.load(Ordering::SeqCst);
        let line = line_of(total(&seen.counts), limit, seconds, run, times);
        self.show_line(&line);
    }

    fn show_line(&self, line: &ProgressLine) {
        self.shows.store(true, Ordering::SeqCst);
        self.write(line.as_bytes());
    }

    /// The first line is due in a second.
    fn start_clock(&self) {
        if let Some(now) = milliseconds(&self.clock) {
            self.start.store(now, Ordering::SeqCst);
            let first = now.saturating_add(MILLISECONDS_A_LINE);
            self.due.store(first, Ordering::SeqCst);
        }
    }

    fn write(&self, text: &[u8]) {
        if let Some(mut terminal) = self.terminal {
            // A terminal that takes no line is no reason to end the run.
            let _ = terminal.write_all(text);
        }
    }
}

impl<C: Clock + Copy, W: Write + Copy> Gate for Progress<C, W> {
    fn begin_all(&self, times: u32) {
        self.times.store(u64::from(times), Ordering::SeqCst);
    }

    fn begin(&self, limit: u32) {
        self.limit.store(u64::from(limit), Ordering::SeqCst);
        let before = self.run.fetch_add(1, Ordering::SeqCst);
        if before > 0 && self.times.load(Ordering::SeqCst) > 0 {
            return;
        }
        self.start_clock();
    }

    fn begin_rounds(&self) {
        self.start_clock();
    }

    fn at_step(&self, steps: u64, going: usize) {
        if self.terminal.is_none() {
            return;
        }
        if let Some(seconds) = self.seconds_if_due() {
            self.show_line(&rounds_line_of(steps, going, seconds));
        }
    }

    fn begin_search(&self) {
        self.start_clock();
    }

    fn at_states(&self, states: u32, swept: u32) {
        if self.terminal.is_none() {
            return;
        }
        if let Some(seconds) = self.seconds_if_due() {
            self.show_line(&search_line_of(states, states.saturating_sub(swept), seconds));
        }
    }

    fn at_choices(&self, choices: u32) {
        if self.terminal.is_none() {
            return;
        }
        if let Some(seconds) = self.seconds_if_due() {
            self.show_line(&choices_line_of(choices, seconds));
        }
    }

    fn at(&self, actor: u8, point: Point, seen: &BoardView) -> bool
        ensures { result ≡ true }
    {
        if self.terminal.is_some() && actor == WATCHER && point == Point::Turn {
            self.look(seen);
        }
        true
    }

    fn end(&self) {
        if self.times.load(Ordering::SeqCst) == 0 {
            self.end_all();
        }
    }

    fn end_all(&self) {
        if self.shows.swap(false, Ordering::SeqCst) {
            self.write(CLEARED);
        }
    }
}

/// What the clock shows, in milliseconds since its start; none where it can't be read.
fn milliseconds<C: Clock>(clock: &C) -> Option<u64> {
    let now = clock.monotonic().ok()?;
    u64::try_from(now.as_millis()).ok()
}

/// How many events these are together, as they would be counted in 64 bits.
fn total(counts: &[u64]) -> u64
    ensures { result ≡ sum counts.now % 2 ^ 64 }
{
    let mut all = 0_u64;
    for count in counts {
        all = all.wrapping_add(*count);
    }
    all
}

/// The line of a run with so many events, of those that it may make, after so many seconds; of one of
/// several runs, it says which.
fn line_of(events: u64, limit: u64, seconds: u64, run: u64, times: u64) -> ProgressLine
    ensures { result.bytes ≡ progress_line events limit seconds run times }
{
    let mut line = ProgressLine::new();
    push_ascii(&mut line, b'\r');
    line.push_str("smtsim: ");
    push_run(&mut line, run, times);
    push_events(&mut line, events, limit);
    push_seconds(&mut line, seconds);
    line
}

/// The line of rounds of which so many steps were made, in so many seconds.
fn rounds_line_of(steps: u64, going: usize, seconds: u64) -> ProgressLine
    ensures { result.bytes ≡ rounds_line steps going seconds }
{
    let mut line = ProgressLine::new();
    push_ascii(&mut line, b'\r');
    line.push_str("smtsim: ");
    push_steps(&mut line, steps, going);
    push_seconds(&mut line, seconds);
    line
}

/// How many steps there are, and how many harts go.
fn push_steps(line: &mut ProgressLine, steps: u64, going: usize)
    requires { array_string_len line.old ≤ 16 }
    ensures spelled { line.new.bytes ≡ line.old.bytes ++ steps_text steps going }
    ensures length { array_string_len line.new ≤ 130 }
{
    push_decimal(line, steps);
    line.push_str(" steps, ");
    push_decimal(line, going);
    line.push_str(" harts going, ");
}

/// The line of a search that has found so many states, of which so many are still to be looked at, in so many
/// seconds.
fn search_line_of(states: u32, left: u32, seconds: u64) -> ProgressLine
    ensures { result.bytes ≡ search_line states left seconds }
{
    let mut line = ProgressLine::new();
    push_ascii(&mut line, b'\r');
    line.push_str("smtsim: ");
    push_states(&mut line, states, left);
    push_seconds(&mut line, seconds);
    line
}

/// How many states there are, and how many of them are still to be looked at.
fn push_states(line: &mut ProgressLine, states: u32, left: u32)
    requires { array_string_len line.old ≤ 16 }
    ensures spelled { line.new.bytes ≡ line.old.bytes ++ states_text states left }
    ensures length { array_string_len line.new ≤ 130 }
{
    push_decimal(line, states);
    line.push_str(" states, ");
    push_decimal(line, left);
    line.push_str(" to look at, ");
}

/// The line of a search for executions that has tried so many choices, in so many seconds.
fn choices_line_of(choices: u32, seconds: u64) -> ProgressLine
    ensures { result.bytes ≡ choices_line choices seconds }
{
    let mut line = ProgressLine::new();
    push_ascii(&mut line, b'\r');
    line.push_str("smtsim: ");
    push_choices(&mut line, choices);
    push_seconds(&mut line, seconds);
    line
}

/// How many choices there are.
fn push_choices(line: &mut ProgressLine, choices: u32)
    requires { array_string_len line.old ≤ 16 }
    ensures spelled { line.new.bytes ≡ line.old.bytes ++ choices_text choices }
    ensures length { array_string_len line.new ≤ 130 }
{
    push_decimal(line, choices);
    line.push_str(" choices, ");
}

/// How many events there are, out of how many.
fn push_events(line: &mut ProgressLine, events: u64, limit: u64)
    requires { array_string_len line.old ≤ 70 }
    ensures spelled { line.new.bytes ≡ line.old.bytes ++ events_text events limit }
    ensures length { array_string_len line.new ≤ 130 }
{
    push_decimal(line, events);
    line.push_str(" of ");
    push_decimal(line, limit);
    line.push_str(" events, ");
}

/// How many seconds all took so far, and nothing behind them.
fn push_seconds(line: &mut ProgressLine, seconds: u64)
    requires { array_string_len line.old ≤ 130 }
    ensures { line.new.bytes ≡ line.old.bytes ++ seconds_text seconds }
{
    push_decimal(line, seconds);
    line.push_str(" s");
    push_ascii(line, 27);
    line.push_str("[K");
}

/// Which of several runs it is.
fn push_run(line: &mut ProgressLine, run: u64, times: u64)
    requires { array_string_len line.old ≤ 16 }
    ensures spelled { line.new.bytes ≡ line.old.bytes ++ run_text run times }
    ensures length { array_string_len line.new ≤ 70 }
{
    if times == 0 {
        return;
    }
    line.push_str("run ");
    push_decimal(line, run);
    line.push_str(" of ");
    push_decimal(line, times);
    line.push_str(", ");
}
