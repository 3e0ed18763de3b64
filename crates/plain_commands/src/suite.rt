//! Many litmus tests, made one behind the other.

ghost use Rattle.std.specs.Prelude.{IfErr, IfOk, Ok};
ghost use Rattle.litmus_suites.specs.Sources.{text_of};
ghost use Rattle.plain_commands.specs.Suite.{AllHaveCome, CameOf, IsSuiteRefusal, SuiteComesTo};

use crate::telling::Telling;
use crate::test_source::TestSource;
use actors::Gate;
use command_parts::Refused;
use litmus_suites::{NoTest, worse};
use sim_inputs::{LitmusCommand, Settings};
use std::alloc::Global;
use std::io::Write;

/// Makes all tests of a source, one behind the other, of these settings with each test's harts, and prints of each what
/// `telling` wants, and behind them what that adds. A test that is refused is told to the source, and the others are
/// made. One test is held at a time, and what is printed of it is flushed.
///
/// Answers the worst exit status of the tests, and of what comes behind them. `Output` is answered where `out` failed;
/// then no other test is made.
pub fn perform_suite<T: TestSource, G: Gate, W: Write>(
    source: &mut T,
    command: &LitmusCommand<'_>,
    telling: &mut Telling<'_>,
    settings: &Settings,
    gate: &G,
    out: &mut W,
    alloc: Global,
) -> Result<u8, Refused>
    ensures comes { IfOk result (SuiteComesTo T.gives T.hears settings.now command.now source.old source.new telling.old
        (W.contents out.old) (W.contents out.new)) }
    ensures refused { IfErr result IsSuiteRefusal }
{
    let status = match perform_tests(source, command, telling, settings, gate, out, alloc) {
        Ok(status) => status,
        Err(refused) => return Err(refused),
    };
    let last = match telling.finish(out) {
        Ok(last) => last,
        Err(refused) => return Err(refused),
    };
    match out.flush() {
        Ok(()) => Ok(worse(status, last)),
        Err(_) => Err(Refused::Output),
    }
}

/// Makes all tests of a source, and prints what is wanted of each. Answers their worst exit status.
fn perform_tests<T: TestSource, G: Gate, W: Write>(
    source: &mut T,
    command: &LitmusCommand<'_>,
    telling: &mut Telling<'_>,
    settings: &Settings,
    gate: &G,
    out: &mut W,
    alloc: Global,
) -> Result<u8, Refused>
    ensures comes { IfOk result (AllHaveCome T.gives T.hears settings.now command.now source.old source.new
        telling.old telling.new (W.contents out.old) (W.contents out.new)) }
    ensures refused { IfErr result IsSuiteRefusal }
{
    let mut status = 0;
    // Counted, so that it provably ends. No source has 2^64 tests: their names take memory.
    for _turn in 0..u64::MAX {
        let Some(given) = source.next() else {
            return Ok(status);
        };
        match perform_given(given, source, command, telling, settings, gate, out, alloc) {
            Ok(came) => status = worse(status, came),
            Err(refused) => return Err(refused),
        }
    }
    Err(Refused::Memory)
}

/// Makes a test that a source has given. Answers its exit status.
fn perform_given<T: TestSource, G: Gate, W: Write>(
    given: Result<Vec<u8>, NoTest>,
    source: &mut T,
    command: &LitmusCommand<'_>,
    telling: &mut Telling<'_>,
    settings: &Settings,
    gate: &G,
    out: &mut W,
    alloc: Global,
) -> Result<u8, Refused>
    ensures comes { IfOk result (CameOf T.hears settings.now command.now (text_of given) source.old source.new
        telling.old telling.new (W.contents out.old) (W.contents out.new)) }
    ensures refused { IfErr result IsSuiteRefusal }
{
    match given {
        Ok(text) => perform_text(
            text.as_slice(),
            source,
            command,
            telling,
            settings,
            gate,
            out,
            alloc,
        ),
        Err(why) => {
            telling.count_refused();
            Ok(why.exit_status())
        }
    }
}

/// Makes the test that a text is, which a source has given. Answers its exit status.
fn perform_text<T: TestSource, G: Gate, W: Write>(
    text: &[u8],
    source: &mut T,
    command: &LitmusCommand<'_>,
    telling: &mut Telling<'_>,
    settings: &Settings,
    gate: &G,
    out: &mut W,
    alloc: Global,
) -> Result<u8, Refused>
    ensures comes { IfOk result (CameOf T.hears settings.now command.now (Ok text.now) source.old source.new
        telling.old telling.new (W.contents out.old) (W.contents out.new)) }
    ensures refused { IfErr result IsSuiteRefusal }
{
    match telling.make(text, command, settings, gate, out, alloc) {
        Ok(status) => match out.flush() {
            Ok(()) => Ok(status),
            Err(_) => Err(Refused::Output),
        },
        Err(Refused::Output) => Err(Refused::Output),
        Err(refused) => {
            telling.count_refused();
            source.tell(text, refused);
            Ok(refused.exit_status())
        }
    }
}
