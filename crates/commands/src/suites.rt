//! All that the program does with a line of several litmus tests.

ghost use Rattle.std.specs.Prelude.{◌≡◌, IfErr, IfOk};
ghost use Rattle.command_parts.specs.Inputs.{as_read, OfFile, OfSettings, Read};
ghost use Rattle.sim_inputs.specs.Configuration.{IsConfiguration};
ghost use Rattle.sim_inputs.specs.declared.line.LitmusCommand.{LitmusCommand as AnyLitmus};
ghost use Rattle.plain_commands.specs.Suite.{IsKnown};
ghost use Rattle.commands.specs.Suites.{IsSuiteLineFault, IsSuiteLineRefusal, IsTellingOf, SuiteLineComesTo, suite_status_of};

use actors::Gate;
use command_parts::{Context, Inputs, Refused, Unread, settings_of};
use litmus_suites::{Counts, Differences, Expectation, SummaryRefused};
use plain_commands::{LineTelling, Telling, TestSource, perform_suite};
use sim_inputs::{LitmusCommand, Settings};
use std::alloc::Global;
use std::io::Write;
use thiserror::Error;

/// Why a line of several tests isn't performed, or not to its end.
#[derive(Clone, Copy, Debug, PartialEq, Eq, Drop, Error)]
pub enum SuiteRefused {
    /// For this, which every line may be refused for.
    #[error("{0}")]
    Line(Refused),
    /// This line of the summary that is expected, from 1, is the first that is none.
    #[error("summary refused {0}")]
    Summary(usize),
}

impl SuiteRefused {
    /// The exit status of the program.
    pub fn exit_status(self) -> u8
        ensures status { result ≡ suite_status_of self }
        ensures known { IsKnown result }
    {
        match self {
            SuiteRefused::Line(refused) => refused.exit_status(),
            SuiteRefused::Summary(_) => 2,
        }
    }
}

/// Makes all tests of a source for a line that names several, with all flushed that is printed of them. Answers the exit
/// status: the worst of the tests, and 1 where something differs from the summary that is expected, and nothing is worse.
/// The configuration is looked at first, then the summary, then the tests.
pub fn perform_suite_line<T: TestSource, R, G: Gate, P, S, W: Write>(
    context: &mut Context<'_, R, G, P, S, W>,
    litmus: &LitmusCommand<'_>,
    inputs: &Inputs<'_>,
    source: &mut T,
) -> Result<u8, SuiteRefused>
    ensures comes { IfOk result (SuiteLineComesTo T.gives T.hears litmus.now (as_read inputs.now.config)
        (as_read inputs.now.second) source.old source.new (W.contents context.old.out) (W.contents context.new.out)) }
    ensures known { IfOk result IsKnown }
    ensures refused { IfErr result
        (IsSuiteLineRefusal litmus.now (as_read inputs.now.config) (as_read inputs.now.second)) }
{
    let alloc = context.alloc;
    let settings = match settings_in(inputs.config, alloc) {
        Ok(settings) => settings,
        Err(refused) => return Err(SuiteRefused::Line(refused)),
    };
    let mut telling = match telling_of(litmus, inputs.second, alloc) {
        Ok(telling) => telling,
        Err(refused) => return Err(refused),
    };
    let gate = context.gate;
    match perform_suite(
        source,
        litmus,
        &mut telling,
        &settings,
        gate,
        &mut context.out,
        alloc,
    ) {
        Ok(status) => Ok(status),
        Err(refused) => Err(SuiteRefused::Line(refused)),
    }
}

/// What is printed of the tests, where the summary is accepted that is expected. It is refused behind any configuration
/// of a core.
fn telling_of<'a>(
    litmus: &LitmusCommand<'_>,
    summary: Result<&'a [u8], Unread>,
    alloc: Global,
) -> Result<Telling<'a>, SuiteRefused>
    ensures telling { IfOk result (IsTellingOf litmus.now (as_read summary.entry)) }
    ensures refused { IfErr result (λ why. (config : Read) → OfSettings config (λ settings. Unit {0})
        → IsSuiteLineRefusal litmus.now config (as_read summary.entry) why) }
{
    if litmus.summary {
        return Ok(Telling::Lines(LineTelling::Summary(Counts::NONE)));
    }
    if litmus.expect.is_none() {
        return Ok(Telling::States);
    }
    let text = match summary {
        Ok(text) => text,
        Err(why) => return Err(SuiteRefused::Line(Refused::from(why))),
    };
    match Expectation::read(text, alloc) {
        Ok(expected) => Ok(Telling::Lines(LineTelling::Comparison(expected, Differences::NONE))),
        Err(SummaryRefused::Line(number)) => Err(SuiteRefused::Summary(number)),
        Err(SummaryRefused::Memory) => Err(SuiteRefused::Line(Refused::Memory)),
    }
}

/// The settings of a configuration. One that isn't of a core is refused.
fn settings_in(config: Result<&[u8], Unread>, alloc: Global) -> Result<Settings, Refused>
    ensures settings { IfOk result (λ settings. OfFile (as_read config.entry) (λ text. IsConfiguration text settings)) }
    ensures refused { IfErr result (λ reason. (litmus : AnyLitmus) (summary : Read)
        → IsSuiteLineFault litmus (as_read config.entry) summary reason) }
{
    let sizes = match config {
        Ok(sizes) => sizes,
        Err(why) => return Err(Refused::from(why)),
    };
    match settings_of(sizes, alloc) {
        Ok(settings) => Ok(settings),
        Err(refused) => Err(refused),
    }
}
