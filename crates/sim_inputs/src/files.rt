ghost use Rattle.std.specs.Prelude.{◌≡◌, ◌≤◌, option_map};
ghost use Rattle.sim_inputs.specs.Files.{files_of, lines_of, program_files, shows_names};
ghost use Rattle.sim_inputs.specs.Files.{written_chart, written_beside_chart, written_of_outcomes, written_order};
ghost use Rattle.sim_inputs.specs.Files.{written_beside, written_for_test};
ghost use Rattle.sim_inputs.specs.Files.{explained_beside, reads_words, reads_trace, is_trace};
ghost use Rattle.sim_inputs.specs.Files.{is_standard_input, is_undashed, input_count, reads_input_once};
ghost use Rattle.sim_inputs.specs.Files.{writes_no_dash};

use crate::line::{
    Beside, ChartCommand, Command, ExplainCommand, Line, LitmusCommand, OutcomesCommand,
    ProgramCommand,
};

/// The files that a line names: four that are read, in this order, and one or two that are written.
#[derive(Clone, Copy, Drop)]
pub struct Files<'a> {
    /// The configuration.
    pub config: Option<&'a str>,
    /// The program that the harts run: its image, or the litmus test that it is made of.
    pub program: Option<&'a str>,
    /// The script, the trace that is read, the order, or the summary that is expected.
    pub second: Option<&'a str>,
    /// The source lines of the image.
    pub lines: Option<&'a str>,
    /// The file that is written: the trace of a core or of a migration, a chart, an order, its script or its story, a
    /// picture of that, one of why, or what is made of a litmus test.
    pub written: Option<&'a str>,
    /// A second one that is written, where there is one: a chart's log beside its picture.
    pub beside: Option<&'a str>,
}

impl<'a> ChartCommand<'a> {
    /// The file that the chart is written to, of two the picture; none where it is printed.
    pub fn written(&self) -> Option<&'a str>
        ensures { result ≡ written_chart self.now }
    {
        if self.svg.is_some() {
            return self.svg;
        }
        self.kanata
    }

    /// The file of its log, where a picture is written too.
    pub fn written_beside(&self) -> Option<&'a str>
        ensures { result ≡ written_beside_chart self.now }
    {
        if self.svg.is_some() {
            return self.kanata;
        }
        None
    }
}

impl<'a> OutcomesCommand<'a> {
    /// The file that the picture of why is written to, or what is written of an order; none where nothing is written.
    pub fn written(&self) -> Option<&'a str>
        ensures { result ≡ written_of_outcomes self.now }
    {
        if self.svg.is_some() {
            return self.svg;
        }
        self.written_order()
    }

    /// The file that an order, its script, its story or a picture of that is written to; none where no order is
    /// written.
    pub fn written_order(&self) -> Option<&'a str>
        ensures { result ≡ written_order self.now }
    {
        if self.witness.is_some() {
            return self.witness;
        }
        if self.script.is_some() {
            return self.script;
        }
        if self.story.is_some() {
            return self.story;
        }
        self.story_svg
    }
}

impl<'a> LitmusCommand<'a> {
    /// The file that the test's image is written to, or the picture of why, or what is written of the order of a
    /// final state; none where nothing is written.
    pub fn written(&self) -> Option<&'a str>
        ensures { result ≡ written_for_test self.now }
    {
        if self.image.is_some() {
            return self.image;
        }
        if self.svg.is_some() {
            return self.svg;
        }
        self.order_asked().written_order()
    }
}

impl<'a> ExplainCommand<'a> {
    /// The file that is explained beside the image, if there is one.
    fn second(&self) -> Option<&'a str>
        ensures { result ≡ explained_beside self.now }
    {
        match self.beside {
            Some(Beside::Script(script)) => Some(script),
            Some(Beside::Order(order)) => Some(order),
            Some(Beside::Trace(trace)) => Some(trace),
            None => None,
        }
    }
}

impl<'a> ProgramCommand<'a> {
    /// The files that the command names, beside this configuration.
    fn files_with(&self, config: Option<&'a str>) -> Files<'a>
        ensures { result ≡ program_files config.entry self.now }
    {
        let (image, second, written) = match *self {
            ProgramCommand::Step(step) => (step.image, Some(step.script), step.trace),
            ProgramCommand::Run(run) => (run.image, None, run.trace),
            ProgramCommand::Check(check) => (check.image, Some(check.trace), None),
            ProgramCommand::Plain(plain) => (plain.image, plain.order, plain.story_svg),
            ProgramCommand::Schedule(schedule) => (schedule.image, Some(schedule.order), None),
            ProgramCommand::Script(script) => (script.image, Some(script.trace), None),
            ProgramCommand::List(list) => (list.image, None, None),
            ProgramCommand::Chart(chart) => (chart.image, Some(chart.trace), chart.written()),
            ProgramCommand::Outcomes(outcomes) => (outcomes.image, None, outcomes.written()),
        };
        Files {
            config,
            program: Some(image),
            second,
            lines: self.lines(),
            written,
            beside: self.written_beside(),
        }
    }

    /// The second file that the command writes; none where it writes one at most.
    fn written_beside(&self) -> Option<&'a str>
        ensures { result ≡ written_beside self.now }
    {
        match self {
            ProgramCommand::Chart(chart) => chart.written_beside(),
            _ => None,
        }
    }

    /// The file of source lines that the command names; none where it names none.
    pub fn lines(&self) -> Option<&'a str>
        ensures { result ≡ lines_of self.now }
    {
        match self {
            ProgramCommand::Step(step) => step.lines,
            ProgramCommand::Run(run) => run.lines,
            ProgramCommand::Check(check) => check.lines,
            ProgramCommand::Plain(plain) => plain.lines,
            ProgramCommand::List(list) => list.lines,
            ProgramCommand::Schedule(_) | ProgramCommand::Script(_) => None,
            ProgramCommand::Outcomes(outcomes) => outcomes.lines,
            ProgramCommand::Chart(_) => None,
        }
    }

    /// Whether the command shows the names of its program behind addresses.
    pub fn shows_names(&self) -> bool
        ensures { result ≡ shows_names self.now }
    {
        match self {
            ProgramCommand::Step(step) => step.names,
            ProgramCommand::Run(run) => run.names,
            ProgramCommand::Check(check) => check.names,
            ProgramCommand::Plain(plain) => plain.names,
            ProgramCommand::List(list) => list.names,
            ProgramCommand::Chart(chart) => chart.names,
            ProgramCommand::Schedule(_) | ProgramCommand::Script(_) => false,
            ProgramCommand::Outcomes(_) => false,
        }
    }
}

impl<'a> ProgramCommand<'a> {
    /// Whether its second file is a trace.
    pub fn reads_trace(&self) -> bool
        ensures { result ≡ reads_trace self.now }
    {
        matches!(
            self,
            ProgramCommand::Check(_) | ProgramCommand::Script(_) | ProgramCommand::Chart(_)
        )
    }
}

impl<'a> Beside<'a> {
    /// Whether it is a trace.
    pub fn is_trace(&self) -> bool
        ensures { result ≡ is_trace self.now }
    {
        matches!(self, Beside::Trace(_))
    }
}

impl<'a> Command<'a> {
    /// Whether its second file has words, those of a script or of an order.
    pub fn reads_words(&self) -> bool
        ensures { result ≡ reads_words self.now }
    {
        match self {
            Command::OfProgram(ProgramCommand::Step(_)) => true,
            Command::OfProgram(ProgramCommand::Plain(_)) => true,
            Command::OfProgram(ProgramCommand::Schedule(_)) => true,
            Command::Explain(explain) => matches!(
                explain.beside,
                Some(Beside::Script(_) | Beside::Order(_))
            ),
            _ => false,
        }
    }
}

impl<'a> Line<'a> {
    /// The files that the line names.
    pub fn files(&self) -> Files<'a>
        ensures { result ≡ files_of self.now }
    {
        let (program, second, written) = match self.command {
            Command::OfProgram(command) => return command.files_with(self.config),
            Command::Explain(explain) => (Some(explain.image), explain.second(), None),
            Command::Litmus(litmus) => (Some(litmus.test), litmus.expect, litmus.written()),
            Command::Migrate(migrate) => (None, Some(migrate.trace), Some(migrate.out)),
        };
        Files {
            config: self.config,
            program,
            second,
            lines: None,
            written,
            beside: None,
        }
    }
}

/// Whether this names standard input in place of a file: `-`.
pub fn is_standard_input(name: &str) -> bool
    ensures { result ≡ is_standard_input name.now }
{
    name == "-"
}

/// Whether standard input stands in place of one file that is read, at the most.
pub(crate) fn reads_input_once(line: &Line<'_>) -> bool
    ensures { result ≡ reads_input_once line.now }
{
    let files = line.files();
    input_count(files.config)
        + input_count(files.program)
        + input_count(files.second)
        + input_count(files.lines)
        <= 1
}

/// Whether no dash stands in place of a file that the line writes.
pub(crate) fn writes_no_dash(line: &Line<'_>) -> bool
    ensures { result ≡ writes_no_dash line.now }
{
    let files = line.files();
    is_undashed(files.written) && is_undashed(files.beside)
}

/// Whether no dash stands in place of this file.
fn is_undashed(file: Option<&str>) -> bool
    ensures { result ≡ is_undashed (option_map (λ name. name.now) file.entry) }
{
    match file {
        Some(name) => !is_standard_input(name),
        None => true,
    }
}

/// How often standard input stands in place of this file: once or never.
fn input_count(file: Option<&str>) -> u8
    ensures counted { result ≡ input_count (option_map (λ name. name.now) file.entry) }
    ensures once { result ≤ 1 }
{
    match file {
        Some(name) if is_standard_input(name) => 1,
        _ => 0,
    }
}
