//! Why a name comes to no test, and why a text is no summary.

use crate::file_fault::{Doing, FileFault, add_cause};
use crate::inside_text::add_line;
use crate::named_files::add_second_of;
use command_parts::Inputs;
use hints::{Hint, Part};
use litmus_suites::NoTest;
use sim_inputs::Line;
use std::alloc::{AllocError, Global};

/// Adds why what has this path comes to no test, and why it can't be read, where that is so.
pub fn add_absent_test(
    path: &[u8],
    why: NoTest,
    cause: Option<FileFault>,
    hint: &mut Hint,
    alloc: Global,
) -> Result<(), AllocError> {
    let mut file = Vec::new(alloc);
    file.extend_from_slice(role_of(why).as_bytes())?;
    file.extend_from_slice(path)?;
    hint.add(Part::File, file.as_slice())?;
    match why {
        NoTest::File => match cause {
            Some(cause) => add_cause(cause, Doing::Reading, hint, alloc),
            None => hint.add(Part::Cause, b"a name that isn't UTF-8"),
        },
        NoTest::Memory => hint.add(Part::For, b"the bytes of this file, or its name"),
        NoTest::Empty => hint.add(
            Part::Cause,
            b"a folder without a file *.litmus, or a list without a name",
        ),
        NoTest::List(number, fault) => {
            let place = format!(in alloc; "line {number}")?;
            hint.add(Part::Place, place.as_bytes())?;
            let cause = fault.to_string(alloc)?;
            hint.add(Part::Cause, cause.as_bytes())
        }
    }
}

/// What is read at the path.
fn role_of(why: NoTest) -> &'static str {
    match why {
        NoTest::List(_, _) => "read as a list of tests: ",
        NoTest::Empty => "read as tests: ",
        NoTest::File | NoTest::Memory => "read as the litmus test: ",
    }
}

/// Adds which line of the summary that is expected is none.
pub fn add_summary_fault(
    number: usize,
    line: &Line<'_>,
    inputs: &Inputs<'_>,
    hint: &mut Hint,
    alloc: Global,
) -> Result<(), AllocError> {
    add_second_of(line, hint, alloc)?;
    if let Ok(text) = inputs.second {
        add_line(text, number, hint, alloc)?;
    }
    hint.add(
        Part::Expected,
        b"lines as --summary prints them: MP Never 0 3 No",
    )
}
