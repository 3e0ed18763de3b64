//! Where the tests of a suite come from.

ghost use Rattle.std.specs.Prelude.{Option};
ghost use Rattle.command_parts.specs.declared.refused.Refused.{Refused as AnyRefused};
ghost use Rattle.litmus_suites.specs.Sources.{GivenTest, given_of};

use command_parts::Refused;
use litmus_suites::NoTest;

/// Tests, one behind the other, and who is told of those that are refused.
pub trait TestSource {
    // What the source gives next, and how it stands behind that; and how it stands once it is told.
    ghost gives: { Self → Option GivenTest → Self → Type 0 };

    ghost hears: { Self → AnyRefused → Self → Type 0 };

    /// The text of the next test, or why a name comes to none, which the source has told on standard error; none behind the
    /// last.
    fn next(&mut self) -> Option<Result<Vec<u8>, NoTest>>
        ensures { gives self.old (given_of result) self.new };

    /// Tells on standard error why the test that was given last, with this text, is refused.
    fn tell(&mut self, text: &[u8], refused: Refused)
        ensures { hears self.old refused self.new };
}
