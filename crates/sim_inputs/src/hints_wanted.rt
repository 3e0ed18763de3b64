//! When hints are told behind a fault: what `--hints` says.

ghost use Rattle.std.specs.Prelude.{◌≡◌, option_map};
ghost use Rattle.sim_inputs.specs.HintsWanted.{hints_in, hints_named, form_of};

use hints::Form;

/// When a hint is told behind a fault, and how.
#[derive(Clone, Copy, Debug, PartialEq, Eq, Drop)]
pub enum HintsWanted {
    /// In lines, where standard error is a terminal.
    Auto,
    /// In lines.
    Always,
    /// Never.
    Never,
    /// As a JSON object.
    Json,
}

impl HintsWanted {
    /// What `--hints` says with this word; none where it is none of its words.
    pub(crate) fn named(word: &str) -> Option<Self>
        ensures { result ≡ hints_named word.now }
    {
        match word {
            "auto" => Some(HintsWanted::Auto),
            "always" => Some(HintsWanted::Always),
            "never" => Some(HintsWanted::Never),
            "json" => Some(HintsWanted::Json),
            _ => None,
        }
    }

    /// What it says with this word, or without one; none where it is none of its words.
    pub(crate) fn of(word: Option<&str>) -> Option<Self>
        ensures { result ≡ hints_in (option_map (λ text. text.now) word.entry) }
    {
        match word {
            Some(word) => HintsWanted::named(word),
            None => Some(HintsWanted::Auto),
        }
    }

    /// How a hint is written; none where it isn't.
    pub fn form(self, on_terminal: bool) -> Option<Form>
        ensures { result ≡ form_of self on_terminal }
    {
        match self {
            HintsWanted::Auto if on_terminal => Some(Form::Lines),
            HintsWanted::Always => Some(Form::Lines),
            HintsWanted::Json => Some(Form::Json),
            HintsWanted::Auto | HintsWanted::Never => None,
        }
    }
}

/// What words say of hints that are a wrong command line: the last `--hints WORD` or `--hints=WORD` before
/// `--` that has one of its words; `Auto` where there is none.
pub fn hints_asked(words: &[&str]) -> HintsWanted {
    let mut asked = HintsWanted::Auto;
    let mut is_behind = false;
    for word in words {
        if *word == "--" {
            break;
        }
        asked = asked_with(asked, is_behind, word);
        is_behind = *word == "--hints";
    }
    asked
}

/// What is asked for with one word more, which may stand right behind `--hints`.
fn asked_with(asked: HintsWanted, is_behind: bool, word: &str) -> HintsWanted {
    let value = match word.strip_prefix("--hints=") {
        None if is_behind => Some(word),
        value => value,
    };
    match value {
        Some(value) => HintsWanted::named(value).unwrap_or(asked),
        None => asked,
    }
}
