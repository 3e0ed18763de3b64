//! What the command `outcomes` asks, and `run --times` as it does: its question, and what is watched for that and for its
//! list.

ghost use Rattle.std.specs.Prelude.{◌≡◌, ◌≤◌, IfOk, IfErr, OnOk, All, length};
ghost use Rattle.symbols.specs.Tables.{table_of};
ghost use Rattle.outcome_queries.specs.Conditions.{Says, terms_in};
ghost use Rattle.outcome_queries.specs.Harts.{IsHartThere};
ghost use Rattle.plain_commands.specs.Questions.{IsQuestionOf, IsConditionRefused, IsTextRefused, terms_asked};
ghost use Rattle.plain_commands.specs.Outcomes.{IsAsked, IsListOf, IsListRefusal, IsWatchRefusal, IsHartRefusal};

use command_parts::Refused;
use outcome_queries::{
    Condition, ConditionRefused, Question, Terms, WatchList, absent_hart, read_condition,
    read_watch_list, terms_of, with_terms,
};
use sim_inputs::{OutcomesCommand, QuestionText};
use std::alloc::Global;
use symbols::Symbols;

/// The question of a command's words; none where none is asked.
pub fn question_of<'a>(
    text: Option<QuestionText<'a>>,
    names: &Symbols<'_>,
    alloc: Global,
) -> Result<Option<Question<'a>>, Refused>
    ensures read { IfOk result (IsQuestionOf (table_of names.now) text.entry) }
    ensures few { IfOk result (λ question. length (terms_asked question) ≤ 32) }
    ensures refused { IfErr result (IsConditionRefused (table_of names.now) text.entry) }
{
    let Some(text) = text else {
        return Ok(None);
    };
    match text {
        QuestionText::NeverStuck => Ok(Some(Question::NeverStuck)),
        QuestionText::Exists(text) => match condition_of(text, names, alloc) {
            Ok(condition) => Ok(Some(Question::Exists(condition))),
            Err(refused) => Err(refused),
        },
        QuestionText::ForAll(text) => match condition_of(text, names, alloc) {
            Ok(condition) => Ok(Some(Question::ForAll(condition))),
            Err(refused) => Err(refused),
        },
        QuestionText::Never(text) => match condition_of(text, names, alloc) {
            Ok(condition) => Ok(Some(Question::Never(condition))),
            Err(refused) => Err(refused),
        },
    }
}

/// The condition that a text says.
fn condition_of<'a>(
    text: &'a str,
    names: &Symbols<'_>,
    alloc: Global,
) -> Result<Condition<'a>, Refused>
    ensures read { IfOk result (λ condition. Says (table_of names.now) condition text.now) }
    ensures few { IfOk result (λ condition. length (terms_in condition) ≤ 32) }
    ensures refused { IfErr result (IsTextRefused (table_of names.now) text.now) }
{
    match read_condition(text.as_bytes(), names, alloc) {
        Ok(condition) => Ok(condition),
        Err(ConditionRefused::Text(why)) => Err(Refused::Condition(why)),
        Err(ConditionRefused::Memory) => Err(Refused::Memory),
    }
}

/// The terms of a question's condition; none where it has none.
pub fn terms_asked<'a>(question: &Option<Question<'a>>) -> Terms<'a>
    requires { length (terms_asked question.now) ≤ 32 }
    ensures { result.items ≡ terms_asked question.now }
{
    match question {
        Some(Question::Exists(condition)) => terms_of(condition),
        Some(Question::ForAll(condition)) => terms_of(condition),
        Some(Question::Never(condition)) => terms_of(condition),
        Some(Question::NeverStuck) | None => Terms::new(),
    }
}

/// Refuses a condition that names a hart which isn't there.
pub fn see_harts(terms: &Terms<'_>, harts: u8) -> Result<(), Refused>
    ensures there { OnOk result (All (IsHartThere harts) terms.now.items) }
    ensures refused { IfErr result (IsHartRefusal harts terms.now.items) }
{
    match absent_hart(terms.as_slice(), harts) {
        None => Ok(()),
        Some(hart) => Err(Refused::NoHart(u32::from(hart))),
    }
}

/// What is watched for the list and the terms of a command.
pub(crate) fn watched_for<'a>(
    command: &OutcomesCommand<'a>,
    names: &Symbols<'_>,
    terms: &Terms<'a>,
) -> Result<WatchList<'a>, Refused>
    ensures asked { IfOk result (λ all. IsAsked (table_of names.now) command.now all.items terms.now.items) }
    ensures refused { IfErr result (IsWatchRefusal (table_of names.now) command.now terms.now.items) }
{
    let list = match list_of(command, names) {
        Ok(list) => list,
        Err(refused) => return Err(refused),
    };
    match with_terms(list.as_slice(), terms.as_slice()) {
        Some(all) => Ok(all),
        None => Err(Refused::ManyWatched),
    }
}

/// What the list of a command names; nothing where there is no list.
fn list_of<'a>(command: &OutcomesCommand<'a>, names: &Symbols<'_>) -> Result<WatchList<'a>, Refused>
    ensures read { IfOk result (λ list. IsListOf (table_of names.now) command.now.watch list.items) }
    ensures refused { IfErr result (IsListRefusal (table_of names.now) command.now) }
{
    let Some(text) = command.watch else {
        return Ok(WatchList::new());
    };
    match read_watch_list(text.as_bytes(), names) {
        Ok(list) => Ok(list),
        Err(why) => Err(Refused::Watch(why)),
    }
}
