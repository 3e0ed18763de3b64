//! Reading the line that says of what core a trace is.

ghost use Rattle.std.specs.Prelude.{◌≡◌, ◌+◌, ◌≤◌, length, IfOk, IfErr, Ok, Err};
ghost use Rattle.numbers.specs.Sizes.{most_actors};
ghost use Rattle.text_fields.specs.Splitting.{field, rest};
ghost use Rattle.event_text.specs.Core.{AreCoreSizes};
ghost use Rattle.event_text.specs.Heads.{config_of, size_field, sizes_of, role_field, roles_of};

use crate::head::TraceHeader;
use crate::read::Rule;
use arrayvec::ArrayVec;
use events::Role;
use numbers::sizes::{FEWEST_QUEUED, MOST_ACTORS, MOST_EXTRA, MOST_HARTS, MOST_QUEUED};
use text_fields::{FieldError, field_count, first_decimal, split_field};

/// The core of a line without its newline, or the first rule that the line breaks, its fields from
/// left to right.
#[tactic(auto, unfolding(crate::specs::Heads::config_of))]
pub fn read_config_line(line: &[u8]) -> Result<TraceHeader, Rule>
    ensures value { result ≡ config_of line.now }
    ensures sizes { IfOk result AreCoreSizes }
{
    let (word, fields) = split_field(line, b' ');
    if word != b"config".as_slice() {
        return Err(Rule::FirstField);
    }
    let count = field_count(fields, b' ');
    if count < 4 || count > 3 + MOST_ACTORS {
        return Err(Rule::FieldCount);
    }
    match read_sizes(count - 3, fields) {
        Ok(header) => Ok(header),
        Err(error) => Err(Rule::Field(error)),
    }
}

// The core of the fields behind the first, of which so many are roles.
#[tactic(auto, unfolding(crate::specs::Heads::sizes_of))]
fn read_sizes(actors: usize, fields: &[u8]) -> Result<TraceHeader, FieldError>
    requires { (1 ≤ actors) × (actors ≤ most_actors) }
    ensures value { result ≡ sizes_of (3 + actors) fields.now }
    ensures sizes { IfOk result AreCoreSizes }
{
    let (harts, fields) = first_size(fields, 1, u32::from(MOST_HARTS))?;
    let (extra, fields) = first_size(fields, 1, u32::from(MOST_EXTRA))?;
    let (queue, fields) = first_size(fields, u32::from(FEWEST_QUEUED), MOST_QUEUED as u32)?;
    let roles = read_roles(actors, fields)?;
    TraceHeader::new(harts as u8, extra as u16, queue as u8, roles.as_slice()).ok_or(
        FieldError::OutOfRange,
    )
}

// A number of at least `least` and at most `most`, and the fields behind it.
#[tactic(auto, unfolding(crate::specs::Heads::size_field))]
fn first_size(fields: &[u8], least: u32, most: u32) -> Result<(u32, &[u8]), FieldError>
    ensures read { IfOk result (λ p. size_field least most (field 32 fields.now) ≡ Ok p.0) }
    ensures within { IfOk result (λ p. (least ≤ p.0) × (p.0 ≤ most)) }
    ensures behind { IfOk result (λ p. p.1.now ≡ rest 32 fields.now) }
    ensures refused { IfErr result
        (λ error. size_field least most (field 32 fields.now) ≡ Err error) }
{
    let (number, behind) = first_decimal(fields, most, b' ')?;
    if number < least {
        return Err(FieldError::OutOfRange);
    }
    Ok((number, behind))
}

// So many roles, each a field.
fn read_roles(count: usize, fields: &[u8]) -> Result<ArrayVec<Role, MOST_ACTORS>, FieldError>
    requires { count ≤ most_actors }
    ensures read { IfOk result (λ roles. roles_of count fields.now ≡ Ok roles.items) }
    ensures count { IfOk result (λ roles. length roles.items ≡ count) }
    ensures refused { IfErr result (λ error. roles_of count fields.now ≡ Err error) }
{
    let mut roles = ArrayVec::new();
    let mut rest = fields;
    for _ in 0..count {
        let (name, behind) = split_field(rest, b' ');
        roles.push(read_role(name)?);
        rest = behind;
    }
    Ok(roles)
}

#[tactic(auto, unfolding(crate::specs::Heads::role_field))]
fn read_role(name: &[u8]) -> Result<Role, FieldError>
    ensures { result ≡ role_field name.now }
{
    Role::named(name).ok_or(FieldError::Misspelled)
}
