//! The text of settings.

ghost use Rattle.std.specs.Prelude.{flat_map, OnOk};
ghost use Rattle.std.specs.Io.KnownBytes.{Appends};
ghost use Rattle.text_fields.specs.Each.{each_from};
ghost use Rattle.events.specs.Roles.{every_role};
ghost use Rattle.sim_inputs.specs.Configuration.{with_harts};
ghost use Rattle.explanations.specs.ConfigText.{number_line, sizes_text, bounds_text, settings_text};
ghost use Rattle.explanations.specs.ConfigText.{actor_line, actors_text, lacking_line, lacking_text};

use sim_inputs::{HartCount, Settings};
use smt_model::{Config, Role};
use std::io;
use std::io::Write;

/// Writes each setting under its key, the actors by number; these harts in place of its own where that is given.
#[tactic(auto, unfolding(crate::specs::ConfigText::settings_text))]
pub(crate) fn write_settings<W: Write>(
    settings: &Settings,
    harts: Option<HartCount>,
    out: &mut W,
) -> io::Result<()>
    ensures { OnOk result (Appends (W.contents out.old) (W.contents out.new)
        (settings_text (with_harts harts settings.now))) }
{
    let count = match harts {
        Some(harts) => harts.count(),
        None => settings.config.harts,
    };
    write_sizes(count, &settings.config, out)?;
    write_bounds(settings, out)?;
    write_actors(settings.config.roles.as_slice(), out)
}

/// Writes the sizes of a core of so many harts.
fn write_sizes<W: Write>(harts: u8, config: &Config, out: &mut W) -> io::Result<()>
    ensures { OnOk result (Appends (W.contents out.old) (W.contents out.new)
        (sizes_text (record config.now { harts = harts }))) }
{
    write_number("harts", u64::from(harts), out)?;
    write_number("extra", u64::from(config.extra), out)?;
    write_number("queue", u64::from(config.queue), out)
}

/// Writes how much memory there is, and how far a simulation goes.
fn write_bounds<W: Write>(settings: &Settings, out: &mut W) -> io::Result<()>
    ensures { OnOk result (Appends (W.contents out.old) (W.contents out.new) (bounds_text settings.now)) }
{
    write_number("ram", u64::from(settings.ram.bytes()), out)?;
    write_number("limit", u64::from(settings.limit), out)?;
    write_number("turns", settings.turns, out)
}

/// Writes a key and its number.
fn write_number<W: Write>(key: &str, number: u64, out: &mut W) -> io::Result<()>
    ensures { OnOk result (Appends (W.contents out.old) (W.contents out.new) (number_line key.now number)) }
{
    writeln!(out, "{key} {number}")
}

/// Writes the role of each actor, and which role none has, where `run` needs one of each.
fn write_actors<W: Write>(roles: &[Role], out: &mut W) -> io::Result<()>
    ensures { OnOk result (Appends (W.contents out.old) (W.contents out.new) (actors_text roles.now)) }
{
    write_roles(roles, out)?;
    write_lacking(roles, out)
}

/// Writes the role of each actor.
fn write_roles<W: Write>(roles: &[Role], out: &mut W) -> io::Result<()>
    ensures { OnOk result (Appends (W.contents out.old) (W.contents out.new) (each_from actor_line 0 roles.now)) }
{
    for (actor, role) in roles.iter().enumerate() {
        write_role(actor, *role, out)?;
    }
    Ok(())
}

fn write_role<W: Write>(actor: usize, role: Role, out: &mut W) -> io::Result<()>
    ensures { OnOk result (Appends (W.contents out.old) (W.contents out.new) (actor_line actor role)) }
{
    writeln!(out, "actor {actor} {}", role.name())
}

/// Writes which roles no actor has.
fn write_lacking<W: Write>(roles: &[Role], out: &mut W) -> io::Result<()>
    ensures { OnOk result
        (Appends (W.contents out.old) (W.contents out.new) (flat_map (lacking_text roles.now) every_role)) }
{
    let each = [
        Role::Fetch,
        Role::Front,
        Role::Retire,
        Role::Alu,
        Role::Mul,
        Role::Mem,
    ];
    for role in &each {
        write_where_lacking(roles, *role, out)?;
    }
    Ok(())
}

fn write_where_lacking<W: Write>(roles: &[Role], role: Role, out: &mut W) -> io::Result<()>
    ensures { OnOk result (Appends (W.contents out.old) (W.contents out.new) (lacking_text roles.now role)) }
{
    if roles.contains(&role) {
        return out.write_all(b"");
    }
    write_lacking_line(role.name(), out)
}

#[tactic(auto, unfolding(crate::specs::ConfigText::lacking_line))]
fn write_lacking_line<W: Write>(name: &str, out: &mut W) -> io::Result<()>
    ensures { OnOk result (Appends (W.contents out.old) (W.contents out.new) (lacking_line name.now)) }
{
    writeln!(
        out,
        "no actor is `{name}`: `run`, which needs one of each role, refuses this"
    )
}
