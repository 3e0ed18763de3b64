//! Why a configuration is refused: where, what was expected, and what usually mends it.

ghost use Rattle.std.specs.Prelude.{◌≡◌, ◌++◌, ◌∷◌, [], map, get_or, codes, IfOk, OnOk, Some};
ghost use Rattle.std.specs.Io.KnownBytes.{Appends};
ghost use Rattle.shown_text.specs.Shown.{shown};
ghost use Rattle.sim_inputs.specs.Configuration.{known_keys};
ghost use Rattle.sim_inputs.specs.Explained.{name_of};
ghost use Rattle.explanations.specs.Places.{found_at, quoted_place, key_place};
ghost use Rattle.explanations.specs.ConfigRefusal.{IsTold, IsFaultHint, IsActorsHint, IsHint, config_fault_text};
ghost use Rattle.explanations.specs.ConfigRefusal.{marked, meant_text, meant_line, key_line, role_line, actors_text};
ghost use Rattle.explanations.specs.ConfigRefusal.{document_wanted, keys_wanted, names_text, role_names};
ghost use Rattle.explanations.specs.ConfigRefusal.{number_wanted, multiple_wanted, range_wanted, number_mended};
ghost use Rattle.explanations.specs.ConfigRefusal.{actors_wanted, actors_mended, no_text_line, count_text};

use crate::lines::no_memory;
use crate::near::{nearest, write_names};
use crate::place::{place_of_key, place_of_quoted, write_found};
use shown_text::write_shown;
use sim_inputs::{ActorsFault, ConfigFault, KNOWN_KEYS, NumberKey, ROLE_NAMES};
use std::alloc::{AllocError, Global};
use std::io;
use std::io::Write;

/// Which of the names that are expected was meant, by its place among them.
pub(crate) fn hint_for(fault: &ConfigFault, alloc: Global) -> Result<Option<usize>, AllocError>
    ensures { IfOk result (IsFaultHint fault.now) }
{
    match fault {
        ConfigFault::UnknownKey(key) => key_meant(key.as_str(), alloc),
        ConfigFault::Actors(why) => role_hint(why, alloc),
        ConfigFault::NoDocument { .. } => Ok(None),
        ConfigFault::Number(_) => Ok(None),
        ConfigFault::Memory => Ok(None),
    }
}

fn role_hint(why: &ActorsFault, alloc: Global) -> Result<Option<usize>, AllocError>
    ensures { IfOk result (IsActorsHint why.now) }
{
    match why {
        ActorsFault::NoRole(name) => role_meant(name.as_str(), alloc),
        ActorsFault::NoText => Ok(None),
        ActorsFault::NoList => Ok(None),
        ActorsFault::Count(_) => Ok(None),
    }
}

fn key_meant(key: &str, alloc: Global) -> Result<Option<usize>, AllocError>
    ensures { IfOk result (IsHint key.now known_keys) }
{
    nearest(key, &KNOWN_KEYS, alloc)
}

fn role_meant(name: &str, alloc: Global) -> Result<Option<usize>, AllocError>
    ensures { IfOk result (IsHint name.now role_names) }
{
    nearest(name, &ROLE_NAMES, alloc)
}

/// Writes the lines of a fault in the text of a configuration, where this name was meant.
pub(crate) fn write_config_fault<W: Write>(
    fault: &ConfigFault,
    text: &[u8],
    meant: Option<usize>,
    out: &mut W,
) -> io::Result<()>
    ensures told { OnOk result (IsTold fault.now) }
    ensures printed { OnOk result (Appends (W.contents out.old) (W.contents out.new)
        (config_fault_text text.now fault.now meant)) }
{
    match fault {
        ConfigFault::NoDocument { place, message } => {
            write_no_document(*place, message.as_str(), text, out)
        }
        ConfigFault::UnknownKey(key) => write_unknown_key(key.as_str(), text, meant, out),
        ConfigFault::Number(key) => write_number(*key, text, out),
        ConfigFault::Actors(why) => write_actors(why, text, meant, out),
        ConfigFault::Memory => Err(no_memory()),
    }
}

fn write_no_document<W: Write>(
    place: usize,
    message: &str,
    text: &[u8],
    out: &mut W,
) -> io::Result<()>
    ensures { OnOk result (Appends (W.contents out.old) (W.contents out.new)
        (found_at text.now (Some place) ++ (shown message.now ++ 10 ∷ document_wanted))) }
{
    write_found(text, Some(place), out)?;
    write_shown(message.as_bytes(), out)?;
    out.write_all(b"\n")?;
    write_document_wanted(out)
}

#[tactic(auto, unfolding(crate::specs::ConfigRefusal::document_wanted))]
fn write_document_wanted<W: Write>(out: &mut W) -> io::Result<()>
    ensures { OnOk result (Appends (W.contents out.old) (W.contents out.new) document_wanted) }
{
    out.write_all(
        b"expected: a TOML document in UTF-8, with a line such as `harts = 1` for a key\n\
        usually: a text without its quotation marks, a list without its last bracket, or a key twice\n",
    )
}

fn write_unknown_key<W: Write>(
    key: &str,
    text: &[u8],
    meant: Option<usize>,
    out: &mut W,
) -> io::Result<()>
    ensures { OnOk result (Appends (W.contents out.old) (W.contents out.new)
        (key_line text.now key.now
        ++ (meant_text key.now known_keys meant ++ (keys_wanted ++ names_text known_keys)))) }
{
    write_key_line(key, text, out)?;
    write_meant(key, &KNOWN_KEYS, meant, out)?;
    write_keys_wanted(out)?;
    write_names(&KNOWN_KEYS, out)
}

#[tactic(auto, unfolding(crate::specs::ConfigRefusal::keys_wanted))]
fn write_keys_wanted<W: Write>(out: &mut W) -> io::Result<()>
    ensures { OnOk result (Appends (W.contents out.old) (W.contents out.new) keys_wanted) }
{
    out.write_all(b"expected: no other keys than ")
}

fn write_number<W: Write>(key: NumberKey, text: &[u8], out: &mut W) -> io::Result<()>
    ensures { OnOk result (Appends (W.contents out.old) (W.contents out.new)
        (key_line text.now (name_of key) ++ (number_wanted key ++ number_mended))) }
{
    write_key_line(key.name(), text, out)?;
    write_number_wanted(key, out)?;
    write_number_mended(out)
}

fn write_number_wanted<W: Write>(key: NumberKey, out: &mut W) -> io::Result<()>
    ensures { OnOk result (Appends (W.contents out.old) (W.contents out.new) (number_wanted key)) }
{
    let (least, greatest) = (key.least(), key.greatest());
    match key {
        NumberKey::Harts => write_range(least, greatest, out),
        NumberKey::Extra => write_range(least, greatest, out),
        NumberKey::Queue => write_range(least, greatest, out),
        NumberKey::Ram => write_multiple(least, greatest, out),
        NumberKey::Limit => write_range(least, greatest, out),
        NumberKey::Turns => write_range(least, greatest, out),
    }
}

#[tactic(auto, unfolding(crate::specs::ConfigRefusal::range_wanted))]
fn write_range<W: Write>(least: u64, greatest: u64, out: &mut W) -> io::Result<()>
    ensures { OnOk result (Appends (W.contents out.old) (W.contents out.new) (range_wanted least greatest)) }
{
    writeln!(out, "expected: a whole number from {least} to {greatest}")
}

#[tactic(auto, unfolding(crate::specs::ConfigRefusal::multiple_wanted))]
fn write_multiple<W: Write>(least: u64, greatest: u64, out: &mut W) -> io::Result<()>
    ensures { OnOk result (Appends (W.contents out.old) (W.contents out.new) (multiple_wanted least greatest)) }
{
    writeln!(
        out,
        "expected: a multiple of {least} from {least} to {greatest}"
    )
}

#[tactic(auto, unfolding(crate::specs::ConfigRefusal::number_mended))]
fn write_number_mended<W: Write>(out: &mut W) -> io::Result<()>
    ensures { OnOk result (Appends (W.contents out.old) (W.contents out.new) number_mended) }
{
    out.write_all(
        b"usually: it is beyond these bounds, stands in quotation marks or has a fraction\n",
    )
}

fn write_actors<W: Write>(
    why: &ActorsFault,
    text: &[u8],
    meant: Option<usize>,
    out: &mut W,
) -> io::Result<()>
    ensures { OnOk result (Appends (W.contents out.old) (W.contents out.new)
        (actors_text text.now why.now meant ++ (actors_wanted ++ (names_text role_names ++ actors_mended)))) }
{
    write_why(why, text, meant, out)?;
    write_actors_wanted(out)?;
    write_names(&ROLE_NAMES, out)?;
    write_actors_mended(out)
}

fn write_why<W: Write>(
    why: &ActorsFault,
    text: &[u8],
    meant: Option<usize>,
    out: &mut W,
) -> io::Result<()>
    ensures { OnOk result (Appends (W.contents out.old) (W.contents out.new) (actors_text text.now why.now meant)) }
{
    match why {
        ActorsFault::NoRole(name) => write_no_role(name.as_str(), text, meant, out),
        ActorsFault::NoText => write_no_text(text, out),
        ActorsFault::NoList => write_no_list(text, out),
        ActorsFault::Count(count) => write_count(*count, text, out),
    }
}

#[tactic(auto, unfolding(crate::specs::ConfigRefusal::actors_wanted))]
fn write_actors_wanted<W: Write>(out: &mut W) -> io::Result<()>
    ensures { OnOk result (Appends (W.contents out.old) (W.contents out.new) actors_wanted) }
{
    out.write_all(b"expected: a list of 1 to 32 of ")
}

#[tactic(auto, unfolding(crate::specs::ConfigRefusal::actors_mended))]
fn write_actors_mended<W: Write>(out: &mut W) -> io::Result<()>
    ensures { OnOk result (Appends (W.contents out.old) (W.contents out.new) actors_mended) }
{
    out.write_all(
        b"usually: each name in quotation marks, as in `actors = [\"fetch\", \"front\"]`\n",
    )
}

fn write_no_role<W: Write>(
    name: &str,
    text: &[u8],
    meant: Option<usize>,
    out: &mut W,
) -> io::Result<()>
    ensures { OnOk result (Appends (W.contents out.old) (W.contents out.new)
        (role_line text.now name.now ++ meant_text name.now role_names meant)) }
{
    write_role_line(name, text, out)?;
    write_meant(name, &ROLE_NAMES, meant, out)
}

fn write_no_text<W: Write>(text: &[u8], out: &mut W) -> io::Result<()>
    ensures { OnOk result (Appends (W.contents out.old) (W.contents out.new)
        (key_line text.now (codes "actors") ++ no_text_line)) }
{
    write_key_line("actors", text, out)?;
    write_no_text_line(out)
}

#[tactic(auto, unfolding(crate::specs::ConfigRefusal::no_text_line))]
fn write_no_text_line<W: Write>(out: &mut W) -> io::Result<()>
    ensures { OnOk result (Appends (W.contents out.old) (W.contents out.new) no_text_line) }
{
    out.write_all(b"one of the list is no text\n")
}

fn write_no_list<W: Write>(text: &[u8], out: &mut W) -> io::Result<()>
    ensures { OnOk result (Appends (W.contents out.old) (W.contents out.new)
        (key_line text.now (codes "actors") ++ codes "no list\n")) }
{
    write_key_line("actors", text, out)?;
    out.write_all(b"no list\n")
}

fn write_count<W: Write>(count: usize, text: &[u8], out: &mut W) -> io::Result<()>
    ensures { OnOk result (Appends (W.contents out.old) (W.contents out.new)
        (key_line text.now (codes "actors") ++ count_text count)) }
{
    write_key_line("actors", text, out)?;
    write_count_line(count, out)
}

#[tactic(auto, unfolding(crate::specs::ConfigRefusal::count_text))]
fn write_count_line<W: Write>(count: usize, out: &mut W) -> io::Result<()>
    ensures { OnOk result (Appends (W.contents out.old) (W.contents out.new) (count_text count)) }
{
    writeln!(out, "the list has {count}")
}

/// Writes where a name stands in quotation marks, as far as that can be told, and the name.
#[tactic(auto, unfolding(crate::specs::ConfigRefusal::role_line))]
fn write_role_line<W: Write>(name: &str, text: &[u8], out: &mut W) -> io::Result<()>
    ensures { OnOk result (Appends (W.contents out.old) (W.contents out.new) (role_line text.now name.now)) }
{
    write_found(text, place_of_quoted(text, name), out)?;
    out.write_all(b"role ")?;
    write_name(name, out)?;
    out.write_all(b"\n")
}

/// Writes where a key stands, as far as that can be told, and the key.
#[tactic(auto, unfolding(crate::specs::ConfigRefusal::key_line))]
fn write_key_line<W: Write>(key: &str, text: &[u8], out: &mut W) -> io::Result<()>
    ensures { OnOk result (Appends (W.contents out.old) (W.contents out.new) (key_line text.now key.now)) }
{
    write_found(text, place_of_key(text, key), out)?;
    out.write_all(b"key ")?;
    write_name(key, out)?;
    out.write_all(b"\n")
}

/// Writes which name was meant by another one, where one is near.
fn write_meant<W: Write>(
    other: &str,
    names: &[&'static str],
    meant: Option<usize>,
    out: &mut W,
) -> io::Result<()>
    ensures { OnOk result (Appends (W.contents out.old) (W.contents out.new)
        (meant_text other.now (map (λ name. name.now) names.now) meant)) }
{
    match meant {
        Some(place) => {
            write_name(other, out)?;
            write_meant_line(name_at(names, place), out)
        }
        None => out.write_all(b""),
    }
}

/// The name at a place; an empty one where there is none.
fn name_at(names: &[&'static str], place: usize) -> &'static str
    ensures { result.now ≡ get_or (map (λ name. name.now) names.now) place [] }
{
    if place < names.len() {
        names[place]
    } else {
        ""
    }
}

#[tactic(auto, unfolding(crate::specs::ConfigRefusal::meant_line))]
fn write_meant_line<W: Write>(name: &str, out: &mut W) -> io::Result<()>
    ensures { OnOk result (Appends (W.contents out.old) (W.contents out.new) (meant_line name.now)) }
{
    writeln!(out, ": did you mean `{name}`?")
}

/// Writes a name of the text in the marks of a name, without what a terminal would follow.
fn write_name<W: Write>(name: &str, out: &mut W) -> io::Result<()>
    ensures { OnOk result (Appends (W.contents out.old) (W.contents out.new) (marked name.now)) }
{
    out.write_all(b"`")?;
    write_shown(name.as_bytes(), out)?;
    out.write_all(b"`")
}
