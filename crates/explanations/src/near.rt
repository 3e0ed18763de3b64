//! Which of some names was meant by another text.

ghost use Rattle.std.specs.Prelude.{◌≡◌, ◌<◌, ◌≤◌, ◌-◌, ◌^◌, false, ◌++◌, ◌∷◌, [], map, IfOk, OnOk, IsTrue};
ghost use Rattle.std.specs.Int.{div_ceil};
ghost use Rattle.std.specs.Io.KnownBytes.{Appends};
ghost use Rattle.text_fields.specs.Each.{each_from};
ghost use Rattle.explanations.specs.ConfigRefusal.{IsHint, listed};

use std::alloc::{AllocError, Global};
use std::io;
use std::io::Write;
use strsim::osa_distance;

/// The place of the name that is the nearest to a text, if one is near: at most a third of its letters, rounded up,
/// are missing, exchanged or too many.
pub(crate) fn nearest(
    text: &str,
    names: &[&'static str],
    alloc: Global,
) -> Result<Option<usize>, AllocError>
    ensures { IfOk result (IsHint text.now (map (λ name. name.now) names.now)) }
{
    let mut nearest = None;
    let mut least = usize::MAX;
    for (place, name) in names.iter().enumerate() {
        let distance = osa_distance(alloc, text, name)?;
        if is_nearer(distance, least, name.len()) {
            least = distance;
            nearest = Some(place);
        }
    }
    Ok(nearest)
}

/// Whether a name of so many letters is near at this distance, and nearer than at another one.
fn is_nearer(distance: usize, least: usize, letters: usize) -> bool
    ensures near { IsTrue result → (distance < least) × (distance ≤ div_ceil letters 3) }
    ensures far { result ≡ false → distance ≤ div_ceil letters 3 → (least ≤ distance) × (distance < 2 ^ 64 - 1) }
{
    distance < least && distance <= letters.div_ceil(3)
}

/// Writes the names with commas between, in quotation marks as keys have them in a page.
pub(crate) fn write_names<W: Write>(names: &[&'static str], out: &mut W) -> io::Result<()>
    ensures { OnOk result (Appends (W.contents out.old) (W.contents out.new)
        (each_from (λ place name. listed place name.now) 0 names.now ++ 10 ∷ [])) }
{
    write_each(names, out)?;
    out.write_all(b"\n")
}

fn write_each<W: Write>(names: &[&'static str], out: &mut W) -> io::Result<()>
    ensures { OnOk result (Appends (W.contents out.old) (W.contents out.new)
        (each_from (λ place name. listed place name.now) 0 names.now)) }
{
    for (place, name) in names.iter().enumerate() {
        write_listed(place, name, out)?;
    }
    Ok(())
}

fn write_listed<W: Write>(place: usize, name: &str, out: &mut W) -> io::Result<()>
    ensures { OnOk result (Appends (W.contents out.old) (W.contents out.new) (listed place name.now)) }
{
    if place > 0 {
        out.write_all(b", ")?;
    }
    write!(out, "`{name}`")
}
