//! The spelling of numbers, of addresses, and of what is looked at.

ghost use Rattle.std.specs.Prelude.{◌≡◌, ◌-◌, ◌++◌, codes, slice_get, OnOk, option_map};
ghost use Rattle.std.specs.Fmt.{decimal};
ghost use Rattle.std.specs.Io.KnownBytes.{Appends};
ghost use Rattle.litmus_text.specs.Value.{address_text, indexed_text, located_text, location_at};
ghost use Rattle.litmus_text.specs.Value.{location_by, number_text, observed_text, offset_text, register_text};
ghost use Rattle.litmus_text.specs.Value.{signed_below, signed_of, typed_text, value_text};

use arrayvec::ArrayString;
use elf_image::RAM_START;
use litmus_tests::{Element, LitmusTest, Location, NumberType, Observed, Value, beginning_at};
use numbers::Reg;
use std::io;
use std::io::Write;
use text_fields::{push_ascii, push_decimal, push_small_number};
use watched_outcomes::Width;

/// Room for a number, and for a register of a hart.
type Part = ArrayString<32>;

/// Writes a number of this type: as an address, where it is one of the locations'.
pub(crate) fn write_number<W: Write>(
    test: &LitmusTest,
    number_type: NumberType,
    number: u32,
    out: &mut W,
) -> io::Result<()>
    ensures { OnOk result (Appends (W.contents out.old) (W.contents out.new)
        (number_text test.now number_type number)) }
{
    match location_by(test, number) {
        Some(location) => write_place(location, number.saturating_sub(RAM_START) as usize, out),
        None => write_typed(number_type, number, out),
    }
}

/// The location or the array in which the byte with this address is.
fn location_by(test: &LitmusTest, number: u32) -> Option<&Location>
    ensures { option_map (λ location. location.now) result ≡ location_by test.now number }
{
    if number < RAM_START {
        return None;
    }
    location_at(test, (number - RAM_START) as usize)
}

/// The location or the array in which a byte is, by what begins its word.
fn location_at(test: &LitmusTest, byte: usize) -> Option<&Location>
    ensures { option_map (λ location. location.now) result ≡ location_at test.now byte }
{
    beginning_at(&test.locations, 4 * (byte / 4))
}

/// Writes a byte of a location or an array: its name, and how far behind its begin.
fn write_place<W: Write>(location: &Location, byte: usize, out: &mut W) -> io::Result<()>
    ensures { OnOk result (Appends (W.contents out.old) (W.contents out.new)
        (location.now.name.items ++ offset_text (byte - location.now.begin))) }
{
    out.write_all(location.name.as_slice())?;
    write_offset(byte.saturating_sub(location.begin), out)
}

fn write_offset<W: Write>(offset: usize, out: &mut W) -> io::Result<()>
    ensures { OnOk result (Appends (W.contents out.old) (W.contents out.new) (offset_text offset)) }
{
    if offset == 0 {
        return Ok(());
    }
    let mut part = Part::new();
    part.push_str("+");
    push_decimal(&mut part, offset);
    out.write_all(part.as_bytes())
}

/// Writes a number as its type says.
fn write_typed<W: Write>(number_type: NumberType, number: u32, out: &mut W) -> io::Result<()>
    ensures { OnOk result (Appends (W.contents out.old) (W.contents out.new)
        (typed_text number_type number)) }
{
    if number_type.is_signed {
        write_signed(number_type.width, number, out)
    } else {
        write_decimal(number, out)
    }
}

fn write_decimal<W: Write>(number: u32, out: &mut W) -> io::Result<()>
    ensures { OnOk result (Appends (W.contents out.old) (W.contents out.new) (decimal number)) }
{
    let mut part = Part::new();
    push_decimal(&mut part, number);
    out.write_all(part.as_bytes())
}

/// Writes a number of so many bits with its sign.
fn write_signed<W: Write>(width: Width, number: u32, out: &mut W) -> io::Result<()>
    ensures { OnOk result (Appends (W.contents out.old) (W.contents out.new) (signed_of width number)) }
{
    match width {
        Width::Byte => write_signed_below(0x100, number, out),
        Width::Half => write_signed_below(0x1_0000, number, out),
        Width::Word => write_signed_below(0x1_0000_0000, number, out),
    }
}

/// Writes a number below this one with its sign.
fn write_signed_below<W: Write>(below: u64, number: u32, out: &mut W) -> io::Result<()>
    ensures { OnOk result (Appends (W.contents out.old) (W.contents out.new)
        (signed_below below number)) }
{
    let number = u64::from(number);
    let mut part = Part::new();
    if number < below / 2 {
        push_decimal(&mut part, number);
    } else {
        push_ascii(&mut part, b'-');
        push_decimal(&mut part, below.saturating_sub(number));
    }
    out.write_all(part.as_bytes())
}

/// Writes a value as the condition has it.
pub(crate) fn write_value<W: Write>(test: &LitmusTest, value: Value, out: &mut W) -> io::Result<()>
    ensures { OnOk result (Appends (W.contents out.old) (W.contents out.new)
        (value_text test.now value)) }
{
    match value {
        Value::Number(number) => write_signed(Width::Word, number, out),
        Value::Address(byte) => write_address(test, byte, out),
    }
}

/// Writes the address of a byte of the locations; nothing where it isn't there.
fn write_address<W: Write>(test: &LitmusTest, byte: usize, out: &mut W) -> io::Result<()>
    ensures { OnOk result (Appends (W.contents out.old) (W.contents out.new)
        (address_text test.now byte)) }
{
    match location_at(test, byte) {
        Some(location) => write_place(location, byte, out),
        None => Ok(()),
    }
}

/// Writes what is looked at: `0:x7`, `[x]`, or `x[1]`.
pub(crate) fn write_observed<W: Write>(
    test: &LitmusTest,
    observed: Observed,
    out: &mut W,
) -> io::Result<()>
    ensures { OnOk result (Appends (W.contents out.old) (W.contents out.new)
        (observed_text test.now observed)) }
{
    match observed {
        Observed::Register { hart, register } => write_register(hart, register, out),
        Observed::Location(index) => write_located(test, index, out),
    }
}

fn write_register<W: Write>(hart: u8, register: Reg, out: &mut W) -> io::Result<()>
    ensures { OnOk result (Appends (W.contents out.old) (W.contents out.new)
        (register_text hart register)) }
{
    let mut part = Part::new();
    push_small_number(&mut part, hart);
    part.push_str(":x");
    push_small_number(&mut part, register);
    out.write_all(part.as_bytes())
}

/// Writes a location as it is looked at; nothing where there is none.
fn write_located<W: Write>(test: &LitmusTest, index: usize, out: &mut W) -> io::Result<()>
    ensures { OnOk result (Appends (W.contents out.old) (W.contents out.new)
        (located_text (slice_get test.now.locations.items index))) }
{
    match test.locations.get(index) {
        Some(location) => write_indexed(location, location.element, out),
        None => Ok(()),
    }
}

fn write_indexed<W: Write>(
    location: &Location,
    element: Option<Element>,
    out: &mut W,
) -> io::Result<()>
    ensures { OnOk result (Appends (W.contents out.old) (W.contents out.new)
        (indexed_text location.now element)) }
{
    match element {
        Some(element) => {
            out.write_all(location.name.as_slice())?;
            write_index(element.index, out)
        }
        None => write_bracket(location, out),
    }
}

fn write_index<W: Write>(index: usize, out: &mut W) -> io::Result<()>
    ensures { OnOk result (Appends (W.contents out.old) (W.contents out.new)
        (codes "[" ++ (decimal index ++ codes "]"))) }
{
    let mut part = Part::new();
    part.push_str("[");
    push_decimal(&mut part, index);
    part.push_str("]");
    out.write_all(part.as_bytes())
}

fn write_bracket<W: Write>(location: &Location, out: &mut W) -> io::Result<()>
    ensures { OnOk result (Appends (W.contents out.old) (W.contents out.new)
        (codes "[" ++ (location.now.name.items ++ codes "]"))) }
{
    out.write_all(b"[")?;
    out.write_all(location.name.as_slice())?;
    out.write_all(b"]")
}
