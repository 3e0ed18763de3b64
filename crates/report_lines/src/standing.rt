//! How each hart stands, and the bytes that were put out.

ghost use Rattle.std.specs.Prelude.{◌≡◌, ◌+◌, ◌≤◌, ◌++◌, flat_map, OnOk};
ghost use Rattle.std.specs.Io.KnownBytes.{Appends};
ghost use Rattle.arrayvec.specs.ArrayString.{array_string_len};
ghost use Rattle.text_fields.specs.Spelling.{hex};
ghost use Rattle.report_lines.specs.Lines.{status_text, hart_line, hart_lines, output_line};
ghost use Rattle.report_lines.specs.Lines.{end_text, plain_report_text};

use crate::line::{Line, report_count};
use arrayvec::ArrayString;
use smt_model::Status;
use std::io;
use std::io::Write;
use text_fields::{push_ascii, push_decimal, push_hex};

/// Writes how many steps of the plain machine there are, how each hart stands behind them, and the
/// output's bytes in hexadecimal. Where it answers Ok, it has written exactly these lines.
pub fn report_standing<W: Write>(
    retired: u64,
    statuses: &[Status],
    output: &[u8],
    out: &mut W,
) -> io::Result<()>
    ensures { OnOk result (Appends (W.contents out.old) (W.contents out.new)
        (plain_report_text retired statuses.now output.now)) }
{
    report_count("retired", retired, out)?;
    report_end(statuses, output, out)
}

/// Writes how a simulation has ended, as a report tells it: how each hart stands, and the output's
/// bytes in hexadecimal.
pub fn report_end<W: Write>(statuses: &[Status], output: &[u8], out: &mut W) -> io::Result<()>
    ensures { OnOk result
        (Appends (W.contents out.old) (W.contents out.new) (end_text statuses.now output.now)) }
{
    report_harts(statuses, out)?;
    report_output(output, out)
}

fn report_harts<W: Write>(statuses: &[Status], out: &mut W) -> io::Result<()>
    ensures { OnOk result
        (Appends (W.contents out.old) (W.contents out.new) (hart_lines 0 statuses.now)) }
{
    for (hart, status) in statuses.iter().enumerate() {
        report_hart(hart, *status, out)?;
    }
    Ok(())
}

fn report_hart<W: Write>(hart: usize, status: Status, out: &mut W) -> io::Result<()>
    ensures { OnOk result
        (Appends (W.contents out.old) (W.contents out.new) (hart_line hart status)) }
{
    let mut line = Line::new();
    line.push_str("hart ");
    push_decimal(&mut line, hart);
    push_status(&mut line, status);
    push_ascii(&mut line, b'\n');
    out.write_all(line.as_bytes())
}

fn push_status(line: &mut Line, status: Status)
    requires { array_string_len line.old + 17 ≤ 64 }
    ensures spelled { line.new.bytes ≡ line.old.bytes ++ status_text status }
    ensures length { array_string_len line.new ≤ array_string_len line.old + 17 }
{
    match status {
        Status::Going => line.push_str(" going"),
        Status::Ended(number) => {
            line.push_str(" ended ");
            push_decimal(line, number);
        }
        Status::Stopped(cause) => {
            line.push_str(" stopped ");
            push_decimal(line, cause);
        }
    }
}

fn report_output<W: Write>(output: &[u8], out: &mut W) -> io::Result<()>
    ensures { OnOk result
        (Appends (W.contents out.old) (W.contents out.new) (output_line output.now)) }
{
    if output.is_empty() {
        return out.write_all(b"output -\n");
    }
    out.write_all(b"output ")?;
    write_bytes(output, out)?;
    out.write_all(b"\n")
}

/// Writes bytes, two hexadecimal digits each.
pub fn write_bytes<W: Write>(bytes: &[u8], out: &mut W) -> io::Result<()>
    ensures { OnOk result
        (Appends (W.contents out.old) (W.contents out.new) (flat_map (hex 2) bytes.now)) }
{
    for byte in bytes {
        write_byte(*byte, out)?;
    }
    Ok(())
}

fn write_byte<W: Write>(byte: u8, out: &mut W) -> io::Result<()>
    ensures { OnOk result (Appends (W.contents out.old) (W.contents out.new) (hex 2 byte)) }
{
    let mut digits = ArrayString::<2>::new();
    push_hex(&mut digits, u32::from(byte), 2);
    out.write_all(digits.as_bytes())
}
