//! The style of a picture, and what stands over its lanes.

ghost use Rattle.std.specs.Prelude.{OnOk};
ghost use Rattle.std.specs.Io.KnownBytes.{Appends};
ghost use Rattle.story_pictures.specs.Style.{dark_rules, legend_text, light_rules, more_rules, rules_in_the_dark, style_text};

use crate::form::Theme;
use std::io;
use std::io::Write;

/// The colours are ones that the colour-blind can tell (Okabe and Ito, "Color Universal Design", 2008).
const LIGHT: &[u8] = b"text{font:12px monospace;fill:#1b1b1b}
.page{fill:#ffffff}
.far{fill:#5b5b5b}
.name{font:bold 13px monospace;text-anchor:middle}
.count{fill:#5b5b5b;text-anchor:end}
.lane{stroke:#c4c8ce;stroke-dasharray:2 4}
.box{fill:#f4f4f4;stroke:#8a8a8a}
.reads{fill:#e3f1fb;stroke:#0072b2}
.writes{fill:#fdeed3;stroke:#b57b00}
.both{fill:#ddf3eb;stroke:#009e73}
.over{fill:#ffffff;stroke-dasharray:5 3}
.stuck{stroke:#8e3a8c;stroke-width:2.6}
.fault{fill:#fbd9cf;stroke:#c22f00;stroke-width:3}
.mark{stroke:#ffffff;stroke-width:4;paint-order:stroke}
.over-is{fill:#5b5b5b}
.stuck-is{font:bold 12px monospace;fill:#8e3a8c}
.fault-is{font:bold 12px monospace;fill:#c22f00}
.arrow{fill:none;stroke:#6b7280;stroke-width:1.5}
.point{fill:#6b7280}
";

/// What is another colour where it is dark.
const DARK: &[u8] = b"text{fill:#ececec}
.page{fill:#16181d}
.far,.count{fill:#a2a7b0}
.lane{stroke:#434956}
.box{fill:#23262e;stroke:#747b88}
.reads{fill:#16303f;stroke:#56b4e9}
.writes{fill:#3a2e14;stroke:#e6a830}
.both{fill:#143329;stroke:#2fc79b}
.over{fill:#16181d}
.stuck{stroke:#e08fdd}
.fault{fill:#4a1d10;stroke:#ff8257}
.mark{stroke:#16181d}
.over-is{fill:#a2a7b0}
.stuck-is{fill:#e08fdd}
.fault-is{fill:#ff8257}
.arrow{stroke:#9aa3b2}
.point{fill:#9aa3b2}
";

/// The page, the point of an arrow, and what arrows and colours mean.
const LEGEND: &[u8] = b"</style>
<rect class=\"page\" width=\"100%\" height=\"100%\"/>
<marker id=\"point\" viewBox=\"0 0 8 8\" refX=\"7\" refY=\"4\" markerUnits=\"userSpaceOnUse\" markerWidth=\"11\" markerHeight=\"11\" orient=\"auto\"><path class=\"point\" d=\"M0 0L8 4L0 8z\"/></marker>
<text class=\"far\" x=\"16\" y=\"22\">Time goes down. An arrow leads from a write to each read that found its number.</text>
<text class=\"far\" x=\"16\" y=\"40\">A read without an arrow found what was there at the start.</text>
<rect class=\"box reads\" x=\"16\" y=\"52\" width=\"14\" height=\"12\"/><text class=\"far\" x=\"36\" y=\"62\">reads</text>
<rect class=\"box writes\" x=\"92\" y=\"52\" width=\"14\" height=\"12\"/><text class=\"far\" x=\"112\" y=\"62\">writes</text>
<rect class=\"box both\" x=\"176\" y=\"52\" width=\"14\" height=\"12\"/><text class=\"far\" x=\"196\" y=\"62\">reads and writes</text>
<rect class=\"box writes over\" x=\"332\" y=\"52\" width=\"14\" height=\"12\"/><text class=\"far\" x=\"352\" y=\"62\">overwritten before anyone read it</text>
<rect class=\"box writes fault\" x=\"610\" y=\"52\" width=\"14\" height=\"12\"/><text class=\"far\" x=\"630\" y=\"62\">last lost update, or ABA</text>
";

/// Writes the style.
#[tactic(auto, unfolding(crate::specs::Style::style_text))]
pub(crate) fn write_style<W: Write>(theme: Theme, out: &mut W) -> io::Result<()>
    ensures { OnOk result (Appends (W.contents out.old) (W.contents out.new) (style_text theme)) }
{
    out.write_all(b"<style>\n")?;
    write_light(out)?;
    write_more(theme, out)
}

/// Writes the rules that go over those of a light picture.
fn write_more<W: Write>(theme: Theme, out: &mut W) -> io::Result<()>
    ensures { OnOk result (Appends (W.contents out.old) (W.contents out.new) (more_rules theme)) }
{
    match theme {
        Theme::Automatic => write_where_dark(out),
        Theme::Light => out.write_all(b""),
        Theme::Dark => write_dark(out),
    }
}

/// Writes the rules for whoever wants it dark.
#[tactic(auto, unfolding(crate::specs::Style::rules_in_the_dark))]
fn write_where_dark<W: Write>(out: &mut W) -> io::Result<()>
    ensures { OnOk result (Appends (W.contents out.old) (W.contents out.new) rules_in_the_dark) }
{
    out.write_all(b"@media (prefers-color-scheme:dark){\n")?;
    write_dark(out)?;
    out.write_all(b"}\n")
}

#[tactic(auto, unfolding(crate::specs::Style::light_rules))]
fn write_light<W: Write>(out: &mut W) -> io::Result<()>
    ensures { OnOk result (Appends (W.contents out.old) (W.contents out.new) light_rules) }
{
    out.write_all(LIGHT)
}

#[tactic(auto, unfolding(crate::specs::Style::dark_rules))]
fn write_dark<W: Write>(out: &mut W) -> io::Result<()>
    ensures { OnOk result (Appends (W.contents out.old) (W.contents out.new) dark_rules) }
{
    out.write_all(DARK)
}

/// Writes the end of the style, the page, and what arrows and colours mean.
#[tactic(auto, unfolding(crate::specs::Style::legend_text))]
pub(crate) fn write_legend<W: Write>(out: &mut W) -> io::Result<()>
    ensures { OnOk result (Appends (W.contents out.old) (W.contents out.new) legend_text) }
{
    out.write_all(LEGEND)
}
