//! The style of a picture: its colours, for a light and for a dark page.

use super::form::Theme;
use std::io;
use std::io::Write;

/// The fills of bars are colours that the colour-blind can tell, one for each of eight harts (Okabe and Ito, "Color
/// Universal Design", 2008; a grey in place of black, which a dark page would hide). The eight harts behind them have
/// the same colours and a mark at the left end of their bars. Edges are darker on a light page and lighter on a dark
/// one: they stand out by 3:1 at least, and letters by 4.5:1 (W3C, "Web Content Accessibility Guidelines 2.1", 1.4.3
/// and 1.4.11).
const LIGHT: &[u8] = b"text{font:12px monospace;fill:#1b1b1b}
.page{fill:#ffffff}
.grid{stroke:#d5d5d5}
.head{font:bold 15px monospace}
.far{fill:#5b5b5b}
.key{fill:#1b1b1b;font-weight:bold}
.bar{fill-opacity:.4}
.pale{fill-opacity:.08}
.edge{fill:none;stroke-width:1.4}
.dashed{stroke-dasharray:3 2}
.x{fill:#a33500;font-weight:bold}
.again{fill:none;stroke:#a33500;stroke-width:2}
.same{fill:none;stroke:#a33500;stroke-width:.8}
.arrow{fill:none;stroke:#a33500;stroke-width:1.4}
.point{fill:#a33500}
.level{fill:#5b5b5b}
.base{stroke:#5b5b5b}
.h0,.h8{fill:#e69f00}
.h1,.h9{fill:#56b4e9}
.h2,.h10{fill:#009e73}
.h3,.h11{fill:#f0e442}
.h4,.h12{fill:#0072b2}
.h5,.h13{fill:#d55e00}
.h6,.h14{fill:#cc79a7}
.h7,.h15{fill:#888888}
.any{fill:#888888}
.e0,.e8{stroke:#a87400}
.e1,.e9{stroke:#2b7fb0}
.e2,.e10{stroke:#00835f}
.e3,.e11{stroke:#8a8000}
.e4,.e12{stroke:#0072b2}
.e5,.e13{stroke:#c25500}
.e6,.e14{stroke:#b0568a}
.e7,.e15,.eany{stroke:#707070}
.k8{fill:#a87400}
.k9{fill:#2b7fb0}
.k10{fill:#00835f}
.k11{fill:#8a8000}
.k12{fill:#0072b2}
.k13{fill:#c25500}
.k14{fill:#b0568a}
.k15{fill:#707070}
";

/// What is another colour where it is dark.
const DARK: &[u8] = b"text{fill:#f2f2f2}
.page{fill:#16181d}
.grid{stroke:#343842}
.far{fill:#a2a7b0}
.key{fill:#f2f2f2}
.x{fill:#ffa873}
.again,.same,.arrow{stroke:#ffa873}
.point{fill:#ffa873}
.level{fill:#a2a7b0}
.base{stroke:#a2a7b0}
.h3,.h11{fill:#c9bd2e}
.e0,.e8{stroke:#e69f00}
.e1,.e9{stroke:#56b4e9}
.e2,.e10{stroke:#1fbf92}
.e3,.e11{stroke:#f0e442}
.e4,.e12{stroke:#4a9fd8}
.e5,.e13{stroke:#ee7a24}
.e6,.e14{stroke:#cc79a7}
.e7,.e15,.eany{stroke:#a0a0a0}
.k8{fill:#e69f00}
.k9{fill:#56b4e9}
.k10{fill:#1fbf92}
.k11{fill:#f0e442}
.k12{fill:#4a9fd8}
.k13{fill:#ee7a24}
.k14{fill:#cc79a7}
.k15{fill:#a0a0a0}
";

/// The page, and the point of an arrow.
const PAGE: &[u8] = b"</style>
<rect class=\"page\" width=\"100%\" height=\"100%\"/>
<defs><marker id=\"point\" viewBox=\"0 0 8 8\" refX=\"7\" refY=\"4\" markerUnits=\"userSpaceOnUse\" markerWidth=\"8\" markerHeight=\"8\" orient=\"auto\"><path class=\"point\" d=\"M0 0L8 4L0 8z\"/></marker></defs>
";

/// Writes the style of a picture, its page, and the point of an arrow.
pub(crate) fn write_style<W: Write>(theme: Theme, out: &mut W) -> io::Result<()> {
    out.write_all(b"<style>\n")?;
    out.write_all(LIGHT)?;
    match theme {
        Theme::Automatic => write_where_dark(out)?,
        Theme::Light => {}
        Theme::Dark => out.write_all(DARK)?,
    }
    out.write_all(PAGE)
}

/// Writes the rules for whoever wants it dark.
fn write_where_dark<W: Write>(out: &mut W) -> io::Result<()> {
    out.write_all(b"@media (prefers-color-scheme:dark){\n")?;
    out.write_all(DARK)?;
    out.write_all(b"}\n")
}
