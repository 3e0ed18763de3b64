//! The style of a picture, and which colour is which relation's.

use crate::cycle_scene::RELATIONS;
use crate::naming::relation_name;
use std::io;
use std::io::Write;

/// The colours that the colour-blind can tell, one for each relation (Okabe and Ito, "Color Universal Design",
/// 2008; a grey in place of black, which a dark page would hide).
pub(super) const STYLE: &str = "text{font:12px monospace;fill:#1b1b1b}
.name{font:bold 14px monospace}
.page{fill:#ffffff}
.far{fill:#5b5b5b}
.box{fill:#f4f4f4;stroke:#8a8a8a}
.start,.end{fill:#ffffff;stroke:#8a8a8a;stroke-dasharray:3 2}
.mark{font-weight:bold;text-anchor:middle}
.mark,.hart{stroke:#ffffff;stroke-width:4;paint-order:stroke}
.arrow{fill:none;stroke-width:1.7;stroke-linejoin:round}
.thick{stroke-width:3.2}
.po{stroke:#6a6a6a}
.rf{stroke:#d55e00}
.co{stroke:#0072b2;stroke-dasharray:9 4}
.fr{stroke:#009e73;stroke-dasharray:3 3}
.breaks{stroke:#cc79a7;stroke-dasharray:9 3 2 3}
.po-is{fill:#6a6a6a}
.rf-is{fill:#d55e00}
.co-is{fill:#0072b2}
.fr-is{fill:#009e73}
.breaks-is{fill:#b0558a}
@media (prefers-color-scheme:dark){
text{fill:#ececec}
.page{fill:#16181d}
.far{fill:#a2a7b0}
.box{fill:#23262e;stroke:#747b88}
.start,.end{fill:#16181d;stroke:#747b88}
.mark,.hart{stroke:#16181d}
.po{stroke:#a2a7b0}
.po-is{fill:#a2a7b0}
.rf{stroke:#ff8c3a}
.rf-is{fill:#ff8c3a}
.co{stroke:#56b4e9}
.co-is{fill:#56b4e9}
.fr{stroke:#2fc79b}
.fr-is{fill:#2fc79b}
.breaks-is{fill:#e0a0c4}
}
";

/// The point of an arrow of each relation, and a line that says which colour is whose.
pub(super) fn write_legend<W: Write>(out: &mut W) -> io::Result<()> {
    let mut x = 24_u32;
    for relation in RELATIONS {
        let name = relation_name(relation);
        write!(
            out,
            "<marker id=\"to-{name}\" viewBox=\"0 0 8 8\" refX=\"7\" refY=\"4\" "
        )?;
        out.write_all(
            b"markerUnits=\"userSpaceOnUse\" markerWidth=\"11\" markerHeight=\"11\" orient=\"auto\">",
        )?;
        writeln!(
            out,
            "<path class=\"{name}-is\" d=\"M0 0L8 4L0 8z\"/></marker>"
        )?;
        let (end, text) = (x.saturating_add(26), x.saturating_add(32));
        writeln!(
            out,
            "<path class=\"arrow thick {name}\" d=\"M{x} 82H{end}\"/>"
        )?;
        writeln!(
            out,
            "<text class=\"{name}-is\" x=\"{text}\" y=\"86\">{name}</text>"
        )?;
        x = x.saturating_add(72);
    }
    Ok(())
}
