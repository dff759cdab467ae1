//! The styles of all shapes, and the legend.

use crate::layout::Layout;
use std::io;
use std::io::Write;

/// Colours that the colour-blind can tell apart, and a different dash and head for each kind.
pub(super) const STYLE: &[u8] = b"<style>
text { font: 12px Helvetica, Arial, 'DejaVu Sans', sans-serif; fill: #222 }
.paper { fill: #fff }
text.head { font-size: 16px; font-weight: bold }
.moment { font-size: 11px; fill: #666; text-anchor: end }
.guide { stroke: #ececec }
.life { stroke: #888; stroke-width: 1.5 }
.after { stroke: #888; stroke-dasharray: 2 5 }
rect.name { fill: #f4f4f4; stroke: #888 }
text.name { text-anchor: middle }
.arrow path { fill: none; stroke-width: 1.8 }
.data path { stroke: #0072b2 }
.request path { stroke: #d55e00 }
.repair path { stroke: #009e73 }
.session path { stroke: #cc79a7 }
.data .taken { marker-end: url(#data) }
.request .taken { marker-end: url(#request) }
.repair .taken { marker-end: url(#repair) }
.session .taken { marker-end: url(#session) }
.request .way { stroke-dasharray: 8 4 }
.repair .way { stroke-width: 3 }
.session .way { stroke-dasharray: 2 3 }
.arrow .cross { stroke-width: 2.4 }
.label { font-size: 11px; paint-order: stroke; stroke: #fff; stroke-width: 3px; stroke-linejoin: round }
text.data { fill: #005a8d }
text.request { fill: #a84a00 }
text.repair { fill: #00704f }
text.session { fill: #9a4a77 }
.dim { fill: #777 }
.bracket path { fill: none; stroke-width: 1.8 }
.ask path { stroke: #d55e00 }
.fix path { stroke: #009e73 }
.bracket .strike { stroke: #222; stroke-width: 1.6 }
.drew, .took { fill: #222 }
.gave { stroke: #222; stroke-width: 2 }
.noted { stroke: #888; stroke-width: 1.5 }
.gone { stroke: #222; stroke-width: 3 }
</style>
<defs>
<marker id=\"data\" viewBox=\"0 0 10 10\" refX=\"10\" refY=\"5\" markerWidth=\"11\" markerHeight=\"11\" markerUnits=\"userSpaceOnUse\" orient=\"auto\"><path d=\"M0 1L10 5L0 9z\" style=\"fill:#0072b2;stroke:none\"/></marker>
<marker id=\"request\" viewBox=\"0 0 10 10\" refX=\"10\" refY=\"5\" markerWidth=\"12\" markerHeight=\"12\" markerUnits=\"userSpaceOnUse\" orient=\"auto\"><path d=\"M1 1L10 5L1 9\" style=\"fill:none;stroke:#d55e00;stroke-width:1.8\"/></marker>
<marker id=\"repair\" viewBox=\"0 0 12 10\" refX=\"12\" refY=\"5\" markerWidth=\"15\" markerHeight=\"12\" markerUnits=\"userSpaceOnUse\" orient=\"auto\"><path d=\"M0 5L6 0L12 5L6 10z\" style=\"fill:#009e73;stroke:none\"/></marker>
<marker id=\"session\" viewBox=\"0 0 10 10\" refX=\"9\" refY=\"5\" markerWidth=\"9\" markerHeight=\"9\" markerUnits=\"userSpaceOnUse\" orient=\"auto\"><circle cx=\"5\" cy=\"5\" r=\"4\" style=\"fill:#fff;stroke:#cc79a7;stroke-width:2\"/></marker>
</defs>
";

/// The four kinds, the cross, the brackets and the notches.
const LEGEND: &[u8] = b"<path class=\"guide\" d=\"M0 -22H660\"/>
<g class=\"arrow data\"><path class=\"way taken\" d=\"M0 0H44\"/></g><text x=\"54\" y=\"4\">data</text>
<g class=\"arrow request\"><path class=\"way taken\" d=\"M120 0H164\"/></g><text x=\"174\" y=\"4\">request</text>
<g class=\"arrow repair\"><path class=\"way taken\" d=\"M252 0H296\"/></g><text x=\"306\" y=\"4\">repair</text>
<g class=\"arrow session\"><path class=\"way taken\" d=\"M376 0H420\"/></g><text x=\"430\" y=\"4\">session</text>
<g class=\"arrow data\"><path class=\"way\" d=\"M508 0H536\"/><path class=\"cross\" d=\"M531 -5l10 10m0 -10l-10 10\"/></g><text x=\"550\" y=\"4\">lost or ignored</text>
<g class=\"bracket ask\"><path d=\"M8 26H2V46h6\"/></g><text x=\"18\" y=\"40\">request timer</text>
<g class=\"bracket fix\"><path d=\"M128 26H122V46h6\"/></g><text x=\"138\" y=\"40\">repair timer</text>
<g class=\"bracket ask\"><path d=\"M260 26H254V46h6\"/><path class=\"strike\" d=\"M249 40l10 -8\"/></g><text x=\"270\" y=\"40\">backed off</text>
<g class=\"bracket ask\"><path d=\"M384 26H378V46h6\"/><path class=\"strike\" d=\"M373 40l10 -8m0 8l-10 -8\"/></g><text x=\"394\" y=\"40\">cancelled</text>
<g class=\"bracket ask\"><path d=\"M516 26H510V48\"/></g><text x=\"526\" y=\"40\">still running</text>
<rect class=\"drew\" x=\"0\" y=\"68\" width=\"9\" height=\"9\"/><text x=\"18\" y=\"77\">drew</text>
<path class=\"gave\" d=\"M122 73h11\"/><text x=\"142\" y=\"77\">gave a drawop</text>
<path class=\"gave\" d=\"M254 73h11\"/><circle class=\"took\" cx=\"263\" cy=\"73\" r=\"3.5\"/><text x=\"274\" y=\"77\">took a drawop</text>
<path class=\"noted\" d=\"M378 73h7\"/><text x=\"394\" y=\"77\">anything else</text>
<path class=\"gone\" d=\"M510 73h16\"/><text x=\"536\" y=\"77\">gone</text>
</g>
</svg>
";

pub(super) fn write_legend<W: Write>(out: &mut W, layout: &Layout) -> io::Result<()> {
    let y = layout.bottom().saturating_add(42);
    writeln!(out, "<g transform=\"translate(20 {y})\">")?;
    out.write_all(LEGEND)
}
