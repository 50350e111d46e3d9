//! The picture of a run: an SVG of the text that a run writes.
//!
//! Above are two lanes, which show who acts; below is the stack, on which each call's frame is a box over its
//! addresses from the line of the call to that of its return. The picture is a function of the text alone.
#![tactic(auto)]

mod class;
mod event;
mod fault;
mod group;
mod heights;
mod held;
pub mod laws;
mod page;
mod picture;
mod pieces;
mod turn;

pub use class::Class;
pub use fault::DrawFault;
pub use heights::Scale;
pub use picture::draw;
pub use turn::{Extent, Side, Turn};

/// The most bytes of a text that is drawn.
pub const LAST_LENGTH: usize = 4_194_304;

/// The most lines of a text that is drawn.
pub const LAST_COUNT: u64 = 16_384;

/// What stands in front of the shapes: the style, the hatching, and the legend.
pub(crate) const STYLE: &str =
    "<style>text{font:12px monospace;fill:#000}.s{fill:#333}.w{fill:#fff}\
.in{fill:#dfe9f5}.out{fill:url(#o)}.fr{fill:#17406d;stroke:#000;stroke-width:2}\
.fo{fill:#17406d;stroke:#000;stroke-width:2;stroke-dasharray:5 4}.cl{stroke:#000;stroke-width:5}\
.now{stroke:#000;stroke-width:5}.a{stroke:#000;stroke-width:2;marker-end:url(#h)}\
.dr{stroke:#999;stroke-dasharray:2 3}.e{stroke:#a00;stroke-width:6}\
g:hover>.fr,g:hover>.fo{fill:#000}g:hover>.a{stroke-width:4}\
@media print{svg{width:100%;height:auto}}</style>\n\
<defs><pattern id=\"o\" width=\"7\" height=\"7\" patternUnits=\"userSpaceOnUse\">\
<path d=\"M0 0h7v7h-7z\" fill=\"#fff3dc\"/><path d=\"M0 7L7 0\" stroke=\"#b8864b\"/></pattern>\
<marker id=\"h\" viewBox=\"0 0 6 6\" refX=\"3\" refY=\"3\" markerWidth=\"5\" markerHeight=\"5\" \
orient=\"auto\">\
<path d=\"M0 0L6 3L0 6z\"/></marker></defs>\n\
<rect width=\"100%\" height=\"100%\" fill=\"#fff\"/>\n\
<path class=\"fr\" d=\"M12 10H34V24H12z\"/><text x=\"40\" y=\"21\">frame of a call that returned</text>\
<path class=\"fo\" d=\"M262 10H284V24H262z\"/>\
<text x=\"290\" y=\"21\">frame of a call that is open at the end</text>\n\
<path class=\"out\" d=\"M12 32H34V46H12z\"/><text x=\"40\" y=\"43\">what code outside has</text>\
<path class=\"in\" d=\"M262 32H284V46H262z\"/><text x=\"290\" y=\"43\">what trusted code has</text>\n\
<text x=\"12\" y=\"66\">Above: who acts, line by line. Below: the stack, by its addresses. \
Point at a thing to see its line.</text>\n\
<text x=\"12\" y=\"92\">line</text><text x=\"12\" y=\"119\">trusted</text>\
<text x=\"12\" y=\"209\">border</text><text x=\"12\" y=\"239\">outside</text>\
<text x=\"12\" y=\"274\">stack</text>\n";
