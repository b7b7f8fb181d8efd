use std::fmt;

/// The head of a document: the looks of all that is drawn, and the tips of the arrows.
pub const HEAD: &str = r##"<style>
text { fill: #1f2933; font-size: 13px; }
.title { font-size: 20px; font-weight: bold; }
.note { font-size: 12px; fill: #52606d; }
.way { fill: none; stroke: #8795a6; stroke-width: 1.4; }
.run { fill: none; stroke: #d9480f; stroke-width: 4; }
.label { font-size: 11px; text-anchor: middle; stroke: white; stroke-width: 4px; paint-order: stroke; }
.run-label { font-weight: bold; fill: #b03a0c; }
.place { fill: #f5f7fa; stroke: #52606d; stroke-width: 1.2; }
.run-place { fill: #fff4e6; stroke: #d9480f; stroke-width: 2; }
.name { font-weight: bold; text-anchor: middle; }
.number { font-weight: normal; fill: #7b8794; }
.price { font-size: 11px; text-anchor: middle; fill: #52606d; }
.tag { fill: #0b7285; }
.repeater { fill: #d9480f; }
.tag-text { font-size: 11px; font-weight: bold; text-anchor: middle; fill: white; }
</style>
<defs>
<marker id="way-tip" markerUnits="userSpaceOnUse" markerWidth="9" markerHeight="8" refX="9" refY="4" orient="auto">
<path d="M 0 0 L 9 4 L 0 8 z" fill="#52606d"/>
</marker>
<marker id="run-tip" markerUnits="userSpaceOnUse" markerWidth="14" markerHeight="12" refX="13" refY="6" orient="auto">
<path d="M 0 0 L 14 6 L 0 12 z" fill="#d9480f"/>
</marker>
</defs>
"##;

/// What the signs of a picture mean, as a part of a document that is some 830 pixels wide and 20 high.
pub const LEGEND: &str =
    r##"<path class="way" d="M 0 0 C 20 0, 30 0, 50 0" marker-end="url(#way-tip)"/>
<text class="note" x="58" y="4">way, with its metres and its cable</text>
<text class="price" x="330" y="4">repeater 900</text>
<text class="note" x="376" y="4">price of a repeater here, in cents; where there is none, none can be hung</text>
<path class="run" d="M 0 24 C 20 24, 30 24, 50 24" marker-end="url(#run-tip)"/>
<text class="note" x="58" y="28">way of the planned run</text>
<circle class="repeater" cx="330" cy="24" r="10"/>
<text class="tag-text" x="330" y="28">R</text>
<text class="note" x="376" y="28">repeater of the planned run</text>
"##;

/// A number of things, as it is read: "1 way", "2 ways".
#[derive(Clone, Copy)]
pub struct Amount {
    pub count: u64,
    pub thing: &'static str,
}

impl fmt::Display for Amount {
    fn fmt<W: fmt::Write>(&self, f: &mut fmt::Formatter<W>) -> fmt::Result {
        let end = if self.count == 1 { "" } else { "s" };
        write!(f, "{} {}{end}", self.count, self.thing)
    }
}

/// A loss in tenths of a decibel, as it is read: "3.5 dB".
#[derive(Clone, Copy)]
pub struct Loss(pub usize);

impl fmt::Display for Loss {
    fn fmt<W: fmt::Write>(&self, f: &mut fmt::Formatter<W>) -> fmt::Result {
        let whole = self.0 / 10;
        let tenths = self.0 % 10;
        write!(f, "{whole}.{tenths} dB")
    }
}
