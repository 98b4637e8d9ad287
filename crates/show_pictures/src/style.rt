//! How the elements of a picture look, in the light and in the dark.

/// The style of a picture, and the tips of its arrows. The eight hues of states have no red and no green.
pub(crate) const STYLE: &[u8] = b"<style>
svg{color-scheme:light dark}
text{font:11px monospace;color:#222;fill:currentColor;stroke:#fff;stroke-width:3px;stroke-linejoin:round;\
paint-order:stroke}
.name{font-weight:bold;text-anchor:middle;stroke:none}
.heading{font-weight:bold}
.place{color:#777;text-anchor:end}
.note{color:#666}
.fault{color:#b00020}
.page{fill:#fff}
.box{fill:#eef2f7;stroke:#889}
.life{stroke:#bbb}
.bar{fill:#e3e8ef;stroke:#556}
.sent{stroke:#222;marker-end:url(#sent)}
.bad{stroke:#b00020;stroke-dasharray:5 3;marker-end:url(#bad)}
.loop{stroke:#222}
.read{stroke:#666;stroke-dasharray:2 3}
.dot{fill:#666}
.wait{fill:#fff;stroke:#666;stroke-width:2}
.cross{stroke:#b00020;stroke-width:2}
.tip{fill:#222}
.bad-tip{fill:#b00020}
.s0{color:#1d5fae}
.s1{color:#b35c00}
.s2{color:#7a3aa8}
.s3{color:#0b7285}
.s4{color:#8a7000}
.s5{color:#b0308f}
.s6{color:#6f4a2a}
.s7{color:#4a53d6}
.gone{color:#777}
.s0,.s1,.s2,.s3,.s4,.s5,.s6,.s7,.gone{font-weight:bold}
.band{stroke:currentColor;stroke-width:4}
.band.gone{stroke-width:2;stroke-dasharray:4 4}
@media(prefers-color-scheme:dark){
text{color:#dde3ea;stroke:#15181c}
.place{color:#8e9aab}
.note{color:#a5afbd}
.fault{color:#ff8088}
.page{fill:#15181c}
.box{fill:#262c35;stroke:#667}
.life{stroke:#556}
.bar{fill:#343c48;stroke:#9ab}
.sent,.loop{stroke:#dde3ea}
.bad,.cross{stroke:#ff8088}
.read{stroke:#a5afbd}
.dot{fill:#a5afbd}
.wait{fill:#15181c;stroke:#a5afbd}
.tip{fill:#dde3ea}
.bad-tip{fill:#ff8088}
.s0{color:#7fb5ff}
.s1{color:#ffa94d}
.s2{color:#c79bf0}
.s3{color:#5fd0e0}
.s4{color:#d9c24a}
.s5{color:#f58cd8}
.s6{color:#cfa27a}
.s7{color:#a3aaff}
.gone{color:#8e9aab}
}
</style>
<defs>
<marker id=\"sent\" markerWidth=\"8\" markerHeight=\"8\" refX=\"7\" refY=\"4\" orient=\"auto\">\
<path class=\"tip\" d=\"M0,0L8,4L0,8z\"/></marker>
<marker id=\"bad\" markerWidth=\"8\" markerHeight=\"8\" refX=\"7\" refY=\"4\" orient=\"auto\">\
<path class=\"bad-tip\" d=\"M0,0L8,4L0,8z\"/></marker>
</defs>
";
