//! The head of a page, with its style.

/// All that stands before the name of the domain.
pub const HEAD: &[u8] = b"<!doctype html>
<html lang=\"en\">
<meta charset=\"utf-8\">
<meta name=\"viewport\" content=\"width=device-width\">
<meta http-equiv=\"Content-Security-Policy\" content=\"default-src 'none'; style-src 'unsafe-inline';
 script-src 'unsafe-inline'\">
<title>A run</title>
<style>
:root{color-scheme:light dark;--ground:#fff;--ink:#1b2028;--faint:#667085;--rule:#dbe0e7;--soft:#f3f5f8;--now:#fff0b8;
--mid:#1d5fae;--good:#17692b;--bad:#b3121f;--wait:#8a5600;
--c0:#4b5a6e;--c1:#1c7a3a;--c2:#1d5fae;--c3:#8a5600;--c4:#7a3aa8;
--c5:#0b7285;--c6:#a8326e;--c7:#6b6b00}
@media(prefers-color-scheme:dark){:root{--ground:#14171c;--ink:#dfe5ec;--faint:#8e9aab;--rule:#303743;--soft:#1c2129;
--now:#453c12;--mid:#7fb5ff;--good:#6fcf86;--bad:#ff8088;--wait:#e3b454;
--c0:#b3bfce;--c1:#6fcf86;--c2:#7fb5ff;--c3:#e3b454;
--c4:#c79bf0;--c5:#5fd0e0;--c6:#f58cc0;--c7:#cfcf5a}}
*{box-sizing:border-box}
body{margin:0;height:100vh;display:flex;flex-direction:column;background:var(--ground);color:var(--ink);
font:13px/1.45 system-ui,'DejaVu Sans',sans-serif}
header{padding:9px 14px;display:flex;flex-wrap:wrap;gap:2px 18px;align-items:baseline}
h1{font-size:15px;margin:0}
.faint{color:var(--faint)}
#ruling{font-weight:600;color:var(--good)}#ruling.Illegal{color:var(--bad)}
#why{flex-basis:100%;white-space:pre-line;font:12px/1.45 ui-monospace,'DejaVu Sans Mono',monospace;color:var(--bad)}
#why:empty{display:none}
nav{padding:7px 14px;display:flex;flex-wrap:wrap;gap:8px;align-items:center;background:var(--soft);
border:1px solid var(--rule);border-width:1px 0}
#slider{flex:1;min-width:160px}
input,button,select{font:inherit;color:inherit;background:var(--ground);border:1px solid var(--rule);border-radius:4px;
padding:2px 7px}
button{cursor:pointer}
main{flex:1;min-height:0;display:grid;grid-template-columns:minmax(0,7fr) minmax(0,5fr)}
section{display:flex;flex-direction:column;min-height:0;border-right:1px solid var(--rule)}
.list{flex:1;overflow:auto;position:relative;scrollbar-gutter:stable}
.row{position:absolute;left:0;right:0;height:22px;line-height:22px;padding:0 12px;white-space:nowrap;overflow:hidden;
border-bottom:1px solid var(--rule)}
.entry{cursor:pointer;white-space:pre;text-overflow:ellipsis;border:0;
font:12px/22px ui-monospace,'DejaVu Sans Mono',monospace}
.entry>div{display:inline}.entry>.number{display:inline-block}
.entry:hover{background:var(--soft)}
.row.now{background:var(--now)}
.number{display:inline-block;width:56px;margin-right:12px;text-align:right;color:var(--faint)}
.object,.titles{display:grid;gap:8px;
grid-template-columns:8fr 5fr 5fr 8fr minmax(38px,2fr) 6fr minmax(48px,2fr)}
.object>*,.titles>*{overflow:hidden;text-overflow:ellipsis}
.titles{padding:4px 12px;overflow:hidden;scrollbar-gutter:stable;font-weight:600;
background:var(--soft);border-bottom:1px solid var(--rule)}
.state{justify-self:start;max-width:100%;height:18px;line-height:16px;margin-top:2px;padding:0 8px;border:1px solid;
border-radius:9px;font-size:11px}
.killed{color:var(--faint)}.killed .state{color:var(--faint)!important;border-style:dashed;text-decoration:line-through}
.start{color:var(--mid)}.end{color:var(--good)}.kill,.bad{color:var(--bad)}.wait,.seen{color:var(--wait)}
.insert,.remove,.empty{color:var(--c4)}
.behind{opacity:.6}
@media(max-width:900px){main{grid-template-columns:1fr;grid-template-rows:1fr 1fr}}
@media print{:root{color-scheme:light;--ground:#fff;--ink:#000;--soft:#fff;--now:#eee}body{height:auto;display:block}
nav{display:none}main{display:block}.list{overflow:visible}.sheet{height:auto!important}.row{position:static;
break-inside:avoid}.row.now{font-weight:700}section{display:block;margin-bottom:14px}}
</style>
<noscript><style>nav,main{display:none}pre{display:block!important}</style></noscript>
<header><h1><span id=\"domain\">";
