//! What stands between the texts of a page.

/// Between the names of the domain and of the journal.
pub const BEHIND_DOMAIN: &[u8] = b"</span>, <span id=\"run\">";

/// Between the name of the journal and what the judge says.
pub const BEHIND_RUN: &[u8] = b"</span></h1>\n<b id=\"ruling\">";

/// Between what the judge says and why.
pub const BEHIND_RULING: &[u8] =
    b"</b> <span id=\"count\" class=\"faint\"></span>\n<div id=\"why\">";

/// Between why and the list of the domain: all that a reader moves and sees. A browser drops the line feed that
/// stands behind `<pre>`.
pub const BEHIND_REASON: &[u8] = b"</div></header>
<nav>
<button title=\"the entry before: left\" onclick=\"step(-1)\">&#9664;</button>
<input id=\"slider\" type=\"range\" min=\"0\" value=\"0\" aria-label=\"entry\" oninput=\"go(+value)\">
<button title=\"the next entry: right\" onclick=\"step(1)\">&#9654;</button>
<input id=\"number\" size=\"8\" aria-label=\"number of the entry\" onchange=\"go(+value)\">
<select id=\"order\" aria-label=\"order of the objects\" onchange=\"arrange()\">
<option value=\"\">as declared<option value=\"sends\">by sends</select>
<input id=\"filter\" size=\"18\" placeholder=\"objects or sets (f)\" aria-label=\"filter\"
 oninput=\"chooseSoon()\">
<input id=\"search\" size=\"18\" placeholder=\"search (/)\" aria-label=\"search\"
 oninput=\"chooseSoon()\">
<span id=\"matches\" class=\"faint\"></span>
</nav>
<main>
<section><div class=\"titles\"><div>object</div><div>class</div><div>state</div><div>open action</div><div>since</div>
<div>waits for</div><div title=\"requests of objects that wait there\">queue</div></div>
<div id=\"objects\" class=\"list\"></div></section>
<section><div class=\"titles\">entries</div><div id=\"entries\" class=\"list\"></div></section>
</main>
<pre id=\"list\" hidden>
";

/// Between the list of the domain and the journal.
pub const BEHIND_LIST: &[u8] = b"</pre>\n<pre id=\"journal\" hidden>\n";
