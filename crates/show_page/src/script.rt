//! The script of a page. It makes every row of text, and of no mark.

/// All that stands behind the journal.
pub const BEHIND_JOURNAL: &[u8] = b"</pre>
<script>
'use strict';
const $ = id => document.getElementById(id);
const linesOf = id => $(id).textContent.split('\\n').filter(line => line);

// The domain, with the states of each class in their order.
const classes = new Map(), objects = [], numbers = new Map(), sets = new Map(), states = [{}];
for (const line of linesOf('list')) {
  const w = line.split(' '), kind = classes.get(w[1]);
  if (w[0] == 'class') classes.set(w[1], {device: w[2] == 'associated', states: new Map()});
  if (w[0] == 'state') {
    for (const mark of w.slice(3)) kind[mark] = states.length;
    states.push({name: w[2], color: `var(--c${kind.states.size % 8})`});
    kind.states.set(w[2], states.length - 1);
  }
  if (w[0] == 'object') {
    numbers.set(w[1], objects.length);
    const kind = classes.get(w[2]);
    objects.push({name: w[1], kind, of: w[2], begins: kind.initial, depth: 0, sends: new Set()});
  }
  if (w[0] == 'begins') {
    const o = objects[numbers.get(w[1])];
    o.begins = o.kind.states.get(w[2]);
  }
  if (w[0] == 'set') sets.set(w[1], w.slice(2).map(o => numbers.get(o)));
}

// For each object a state, the entry of its open action, whether it is killed, its last entry, and how many requests
// wait there. Behind these, for each sender and target, what was sent and is not started.
const OPEN = 1, KILLED = 2, LAST = 3, QUEUE = 4, CELLS = 5;
const entries = linesOf('journal').slice(1), changes = [], ends = [];
const wordsOf = (n, most) => n ? entries[n - 1].split(' ', most) : [], ownerOf = n => numbers.get(wordsOf(n, 2)[1]);
const sentAt = (sender, target) => objects.length * (CELLS + sender) + target;

// First, for each entry, the `seen` that is the next of its object, but for waits: -1 if these do not end.
const reads = new Int32Array(entries.length + 1);
for (let n = entries.length; n; n--) {
  const w = wordsOf(n, 4), o = numbers.get(w[1]), target = numbers.get(w[2]);
  const verb = {insert: 'add', remove: 'delete'}[w[0]];
  if (verb) changes.push([n, [...sets.keys()].indexOf(w[3]), verb, target]);
  if (w[0] == 'post') objects[o].sends.add(target);
  reads[n] = ends[o];
  ends[o] = w[0] == 'seen' ? n : w[0] == 'wait' && (ends[o] || -1);
}
changes.reverse();

function change(cells, n) {
  const w = wordsOf(n, 4), o = numbers.get(w[1]), at = o * CELLS, other = numbers.get(w[2]);
  cells[at + LAST] = n;
  if (w[0] == 'start') {
    cells[at + OPEN] = n;
    if (w[2][0] != '@') { cells[at + QUEUE]--; cells[sentAt(other, o)]--; }
  } else if (w[0] == 'end') {
    cells[at] = objects[o].kind.states.get(w[2]) ?? cells[at];
    cells[at + OPEN] = 0;
  } else if (w[0] == 'kill') {
    cells.set([objects[o].kind.dead, 0, 1], at);
  } else if (w[0] == 'post' && w[3] != 'refused') { cells[other * CELLS + QUEUE]++; cells[sentAt(o, other)]++; }
}

// What is known is kept at some entries, and made from there on for all others.
const size = objects.length * (CELLS + objects.length), kept = [];
let stride = 4096, cells = new Int32Array(size);
while (entries.length / stride * size > 2e7) stride *= 2;
objects.forEach((o, i) => cells[i * CELLS] = o.begins);
for (let n = 0; n <= entries.length; n++) {
  if (n) change(cells, n);
  if (n % stride == 0) kept.push(cells.slice());
}
function cellsAt(n) {
  const from = Math.floor(n / stride), made = kept[from].slice();
  for (let k = from * stride; k < n; ) change(made, ++k);
  return made;
}

function membersAt(n) {
  const made = [...sets.values()].map(set => new Set(set));
  for (const [at, i, verb, o] of changes) if (at <= n) made[i][verb](o);
  return made.map(set => [...set]);
}

// Whom an object asks now, by a `seen` to come, and what FORMATS.md supposes of sets.
function askedNow(sends, seen) {
  const read = wordsOf(seen).slice(2).map(word => numbers.get(word.split('=')[0]));
  const then = membersAt(seen), here = membersAt(now), all = new Set();
  for (const o of read) {
    const at = then.findIndex((set, i) => set.includes(o) && set + '' != here[i]
      && set + '' == read.filter(x => set.includes(x)));
    (here[at] ?? [o]).forEach(all.add, all);
  }
  then.forEach((set, i) => set[0] ?? (here[i].every(o => sends.has(o)) && here[i].forEach(all.add, all)));
  return [...all];
}

function waitsFor(a) {
  const {kind, sends} = objects[a], seen = reads[cells[a * CELLS + LAST]];
  if (!seen) return kind.device ? 'device' : '';
  const busy = (seen > 0 ? askedNow(sends, seen) : [...sends]).filter(
    o => !cells[o * CELLS + KILLED] && (cells[o * CELLS + OPEN] || cells[sentAt(a, o)] > 0));
  return busy.map(o => objects[o].name).join(', ') || (seen > 0 ? '' : 'not told');
}

function piece(parent, name, text) {
  const made = parent.appendChild(document.createElement('div'));
  made.className = name;
  made.textContent = made.title = text;
  return made;
}

// A list of which the rows in sight are made. A browser has no room for all rows of a long one: it is squeezed.
const HEIGHT = 22;
function listIn(box, fill) {
  const sheet = piece(box, 'sheet', ''), list = {count: 0, show, reach};
  const room = () => box.clientHeight / HEIGHT, height = () => Math.min(list.count * HEIGHT, 8e6);
  const share = () => Math.max(0, list.count - room()) / Math.max(1, height() - box.clientHeight);
  function show(from, to) {
    sheet.style.height = height() + 'px';
    const top = box.scrollTop, first = top * share();
    from ??= Math.floor(first);
    to ??= first + room() + 1;
    sheet.textContent = '';
    for (let i = Math.max(0, from); i < Math.min(list.count, to); i++) {
      const row = piece(sheet, 'row', '');
      row.style.top = top + (i - first) * HEIGHT + 'px';
      fill(row, i);
    }
  }
  function reach(i) {
    sheet.style.height = height() + 'px';
    const first = box.scrollTop * share();
    if (i >= 0 && (i < first || i + 1 > first + room())) box.scrollTop = (i - room() / 2) / share();
    show();
  }
  box.onscroll = () => show();
  return list;
}

let now = 0, shown = [], order = objects.map((_, i) => i), timer, pause;
const ruling = $('ruling').textContent.split(' '), illegal = ruling[1] - 1;
const why = ' \\u25c0 ' + ruling.join(' ') + ' ' + $('why').textContent.split('\\n').slice(1).join(' ');
const table = listIn($('objects'), (row, i) => {
  const o = objects[order[i]], at = order[i] * CELLS, open = cells[at + OPEN], w = wordsOf(open);
  const state = states[cells[at]];
  row.className += ' object' + (cells[at + KILLED] ? ' killed' : '') + (ownerOf(now) == order[i] ? ' now' : '');
  piece(row, '', '\\u2003'.repeat(o.depth) + o.name);
  piece(row, 'faint', o.of);
  piece(row, 'state', state.name).style.color = state.color;
  piece(row, '', open ? w.slice(4).join(' ') + ' from ' + w[2] : '');
  piece(row, 'faint', open || '');
  piece(row, 'wait', open ? waitsFor(order[i]) : '');
  piece(row, '', cells[at + QUEUE] || '');
});
const log = listIn($('entries'), (row, i) => {
  const n = shown[i] + 1, text = entries[n - 1];
  row.className += ' entry ' + text.split(' ', 1) + (n == now ? ' now' : '') + (n > illegal ? ' behind' : '');
  piece(row, 'number', n);
  row.append(text);
  if (n == illegal) piece(row, 'bad', why);
  row.onclick = () => go(n);
});

function go(n) {
  now = Math.max(0, Math.min(entries.length, n || 0));
  cells = cellsAt(now);
  $('slider').value = $('number').value = now;
  table.reach(order.indexOf(ownerOf(now)));
  log.reach(shown.indexOf(now - 1));
  clearTimeout(timer);
  timer = setTimeout(() => history.replaceState(null, '', '#' + now), 200);
}

// Goes on by entries of those shown.
function step(by) {
  let i = shown.findIndex(k => k >= now - 1);
  if (i < 0) i = shown.length;
  i += by - (by > 0 && shown[i] != now - 1);
  go(i < 0 ? 0 : (shown[Math.min(i, shown.length - 1)] ?? now - 1) + 1);
}

function choose() {
  const words = $('filter').value.toUpperCase().match(/\\w+/g), text = $('search').value.toUpperCase();
  const wanted = new Set(words?.flatMap(word => numbers.has(word) ? word
    : objects.filter((o, i) => sets.get(word)?.includes(i) ?? o.name.includes(word)).map(o => o.name)));
  shown = [];
  entries.forEach((line, k) => {
    const w = words && line.split(' ', 3);
    if (words && !wanted.has(w[1]) && (w[0] == 'end' || !wanted.has(w[2]))) return;
    if (!text || line.toUpperCase().includes(text)) shown.push(k);
  });
  $('matches').textContent = shown.length < entries.length ? shown.length + ' shown' : '';
  log.count = shown.length;
  go(now);
}

function chooseSoon() {
  clearTimeout(pause);
  pause = setTimeout(choose, 150);
}

// The objects as declared, or by sends: each below the first that sends to it.
function arrange() {
  const below = new Set(objects.flatMap(o => [...o.sends])), all = objects.map((_, i) => i);
  const visit = (i, depth) => {
    if (order.includes(i)) return;
    objects[i].depth = depth;
    order.push(i);
    [...objects[i].sends].sort((a, b) => a - b).forEach(target => visit(target, depth + 1));
  };
  objects.forEach(o => o.depth = 0);
  order = $('order').value == 'sends' ? [] : all;
  [...all.filter(i => !below.has(i)), ...all].forEach(i => visit(i, 0));
  go(now);
}

document.title = $('domain').textContent + ', ' + $('run').textContent;
$('ruling').className = ruling[0];
$('count').textContent = `${entries.length} entries, ${objects.length} objects`;
$('slider').max = entries.length;
table.count = objects.length;
onresize = onafterprint = () => go(now);
onhashchange = () => go(+location.hash.slice(1));
onbeforeprint = () => {
  const i = shown.findIndex(k => k >= now - 1);
  table.show(0, objects.length);
  log.show(i - 500, i + 500);
};
const moves = {ArrowLeft: -1, ArrowRight: 1, ArrowUp: -1, ArrowDown: 1, PageUp: -20, PageDown: 20};
onkeydown = event => {
  const key = event.key, field = event.target, action = {Home: () => go(0), End: () => go(entries.length),
    '/': () => $('search').focus(), f: () => $('filter').focus()}[key] || (moves[key] && (() => step(moves[key])));
  if (event.ctrlKey || event.altKey || event.metaKey) return;
  if (/INPUT|SELECT/.test(field.tagName) && field.type != 'range') return key == 'Escape' && field.blur();
  if (action) { action(); event.preventDefault(); }
};
now = location.hash ? +location.hash.slice(1) : illegal;
choose();
</script>
";
