//! What stands in `page/page.js`; made from it by `page/make program`.

/// The text of that file.
pub const TEXT: &[u8] = br##"// The page: rounds, moves and keys, and its own check.

const $ = id => document.getElementById(id);
const view = { log: null, round: null, at: 0, snaps: [], state: null, stateAt: -1, timer: null, quiet: false };
const SNAP = 64;                           // every so many turns the state is kept

// The state after so many turns: on from the last one shown, or from one that was kept.
function stateAfter(at) {
  let s, from;
  if (view.state && view.stateAt <= at && at - view.stateAt < SNAP) [s, from] = [view.state, view.stateAt];
  else {
    const k = Math.min(Math.floor(at / SNAP), view.snaps.length - 1);
    [s, from] = [copyState(view.snaps[k]), k * SNAP];
  }
  for (let i = from; i < at; i++) {
    applyTurn(s, view.round.turns[i], view.round);
    if ((i + 1) % SNAP === 0 && view.snaps.length === (i + 1) / SNAP) view.snaps.push(copyState(s));
  }
  [view.state, view.stateAt] = [s, at];
  return s;
}

// Changes a part of the page only where its text is another.
function put(element, html) {
  if (element.shownText !== html) { element.innerHTML = html; element.shownText = html; }
}
// The children of a part: each is known by a name, and filled anew where what it is made from has changed.
function putAll(element, parts) {
  const had = element.shownParts ?? new Map(), has = new Map();
  let place = element.firstElementChild;
  for (const [name, from, html] of parts) {
    let part = had.get(name);
    if (!part || part.from !== from) {
      const made = document.createElement('template');
      made.innerHTML = html ? html() : from;
      const child = made.content.firstElementChild;
      if (part) fill(part.child, child);
      part = { from, child: part ? part.child : child };
    }
    if (place === part.child) place = place.nextElementSibling;
    else element.insertBefore(part.child, place);
    has.set(name, part);
  }
  for (const [name, part] of had) if (!has.has(name)) part.child.remove();
  element.shownParts = has;
}
function fill(element, like) {
  for (const { name } of [...element.attributes]) if (!like.hasAttribute(name)) element.removeAttribute(name);
  for (const { name, value } of like.attributes) if (element.getAttribute(name) !== value) element.setAttribute(name, value);
  element.replaceChildren(...like.childNodes);
}

// How many turns the lanes have room for.
function measure() {
  const rem = parseFloat(getComputedStyle(document.documentElement).fontSize);
  view.wide = Math.max(5, Math.floor(($('lanes').clientWidth - 2.4 * rem) / (6.7 * rem)));
}

function draw() {
  const { round, log, at } = view, s = stateAfter(at), t = round.turns[at - 1], places = placesOf(s), roles = rolesOf(s);
  drawMoves(t);
  $('now').dataset.w = t ? t.w : 'none';
  put($('now'), nowPart(view, s, t));
  const caches = [...s.caches.values()];
  const cards = caches.map(c => [`cache ${c.title}`, `<section class="card cache" aria-label="Cache ${esc(c.title)}"><div></div><div class="cpus"></div><div class="slabs" style="--slab:${widthOf(s, c)}"></div><p class="dim"></p></section>`]);
  putAll($('state'), [...cards, ['pool', poolPart(s, log, t)]]);
  caches.forEach((c, i) => {
    const [head, cpus, slabs, others] = $('state').children[i].children, shown = drawnSlabs(s, c, roles, t);
    put(head, headPart(c));
    put(cpus, cpuParts(s, c, t));
    putAll(slabs, shown.drawn.map(f => {
      const all = [s, f, s.slabs.get(f), c, t, places.get(f), roles.get(f)];
      return [f, slabKey(...all), () => slabPart(...all)];
    }));
    put(others, shown.others ? `${count(shown.others, 'slab')} more aren't drawn.` : '');
  });
  const slabs = [...s.slabs.values()];
  put($('legend'), legendPart(slabs.some(x => x.objects > 64), slabs.some(x => x.checked)));
  putAll($('workers'), Array.from({ length: round.workers }, (_, w) => [w, workerPart(view, s, w, t)]));
  putAll($('lines'), logLines(view));
  put($('tail'), tailPart(view));
  const now = $('lines').querySelector('.cur');
  $('lines').scrollTop = now ? now.offsetTop - $('lines').clientHeight / 2 : 0;
}

function drawMoves(t) {
  const { round, at } = view, n = round.turns.length;
  $('at').value = at;
  const words = t ? `turn ${at} of ${n}` : `before turn 1 of ${n}`;
  $('count').textContent = words;
  $('at').setAttribute('aria-valuetext', words);
  const lanes = $('lanes'), { wide } = view, fit = n <= wide + 2 ? n : wide, [from, to] = windowOf(n, at, fit);
  const drawn = lanesPart(view, from, to, wide);
  lanes.style.gridTemplateColumns = `2.2rem repeat(${drawn.columns}, minmax(0, 1fr))`;
  lanes.classList.toggle('low', drawn.low);
  lanes.setAttribute('aria-label', drawn.label);
  put(lanes, drawn.html);
  const whole = $('whole');
  whole.hidden = n <= fit;
  if (whole.hidden) return;
  if (whole.shownRound !== round) { whole.innerHTML = `${wholePart(round)}<b></b><i></i>`; whole.shownRound = round; }
  const [frame, mark] = whole.querySelectorAll('b, i');
  Object.assign(frame.style, { left: `${100 * from / n}%`, width: `${100 * (to - from) / n}%` });
  mark.style.left = `${100 * Math.max(0, at - .5) / n}%`;
}

// ---- moves

function go(at) {
  view.at = Math.max(0, Math.min(view.round.turns.length, Math.round(at) || 0));
  draw();
  if (view.quiet) return;
  clearTimeout(view.writes);
  view.writes = setTimeout(() => history.replaceState(null, '', `#round=${view.round.number}&turn=${view.at}`), 120);
}
function chooseRound(i, at) {
  const round = view.log.rounds[i];
  if (!round) return;
  Object.assign(view, { round, index: i, snaps: [startOf(round, view.log)], state: null, stateAt: -1 });
  $('at').max = round.turns.length;
  const box = $('rounds').querySelector('select');
  if (box) box.value = i;
  else [...$('rounds').children].forEach((b, j) => { if (j === i) b.setAttribute('aria-current', 'true'); else b.removeAttribute('aria-current'); });
  go(at ?? 0);
}
// To an answer or a lost exchange, on or back.
function jump(by) {
  const { turns } = view.round, isOne = t => t.lost || t.notes.some(n => n.mark === '=');
  let at = view.at + by;
  while (at > 0 && at < turns.length && !isOne(turns[at - 1])) at += by;
  go(at);
}
function play(on) {
  clearInterval(view.timer);
  const end = () => view.at >= view.round.turns.length;
  if (on && end()) go(0);
  view.timer = on ? setInterval(() => { go(view.at + 1); if (end()) play(false); }, 800) : null;
  $('play').textContent = on ? '\u25a0 stop' : '\u25b6 play';
  $('play').setAttribute('aria-pressed', String(on));
}

const KEYS = {
  ArrowRight: () => go(view.at + 1), ArrowLeft: () => go(view.at - 1), ArrowDown: () => jump(1), ArrowUp: () => jump(-1),
  Home: () => go(0), End: () => go(view.round.turns.length), n: () => chooseRound(view.index + 1), p: () => chooseRound(view.index - 1),
  ' ': () => play(!view.timer), '?': () => { $('help').open = !$('help').open; },
};
function onKey(e) {
  const at = e.target instanceof Element ? e.target : document.body, key = KEYS[e.key];
  if (e.key === 'Escape') $('help').open = false;
  if (!key || e.ctrlKey || e.altKey || e.metaKey || at.closest('select')) return;
  if (e.key === ' ' && at.closest('button, summary')) return;
  e.preventDefault();
  key();
}

// ---- the begin

function drawRounds() {
  const { rounds } = view.log, box = $('rounds'), name = r => `round ${r.number}: ${count(r.workers, 'worker')}, ${count(r.turns.length, 'turn')}`;
  if (rounds.length > 6) {
    const list = document.createElement('select');
    list.setAttribute('aria-label', 'Round');
    rounds.forEach((r, i) => list.append(new Option(name(r), i)));
    list.addEventListener('change', () => chooseRound(Number(list.value)));
    box.append(list);
  } else rounds.forEach((r, i) => {
    const button = document.createElement('button');
    Object.assign(button, { type: 'button', textContent: `round ${r.number}`, title: name(r) });
    button.addEventListener('click', () => chooseRound(i));
    box.append(button);
  });
}
function toAddress() {
  const words = new URLSearchParams(location.hash.slice(1)), { rounds } = view.log;
  const named = rounds.findIndex(r => r.number === Number(words.get('round'))), many = rounds.findIndex(r => r.workers > 1);
  chooseRound(named >= 0 ? named : Math.max(0, many), Number(words.get('turn') ?? 0));
}
function begin() {
  const text = $('log').textContent, checks = location.hash.slice(1) === 'check';
  view.log = readLog(text);
  const { log } = view;
  $('way').textContent = [`${log.frames} frames`, count(log.cpus, 'CPU'), log.way].join(', ');
  if (!log.rounds.length) {
    $('now').innerHTML = `<h2>No round</h2><p>The log shows no round.</p><pre>${esc([...log.items, log.total, log.fault].join('\n'))}</pre>`;
    if (checks) document.body.dataset.check = checkPage(text);
    return;
  }
  drawRounds();
  measure();
  $('at').addEventListener('input', () => go(Number($('at').value)));
  const moves = { first: 'Home', back: 'ArrowLeft', next: 'ArrowRight', last: 'End', play: ' ' };
  for (const [id, key] of Object.entries(moves)) $(id).addEventListener('click', () => KEYS[key]());
  for (const id of ['lanes', 'below']) $(id).addEventListener('click', e => {
    const n = e.target.closest('[data-n]')?.dataset.n;
    if (n && String(getSelection()) === '') go(Number(n));
  });
  $('whole').addEventListener('click', e => {
    const box = $('whole').getBoundingClientRect();
    go(Math.ceil((e.clientX - box.left) / box.width * view.round.turns.length));
  });
  addEventListener('keydown', onKey);
  addEventListener('resize', () => { measure(); draw(); });
  addEventListener('hashchange', toAddress);
  if (checks) document.body.dataset.check = checkPage(text);
  toAddress();
}

// With `#check` in the address: the log against itself, then the keys on this page, and how long a key takes to its drawing.
// The outcome stands in `data-check`, what differs in `data-differs`, and the time of the slowest key in `data-ms`: a slow key
// is tried five times and its best time counts, since the machine may have been at something else.
function checkPage(text) {
  const found = checkLog(text), faults = [];
  let slowest = 0;
  const timed = key => {
    const from = performance.now();
    dispatchEvent(new KeyboardEvent('keydown', { key, cancelable: true }));
    document.body.getBoundingClientRect();
    return performance.now() - from;
  };
  const press = key => {
    const { at, round } = view;
    let took = timed(key);
    if (round !== view.round || at === view.at) return;
    for (let i = 0; took > 80 && i < 4; i++) { go(at); took = Math.min(took, timed(key)); }
    slowest = Math.max(slowest, took);
  };
  const stands = (round, at, key) => {
    const t = round.turns[at - 1], head = $('now').querySelector('h2').textContent, cur = $('lines').querySelector('.cur');
    const right = view.round === round && view.at === at && Number($('at').value) === at
      && (t ? head.includes(`w${t.w} `) && head.includes(t.spot) && cur?.dataset.n === String(at) && document.querySelector('#lanes .frame') : !cur && head.includes(`Round ${round.number},`));
    if (!right) faults.push(`round ${round.number}: ${key} to ${at}`);
  };
  view.quiet = true;
  view.log.rounds.forEach((round, i) => {
    try { checkKeys(round, i, press, stands); } catch (fault) { faults.push(`round ${round.number}: ${fault.message}`); }
  });
  view.quiet = false;
  document.body.dataset.ms = Math.ceil(slowest);
  if (found.bad.length || faults.length) document.body.dataset.differs = [...found.bad, ...faults].slice(0, 20).join('\n');
  return `${found.rounds} rounds, ${found.turns} turns, ${found.bad.length} differ, keys ${faults.length ? 'fail' : 'ok'}`;
}
function checkKeys(round, i, press, stands) {
  const n = round.turns.length, ends = [0, Math.max(0, (n >> 1) - 15), Math.max(0, n - 30)];
  chooseRound(i, 0);
  stands(round, 0, 'the begin');
  for (const from of n <= 180 ? [0] : ends) {
    go(from);
    for (let at = from + 1; at <= Math.min(n, n <= 180 ? n : from + 30); at++) { press('ArrowRight'); stands(round, at, 'right'); }
  }
  press('End');
  stands(round, n, 'End');
  for (let at = n - 1; at >= Math.max(0, n - 20); at--) { press('ArrowLeft'); stands(round, at, 'left'); }
  press('Home');
  stands(round, 0, 'Home');
  const stops = round.turns.filter(t => t.lost || t.notes.some(k => k.mark === '=')).map(t => t.n);
  if (stops[stops.length - 1] !== n && n) stops.push(n);
  for (const at of stops.slice(0, 30)) { press('ArrowDown'); stands(round, at, 'down'); }
  for (const at of stops.slice(0, 29).reverse().slice(stops.length > 29 ? 0 : 1)) { press('ArrowUp'); stands(round, at, 'up'); }
  press('Home');
  press(' ');
  if (!view.timer) throw new Error('Space plays nothing');
  press(' ');
  if (view.timer) throw new Error("Space doesn't stop");
  press('?');
  if (!$('help').open) throw new Error('? shows nothing');
  press('?');
  if (view.log.rounds[i + 1]) { press('n'); stands(view.log.rounds[i + 1], 0, 'n'); press('p'); stands(round, 0, 'p'); }
}

if (typeof document !== 'undefined') begin();
"##;
