//! What stands in `page/state.js`; made from it by `page/make program`.

/// The text of that file.
pub const TEXT: &[u8] =
    br##"// The state of the machine, from the rows that the log prints, and what a turn makes of it.
// What stands in a map is never changed but replaced, so that a copy of the maps is a copy of the state.

function readState(rows, log, workers) {
  const s = { pool: new Set(), caches: new Map(), slabs: new Map(), next: new Map(), links: new Map(), board: new Map(),
    locks: new Map(), held: [], hands: [], values: new Map(), first: log };
  for (let w = 0; w < workers; w++) { s.held.push(new Map()); s.hands.push(readHand('nothing')); }
  let cache = null;
  for (const row of rows) {
    const w = row.split(/ +/), rest = name => numbersIn(w.slice(w.lastIndexOf(name) + 1));
    if (w[0] === 'pool') s.pool = new Set(numbersIn(w.slice(1)));
    else if (w[0] === 'cache') {
      const of = name => Number(w[w.indexOf(name, 2) + 1]);
      cache = { title: w[1], row, size: of('size'), pad: of('left_pad'), order: of('order'), objects: of('objects'),
        minOrder: of('min_order'), minPartial: of('min_partial'), cpuPartial: of('cpu_partial_slabs'),
        names: w.slice(w.indexOf('names', 2) + 1), checked: false, node: [], cpus: [], lists: [] };
      for (let c = 0; c < log.cpus; c++) {
        cache.cpus.push({ tid: String(log.tid + c), slab: null, head: null });
        cache.lists.push({ front: null, count: 0 });
      }
      s.caches.set(w[1], cache);
    } else if (w[0] === 'cpu') {
      cache.cpus[Number(w[1])] = { tid: w[4], slab: numberOrNone(w[6]), head: numberOrNone(w[8]) };
      chain(s, numberOrNone(w[6]), rest('freelist'));
    } else if (w[0] === 'list') {
      cache.lists[Number(w[1])] = { front: numberOrNone(w[4]), count: Number(w[6]) };
      const slabs = w.slice(8).map(Number);
      slabs.forEach((f, i) => s.links.set(f, slabs[i + 1] ?? null));
    } else if (w[0] === 'node') {
      cache.checked = w[2] === 'listed';
      cache.node = w[3] === 'none' ? [] : w.slice(3).map(Number);
    } else if (w[0] === 'slab') {
      const f = Number(w[1]), of = cache.title, get = name => w[w.indexOf(name, 2) + 1];
      if (cache.checked) {
        const free = numbersIn(w.slice(w.indexOf('free') + 1, w.indexOf('aside')));
        s.slabs.set(f, { of, checked: true, objects: Number(get('objects')), free, aside: rest('aside') });
      } else {
        s.slabs.set(f, { of, checked: false, head: numberOrNone(get('head')), inuse: Number(get('inuse')),
          objects: Number(get('objects')), frozen: Number(get('frozen')), listed: Number(get('listed')) });
        chain(s, f, rest('freelist'));
      }
    } else if (w[0] === 'board') {
      const [from, to] = w[1].split('..').map(Number), dot = w[2].indexOf('.');
      const f = Number(w[2].slice(0, dot)), i = parseInt(w[2].slice(dot + 1), 10);
      for (let o = from; o <= Math.min(to ?? from, from + 1000000); o++) s.board.set(o, [f, i + o - from]);
    }
  }
  return s;
}

function setNext(s, f, i, to) {
  const row = (s.next.get(f) ?? []).slice();
  row[i] = to;
  s.next.set(f, row);
}
function chain(s, f, row) {
  const next = (s.next.get(f) ?? []).slice();
  row.forEach((i, at) => { next[i] = row[at + 1] ?? null; });
  if (f !== null) s.next.set(f, next);
}

function copyState(s) {
  const out = { ...s, pool: new Set(s.pool), caches: new Map(), held: s.held.map(m => new Map(m)), hands: s.hands.slice() };
  for (const name of ['slabs', 'next', 'links', 'board', 'locks', 'values']) out[name] = new Map(s[name]);
  for (const [title, c] of s.caches) out.caches.set(title, { ...c, cpus: c.cpus.slice(), lists: c.lists.slice(), node: c.node.slice() });
  return out;
}

// The state before the first turn of a round.
function startOf(round, log) {
  const s = readState(round.before, log, round.workers);
  round.first.forEach(n => applyNote(s, n));
  return s;
}

// What a word says now, field by field, as the log would have it. Undefined where the log didn't tell.
function wordNow(s, word) {
  const [kind, a, b] = word, text = (value, names) => value && Object.fromEntries(names.map(k => [k, shown(value[k])]));
  if (kind === 'cpu') return text(s.caches.get(b)?.cpus[a], FIELDS.cpu);
  if (kind === 'list') return text(s.caches.get(b)?.lists[a], FIELDS.list);
  if (kind === 'slab') return text(s.slabs.get(Number(a)) ?? { head: null, inuse: 0, objects: 0, frozen: 0, listed: 0 }, FIELDS.slab);
  if (kind === 'link') return s.links.has(Number(a)) ? { is: shown(s.links.get(Number(a))) } : undefined;
  if (kind === 'next') {
    const [f, i] = placeIn(a), row = s.next.get(f);
    return row && row[i] !== undefined ? { is: shown(row[i]) } : undefined;
  }
  if (kind === 'board') {
    const at = s.board.get(Number(a));
    return { is: at ? at.join('.') : 'none' };
  }
  if (kind === 'lock') {
    const who = s.locks.get(word.slice(1).join(' '));
    return { is: who === undefined || who === null ? 'free' : `w${who}` };
  }
  if (kind === 'word') return s.values.has(word.join(' ')) ? { is: s.values.get(word.join(' ')) } : undefined;
  return undefined;
}
const placeIn = text => text.split('.').map(Number);

function cacheNamed(s, name) {
  for (const c of s.caches.values()) if (c.names.includes(name)) return c;
  return undefined;
}

// A turn: its step, then what belongs to it.
function applyTurn(s, t, round) {
  if (t.writes) {
    const { was, is } = fieldsIn(t.word[0], t.says), [kind, a, b] = t.word;
    if (kind === 'cpu') s.caches.get(b).cpus[a] = { tid: is.tid, slab: numberOrNone(is.slab), head: numberOrNone(is.head) };
    else if (kind === 'list') s.caches.get(b).lists[a] = { front: numberOrNone(is.front), count: Number(is.count) };
    else if (kind === 'slab') {
      const f = Number(a), old = s.slabs.get(f);
      if (t.spot === 'Unmake') s.slabs.delete(f);
      else {
        const event = round.events.find(e => e.worker === t.w && e.head === t.event);
        s.slabs.set(f, { of: old ? old.of : cacheNamed(s, event.name).title, checked: false, head: numberOrNone(is.head),
          inuse: Number(is.inuse), objects: Number(is.objects), frozen: Number(is.frozen), listed: Number(is.listed) });
      }
    } else if (kind === 'link') s.links.set(Number(a), numberOrNone(is.is));
    else if (kind === 'next') setNext(s, ...placeIn(a), numberOrNone(is.is));
    else if (kind === 'word') s.values.set(t.key, is.is);
    else if (kind === 'lock') s.locks.set(t.word.slice(1).join(' '), is.is === 'free' ? null : Number(is.is.slice(1)));
    else if (kind === 'board' && was.is !== 'none') {
      s.board.delete(Number(a));
      s.held[t.w].set(Number(a), placeIn(was.is));
    }
  }
  let run = 0;                             // frames that were taken in this turn
  for (const n of t.notes) {
    if (n.mark === '+' && n.word[0] === 'pool' && n.says.startsWith('takes')) run = numbersIn([n.says.split(' ')[2]]).length;
    applyNote(s, n, run);
  }
}

function applyNote(s, n, run) {
  if (n.mark === ':') { s.hands[n.w] = readHand(n.text.slice(8)); return; }
  if (n.mark === '=') {
    const m = n.text.match(/^(?:alloc|free) (\d+): (given|freed) \d+ at (\d+)\.(\d+)$/);
    if (m && m[2] === 'given') s.held[n.w].set(Number(m[1]), [Number(m[3]), Number(m[4])]);
    if (m && m[2] === 'freed') s.held[n.w].delete(Number(m[1]));
    return;
  }
  const w = n.says.replace(/,/g, '').split(' '), cache = s.caches.get(n.word[1]);
  if (n.word[0] === 'pool' && w[1] === 'frames') {
    if (w[0] === 'takes') numbersIn([w[2]]).forEach(f => s.pool.delete(f));
    if (w[0] === 'puts') numbersIn([w[2]]).forEach(f => s.pool.add(f));
  }
  if (n.word[0] === 'node') {
    if (w[0] === 'takes' && w[1] === 'slab') cache.node = cache.node.filter(f => f !== Number(w[2]));
    if (w[0] === 'puts') w[5] === 'head' ? cache.node.unshift(Number(w[2])) : cache.node.push(Number(w[2]));
    if (w[0] === 'orders') cache.node = numbersIn(w.slice(1));
  }
  if (n.word[0] === 'checked') applyChecked(s, cache, w, run);
}

// A call of a checked cache, made whole under its lock.
function applyChecked(s, cache, w, run) {
  const change = (f, x) => s.slabs.set(f, { ...s.slabs.get(f), ...x }), off = f => { cache.node = cache.node.filter(g => g !== f); };
  const give = ([f, i]) => {
    const free = s.slabs.get(f).free.filter(j => j !== i);
    change(f, { free });
    if (!free.length) off(f);
  };
  if (w[0] === 'gives') give(placeIn(w[1]));
  if (w[0] === 'adds') {
    const f = Number(w[2]), objects = Math.floor(4096 * run / cache.size);
    s.slabs.set(f, { of: cache.title, checked: true, objects, free: Array.from({ length: objects }, (_, i) => i), aside: [] });
    cache.node.unshift(f);
    give(placeIn(w[4]));
  }
  if (w[0] === 'sets') {
    const f = Number(w[2]), { free, aside } = s.slabs.get(f);
    change(f, { free: [], aside: [...aside, ...free].sort((a, b) => a - b) });
    off(f);
  }
  if (w[0] === 'takes') {
    const [f, i] = placeIn(w[1]);
    change(f, { free: [i, ...s.slabs.get(f).free] });
    if (!cache.node.includes(f)) cache.node.push(f);
    if (w.includes('off')) { off(f); s.slabs.delete(f); }
  }
  if (w[0] === 'has' && w[2] === 'memory') numbersIn([w[5]]).forEach(f => s.pool.add(f));
}

// A freelist from its head, and slabs from the front of a list. Both end, whatever the words say.
function walk(s, f, head) {
  const out = [], next = s.next.get(f) ?? [];
  for (let i = head; i !== null && i !== undefined && out.length < 65536; i = next[i]) out.push(i);
  return out;
}
function slabsFrom(s, front, count) {
  const out = [];
  for (let f = front; out.length < Math.min(count, 65536) && f !== null && f !== undefined; f = s.links.get(f)) out.push(f);
  return out;
}

// Where each object of each slab is: a list of places for each, of which there must be one.
function placesOf(s) {
  const out = new Map();
  for (const [f, x] of s.slabs) out.set(f, Array.from({ length: x.objects }, () => []));
  const put = (f, i, place) => out.get(f)?.[i]?.push(place);
  s.held.forEach((held, w) => held.forEach(([f, i], o) => put(f, i, { kind: 'held', w, o })));
  s.board.forEach(([f, i], o) => put(f, i, { kind: 'board', o }));
  for (const c of s.caches.values())
    c.cpus.forEach((word, cpu) => { if (word.slab !== null) walk(s, word.slab, word.head).forEach((i, n) => put(word.slab, i, { kind: 'cpu', cpu, n })); });
  for (const [f, x] of s.slabs) {
    if (x.checked) {
      x.free.forEach((i, n) => put(f, i, { kind: 'own', n }));
      x.aside.forEach(i => put(f, i, { kind: 'aside' }));
    } else walk(s, f, x.head).forEach((i, n) => put(f, i, { kind: 'own', n }));
    const w = s.hands.findIndex(h => h.slabs.some(part => part.slab === f));
    if (w >= 0) out.get(f).forEach(places => { if (!places.length) places.push({ kind: 'hand', w }); });
  }
  return out;
}

// Where each slab is: on which CPU, list or node, or in whose hand.
function rolesOf(s) {
  const out = new Map([...s.slabs.keys()].map(f => [f, []]));
  const put = (f, role) => out.get(f)?.push(role);
  for (const c of s.caches.values()) {
    c.cpus.forEach((word, cpu) => { if (word.slab !== null) put(word.slab, { kind: 'cpu', cpu }); });
    c.lists.forEach((list, cpu) => slabsFrom(s, list.front, list.count).forEach((f, n) => put(f, { kind: 'list', cpu, n })));
    c.node.forEach((f, n) => put(f, { kind: 'node', n }));
  }
  s.hands.forEach((hand, w) => {
    hand.slabs.forEach(part => put(part.slab, { kind: 'hand', w, role: part.role }));
    if (hand.string) slabsFrom(s, hand.string.front, hand.string.count).forEach(f => put(f, { kind: 'string', w }));
  });
  return out;
}

// The frames of a slab.
function framesOf(s, f) {
  const x = s.slabs.get(f), c = s.caches.get(x.of);
  return Array.from({ length: 1 << (x.objects === c.objects ? c.order : c.minOrder) }, (_, i) => f + i);
}

// The rows that the log prints for a state, with what the workers hold put on the board.
function rowsOf(s) {
  const out = [], row = (name, text) => out.push(`${name.padEnd(15)} ${text}`.trimEnd());
  row('pool', rangesOf([...s.pool].sort((a, b) => a - b)));
  for (const c of s.caches.values()) {
    out.push(c.row);
    const slabs = [...s.slabs].filter(([, x]) => x.of === c.title).sort((a, b) => a[0] - b[0]);
    if (c.checked) {
      row(`node ${c.title}`, `listed ${c.node.join(' ') || 'none'}`);
      for (const [f, x] of slabs) row(`slab ${f}`, `objects ${x.objects} free ${rangesOf(x.free)} aside ${rangesOf(x.aside)}`);
      continue;
    }
    c.cpus.forEach((word, i) => {
      if (word.slab === null && word.tid === String(s.first.tid + i)) return;
      const free = word.slab === null ? [] : walk(s, word.slab, word.head);
      row(`cpu ${i} ${c.title}`, `tid ${word.tid} slab ${shown(word.slab)} head ${shown(word.head)} freelist ${rangesOf(free)}`);
    });
    c.lists.forEach((list, i) => {
      if (list.count) row(`list ${i} ${c.title}`, `front ${shown(list.front)} count ${list.count} slabs ${slabsFrom(s, list.front, list.count).join(' ')}`);
    });
    row(`node ${c.title}`, `slabs ${c.node.join(' ') || 'none'}`);
    for (const [f, x] of slabs)
      row(`slab ${f}`, `${FIELDS.slab.map(k => `${k} ${shown(x[k])}`).join(' ')} freelist ${rangesOf(walk(s, f, x.head))}`);
  }
  const board = new Map(s.board);
  s.held.forEach(held => held.forEach((at, o) => board.set(o, at)));
  const all = [...board].sort((a, b) => a[0] - b[0]);
  for (let i = 0; i < all.length;) {
    let j = i;
    while (j + 1 < all.length && all[j + 1][0] === all[j][0] + 1 && all[j + 1][1][0] === all[j][1][0] && all[j + 1][1][1] === all[j][1][1] + 1) j++;
    const [o, [f, x]] = all[i], [p, [, y]] = all[j];
    if (i === j) row(`board ${o}`, `${f}.${x}`);
    else row(`board ${o}..${p}`, `${f}.${x}..${y}`);
    i = j + 1;
  }
  return out;
}
"##;
