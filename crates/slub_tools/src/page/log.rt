//! What stands in `page/log.js`; made from it by `page/make program`.

/// The text of that file.
pub const TEXT: &[u8] =
    br##"// Reads a log of steps into rounds, turns and rows. It goes by words, not by columns.

// `none`, or numbers and rising ranges `A..B`. A range that no log can have is cut.
function numbersIn(words) {
  const out = [];
  for (const word of words) {
    if (word === 'none') continue;
    const [from, to] = word.split('..').map(Number);
    for (let i = from; i <= Math.min(to ?? from, from + 1000000); i++) out.push(i);
  }
  return out;
}

function rangesOf(row) {
  const out = [];
  for (let i = 0; i < row.length;) {
    let j = i;
    while (j + 1 < row.length && row[j + 1] === row[j] + 1) j++;
    out.push(i === j ? `${row[i]}` : `${row[i]}..${row[j]}`);
    i = j + 1;
  }
  return out.join(' ') || 'none';
}

const numberOrNone = text => text === 'none' ? null : Number(text);
const shown = value => value === null || value === undefined ? 'none' : String(value);

// How many words an event's head has behind its verb, and how many words name a word.
const HEAD_WORDS = { alloc: 1, free: 1, trim: 1, flush: 1, write: 2, read: 2, poke: 2 };
const NAME_WORDS = { cpu: 3, list: 3, slab: 2, link: 2, next: 2, board: 2, word: 3, node: 2, pool: 1, string: 1, checked: 2 };
const FIELDS = { cpu: ['tid', 'slab', 'head'], list: ['front', 'count'], slab: ['head', 'inuse', 'objects', 'frozen', 'listed'] };

// A line of the text of a round: `alloc 0 1 buf 5` is worker 0 on CPU 1.
function readEvent(line) {
  const w = line.trim().split(/ +/), e = { worker: Number(w[1]), verb: w[0], line: line.trim() };
  if (w[0] === 'alloc') Object.assign(e, { cpu: Number(w[2]), name: w[3], head: `alloc ${w[4]}`, text: `alloc ${w[4]} of ${w[3]}, CPU ${w[2]}` });
  else if (w[0] === 'free') Object.assign(e, { cpu: Number(w[2]), head: `free ${w[3]}`, text: `free ${w[3]}, CPU ${w[2]}` });
  else if (w[0] === 'trim') Object.assign(e, { name: w[2], head: `trim ${w[2]}`, text: `trim ${w[2]}` });
  else if (w[0] === 'flush') Object.assign(e, { head: `flush ${w[2]}`, text: `flush CPU ${w[2]}` });
  else Object.assign(e, { head: `${w[0]} ${w[2]} ${w[3]}`, text: [w[0], ...w.slice(2)].join(' ') });
  return e;
}

// A line of a turn, or one that belongs to it: `+` at once, `=` an answer, `:` what is in hand.
function readTurn(line, workers) {
  const w = line.trim().split(/ +/), t = { line, mark: /^\d+$/.test(w[0]) ? 'turn' : w[0], odd: '' };
  t.w = [...(w[1] ?? '')].findIndex(c => c !== '.');
  if ((w[1] ?? '').length !== workers || w[1] !== '.'.repeat(t.w) + t.w.toString(16) + '.'.repeat(Math.max(0, workers - t.w - 1)))
    t.odd = 'its lane is no worker';
  if (t.mark === '=' || t.mark === ':') { t.text = w.slice(2).join(' '); return t; }
  if (t.mark !== 'turn' && t.mark !== '+') { t.odd = 'no mark of a turn'; return t; }
  let at = 3 + (HEAD_WORDS[w[2]] ?? NaN);
  if (!(at < w.length)) { t.odd = 'no event'; return t; }
  t.event = w.slice(2, at).join(' ');
  [t.spot, t.by] = [w[at], w[at + 1]];
  at += 2;
  const count = w[at] === 'lock' ? (w[at + 1] === 'pool' ? 2 : 3) : NAME_WORDS[w[at]];
  if (!count) { t.odd = 'no word'; return t; }
  t.word = w.slice(at, at + count);
  t.key = t.word.join(' ');
  at += count;
  t.step = w[at] === 'exchange' || w[at] === 'at' ? `${w[at++]} ${w[at++]}` : w[at++];
  t.says = w.slice(at).join(' ');
  t.lost = t.step === 'exchange lost';
  t.writes = ['store', 'swap', 'exchange won'].includes(t.step);
  if (t.mark === 'turn') {
    t.n = Number(w[0]);
    const cut = t.says.indexOf(', found ');
    if (t.lost && cut >= 0) [t.says, t.found] = [t.says.slice(0, cut), t.says.slice(cut + 8)];
  }
  return t;
}

// The fields of a word, as they were and as they are after the step: `tid 2->4 slab 1` and so on.
// A word with one value has the one field `is`; `->3` doesn't say what was there before.
function fieldsIn(kind, says) {
  const was = {}, is = {}, put = (name, text) => {
    const [a, b] = (text ?? '').split('->');
    was[name] = b !== undefined && a === '' ? undefined : a;
    is[name] = b ?? a;
  };
  if (!FIELDS[kind]) put('is', says);
  else {
    const w = says.split(' ');
    for (let i = 0; i < w.length; i += 2) put(w[i], w[i + 1]);
  }
  return { was, is };
}

// What a worker has in hand: `slab 2 kept, slab 3 ready from 1, string of 2 from 5, frames 8..9`.
function readHand(text) {
  const hand = { text, slabs: [], string: null, frames: [], odd: '' };
  for (const part of text.split(', ')) {
    let m;
    if ((m = part.match(/^slab (\d+) (ready|taken|leaving|popped|kept|loose)(?: from (\d+))?$/)))
      hand.slabs.push({ slab: Number(m[1]), role: m[2], from: m[3] === undefined ? null : Number(m[3]) });
    else if ((m = part.match(/^string of (\d+) from (\d+)$/))) hand.string = { count: Number(m[1]), front: Number(m[2]) };
    else if ((m = part.match(/^frames (\d+(?:\.\.\d+)?)$/))) hand.frames = numbersIn([m[1]]);
    else if (part !== 'nothing') hand.odd = part;
  }
  return hand;
}

function newRound(w) {
  return { number: parseInt(w[1], 10), workers: Number(w[3]), items: [], events: [], before: [], after: [], first: [], turns: [],
    end: '', picks: '', replies: [], damages: [], fault: '' };
}

// The whole log. `odd` has the lines that say nothing that a log can say.
function readLog(text) {
  const log = { frames: 0, cpus: 0, tid: 0, step: 0, way: '', rounds: [], items: [], total: '', fault: '', odd: [] };
  let round = null, mode = 'items';
  text.split('\n').forEach((line, at) => {
    const w = line.trim().split(/ +/), odd = why => log.odd.push(`line ${at}: ${why}: ${line}`);
    if (line === '' || line.startsWith('  turn ')) return;
    if (line[0] === ' ') {
      if (!round) odd('stands before the first round');
      else if (mode === 'events') round.events.push(readEvent(line));
      else if (/^ {2}(pool|cache|cpu|list|node|slab|board) /.test(line)) (mode === 'after' ? round.after : round.before).push(line.slice(2));
      else {
        const t = readTurn(line, round.workers);
        if (t.odd) odd(t.odd);
        else if (t.mark === 'turn') { t.notes = []; round.turns.push(t); }
        else (round.turns.length ? round.turns[round.turns.length - 1].notes : round.first).push(t);
      }
      return;
    }
    if (!round && /^machine \d+ \d+ tid \d+ step \d+$/.test(line))
      Object.assign(log, { frames: Number(w[1]), cpus: Number(w[2]), tid: Number(w[4]), step: Number(w[6]) });
    else if (!round && /^slubsteps 1$/.test(line)) log.version = 1;
    else if (!round && !log.way && /^(seed|picks) [^ ]/.test(line)) log.way = line;
    else if (/^round \d+, workers \d+$/.test(line)) {
      round = newRound(w);
      round.items = log.items;
      log.items = [];
      log.rounds.push(round);
      mode = 'events';
    } else if (round && /^state (before|after) round \d+$/.test(line)) {
      mode = w[1];
      if (Number(w[3]) !== round.number) odd('another round');
    } else if (round && /^end of round \d+: turns \d+, exchanges lost \d+, waits for a lock \d+$/.test(line)) { round.end = line; mode = 'replies'; }
    else if (mode === 'replies' && !round.picks && !round.replies.length && /^picks [^ ]/.test(line)) round.picks = line.slice(6);
    else if (mode === 'replies' && round.replies.length < round.events.length) round.replies.push(line);
    else if (mode === 'replies' && line.startsWith('damage ')) round.damages.push(line);
    else if (mode === 'replies' || mode === 'items') {
      mode = 'items';
      if (line.startsWith('total ')) log.total = line;
      else if (line.startsWith('slub: ')) log.fault = line;
      else log.items.push(line);
    } else if (round && line.startsWith('slub: ')) log.fault = round.fault = line;
    else odd('stands in the midst of a round');
  });
  if (!log.version || !log.way || !log.frames) log.odd.push('the head of the log is not whole');
  return log;
}
"##;
