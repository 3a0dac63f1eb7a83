//! What stands in `page/check.js`; made from it by `page/make program`.

/// The text of that file.
pub const TEXT: &[u8] =
    br##"// Does a log agree with itself? Each round is replayed from its lines. After each turn each object, slab and frame is in one
// place; what a turn found is what the turns before it left; and at the end the state is the one that is printed.
// It needs no page, so that it also runs where there is no browser.

function checkLog(text) {
  const log = readLog(text), bad = [...log.odd];
  let turns = 0;
  log.rounds.forEach((round, at) => {
    turns += round.turns.length;
    const say = what => bad.push(`round ${round.number}, ${what}`);
    try { checkRound(log, round, log.rounds[at + 1], at + 1 === log.rounds.length, say); } catch (fault) { say(`can't be replayed: ${fault.message}`); }
  });
  return { rounds: log.rounds.length, turns, bad };
}

function checkRound(log, round, following, isLast, say) {
  let s = readState(round.before, log, round.workers);
  compare(rowsOf(s), round.before, 'before it', say);
  const answers = round.events.length && Array.from({ length: round.workers }, () => []);
  const noteAnswer = (n, where) => {
    if (n.mark !== '=') return;
    answers[n.w].push(n.text.replace(/ at \d+\.\d+$/, ''));
    const m = n.text.match(/: (?:given|freed) (\d+) at (\d+)\.(\d+)$/), c = m && s.caches.get(s.slabs.get(Number(m[2]))?.of ?? s.last?.of);
    if (m && !c) say(`${where}: no object ${m[2]}.${m[3]}`);
    if (c && Number(m[1]) !== Number(m[2]) * 4096 + Number(m[3]) * c.size + c.pad) say(`${where}: ${m[1]} isn't ${m[2]}.${m[3]}`);
  };
  for (const n of round.first) {
    if (n.mark !== '=') say(`before its first turn: ${n.line}`);
    else noteAnswer(n, 'before its first turn');
  }
  s = startOf(round, log);
  let n = 0;
  const notes = answers.map(() => new Map());
  for (const t of round.turns) {
    const where = `turn ${t.n}`, wrong = what => say(`${where}: ${what}`);
    if (t.n !== ++n) wrong(`its number isn't ${n}`);
    const done = answers[t.w].length, mine = round.events.filter(e => e.worker === t.w);
    if (![mine[done]?.head, mine[done - 1]?.head].includes(t.event)) wrong(`worker ${t.w} isn't in ${t.event}`);
    checkTurn(s, t, round, notes[t.w], wrong);
    if (t.step === 'load') { notes[t.w].set(t.key, t.says); notes[t.w].set(t.word[0], t); }
    s.last = undefined;
    for (const k of t.notes) if (k.mark === '+' && k.says.startsWith('takes') && k.says.endsWith('off')) s.last = s.slabs.get(placeIn(k.says.split(' ')[1])[0]);
    applyTurn(s, t, round);
    t.notes.forEach(k => noteAnswer(k, where));
    checkPlaces(s, log, wrong);
  }
  checkEvents(round, answers, say);
  if (round.end) {
    compare(rowsOf(s), round.after, 'after it', say);
    checkEnd(s, round, answers, say);
    if (following && !following.items.length) compare(withoutIds(following.before), withoutIds(round.after), `and round ${following.number} before it`, say);
    if (isLast && log.total && !log.items.length) checkTotal(s, log.total, say);
  } else if (round.after.length || !isLast || !round.fault) say('has no end and no fault');
}

function compare(mine, printed, what, say) {
  for (let i = 0; i < Math.max(mine.length, printed.length); i++)
    if (mine[i] !== printed[i]) say(`state ${what}: ${mine[i] ?? 'no row'} | ${printed[i] ?? 'no row'}`);
}
// Between two rounds the transaction ids may begin anew.
function withoutIds(rows) {
  return rows.filter(row => !/^cpu \d+ [^ ]+ +tid \d+ slab none /.test(row)).map(row => row.replace(/^(cpu \d+ [^ ]+ +)tid \d+ /, '$1'));
}

// One turn against the state before it.
function checkTurn(s, t, round, notes, wrong) {
  checkLine(s, t, round, wrong);
  const [kind] = t.word, { was, is } = fieldsIn(kind, t.says), now = wordNow(s, t.word), same = (a, b) => Object.keys(b).every(k => a[k] === b[k]);
  if (FIELDS[kind] && Object.keys(is).join(' ') !== FIELDS[kind].join(' ')) wrong(`its fields are ${Object.keys(is).join(' ')}`);
  if (Object.values(is).some(v => v === undefined || v === 'undefined' || v === '')) wrong(`says ${t.says}`);
  if (t.word[0] !== 'lock' && t.step.startsWith('exchange')) {
    const noted = Object.entries(was).flat().join(' ');
    if (notes.get(t.key) !== noted) wrong(`noted ${notes.get(t.key)}, exchanges from ${noted}`);
  }
  if (kind === 'next' || kind === 'word') {
    const [f, i] = placeIn(t.word[1]);
    if (!(s.slabs.has(f) || s.hands[t.w].frames.includes(f)) || !(i >= 0)) wrong(`no object ${t.word[1]}`);
    const cpu = notes.get('cpu'), { is } = cpu ? fieldsIn('cpu', cpu.says) : {};
    if (t.spot === 'LoadNext' && t.word[1] !== `${is?.slab}.${is?.head}`) wrong(`${t.word[1]} isn't the noted head`);
  }
  if (kind === 'link' && !s.slabs.has(Number(t.word[1]))) wrong(`no slab ${t.word[1]}`);
  if (t.step === 'store' && ['link', 'next', 'word'].includes(kind) && !/^->(\d+|none)$/.test(t.says)) wrong(`says ${t.says}`);
  if (t.step === 'load') {
    if (t.says.includes('->')) wrong('a load that changes');
    const held = kind === 'next' && isHeld(s, placeIn(t.word[1]));
    if (now && !held && !same(now, is)) wrong(`found ${t.says}, left ${Object.entries(now).flat().join(' ')}`);
  } else if (t.writes) {
    const old = Object.fromEntries(Object.entries(was).filter(([, v]) => v !== undefined));
    if (now && !same(now, old)) wrong(`changes ${t.says}, left ${Object.entries(now).flat().join(' ')}`);
    if (kind === 'board' && was.is === 'none' && is.is !== 'none' || kind === 'lock' && was.is === is.is) wrong(`says ${t.says}`);
    if (kind === 'cpu' && !(Number(is.tid) > Number(was.tid))) wrong('its transaction id isn\'t raised');
    if (kind === 'lock' && ![was.is, is.is].includes('free')) wrong(`says ${t.says}`);
    if (kind === 'lock' && ![was.is, is.is].includes(`w${t.w}`)) wrong(`says ${t.says}`);
  } else if (t.lost) {
    if (t.found === undefined) wrong('a lost exchange that found nothing');
    else if (!t.found.startsWith('cache ')) {
      const found = kind === 'lock' ? { is: t.found } : fieldsIn(kind, t.found).is, left = now ?? {};
      const differ = Object.keys(left).filter(k => left[k] !== was[k]);
      if (differ.join(' ') !== Object.keys(found).join(' ') || !same(left, found)) wrong(`found ${t.found}, left ${Object.entries(left).flat().join(' ')}`);
    }
  }
  for (const n of t.notes) checkNote(s, n, t, round, wrong);
}

// Spot, function, word and step against each other, and the event against the text of the round.
function checkLine(s, t, round, wrong) {
  const spot = SPOTS.get(t.spot), kind = t.word[0] === 'lock' ? `lock ${t.word[1]}` : t.word[0];
  if (!spot || !spot.by.includes(t.by) || spot.word !== kind || spot.step !== t.step.replace(/ (won|lost)$/, '')
    || spot.step === 'exchange' === ['load', 'store', 'swap', 'at once'].includes(t.step)) wrong(`not a step: ${t.spot} ${t.by} ${t.key} ${t.step}`);
  const event = round.events.find(e => e.worker === t.w && e.head === t.event);
  if (!event) { wrong(`worker ${t.w} has no event ${t.event}`); return; }
  if (event.name && !cacheNamed(s, event.name)) wrong(`no cache ${event.name}`);
  const cache = cacheNamed(s, event.name), title = { cpu: t.word[2], list: t.word[2], node: t.word[1], checked: t.word[1] }[t.word[0]] ?? (kind === 'lock node' ? t.word[2] : undefined);
  if (['cpu', 'list'].includes(kind) && event.cpu !== undefined && String(event.cpu) !== t.word[1]) wrong(`${t.event} is on CPU ${event.cpu}`);
  if (cache && title !== undefined && title !== cache.title) wrong(`${t.event} isn't of ${title}`);
  if (title !== undefined && !s.caches.has(title)) wrong(`no cache ${title}`);
  if (['cpu', 'list'].includes(kind) && !wordNow(s, t.word)) wrong(`no ${t.key}`);
  if (['cpu', 'list'].includes(kind) && event.verb === 'flush' && t.event !== `flush ${t.word[1]}`) wrong(`${t.event} isn't of CPU ${t.word[1]}`);
  if (kind === 'board' && t.event !== `free ${t.word[1]}`) wrong(`${t.event} isn't of number ${t.word[1]}`);
}

function checkNote(s, n, t, round, wrong) {
  if (n.w !== t.w && n.mark !== '=') wrong(`a line of worker ${n.w}`);
  if (n.mark === ':') {
    const hand = readHand(n.text.slice(8)), front = hand.string?.front;
    if (front !== undefined && !s.slabs.has(front)) wrong(`says ${n.text}`);
    if (!n.text.startsWith('in hand ') || hand.odd) wrong(`says ${n.text}`);
    return;
  }
  if (n.mark === '=') {
    if (!round.events.some(e => e.worker === n.w && n.text.startsWith(`${e.head}: `))) wrong(`answers ${n.text}`);
    return;
  }
  checkLine(s, n, round, wrong);
  const w = n.says.replace(/,/g, '').split(' '), node = s.caches.get(n.word[1])?.node, frames = n.word[0] === 'pool' ? numbersIn([w[2] ?? 'none']) : [];
  const saysOneOf = (...forms) => { if (!forms.some(form => form.test(n.says))) wrong(`says ${n.says}`); };
  if (n.word[0] === 'pool') {
    saysOneOf(/^takes frames \d+(\.\.\d+)?$/, /^puts frames \d+(\.\.\d+)? back$/, /^has no run of order \d+$/);
    if (w[0] === 'takes' && frames.some(f => !s.pool.has(f)) || w[0] === 'puts' && frames.some(f => s.pool.has(f))) wrong(`says ${n.says}`);
  }
  if (n.word[0] === 'node') {
    saysOneOf(/^(takes slab \d+ off|takes none, it is empty|takes none, it has enough|puts slab \d+ at the (head|tail)|keeps slab \d+|comes to slab \d+|orders [\d ]+|orders none)$/);
    const changed = t.notes.some(k => k !== n && k.mark === '+' && k.key === n.key);
    const on = node.includes(Number(w[w.indexOf('slab') + 1])), isPut = w[0] === 'puts', names = /^(takes|puts|keeps|comes)$/.test(w[0]) && w[1] !== 'none';
    if (names && !changed && on === isPut) wrong(`says ${n.says}`);
    if (w[1] === 'none' && w[4] === 'empty' && !changed && node.length) wrong(`says ${n.says}`);
  }
  if (n.word[0] === 'string') saysOneOf(/^(gives slab \d+, its last|leads on behind slab \d+|is at its end)$/);
  if (n.word[0] === 'checked')
    saysOneOf(/^sets slab \d+ aside, \d+\.\d+ \w+ offset -?\d+ found [0-9a-f]{2} wanted [0-9a-f]{2}$/, /^gives \d+\.\d+$/, /^has no free object$/,
      /^takes \d+\.\d+ back(, takes slab \d+ off)?$/, /^finds \d+\.\d+ \w+ offset -?\d+ found [0-9a-f]{2} wanted [0-9a-f]{2}$/,
      /^(writes|reads) word \d+ of \d+\.\d+, \d+$/, /^pokes (nothing|byte -?\d+ of \d+\.\d+, [0-9a-f]{2})$/,
      /^adds slab \d+, gives \d+\.0$/, /^has no memory, puts frames \d+(\.\.\d+)? back$/);
  const at = n.word[0] === 'checked' && !w.includes('adds') ? n.says.match(/(\d+)\.(\d+)/) : null;
  if (at && !(Number(at[2]) < s.slabs.get(Number(at[1]))?.objects)) wrong(`no object ${at[0]}`);
  if (at && w[0] === 'gives' && !s.slabs.get(Number(at[1]))?.free?.includes(Number(at[2]))) wrong(`says ${n.says}`);
}

const isHeld = (s, [f, i]) => s.held.some(held => [...held.values()].some(at => at[0] === f && at[1] === i));

// In how many places each object of each slab is.
function countPlaces(s) {
  const out = new Map(), put = (f, i) => { const row = out.get(f); if (row && i < row.length) row[i]++; };
  for (const [f, x] of s.slabs) out.set(f, new Uint8Array(x.objects));
  for (const held of s.held) for (const at of held.values()) put(at[0], at[1]);
  for (const at of s.board.values()) put(at[0], at[1]);
  for (const c of s.caches.values()) for (const word of c.cpus) if (word.slab !== null) for (const i of walk(s, word.slab, word.head)) put(word.slab, i);
  for (const [f, x] of s.slabs) for (const i of x.checked ? [...x.free, ...x.aside] : walk(s, f, x.head)) put(f, i);
  for (const hand of s.hands) for (const part of hand.slabs) {
    const row = out.get(part.slab) ?? [];
    row.forEach((n, i) => { if (!n) row[i] = 1; });
  }
  return out;
}

// Each object, slab and frame in one place, and the counts of slabs.
function checkPlaces(s, log, wrong) {
  for (const [f, row] of countPlaces(s)) if (row.some(n => n !== 1))
    placesOf(s).get(f).forEach((places, i) => { if (places.length !== 1) wrong(`${f}.${i} is in ${places.map(p => p.kind).join(' and ') || 'no place'}`); });
  for (const [f, roles] of rolesOf(s)) {
    const x = s.slabs.get(f);
    if (roles.length > 1) wrong(`slab ${f} is in ${roles.map(p => p.kind).join(' and ')}`);
    if (!x.checked && x.inuse + walk(s, f, x.head).length !== x.objects) wrong(`slab ${f} counts ${x.inuse} in use`);
  }
  const frames = [...s.pool, ...s.hands.flatMap(h => h.frames), ...[...s.slabs.keys()].flatMap(f => framesOf(s, f))];
  if (frames.length !== log.frames - 1 || new Set(frames).size !== frames.length || frames.includes(0)) wrong('a frame isn\'t in one place');
  s.hands.forEach((hand, w) => {
    for (const part of hand.slabs) if (!s.slabs.has(part.slab)) wrong(`w${w} has slab ${part.slab} in hand`);
  });
}

// The answers of each worker are to its events, in their order.
function checkEvents(round, answers, say) {
  round.events.forEach(e => { if (!(e.worker >= 0 && e.worker < round.workers) || !(e.verb in HEAD_WORDS)) say(`an event that isn't one: ${e.line}`); });
  for (let w = 0; w < round.workers; w++) {
    const heads = round.events.filter(e => e.worker === w).map(e => e.head);
    answers[w].forEach((text, i) => { if (!text.startsWith(`${heads[i]}: `)) say(`worker ${w} answers ${text}`); });
    if (round.end && answers[w].length !== heads.length) say(`worker ${w} has ${answers[w].length} answers to ${heads.length} events`);
  }
}

// The lines behind the state after the round.
function checkEnd(s, round, answers, say) {
  const lost = round.turns.filter(t => t.lost), waits = lost.filter(t => t.word[0] === 'lock').length;
  const end = `end of round ${round.number}: turns ${round.turns.length}, exchanges lost ${lost.length - waits}, waits for a lock ${waits}`;
  if (round.end !== end) say(`${end} | ${round.end}`);
  const picks = [];
  for (const t of round.turns) picks.length && picks[picks.length - 1][0] === t.w ? picks[picks.length - 1][1]++ : picks.push([t.w, 1]);
  const part = round.workers < 2 ? '' : picks.map(([w, n]) => n > 1 ? `${w}:${n}` : `${w}`).join(',') || '0:end';
  if (round.picks !== part) say(`picks ${part} | ${round.picks}`);
  const next = answers.map(() => 0);
  const replies = round.events.map(e => answers[e.worker]?.[next[e.worker]++]);
  compare(replies, round.replies, 'in replies', say);
  const damages = round.turns.flatMap(t => t.notes).filter(n => n.mark === '+' && n.says.startsWith('sets ')).map(n => {
    const [, at, damage] = n.says.match(/aside, (\d+\.\d+) (.*)$/), [f, i] = placeIn(at), c = s.caches.get(n.word[1]);
    return `damage ${c.title} ${f * 4096 + i * c.size + c.pad}: ${damage}`;
  });
  compare(damages.sort(), round.damages.slice().sort(), 'in damages', say);
  if (s.hands.some(h => h.text !== 'nothing')) say('ends with something in hand');
  if ([...s.locks.values()].some(w => w !== null)) say('ends with a lock taken');
}

// `live`, `free`, `aside`, `frozen`, `slabs` and `frames` of the total are those of the last state.
function checkTotal(s, total, say) {
  const sum = (...rows) => rows.reduce((a, b) => a + b, 0), slabs = [...s.slabs], places = [...placesOf(s).values()].flat(2);
  const count = kind => places.filter(p => p.kind === kind).length;
  const mine = `live ${count('held') + count('board')} free ${count('cpu') + count('own')} aside ${count('aside')}`
    + ` frozen ${sum(...[...s.caches.values()].map(c => c.cpus.filter(w => w.slab !== null).length))} slabs ${slabs.length} frames ${s.pool.size}`;
  if (!/^total given \d+ freed \d+ live /.test(total) || !total.endsWith(` ${mine}`)) say(`total: ${mine} | ${total}`);
}
"##;
