//! What stands in `page/front.html`; made from it by `page/make program`.

/// The text of that file.
pub const TEXT: &[u8] = br##"<!DOCTYPE html>
<html lang="en">
<head>
<meta charset="utf-8">
<meta name="viewport" content="width=device-width, initial-scale=1">
<title>slub, step by step</title>
<style>
:root {
  color-scheme: light dark;
  --ink: #1b2230; --soft: #556070; --line: #d5dae2; --paper: #f4f5f7; --card: #fff; --well: #f1f3f6; --mark: #fff4cc;
  --cpu: #8fd694; --own: #f5cb62; --board: #b9c2cf; --aside: #343942; --on: #1b2230; --lost: #c01f2e; --good: #17723a;
  --late: #68727f; --yes: #e3edff; --yes-ink: #17488f; --mix: #000;
}
@media (prefers-color-scheme: dark) {
  :root {
    --ink: #e6e9ee; --soft: #a5afbd; --line: #3b434f; --paper: #14171c; --card: #1d2128; --well: #272d36; --mark: #453c17;
    --cpu: #6fbf76; --own: #dcae3e; --board: #8c97a6; --aside: #0b0d10; --lost: #ff7b81; --good: #74d694;
    --late: #8d97a5; --yes: #1f3355; --yes-ink: #b3d0ff; --mix: #fff;
  }
}
/* --c is a worker's colour, under white; --t is the same as a text colour. */
[data-w] { --c: #575f6b; --t: color-mix(in srgb, var(--c) 88%, var(--mix)) }
@media (prefers-color-scheme: dark) { [data-w] { --t: color-mix(in srgb, var(--c) 45%, var(--mix)) } }
[data-w="0"] { --c: #2563c9 } [data-w="1"] { --c: #b4540a } [data-w="2"] { --c: #7a3fc0 } [data-w="3"] { --c: #0a7a70 }
[data-w="4"] { --c: #b81f68 } [data-w="5"] { --c: #5c6a0c } [data-w="6"] { --c: #8a4b1f } [data-w="7"] { --c: #3d4fb5 }
[data-w="8"] { --c: #9c2fa0 } [data-w="9"] { --c: #1c7c3b } [data-w="10"] { --c: #a33d2a } [data-w="11"] { --c: #2a6a8f }
[data-w="12"] { --c: #836200 } [data-w="13"] { --c: #575f6b } [data-w="14"] { --c: #5b2fa3 } [data-w="15"] { --c: #00708c }

* { box-sizing: border-box }
html { font-size: 14px }
@media (min-width: 1800px) { html { font-size: 15px } }
@media (min-width: 2400px) { html { font-size: 16px } }
body { margin: 0; background: var(--paper); color: var(--ink); font: 1rem/1.45 system-ui, "Segoe UI", "DejaVu Sans", sans-serif }
.mono, code, kbd { font-family: ui-monospace, "DejaVu Sans Mono", Menlo, Consolas, monospace }
.dim { color: var(--soft); font-weight: normal }
.lost { color: var(--lost); font-weight: 650 }
.good { color: var(--good) }
h1, h2, h3, p, dl, dd, ul { margin: 0; padding: 0 }
:focus-visible { outline: 3px solid #3b82f6; outline-offset: 2px }
.who { color: var(--t); font-weight: 650 }

header { background: var(--card); border-bottom: 1px solid var(--line); padding: .6rem 1.2rem .5rem; position: sticky; top: 0; z-index: 5 }
.title { display: flex; flex-wrap: wrap; align-items: center; gap: .3rem .9rem }
h1 { font-size: 1.15rem }
.way { color: var(--soft); overflow-wrap: anywhere; flex: 1 1 20rem; font-size: .9rem }
button, select, summary { font: inherit; color: var(--ink); border: 1px solid var(--line); background: var(--card); border-radius: .4rem; padding: .1rem .65rem; cursor: pointer }
#rounds { display: flex; gap: .3rem }
#rounds [aria-current] { background: var(--ink); color: var(--card); border-color: var(--ink); font-weight: 650 }
#help { position: relative }
#help summary { list-style: none }
#help dl { position: absolute; right: 0; top: 2.2rem; width: 27rem; display: grid; grid-template-columns: max-content 1fr; gap: .35rem .9rem;
  background: var(--card); border: 1px solid var(--line); border-radius: .6rem; padding: .8rem 1rem; box-shadow: 0 6px 24px #0004; z-index: 9 }
kbd { border: 1px solid var(--line); border-bottom-width: 2px; border-radius: .25rem; padding: 0 .35rem; background: var(--well); font-size: .85rem }
.moves { display: grid; grid-template-columns: max-content 1fr max-content; gap: .2rem .9rem; align-items: center; margin-top: .45rem }
.buttons { display: flex; gap: .35rem }
#play { min-width: 5.4rem }
.slide input { width: 100%; margin: 0; display: block; accent-color: var(--ink) }
.count { min-width: 7.5rem; text-align: right; font-variant-numeric: tabular-nums }
#whole { position: relative; margin: 3px 8px 0; cursor: pointer }
#whole svg { display: block; width: 100% }
#whole path { stroke: none; fill: var(--c) }
#whole .miss { fill: var(--lost) }
#whole i { position: absolute; top: -2px; bottom: -2px; width: 2px; background: var(--ink) }
#whole b { position: absolute; top: -2px; bottom: -2px; border: 1px solid var(--soft); border-radius: 2px }

#lanes { display: grid; margin-top: .5rem; column-gap: 2px; row-gap: 2px; cursor: pointer }
#lanes .n { font-size: .72rem; line-height: 1; color: var(--soft); text-align: center; font-variant-numeric: tabular-nums }
#lanes .n.at { color: var(--ink); font-weight: 700 }
#lanes .w { font-weight: 700; color: var(--t); font-size: .9rem; line-height: 1.3 }
#lanes .rail { height: 2px; background: var(--line); align-self: center }
#lanes .t { background: var(--c); color: #fff; border-radius: 4px; font-size: .75rem; font-weight: 650; line-height: 1.35rem; height: 1.35rem; text-align: center;
  overflow: hidden; text-overflow: ellipsis; white-space: nowrap; letter-spacing: -.01em; z-index: 1 }
#lanes.low .t { height: .75rem; line-height: .75rem; font-size: .6rem }
#lanes.low .w { line-height: .75rem; font-size: .7rem }
#lanes .t.miss { background: #c01f2e; background-image: repeating-linear-gradient(135deg, #0000 0 6px, #0003 6px 8px) }
#lanes .t.late { background: color-mix(in srgb, var(--c) 26%, var(--card)); color: var(--ink); font-weight: 500 }
#lanes .t.late.miss { background-color: color-mix(in srgb, #c01f2e 26%, var(--card)) }
#lanes .frame { border: 2px solid var(--ink); border-radius: 5px; margin: -2px -3px; z-index: 2; pointer-events: none }

main { display: grid; grid-template-columns: minmax(0, 1fr) 24rem; gap: .9rem; padding: .9rem 1.2rem; align-items: start }
#below { grid-column: 1 / -1 }
@media (min-width: 1800px) { main { grid-template-columns: minmax(0, 1fr) 25rem } }
@media (min-width: 2300px) {
  main { grid-template-columns: minmax(0, 1fr) 25rem 64rem }
  #below { grid-column: 3; grid-row: 1 }
  #below .lines { max-height: 72vh; font-size: .76rem }
}
.card { background: var(--card); border: 1px solid var(--line); border-radius: .6rem; padding: .65rem .9rem; margin-bottom: .9rem; position: relative }
h2 { font-size: 1.05rem; margin-bottom: .45rem }
h3 { font-size: 1rem }

.now { border-left: .55rem solid var(--c, var(--ink)); min-height: 15.4rem }
.now h2 { font-size: 1.35rem; margin: 0 0 .15rem }
.now h2 code { font-size: 1.05rem; color: var(--soft); font-weight: normal }
.now p { margin: .2rem 0 }
.now .linux { color: var(--soft); font-size: .93rem }
.now table { border-collapse: collapse; margin: .35rem 0; background: var(--well); border-radius: .4rem }
.now caption { text-align: left; padding: 0 0 .2rem; white-space: nowrap }
.now th, .now td { padding: .12rem .8rem; text-align: left; font-weight: normal }
.now thead th { color: var(--soft); font-size: .88rem }
.now td { font-family: ui-monospace, "DejaVu Sans Mono", Menlo, Consolas, monospace }
.now td.new { font-weight: 700; text-decoration: underline; text-underline-offset: 3px }
.now td.off { font-weight: 700; color: var(--lost) }
.now .met { margin-top: .2rem }
.now .word { font-weight: 650 }

.top { display: flex; flex-wrap: wrap; gap: .1rem .8rem; align-items: baseline }
.cpus { display: flex; flex-wrap: wrap; gap: .6rem; margin-bottom: .6rem }
.box { border: 1.5px solid var(--line); border-radius: .5rem; padding: .35rem .6rem .4rem; min-width: 13rem; position: relative; flex: 0 1 auto }
.box .mono { font-size: .9rem }
.box dl { display: grid; grid-template-columns: max-content 1fr; gap: 0 .6rem; font-size: .9rem }
.box dt { color: var(--soft) }
.touched { border-color: var(--c); box-shadow: 0 0 0 2px var(--c) }
.touched::after { content: attr(data-did); position: absolute; bottom: -.65rem; right: .6rem; background: var(--c); color: #fff; border-radius: .3rem; font-size: .75rem; font-weight: 650;
  padding: 0 .4rem; line-height: 1.15rem; z-index: 3 }
.badge { border-radius: .7rem; padding: 0 .5rem; font-size: .85rem; border: 1px solid var(--line); color: var(--soft); white-space: nowrap }
.badge.yes { background: var(--yes); color: var(--yes-ink); border-color: currentColor }
.badge.has { background: var(--c); color: #fff; border-color: var(--c) }
.slabs { display: grid; grid-template-columns: repeat(auto-fill, minmax(min(100%, var(--slab)), 1fr)); gap: .6rem }
.slab { min-width: 0; content-visibility: auto; contain-intrinsic-size: auto 6.5rem }
.slab .top { padding-right: 5.6rem }
.slab.touched { box-shadow: inset 0 0 0 2px var(--c) }
.slab.touched::after { top: 0; bottom: auto; right: 0; border-radius: 0 .35rem 0 .35rem }
.slab .strip { display: flex; flex-wrap: wrap; gap: 3px 3px; margin-top: .25rem }
.cell { width: var(--w); text-align: center }
.cell small { display: block; font-size: .68rem; line-height: 1; color: var(--soft); font-variant-numeric: tabular-nums }
.o { display: flex; flex-direction: column; justify-content: center; height: 2.35rem; border-radius: 4px; border: 1px solid #0005; line-height: 1.1; color: #1b2230; overflow: hidden; font-size: .95rem;
  position: relative }
.o em { font-style: normal; font-size: .67rem; white-space: nowrap }
.close .o { font-size: .85rem }
.close .o em { font-size: .6rem }
.tiny .o { height: 1.1rem; font-size: .68rem; border-radius: 2px }
.o.held { background: var(--c); color: #fff; font-weight: 700 }
.o.board { background: var(--board) }
.o.cpu { background: var(--cpu) }
.o.own { background: var(--own) }
.o.hand { background: repeating-linear-gradient(45deg, color-mix(in srgb, var(--c) 38%, #fff) 0 5px, #fff 5px 9px); border-color: var(--c) }
.o.aside { background: var(--aside); color: #fff }
.o.astray { background: var(--card); color: var(--lost) }
.o.head { border-left: 4px solid #1b2230 }
.cell.hot .o { outline: 3px solid var(--c); outline-offset: 1px; z-index: 2 }
.cell.hot small { color: var(--ink); font-weight: 700 }
.legend h2, .legend p { grid-column: 1 / -1; margin: 0; font-size: .86rem }
.legend h2 { font-weight: 650 }
.legend { display: grid; grid-template-columns: repeat(2, 1fr); gap: .25rem .8rem; font-size: .86rem; color: var(--soft) }
.legend span { display: flex; align-items: center; gap: .45rem }
.legend .o { font-style: normal; width: 1.75rem; height: 1.35rem; font-size: .7rem; flex: none; text-align: center }
.frames { display: flex; flex-wrap: wrap; gap: 3px }
.f { min-width: 2.5rem; border-radius: 3px; border: 1px solid var(--line); font-size: .8rem; text-align: center; line-height: 1.15; padding: .1rem .25rem; background: var(--card) }
.f small { display: block; font-size: .68rem; color: var(--soft) }
.f.used { background: var(--well); border-style: dashed }
.f.has { background: var(--c); color: #fff }
.f.has small { color: #fff }

#workers { display: grid; gap: .9rem }
.worker { border-top: 4px solid var(--c); margin: 0; padding-top: .45rem; font-size: .95rem }
.worker.on { box-shadow: 0 0 0 2px var(--c); border-color: var(--c) }
.worker h2 { color: var(--t); margin-bottom: .2rem }
.worker ul { list-style: none }
.ev { display: flex; gap: .45rem; padding: .04rem .25rem; border-radius: .25rem; font-size: .93rem }
.ev.cur { background: var(--well); font-weight: 650 }
.ev > :first-child { width: 1rem; flex: none; text-align: center }
.ev .a { margin-left: auto; text-align: right; color: var(--soft); font-weight: normal }
.facts { grid-template-columns: max-content 1fr; gap: .1rem .7rem; display: grid; margin-top: .35rem; border-top: 1px dashed var(--line); padding-top: .3rem; font-size: .9rem }
.facts dt { color: var(--soft) }
.chip { display: inline-block; border-radius: .25rem; padding: 0 .35rem; border: 1px solid var(--line); font-size: .86rem; white-space: nowrap }
.chip.has { background: var(--c); color: #fff; border-color: var(--c) }
.noted { grid-column: 1 / -1; border-left: 3px solid var(--good); padding-left: .5rem; margin-top: .2rem }
.noted.stale { border-left: 3px double var(--lost); color: var(--lost) }
.noted .mono { font-size: .86rem }

.lines { font-size: .86rem; line-height: 1.5; white-space: pre; overflow: auto; max-height: 17.5rem; position: relative }
.lines div { padding-right: .6rem }
.lines .t { cursor: pointer }
.lines .cur { background: var(--mark) }
.lines .late { color: var(--late) }
.lines .miss { color: var(--lost) }
.tail:not(:empty) { margin-top: .5rem; font-size: .92rem }
.tail .mono { white-space: pre-wrap; overflow-wrap: anywhere }
</style>
</head>
<body>
<header>
  <div class="title">
    <h1>slub, step by step</h1>
    <span class="way mono" id="way"></span>
    <nav id="rounds" aria-label="Rounds"></nav>
    <details id="help">
      <summary>Keys</summary>
      <dl>
        <dt><kbd>&rarr;</kbd> <kbd>&larr;</kbd></dt><dd>the next turn, the one before</dd>
        <dt><kbd>&darr;</kbd> <kbd>&uarr;</kbd></dt><dd>on, or back, to an answer or a lost exchange</dd>
        <dt><kbd>Home</kbd> <kbd>End</kbd></dt><dd>before the first turn, after the last one</dd>
        <dt><kbd>n</kbd> <kbd>p</kbd></dt><dd>the next round, the one before</dd>
        <dt><kbd>Space</kbd></dt><dd>plays, and stops</dd>
        <dt><kbd>?</kbd></dt><dd>shows these keys, and hides them</dd>
      </dl>
    </details>
  </div>
  <div class="moves">
    <div class="buttons" role="group" aria-label="Moves">
      <button id="first" type="button" aria-label="Before the first turn" title="Home">|&#9664;</button>
      <button id="back" type="button" aria-label="One turn back" title="Left arrow">&#9664;</button>
      <button id="play" type="button" aria-pressed="false" title="Space">&#9654; play</button>
      <button id="next" type="button" aria-label="One turn on" title="Right arrow">&#9654;</button>
      <button id="last" type="button" aria-label="After the last turn" title="End">&#9654;|</button>
    </div>
    <div class="slide">
      <input type="range" id="at" min="0" max="0" value="0" aria-label="Turn">
      <div id="whole" aria-hidden="true"></div>
    </div>
    <output class="count" id="count" for="at"></output>
  </div>
  <div id="lanes" role="img"></div>
</header>
<main>
  <div id="left">
    <section id="now" class="card now" aria-label="The turn in words" aria-live="polite"></section>
    <div id="state"></div>
  </div>
  <aside id="right" aria-label="Workers">
    <div id="legend" class="card legend"></div>
    <div id="workers"></div>
  </aside>
  <section id="below" class="card" aria-label="The log around the turn">
    <h2>The log</h2>
    <div id="lines" class="lines mono" tabindex="0" role="region" aria-label="Lines of the log"></div>
    <div id="tail" class="tail"></div>
  </section>
</main>
<noscript>This page shows its log by a script of its own.</noscript>
<script type="text/plain" id="log">
"##;
