//! The page's text.

/// The page: HTML in ASCII, which takes nothing from elsewhere. Its script asks `/stats/clients`, `/stats` and `/stats/neighbours`
/// every 2 s and the filters every 10 s, as long as the page is seen, and shows what of it is answered.
pub const PAGE: &str = r##"<!doctype html>
<html lang="en">
<head>
<meta charset="utf-8">
<meta name="viewport" content="width=device-width, initial-scale=1">
<meta name="color-scheme" content="light dark">
<meta name="referrer" content="no-referrer">
<title>Wabretos</title>
<style>
:root {
  color-scheme: light dark;
  --ground: #fff; --panel: #f6f7f9; --text: #1b1f24; --quiet: #545c66; --rule: #d3d8de; --focus: #0b57d0; --good: #146c2e; --bad: #b3261e;
  --hit: #1f6fb2; --miss: #b35c00; --collapsed: #7a4fb5; --bypass: #2b7d5b; --refused: #b42345;
}
@media (prefers-color-scheme: dark) {
  :root {
    --ground: #14171a; --panel: #1d2226; --text: #e6e8ea; --quiet: #a7afb7; --rule: #3b434a; --focus: #8ab4f8; --good: #7fdca0; --bad: #ff9f96;
    --hit: #6cb2f0; --miss: #f0a75a; --collapsed: #c3a0f5; --bypass: #6fd0a5; --refused: #ff8f9f;
  }
}
* { box-sizing: border-box; }
body { margin: 0; background: var(--ground); color: var(--text); font: 16px/1.45 system-ui, sans-serif; }
header, main, footer { max-width: 78rem; margin: 0 auto; padding: 0 1rem; }
header { display: flex; flex-wrap: wrap; align-items: baseline; gap: .25rem .75rem; padding-top: 1rem; padding-bottom: .5rem; }
h1 { font-size: 1.375rem; margin: 0; }
h2 { font-size: 1.0625rem; margin: 0 0 .5rem; }
h3 { font-size: 1rem; margin: .75rem 0 .25rem; font-weight: 600; overflow-wrap: anywhere; }
p { margin: 0 0 .5rem; }
section { margin: 0 0 1.75rem; min-width: 0; }
header p { margin: 0; }
button { margin-left: auto; font: inherit; color: inherit; background: var(--panel); border: 1px solid var(--quiet); border-radius: 4px; padding: .25rem .75rem; order: 1; }
button[aria-pressed=true] { color: var(--ground); background: var(--text); }
:focus-visible { outline: 2px solid var(--focus); outline-offset: 2px; }
.quiet, .note, caption, figcaption { color: var(--quiet); font-size: .875rem; }
.good { color: var(--good); font-weight: 600; }
.bad { color: var(--bad); font-weight: 600; }
#gone { border: 2px solid var(--bad); border-radius: 4px; padding: .5rem .75rem; margin: .5rem 0 1rem; }
.note:empty { display: none; }
.note { color: var(--bad); }
.cards { display: grid; grid-template-columns: repeat(4, minmax(0, 1fr)); gap: .5rem; margin: 0; }
.cards div { background: var(--panel); border: 1px solid var(--rule); border-radius: 4px; padding: .5rem .75rem; }
dt { color: var(--quiet); font-size: .875rem; }
dd { margin: 0; font-variant-numeric: tabular-nums; }
dd.main { font-size: 1.375rem; line-height: 1.3; white-space: nowrap; }
dd.quiet { white-space: nowrap; }
.pair { display: grid; grid-template-columns: repeat(auto-fit, minmax(min(100%, 30rem), 1fr)); gap: 0 2rem; }
figure { margin: 0; }
figure svg { display: block; width: 100%; height: 180px; overflow: visible; }
.key { display: flex; flex-wrap: wrap; gap: .125rem 1rem; list-style: none; margin: .25rem 0 0; padding: 0; font-size: .875rem; }
.key li::before { content: ""; display: inline-block; width: .9em; height: .9em; margin-right: .4em; vertical-align: -.1em; forced-color-adjust: none; background: var(--colour); }
.key li.line::before { background: none; height: 0; width: 1.4em; border-top: 3px solid var(--colour); vertical-align: .25em; }
.key li.dashed::before { border-top-style: dashed; }
.hit { --colour: var(--hit); } .miss { --colour: var(--miss); } .collapsed { --colour: var(--collapsed); }
.bypass { --colour: var(--bypass); } .refused { --colour: var(--refused); }
svg .area { fill: var(--colour); }
svg .curve { fill: none; stroke: var(--colour); stroke-width: 2; stroke-linejoin: round; }
svg .dashed { stroke-dasharray: 5 4; }
svg .rule { stroke: var(--rule); stroke-width: 1; }
svg text { fill: var(--quiet); font-size: 12px; font-variant-numeric: tabular-nums; }
.scroll { overflow-x: auto; }
table { border-collapse: collapse; width: 100%; font-variant-numeric: tabular-nums; }
caption { text-align: left; padding-bottom: .25rem; }
th, td { padding: .25rem .375rem; text-align: right; border-bottom: 1px solid var(--rule); white-space: nowrap; font-weight: 400; }
thead th { color: var(--quiet); font-size: .875rem; vertical-align: bottom; white-space: normal; }
th:first-child, td:first-child, .words td { text-align: left; }
.words th { text-align: left; }
th[scope=colgroup] { text-align: center; }
pre { margin: 0; padding: .5rem .75rem; background: var(--panel); border: 1px solid var(--rule); border-radius: 4px; max-height: 22rem; overflow: auto; font: .875rem/1.4 ui-monospace, monospace; }
footer { padding-bottom: 2rem; }
@media (max-width: 40rem) {
  .cards { grid-template-columns: repeat(2, minmax(0, 1fr)); }
  .cards div { padding: .375rem .5rem; }
  dd.quiet { white-space: normal; }
  h1 { font-size: 1.25rem; }
  header { gap: .25rem .5rem; }
  button { order: 0; padding: .25rem .5rem; }
  table { font-size: .875rem; }
  th, td { padding: .25rem .1875rem; }
  th[scope=row] { white-space: normal; }
  .words th[scope=row] { overflow-wrap: anywhere; }
}
@media (max-width: 22rem) {
  table, thead th { font-size: .75rem; }
  th, td { padding: .25rem .125rem; }
}
</style>
</head>
<body>
<header>
<h1>Wabretos</h1>
<p class="quiet" id="where"></p>
<button type="button" id="pause" aria-pressed="false">Pause</button>
<p id="state" role="status">Asking for figures</p>
<p class="quiet">running for <span data-f="uptime">&ndash;</span></p>
</header>
<main>
<p id="gone" class="bad" hidden></p>

<section aria-labelledby="h-now">
<h2 id="h-now">Now</h2>
<p class="note" data-n="/stats/clients"></p>
<dl class="cards">
<div><dt>Requests a second</dt><dd class="main" data-f="rate">&ndash;</dd><dd class="quiet">over 10 s</dd></div>
<div><dt>Hit ratio</dt><dd class="main" data-f="ratio">&ndash;</dd><dd class="quiet">over a minute</dd></div>
<div><dt>Hits: median</dt><dd class="main" data-f="hits.half">&ndash;</dd><dd class="quiet">90 %: <span data-f="hits.most">&ndash;</span></dd></div>
<div><dt>Forwarded: median</dt><dd class="main" data-f="forwarded.half">&ndash;</dd><dd class="quiet">90 %: <span data-f="forwarded.most">&ndash;</span></dd></div>
<div><dt>To clients</dt><dd class="main" data-f="octets.clients">&ndash;</dd><dd class="quiet">in all <span data-f="total.octets.clients">&ndash;</span></dd></div>
<div><dt>Clients connected</dt><dd class="main" data-f="connections">&ndash;</dd><dd class="quiet">waiting: <span data-f="waiting">&ndash;</span></dd></div>
<div><dt>Fetches under way</dt><dd class="main" data-f="fetching">&ndash;</dd><dd class="quiet">failed in a minute: <span data-f="failed">&ndash;</span></dd></div>
<div><dt>Access log, lines</dt><dd class="main" data-f="written">&ndash;</dd><dd class="quiet">lost: <span data-f="lost">&ndash;</span></dd></div>
</dl>
</section>

<section aria-labelledby="h-rate">
<h2 id="h-rate">Requests a second</h2>
<figure>
<svg id="p-rate" role="img" aria-labelledby="h-rate d-rate"></svg>
<ul class="key" aria-label="Courses, from below"><li class="hit">hit</li><li class="miss">miss</li><li class="collapsed">collapsed</li><li class="bypass">bypass</li><li class="refused">refused</li></ul>
<figcaption id="d-rate">The last ten minutes, as far as this page was open.</figcaption>
</figure>
</section>

<div class="pair">
<section aria-labelledby="h-ratio">
<h2 id="h-ratio">Hit ratio</h2>
<figure>
<svg id="p-ratio" role="img" aria-labelledby="h-ratio d-ratio"></svg>
<ul class="key" aria-label="Curve"><li class="hit line">hits of all that was not refused, over 10 s</li></ul>
<figcaption id="d-ratio"></figcaption>
</figure>
</section>
<section aria-labelledby="h-time">
<h2 id="h-time">Time to answer</h2>
<figure>
<svg id="p-time" role="img" aria-labelledby="h-time d-time"></svg>
<ul class="key" aria-label="Curves, each over a minute"><li class="hit line">hits, median</li><li class="hit line dashed">hits, 90 %</li><li class="miss line">forwarded, median</li><li class="miss line dashed">forwarded, 90 %</li></ul>
<figcaption id="d-time"></figcaption>
</figure>
</section>
</div>

<div class="pair">
<section aria-labelledby="h-course">
<h2 id="h-course">Requests by course</h2>
<table aria-labelledby="h-course">
<thead><tr><th scope="col">Course</th><th scope="col">a second</th><th scope="col">last minute</th><th scope="col">since start</th></tr></thead>
<tbody data-rows="answers hit miss collapsed bypass refused"></tbody>
</table>
</section>
<section aria-labelledby="h-status">
<h2 id="h-status">Answers by status</h2>
<table aria-labelledby="h-status">
<thead><tr><th scope="col">Status</th><th scope="col">a second</th><th scope="col">last minute</th><th scope="col">since start</th></tr></thead>
<tbody data-rows="statuses 1xx 2xx 3xx 4xx 5xx none"></tbody>
</table>
</section>
<section aria-labelledby="h-fetch">
<h2 id="h-fetch">Fetches</h2>
<table aria-labelledby="h-fetch">
<colgroup></colgroup><colgroup span="2"></colgroup><colgroup span="2"></colgroup>
<thead><tr><td></td><th scope="colgroup" colspan="2">from origins</th><th scope="colgroup" colspan="2">from neighbours</th></tr>
<tr><th scope="col">Ended</th><th scope="col">last minute</th><th scope="col">since start</th><th scope="col">last minute</th><th scope="col">since start</th></tr></thead>
<tbody data-pairs="fetches origins neighbours : whole refused failed"></tbody>
</table>
</section>
<section aria-labelledby="h-octets">
<h2 id="h-octets">Octets</h2>
<table aria-labelledby="h-octets">
<thead><tr><th scope="col">Way</th><th scope="col">a second</th><th scope="col">last minute</th><th scope="col">since start</th></tr></thead>
<tbody data-rows="octets clients origins neighbours"></tbody>
</table>
</section>
<section aria-labelledby="h-datagrams">
<h2 id="h-datagrams">Datagrams</h2>
<p class="note" data-n="/stats"></p>
<table aria-labelledby="h-datagrams">
<colgroup></colgroup><colgroup span="2"></colgroup><colgroup span="2"></colgroup>
<thead><tr><td></td><th scope="colgroup" colspan="2">ICP</th><th scope="colgroup" colspan="2">HTCP</th></tr>
<tr><th scope="col">Datagrams</th><th scope="col">last minute</th><th scope="col">since start</th><th scope="col">last minute</th><th scope="col">since start</th></tr></thead>
<tbody data-pairs="datagrams icp htcp : judged rejected cut malformed"></tbody>
</table>
</section>
<section aria-labelledby="h-neighbours">
<h2 id="h-neighbours">Neighbours</h2>
<p class="note" data-n="/stats/neighbours"></p>
<p id="none">&ndash;</p>
<div class="scroll" id="table-neighbours" tabindex="0" role="region" aria-labelledby="h-neighbours" hidden>
<table class="words" aria-labelledby="h-neighbours">
<thead><tr><th scope="col">Neighbour</th><th scope="col">State</th><th scope="col">Time</th><th scope="col">Missed</th><th scope="col">Filter</th></tr></thead>
<tbody id="neighbours"></tbody>
</table>
</div>
</section>
</div>

<section aria-labelledby="h-filters">
<h2 id="h-filters">Filters in force</h2>
<p class="note" data-n="filters"></p>
<div id="filters"></div>
</section>
</main>
<footer class="quiet">
<p>Asks every two seconds while it is seen; the filters every ten. A dash is a number that isn't known. Times are read off the counts of a histogram, so they are estimates. A hit ratio leaves refused requests out.</p>
</footer>
<script>
"use strict";
(() => {
const COURSES = ["hit", "miss", "collapsed", "bypass", "refused"];
const NAMES = { judged: "in", none: "none sent", clients: "to clients", origins: "from origins", neighbours: "from neighbours" };
const EVERY = 2, SPAN = 600, GAP = 7, MINUTE = 60;      // seconds
const FILTERS_EVERY = 5;                                // rounds
const DASH = "\u2013";
const samples = [];         // of the last ten minutes, the oldest first
const pieces = new Map();   // the parts of the page that show a filter, by its path
let timer = 0, rounds = 0, run = 0, busy = false, paused = false, gone = null, heard = null, neighbours = null, counters = [];

const find = (id) => document.getElementById(id);
const isNumber = (it) => typeof it === "number" && Number.isFinite(it);

// ---- numbers as text

function digits(value, places) {
  return value.toLocaleString("en", { minimumFractionDigits: places, maximumFractionDigits: places, useGrouping: true });
}

function scaled(value, units) {
  let n = 0;
  for (; Math.abs(value) >= 999.5 && n + 1 < units.length; n += 1) value /= 1000;
  return (n && value < 99.95 ? digits(value, 1) : digits(value, 0)) + units[n];
}

const whole = (it) => !isNumber(it) ? DASH : it < 1e6 ? digits(it, 0) : digits(it / 1e6, 2) + " M";
const rate = (it) => !isNumber(it) ? DASH : it < 99.95 ? digits(it, 1) : whole(it);
const octets = (it) => isNumber(it) ? scaled(it, [" B", " kB", " MB", " GB", " TB", " PB"]) : DASH;
const share = (it) => isNumber(it) ? digits(it * 100, 1) + " %" : DASH;

function seconds(it) {
  if (!isNumber(it)) return DASH;
  if (it < 0.00995) return digits(it * 1000, it < 0.000995 ? 2 : 1) + " ms";
  return it < 0.9995 ? digits(it * 1000, 0) + " ms" : digits(it, it < 9.95 ? 2 : 1) + " s";
}

function duration(it) {
  if (!isNumber(it)) return DASH;
  const [days, hours, minutes] = [Math.floor(it / 86400), Math.floor(it / 3600) % 24, Math.floor(it / 60) % 60];
  if (days) return `${days} d ${hours} h`;
  if (hours) return `${hours} h ${minutes} min`;
  return minutes ? `${minutes} min ${Math.floor(it % 60)} s` : `${Math.floor(it)} s`;
}

// ---- figures out of samples

// The number at a path in an answer, if there is one.
function at(answer, path) {
  let it = answer;
  for (const key of path) it = it === null || typeof it !== "object" ? undefined : it[key];
  return isNumber(it) ? it : undefined;
}

// The oldest sample of the same run of the program within so many seconds before this one that has what this one has.
function earlier(now, within) {
  const place = samples.indexOf(now);
  const before = samples.slice(0, place < 0 ? samples.length : place);
  const isLike = (it) => (it.clients || !now.clients) && (it.datagrams || !now.datagrams);
  return before.find((it) => it.run === now.run && it.when >= now.when - within - EVERY / 2 && isLike(it)) || null;
}

// By how much a counter rose.
function rise(now, before, path) {
  const [last, first] = [at(now, path), before ? at(before, path) : undefined];
  return last >= first ? last - first : undefined;
}

function pace(now, before, path) {
  const risen = rise(now, before, path);
  return risen === undefined ? undefined : risen / (now.when - before.when);
}

// The hits of all requests that were not refused.
function ratio(now, before) {
  const counts = COURSES.slice(0, 4).map((it) => before ? rise(now, before, ["clients", "answers", it]) : at(now, ["clients", "answers", it]));
  const all = counts.reduce((sum, it) => sum + it, 0);
  return all > 0 ? counts[0] / all : undefined;
}

// The time under which this share of the answers between two samples took, and whether it is above the last bound.
function quantile(now, before, kind, part) {
  const rows = [now, before].map((it) => it && it.clients && it.clients.seconds && it.clients.seconds[kind] && it.clients.seconds[kind].buckets);
  if (!rows.every(Array.isArray) || rows[0].length !== rows[1].length || !rows[0].length) return null;
  const counts = rows[0].map((it, n) => it[1] - rows[1][n][1]);
  const goal = counts[counts.length - 1] * part;
  if (!(goal > 0)) return null;
  const place = counts.findIndex((it) => it >= goal);
  const [low, under] = place > 0 ? [rows[0][place - 1][0], counts[place - 1]] : [0, 0];
  const high = rows[0][place][0];
  if (!isNumber(high)) return { time: low, above: true };
  return { time: low + (high - low) * (goal - under) / (counts[place] - under), above: false };
}

const timed = (it) => it === null ? DASH : (it.above ? "> " : "") + seconds(it.time);

// Whether the program was started anew between two samples.
function isOther(now, before) {
  const started = [now, before].map((it) => it.when - at(it, ["clients", "uptime"]));
  if (Math.abs(started[0] - started[1]) > 5) return true;
  const counters = [...COURSES.map((it) => ["clients", "answers", it]), ["datagrams", "icp", "judged"], ["datagrams", "htcp", "judged"]];
  return counters.some((path) => at(now, path) < at(before, path));
}

// What the pictures show of a sample: null where it isn't known.
function drawn(now, before) {
  const close = before && before.run === now.run && now.when - before.when < GAP ? before : null;
  const paces = COURSES.map((it) => pace(now, close, ["clients", "answers", it]));
  const minute = earlier(now, MINUTE), lately = earlier(now, 10);
  const times = [["hits", 0.5], ["hits", 0.9], ["forwarded", 0.5], ["forwarded", 0.9]].map(([kind, part]) => quantile(now, minute, kind, part));
  return { paces: paces.every(isNumber) ? paces : null, ratio: lately ? ratio(now, lately) : undefined, times };
}

function keep(sample) {
  const before = samples[samples.length - 1];
  const known = samples.filter((it) => it.clients || it.datagrams).pop();
  if (known && (sample.clients || sample.datagrams) && isOther(sample, known)) run += 1;
  sample.run = run;
  sample.drawn = drawn(sample, before);
  samples.push(sample);
  while (samples[0].when < sample.when - SPAN - MINUTE) samples.shift();
}

// ---- the page's figures

function say(element, text) {
  if (element.textContent !== text) element.textContent = text;
}

function fill(figures) {
  for (const it of document.querySelectorAll("[data-f]")) say(it, figures.get(it.dataset.f) || DASH);
}

function note(name, text) {
  for (const it of document.querySelectorAll("[data-n]")) if (it.dataset.n === name) say(it, text);
}

function figuresOf(now) {
  const figures = new Map(), minute = earlier(now, MINUTE), lately = earlier(now, 10);
  for (const [prefix, path, shown] of counters) {
    figures.set("pace." + prefix, shown === octets ? withPace(pace(now, lately, path)) : rate(pace(now, lately, path)));
    figures.set("minute." + prefix, shown(rise(now, minute, path)));
    figures.set("total." + prefix, shown(at(now, path)));
  }
  const paces = COURSES.map((it) => pace(now, lately, ["clients", "answers", it]));
  figures.set("rate", rate(paces.reduce((sum, it) => sum + it, 0)));
  figures.set("ratio", share(minute ? ratio(now, minute) : undefined));
  for (const kind of ["hits", "forwarded"]) {
    figures.set(kind + ".half", timed(quantile(now, minute, kind, 0.5)));
    figures.set(kind + ".most", timed(quantile(now, minute, kind, 0.9)));
  }
  figures.set("octets.clients", withPace(pace(now, lately, ["clients", "octets", "clients"])));
  for (const key of ["connections", "waiting", "fetching"]) figures.set(key, whole(at(now, ["clients", key])));
  for (const key of ["written", "lost"]) figures.set(key, whole(at(now, ["clients", "log", key])));
  const failed = ["origins", "neighbours"].map((it) => rise(now, minute, ["clients", "fetches", it, "failed"]));
  figures.set("failed", whole(failed[0] + failed[1]));
  figures.set("uptime", duration(at(now, ["clients", "uptime"])));
  return figures;
}

const withPace = (it) => isNumber(it) ? octets(it) + "/s" : DASH;

// Each counter of the tables: its key, where it stands in a sample, and how it is shown.
function listCounters() {
  const list = [];
  for (const body of document.querySelectorAll("[data-rows]")) {
    const [group, ...keys] = body.dataset.rows.split(" ");
    for (const key of keys) list.push([`${group}.${key}`, ["clients", group, key], group === "octets" ? octets : whole]);
  }
  for (const body of document.querySelectorAll("[data-pairs]")) {
    const [front, keys] = body.dataset.pairs.split(" : ").map((it) => it.split(" "));
    const place = front[0] === "datagrams" ? ["datagrams"] : ["clients", front[0]];
    for (const end of front.slice(1)) for (const key of keys) list.push([`${front[0]}.${end}.${key}`, [...place, end, key], whole]);
  }
  return list;
}

function addRow(body, key, cells) {
  const row = body.insertRow(), head = document.createElement("th");
  head.scope = "row";
  head.textContent = NAMES[key] || key;
  row.append(head);
  for (const it of cells) {
    const cell = row.insertCell();
    cell.dataset.f = it;
    cell.textContent = DASH;
  }
}

function makeTables() {
  for (const body of document.querySelectorAll("[data-rows]")) {
    const [group, ...keys] = body.dataset.rows.split(" ");
    for (const key of keys) addRow(body, key, ["pace", "minute", "total"].map((it) => `${it}.${group}.${key}`));
  }
  for (const body of document.querySelectorAll("[data-pairs]")) {
    const [front, keys] = body.dataset.pairs.split(" : ").map((it) => it.split(" "));
    const [group, ...ends] = front;
    for (const key of keys) addRow(body, key, ends.flatMap((end) => ["minute", "total"].map((it) => `${it}.${group}.${end}.${key}`)));
  }
}

// ---- neighbours and filters

function showNeighbours(list) {
  neighbours = Array.isArray(list) ? list.filter((it) => it !== null && typeof it === "object") : null;
  find("none").hidden = neighbours !== null && neighbours.length > 0;
  say(find("none"), neighbours ? "None is configured." : DASH);
  find("table-neighbours").hidden = !neighbours || !neighbours.length;
  const body = find("neighbours"), count = neighbours ? neighbours.length : 0;
  while (body.rows.length > count) body.deleteRow(-1);
  for (let n = 0; n < count; n += 1) showNeighbour(body.rows[n] || newNeighbour(body), neighbours[n]);
}

function newNeighbour(body) {
  const row = body.insertRow(), head = document.createElement("th");
  head.scope = "row";
  row.append(head);
  for (let n = 0; n < 4; n += 1) row.insertCell();
  return row;
}

function showNeighbour(row, it) {
  const time = isNumber(it.time_ms) ? seconds(it.time_ms / 1000) : DASH;
  const state = it.up === true ? "up" : it.up === false ? "down" : DASH;
  const filter = it.filter === true ? "yes" : it.filter === false ? "none" : DASH;
  [`${it.end} ${it.protocol}`, state, time, isNumber(it.misses) ? `${it.misses} of 20` : DASH, filter].forEach((text, n) => say(row.cells[n], text));
  row.cells[1].className = state === "up" ? "good" : state === "down" ? "bad" : "";
}

// The filters to show: their path, and what they are of.
function places() {
  const list = [["/filter/icp", "ICP socket"], ["/filter/htcp", "HTCP socket"]];
  (neighbours || []).forEach((it, n) => {
    if (it.filter === true) list.push([`/filter/neighbour/${n}`, `Neighbour ${n}, ${it.end} ${it.protocol}`]);
  });
  return list;
}

async function showFilters() {
  const wanted = places(), faults = [];
  for (const [path, piece] of pieces) if (!wanted.some((it) => it[0] === path)) { piece.box.remove(); pieces.delete(path); }
  const answers = await Promise.all(wanted.map(([path]) => ask(path, false)));
  wanted.forEach(([path, title], n) => {
    const { value, fault } = answers[n];
    if (fault) faults.push(`${path}: ${fault}`);
    showFilter(path, title, value === undefined ? "" : value.trimEnd());
  });
  note("filters", gone ? "" : faults.join("; "));
}

function showFilter(path, title, text) {
  if (!pieces.has(path)) pieces.set(path, newPiece());
  const piece = pieces.get(path), isProgram = text !== "" && text !== "none";
  say(piece.title, title);
  say(piece.text, isProgram ? text : "");
  say(piece.none, text === "" ? DASH : "None: all that comes is let through.");
  piece.text.hidden = !isProgram;
  piece.none.hidden = isProgram;
  piece.text.setAttribute("aria-label", "Filter of " + title);
}

function newPiece() {
  const [box, title, none, text] = ["div", "h3", "p", "pre"].map((it) => document.createElement(it));
  text.tabIndex = 0;
  box.append(title, none, text);
  find("filters").append(box);
  return { box, title, none, text };
}

// ---- pictures

function shape(svg, name, attributes, text) {
  const it = document.createElementNS(svg.namespaceURI, name);
  for (const [key, value] of Object.entries(attributes)) it.setAttribute(key, value);
  if (text !== undefined) it.textContent = text;
  svg.append(it);
}

// An empty picture with its axes: ticks are pairs of a height from 0 to 1 and a text.
function frame(svg, ticks) {
  svg.replaceChildren();
  const wide = svg.clientWidth || 600, high = 180, left = 56, right = wide - 12, top = 10, bottom = high - 24;
  const end = samples.length ? samples[samples.length - 1].when : 0;
  svg.setAttribute("viewBox", `0 0 ${wide} ${high}`);
  const x = (when) => right - (end - when) / SPAN * (right - left);
  const y = (height) => bottom - height * (bottom - top);
  for (const [height, text] of ticks) {
    shape(svg, "line", { class: "rule", x1: left, x2: right, y1: y(height), y2: y(height) });
    shape(svg, "text", { x: left - 6, y: y(height) + 4, "text-anchor": "end" }, text);
  }
  for (const minutes of wide < 500 ? [10, 5, 0] : [10, 8, 6, 4, 2, 0]) {
    const place = x(end - minutes * 60);
    shape(svg, "line", { class: "rule", x1: place, x2: place, y1: bottom, y2: bottom + 4 });
    shape(svg, "text", { x: place, y: high - 5, "text-anchor": minutes ? "middle" : "end" }, minutes ? `\u2212${minutes} min` : "now");
  }
  return { x, y };
}

// The runs of samples for which a value is known, as lists of pairs of time and value.
function stretches(value) {
  const list = [[]];
  let last = null;
  for (const it of samples) {
    const seen = it.when < samples[samples.length - 1].when - SPAN ? null : value(it.drawn);
    const isNext = seen !== null && seen !== undefined && (!last || it.when - last.when < GAP);
    if (!isNext) list.push([]);
    if (seen !== null && seen !== undefined) list[list.length - 1].push([it.when, seen]);
    last = it;
  }
  return list.filter((it) => it.length);
}

const outline = (points) => "M" + points.map(([x, y]) => `${x.toFixed(1)} ${y.toFixed(1)}`).join("L");

function curve(svg, scale, name, value) {
  for (const it of stretches(value)) {
    const points = it.map(([when, height]) => [scale.x(when), scale.y(height)]);
    if (points.length === 1) points.push([points[0][0] + 1, points[0][1]]);
    shape(svg, "path", { class: "curve " + name, d: outline(points) });
  }
}

function step(most) {
  const unit = 10 ** Math.floor(Math.log10(most / 4));
  return [1, 2, 5, 10].map((it) => it * unit).find((it) => it * 4 >= most);
}

function drawRates() {
  const svg = find("p-rate"), known = samples.filter((it) => it.drawn.paces);
  const sums = known.map((it) => it.drawn.paces.reduce((sum, one) => sum + one, 0));
  const each = step(Math.max(4, ...sums)), count = Math.max(1, Math.ceil(Math.max(4, ...sums) / each)), top = each * count;
  const scale = frame(svg, Array.from({ length: count + 1 }, (_, n) => [n / count, scaled(n * each, ["", " k", " M"])]));
  for (const it of stretches((seen) => seen.paces)) {
    let below = it.map(() => 0);
    COURSES.forEach((course, n) => {
      const above = it.map(([, paces], k) => below[k] + paces[n]);
      const edge = (heights) => heights.map((height, k) => [scale.x(it[k][0]), scale.y(height / top)]);
      if (it.length > 1) shape(svg, "path", { class: "area " + course, d: outline([...edge(above), ...edge(below).reverse()]) + "Z" });
      below = above;
    });
  }
  const last = sums[sums.length - 1];
  say(find("d-rate"), `The last ten minutes, as far as this page was open. Last ${rate(last)}, most ${rate(sums.length ? Math.max(...sums) : undefined)}.`);
}

function drawRatio() {
  const svg = find("p-ratio"), known = samples.map((it) => it.drawn.ratio).filter(isNumber);
  const scale = frame(svg, [[0, "0 %"], [0.25, "25 %"], [0.5, "50 %"], [0.75, "75 %"], [1, "100 %"]]);
  curve(svg, scale, "hit", (seen) => seen.ratio);
  say(find("d-ratio"), `Last ${share(known[known.length - 1])}, least ${share(known.length ? Math.min(...known) : undefined)}.`);
}

function drawTimes() {
  const svg = find("p-time");
  const known = samples.flatMap((it) => it.drawn.times).filter(Boolean).map((it) => Math.max(it.time, 1e-5));
  const low = known.length ? Math.floor(Math.log10(Math.min(...known))) : -3;
  const high = Math.max(low + 1, known.length ? Math.ceil(Math.log10(Math.max(...known))) : 1);
  const each = (text, n) => [n / (high - low), text];
  const decades = Array.from({ length: high - low + 1 }, (_, n) => seconds(10 ** (low + n)).replace(/\.0+ /, " "));
  const scale = frame(svg, decades.map(each));
  const height = (it) => it ? (Math.log10(Math.max(it.time, 1e-5)) - low) / (high - low) : null;
  ["hit", "hit dashed", "miss", "miss dashed"].forEach((name, n) => curve(svg, scale, name, (seen) => height(seen.times[n])));
  const last = samples.length ? samples[samples.length - 1].drawn.times : [null, null, null, null];
  say(find("d-time"), `Last: hits ${timed(last[0])}, 90 % ${timed(last[1])}; forwarded ${timed(last[2])}, 90 % ${timed(last[3])}. Each line is ten times the one below.`);
}

function draw() {
  drawRates();
  drawRatio();
  drawTimes();
}

// ---- asking

async function ask(source, isJson) {
  let text;
  try {
    const answer = await fetch(source, { cache: "no-store", credentials: "omit", redirect: "error", signal: AbortSignal.timeout(5000) });
    if (answer.status === 404) return { fault: "this program has no such path (404)" };
    if (!answer.ok) return { fault: `status ${answer.status}` };
    text = await answer.text();
  } catch {
    return { fault: "no answer", gone: true };
  }
  if (!isJson) return { value: text };
  try {
    return { value: JSON.parse(text) };
  } catch {
    return { fault: "an answer that can't be read" };
  }
}

const clock = (moment) => moment.toLocaleTimeString("en-GB");

function tell(answered) {
  const now = new Date();
  if (answered) {
    heard = now;
    gone = null;
  } else {
    gone = gone || now;
  }
  find("gone").hidden = answered;
  if (!answered) {
    const last = heard ? `, last figures at ${clock(heard)}` : "";
    say(find("gone"), `No answer since ${clock(gone)} (${duration((now - gone) / 1000)})${last}.`);
  }
  document.title = answered ? "Wabretos" : "No answer: Wabretos";
  if (paused) return;
  find("state").className = answered ? "good" : "bad";
  say(find("state"), answered ? "Answering" : "No answer");
}

async function oneRound() {
  const paths = ["/stats/clients", "/stats", "/stats/neighbours"];
  const answers = await Promise.all(paths.map((it) => ask(it, true)));
  const answered = !answers.every((it) => it.gone), flags = places().length;
  paths.forEach((it, n) => note(it, answers[n].fault && answered ? `${it}: ${answers[n].fault}` : ""));
  const [clients, datagrams, list] = answers.map((it) => it.value === undefined ? null : it.value);
  keep({ when: performance.now() / 1000, clients, datagrams });
  tell(answered);
  fill(figuresOf(samples[samples.length - 1]));
  showNeighbours(list);
  draw();
  if (rounds % FILTERS_EVERY === 0 || !answered || places().length !== flags) await showFilters();
  rounds = answered ? rounds + 1 : 0;
}

async function turn() {
  clearTimeout(timer);
  if (busy || paused || document.hidden) return;
  busy = true;
  const began = performance.now();
  try {
    await oneRound();
  } finally {
    busy = false;
    timer = setTimeout(turn, Math.max(100, EVERY * 1000 - (performance.now() - began)));
  }
}

function pause() {
  paused = !paused;
  find("pause").setAttribute("aria-pressed", String(paused));
  if (paused) {
    find("state").className = "";
    say(find("state"), "Paused");
  }
  turn();
}

say(find("where"), location.host);
makeTables();
counters = listCounters();
draw();
find("pause").addEventListener("click", pause);
document.addEventListener("visibilitychange", turn);
addEventListener("resize", draw);
turn();
})();
</script>
</body>
</html>
"##;
