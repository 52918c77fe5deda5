//! The page that people read.

/// It asks for the numbers once a second, shows them, and draws the last minutes of some. Its
/// heading and its title say which server it is. It shows the ten tags of which there are most
/// tuples, and the ten clients that wait or hold a tuple for longest, for which it asks every five
/// seconds, and leads to all lists. Nothing of it comes from elsewhere.
pub(crate) const PAGE: &str = r##"<!DOCTYPE html>
<html lang="en">
<head>
<meta charset="utf-8">
<meta name="viewport" content="width=device-width, initial-scale=1">
<title>linda serve</title>
<link rel="icon" href="data:,">
<style>
:root { color-scheme: light dark; --back: #f6f6f4; --card: #fff; --text: #1c1c1a; --soft: #66665f;
  --rule: #e2e2dc; --good: #17753a; --bad: #b3261e; --line: #2f6fb5; --fill: #2f6fb522; }
@media (prefers-color-scheme: dark) {
  :root { --back: #161615; --card: #20201e; --text: #ecece6; --soft: #a3a39a; --rule: #34342f;
    --good: #5fc487; --bad: #ff8a7f; --line: #7db3ee; --fill: #7db3ee22; } }
* { box-sizing: border-box; }
body { margin: 0; background: var(--back); color: var(--text);
  font: 15px/1.45 system-ui, sans-serif; }
main { max-width: 68rem; margin: 0 auto; padding: 1.25rem 1rem 2rem; }
header { display: flex; flex-wrap: wrap; align-items: baseline; gap: .25rem .75rem;
  margin-bottom: 1rem; }
h1 { font-size: 1.3rem; margin: 0; overflow-wrap: anywhere; }
#about, nav { color: var(--soft); font-variant-numeric: tabular-nums; }
nav { display: flex; flex-wrap: wrap; gap: .25rem 1rem; margin-top: 1rem; }
a { color: var(--line); }
h2 { font-size: .85rem; font-weight: 600; margin: 0; color: var(--soft); }
#state { font-weight: 600; color: var(--soft); }
#state.up { color: var(--good); }
#state.down { color: var(--bad); }
.grid { display: grid; gap: .75rem; grid-template-columns: repeat(auto-fit, minmax(15rem, 1fr)); }
.card { background: var(--card); border: 1px solid var(--rule); border-radius: .5rem;
  padding: .75rem .9rem; min-width: 0; }
.top { display: flex; justify-content: space-between; align-items: baseline; }
.top b { font-size: 1.35rem; }
.top b, dd { font-variant-numeric: tabular-nums; }
svg { display: block; width: 100%; height: 4rem; margin: .4rem 0 .2rem; overflow: visible; }
svg path { stroke: var(--line); stroke-width: 1.5; fill: none; vector-effect: non-scaling-stroke; }
svg path + path { stroke: none; fill: var(--fill); }
.foot { display: flex; justify-content: space-between; color: var(--soft); font-size: .8rem; }
dl { display: grid; grid-template-columns: 1fr auto; gap: .25rem 1rem; margin: .5rem 0 0; }
dt { color: var(--soft); overflow-wrap: anywhere; }
dd { margin: 0; text-align: right; }
section { margin-top: .75rem; }
</style>
</head>
<body>
<main>
<header><h1 id="name">linda serve</h1><span id="state" role="status">asking</span>
<span id="about"></span></header>
<section class="grid" id="charts"></section>
<section class="grid" id="lists"></section>
<nav><a href="/tuples">Tuples</a><a href="/clients">Clients</a><a href="/tags">Tags</a>
<a href="/longest">Longest</a>
<a href="/metrics">Metrics</a><a href="/status.json">Numbers</a></nav>
</main>
<script>
"use strict";
const MOST = 300000;
const CHARTS = [["rate", "Deeds a second"], ["tuples", "Tuples"], ["waits", "Asks that wait"],
  ["holds", "Tuples held"]];
const LISTS = [
  ["Clients", { clients: "Clients known", taken_by_absent: "Away, took a tuple last",
    connections: "Connections open", connections_total: "Connections that came", unserved_total: "Connections not served",
    late_total: "Leases run out", oldest_hold_seconds: "Oldest hold, seconds",
    oldest_wait_seconds: "Oldest wait, seconds" }],
  ["Store", { deeds_total: "Deeds", records: "Records", next_id: "Next id",
    bank_bytes: "Bytes used", bank_limit_bytes: "Bytes at most" }],
  ["Refused", { refusals_full: "Bank full", refusals_busy: "Number in use",
    refusals_toomany: "Too many clients", refusals_greetings: "Wrong greeting",
    refusals_malformed: "Malformed" }],
  ["Loops", { groups_total: "Groups", group_messages_total: "Messages in groups",
    size: "Messages a group, last 5 min" }],
];
const SVG = "http://www.w3.org/2000/svg";
const byId = (id) => document.getElementById(id);
const text = (number) => number.toLocaleString("en", { maximumFractionDigits: 1 });
const values = {}, charts = [], past = [];

function add(parent, name, content) {
  const made = parent.appendChild(document.createElement(name));
  if (content !== undefined) made.textContent = content;
  return made;
}

for (const [key, title] of CHARTS) {
  const card = add(byId("charts"), "div");
  card.className = "card";
  const top = add(card, "div");
  top.className = "top";
  add(top, "h2", title);
  const now = add(top, "b", "–");
  const svg = card.appendChild(document.createElementNS(SVG, "svg"));
  svg.setAttribute("viewBox", "0 0 100 100");
  svg.setAttribute("preserveAspectRatio", "none");
  svg.setAttribute("role", "img");
  const paths = [0, 1].map(() => svg.appendChild(document.createElementNS(SVG, "path")));
  const foot = add(card, "div");
  foot.className = "foot";
  charts.push({ key, title, now, svg, paths, span: add(foot, "span"),
    most: add(foot, "span") });
}
for (const [title, rows] of LISTS) {
  const card = add(byId("lists"), "div");
  card.className = "card";
  add(card, "h2", title);
  const list = add(card, "dl");
  for (const [key, label] of Object.entries(rows)) {
    add(list, "dt", label);
    values[key] = add(list, "dd", "–");
  }
}

function addList(title) {
  const card = add(byId("lists"), "div");
  card.className = "card";
  add(card, "h2", title);
  return add(card, "dl");
}
const tags = addList("Most tuples, by tag and number of fields");
const longest = addList("Wait or hold for longest");
const short = (word) => word.length > 40 ? word.slice(0, 40) + "…" : word;

function showTags(found) {
  tags.replaceChildren();
  for (const row of found.tags) {
    add(tags, "dt", short(JSON.stringify(row.tag)) + ", " + row.fields);
    add(tags, "dd", text(row.tuples));
  }
  if (!found.whole) add(tags, "dt", "and others");
}

function showLongest(found) {
  const rows = found.waits.map((row) => [row.client, "waits for " + row.text, row.seconds]);
  for (const row of found.holds) {
    if (row.held) rows.push([row.held.client, "holds " + row.text, row.held_seconds]);
  }
  rows.sort((one, other) => other[2] - one[2]);
  longest.replaceChildren();
  for (const [client, what, seconds] of rows.slice(0, 10)) {
    add(longest, "dt", "Client " + client + " " + short(what));
    add(longest, "dd", span(seconds));
  }
  if (rows.length === 0) add(longest, "dt", "Nobody");
}

const UNITS = [[86400, "d"], [3600, "h"], [60, "min"], [1, "s"]];
function span(seconds) {
  const first = UNITS.findIndex(([size]) => seconds >= size || size === 1);
  let rest = seconds;
  return UNITS.slice(first, first + 2).map(([size, unit]) => {
    const count = Math.floor(rest / size);
    rest -= count * size;
    return count + " " + unit;
  }).join(" ");
}

function showAbout(now) {
  const places = [];
  if (now.port !== null) places.push("port " + now.port);
  if (now.socket !== null) places.push("socket " + now.socket);
  const name = now.folder + ", " + places.join(", ");
  byId("name").textContent = name;
  document.title = name + " – linda serve";
  byId("about").textContent = "linda " + now.version
    + (now.uptime_seconds === null ? "" : ", began " + span(now.uptime_seconds) + " ago");
}

async function get(path) {
  const got = await fetch(path, { cache: "no-store" });
  if (!got.ok) throw new Error(got.statusText);
  return got.json();
}

function draw(chart) {
  const first = past[0].at, now = past[past.length - 1], time = now.at - first;
  const value = now[chart.key], most = Math.max(...past.map((it) => it[chart.key]));
  const place = (it) => (time ? 100 * (it.at - first) / time : 0).toFixed(2);
  const height = (it) => (98 - 96 * it[chart.key] / (most || 1)).toFixed(2);
  const line = "M" + past.map((it) => place(it) + "," + height(it)).join("L");
  chart.paths[0].setAttribute("d", line);
  chart.paths[1].setAttribute("d", line + "L100,100L0,100Z");
  chart.now.textContent = text(value);
  chart.span.textContent = "last " + span(Math.round(time / 1000));
  chart.most.textContent = "most " + text(most);
  chart.svg.setAttribute("aria-label", chart.title + ": " + text(value) + " now");
}

let before = null, turn = 0;
function show(now) {
  const gain = (key) => before ? Math.max(now[key] - before[key], 0) : 0;
  const sum = (key) => past.reduce((all, it) => all + it[key], 0);
  now.at = performance.now();
  now.rate = before ? gain("deeds_total") * 1000 / (now.at - before.at) : 0;
  now.groups = gain("groups_total");
  now.messages = gain("group_messages_total");
  before = now;
  past.push(now);
  while (now.at - past[0].at > MOST) past.shift();
  now.size = sum("groups") ? sum("messages") / sum("groups") : 0;
  showAbout(now);
  for (const chart of charts) draw(chart);
  for (const key in values) values[key].textContent = text(now[key]);
}

function say(word, kind) {
  byId("state").textContent = word;
  byId("state").className = kind;
}

async function ask() {
  try {
    const now = await get("/status.json");
    show(now);
    if (now.up) say("up", "up");
    else say("down", "down");
    if (turn++ % 5 === 0) {
      showTags(await get("/tags?limit=10"));
      showLongest(await get("/longest?limit=10"));
    }
  } catch {
    before = null;
    say("no answer", "down");
  }
  setTimeout(ask, 1000);
}
ask();
</script>
</body>
</html>
"##;
