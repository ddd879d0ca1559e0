//! The page that shows what is told of a node.

/// The page, in HTML. It needs no other file, and asks its own node alone.
pub const PAGE: &str = r##"<!doctype html>
<html lang="en">
<head>
<meta charset="utf-8">
<meta name="viewport" content="width=device-width, initial-scale=1">
<meta name="color-scheme" content="light dark">
<title>Kanguriwe node</title>
<link rel="icon" href="data:,">
<style>
:root {
  --bg: #f6f7f9; --card: #fff; --line: #e1e5ea; --text: #1d2530; --dim: #667180; --accent: #2f6f8f;
  --good: #2c7a4b; --warn: #96610a; --bad: #b3382f; --hover: #eef3f6; --fill: #2f6f8f22;
  --mono: ui-monospace, "SF Mono", "Cascadia Mono", "DejaVu Sans Mono", Menlo, Consolas, monospace;
}
@media (prefers-color-scheme: dark) {
  :root {
    --bg: #12161b; --card: #1a2027; --line: #2b333d; --text: #dbe2ea; --dim: #8c98a6; --accent: #6cb3d2;
    --good: #6cc08b; --warn: #e0ac54; --bad: #ef8078; --hover: #222b34; --fill: #6cb3d226;
  }
}
* { box-sizing: border-box; }
[hidden] { display: none !important; }
html { scrollbar-gutter: stable; background: var(--bg); }
body { margin: 0; background: var(--bg); color: var(--text); font: 14px/1.45 system-ui, "DejaVu Sans", sans-serif; }
button, input, select { font: inherit; color: inherit; }
button { background: var(--card); border: 1px solid var(--line); border-radius: 6px; padding: 3px 10px; cursor: pointer; }
button:hover { background: var(--hover); }
button:disabled { opacity: .45; cursor: default; }
input, select { background: var(--card); border: 1px solid var(--line); border-radius: 6px; padding: 4px 8px; min-width: 0; }
:focus-visible { outline: 2px solid var(--accent); outline-offset: 1px; }
header { display: flex; flex-wrap: wrap; gap: 4px 14px; align-items: center; padding: 9px 16px; background: var(--card); border-bottom: 1px solid var(--line); position: sticky; top: 0; z-index: 2; }
header h1 { font-size: 15px; margin: 0; font-weight: 650; }
header .space { flex: 1; }
.dot { display: inline-block; width: 9px; height: 9px; border-radius: 50%; background: var(--dim); margin-right: 7px; }
.dot.good { background: var(--good); } .dot.bad { background: var(--bad); }
.dim { color: var(--dim); } .bad { color: var(--bad); } .warn { color: var(--warn); } .good { color: var(--good); }
main { max-width: 1440px; margin: 0 auto; padding: 14px 16px 40px; }
.tiles { display: grid; grid-template-columns: repeat(auto-fit, minmax(180px, 1fr)); gap: 10px; }
.tile, .card { background: var(--card); border: 1px solid var(--line); border-radius: 8px; }
.tile { padding: 9px 12px 0; overflow: hidden; display: flex; flex-direction: column; }
.tile .name { color: var(--dim); font-size: 12px; }
.tile .value { font-size: 21px; font-weight: 600; font-variant-numeric: tabular-nums; line-height: 1.25; }
.tile .more { color: var(--dim); font-size: 12px; white-space: nowrap; overflow: hidden; text-overflow: ellipsis; }
.tile svg { display: block; width: calc(100% + 24px); height: 34px; margin: 5px -12px 0; }
svg path.area { fill: var(--fill); } svg path.line { fill: none; stroke: var(--accent); stroke-width: 1.3; vector-effect: non-scaling-stroke; }
.scheds { display: grid; grid-template-columns: repeat(auto-fill, minmax(250px, 1fr)); gap: 4px 22px; padding: 10px 12px; margin-top: 10px; font-size: 12px; }
.scheds:empty, #pane:empty { display: none; }
.sched { display: grid; grid-template-columns: 1.8em 1fr 3em 4.6em; gap: 7px; align-items: center; font-variant-numeric: tabular-nums; }
.bar { height: 8px; border-radius: 4px; background: var(--line); overflow: hidden; }
.bar i { display: block; height: 100%; background: var(--accent); transition: width .4s; }
.bar.warn i { background: var(--warn); } .bar.bad i { background: var(--bad); }
nav { display: flex; gap: 2px; margin: 16px 0 0; overflow-x: auto; scrollbar-width: none; }
nav button { border: 0; border-bottom: 2px solid transparent; border-radius: 6px 6px 0 0; background: none; padding: 6px 12px; white-space: nowrap; }
nav button[aria-selected=true] { border-bottom-color: var(--accent); font-weight: 600; }
nav sup { color: var(--dim); font-weight: 400; font-size: 11px; vertical-align: baseline; margin-left: 5px; }
.tools { display: flex; flex-wrap: wrap; gap: 8px; align-items: center; padding: 9px 12px; border-bottom: 1px solid var(--line); }
.tools input[type=search] { flex: 1 1 190px; }
.scroll { overflow-x: auto; }
table { border-collapse: collapse; width: 100%; font-variant-numeric: tabular-nums; }
th, td { text-align: left; padding: 4px 12px; border-bottom: 1px solid var(--line); white-space: nowrap; }
th { font-weight: 500; color: var(--dim); font-size: 12px; }
th button { border: 0; background: none; padding: 0; font-size: 12px; color: inherit; }
th[aria-sort] button { color: var(--text); font-weight: 650; }
td.n, th.n { text-align: right; }
td { font-size: 13px; } td.wraps { white-space: normal; min-width: 180px; } button.link { border: 0; background: none; padding: 0 2px; text-decoration: underline; font: 12.5px var(--mono); } td.m, .mono { font-family: var(--mono); font-size: 12.5px; }
tbody tr[tabindex] { cursor: pointer; } tbody tr[tabindex]:hover, tbody tr:focus { background: var(--hover); }
tbody tr:focus { outline: 2px solid var(--accent); outline-offset: -2px; }
.tag { font-size: 12px; padding: 0 7px; border-radius: 9px; border: 1px solid currentColor; }
.empty { padding: 22px 12px; color: var(--dim); text-align: center; }
pre { margin: 0; padding: 9px 12px; font: 12.5px/1.5 var(--mono); white-space: pre-wrap; overflow-wrap: anywhere; }
.log { max-height: 60vh; overflow: auto; } .log .WARN { color: var(--warn); } .log .ERROR { color: var(--bad); }
dialog { border: 1px solid var(--line); border-radius: 10px; background: var(--card); color: var(--text); width: min(860px, calc(100vw - 20px)); max-height: calc(100vh - 30px); padding: 0; }
dialog::backdrop { background: #0007; }
dialog .top { display: flex; gap: 10px; align-items: center; padding: 10px 14px; border-bottom: 1px solid var(--line); position: sticky; top: 0; background: var(--card); }
dialog h2 { font-size: 15px; margin: 0; flex: 1; } dialog h3 { font-size: 12px; color: var(--dim); font-weight: 500; margin: 12px 14px 2px; }
dl { display: grid; grid-template-columns: max-content 1fr; gap: 2px 16px; margin: 8px 14px; } dt { color: var(--dim); } dd { margin: 0; overflow-wrap: anywhere; }
kbd { font: 12px var(--mono); border: 1px solid var(--line); border-radius: 4px; padding: 0 5px; }
@media (max-width: 640px) {
  main { padding: 10px 8px 30px; } header { padding: 8px 10px; } .tiles { grid-template-columns: 1fr 1fr; gap: 7px; }
  .tile { padding: 7px 9px 0; } .tile .value { font-size: 17px; } .tile svg { width: calc(100% + 18px); margin: 4px -9px 0; height: 26px; }
  th, td { padding: 6px 8px; } nav button { padding: 7px 9px; } .wide { display: none; } .scheds { grid-template-columns: 1fr; }
  .stack tr { display: grid; grid-template-columns: 5.8em 1fr 5.6em 4.2em 4.6em; border-bottom: 1px solid var(--line); } .stack th, .stack td { border: 0; padding: 4px 6px; overflow: hidden; text-overflow: ellipsis; }
  .stack td.at { grid-column: 1 / 5; grid-row: 2; padding-top: 0; color: var(--dim); } .stack td.code { grid-column: 5 / 6; grid-row: 2; padding-top: 0; font-size: 12px; } .stack th.at, .stack th.code { display: none; }
}
@media (prefers-reduced-motion: reduce) { .bar i { transition: none; } }
</style>
</head>
<body>
<header>
  <h1><span class="dot" id="dot"></span><span id="title">node</span></h1>
  <span class="dim" id="about"></span>
  <span class="space"></span>
  <span id="state" class="dim" role="status">connecting</span>
  <button id="pause" aria-pressed="false" title="p">Pause</button>
  <button id="help" title="?">Keys</button>
  <button id="stop" hidden>Stop node</button>
</header>
<main>
  <section class="tiles" id="tiles" aria-label="The node at a glance"></section>
  <section class="card scheds" id="scheds" aria-label="Schedulers"></section>
  <nav role="tablist" id="tabs"></nav>
  <section class="card" id="pane" role="tabpanel"></section>
</main>
<dialog id="box"></dialog>
<script>
"use strict";
const $ = id => document.getElementById(id);
// An element with attributes and children. Text is always text: nothing that a node says is read as HTML.
function el(tag, attributes, ...children) {
  const e = document.createElement(tag);
  for (const [k, v] of Object.entries(attributes || {})) {
    if (k.startsWith("on")) e[k] = v; else if (v === true) e.setAttribute(k, ""); else if (v != null && v !== false) e.setAttribute(k, v);
  }
  e.append(...children.flat(3).filter(c => c != null).map(c => c instanceof Node ? c : String(c)));
  return e;
}
const count = n => n == null ? "–" : Math.round(n).toLocaleString("en-US").replaceAll(",", "\u202f");
function short(n) {
  if (n == null || !isFinite(n)) return "–";
  for (const [size, word] of [[1e9, "G"], [1e6, "M"], [1e4, "k"]]) if (n >= size) return (n / (word == "k" ? 1e3 : size)).toFixed(1) + word;
  return n >= 100 || Number.isInteger(n) ? count(n) : n.toFixed(1);
}
const bytes = n => n == null ? "–" : n < 1024 ? n + " B" : n < 1048576 ? (n / 1024).toFixed(1) + " KiB" : n < 1073741824 ? (n / 1048576).toFixed(1) + " MiB" : (n / 1073741824).toFixed(2) + " GiB";
function span(s) {
  if (s == null || !isFinite(s)) return "–";
  s = Math.max(0, Math.floor(s));
  const d = Math.floor(s / 86400), h = Math.floor(s / 3600) % 24, m = Math.floor(s / 60) % 60;
  return d > 999 ? "years" : d ? `${d} d ${h} h` : h ? `${h} h ${m} min` : m ? `${m} min ${s % 60} s` : `${s} s`;
}
const pidText = p => `<0.${p}.0>`;
// A word of a shell's line, whatever a node says.
const word = t => /^[A-Za-z0-9_@.][A-Za-z0-9_@.-]*$/.test(t) ? t : "'" + t.replaceAll("'", "'\\''") + "'";

// The token comes in the fragment, which no server and no log sees, and stays with this tab.
const given = new URLSearchParams(location.hash.slice(1)).get("token");
if (given) { sessionStorage.setItem("token", given); history.replaceState(null, "", location.pathname); }
async function ask(path, method) {
  const headers = { "X-Kanguriwe": "1" }, token = sessionStorage.getItem("token");
  if (token) headers.Authorization = "Bearer " + token;
  const answer = await fetch(path, { method: method || "GET", headers, cache: "no-store", credentials: "omit", signal: AbortSignal.timeout(5000) });
  if (answer.status == 401) throw new Error("give the token: open this page as …/#token=TOKEN");
  if (!answer.ok) throw new Error(answer.status + " " + (await answer.text()).slice(0, 200));
  return answer.json();
}

const KEEP = 300, series = {};
function note(name, value) { if (value == null) return; const s = series[name] ||= []; s.push(value); if (s.length > KEEP) s.shift(); }
function spark(name, most) {
  const values = series[name] || [], wide = Math.max(60, values.length), top = Math.max(most || 0, ...values.map(v => v || 0), 1e-9);
  const points = values.map((v, i) => [(wide - values.length + i) / (wide - 1) * 300, 32 - 29 * (v || 0) / top]);
  const line = points.map((p, i) => (i ? "L" : "M") + p[0].toFixed(1) + " " + p[1].toFixed(1)).join("");
  const svg = document.createElementNS("http://www.w3.org/2000/svg", "svg");
  svg.setAttribute("viewBox", "0 0 300 34"); svg.setAttribute("preserveAspectRatio", "none"); svg.setAttribute("aria-hidden", "true");
  if (points.length > 1) for (const [c, d] of [["area", line + `L300 34L${points[0][0].toFixed(1)} 34Z`], ["line", line]]) {
    const path = document.createElementNS("http://www.w3.org/2000/svg", "path");
    path.setAttribute("class", c); path.setAttribute("d", d); svg.append(path);
  }
  return svg;
}

let node = null, before = null, paused = false, stopped = false;
function perSecond(get) {
  if (!before || !node) return null;
  const seconds = (node.uptime_ms - before.uptime_ms) / 1000;
  return seconds > 0 ? Math.max(0, get(node) - get(before)) / seconds : null;
}
const total = (n, what) => n.schedulers.reduce((sum, s) => sum + s[what], 0);
function tile(name, value, more, serie, most, tone) {
  return el("div", { class: "tile" }, el("div", { class: "name" }, name), el("div", { class: "value " + (tone || "") }, value), el("div", { class: "more", title: more }, more), spark(serie, most));
}
// By the mean of the last minute.
function fullIn(j) {
  const some = (series.entries || []).slice(-60), rate = some.reduce((a, b) => a + b, 0) / (some.length || 1);
  return j.in_file ? "in a file" : j.in_memory >= j.limit ? "it is full" : rate > 0 ? `full in ${span((j.limit - j.in_memory) / rate)}` : "never full at this rate";
}
const filled = j => j.limit ? Math.min(1, j.in_memory / j.limit) : 1;
const tone = share => share >= .9 ? "bad" : share >= .5 ? "warn" : "";
function glance() {
  const p = node.processes, j = node.journal, entries = perSecond(n => n.journal.entries), slices = perSecond(n => total(n, "slices")), rows = perSecond(n => total(n, "rows"));
  note("live", p.live); note("entries", entries); note("slices", slices); note("rows", rows); note("running", p.running); note("memory", node.memory.resident_bytes);
  const share = filled(j);
  $("tiles").replaceChildren(
    tile("Live processes", count(p.live), `${count(p.started)} started, ${count(p.ended)} ended`, "live"),
    tile("Can go on", count(p.running), `${count(p.waiting)} wait, ${count(p.held)} held` + (p.counted_ms >= 2000 ? `, ${span(p.counted_ms / 1000)} ago` : ""), "running"),
    tile("Slices a second", short(slices), `${short(rows)} rows a second`, "slices"),
    tile("Journal entries a second", short(entries), fullIn(j), "entries", 0, tone(share)),
    tile("Journal filled", (100 * share).toFixed(share < .1 ? 2 : 1) + " %", `${count(j.in_memory)} of ${count(j.limit)} in memory`, "share", 1, tone(share)),
    tile("Memory", bytes(node.memory.resident_bytes), `${count(node.modules.current)} modules, ${count(node.modules.old)} old instances`, "memory"));
  note("share", share);
  $("scheds").replaceChildren(...node.schedulers.map((s, i) => {
    const was = before && before.schedulers[i], ms = before ? node.uptime_ms - before.uptime_ms : 0;
    const busy = was && ms > 0 ? Math.min(1, (s.busy_us - was.busy_us) / 1000 / ms) : null, rate = was && ms > 0 ? (s.slices - was.slices) * 1000 / ms : null;
    return el("div", { class: "sched", title: `scheduler ${i + 1}: ${count(s.slices)} slices, ${count(s.rows)} rows` }, el("span", { class: "dim" }, i + 1),
      el("span", { class: "bar" }, el("i", { style: `width:${busy == null ? 0 : 100 * busy}%` })), el("span", {}, busy == null ? "–" : Math.round(100 * busy) + " %"), el("span", { class: "dim" }, short(rate) + "/s"));
  }));
  $("title").textContent = node.name; document.title = `${node.name}: ${count(p.live)} processes`;
  $("about").textContent = `${node.address}, version ${node.version}, up ${span(node.uptime_ms / 1000)}, ${node.connections.taken} of ${node.connections.places} places taken`;
  $("stop").hidden = !node.can_stop;
}

const tabs = {
  processes: ["Processes", n => n.processes.live, showProcesses], modules: ["Modules", n => n.modules.current, showModules],
  journal: ["Journal", null, showJournal], connections: ["Connections", n => n.connections.taken, showConnections], log: ["Log", null, showLog] };
let tab = tabs[location.hash.slice(1)] ? location.hash.slice(1) : "processes";
function drawTabs() {
  $("tabs").replaceChildren(...Object.entries(tabs).map(([id, [name, number]], i) => el("button", { role: "tab", id: "tab-" + id, "aria-selected": String(tab == id), title: String(i + 1), onclick: () => openTab(id) },
    name, number && node ? el("sup", {}, count(number(node))) : null)));
}
function openTab(id) { tab = id; history.replaceState(null, "", "#" + id); $("pane").replaceChildren(); drawTabs(); tabs[id][2](); }

// A table whose rows stay where they are while their cells change.
function table(columns, rows, options) {
  let t = $("pane").querySelector("table");
  if (!t) { t = el("table", { class: options.stack ? "stack" : null }, el("thead", {}, el("tr")), el("tbody")); $("pane").append(el("div", { class: "scroll" }, t), el("div", { class: "empty", hidden: true })); }
  t.tHead.rows[0].replaceChildren(...columns.map(c => el("th", { class: c.c, scope: "col", "aria-sort": c.s && options.sort == c.s ? (options.down ? "descending" : "ascending") : null },
    c.s ? el("button", { onclick: () => options.onsort(c.s) }, c.t, options.sort == c.s ? (options.down ? " ↓" : " ↑") : "") : c.t)));
  const body = t.tBodies[0];
  while (body.rows.length > rows.length) body.deleteRow(-1);
  rows.forEach((row, i) => {
    const r = body.rows[i] || body.insertRow();
    if (options.onopen) { r.tabIndex = 0; r.onclick = () => options.onopen(row); r.onkeydown = e => { if (e.key == "Enter") options.onopen(row); }; }
    columns.forEach((c, k) => {
      const cell = r.cells[k] || r.insertCell(), value = c.v(row);
      cell.className = c.c || "";
      if (value instanceof Node) cell.replaceChildren(value); else if (cell.textContent != String(value ?? "") || cell.firstElementChild) cell.textContent = value ?? "";
    });
  });
  const empty = $("pane").querySelector(".empty"); empty.hidden = rows.length > 0; empty.textContent = options.empty || "none";
}
const stateTag = p => el("span", { class: "tag " + ({ running: "good", held: "warn", ended: "bad" }[p.state] || "dim") }, p.state);
const place = at => at ? `${at.module}:${at.function}/${at.arity}` + (at.label ? ` label ${at.label} + ${at.row}` : "") : "";
const code = at => at ? el("span", { class: at.code == "old" ? "warn" : "dim" }, at.code == "current" ? at.instance : `${at.instance} ${at.code}`) : "";

// What stands before a page in `after`; nothing before the first.
const pages = after => el("span", {}, el("button", { id: "back", onclick: () => { after.pop(); tabs[tab][2](); } }, "‹ Back"), " ", el("button", { id: "next", onclick: () => { after.push(following); tabs[tab][2](); } }, "Next ›"));
let following = null;
function turn(after, next) { following = next; $("back").disabled = after.length == 0; $("next").disabled = next == null; }
const behind = after => after.length ? { after: after.at(-1) } : {};
const view = { q: "", state: "live", sort: "pid", down: false, limit: 50, after: [] };
const query = () => `/api/processes?` + new URLSearchParams({ ...behind(view.after), limit: view.limit, state: view.state, sort: view.sort, down: view.down ? 1 : 0, q: view.q });
async function showProcesses() {
  if (!$("q")) {
    const again = () => { view.after.length = 0; showProcesses(); };
    $("pane").append(el("div", { class: "tools" },
      el("input", { type: "search", id: "q", placeholder: "pid, name or module", "aria-label": "Search", value: view.q, oninput: e => { view.q = e.target.value.trim(); again(); } }),
      el("select", { id: "which", "aria-label": "State", onchange: e => { view.state = e.target.value; again(); } }, ["live", "running", "waiting", "held", "old", "ended"].map(s => el("option", { value: s, selected: s == view.state }, s == "old" ? "in old code" : s))),
      el("select", { id: "limit", "aria-label": "Rows", onchange: e => { view.limit = +e.target.value; again(); } }, [20, 50, 100, 500].map(n => el("option", { value: n, selected: n == view.limit }, n + " rows"))),
      pages(view.after), el("span", { class: "dim", id: "shown" })));
  }
  const asked = query(), found = await ask(asked);
  if (tab != "processes" || asked != query() || !$("q")) return;
  turn(view.after, found.next);
  $("shown").textContent = [found.matching == null ? "" : `${count(found.matching)} match`, found.partial ? `${count(found.seen)} looked at, there are more` : ""].filter(Boolean).join(", ");
  table([{ t: "Pid", c: "m", s: "pid", v: p => pidText(p.pid) }, { t: "Name", v: p => p.name || "" }, { t: "State", v: stateTag }, { t: "Mailbox", c: "n", s: "mailbox", v: p => count(p.mailbox) },
    { t: "Transit", c: "n", s: "transit", v: p => count(p.transit) }, { t: "Stack", c: "n wide", s: "stack", v: p => count(p.stack_words) },
    { t: "At", c: "m at", v: p => p.at ? place(p.at) : p.reason ? termText(p.reason) : "" }, { t: "Instance", c: "code", v: p => code(p.at) }], found.processes,
  { stack: true, sort: view.sort, down: view.down, empty: "no process matches", onopen: p => inspect(p.pid), onsort: s => { view.down = view.sort == s ? !view.down : s != "pid"; view.sort = s; view.after.length = 0; showProcesses(); } });
}
const pidLink = p => [el("button", { class: "link", onclick: () => inspect(p) }, pidText(p)), " "];
const lingerers = old => old.lingering == 0 ? el("span", { class: "good" }, "nobody: soft_purge will do") : el("span", { class: "warn" }, `${count(old.lingering)}: `, old.first.map(pidLink), old.lingering > old.first.length ? "…" : "");
const modulesAfter = [];
async function showModules() {
  if (!$("more")) $("pane").append(el("div", { class: "tools", id: "more", hidden: true }, pages(modulesAfter), el("span", { class: "dim", id: "shown" })));
  const asked = "/api/modules?" + new URLSearchParams({ ...behind(modulesAfter), limit: 100 }), found = await ask(asked);
  if (tab != "modules" || !$("more")) return;
  turn(modulesAfter, found.next); $("more").hidden = modulesAfter.length == 0 && found.next == null; $("shown").textContent = found.partial ? "there are more" : "";
  table([{ t: "Module", c: "m", v: m => m.name }, { t: "Current", c: "n", v: m => m.current ? m.current.instance : "–" }, { t: "Instructions", c: "n wide", v: m => m.current ? count(m.current.instructions) : "" },
    { t: "Old", c: "n", v: m => m.old ? m.old.instance : "–" }, { t: "Instructions", c: "n wide", v: m => m.old ? count(m.old.instructions) : "" },
    { t: "Who lingers", c: "wraps", v: m => m.old ? lingerers(m.old) : "" }, { t: "To copy", c: "m wide dim", v: m => m.old ? `beamctl soft_purge ${word(m.name)}` : "" }], found.modules, { empty: "no code is loaded" });
}
async function showJournal() {
  const j = await ask("/api/journal"); if (tab != "journal") return;
  const share = filled(j), rows = [["Entries", `${count(j.entries)} since the node began`], ["In memory", `${count(j.in_memory)} of ${count(j.limit)}`],
    ["Filled", el("div", { class: "bar " + tone(share), style: "max-width:420px;margin-top:6px" }, el("i", { style: `width:${100 * share}%` }))], [j.in_file ? "Kept" : "Left", fullIn(j)],
    ...Object.entries(j.kinds).map(([kind, n]) => [kind, `${count(n)} (${j.entries ? (100 * n / j.entries).toFixed(1) : 0} %)`]),
    ["When it is full", j.stops_when_full ? "the node ends, and its supervisor starts it anew" : "each command is refused, and no process runs"]];
  $("pane").replaceChildren(el("dl", {}, rows.flatMap(([t, d]) => [el("dt", {}, t), el("dd", {}, d)])));
}
async function showConnections() {
  const { connections } = await ask("/api/connections"); if (tab != "connections") return;
  table([{ t: "Place", c: "n", v: c => c.place }, { t: "Peer", c: "m", v: c => c.peer }, { t: "Since", v: c => span(c.since_ms / 1000) }], connections, { empty: "nobody is connected" });
}
let lines = [], seen = 0;
const moment = ms => { const t = new Date(ms); return isNaN(t) ? "" : t.toISOString(); };
const level = text => /^\W*(WARN|ERROR)\b/.exec(text)?.[1];
async function showLog() {
  const more = await ask("/api/log?after=" + seen); if (more.lost) lines.push({ time_ms: NaN, text: `WARN ${count(more.lost)} lines were lost` });
  lines.push(...more.lines); if (more.lines.length) seen = more.lines.at(-1).number; lines = lines.slice(-500);
  if (tab != "log") return;
  let log = $("pane").querySelector(".log"); if (!log) $("pane").append(log = el("pre", { class: "log", tabindex: "0" }));
  const low = log.scrollHeight - log.scrollTop - log.clientHeight < 30;
  log.replaceChildren(...lines.map(l => el("div", { class: level(l.text) }, `${moment(l.time_ms)} ${l.text}`))); if (low) log.scrollTop = log.scrollHeight;
}
const termText = t => t.text + (t.whole ? "" : " …");
let inspected = null;
async function inspect(pid) {
  inspected = pid;
  let p; try { p = await ask("/api/process/" + pid); } catch (e) { if (inspected == pid) message(pidText(pid), el("pre", {}, e.message)); return; }
  if (inspected != pid) return;
  const list = (name, terms, label) => terms.length ? [el("h3", {}, name), el("pre", {}, terms.map((t, i) => `${label(i)} ${termText(t)}`).join("\n"))] : [];
  const frames = p.frames.flatMap((f, n) => [el("h3", {}, f.back ? `Frame ${n}, returns to ${place(f.back)} instance ${f.back.instance}` : `Frame ${n}, the first`), el("pre", {}, f.y.map((t, i) => `y${i} ${t ? termText(t) : "·"}`).join("\n") || "no y registers")]);
  const rows = [["State", stateTag(p)], p.name && ["Name", p.name], p.at && ["At", place(p.at)], p.at && ["Instance", code(p.at)], p.next && ["Next", p.next], p.reason && ["Reason", termText(p.reason)], p.deadline_ms != null && ["Waits for", `${count(p.deadline_ms)} ms more`],
    ["Mailbox", `${count(p.mailbox)} messages, ${count(p.save)} of them looked at; ${count(p.transit)} on their way`], ["Stack", `${count(p.stack_words)} words`], p.monitors > 0 && ["Monitors", [`${count(p.monitors)}: `, p.monitored.map(pidLink), p.monitors > p.monitored.length ? "…" : ""]]].filter(Boolean);
  const body = [el("div", { class: "top" }, el("h2", {}, pidText(pid), p.name ? " " + p.name : ""), el("button", { onclick: () => inspect(pid) }, "Look again"), el("button", { onclick: closeBox }, "Close")),
    el("dl", {}, rows.flatMap(([t, d]) => [el("dt", {}, t), el("dd", { class: t == "Next" || t == "At" ? "mono" : "" }, d)])), ...list("Registers", p.x, i => "x" + i), ...frames, ...list("First messages", p.first_messages, i => i + 1 + "."), p.cut ? el("p", { class: "warn", style: "margin:12px 14px" }, "more than is shown") : null,
    p.state == "ended" ? null : el("h3", {}, "To copy"), p.state == "ended" ? null : el("pre", {}, `beamctl inspect ${pid}\nbeamctl kill ${pid}`)].filter(Boolean);
  $("box").replaceChildren(...body); if (!$("box").open) $("box").showModal();
}
function closeBox() { inspected = null; $("box").close(); }
$("box").addEventListener("close", () => inspected = null);
function message(title, ...content) { $("box").replaceChildren(el("div", { class: "top" }, el("h2", {}, title), el("button", { onclick: closeBox }, "Close")), ...content); if (!$("box").open) $("box").showModal(); }
$("help").onclick = () => message("Keys", el("dl", {}, [["1 … 5", "processes, modules, journal, connections, log"], ["/", "search"], ["j  k", "next and previous row"], ["Enter", "open it"], ["n  b", "next and previous page"], ["p", "pause"], ["Esc", "close"]].flatMap(([k, v]) => [el("dt", {}, el("kbd", {}, k)), el("dd", {}, v)])));
const losses = () => node.journal.in_file ? "The journal is in a file, which stays. What isn't there is lost." : `There is no journal file, so all is lost: ${count(node.processes.live)} processes, their messages, code and the journal.`;
async function reallyStop() { try { await ask("/stop", "POST"); stopped = true; closeBox(); tell("stopped", "bad"); } catch (e) { message("Not stopped", el("pre", {}, e.message)); } }
$("stop").onclick = () => message("Stop this node?", el("p", { style: "margin:12px 14px" }, `${losses()} New connections are refused, slices end, and the node ends with status 0.`), el("p", { style: "margin:0 14px 14px" }, el("button", { class: "bad", id: "really", onclick: reallyStop }, "Stop it")));
function pause() { paused = !paused; $("pause").textContent = paused ? "Go on" : "Pause"; $("pause").setAttribute("aria-pressed", paused); if (paused) tell("paused", "dim"); else tick(); }
$("pause").onclick = pause;
document.addEventListener("keydown", e => {
  if (e.ctrlKey || e.metaKey || e.altKey) return;
  if (/INPUT|SELECT|TEXTAREA/.test(e.target.tagName)) { if (e.key == "Escape") e.target.blur(); return; }
  const rows = [...document.querySelectorAll("#pane tbody tr[tabindex]")], at = rows.indexOf(document.activeElement), id = Object.keys(tabs)[+e.key - 1];
  if (id) openTab(id); else if (e.key == "p") pause(); else if (e.key == "?") $("help").click();
  else if (e.key == "/" && $("q")) { e.preventDefault(); $("q").focus(); }
  else if (e.key == "n" && $("next") && !$("next").disabled) $("next").click(); else if (e.key == "b" && $("back") && !$("back").disabled) $("back").click();
  else if ((e.key == "j" || e.key == "ArrowDown") && rows.length) { e.preventDefault(); rows[Math.min(at + 1, rows.length - 1)].focus(); }
  else if ((e.key == "k" || e.key == "ArrowUp") && rows.length) { e.preventDefault(); rows[Math.max(at - 1, 0)].focus(); }
});
function tell(text, tone) { $("state").textContent = text; $("state").className = tone; $("dot").className = "dot " + tone; }
let timer = null;
async function tick() {
  clearTimeout(timer);
  if (paused || stopped) return;
  if (!document.hidden) try {
    const now = await ask("/api/node"); before = node && now.uptime_ms >= node.uptime_ms ? node : null;
    if (node && !before) { seen = 0; lines = []; }
    node = now; glance(); drawTabs();
    await tabs[tab][2](); tell("live", "good");
  } catch (e) { tell(e.name == "TypeError" || e.name == "TimeoutError" ? "no answer, trying again" : e.message, "bad"); }
  timer = setTimeout(tick, 1000);
}
document.addEventListener("visibilitychange", () => { if (!document.hidden) tick(); });
drawTabs(); tick();
</script>
</body>
</html>
"##;
