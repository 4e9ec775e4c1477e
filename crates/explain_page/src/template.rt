//! The template of the page, as `scripts/page_template.py` writes it of `page/page.html`: edit that, and run the script.

/// A part of the template.
#[derive(Clone, Copy)]
pub enum Part {
    /// It is written as it is.
    Text(&'static str),
    /// It is filled in.
    Slot(Slot),
}

/// What is filled in.
#[derive(Clone, Copy)]
pub enum Slot {
    Title,
    Lines,
    Dangerous,
    Rows,
    Hints,
    Data,
}

/// The parts of the page, in order.
pub const PAGE: [Part; 15] = [
    Part::Text(
        r##"<!DOCTYPE html>
<html lang="en">
<meta charset="utf-8">
<meta http-equiv="Content-Security-Policy" content="default-src 'none'; style-src 'sha256-e5Y5iG0hhv03dNVW1aNlvOzUPeF58wfC7QjFy3QvGCE='; script-src 'sha256-UZKPVJmwqDpokUXXjTwY/hidKBX/HsHIhzKuoPH15sY='; base-uri 'none'; form-action 'none'">
<meta name="viewport" content="width=device-width, initial-scale=1">
<meta name="color-scheme" content="light dark">
<meta name="generator" content="explain --html">
<title>"##,
    ),
    Part::Slot(Slot::Title),
    Part::Text(
        r##"</title>
<style>
:root {
  color-scheme: light dark;
  --paper: #fff; --ink: #1b1d21; --dim: #555b66; --line: #d5d9e0; --card: #f7f8fa; --bar: #4a6fa5; --alarm: #a8071a; --mark: #ffe08a;
  --scheme: #00646b; --user: #7a4f00; --host: #14612a; --port: #6d2f96; --path: #1b489e; --query: #93266d; --fragment: #4145a8;
}
@media (prefers-color-scheme: dark) {
  :root {
    --paper: #15171b; --ink: #e8eaee; --dim: #a9b0bc; --line: #3a3f49; --card: #1d2026; --bar: #7ea2d6; --alarm: #ff9a9a; --mark: #4a3900;
    --scheme: #62d4dc; --user: #e8b95f; --host: #84dc9a; --port: #d3a4f2; --path: #93baff; --query: #f5a3d5; --fragment: #b9bcff;
  }
}
* { box-sizing: border-box; }
body {
  margin: 0 auto; padding: 1rem; max-width: 80rem; background: var(--paper); color: var(--ink);
  font: 1rem/1.5 system-ui, sans-serif; overflow-wrap: anywhere;
}
h1, h2, h3 { line-height: 1.25; margin: 0 0 .5rem; font-size: 1rem; }
h1 { font-size: 1.6rem; }
h2 { font-size: 1.25rem; margin-top: 1.5rem; }
p { margin: .25rem 0; }
a { color: var(--path); }
:focus-visible { outline: 3px solid var(--bar); outline-offset: 2px; }
.skip { position: absolute; left: -100rem; }
.skip:focus { left: 1rem; top: 1rem; padding: .5rem 1rem; background: var(--paper); border: 2px solid var(--bar); }
table { border-collapse: collapse; }
th, td { text-align: left; vertical-align: top; padding: .25rem .5rem; white-space: break-spaces; unicode-bidi: isolate; }
dd { margin: 0; white-space: break-spaces; unicode-bidi: isolate; }

/* The lines. Those that aren't seen are laid out late, by groups: a browser takes minutes for all of them. Each group has a reading flow
   of its own: otherwise Chromium lays out all groups to find what the first Tab reaches. */
#lines, #lines > * { display: block; }
#lines > caption { text-align: left; color: var(--dim); }
#lines > tbody { content-visibility: auto; contain-intrinsic-size: auto 600rem; reading-flow: source-order; }
#lines > tbody[hidden] { content-visibility: hidden; contain-intrinsic-size: 0 !important; }
#lines > tbody:empty { display: none; }
#lines > * > tr { display: grid; grid-template-columns: 5rem minmax(0, 5fr) minmax(0, 3fr) minmax(0, 3fr) minmax(0, 2fr); border-bottom: 1px solid var(--line); }
#lines > * > tr[hidden] { display: none; }
#lines > * > .more { grid-template-columns: minmax(0, 1fr); background: var(--card); }
#lines > tbody > tr:not(.more) > * { max-height: 12rem; overflow-y: auto; }
#lines tr:target { background: var(--card); }
#lines > tbody > tr > th { font-weight: 400; }
#lines > tbody > tr > td:nth-child(2), #lines > tbody > tr > td:nth-child(5), .t, .m dd { font-family: ui-monospace, monospace; font-size: .95rem; direction: ltr; }
b { color: var(--alarm); font-weight: 600; }
.s, .e { --c: var(--scheme); } .u { --c: var(--user); } .w { --c: var(--alarm); } .h, .a { --c: var(--host); } .o { --c: var(--port); }
.p { --c: var(--path); } .q { --c: var(--query); } .f { --c: var(--fragment); }
span { color: var(--c, inherit); unicode-bidi: isolate; }
mark { background: var(--mark); color: inherit; text-decoration: underline wavy var(--alarm); }
mark:empty::before { content: "\2038"; color: var(--alarm); }
/* A slice of a long text */
span:not([class]) { display: inline-block; width: 100%; vertical-align: top; content-visibility: auto; contain-intrinsic-size: auto 0 auto 25rem; }

/* The details of a line */
.t { line-height: 1.4; white-space: break-spaces; max-height: 24rem; overflow-y: auto; padding: .35rem 3rem .35rem 0; }
.t span[class] { display: inline-flex; flex-direction: column; max-width: 100%; min-width: 0; }
.t span.l, .t .l > i { display: block; }
/* A label takes no width from the text. It has the first, the second or the third row below it, so that it is free of those beside it. */
i {
  font: .7rem/1.2 system-ui, sans-serif; width: 0; min-width: 100%; white-space: nowrap; overflow-wrap: normal;
  border-top: .2rem solid var(--c, transparent); user-select: none; -webkit-user-select: none;
}
.u > i, .p > i, .a > i, .h + .f > i { padding-top: .85rem; }
.w > i, .o > i, .q > i { padding-top: 1.7rem; }
.t > span:only-child > i { padding-top: 0; }
dl { display: grid; grid-template-columns: max-content minmax(0, 1fr); gap: .1rem 1rem; margin: 0 0 .75rem; }
dt { color: var(--dim); }
dd, .more td div { max-height: 12rem; overflow-y: auto; }
.more table { width: 100%; table-layout: fixed; margin: 0 0 .75rem; }
.more table th, .more table td { border: 1px solid var(--line); }
dd:empty::before, td div:empty::before, th div:empty::before { content: "(empty)"; color: var(--dim); font-style: italic; }
ul { margin: 0 0 .75rem; padding-left: 1.25rem; }

/* Filter and counts */
form { display: flex; flex-wrap: wrap; gap: .5rem 1rem; align-items: end; padding: .75rem 1rem; border: 1px solid var(--line); border-radius: .5rem; margin: 1rem 0; }
[hidden] { display: none; }
form h2 { width: 100%; margin: 0; font-size: 1rem; }
label { display: flex; flex-direction: column; font-size: .85rem; color: var(--dim); min-width: 0; }
input, select, button { font: inherit; color: var(--ink); background: var(--paper); border: 1px solid var(--dim); border-radius: .25rem; padding: .3rem .5rem; max-width: 100%; }
#tables { display: grid; grid-template-columns: repeat(auto-fit, minmax(min(15rem, 100%), 1fr)); gap: 1rem 2rem; align-items: start; }
#tables caption { text-align: left; font-weight: 600; }
#tables th { font-weight: 400; width: 100%; }
#tables th div { max-height: 12rem; overflow-y: auto; contain: inline-size; }
#tables td { text-align: right; font-variant-numeric: tabular-nums; }
footer { margin-top: 2rem; border-top: 1px solid var(--line); padding-top: .5rem; color: var(--dim); font-size: .9rem; }

@media (min-width: 60rem) {
  dl { grid-template-columns: max-content minmax(0, 1fr) max-content minmax(0, 1fr); }
}
@media (max-width: 45rem) {
  body { padding: .5rem; }
  #lines > thead { display: none; }
  #lines > * > tr:not(.more) { grid-template-columns: 4rem minmax(0, 1fr); }
  #lines > tbody > tr:not(.more) > td { grid-column: 2; }
  #lines > tbody > tr > td:empty { display: none; }
  dl { grid-template-columns: 6rem minmax(0, 1fr); }
}
@media print {
  :root {
    --paper: #fff; --ink: #000; --dim: #444; --line: #999; --card: #fff; --alarm: #900; --mark: #ddd;
    --scheme: #00646b; --user: #7a4f00; --host: #14612a; --port: #6d2f96; --path: #1b489e; --query: #93266d; --fragment: #4145a8;
  }
  body { max-width: none; padding: 0; font-size: 10pt; }
  .skip, form, #shown, #to-counts { display: none; }
  #lines > tbody { content-visibility: visible; }
  span:not([class]) { display: block; content-visibility: visible; }
  tr { break-inside: avoid; }
  .t, dd, .more td div, #tables th div, #lines > tbody > tr:not(.more) > * { max-height: none; overflow: visible; }
}
</style>
<body>
<a class="skip" href="#lines">To the lines</a>
<header>
<h1>"##,
    ),
    Part::Slot(Slot::Title),
    Part::Text(
        r##"</h1>
<p>"##,
    ),
    Part::Slot(Slot::Lines),
    Part::Text(r##" lines, "##),
    Part::Slot(Slot::Dangerous),
    Part::Text(
        r##" of them with a danger: these come first, and then the others in which something was found.
<span id="to-counts" class="n" hidden>A number opens what is known of a line. <a href="#counts">The counts</a> are at the end.</span></p>
</header>
<main>
<form id="filter" aria-labelledby="filter-name" hidden>
<h2 id="filter-name">Filter</h2>
<label>Text <input id="f-text" type="search" autocomplete="off" spellcheck="false"></label>
<label>in
<select id="f-part">
<option value="input">the line</option><option>scheme</option><option>user</option><option>host</option><option>port</option><option>path</option>
</select>
</label>
<label>Form <select id="f-form"><option value="">any</option></select></label>
<label>Verdict <select id="f-verdict"><option value="">any</option></select></label>
<label>Danger <select id="f-danger"><option value="">any line</option></select></label>
<label>Host <input id="f-host" type="search" autocomplete="off" spellcheck="false"></label>
<button type="reset">Show all</button>
</form>
<p id="shown" role="status"></p>
<table id="lines" tabindex="-1">
<caption>A line that is settled is read as the same location again from its own text.</caption>
<thead><tr><th scope="col">Line<th scope="col">Text<th scope="col">Verdict<th scope="col">Dangers<th scope="col">Host</thead>
"##,
    ),
    Part::Slot(Slot::Rows),
    Part::Text(
        r##"
</table>
<section id="counts" aria-labelledby="counts-name" hidden>
<h2 id="counts-name">Counts</h2>
<div id="tables"></div>
</section>
</main>
<footer>
<p>Control characters, bytes that are not UTF-8 and characters that can't be seen are written as <code>\n</code>, <code>\xff</code> and
<code>\u{200f}</code>, a backslash as <code>\\</code>. What may be a secret is written as the word <code>redacted</code>.</p>
</footer>
<template id="hints">"##,
    ),
    Part::Slot(Slot::Hints),
    Part::Text(
        r##"</template>
<script type="application/json" id="data">[
"##,
    ),
    Part::Slot(Slot::Data),
    Part::Text(
        r##"]</script>
<script>
"use strict";
(() => {
  const by = (id) => document.getElementById(id);
  // An object of `--json` in each line. It is read when it is needed: all of them take much memory.
  const texts = by("data").textContent.split("\n").slice(1, -1);
  const objectOf = (number) => JSON.parse(texts[number - 1].replace(/^,/, ""));
  const numberOf = (row) => Number(row.id.slice(1));
  const make = (name, members, ...below) => {
    const it = document.createElement(name);
    for (const [member, value] of Object.entries(members)) {
      it.setAttribute(member, value);
    }
    it.append(...below);
    return it;
  };

  // A text as it is shown: what isn't seen or changes the direction is escaped, and a long text is in slices.
  const SHORT = { "\0": "\\0", "\t": "\\t", "\n": "\\n", "\r": "\\r", "\\": "\\\\" };
  const escaped = (it) => SHORT[it] ?? `\\u{${it.codePointAt(0).toString(16)}}`;
  const sliced = (text) => (text.length < 4000 ? [text] : text.match(/.{1,2000}/gu).map((it) => make("span", {}, it)));
  const shown = (value) => sliced(String(value).replace(/(?! )[\\\p{C}\p{Z}\p{Mn}\p{Me}\p{Default_Ignorable_Code_Point}]/gu, escaped));
  const words = (name) => name.replaceAll("_", " ");

  // Verdict and form of a line, by its object.
  const FORMS = { url: "URL", scp: "scp form", local: "local path", remote_helper: "remote helper", none: "none" };
  const verdictOf = ({ location, refusal }) =>
    location ? (location.settled ? "settled" : "not settled") : refusal.error === "Withheld" ? "withheld" : "refused";
  const factsOf = (row) => {
    const it = objectOf(numberOf(row)), at = it.location ?? {};
    return {
      row, input: it.input, scheme: at.scheme, user: at.user, host: at.host, port: at.port, path: at.path,
      form: FORMS[at.form ?? "none"], verdict: verdictOf(it), dangers: it.dangers, isDangerous: it.findings.includes("danger"),
    };
  };
  // What the filter and the counts need of the lines. It is read by pieces, and between them the browser does what the reader asks for.
  const PIECE = 2000;
  const rows = Array.from(document.querySelectorAll("#lines > tbody > tr"));
  const lines = [];
  const readTo = (end) => {
    for (const row of rows.slice(lines.length, end)) {
      lines.push(factsOf(row));
    }
  };
  const groups = Array.from(document.querySelectorAll("#lines > tbody"));

  // The details of a line.
  const LABELS = {
    s: "scheme", u: "user", w: "password", h: "host", o: "port", p: "path", q: "query", f: "fragment", e: "helper", a: "address",
  };
  // A line in its pieces: the cell has the letter of each and its number of characters.
  const textOf = (cell) => {
    if (!cell.dataset.p) {
      return make("p", { class: "t" }, ...cell.cloneNode(true).childNodes);
    }
    const characters = Array.from(cell.textContent);
    return make("p", { class: "t" }, ...Array.from(cell.dataset.p.matchAll(/(\D)(\d+)/g), ([, letter, length]) => {
      const below = sliced(characters.splice(0, Number(length)).join(""));
      return LABELS[letter] ? make("span", { class: below[1] ? `${letter} l` : letter }, ...below, make("i", {}, LABELS[letter])) : below[0];
    }));
  };
  // Each member below a value that isn't null, with its whole name; names in a list are one text.
  const leaves = (value, name) => {
    if (value === null || typeof value !== "object") {
      return value === null ? [] : [[name, value]];
    }
    if (Array.isArray(value) && value.every((it) => typeof it === "string")) {
      return [[name, value.join(", ") || "none"]];
    }
    return Object.entries(value).flatMap(([below, it]) => leaves(it, `${name}.${below}`));
  };
  const list = (value, name) => make("dl", { class: "m" }, ...leaves(value, name).flatMap(([whole, it]) => [
    make("dt", {}, words(whole.slice(name.length + 1)).replaceAll(".", " ")), make("dd", { "data-m": whole }, ...shown(it))]));
  const table = (name, heads, rows) => make("table", { "aria-label": name },
    make("tr", {}, ...["", ...heads].map((it) => make(it ? "th" : "td", it ? { scope: "col" } : {}, it))),
    ...rows.map(([name, ...cells]) => make("tr", {}, make("th", { scope: "row" }, name), ...cells)));
  const named = (value, name) => make("div", name ? { "data-m": name } : {}, ...shown(value));
  const cell = (value, name) => make("td", {}, (value ?? null) === null ? "none" : named(value, name));
  const section = (heading, ...below) => [make("h3", {}, heading), ...below];

  const PLACE = ["protocol", "user", "host", "port", "path"];
  const readings = ({ scheme, user, host, port, path, git_reads, credential, curl }) => {
    const others = Object.entries({ git_reads, credential, curl }).filter(([, it]) => it);
    const own = { protocol: scheme, user, host, port, path };
    const heads = { git_reads: "Git", credential: "Git's credential code", curl: "curl" };
    const column = (part) => others.map(([name, it]) => (part in it ? cell(it[part], `location.${name}.${part}`) : make("td", {})));
    return !others.length ? [] : section("Who reads what in its own text",
      table("readings", ["here", ...others.map(([name]) => heads[name])], PLACE.map((part) => [part, cell(own[part]), ...column(part)])),
      ...(git_reads?.why ? [make("p", {}, "Git may read another place: ", make("b", { "data-m": "location.git_reads.why" }, git_reads.why))] : []));
  };
  const again = ({ words, difference, refusal }) => section("Its own text is read otherwise",
    make("p", { "data-m": "location.reread.words" }, words),
    ...(difference ? [table("difference", ["here", "its own text"], [[named(difference.field, "location.reread.difference.field"),
      cell(difference.here, "location.reread.difference.here"), cell(difference.instead, "location.reread.difference.instead")]])] : []),
    ...(refusal ? [list(refusal, "location.reread.refusal")] : []));
  const hintsOf = (names) => section("Hints",
    make("ul", {}, ...names.map((it) => make("li", { "data-m": `hints.${it}` }, by("hints").content.getElementById(it).textContent))));
  const detailsOf = (row, it) => {
    const { git_reads, credential, curl, reread, ...plain } = it.location ?? {};
    return [
      textOf(row.cells[1]),
      ...(it.hints.length ? hintsOf(it.hints) : []),
      ...(it.refusal ? section("Refused", list(it.refusal, "refusal")) : section("Location", list(plain, "location"))),
      ...(reread ? again(reread) : []),
      ...(it.location ? readings(it.location) : []),
      ...(it.readers ? section("Other readers", list(it.readers, "readers")) : []),
      ...(it.rules ? section("By the configuration", list(it.rules, "rules")) : []),
      ...(it.findings.length ? section("Found", make("p", { "data-m": "findings" }, it.findings.join(", "))) : []),
    ];
  };
  const opened = new Map();
  const toggle = (row, isOpen = !opened.has(row)) => {
    opened.get(row)?.remove();
    opened.delete(row);
    if (isOpen) {
      const more = make("tr", { class: "more" }, make("td", { colspan: 5 }, ...detailsOf(row, objectOf(numberOf(row)))));
      row.after(more);
      opened.set(row, more);
    }
    row.querySelector("a").setAttribute("aria-expanded", isOpen);
  };
  by("lines").addEventListener("click", (event) => {
    const row = event.target.closest("th a")?.closest("tr");
    if (row) {
      event.preventDefault();
      toggle(row);
    }
  });
  by("lines").addEventListener("focusin", ({ target }) => {
    if (target.matches("th a:not([aria-expanded])")) {
      target.setAttribute("aria-expanded", false);
    }
  });
  const openTarget = () => {
    const row = by(location.hash.slice(1));
    if (row?.matches("#lines > tbody > tr")) {
      toggle(row, true);
      row.scrollIntoView();
    }
  };

  // The counts: names and numbers of lines, the largest first.
  const HOSTS = 20;
  const counted = (names) => {
    const counts = new Map();
    for (const it of names) {
      counts.set(it, (counts.get(it) ?? 0) + 1);
    }
    return [...counts].sort(([a, one], [b, other]) => other - one || (a < b ? -1 : 1));
  };
  const countTable = (id, heading, rows) => make("table", { id: `by-${id}` }, make("caption", {}, heading),
    ...rows.map(([name, count]) => make("tr", {}, make("th", { scope: "row" }, make("div", {}, ...shown(name))), make("td", {}, String(count)))));
  const counts = () => {
    const dangerWords = {};
    for (const { row, dangers } of lines) {
      dangers.forEach((name, at) => dangerWords[name] ??= row.querySelectorAll("td > b")[at].textContent);
    }
    const hosts = counted(lines.map((it) => it.host).filter((it) => it !== null && it !== undefined)), others = hosts.slice(HOSTS);
    const sum = others.reduce((all, [, count]) => all + count, 0), none = lines.filter((it) => (it.host ?? null) === null).length;
    const dangers = counted(lines.flatMap((it) => it.dangers)).map(([name, count]) => [dangerWords[name], count, name]);
    const verdicts = counted(lines.map((it) => it.verdict)), forms = counted(lines.map((it) => it.form));
    by("tables").append(
      countTable("danger", "By danger", dangers), countTable("verdict", "By verdict", verdicts), countTable("form", "By form", forms),
      countTable("host", "By host", [...hosts.slice(0, HOSTS), ...(others.length ? [[`${others.length} other hosts`, sum]] : []), ...(none ? [["no host", none]] : [])]));
    const option = (value, text) => make("option", { value }, text);
    by("f-danger").append(option("any", "any danger"), ...dangers.map(([text, , name]) => option(name, text)));
    by("f-verdict").append(...verdicts.map(([it]) => option(it, it)));
    by("f-form").append(...forms.map(([it]) => option(it, it)));
    by("counts").hidden = by("to-counts").hidden = false;
  };
  const readOn = () => {
    readTo(lines.length + PIECE);
    if (lines.length < rows.length) {
      setTimeout(readOn);
    } else {
      counts();
    }
  };

  // The filter.
  const say = (count) => {
    by("shown").textContent = `${count} of ${rows.length} lines shown`;
  };
  // Hides all groups, and computes their style. The browser then forgets which of them it has laid out, and how high they were. Otherwise
  // it lays out, with all lines that are shown now, each group of which few lines were shown before.
  const forgetLayout = () => {
    groups.forEach((it) => { it.hidden = true; });
    getComputedStyle(by("lines").lastElementChild).getPropertyValue("content-visibility");
  };
  const holds = (value, part) => (part === "" ? true : String(value ?? "").toLowerCase().includes(part));
  const apply = () => {
    const [text, part, form, verdict, danger, host] = ["text", "part", "form", "verdict", "danger", "host"].map((it) => by(`f-${it}`).value);
    const isShown = (it) => (!form || it.form === form) && (!verdict || it.verdict === verdict)
      && (!danger || (danger === "any" ? it.isDangerous : it.dangers.includes(danger)))
      && holds(it.host, host.toLowerCase()) && holds(it[part], text.toLowerCase());
    const left = new Map(groups.map((it) => [it, 0]));
    readTo(rows.length);
    forgetLayout();
    let count = 0;
    for (const it of lines) {
      const { row } = it, isHidden = !isShown(it);
      if (row.hidden !== isHidden) {
        row.hidden = isHidden;
      }
      if (!isHidden) {
        left.set(row.parentNode, left.get(row.parentNode) + 1);
        count++;
      }
    }
    for (const [row, more] of opened) {
      more.hidden = row.hidden;
    }
    for (const [group, size] of left) {
      group.hidden = size === 0;
      group.style.containIntrinsicSize = `auto ${2.2 * size}rem`;
    }
    say(count);
  };
  by("filter").addEventListener("input", apply);
  by("filter").addEventListener("reset", () => setTimeout(apply));
  by("filter").addEventListener("submit", (event) => event.preventDefault());
  by("filter").hidden = false;
  say(rows.length);
  readOn();
  addEventListener("hashchange", openTarget);
  openTarget();
})();
</script>
"##,
    ),
];
