//! How a page looks: on light and on dark ground, and printed.

/// The style of the page. Pictures have their own, for light ground; on dark ground they are
/// turned.
pub(crate) const STYLE: &str = r##":root { color-scheme: light dark; --ink: #1b1b1b;
  --soft: #555; --ground: #fff; --line: #ccc; --band: #f3f3f3; --good: #00613f; --bad: #a63c00;
  --link: #00558a; }
@media (prefers-color-scheme: dark) {
  :root { --ink: #e8e8e8; --soft: #aaa; --ground: #161616; --line: #444; --band: #232323;
    --good: #5fd0a4; --bad: #ff9d66; --link: #7cc4f5; }
  .picture svg { filter: invert(0.91) hue-rotate(180deg); }
}
* { box-sizing: border-box; }
body { margin: 0 auto; max-width: 76rem; padding: 1rem 1.5rem 4rem; color: var(--ink);
  background: var(--ground); font: 1rem/1.5 system-ui, sans-serif; }
h1 { font-size: 1.5rem; margin: 0.5rem 0; overflow-wrap: anywhere; }
h2 { font-size: 1.25rem; margin: 2.5rem 0 0.5rem; border-bottom: 1px solid var(--line); }
h3 { font-size: 1rem; margin: 0.5rem 0 0; }
p { max-width: 60rem; }
a { color: var(--link); }
nav { display: flex; flex-wrap: wrap; gap: 1rem; }
table { border-collapse: collapse; margin: 1rem 0; font-variant-numeric: tabular-nums; }
th, td { padding: 0.2rem 0.8rem; border-bottom: 1px solid var(--line); text-align: right; }
th:first-child, :is(#limits, #interrupts, #cuts) :is(th, td) { text-align: left; }
thead th { background: var(--band); font-weight: 600; }
tbody th { font: 0.95rem ui-monospace, monospace; }
td ul, figcaption ul { margin: 0; padding: 0; list-style: none; }
.bound { color: var(--soft); }
.kept { color: var(--good); }
.above, .unbounded, .broken { color: var(--bad); font-weight: 600; }
pre { margin: 0.5rem 0; padding: 0.6rem; overflow-x: auto; background: var(--band);
  font: 0.85rem/1.4 ui-monospace, monospace; }
details pre { max-height: 24rem; overflow: auto; }
figure { margin: 1.5rem 0; padding-top: 0.5rem; border-top: 1px solid var(--line); }
.picture { overflow: auto; max-height: 80vh; border: 1px solid var(--line); margin: 0.5rem 0; }
.picture svg { display: block; }
:focus-visible { outline: 3px solid var(--link); outline-offset: 1px; }
.tools { display: flex; gap: 0.4rem; align-items: center; }
.tools button { min-width: 2.2rem; font: inherit; }
.asked { min-height: 4.4em; white-space: pre-wrap; font: 0.85rem/1.4 ui-monospace, monospace; }
.cursor { fill: none; stroke: #d55e00; stroke-width: 1.5; pointer-events: none; }
@media print {
  html { font-size: 9pt; }
  body { max-width: none; padding: 0; }
  nav, .tools, .asked, details, .cursor { display: none; }
  h2 { break-after: avoid; }
  figure, tr { break-inside: avoid; }
  .picture { overflow: visible; max-height: none; border: 0; }
  .picture svg { width: auto !important; max-width: 100%; height: auto !important; filter: none; }
  pre { white-space: pre-wrap; overflow: visible; }
}
"##;
