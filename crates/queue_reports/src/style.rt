//! The style of a page.

/// The style sheet.
pub(crate) const STYLE: &str = "
:root { color-scheme: light dark; --ink: #1c2024; --dim: #57636e; --line: #d9dee3; --paper: #ffffff; --card: #f6f8fa; --run: #17776f; --on-run: #ffffff; --wait: #8ccbc4; --on-wait: #10302d; --warn: #b45309; --bad: #b42318; --warnbg: #fff4e5; }
@media (prefers-color-scheme: dark) { :root { --ink: #e6e9ec; --dim: #9aa5af; --line: #333a41; --paper: #14171a; --card: #1c2126; --run: #35b3a8; --on-run: #08211f; --wait: #1e5f5a; --on-wait: #e6f4f2; --warn: #f0a04b; --bad: #ff8577; --warnbg: #33240f; } }
* { box-sizing: border-box; }
body { margin: 0 auto; max-width: 64rem; padding: 1rem; font: 16px/1.45 system-ui, sans-serif; color: var(--ink); background: var(--paper); }
header { display: flex; flex-wrap: wrap; gap: .25rem 1rem; align-items: baseline; border-bottom: 1px solid var(--line); padding-bottom: .5rem; }
h1 { font-size: 1.4rem; margin: 0; }
h2 { font-size: 1rem; margin: 1.5rem 0 .5rem; color: var(--dim); font-weight: 600; }
h3 { font-size: 1rem; margin: 1.25rem 0 .5rem; color: var(--dim); font-weight: 600; }
h2.printer { font-size: 1.4rem; margin: 2.5rem 0 0; color: var(--ink); border-bottom: 1px solid var(--line); }
header p { margin: 0; color: var(--dim); }
header time { margin-left: auto; color: var(--dim); }
ul.printers { list-style: none; margin: .75rem 0 0; padding: 0; }
ul.printers li { padding: .15rem 0; color: var(--dim); }
a { color: var(--ink); font-weight: 600; }
.problem { background: var(--warnbg); border-left: 4px solid var(--warn); padding: .5rem .75rem; margin: .75rem 0 0; border-radius: 0 6px 6px 0; }
.old { color: var(--bad); border-left-color: var(--bad); font-weight: 600; }
.devices { display: grid; grid-template-columns: repeat(auto-fill, minmax(15rem, 1fr)); gap: .75rem; }
.device { background: var(--card); border: 1px solid var(--line); border-radius: 8px; padding: .75rem; break-inside: avoid; }
.device b { font-size: 1.05rem; overflow-wrap: anywhere; }
.state { float: right; color: var(--dim); margin-left: .5rem; }
.state.bad { color: var(--bad); font-weight: 600; }
.device p { margin: .35rem 0 0; color: var(--dim); font-size: .9rem; }
progress { width: 100%; height: .5rem; margin-top: .5rem; accent-color: var(--run); }
table { border-collapse: collapse; width: 100%; font-variant-numeric: tabular-nums; }
th { text-align: left; font-weight: 600; color: var(--dim); font-size: .85rem; }
th, td { padding: .4rem .5rem; border-bottom: 1px solid var(--line); vertical-align: baseline; }
td.n, th.n { text-align: right; }
td.name { min-width: 4.5rem; overflow-wrap: anywhere; }
td small { color: var(--dim); white-space: nowrap; }
tr.no td, tr.no small { color: var(--warn); }
svg { width: 100%; display: block; }
svg text { fill: var(--ink); font: 12px system-ui, sans-serif; }
svg text.dim { fill: var(--dim); }
svg line { stroke: var(--line); }
.run { fill: var(--run); }
.wait { fill: var(--wait); }
rect { stroke: var(--paper); }
svg text.on-run { fill: var(--on-run); }
svg text.on-wait { fill: var(--on-wait); }
@media (max-width: 40rem) { .wide { display: none; } th, td { padding: .4rem .25rem; } td.name ~ td small { display: block; } }
@media print { body { max-width: none; padding: 0; } .problem { border: 1px solid; } rect { print-color-adjust: exact; -webkit-print-color-adjust: exact; } a { text-decoration: none; } }
";
