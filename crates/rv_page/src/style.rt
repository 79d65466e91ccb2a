//! The style of the page.

/// It has the colours that the reader's system asks for, lets wide things scroll inside themselves, and shows on paper
/// what is folded. Nothing is told by a colour alone.
pub const RULES: &[u8] = b"\
:root { color-scheme: light dark; --paper: #ffffff; --ink: #1a1a1a; --faint: #595959; --rule: #cfcfcf; --panel: #f5f5f5; --link: #0b4f9e; --note: #fdf1d8; }
@media (prefers-color-scheme: dark) { :root { --paper: #17191c; --ink: #e8e8e8; --faint: #a9adb3; --rule: #454a50; --panel: #212429; --link: #8db9ff; --note: #40341a; } }
* { box-sizing: border-box; }
body { margin: 0 auto; padding: 1.5rem 1rem 4rem; max-width: 72rem; background: var(--paper); color: var(--ink); font: 1rem/1.5 system-ui, sans-serif; }
h1 { margin: 0; font-size: 1.5rem; line-height: 1.3; overflow-wrap: anywhere; }
h2 { margin: 2.5rem 0 .75rem; font-size: 1.2rem; }
h3 { margin: 2rem 0 .75rem; font-size: 1rem; }
a { color: var(--link); }
nav a { margin-right: 1rem; }
code, pre { font: .8125rem/1.5 ui-monospace, DejaVu Sans Mono, monospace; }
code { overflow-wrap: anywhere; }
table { border-collapse: collapse; }
th, td { padding: .35rem 1.25rem .35rem 0; border-bottom: 1px solid var(--rule); text-align: left; vertical-align: top; }
th { color: var(--faint); font-size: .875rem; font-weight: normal; white-space: nowrap; }
.number { text-align: right; font-variant-numeric: tabular-nums; }
.number, .link { white-space: nowrap; }
#seen td + td + td { color: var(--faint); }
#warnings td { padding: .5rem .75rem; background: var(--note); }
.scroll, pre, figure { overflow-x: auto; }
pre, figure { margin: .75rem 0; border: 1px solid var(--rule); border-radius: .375rem; }
pre { padding: .75rem 1rem; background: var(--panel); }
figure { background: #ffffff; }
svg { display: block; }
svg text { white-space: pre; }
summary { padding: .5rem 0; cursor: pointer; }
.race { border-bottom: 1px solid var(--rule); }
section + .race { margin-top: 2rem; border-top: 1px solid var(--rule); }
:target { scroll-margin-top: 1rem; }
:target h3, :target summary { text-decoration: underline; }
.text summary { padding: 0; color: var(--faint); font-size: .875rem; text-decoration: none; }
@media print {
:root { color-scheme: light; --paper: #ffffff; --ink: #000000; --faint: #404040; --rule: #a0a0a0; --panel: #ffffff; --link: #000000; --note: #ffffff; }
body { padding: 0; max-width: none; font-size: 10pt; }
nav, .text { display: none; }
.race::details-content { content-visibility: visible; block-size: auto; }
pre { white-space: pre-wrap; font-size: 7pt; }
svg { max-width: 100%; height: auto; }
figure, tr, summary { break-inside: avoid; }
h2, h3, summary { break-after: avoid; }
}
";
