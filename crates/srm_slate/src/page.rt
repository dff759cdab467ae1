//! The page. It is `web/board.html` with its parts, put here by `tools/board/embed`.

ghost use Rattle.std.specs.Prelude.{◌≡◌, ◌++◌, OnOk};

use bytes::Bytes;
use http_server::Rope;
use std::alloc::AllocError;

/// What the page may do: run what it brings along, and ask this server. Nothing else of the network is loaded, and no other page may frame it.
pub const POLICY: &str =
    "default-src 'none'; script-src 'sha256-QjvRCzvBGDgLW7YwV/kXCNhgSzUvwAxs3B1Zt+HRkrM='; style-src 'sha256-9sHKMZsOPnXi1AK+WOWPLKz8U20IZv3eLszPMndEAE0='; img-src data: blob:; connect-src 'self'; base-uri 'none'; form-action 'none'; frame-ancestors 'none'";

/// Appends the page, a text that a browser shows. If out of memory, some of the body may be gone.
pub fn put_page(body: &mut Rope) -> Result<(), AllocError>
    ensures { OnOk result (body.new.items ≡ body.old.items ++ PART_1.now ++ PART_2.now ++ PART_3.now ++ PART_4.now ++ PART_5.now) }
{
    body.push(Bytes::from_static(PART_1.as_bytes()))?;
    body.push(Bytes::from_static(PART_2.as_bytes()))?;
    body.push(Bytes::from_static(PART_3.as_bytes()))?;
    body.push(Bytes::from_static(PART_4.as_bytes()))?;
    body.push(Bytes::from_static(PART_5.as_bytes()))?;
    Ok(())
}

const PART_1: &str = r##"<!doctype html>
<html lang="en">
<head>
<meta charset="utf-8">
<meta name="viewport" content="width=device-width, initial-scale=1">
<meta name="color-scheme" content="light dark">
<title>Ringyew board</title>
<link rel="icon" href="data:,">
<style>
:root {
  --ink: #1e1e24; --soft: #565d6b; --line: #d9dce3; --panel: #ffffff; --hover: #eef1f6; --on: #dfeafa; --on-ink: #124a91;
  --head: 60px; --foot: 50px; --middle: 50%; --desk: #eceef3; --dots: #d0d5de; --paper: #ffffff; --focus: #1864ab; --bad: #c92a2a; --good: #23722f; --warn: #fff3bf; --warn-ink: #5c3c00; --wait: #8a5a00;
}
:root.dark {
  --ink: #eceef2; --soft: #b3bac7; --line: #454b58; --panel: #2a2e37; --hover: #373c47; --on: #234574; --on-ink: #d6e6ff;
  --desk: #1f2228; --dots: #2d313a; --paper: #121212; --focus: #74b0f4; --bad: #ff8787; --good: #69db7c; --warn: #4d3b00; --warn-ink: #ffec99; --wait: #ffd43b;
}
* { box-sizing: border-box; }
[hidden] { display: none !important; }
html, body { margin: 0; height: 100%; overflow: hidden; overscroll-behavior: none; }
body {
  font: 14px/1.35 system-ui, "Segoe UI", Roboto, "DejaVu Sans", sans-serif; color: var(--ink);
  background: var(--desk) radial-gradient(var(--dots) 1px, transparent 1px) 0 0 / 22px 22px; -webkit-user-select: none; user-select: none;
}
#paper { position: fixed; background: var(--paper); border-radius: 4px; box-shadow: 0 0 0 1px var(--line), 0 10px 34px #0b0f2a26; touch-action: none; cursor: crosshair; }
#paper:focus { outline: none; } .keyed #paper:focus { outline: 3px solid var(--focus); outline-offset: 2px; }
#paper.wipe { cursor: cell; } #paper.text { cursor: text; } #paper.choose { cursor: default; } #paper.still { cursor: not-allowed; } #paper.hand { cursor: grab; }
canvas { position: fixed; inset: 0; width: 100%; height: 100%; pointer-events: none; }
.dark canvas { filter: invert(93%) hue-rotate(180deg); }
.panel { position: fixed; background: var(--panel); border: 1px solid var(--line); border-radius: 12px; box-shadow: 0 2px 10px #0b0f2a1f; }
button, input { font: inherit; color: inherit; }
button { border: 0; background: none; border-radius: 8px; padding: 0; cursor: pointer; }
button:hover { background: var(--hover); }
button:disabled { color: var(--soft); opacity: .55; cursor: default; }
button[aria-pressed=true], button[aria-current=true] { background: var(--on); color: var(--on-ink); }
:is(button, input):focus-visible { outline: 2px solid var(--focus); outline-offset: 1px; }
button svg { width: 20px; height: 20px; fill: none; stroke: currentColor; stroke-width: 1.8; stroke-linecap: round; stroke-linejoin: round; flex: none; pointer-events: none; }
#tools { top: 12px; left: 50%; transform: translateX(-50%); display: flex; align-items: center; gap: 2px; padding: 5px; width: max-content; max-width: calc(100vw - 12px); }
.row { display: flex; align-items: center; gap: 2px; }
.tool { width: 36px; height: 36px; display: grid; place-items: center; flex: none; }
.gap { width: 1px; height: 24px; background: var(--line); margin: 0 5px; flex: none; }
.dye { width: 28px; height: 36px; display: grid; place-items: center; flex: none; }
.dye i { width: 18px; height: 18px; border-radius: 50%; background: var(--c); box-shadow: 0 0 0 1px var(--line); }
.dye[aria-pressed=true] { background: none; } .dye[aria-pressed=true] i { box-shadow: 0 0 0 2px var(--panel), 0 0 0 4px var(--focus); }
.thick { width: 28px; height: 36px; display: grid; place-items: center; flex: none; }
.thick i { width: var(--w); height: var(--w); border-radius: 50%; background: currentColor; }
#state { position: fixed; top: 12px; left: 12px; display: flex; align-items: center; gap: 8px; padding: 4px 12px; min-height: 36px; max-width: min(46vw, 520px); border-radius: 18px; font-size: 13px; z-index: 3; }
#state i { width: 9px; height: 9px; border-radius: 50%; background: var(--good); flex: none; } #state-text { overflow: hidden; text-overflow: ellipsis; white-space: nowrap; }
#state.wait i { background: var(--wait); } #state.off i { background: var(--soft); } #state.bad { background: var(--bad); border-color: var(--bad); color: #fff; font-weight: 600; max-width: calc(100vw - 24px); } .dark #state.bad { color: #2b0505; } #state:is(.bad, .wait) { top: calc(var(--head) + 12px); left: var(--middle); transform: translateX(-50%); } #state.bad i { background: currentColor; animation: pulse .7s infinite alternate; } #state.bad #state-text { white-space: normal; line-height: 1.2; }
#people { top: 12px; right: 12px; width: 264px; padding: 10px 12px; max-height: calc(100vh - var(--foot) - 24px); overflow: auto; display: none; z-index: 2; }
.membered #people { display: block; }
#people h1 { font-size: 13px; margin: 0 0 6px; display: flex; justify-content: space-between; font-weight: 650; }
#people small { font-weight: 400; color: var(--soft); font-size: 12px; }
#list { margin: 0; padding: 0; list-style: none; }
.who { padding: 5px 0; } .who + .who { border-top: 1px solid var(--line); }
.who .line { display: flex; align-items: center; gap: 7px; }
.who bdi { overflow: hidden; text-overflow: ellipsis; white-space: nowrap; min-width: 0; }
.who .number { color: var(--soft); font-size: 12px; }
.who .dot { width: 10px; height: 10px; border-radius: 50%; background: var(--c); flex: none; }
.who .state { margin-left: auto; color: var(--soft); font-size: 12px; flex: none; }
.who.here .state { color: var(--good); } .who.away .dot, .who.left .dot { background: none; box-shadow: inset 0 0 0 2px var(--c); }
.who input, .panel nav input, #pages input { width: 130px; border: 1px solid var(--line); border-radius: 6px; background: none; padding: 1px 5px; user-select: text; -webkit-user-select: text; }
#rename { font-size: 12px; padding: 0 6px; color: var(--soft); }
.strip { display: flex; gap: 2px; margin: 4px 0 1px 17px; height: 11px; }
.strip i { width: 6px; height: 11px; border-radius: 2px; background: var(--c); flex: none; }
.strip i.mended { background: linear-gradient(var(--c) 0 50%, #ffd43b 50% 100%); }
.strip i.waits { background: repeating-linear-gradient(45deg, var(--c) 0 1.5px, var(--panel) 1.5px 3.5px); box-shadow: inset 0 0 0 1px var(--c); }
.strip i.hole { background: var(--panel); box-shadow: inset 0 0 0 2px var(--bad); animation: pulse .7s infinite alternate; }
@keyframes pulse { to { opacity: .45; } }
#news { margin: 6px 0 0; padding: 6px 0 0; border-top: 1px solid var(--line); list-style: none; font-size: 12px; color: var(--soft); max-height: 110px; overflow: hidden; }
#news:empty { display: none; } #news li { white-space: nowrap; overflow: hidden; text-overflow: ellipsis; } #news b { font-weight: 600; color: var(--ink); }
#pages { overflow-x: auto; scrollbar-width: thin; min-width: 0; }
.tab { min-width: 32px; max-width: 170px; height: 34px; padding: 0 10px; position: relative; flex: none; overflow: hidden; text-overflow: ellipsis; white-space: nowrap; }
.tab[aria-current=true] { font-weight: 600; }
.tab.new::after, .tab.hole::after { content: ""; position: absolute; top: 3px; right: 3px; width: 7px; height: 7px; border-radius: 50%; background: var(--focus); } .tab.hole::after { background: var(--bad); }
#foot { position: fixed; inset: auto 12px 12px 12px; display: flex; justify-content: space-between; align-items: end; gap: 8px; pointer-events: none; }
#foot .panel { position: static; display: flex; gap: 2px; padding: 4px; pointer-events: auto; }
.act { height: 34px; min-width: 34px; padding: 0 8px; display: inline-flex; align-items: center; justify-content: center; gap: 6px; }
#zoom { min-width: 52px; font-variant-numeric: tabular-nums; }
#handle { display: flex; align-items: center; gap: 2px; padding: 4px; z-index: 2; } #handle button { white-space: nowrap; } #handle span { padding: 0 8px; color: var(--soft); font-size: 13px; white-space: nowrap; }
#menu { left: 12px; bottom: calc(var(--foot) + 6px); padding: 6px; display: flex; flex-direction: column; min-width: 230px; z-index: 4; max-height: calc(100vh - var(--foot) - 20px); overflow: auto; }
#menu button { display: flex; justify-content: space-between; gap: 18px; align-items: center; text-align: left; padding: 0 10px; height: 36px; } #menu hr { border: 0; border-top: 1px solid var(--line); margin: 5px 4px; width: auto; }
#counts { margin-top: 6px; padding-top: 6px; border-top: 1px solid var(--line); font-size: 12px; color: var(--soft); font-variant-numeric: tabular-nums; }
#counts b { color: var(--bad); font-weight: 600; }
#tip { margin: 0; padding: 3px 10px; font-size: 13px; pointer-events: none; z-index: 5; border-radius: 8px; max-width: 60vw; }
.mute { font-size: 12px; padding: 0 6px; color: var(--soft); flex: none; } .mute[aria-pressed=true] { color: var(--on-ink); }
#toast { position: fixed; left: var(--middle); bottom: calc(var(--foot) + 12px); transform: translateX(-50%); background: #212529; color: #fff; padding: 8px 14px; border-radius: 9px; visibility: hidden; opacity: 0; transition: opacity .2s; pointer-events: none; max-width: 80vw; z-index: 5; }
#toast.on { visibility: visible; opacity: 1; }
#veil { position: fixed; top: calc(var(--head) + 12px); left: var(--middle); transform: translateX(-50%); background: var(--warn); color: var(--warn-ink); padding: 6px 12px; border-radius: 9px; display: none; max-width: 80vw; z-index: 2; }
#veil.on { display: block; } #state:is(.bad, .wait) ~ #veil { top: calc(var(--head) + 56px); }
#words { text-rendering: geometricPrecision; position: fixed; display: none; border: 0; background: transparent; outline: 1.5px dashed var(--focus); outline-offset: 4px; resize: none; overflow: hidden; padding: 0; font-family: sans-serif; line-height: 1.25; overflow-wrap: anywhere; user-select: text; -webkit-user-select: text; z-index: 1; }
#words.long { outline-color: var(--bad); }
#long { position: fixed; background: var(--warn); color: var(--warn-ink); padding: 1px 8px; border-radius: 6px; font-size: 12px; z-index: 1; margin: 0; }
dialog { color: var(--ink); background: var(--panel); border: 1px solid var(--line); border-radius: 12px; padding: 18px 22px; max-width: min(92vw, 780px); }
dialog::backdrop { background: #0007; }
dialog h2 { font-size: 16px; margin: 0 0 10px; } dialog p { margin: 0 0 12px; }
dialog .row { gap: 8px; justify-content: flex-end; margin-top: 14px; }
dialog .row button { border: 1px solid var(--line); padding: 6px 14px; min-height: 36px; } dialog .row button.yes { background: var(--on); color: var(--on-ink); }
#help dl { display: grid; grid-template-columns: auto 1fr auto 1fr; gap: 4px 12px; margin: 0; align-items: center; } #help dt { font-weight: 600; white-space: nowrap; } #help dd { margin: 0; color: var(--soft); }
#help h3 { font-size: 13px; margin: 14px 0 6px; } #help p.soft { color: var(--soft); margin: 8px 0 0; }
.cells { display: grid; grid-template-columns: auto 1fr auto 1fr; gap: 4px 10px; align-items: center; --c: #2074c8; }
.cells .strip { margin: 0; }
#hint { position: fixed; transform: translate(-50%, -50%); width: max-content; margin: 0; color: var(--soft); text-align: center; font-size: 16px; line-height: 1.7; pointer-events: none; }
kbd { font: inherit; font-size: 12px; font-weight: 600; border: 1px solid var(--line); border-bottom-width: 2px; border-radius: 5px; padding: 0 5px; white-space: nowrap; } #menu kbd { border: 0; color: var(--soft); font-weight: 400; padding: 0; }
.unseen { position: absolute; width: 1px; height: 1px; overflow: hidden; clip-path: inset(50%); white-space: nowrap; }
@media (max-width: 1320px) { #people { top: calc(var(--head) + 8px); max-height: calc(100vh - var(--head) - var(--foot) - 24px); } }
@media (max-width: 1180px) { #state, #state:is(.bad, .wait) { top: auto; bottom: calc(var(--foot) + 6px); left: 50%; transform: translateX(-50%); max-width: calc(100vw - 24px); width: max-content; } #state.good { display: none; } #state:is(.bad, .wait) ~ #veil { top: calc(var(--head) + 12px); } #toast { bottom: calc(var(--foot) + 54px); } }
@media (max-width: 760px), (hover: none) {
  #tools { flex-wrap: wrap; justify-content: center; padding: 3px; gap: 0; } #tools > .gap { display: none; } .row { gap: 0; max-width: 100%; }
  .tool, .dye, .thick { width: 44px; height: 44px; } .tab, .act, #menu button, dialog .row button { height: 44px; min-height: 44px; min-width: 44px; } .looks .gap { margin: 0 2px; }
  #rename, .mute { min-height: 44px; min-width: 44px; } #state, .who input, #pages input { min-height: 44px; }
}
@media (max-width: 760px) {
  .row { flex-wrap: wrap; justify-content: center; } .looks .gap { display: none; }
  #tools { top: 4px; left: 0; right: 0; transform: none; width: auto; margin: 0 auto; max-width: calc(100vw - 4px); border-radius: 10px; } #foot { inset: auto 4px 4px 4px; flex-wrap: wrap; gap: 4px; } #foot .panel { padding: 2px; border-radius: 10px; } #pages { order: 1; flex: 1 0 100%; max-width: 100%; } #zoom, #in, #out { display: none; } #help dl, .cells { grid-template-columns: auto 1fr; } #people { right: 6px; } #menu { left: 6px; }
}
@media (hover: none) { #hint-keys, #menu kbd { display: none; } }
@media (forced-colors: active) { canvas, #paper, .dye i, .dot, .strip i { forced-color-adjust: none; } }
@media print { .panel, #toast, #veil, #hint { display: none !important; } }
@media (prefers-reduced-motion: reduce) { *, *::before, *::after { animation: none !important; transition: none !important; } }
</style>
</head>
<body>
<main><div id="paper" tabindex="0" role="application" aria-label="The paper"></div><canvas id="base" aria-hidden="true"></canvas><canvas id="over" aria-hidden="true"></canvas><textarea id="words" spellcheck="false" aria-label="Text to write on the paper"></textarea><p id="long" role="status" hidden></p></main>
<button id="state" class="panel" title="Who is here, and what the protocol does (M)"><i></i><span id="state-text">Connecting</span></button>
<div id="tools" class="panel" role="toolbar" aria-label="Tools, colours and widths"></div>
<aside id="people" class="panel" aria-label="Members"><h1><span>Ringyew</span><small id="session"></small></h1><ul id="list"></ul><ul id="news" aria-label="What the protocol did last"></ul><div id="counts"></div></aside>
<p id="hint" hidden>Draw with a mouse, a pen or a finger: all members see it.<br><span id="hint-keys"><kbd>N</kbd> your name, <kbd>?</kbd> all keys</span></p>
<div id="foot"><div id="acts" class="panel" role="toolbar" aria-label="The page and the session"><button class="act" id="menu-button" title="Menu" aria-label="Menu" aria-expanded="false" aria-controls="menu"></button><button class="act" id="undo" title="Take back your last step here (Ctrl+Z)" aria-label="Take back"></button><button class="act" id="redo" title="Do it again (Ctrl+Shift+Z)" aria-label="Do again"></button></div>
<nav id="pages" class="panel" aria-label="Pages"></nav>
<div id="view" class="panel" role="toolbar" aria-label="View"><button class="act" id="out" title="Smaller (-)" aria-label="Smaller">&minus;</button><button class="act" id="zoom" title="The whole page (0)">100%</button><button class="act" id="in" title="Larger (+)" aria-label="Larger">+</button><button class="act" id="who" title="Who is here, and what the protocol does (M)" aria-controls="people" aria-label="Members"></button></div></div>
<div id="menu" class="panel" role="toolbar" aria-label="Menu" hidden><button id="open">Open a board&hellip; <kbd>Ctrl O</kbd></button><button id="save">Save the board <kbd>Ctrl S</kbd></button><hr><button id="png">This page as PNG</button><button id="svg">This page as SVG</button><button id="all-png">All pages as PNG</button><button id="all-svg">All pages as SVG</button><hr><button id="entitle">Name this page <kbd>F2</kbd></button><button id="clear">Clear this page</button><hr><button id="dark">Dark colours</button><button id="keys">Keys <kbd>?</kbd></button><button id="leave">Leave the session</button></div>
<div id="handle" class="panel" role="toolbar" aria-label="What is selected" hidden><span id="count"></span><button class="act" id="double" title="Double (Ctrl+D)">Double</button><button class="act" id="front" title="To the front">To front</button><button class="act" id="rub" title="Erase (Del)">Erase</button></div>
<input type="file" id="file" accept=".board,.txt,text/plain" aria-label="A saved board" hidden>
<p id="tip" class="panel" aria-hidden="true" hidden></p>
<div id="toast" role="status"></div><div id="veil" role="alert"></div><div id="said" class="unseen" aria-live="polite"></div>
<dialog id="sure" aria-labelledby="sure-what"><p id="sure-what"></p><form method="dialog" class="row"><button value="no">Cancel</button><button value="yes" class="yes" id="sure-yes">OK</button></form></dialog>
<dialog id="help" aria-labelledby="help-head">
<h2 id="help-head">Keys</h2>
<dl>
<dt><kbd>V</kbd></dt><dd>select, move; the grips size; twice on a text: edit it</dd><dt><kbd>P</kbd> <kbd>L</kbd> <kbd>A</kbd> <kbd>R</kbd> <kbd>O</kbd></dt><dd>pen, line, arrow, rectangle, ellipse</dd>
<dt><kbd>T</kbd> <kbd>E</kbd></dt><dd>text, eraser</dd><dt><kbd>1</kbd> to <kbd>7</kbd> <kbd>S</kbd> <kbd>F</kbd></dt><dd>colours, dashed, filling</dd>
<dt><kbd>,</kbd> <kbd>.</kbd></dt><dd>select the shape before, the next</dd><dt><kbd>[</kbd> <kbd>]</kbd></dt><dd>thinner, thicker</dd><dt><kbd>Shift</kbd></dt><dd>while drawing: square, circle, eight directions</dd>
<dt><kbd>Ctrl</kbd> <kbd>Z</kbd></dt><dd>take back your last step</dd><dt><kbd>Ctrl</kbd> <kbd>Shift</kbd> <kbd>Z</kbd></dt><dd>do it again</dd>
<dt><kbd>Ctrl</kbd> <kbd>A</kbd> <kbd>C</kbd> <kbd>X</kbd> <kbd>V</kbd> <kbd>D</kbd></dt><dd>select all, copy, cut, paste, double</dd><dt><kbd>Del</kbd></dt><dd>erase what is selected</dd>
<dt><kbd>Ctrl</kbd> <kbd>S</kbd> <kbd>O</kbd></dt><dd>save, open a board</dd><dt><kbd>+</kbd> <kbd>&minus;</kbd> <kbd>0</kbd></dt><dd>larger, smaller, the whole</dd>
<dt><kbd>Page Up</kbd> <kbd>Page Down</kbd></dt><dd>the page before, behind</dd><dt><kbd>F2</kbd> <kbd>N</kbd></dt><dd>name the page, yourself</dd>
<dt><kbd>Space</kbd></dt><dd>and drag: move the page</dd><dt><kbd>M</kbd> <kbd>D</kbd></dt><dd>members and the protocol, dark or light</dd>
</dl>
<p class="soft">Letters count by their place on the keyboard, whatever its layout. The wheel moves the page, and zooms with Ctrl; two fingers do both.</p>
<h3>Drawing with keys alone</h3>
<dl>
<dt><kbd>C</kbd></dt><dd>to the paper, as Tab</dd><dt>Arrows</dt><dd>move the cross, or what is selected; Shift far, Alt little; Ctrl sizes what is selected</dd>
<dt><kbd>Enter</kbd> <kbd>Space</kbd></dt><dd>pen down, pen up; select; write</dd><dt><kbd>Esc</kbd></dt><dd>give the stroke up</dd>
</dl>
<h3>The cells beside a member: one for each of its last drawops on this page</h3>
<div class="cells"><span class="strip"><i></i></span><span>held</span><span class="strip"><i class="mended"></i></span><span>was missing, and was repaired</span><span class="strip"><i class="waits"></i></span><span>here, and waits for one before it</span><span class="strip"><i class="hole"></i></span><span>missing</span></div>
<form method="dialog" class="row"><button class="yes">Close</button></form>
</dialog>
<script>
"use strict";
// What bodies say, and how it is written: the grammar of docs/BOARD.md.
const WIDE = 4000, HIGH = 2500, LONGEST = 1024, GREATEST_HEIGHT = 999999999, VERSION = "wb2", OLD = "wb1";
const MEMBERS = 32, GREATEST_NUMBER = 65536, LONGEST_NAME = 40, NARROWEST = 100, FARTHEST = 9999;
const NUMBER = /^(?:0|[1-9]\d{0,8})$/, INTEGER = /^(?:0|-?[1-9]\d{0,3})$/;
const ID = /^[a-z0-9]{1,8}$/, COLOUR = /^(?:-|[0-9a-f]{6})$/, STYLE = /^(?:-|d|f|s|df|ds)$/, DASH = /^[-d]$/;
const NAMES = /^(0|[1-9]\d?)\.([1-9]\d{0,4})(?:-([1-9]\d{0,4}))?(?::([0-9a-f]{8}))?$/;
const CONTROL = /[\u0000-\u001f\u007f-\u009f\u2028\u2029]/;
// What a name can't consist of alone: spaces, and signs that show nothing.
const UNSEEN = /^[\u0020\u00a0\u00ad\u034f\u061c\u115f\u1160\u1680\u17b4\u17b5\u180b-\u180f\u2000-\u200f\u202a-\u202f\u205f-\u206f\u2800\u3000\u3164\ufe00-\ufe0f\ufeff\uffa0\ufff0-\ufffb\u{1d173}-\u{1d17a}\u{e0000}-\u{e0fff}]*$/u;
const SHAPES = new Set(["pen", "line", "arrow", "rect", "oval", "text"]);

function numberIn(word, least, most) {
  if (word === undefined || !NUMBER.test(word)) return null;
  const number = Number(word);
  return number >= least && number <= most ? number : null;
}

// A decimal number that stands in a word from one place to another, or NaN.
function integerIn(word, from, to) {
  const sign = word.charCodeAt(from) === 45 ? -1 : 1, first = sign < 0 ? from + 1 : from, digits = to - first;
  if (digits < 1 || digits > 5 || word.charCodeAt(first) === 48 && (digits > 1 || sign < 0)) return NaN;
  let value = 0;
  for (let i = first; i < to; i++) { const digit = word.charCodeAt(i) - 48; if (digit < 0 || digit > 9) return NaN; value = value * 10 + digit; }
  return sign * value;
}
// X,Y and then the step from each point to the next. None leaves the paper.
function pointsIn(words) {
  const points = [];
  let x = 0, y = 0;
  for (const word of words) {
    const comma = word.indexOf(",");
    x += integerIn(word, 0, comma);
    y += integerIn(word, comma + 1, word.length);
    if (!(x >= 0 && x <= WIDE && y >= 0 && y <= HIGH)) return null;
    points.push([x, y]);
  }
  return points.length ? points : null;
}
function cornersIn(words) {
  const points = words.length === 2 ? words.map(word => pointsIn([word])) : [null];
  return points.every(point => point) ? points.map(point => point[0]) : null;
}

const textIn = words => words.join(" ").replace(/\\(n|\\)/g, (_, sign) => sign === "n" ? "\n" : "\\");
const textOut = text => text.replace(/\\/g, "\\\\").replace(/\n/g, "\\n");
const titleIn = words => { const title = words.join(" "); return !UNSEEN.test(title) && [...title].length <= LONGEST_NAME && !CONTROL.test(title) ? title : null; };

// What a word names: drawops of a source, with a check of its list up to the last of them, or without.
function spanIn(word, isChecked) {
  const names = NAMES.exec(word);
  if (!names || (names[4] !== undefined) !== isChecked) return null;
  const source = Number(names[1]), first = Number(names[2]), last = Number(names[3] || names[2]);
  return source < MEMBERS && last >= first && last <= GREATEST_NUMBER ? { source, first, last, check: isChecked ? parseInt(names[4], 16) : null } : null;
}
function spansIn(words, isChecked) {
  const spans = words.map(word => spanIn(word, isChecked));
  return spans.length && spans.every(span => span) ? spans : null;
}

const breadthIn = word => word === "-" ? 0 : numberIn(word, NARROWEST, WIDE);
// The words of a shape behind its height and ID, which stand in another order in old lines.
function shapeIn(kind, id, height, words, isOld) {
  const [colour, broad, ...rest] = words;
  if (height === null || !COLOUR.test(colour)) return null;
  if (kind === "text") {
    const width = numberIn(broad, 20, 400), breadth = isOld ? 0 : breadthIn(rest.shift()), points = pointsIn(rest.slice(0, 1)), text = textIn(rest.slice(1));
    return width && breadth !== null && points && text ? { kind, height, id, colour, width, breadth, points, text } : null;
  }
  const width = numberIn(broad, 1, 200), style = isOld ? "-" : rest.shift(), points = kind === "pen" ? pointsIn(rest) : cornersIn(rest);
  return width && points && (kind === "pen" ? DASH : STYLE).test(style) ? { kind, height, id, colour, width, style, points } : null;
}
function moreIn(words) { const points = pointsIn(words.slice(1)); return ID.test(words[0]) && points ? { kind: "more", id: words[0], points } : null; }
// A step across the paper, or of its size, and whose.
function shiftIn(kind, id, words) {
  const by = (words[0] || "").split(","), spans = spansIn(words.slice(1), true);
  return by.length === 2 && by.every(part => INTEGER.test(part)) && spans ? { kind, id, by: by.map(Number), spans } : null;
}
function editIn(id, words) {
  const version = numberIn(words[0], 1, GREATEST_NUMBER), span = spanIn(words[1] || "", true), [colour, broad, wide] = words.slice(2);
  const width = numberIn(broad, 20, 400), breadth = breadthIn(wide), text = textIn(words.slice(5));
  return version && span && !words[1].includes("-") && COLOUR.test(colour) && width && breadth !== null && text ? { kind: "edit", id, version, spans: [span], colour, width, breadth, text } : null;
}

// A line of the first version: it has an ID on curves alone.
function oldIn(kind, words) {
  const [raised, ...rest] = words, height = numberIn(raised, 0, GREATEST_HEIGHT);
  switch (kind) {
    case "pen": return ID.test(rest[0]) ? shapeIn(kind, rest[0], height, rest.slice(1), true) : null;
    case "line": case "rect": case "oval": case "text": return shapeIn(kind, null, height, rest, true);
    case "more": return moreIn(words);
    case "drop": { const spans = spansIn(words, false); return spans && { kind, id: null, spans }; }
    case "name": { const name = titleIn(words); return name && { kind, name }; }
    default: return null;
  }
}

// What a body says, or null where it isn't of the format: then it is a note.
function strokeIn(body) {
  const [version, kind, id, ...words] = body.split(" ");
  if (kind === undefined || id === undefined) return null;
  if (version === OLD) return oldIn(kind, [id, ...words]);
  if (version !== VERSION) return null;
  if (kind === "page") { const number = numberIn(id, 1, GREATEST_NUMBER), title = titleIn(words); return number && title ? { kind, version: number, title } : null; }
  if (!ID.test(id)) return null;
  switch (kind) {
    case "pen": case "line": case "arrow": case "rect": case "oval": case "text": return shapeIn(kind, id, numberIn(words[0], 0, GREATEST_HEIGHT), words.slice(1), false);
    case "more": return moreIn([id, ...words]);
    case "drop": { const spans = spansIn(words, true); return spans && { kind, id, spans }; }
    case "move": case "size": return shiftIn(kind, id, words);
    case "edit": return editIn(id, words);
    case "back": case "again": return words.length ? null : { kind, id };
    default: return null;
  }
}

const stepsOf = points => points.map((point, i) => i ? `${point[0] - points[i - 1][0]},${point[1] - points[i - 1][1]}` : point.join(",")).join(" ");
const spanOf = ({ source, first, last, check }) => `${source}.${first}${last > first ? "-" + last : ""}:${check.toString(16).padStart(8, "0")}`;

function bodyOf(stroke) {
  const { kind, height, id, colour, width, style, points } = stroke;
  switch (kind) {
    case "pen": return `${VERSION} pen ${id} ${height} ${colour} ${width} ${style} ${stepsOf(points)}`;
    case "more": return `${VERSION} more ${id} ${stepsOf(points)}`;
    case "text": return `${VERSION} text ${id} ${height} ${colour} ${width} ${stroke.breadth || "-"} ${points[0]} ${textOut(stroke.text)}`;
    case "edit": return `${VERSION} edit ${id} ${stroke.version} ${spanOf(stroke.spans[0])} ${colour} ${width} ${stroke.breadth || "-"} ${textOut(stroke.text)}`;
    case "name": return `${OLD} name ${stroke.name}`;
    case "page": return `${VERSION} page ${stroke.version} ${stroke.title}`;
    case "back": case "again": return `${VERSION} ${kind} ${id}`;
    default: return `${VERSION} ${kind} ${id} ${height} ${colour} ${width} ${style} ${points[0]} ${points[1]}`;
  }
}

// Bodies as bytes, a character each: how the member's JSON has them.
const encoder = new TextEncoder(), decoder = new TextDecoder("utf-8", { ignoreBOM: true }), strict = new TextDecoder("utf-8", { ignoreBOM: true, fatal: true });
const bytesOf = text => encoder.encode(text).length;

function bytesIn(latin) {
  const bytes = new Uint8Array(latin.length);
  for (let i = 0; i < latin.length; i++) bytes[i] = latin.charCodeAt(i);
  return bytes;
}

// The text of bytes; what is no UTF-8 is replaced by U+FFFD.
const textOf = latin => /^[\x00-\x7f]*$/.test(latin) ? latin : decoder.decode(bytesIn(latin));
// The same, or null where something is no UTF-8.
function utf8In(latin) {
  if (/^[\x00-\x7f]*$/.test(latin)) return latin;
  try { return strict.decode(bytesIn(latin)); } catch (e) { return null; }
}
const latinOf = text => Array.from(encoder.encode(text), byte => String.fromCharCode(byte)).join("");

// The check of a list with one body more: FNV-1a over all bytes, with a line end behind each body.
const NO_BODIES = 0x811c9dc5;
function checked(check, latin) {
  for (let i = 0; i < latin.length; i++) check = Math.imul(check ^ latin.charCodeAt(i), 0x01000193);
  return Math.imul(check ^ 10, 0x01000193) >>> 0;
}

// Strokes as bodies that fit: pieces of a curve, names as spans, a text cut to what a drawop holds.

const FULL = 900;        // a piece of a stroke, or a drop, has about so many bytes at most

// The bodies that hand over the points of a freehand stroke behind the first `sent`: together they say the stroke.
function cut(stroke, sent) {
  const bodies = [];
  while (sent < stroke.points.length) {
    let take = Math.min(450, stroke.points.length - sent), body;
    for (;;) {
      const points = stroke.points.slice(sent, sent + take);
      body = bodyOf(sent === 0 ? { ...stroke, kind: "pen", points } : { kind: "more", id: stroke.id, points });
      if (body.length <= FULL || take === 1) break;
      take = Math.ceil(take / 2);
    }
    sent += take;
    bodies.push(body);
  }
  return bodies;
}

// Spans of these drawops, each [source, number]: neighbours as one. `checkAt` tells the check of a source's list up to a number.
function spansOf(names, checkAt) {
  const spans = [];
  names = [...names].sort((a, b) => a[0] - b[0] || a[1] - b[1]);
  let first = 0;
  names.forEach(([source, number], i) => {
    const next = names[i + 1];
    if (next && next[0] === source && next[1] === number + 1) return;
    spans.push({ source, first: names[first][1], last: number, check: checkAt(source, number) });
    first = i + 1;
  });
  return spans;
}
// The bodies that say so of these spans: `head`, and then the spans.
function spread(head, spans) {
  const bodies = [];
  for (const word of spans.map(spanOf)) {
    const last = bodies.length - 1;
    if (last >= 0 && bodies[last].length + 1 + word.length <= FULL) bodies[last] += " " + word;
    else bodies.push(`${head} ${word}`);
  }
  return bodies;
}

// So many bytes of text fit into a drawop, whichever other words it has: so each copy and each edit of a text fits too.
const LONGEST_TEXT = LONGEST - 64;
// How many bytes a text has more than that.
const excess = text => Math.max(0, bytesOf(textOut(text)) - LONGEST_TEXT);
// A text as texts that fit, broken between words where that can be. None is empty.
function pieces(text) {
  const all = [];
  for (let rest = [...text]; rest.length;) {
    let length = 0, bytes = 0, space = 0;
    for (; length < rest.length; length++) {
      bytes += bytesOf(textOut(rest[length]));
      if (bytes > LONGEST_TEXT) break;
      if (rest[length] === " " || rest[length] === "\n") space = length + 1;
    }
    const head = rest.splice(0, length < rest.length && space ? space : length).join("");
    if (head.trimEnd()) all.push(head.trimEnd());
  }
  return all;
}

// A set of numbers, as ranges in order that don't touch.
class Spans {
  ranges = [];
  // The place of the first range that ends at or behind a number.
  place(number) {
    let low = 0, high = this.ranges.length;
    while (low < high) { const middle = (low + high) >> 1; if (this.ranges[middle][1] < number) low = middle + 1; else high = middle; }
    return low;
  }
  has(number) { const range = this.ranges[this.place(number)]; return range !== undefined && range[0] <= number; }
  // Adds the numbers from one to another, and returns, as ranges, those that weren't in.
  add(first, last) {
    const added = [];
    let from = first, low = first, high = last, at = this.place(first);
    for (; at < this.ranges.length && this.ranges[at][0] <= last; at++) { if (this.ranges[at][0] > from) added.push([from, this.ranges[at][0] - 1]); from = this.ranges[at][1] + 1; }
    if (from <= last) added.push([from, last]);
    const begin = this.place(first - 1);
    let end = begin;
    while (end < this.ranges.length && this.ranges[end][0] <= last + 1) { low = Math.min(low, this.ranges[end][0]); high = Math.max(high, this.ranges[end][1]); end++; }
    this.ranges.splice(begin, end - begin, [low, high]);
    return added;
  }
}

// The heights that shapes of a page claim. One counts as long as at most SLACK heights below it are claimed by nobody.
const SLACK = 100;

// The place of the first of some numbers in order that is no less than a number.
function placeOf(numbers, number) {
  let low = 0, high = numbers.length;
  while (low < high) { const middle = (low + high) >> 1; if (numbers[middle] < number) low = middle + 1; else high = middle; }
  return low;
}

class Claims {
  seen = new Set();
  counted = 0;      // so many different heights count: those up to the bound
  bound = 0;
  waiting = [];     // the others, lowest first
  // Notes a claim, and returns whether others count now that didn't before.
  add(height) {
    if (height === 0 || this.seen.has(height)) return false;
    this.seen.add(height);
    if (height < this.bound) this.counted++;
    else this.waiting.splice(placeOf(this.waiting, height), 0, height);
    const before = this.bound;
    let to = 0;
    while (to < this.waiting.length && this.waiting[to] - this.counted - 1 <= SLACK) { this.counted++; this.bound = this.waiting[to++]; }
    this.waiting.splice(0, to);
    return this.bound > before && (to > 1 || this.bound !== height);
  }
  counts(height) { return height <= this.bound; }
}

// Where a shape lies: its lines of text, its boxes, how far it was sized and moved, and the steps that bring it elsewhere. Boxes are [left, top, right, bottom].

const LINE = 1.25, BASELINE = .97;       // how far apart the lines of a text are, and how far below its upper edge it stands, in its sizes
// How wide a line of text is: the window measures it by its font.
let ruler = (text, size) => [...text].length * size * .55;
const measure = (text, size) => ruler(text, size);
function measureBy(rule) { ruler = rule; }

// The lines of a text: it breaks at its breadth, between words where it can.
function linesOf(shape) {
  if (!shape.lines) shape.lines = shape.text.split("\n").flatMap(line => shape.breadth ? broken(line, shape.width, shape.breadth) : [line]);
  return shape.lines;
}
function broken(line, size, breadth) {
  const lines = [];
  let now = "";
  for (const word of line.split(/(?<=[ -])/)) {
    if (now && measure((now + word).trimEnd(), size) > breadth) { lines.push(now.trimEnd()); now = ""; }
    now += word;
    if (measure(now.trimEnd(), size) > breadth) { const signs = [...now]; let at = 0; for (let count; at + (count = fits(signs, at, size, breadth)) < signs.length; at += count) lines.push(signs.slice(at, at + count).join("")); now = signs.slice(at).join(""); }
  }
  return [...lines, now];
}
// How many signs from one on fit, at least one. It measures no more than twice as much as fits.
function fits(signs, at, size, breadth) {
  const isFitting = count => measure(signs.slice(at, at + count).join("").trimEnd(), size) <= breadth;
  let low = 1, high = 2;
  while (at + high <= signs.length && isFitting(high)) { low = high; high *= 2; }
  high = Math.min(high, signs.length - at + 1);
  while (low + 1 < high) { const middle = (low + high) >> 1; if (isFitting(middle)) low = middle; else high = middle; }
  return low;
}

const grown = (box, by) => [box[0] - by, box[1] - by, box[2] + by, box[3] + by];
const shifted = (box, [x, y]) => [box[0] + x, box[1] + y, box[2] + x, box[3] + y];
const joined = (a, b) => [Math.min(a[0], b[0]), Math.min(a[1], b[1]), Math.max(a[2], b[2]), Math.max(a[3], b[3])];
const meets = (a, b) => a[0] < b[2] && b[0] < a[2] && a[1] < b[3] && b[1] < a[3];
const isIn = (q, box) => q[0] >= box[0] && q[0] <= box[2] && q[1] >= box[1] && q[1] <= box[3];
function boxAround(points) {
  const box = [Infinity, Infinity, -Infinity, -Infinity];
  for (const [x, y] of points) { if (x < box[0]) box[0] = x; if (y < box[1]) box[1] = y; if (x > box[2]) box[2] = x; if (y > box[3]) box[3] = y; }
  return box;
}
const rectOf = ([a, b]) => [Math.min(a[0], b[0]), Math.min(a[1], b[1]), Math.abs(b[0] - a[0]), Math.abs(b[1] - a[1])];

const isPlaced = ({ moved, sized }) => Boolean(moved && (moved[0] || moved[1]) || sized && (sized[0] || sized[1]));
const UNMOVED = { offset: [0, 0] };
// How long a side of so much is once it was sized: a side without length stays so.
const sizedSide = (side, by, most) => side && by ? Math.max(1, Math.min(most, side + by)) : side;

// Where a shape lies: `bounds` around its points, sized about the middle of where they were drawn, `points` likewise, and `offset`, by which both are moved.
function liesAt(shape) {
  if (shape.lies) return shape.lies;
  if (shape.kind === "note") return UNMOVED;
  if (!shape.bounds) shape.bounds = boxAround(shape.points);
  const box = shape.bounds;
  if (!isPlaced(shape)) return shape.lies = { bounds: box, points: shape.points, offset: UNMOVED.offset };
  const size = [WIDE, HIGH], old = [box[2] - box[0], box[3] - box[1]], now = old.map((side, i) => sizedSide(side, shape.sized[i], size[i]));
  const low = now.map((side, i) => box[i] - (side - old[i]) / 2), by = now.map((side, i) => old[i] ? side / old[i] : 1);
  const points = by[0] === 1 && by[1] === 1 ? shape.points : shape.points.map(point => [low[0] + (point[0] - box[0]) * by[0], low[1] + (point[1] - box[1]) * by[1]]);
  const offset = low.map((at, i) => Math.max(-at, Math.min(size[i] - at - now[i], shape.moved[i])));
  return shape.lies = { bounds: [low[0], low[1], low[0] + now[0], low[1] + now[1]], points, offset };
}
const offsetOf = shape => liesAt(shape).offset;
const pointsOf = shape => liesAt(shape).points;
// The box around the points where they lie.
const boundsOf = shape => { const { bounds, offset } = liesAt(shape); return shifted(bounds, offset); };

// A shape as it lies once the last look that it was given has come back. Steps that were reckoned from what has come back would each mend the same overshoot.
function asGiven(shape, look) {
  if (!look) return shape;
  const { sized, moved, width, breadth } = look;
  return { ...shape, lies: null, lines: null, sized, moved, width, breadth };
}
const within = (number, most) => Math.max(-most, Math.min(most, number));
// The steps of size and place that bring the box around a shape's points into another one, or as near as the page lets it. A shape's sums may lie beyond the page.
function stepsTo(shape, to) {
  const now = boundsOf(shape), drawn = shape.bounds, sized = [0, 0], moved = [0, 0];
  for (const [i, most] of [WIDE, HIGH].entries()) {
    const old = drawn[i + 2] - drawn[i], before = now[i + 2] - now[i], side = shape.kind === "text" || !old ? before : Math.max(1, Math.min(most, Math.round(to[i + 2] - to[i])));
    const far = most - side, at = Math.max(0, Math.min(far, to[i])), isSized = side !== before, unmoved = drawn[i] - (side - old) / 2;
    // Steps are whole: at an edge they end behind it, so that no half of a unit stays free.
    const whole = at === 0 ? Math.floor : at === far ? Math.ceil : Math.round;
    if (isSized) sized[i] = within(side - old - shape.sized[i], FARTHEST);
    if (isSized || Math.abs(at - now[i]) >= .5) moved[i] = within(whole(at - unmoved) - shape.moved[i], FARTHEST);
  }
  return { sized, moved };
}
const summed = (sums, by) => sums.map((sum, i) => sum + by[i]);
const stepped = (shape, { sized, moved }) => ({ ...shape, lies: null, lines: null, sized: summed(shape.sized, sized), moved: summed(shape.moved, moved) });

const NOTE = { wide: 480, high: 112, rows: 10, size: 46, signs: 19 };
const notePlace = note => [16 + (note.source % 8) * 496, HIGH - 8 - (note.place % NOTE.rows + 1) * (NOTE.high + 8)];
const noteBox = note => { const [x, y] = notePlace(note); return grown([x, y, x + NOTE.wide, y + NOTE.high], 2); };
function textBox(shape) {
  const lines = linesOf(shape), [x, y] = shape.points[0];
  return [x, y, x + Math.max(1, ...lines.map(line => measure(line, shape.width))), y + lines.length * shape.width * LINE];
}
"##;

const PART_2: &str = r##"
// The two ends of an arrow's head.
const headOf = width => 26 + 3 * width;
function headEnds([[ax, ay], [bx, by]], width) {
  const way = Math.atan2(by - ay, bx - ax), far = Math.min(headOf(width), Math.max(width * 1.5, Math.hypot(bx - ax, by - ay) * .7));
  return [way + Math.PI - .45, way + Math.PI + .45].map(angle => [bx + far * Math.cos(angle), by + far * Math.sin(angle)]);
}

// What a shape covers.
function boxOf(shape) {
  if (shape.kind === "note") return noteBox(shape);
  const lies = liesAt(shape);
  if (!lies.box) {
    const still = shape.kind === "text" ? textBox(shape) : grown(lies.bounds, shape.width / 2 + (shape.kind === "arrow" ? headOf(shape.width) : 0));
    lies.box = shifted(still, lies.offset);
  }
  return lies.box;
}

// The points of freehand curves.
const BROAD = 40;
// Of a very wide curve the points that lie apart: many on one place would show nothing, and cost much.
function thinned({ width }, points, last) {
  if (width <= BROAD) return points;
  return points.filter(point => { const isApart = !last || Math.hypot(point[0] - last[0], point[1] - last[1]) >= width / 4; if (isApart) last = point; return isApart; });
}
// A hidden curve keeps its points in little room: two bytes each, where its steps are small.
function pack(shape) {
  if (shape.kind !== "pen" || !shape.points) return;
  const points = shape.points, steps = new Int16Array(2 * points.length - 2);
  let most = 0;
  for (let i = 1; i < points.length; i++) for (const j of [0, 1]) { const step = points[i][j] - points[i - 1][j]; steps[2 * i - 2 + j] = step; most = Math.max(most, Math.abs(step)); }
  shape.packed = { first: points[0], steps: most < 128 ? Int8Array.from(steps) : steps };
  shape.points = shape.bounds = shape.lies = null;
}
function unpack(shape) {
  if (shape.points || !shape.packed) return;
  const { first, steps } = shape.packed, points = [first];
  for (let i = 0; i < steps.length; i += 2) { const [x, y] = points[points.length - 1]; points.push([x + steps[i], y + steps[i + 1]]); }
  shape.points = points;
  shape.packed = null;
}

// The picture of a page: a function of the lists of bodies that were taken, one for each source, whatever order they came in. docs/BOARD.md has the rules.
//
// What a body costs is done in slices: `take` reads it and queues what else it does for many shapes, and `run` does so much of that. Each part of this work adds
// something to the counters of a shape, so its order doesn't matter either. `draw` does all at once.

const MOST_POINTS = 20000;
const MOST_DIRT = 40;       // so many boxes to be painted anew are kept apart

const isBelow = (a, b) => (a.height - b.height || a.source - b.source || a.number - b.number) < 0;
const isOlder = (a, b) => (a.version - b.version || a.source - b.source || a.number - b.number) < 0;
const saidBy = ({ colour, width, breadth, text }) => ({ colour, width, breadth, text });
// Of those that say what something is, the one that counts: of all, `isIn` says which are in effect.
const newestOf = (all, isIn) => all.reduce((best, one) => isIn(one) && one.version <= all.length && (!best || isOlder(best, one)) ? one : best, null);

// The drawops of a source with one ID. `isApplied` is whether the shapes that they name count them.
class Step {
  isBack = false;
  isQueued = false;
  newest = 0;
  shapes = [];
  parts = [];
  constructor(from, id) { this.from = from; this.id = id; this.isApplied = !from.isMuted; }
  get isIn() { return !this.isBack && !this.from.isMuted; }
}

// What a page has of a member.
class Source {
  taken = 0;
  checks = [NO_BODIES];     // of its list up to each number
  height = 0;
  shapes = [];
  notes = 0;
  curves = new Map();       // the newest of each ID
  steps = new Map();        // by ID
  unnamed = [];             // those without an ID
  waits = new Map();        // by number, the names that can't be checked before it comes
  newest = null;
  name = null;
  isMuted = false;
  constructor(member) { this.member = member; }
}

class Page {
  constructor(name, slot) {
    Object.assign(this, { name, slot, sources: new Map(), shown: [], titles: [], claims: new Claims(), greatest: 0, isSorted: true, isSieved: true, isLevel: true, named: undefined });
    // What is to be painted: boxes with whom they are due to, and shapes that are new or longer. `culprit` is whose body is at work, `stale` has texts to be read again
    // and who edited them, and `leveller` who raised something.
    // `loose` has hidden curves that take much room.
    Object.assign(this, { dirt: [], fresh: new Set(), loose: new Set(), stale: new Map(), works: new Map(), culprit: null, leveller: null });
  }
  source(member) {
    let one = this.sources.get(member);
    if (!one) this.sources.set(member, one = new Source(member));
    return one;
  }
  checkAt(member, number) { return this.source(member).checks[number]; }
  get title() { const one = this.newestTitle(); return one ? one.title : null; }
  newestTitle() {
    if (this.named === undefined) this.named = newestOf(this.titles.filter(one => !this.source(one.source).isMuted), () => true);
    return this.named;
  }
  newestEdit(shape) { return newestOf(this.editsOf(shape), edit => edit.step.isIn); }
  editsOf(shape) { return (shape.edits || []).filter(edit => !edit.step.from.isMuted); }

  // The next body of a source, a character a byte: all that it does. Returns what it says.
  draw(member, number, latin) {
    const stroke = this.take(member, number, latin);
    this.run();
    return stroke;
  }
  take(member, number, latin) {
    const from = this.source(member), body = utf8In(latin), stroke = body !== null && strokeIn(body) || { kind: "note", height: 0, id: null, text: textOf(latin), place: from.notes++ };
    this.culprit = member;
    from.taken = number;
    from.checks.push(checked(from.checks[number - 1], latin));
    this.obey(from, Object.assign(stroke, { source: member, number }));
    const waits = from.waits.get(number);
    if (waits) { from.waits.delete(number); for (const [part, span] of waits) this.refer(part, span); }
    return stroke;
  }
  obey(from, stroke) {
    switch (stroke.kind) {
      case "more": this.lengthen(from.curves.get(stroke.id), stroke.points); break;
      case "back": case "again": { const step = this.step(from, stroke.id); step.isBack = stroke.kind === "back"; this.review(step); break; }
      case "drop": case "move": case "size": case "edit": this.act(from, stroke); break;
      case "name": from.name = stroke.name; break;
      case "page": this.titles.push(stroke); this.named = undefined; break;
      default: this.add(from, stroke);
    }
  }
  step(from, id) {
    let step = id === null ? undefined : from.steps.get(id);
    if (step) return step;
    step = new Step(from, id);
    if (id === null) from.unnamed.push(step); else from.steps.set(id, step);
    return step;
  }

  // Work of a member that waits: who has some, and what.
  queue(member, work) { const works = this.works.get(member); if (works) works.push(work); else this.works.set(member, [work]); }
  hasWork(member) { return this.works.has(member); }
  // Does what waits, of a member or of all, until `isTime` says that it is time to stop.
  run(member = null, isTime = () => false) {
    for (const one of member === null ? [...this.works.keys()] : [member]) {
      const works = this.works.get(one);
      this.culprit = one;
      while (works && works.length) { if (works[0].next().done) works.shift(); if (isTime()) break; }
      if (works && !works.length) this.works.delete(one);
    }
  }
  // A step that is in effect or not now, other than what the shapes count.
  review(step) {
    if (step.isIn === step.isApplied || step.isQueued) return;
    step.isQueued = true;
    this.queue(step.from.member, this.swing(step));
  }
  *swing(step) {
    step.isQueued = false;
    if (step.isIn === step.isApplied) return;
    step.isApplied = step.isIn;
    const sign = step.isApplied ? 1 : -1, own = step.shapes.length, named = step.parts.map(part => [part, [...part.named].map(([member, spans]) => [member, [...spans.ranges]])]);
    for (let i = 0; i < own; i++) { step.shapes[i].hides -= sign; this.hide(step.shapes[i]); if (i % SLICE === 0) yield; }
    for (const [part, spans] of named) for (const [member, ranges] of spans) yield* this.affect(part, member, ranges, sign);
  }
  act(from, part) {
    part.step = this.step(from, part.id);
    part.step.newest = part.number;
    part.named = new Map();
    part.step.parts.push(part);
    const spans = part.spans;
    part.spans = null;
    for (const span of spans) this.refer(part, span);
  }
  // A name names something once its check holds: then its sender had taken that.
  refer(part, span) {
    const from = this.source(span.source);
    if (span.check === null) { if (span.source === part.source) this.cover(part, span.source, span.first, Math.min(span.last, part.number - 1)); }
    else if (span.last > from.taken) { const waits = from.waits.get(span.last); if (waits) waits.push([part, span]); else from.waits.set(span.last, [[part, span]]); }
    else if (from.checks[span.last] === span.check) this.cover(part, span.source, span.first, span.last);
  }
  cover(part, member, first, last) {
    if (last < first) return;
    if (!part.named.has(member)) part.named.set(member, new Spans());
    const added = part.named.get(member).add(first, last);
    if (part.kind === "edit") this.edit(part, member, first);
    else if (added.length && part.step.isApplied) this.queue(part.source, this.affect(part, member, added, 1));
  }
  edit(part, member, number) {
    const shapes = this.source(member).shapes, shape = shapes[placeIn(shapes, number)];
    if (!shape || shape.number !== number || shape.kind !== "text") return;
    (shape.edits = shape.edits || []).push(part);
    part.of = shape;
    this.stale.set(shape, part.source);
  }
  // Adds to the shapes in some ranges of a source what a part does, or takes it from them.
  *affect(part, member, ranges, sign) {
    if (part.kind === "edit") { if (part.of) this.stale.set(part.of, part.source); return; }
    const shapes = this.source(member).shapes;
    for (const [first, last] of ranges) {
      for (let i = placeIn(shapes, first), end = placeIn(shapes, last + 1), count = 1; i < end; i++, count++) {
        this.apply(part, shapes[i], sign);
        if (count % SLICE === 0) yield;
      }
      yield;
    }
  }
  apply(part, shape, sign) {
    if (part.kind === "drop") { shape.hides += sign; this.hide(shape); }
    else if (part.kind === "move") this.shift(shape, "moved", part.by, sign);
    else this.shift(shape, "sized", part.by, sign);
  }
  shift(shape, what, by, sign) {
    if (shape.kind === "note" || what === "sized" && shape.kind === "text") return;
    this.touch(shape);
    shape[what] = [shape[what][0] + sign * by[0], shape[what][1] + sign * by[1]];
    shape.lies = null;
    this.touch(shape);
  }
  reread(shape) {
    this.touch(shape);
    shape.said = shape.said || saidBy(shape);
    Object.assign(shape, saidBy(this.newestEdit(shape) || shape.said), { lines: null, lies: null });
    this.touch(shape);
  }
  add(from, shape) {
    const step = shape.id === null ? null : this.step(from, shape.id);
    if (step) { step.shapes.push(shape); step.newest = shape.number; }
    if (shape.kind === "pen") { shape.count = shape.points.length; shape.points = thinned(shape, shape.points); }
    Object.assign(shape, { claim: shape.height, hides: (step ? !step.isApplied : from.isMuted) ? 1 : 0, moved: [0, 0], sized: [0, 0], painted: 0, paintedAs: 0, isListed: false, at: Date.now() });
    shape.isHidden = shape.hides > 0;
    if (!from.isMuted) { if (this.claims.add(shape.claim)) this.raise(from.member); if (this.claims.counts(shape.claim) && shape.claim > from.height) from.height = shape.claim; }
    shape.height = from.height;
    this.greatest = Math.max(this.greatest, from.height);
    from.shapes.push(shape);
    if (shape.kind === "pen") from.curves.set(shape.id, shape);
    from.newest = shape;
    if (shape.isHidden) this.loosen(shape); else this.list(shape);
  }
  list(shape) {
    const top = this.shown[this.shown.length - 1];
    if (!shape.isListed) { this.shown.push(shape); shape.isListed = true; if (top && isBelow(shape, top)) this.isSorted = false; }
    this.fresh.add(shape);
  }
  lengthen(shape, added) {
    if (!shape || shape.count + added.length > MOST_POINTS) return;
    shape.count += added.length;
    unpack(shape);
    if (shape.isHidden) this.loosen(shape);
    const points = thinned(shape, added, shape.points[shape.points.length - 1]);
    if (!points.length) return;
    const isElsewhere = isPlaced(shape);
    if (isElsewhere) this.touch(shape);
    for (const point of points) shape.points.push(point);
    if (shape.bounds) shape.bounds = joined(shape.bounds, boxAround(points));
    shape.lies = null;
    shape.at = Date.now();
    if (isElsewhere) this.touch(shape); else if (!shape.isHidden) this.fresh.add(shape);
  }
  // Whether a shape is hidden has changed, perhaps.
  hide(shape) {
    const isHidden = shape.hides > 0;
    if (isHidden === shape.isHidden) return;
    if (isHidden) { this.touch(shape); this.fresh.delete(shape); this.isSieved = false; this.loosen(shape); }
    shape.isHidden = isHidden;
    if (!isHidden) { unpack(shape); shape.paintedAs = 0; this.list(shape); }
  }
  loosen(shape) { if (shape.kind === "pen") this.loose.add(shape); }
  // Gives up the room that hidden curves take, so many of them at most.
  tidy(most = Infinity) {
    for (const shape of this.loose) { if (most-- <= 0) return; if (shape.isHidden) pack(shape); this.loose.delete(shape); }
  }
  // What lies under a shape is to be painted anew.
  touch(shape) {
    if (shape.isHidden) return;
    if (this.dirt.length < MOST_DIRT) this.dirt.push({ box: boxOf(shape), member: this.culprit });
    else this.dirt = [{ box: [0, 0, WIDE, HIGH], member: this.culprit }];
  }
  // Hides all that a member drew, dropped, moved, raised and named, as though its list were empty; or shows it.
  mute(member, isMuted) {
    const from = this.source(member);
    if (from.isMuted === isMuted) return;
    from.isMuted = isMuted;
    this.culprit = member;
    for (const shape of from.shapes) if (shape.id === null) { shape.hides += isMuted ? 1 : -1; this.hide(shape); }
    for (const step of [...from.steps.values(), ...from.unnamed]) {
      this.review(step);
      for (const part of step.parts) if (part.of) this.stale.set(part.of, member);
    }
    this.claims = new Claims();
    for (const one of this.sources.values()) if (!one.isMuted) for (const shape of one.shapes) this.claims.add(shape.claim);
    this.named = undefined;
    this.raise(member);
  }
  raise(member) { this.isLevel = false; this.leveller = member; }
  level() {
    this.isLevel = true;
    this.greatest = 0;
    this.culprit = this.leveller;
    for (const from of this.sources.values()) {
      from.height = 0;
      for (const shape of from.shapes) {
        if (!from.isMuted && this.claims.counts(shape.claim)) from.height = Math.max(from.height, shape.claim);
        if (shape.height !== from.height) { shape.height = from.height; this.touch(shape); this.isSorted = false; }
      }
      this.greatest = Math.max(this.greatest, from.height);
    }
  }
  // What is shown, lowest first.
  shapes() {
    for (const [shape, member] of this.stale) { this.culprit = member; this.reread(shape); }
    this.stale.clear();
    if (!this.isLevel) this.level();
    if (!this.isSieved) { this.shown = this.shown.filter(shape => !shape.isHidden || (shape.isListed = false)); this.isSieved = true; }
    if (!this.isSorted) { this.shown.sort((a, b) => isBelow(a, b) ? -1 : 1); this.isSorted = true; }
    return this.shown;
  }
}
const SLICE = 500;      // so many shapes of a work are one slice
// The place of the first shape of a source with a number or behind it.
function placeIn(shapes, number) {
  let low = 0, high = shapes.length;
  while (low < high) { const middle = (low + high) >> 1; if (shapes[middle].number < number) low = middle + 1; else high = middle; }
  return low;
}

// What a tab can take back: its own steps, in the order in which it did them.
class Past {
  done = [];
  undone = [];
  note({ kind, id }) {
    if (!id || kind === "more") return;
    if (kind === "back") { if (remove(this.done, id)) this.undone.push(id); }
    else if (kind === "again") { if (remove(this.undone, id)) this.done.push(id); }
    else if (!this.done.includes(id, Math.max(0, this.done.length - 8))) { this.done.push(id); this.undone = []; }
  }
  // A step that the member refused.
  forget(id) { remove(this.done, id); }
}
function remove(list, one) { const at = list.lastIndexOf(one); if (at >= 0) list.splice(at, 1); return at >= 0; }

// Shapes, painted on a canvas.

// Each member's own colour: dark enough for white paper, none like another, and none like those that the tools offer.
const DYES = ("1971c2 e03131 2f9e44 d9730d a846c4 0c8599 d6336c 5c940d d95412 15845a c468cd 6e890b 2074c8 cf6e82 0c9217 8852e3 " +
  "ac8639 0b8e88 ce22a3 639b34 5a73f2 d33922 349d60 be42f0 767613 3e95ba ee287a 238415 8f81d5 c66410 158167 cb64c7").split(" ");
const dyeOf = member => "#" + DYES[member % DYES.length];
const colourOf = shape => shape.colour === "-" ? dyeOf(shape.source) : "#" + shape.colour;
// A colour as a dark window shows it, which inverts its lightness and keeps its hue: what `invert(93%) hue-rotate(180deg)` makes of it.
function nightly(colour) {
  const [r, g, b] = [1, 3, 5].map(i => .93 - .86 * parseInt(colour.slice(i, i + 2), 16) / 255);
  const parts = [-.574 * r + 1.43 * g + .144 * b, .426 * r + .43 * g + .144 * b, .426 * r + 1.43 * g - .856 * b];
  return "#" + parts.map(part => Math.round(255 * Math.max(0, Math.min(1, part))).toString(16).padStart(2, "0")).join("");
}
// The two lines of a note that are shown; what is longer ends in an ellipsis.
function noteLines(text) {
  const signs = [...text.replace(/\s+/g, " ").trim()], space = signs.lastIndexOf(" ", NOTE.signs);
  if (signs.length <= NOTE.signs) return [signs.join("")];
  const end = space > NOTE.signs / 2 ? space : NOTE.signs, rest = [...signs.slice(end).join("").trim()];
  return [signs.slice(0, end).join(""), rest.length > NOTE.signs ? rest.slice(0, NOTE.signs - 1).join("") + "\u2026" : rest.join("")];
}
// How far below a note's upper edge each of its lines stands.
const noteRow = (lines, i) => NOTE.high / 2 + (i - (lines.length - 1) / 2) * NOTE.size * 1.1 + NOTE.size * .35;
const dashOf = width => [width * 1.5 + 14, width * 1.8 + 12];
const LIGHT = .22;      // how much of its colour a light filling has

// A path along the points from one to another, as a canvas takes it: parts that follow each other make the whole.
function smooth(path, points, first = 1, until = points.length - 1) {
  const last = points.length - 1, half = i => [(points[i - 1][0] + points[i][0]) / 2, (points[i - 1][1] + points[i][1]) / 2];
  path.moveTo(...(first <= 1 ? points[0] : half(first)));
  if (last === 0) path.lineTo(points[0][0] + .01, points[0][1]);
  for (let i = first; i <= until && i < last; i++) path.quadraticCurveTo(points[i][0], points[i][1], ...half(i + 1));
  if (last > 0 && until >= last) path.lineTo(points[last][0], points[last][1]);
}

function paintNote(canvas, note) {
  const [x, y] = notePlace(note);
  canvas.fillStyle = "#fff9db"; canvas.strokeStyle = dyeOf(note.source); canvas.lineWidth = 4;
  canvas.beginPath(); canvas.rect(x, y, NOTE.wide, NOTE.high); canvas.fill(); canvas.stroke();
  canvas.save(); canvas.beginPath(); canvas.rect(x, y, NOTE.wide, NOTE.high); canvas.clip();
  canvas.fillStyle = "#343a40"; canvas.font = `${NOTE.size}px sans-serif`; canvas.textBaseline = "alphabetic"; canvas.textRendering = EXACT;
  noteLines(note.text).forEach((line, i, lines) => canvas.fillText(line, x + 18, y + noteRow(lines, i)));
  canvas.restore();
}

const EXACT = "geometricPrecision";        // texts are spaced alike in a canvas and in SVG
const PART = 64;        // a curve is painted in parts of so many points: a long one costs no more for each
// Paints a shape, or of a curve what lies between two of its points.
function paint(canvas, shape, first = 0, until = Infinity) {
  if (shape.kind === "note") { paintNote(canvas, shape); return; }
  canvas.save();
  canvas.translate(...offsetOf(shape));
  canvas.strokeStyle = canvas.fillStyle = colourOf(shape); canvas.lineWidth = shape.width; canvas.lineCap = canvas.lineJoin = "round";
  if (shape.kind === "text") paintText(canvas, shape);
  else if (shape.kind === "pen") paintCurve(canvas, shape, first, until);
  else paintFigure(canvas, shape);
  canvas.restore();
}
function paintText(canvas, shape) {
  canvas.font = `${shape.width}px sans-serif`; canvas.textBaseline = "alphabetic"; canvas.textRendering = EXACT;
  linesOf(shape).forEach((line, i) => canvas.fillText(line, pointsOf(shape)[0][0], pointsOf(shape)[0][1] + shape.width * (BASELINE + i * LINE)));
}
function paintCurve(canvas, shape, first, until) {
  const points = pointsOf(shape), end = Math.min(until, points.length - 1), isDashed = shape.style === "d";
  if (isDashed) canvas.setLineDash(dashOf(shape.width));
  let far = isDashed ? reach(points, 0, Math.max(1, first) - 1) : 0;
  for (let from = Math.max(1, first); from <= Math.max(1, end); from += PART) {
    const to = Math.min(end, from + PART - 1);
    if (isDashed) canvas.lineDashOffset = far;
    canvas.beginPath(); smooth(canvas, points, from, to); canvas.stroke();
    if (isDashed) far += reach(points, from - 1, to);
  }
}
// How long the way from one point to another is.
function reach(points, from, until) { let far = 0; for (let i = from + 1; i <= until; i++) far += Math.hypot(points[i][0] - points[i - 1][0], points[i][1] - points[i - 1][1]); return far; }
function paintFigure(canvas, shape) {
  const points = pointsOf(shape);
  canvas.beginPath();
  if (shape.kind === "line" || shape.kind === "arrow") { canvas.moveTo(...points[0]); canvas.lineTo(...points[1]); }
  else if (shape.kind === "rect") canvas.rect(...rectOf(points));
  else { const [x, y, wide, high] = rectOf(points); canvas.ellipse(x + wide / 2, y + high / 2, wide / 2, high / 2, 0, 0, 2 * Math.PI); }
  if (isFilled(shape)) { canvas.globalAlpha *= shape.style.endsWith("f") ? LIGHT : 1; canvas.fill(); canvas.globalAlpha /= shape.style.endsWith("f") ? LIGHT : 1; }
  if (shape.style.startsWith("d")) canvas.setLineDash(dashOf(shape.width));
  canvas.stroke();
  if (shape.kind !== "arrow") return;
  const [left, right] = headEnds(points, shape.width);
  canvas.setLineDash([]); canvas.beginPath(); canvas.moveTo(...left); canvas.lineTo(...points[1]); canvas.lineTo(...right); canvas.stroke();
}
const isFilled = shape => (shape.kind === "rect" || shape.kind === "oval") && /[fs]$/.test(shape.style);


// What lies under a point.

function distance(q, a, b) {
  const dx = b[0] - a[0], dy = b[1] - a[1], length = dx * dx + dy * dy;
  const along = length ? Math.max(0, Math.min(1, ((q[0] - a[0]) * dx + (q[1] - a[1]) * dy) / length)) : 0;
  return Math.hypot(q[0] - a[0] - along * dx, q[1] - a[1] - along * dy);
}
function isNearPath(q, points, near) {
  return points.length === 1 ? Math.hypot(q[0] - points[0][0], q[1] - points[0][1]) <= near : points.some((p, i) => i > 0 && distance(q, points[i - 1], p) <= near);
}
function isHit(shape, place, slack) {
  if (!isIn(place, grown(boxOf(shape), slack))) return false;
  if (shape.kind === "note") return true;
  const [ox, oy] = offsetOf(shape), q = [place[0] - ox, place[1] - oy], points = pointsOf(shape), near = slack + shape.width / 2;
  if (shape.kind === "text") return linesOf(shape).some((line, i) => isIn(q, [points[0][0], points[0][1] + i * shape.width * LINE, points[0][0] + measure(line, shape.width), points[0][1] + (i + 1) * shape.width * LINE]));
  if (shape.kind === "pen" || shape.kind === "line") return isNearPath(q, points, near);
  if (shape.kind === "arrow") { const [left, right] = headEnds(points, shape.width); return isNearPath(q, points, near) || isNearPath(q, [left, points[1], right], near); }
  const [x, y, wide, high] = rectOf(points);
  if (shape.kind === "rect") return isFilled(shape) || isNearPath(q, [[x, y], [x + wide, y], [x + wide, y + high], [x, y + high], [x, y]], near);
  if (wide < 1 || high < 1) return isNearPath(q, points, near);
  const dx = (q[0] - x - wide / 2) / (wide / 2), dy = (q[1] - y - high / 2) / (high / 2), far = Math.hypot(dx, dy) - 1;
  return isFilled(shape) && far < 0 || Math.abs(far) * Math.min(wide, high) / 2 <= near;
}
// Whether nothing below a shape is seen at a place.
function isCovering(shape, place) {
  if (shape.kind === "note") return isIn(place, boxOf(shape));
  if (!isFilled(shape) || !shape.style.endsWith("s") || !isIn(place, boxOf(shape))) return false;
  const [ox, oy] = offsetOf(shape), [x, y, wide, high] = rectOf(pointsOf(shape)), q = [place[0] - ox, place[1] - oy];
  return shape.kind === "rect" ? isIn(q, [x, y, x + wide, y + high]) : wide > 0 && high > 0 && Math.hypot((q[0] - x - wide / 2) / (wide / 2), (q[1] - y - high / 2) / (high / 2)) <= 1;
}

// Pages as SVG.

const ENTITIES = { "&": "&amp;", "<": "&lt;", ">": "&gt;", '"': "&quot;" };
const escaped = text => text.replace(/[&<>"]/g, sign => ENTITIES[sign]).replace(/[\u0000-\u0008\u000b\u000c\u000e-\u001f\ufffe\uffff]/g, "\ufffd").replace(/[\ud800-\udbff](?![\udc00-\udfff])|(?<![\ud800-\udbff])[\udc00-\udfff]/g, "\ufffd");
const round = number => Number(number.toFixed(1));
const svgLines = (lines, x, y) => lines.map((line, i) => `<tspan x="${round(x)}" y="${round(y(i))}">${escaped(line)}</tspan>`).join("");

function svgShape(shape) {
  if (shape.kind === "note") {
    const [x, y] = notePlace(shape), lines = noteLines(shape.text);
    return `<rect x="${x}" y="${y}" width="${NOTE.wide}" height="${NOTE.high}" fill="#fff9db" stroke="${dyeOf(shape.source)}" stroke-width="4"/><text text-rendering="${EXACT}" font-size="${NOTE.size}" font-family="sans-serif" fill="#343a40">${svgLines(lines, x + 18, i => y + noteRow(lines, i))}</text>`;
  }
  const points = pointsOf(shape), colour = colourOf(shape);
  if (shape.kind === "text") return `<text text-rendering="${EXACT}" font-size="${shape.width}" font-family="sans-serif" fill="${colour}" xml:space="preserve">${svgLines(linesOf(shape), points[0][0], i => points[0][1] + shape.width * (BASELINE + i * LINE))}</text>`;
  const dash = shape.style.startsWith("d") ? ` stroke-dasharray="${dashOf(shape.width).map(round).join(" ")}"` : "", fill = isFilled(shape) ? `"${colour}" fill-opacity="${shape.style.endsWith("f") ? LIGHT : 1}"` : '"none"';
  const pen = `fill=${fill} stroke="${colour}" stroke-width="${shape.width}" stroke-linecap="round" stroke-linejoin="round"`;
  if (shape.kind === "pen") return `<path d="${svgPath(points)}" ${pen}${dash}/>`;
  if (shape.kind === "line" || shape.kind === "arrow") {
    const head = shape.kind === "arrow" ? headEnds(points, shape.width) : null;
    return `<line x1="${points[0][0]}" y1="${points[0][1]}" x2="${points[1][0]}" y2="${points[1][1]}" ${pen}${dash}/>` + (head ? `<path d="M${head[0].map(round).join(" ")}L${points[1].join(" ")}L${head[1].map(round).join(" ")}" ${pen}/>` : "");
  }
  const [x, y, wide, high] = rectOf(points);
  if (shape.kind === "rect") return `<rect x="${x}" y="${y}" width="${wide}" height="${high}" ${pen}${dash}/>`;
  return `<ellipse cx="${x + wide / 2}" cy="${y + high / 2}" rx="${wide / 2}" ry="${high / 2}" ${pen}${dash}/>`;
}
function svgPath(points) {
  let path = "";
  smooth({ moveTo: (x, y) => { path += `M${x} ${y}`; }, lineTo: (x, y) => { path += `L${round(x)} ${round(y)}`; }, quadraticCurveTo: (a, b, x, y) => { path += `Q${a} ${b} ${round(x)} ${round(y)}`; } }, points);
  return path;
}
function svgGroups(shapes) {
  return shapes.map(shape => { const [x, y] = offsetOf(shape); return `<g data-name="${shape.source}.${shape.number}"${x || y ? ` transform="translate(${x} ${y})"` : ""}>${svgShape(shape)}</g>`; }).join("\n");
}
function svgOf(shapes) {
  return `<svg xmlns="http://www.w3.org/2000/svg" viewBox="0 0 ${WIDE} ${HIGH}" width="${WIDE / 2}" height="${HIGH / 2}">\n<rect width="100%" height="100%" fill="#fff"/>\n${svgGroups(shapes)}\n</svg>\n`;
}
// All pages below each other, each under its title.
const SHEET = { head: 170, gap: 90, size: 96 };
const sheetPlaces = pages => pages.map((page, i) => ({ page, y: i * (SHEET.head + HIGH + SHEET.gap) + SHEET.head }));
const sheetHigh = pages => pages.length * (SHEET.head + HIGH + SHEET.gap);
function svgOfAll(pages, titleOf) {
  const groups = sheetPlaces(pages).map(({ page, y }) => `<text x="40" y="${y - 50}" text-rendering="${EXACT}" font-size="${SHEET.size}" font-family="sans-serif" fill="#1e1e24">${escaped(titleOf(page))}</text>\n<svg x="0" y="${y}" width="${WIDE}" height="${HIGH}"><rect width="${WIDE}" height="${HIGH}" fill="#fff"/>\n${svgGroups(page.shapes())}\n</svg>`);
  return `<svg xmlns="http://www.w3.org/2000/svg" viewBox="0 0 ${WIDE} ${sheetHigh(pages)}" width="${WIDE / 2}" height="${sheetHigh(pages) / 2}">\n<rect width="100%" height="100%" fill="#eceef3"/>\n${groups.join("\n")}\n</svg>\n`;
}


// Shapes drawn anew: copies, and a board as a file.

// The bodies that draw these shapes anew, lowest first, moved by so much, as one step, from this height on.
function copiesOf(shapes, id, height, by = [0, 0]) {
  return shapes.flatMap((shape, i) => copyOf(shape, id, Math.min(GREATEST_HEIGHT, height + i), by));
}
function copyOf(shape, id, height, by) {
  const offset = offsetOf(shape), isText = shape.kind === "text" || shape.kind === "note", like = { ...shape, id, height, colour: colourOf(shape).slice(1), lines: null, lies: null, moved: null, sized: null };
  if (shape.kind === "note") Object.assign(like, { kind: "text", colour: "343a40", width: NOTE.size, breadth: NOTE.wide, points: [notePlace(shape)], text: shape.text.trim() || "-" });
  like.points = placed(shape.kind === "note" ? like.points : pointsOf(shape), [offset[0] + by[0], offset[1] + by[1]]);
  if (like.kind === "pen") like.points = thinned(like, like.points);
  return isText ? columnOf(like, pieces(like.text)).map(bodyOf) : like.kind === "pen" ? cut(like, 0) : [bodyOf(like)];
}
// Texts below each other.
function columnOf(first, texts) {
  let y = first.points[0][1];
  return texts.map(text => {
    const one = { ...first, text, points: [[first.points[0][0], Math.min(HIGH, y)]], lines: null, lies: null, bounds: null };
    y += Math.ceil(linesOf(one).length * one.width * LINE);
    return one;
  });
}
// Points moved by so much, and no farther than the paper's edges.
function placed(points, by) {
  const box = boxAround(points), way = by.map((step, i) => Math.max(-box[i], Math.min([WIDE, HIGH][i] - box[i + 2], step)));
  return points.map(([x, y]) => [Math.round(x + way[0]), Math.round(y + way[1])]);
}

// A file: a line that says what it is, and of each page `page` and its name, if it has one, and then the drawops that draw it.
const FILE = "ringyew board 1", DRAWN = new Set([...SHAPES, "more"]);
function fileOf(pages) {
  return [FILE, ...pages.flatMap(page => [page.title ? `page ${page.title}` : "page", ...copiesOf(page.shapes(), "f", 1)])].join("\n") + "\n";
}
// The pages of a file, each with its title and shapes, or null where it is none. Lines that aren't of the format are counted.
function fileIn(text) {
  const [first, ...lines] = text.replace(/\r\n/g, "\n").split("\n"), pages = [];
  let odd = 0;
  if (first !== FILE) return null;
  for (const line of lines) {
    if (line === "page" || line.startsWith("page ")) pages.push({ title: titleIn([line.slice(5)]), page: new Page("", null) });
    else if (line && pages.length && DRAWN.has((strokeIn(line) || {}).kind)) { const { page } = pages[pages.length - 1]; page.draw(0, page.source(0).taken + 1, latinOf(line)); }
    else if (line) odd++;
  }
  return { pages: pages.map(({ title, page }) => ({ title, shapes: page.shapes() })), odd };
}

// The window: what the member says is shown, and what is drawn here goes to it.
const $ = id => document.getElementById(id);
const MARK = { "x-srm": "1" };         // what the member wants on each request, so that no page of another site can make it
const made = (tag, props, ...kids) => { const node = Object.assign(document.createElement(tag), props); node.append(...kids); return node; };
const pause = ms => new Promise(done => setTimeout(done, ms));

// What outlives a reload: of this tab, and of all tabs here.
function stored(store, key, otherwise) { try { return JSON.parse(window[store].getItem("srm " + key)) ?? otherwise; } catch (e) { return otherwise; } }
function keepStored(store, key, value) { try { window[store].setItem("srm " + key, JSON.stringify(value)); } catch (e) { } }
const TAB = "sessionStorage", ALL = "localStorage";
// Four signs begin each step of this tab. A copy of a tab that is still open gets others.
const wasClosed = stored(TAB, "closed", false), tab = wasClosed && stored(TAB, "tab", null) || Math.random().toString(36).slice(2, 6).padEnd(4, "0");
// By this number the member knows what this tab drew, also after a reload.
const tabNumber = wasClosed && stored(TAB, "number", null) || String(crypto.getRandomValues(new BigUint64Array(1))[0]);
keepStored(TAB, "tab", tab); keepStored(TAB, "number", tabNumber); keepStored(TAB, "closed", false);
addEventListener("pagehide", () => keepStored(TAB, "closed", true));
addEventListener("pageshow", () => keepStored(TAB, "closed", false));
let steps = stored(TAB, "steps", 0);
function newStep() { keepStored(TAB, "steps", ++steps); return tab + (steps % 1679616).toString(36); }


// What the member said.
let run = null, me = 0, members = 0, called = [], from = 0, happened = 0, last = null, isOver = false, isLoading = true, beganAt = 0;
let pages = new Map(), slots = [], here = stored(TAB, "here", "0.0");
let holes = [], reaches = [], asked = new Map(), mended = new Map(), heard = [], heardAt = [], left = new Set(), present = new Set();
// Who is hidden here, for who looks at this tab alone.
const muted = new Set(stored(TAB, "muted", []));
const page = () => pages.get(here);
const keyOf = (source, name, number) => `${source} ${name} ${number}`;

const ownNameOf = member => { const first = pages.get("0.0"), one = first && first.sources.get(member); return !muted.has(member) && one && one.name || called[member] || `Member ${member}`; };
// How a name looks: signs that show nothing, letters' cases and their forms don't count.
const looks = new Map();
function lookOf(name) {
  if (looks.size > 500) looks.clear();
  if (!looks.has(name)) looks.set(name, name.normalize("NFKC").replace(/[\p{C}\p{Z}\p{M}\u2800\u3164\u115f\u1160]/gu, "").toLowerCase());
  return looks.get(name);
}
// A member's name, with its number where another's looks equal.
function nameOf(member) {
  const name = ownNameOf(member), look = lookOf(name);
  for (let other = 0; other < members; other++) if (other !== member && lookOf(ownNameOf(other)) === look) return `${name} (${member})`;
  return name;
}
// Pages stand in the same order for all: by number, then by creator.
const order = () => [...pages.values()].sort((a, b) => { const [c, n] = a.name.split(".").map(Number), [d, m] = b.name.split(".").map(Number); return n - m || c - d; });
const titleOf = p => p.title || (p.name === "0.0" ? "First page" : `Page ${order().indexOf(p) + 1}`);
function madePage(name, slot) {
  const p = new Page(name, slot);
  for (const member of muted) p.mute(member, true);
  return p;
}

// The view: the whole paper, or a part of it.
let isDark = false;
const seen = colour => isDark ? nightly(colour) : colour;      // as the canvas shows it
const paper = $("paper"), base = $("base"), over = $("over");
let keep = document.createElement("canvas"), old = document.createElement("canvas");
const GREATEST_ZOOM = 16;
let zoom = 1, middle = [WIDE / 2, HIGH / 2], frameBox = { x: 0, y: 0, wide: 1, high: 1 }, scale = 1, corner = [0, 0], ratio = 1;
let movedAt = 0, overStale = true;

// The paper has the room that the panels leave it.
function fit() {
  const head = $("tools").offsetHeight + 12, foot = $("foot").offsetHeight + 12, beside = innerWidth > 900 && isMembered ? 276 : 0;
  document.documentElement.style.setProperty("--head", head + "px");
  document.documentElement.style.setProperty("--foot", foot + "px");
  const edge = innerWidth > 640 ? 12 : 6;
  frameBox = { x: edge, y: head + 8, wide: Math.max(40, innerWidth - 2 * edge - beside), high: Math.max(40, innerHeight - head - foot - 16) };
  document.documentElement.style.setProperty("--middle", frameBox.x + frameBox.wide / 2 + "px");
  ratio = devicePixelRatio || 1;
  const size = [Math.round(innerWidth * ratio), Math.round(innerHeight * ratio)];
  for (const canvas of [base, over, keep, old]) if (canvas.width !== size[0] || canvas.height !== size[1]) { [canvas.width, canvas.height] = size; kept.page = null; }
  look();
}
let isMembered = false;
function showMembers(isShown) {
  isMembered = isShown;
  document.body.classList.toggle("membered", isShown);
  $("who").setAttribute("aria-expanded", isShown);
  if (last) { showPeople(); showCounts(); }
  fit();
}

// Puts the paper where the zoom and its middle say, and never farther than its edges.
function look() {
  const whole = Math.min(frameBox.wide / WIDE, frameBox.high / HIGH);
  zoom = Math.max(1, Math.min(GREATEST_ZOOM, zoom));
  scale = whole * zoom;
  const half = [frameBox.wide / 2 / scale, frameBox.high / 2 / scale], size = [WIDE, HIGH];
  middle = middle.map((at, i) => half[i] * 2 >= size[i] ? size[i] / 2 : Math.max(half[i], Math.min(size[i] - half[i], at)));
  // In whole pixels, so that the part of the paper that is painted anew has straight edges.
  corner = [frameBox.x + frameBox.wide / 2 - middle[0] * scale, frameBox.y + frameBox.high / 2 - middle[1] * scale].map(at => Math.round(at * ratio) / ratio);
  Object.assign(paper.style, { left: corner[0] + "px", top: corner[1] + "px", width: WIDE * scale + "px", height: HIGH * scale + "px" });
  $("zoom").textContent = Math.round(zoom * 100) + "%";
  Object.assign($("hint").style, { left: frameBox.x + frameBox.wide / 2 + "px", top: frameBox.y + frameBox.high / 2 + "px", maxWidth: frameBox.wide - 40 + "px" });
  movedAt = performance.now();
  keepStored(TAB, "view", [zoom, middle]);
  placeWords(); refresh();
}
// Zooms so that what lies at a place of the window stays there.
function zoomAt(by, at = [frameBox.x + frameBox.wide / 2, frameBox.y + frameBox.high / 2]) {
  const centre = [frameBox.x + frameBox.wide / 2, frameBox.y + frameBox.high / 2], before = zoom;
  zoom = Math.max(1, Math.min(GREATEST_ZOOM, zoom * by));
  const after = scale * zoom / before;
  middle = middle.map((_, i) => (at[i] - corner[i]) / scale + (centre[i] - at[i]) / after);
  look();
}
function moveBy(dx, dy) { middle = [middle[0] - dx / scale, middle[1] - dy / scale]; look(); }


// Painting: only what changed, so much at a frame that the window stays quick, and nothing while nothing changes.
const STILL = 140;      // so long after the view moved it is painted anew; until then a large drawing's old picture is moved
const RIPE = 3000;      // so long after its last point a curve is taken for whole
let kept = { page: null, view: "", mark: 1, isWhole: false, scale: 1, corner: [0, 0] };     // what `keep` shows
let oldView = { page: null, scale: 1, corner: [0, 0] };
let job = null, parts = [], growing = new Set(), budget = 8000, frameAt = 0, wasBusy = false, isAwaited = false, painted = 0, paintings = 0, paintedAt = 0;
const FRAME = 16;       // so many ms of painting are as much as `budget` says
const viewNow = () => `${scale} ${corner} ${ratio} ${base.width}`;
function wake() { if (!isAwaited) { isAwaited = true; requestAnimationFrame(frame); } }
// What lies over the page changed.
function refresh() { overStale = true; wake(); }
"##;

const PART_3: &str = r##"
function onPaper(c) { c.setTransform(scale * ratio, 0, 0, scale * ratio, corner[0] * ratio, corner[1] * ratio); }
function begun(canvas) {
  const c = canvas.getContext("2d");
  // Also a clip that a job left behind goes.
  if (c.reset) c.reset(); else canvas.width += 0;
  onPaper(c); c.beginPath(); c.rect(0, 0, WIDE, HIGH); c.clip();
  return c;
}
// A box of the paper as pixels [x, y, wide, high] of the window, outwards and within it.
function pixelsOf(box) {
  const x = Math.max(0, Math.floor((corner[0] + box[0] * scale) * ratio) - 2), y = Math.max(0, Math.floor((corner[1] + box[1] * scale) * ratio) - 2);
  return [x, y, Math.min(base.width, Math.ceil((corner[0] + box[2] * scale) * ratio) + 2) - x, Math.min(base.height, Math.ceil((corner[1] + box[3] * scale) * ratio) + 2) - y];
}
// Shows a part of what `keep` has.
function bring([x, y, wide, high]) {
  if (wide <= 0 || high <= 0) return;
  const c = base.getContext("2d");
  c.setTransform(1, 0, 0, 1, 0, 0); c.clearRect(x, y, wide, high); c.drawImage(keep, x, y, wide, high, x, y, wide, high);
}
const EVERYTHING = () => [0, 0, base.width, base.height];

function paintBase(p) {
  if (kept.page !== p || kept.view !== viewNow()) {
    const isMoved = kept.page === p && (p.shown.length > 300 || job);
    if (isMoved) moveOld();
    if (isMoved && performance.now() - movedAt < STILL) { job = null; wake(); return; }
    beginAll(p, kept.page !== p);
  }
  if (!job && !parts.length) gather(p);
  work(p);
  settleTips(p);
}
// The last whole picture, moved to where the view is now.
function moveOld() {
  if (kept.isWhole) { [keep, old] = [old, keep]; oldView = { page: kept.page, scale: kept.scale, corner: kept.corner }; kept.isWhole = false; }
  const c = base.getContext("2d"), by = scale / oldView.scale;
  c.setTransform(1, 0, 0, 1, 0, 0); c.clearRect(0, 0, base.width, base.height);
  if (oldView.page === kept.page) c.drawImage(old, (corner[0] - oldView.corner[0] * by) * ratio, (corner[1] - oldView.corner[1] * by) * ratio, old.width * by, old.height * by);
}
// Paints all anew; `members` are those to whom that is due, if it isn't due to the view.
function beginAll(p, isShown, members = []) {
  kept = { page: p, view: viewNow(), mark: kept.mark + 1, isWhole: false, scale, corner };
  begun(keep);
  if (isShown) bring(EVERYTHING());
  parts = []; growing.clear(); p.dirt = []; p.fresh.clear();
  job = { shapes: p.shapes().slice(), at: 0, from: 0, boxes: null, isShown, members };
}
const grows = (p, shape) => shape.kind === "pen" && shape.at > Date.now() - RIPE && p.source(shape.source).newest === shape;
// What is new goes on top where nothing painted lies over it; else what lies there is painted anew.
function gather(p) {
  const shapes = shapesOf(p), fresh = [...p.fresh].filter(shape => !shape.isHidden).sort((a, b) => isBelow(a, b) ? -1 : 1), mark = kept.mark;
  p.fresh.clear();
  let top = shapes.length - 1;
  while (top >= 0 && shapes[top].paintedAs !== mark) top--;
  let highest = shapes[top];
  // So many shapes are compared with what is new, at most: what is left is painted anew with what lies there.
  const search = { left: 4000 };
  if (fresh.length > 200 && highest && isBelow(fresh[0], highest)) { if (kept.isWhole) moveOld(); beginAll(p, false, sourcesOf(fresh)); return; }
  for (const shape of fresh) {
    const from = shape.paintedAs === mark ? shape.painted : 0, isTipped = from > 0 && shape.isTipped;
    const began = performance.now(), box = from ? shifted(grown(boxAround(pointsOf(shape).slice(Math.max(0, from - 2))), shape.width / 2), offsetOf(shape)) : boxOf(shape);
    charge(shape.source, performance.now() - began);
    const isFree = !p.dirt.length && !isTipped && (!highest || highest === shape || isBelow(highest, shape) || isUncovered(shapes, shape, box, mark, search));
    if (isFree) { parts.push({ shape, from, box }); if (!highest || isBelow(highest, shape)) highest = shape; }
    else p.dirt.push({ box, member: shape.source });
    shape.paintedAs = mark;
    if (!isFree) note(p, shape);
  }
  if (!parts.length && p.dirt.length) beginSome(p, shapes);
}
// What is shown; who made that take long is charged.
function shapesOf(p) {
  const began = performance.now(), shapes = p.shapes();
  charge(p.culprit, performance.now() - began);
  return shapes;
}
const sourcesOf = shapes => [...new Set(shapes.map(shape => shape.source))];
function isUncovered(shapes, shape, box, mark, search) {
  for (let i = shapes.length - 1; i >= 0 && shapes[i] !== shape; i--) if (search.left-- <= 0 || shapes[i].paintedAs === mark && meets(boxOf(shapes[i]), box)) return false;
  return true;
}
function beginSome(p, shapes) {
  const members = [...new Set(p.dirt.map(one => one.member))];
  const boxes = p.dirt.map(({ box }) => [Math.max(0, box[0]), Math.max(0, box[1]), Math.min(WIDE, box[2]), Math.min(HIGH, box[3])]), area = boxes.reduce((sum, box) => sum + Math.max(0, box[2] - box[0]) * Math.max(0, box[3] - box[1]), 0);
  if (boxes.length > 40 || area > WIDE * HIGH * .5) { if (kept.isWhole) moveOld(); beginAll(p, false, members); return; }
  p.dirt = [];
  const pixels = boxes.map(pixelsOf), c = keep.getContext("2d");
  c.save(); c.setTransform(1, 0, 0, 1, 0, 0); c.beginPath();
  for (const box of pixels) c.rect(...box);
  c.clip();
  for (const box of pixels) c.clearRect(...box);
  onPaper(c);
  const wider = boxes.map(box => grown(box, 6 / scale));
  job = { shapes: shapes.filter(shape => wider.some(box => meets(box, boxOf(shape)))), at: 0, from: 0, boxes: pixels, isShown: false, members };
}
// Notes how far a shape is painted: all of it, or of a growing curve all but its end, which the next point bends.
function note(p, shape) {
  shape.paintedAs = kept.mark; shape.isTipped = false;
  if (shape.kind !== "pen") { shape.painted = 1; return; }
  shape.painted = Math.max(1, shape.points.length - 1);
  if (grows(p, shape)) growing.add(shape); else shape.isTipped = true;
}
// What it costs to paint something: its pixels, its points and its dashes.
const PIXELS = 300, DASH_COST = 3;
function costOf(shape) {
  const by = (scale * ratio) ** 2 / PIXELS, box = boxOf(shape), wide = box[2] - box[0], high = box[3] - box[1];
  if (shape.kind === "text" || shape.kind === "note") return 10 + shape.text.length + wide * high * by / 2;
  const around = shape.kind === "line" || shape.kind === "arrow" ? Math.hypot(wide, high) : 2 * (wide + high);
  return 5 + by * (around * shape.width + (isFilled(shape) ? wide * high : 0)) + dashesIn(shape, around);
}
const dashesIn = (shape, far) => shape.style.startsWith("d") ? DASH_COST * far / (dashOf(shape.width)[0] + dashOf(shape.width)[1]) : 0;
function partCost(shape, from, until) { const far = reach(pointsOf(shape), Math.max(0, from - 1), until); return 2 + until - from + (scale * ratio) ** 2 / PIXELS * (far + shape.width) * shape.width + dashesIn(shape, far); }
// Charges a source with what painting for it cost.
function due(member, cost) { charge(member, cost / budget * FRAME); }
// Paints as much of what waits as a frame bears.
function work(p) {
  let left = budget, done = 0;
  const c = keep.getContext("2d"), boxes = [];
  while (left > 0 && done < parts.length) { const part = parts[done], cost = paintSome(p, c, part, left); left -= cost; due(part.shape.source, cost); if (part.isDone) { done++; boxes.push(part.box); } }
  parts.splice(0, done);
  while (left > 0 && job && job.at < job.shapes.length) { const part = { shape: job.shapes[job.at], from: job.from }, cost = paintSome(p, c, part, left); left -= cost; for (const member of job.members) due(member, cost / job.members.length); job.from = part.isDone ? 0 : part.from; if (part.isDone) job.at++; }
  if (job && job.isShown) bring(EVERYTHING());
  if (job && job.at >= job.shapes.length) finish();
  // Each copy of `keep` behind a change of it costs as much as the whole window: so once a frame.
  painted++;
  if (job && !job.isShown) return;
  for (const shape of growing) if (!shape.isHidden) boxes.push(tipOf(shape));
  if (boxes.length) bring(pixelsOf(boxes.reduce(joined)));
  paintTips();
}
function finish() {
  if (job.boxes) { keep.getContext("2d").restore(); job.boxes.forEach(bring); }
  else { kept.isWhole = true; bring(EVERYTHING()); }
  job = null;
}
// Paints a shape, or so much of a curve as there is room for; returns what it cost.
function paintSome(p, c, part, room) {
  const { shape, from } = part;
  part.isDone = true;
  if (shape.isHidden) return 1;
  paintings++;
  if (shape.kind !== "pen") { paint(c, shape); note(p, shape); return costOf(shape); }
  const end = shape.points.length - (grows(p, shape) ? 2 : 1);
  let until = Math.min(end, from + PART - 1), cost = partCost(shape, from, until);
  while (until < end && cost < room) { const next = Math.min(end, until + PART); cost += partCost(shape, until + 1, next); until = next; }
  paint(c, shape, from, until);
  if (until < end) { part.isDone = false; part.from = until + 1; } else note(p, shape);
  return cost;
}
const tipOf = shape => shifted(grown(boxAround(pointsOf(shape).slice(-2)), shape.width / 2), offsetOf(shape));
function paintTips() {
  if (!growing.size) return;
  const c = base.getContext("2d");
  c.save(); onPaper(c); c.beginPath(); c.rect(0, 0, WIDE, HIGH); c.clip();
  for (const shape of growing) if (!shape.isHidden) paint(c, shape, Math.max(1, shape.points.length - 1));
  c.restore();
}
// A curve that is whole is painted in one go, so that no seam is left of its pieces.
let tipTimer = 0;
function settleTips(p) {
  for (const shape of growing) if (!job && !parts.length && !p.fresh.has(shape) && (shape.isHidden || !grows(p, shape))) { growing.delete(shape); shape.isTipped = true; if (!shape.isHidden) p.dirt.push({ box: boxOf(shape), member: shape.source }); }
  if (growing.size) { clearTimeout(tipTimer); tipTimer = setTimeout(wake, RIPE + 50); }
}

const calm = matchMedia("(prefers-reduced-motion: reduce)");
function frame(now) {
  isAwaited = false;
  // After a frame that took long the next one gets less to paint.
  if (wasBusy) budget = now - frameAt > 50 ? Math.max(4000, budget * .7) : now - frameAt < 25 ? Math.min(60000, budget * 1.3) : budget;
  frameAt = now;
  const p = page();
  $("hint").hidden = Boolean(!last || isOver || last.missing || cross || writing || shaping || pending.size || p && p.shown.length);
  if (p) paintBase(p); else if (kept.page) { base.width += 0; kept.page = null; }
  paintOver(p);
  tidyLater();
  const isBusy = Boolean(job || parts.length || p && (p.fresh.size || p.dirt.length));
  if (wasBusy && !isBusy) paintedAt = performance.now();
  wasBusy = isBusy;
  if (wasBusy) wake();
}


// What lies over the page: what is on its way, what is drawn, chosen and wiped now, the cross, and where drawings stop.
const LATE = 300;       // what hasn't come back for so long is shown paler
let overKey = "", overUpTo = 0, lateTimer = 0;
function paintOver(p) {
  const stopped = p ? [...new Set(holes.filter(hole => hole[1] === here).map(hole => hole[0]))] : [], key = `${stopped} ${wiping.size} ${cross}`;
  if (!overStale && key === overKey && shaping && shaping.kind === "pen" && overUpTo > 0) { overUpTo = paintEnd(shaping); return; }
  if (!overStale && key === overKey && !shaping && !(stopped.length && !calm.matches)) return;
  overStale = false; overKey = key; overUpTo = 0;
  const c = begun(over), given = givenLooks();
  for (const stroke of pending) if (stroke.page === here && !stroke.isBack) paintPending(c, stroke, given);
  if (shaping && shaping.page === here) { paint(c, shaping); overUpTo = shaping.points.length; }
  for (const member of stopped) paintStop(c, p.source(member).newest);
  if (wiping.size) for (const shape of wiping) paintFaded(c, shape);
  if (p && tool === "choose") paintChosen(c);
  if (cross) paintCross(c);
  showHandle();
}
function paintEnd(stroke) {
  const c = over.getContext("2d");
  if (stroke.points.length > overUpTo) paint(c, stroke, Math.max(1, overUpTo - 1));
  return stroke.points.length;
}
function paintPending(c, stroke, given) {
  const age = Date.now() - stroke.sentAt;
  if (age < LATE && !lateTimer) lateTimer = setTimeout(() => { lateTimer = 0; refresh(); }, LATE - age + 20);
  c.globalAlpha = age < LATE ? 1 : .4;
  if (stroke.kind === "drop") stroke.shapes.forEach(shape => paintFaded(c, shape));
  else if (stroke.kind === "place") paintPlaced(c, stroke.shapes, stroke.lookOf ? newestLooks(stroke.lookOf, given) : stroke.looks);
  else if (stroke.points && stroke.kind !== "more") paint(c, stroke);
  c.globalAlpha = 1;
}
// A shape that was given several looks is shown as the last one has it.
const newestLooks = (lookOf, given) => [...lookOf].filter(([shape, look]) => given.get(shape) === look).map(([, look]) => look);
function paintFaded(c, shape) {
  if (shape.isHidden || !shape.points && shape.kind !== "note") return;
  const alpha = c.globalAlpha;
  c.globalAlpha = .8;
  if (shape.kind === "note" || shape.kind === "text") { const box = boxOf(shape); c.fillStyle = "#fff"; c.fillRect(box[0], box[1], box[2] - box[0], box[3] - box[1]); }
  else paint(c, { ...shape, colour: "ffffff", width: shape.width + 6, style: isFilled(shape) ? "s" : "-" });
  c.globalAlpha = alpha;
}
// Shapes that are on their way to another place or look.
const MOST_LOOKS = 300;
function paintPlaced(c, shapes, looks) {
  shapes.forEach(shape => paintFaded(c, shape));
  if (looks.length <= MOST_LOOKS) for (const look of looks) if (look.points) paint(c, look);
}
// Where a drawing stops until what is missing comes.
function paintStop(c, shape) {
  const at = shape && shape.points && pointsOf(shape)[shape.points.length - 1];
  if (!at) return;
  const offset = offsetOf(shape);
  c.save(); c.strokeStyle = "#e03131"; c.lineWidth = 8; c.setLineDash([26, 20]);
  if (!calm.matches) { c.lineDashOffset = -Date.now() / 12; if (!lateTimer) lateTimer = setTimeout(() => { lateTimer = 0; refresh(); }, 60); }
  c.beginPath(); c.arc(at[0] + offset[0], at[1] + offset[1], 60, 0, 7); c.stroke(); c.restore();
}
function paintCross(c) {
  const [x, y] = cross, arm = 14 / scale;
  c.save(); c.strokeStyle = "#1864ab"; c.lineWidth = 2 / scale;
  c.beginPath(); c.moveTo(x - arm, y); c.lineTo(x + arm, y); c.moveTo(x, y - arm); c.lineTo(x, y + arm); c.stroke(); c.restore();
}
function paintChosen(c) {
  const px = 1 / scale, all = alive();
  c.save(); c.strokeStyle = "#1864ab"; c.lineWidth = 1.5 * px;
  if (dragging && (dragging.by[0] || dragging.by[1])) { paintDragged(c, all); c.strokeStyle = "#1864ab"; c.lineWidth = 1.5 * px; }
  const boxes = all.map(shape => shifted(grown(boxOf(shape), 5 * px), dragging && !dragging.grip ? dragging.by : [0, 0]));
  if (boxes.length > 1) { c.setLineDash([4 * px, 4 * px]); c.globalAlpha = .6; for (const box of boxes.slice(0, 400)) c.strokeRect(box[0], box[1], box[2] - box[0], box[3] - box[1]); c.globalAlpha = 1; c.setLineDash([]); }
  if (boxes.length) paintGrips(c, dragging && dragging.grip ? grown(draggedBox(dragging), 8 * px) : grown(boxes.reduce(joined), 3 * px), px);
  if (lasso) { const [x, y, wide, high] = rectOf(lasso); c.fillStyle = "#1864ab1c"; c.fillRect(x, y, wide, high); c.lineWidth = px; c.strokeRect(x, y, wide, high); }
  c.restore();
}
function paintGrips(c, box, px) {
  c.strokeRect(box[0], box[1], box[2] - box[0], box[3] - box[1]);
  if (alive().every(shape => shape.kind === "note")) return;
  c.fillStyle = "#ffffff";
  for (const [x, y] of gripPlaces(box)) { c.beginPath(); c.rect(x - GRIP / 2 * px, y - GRIP / 2 * px, GRIP * px, GRIP * px); c.fill(); c.stroke(); }
}
// What is chosen as the drag would leave it: sized shapes as their boxes are.
function paintDragged(c, all) {
  const those = all.filter(shape => shape.kind !== "note").slice(0, MOST_LOOKS);
  those.forEach(shape => paintFaded(c, shape));
  if (!dragging.grip) { for (const shape of those) paint(c, { ...shape, lies: null, moved: [offsetOf(shape)[0] + dragging.by[0], offsetOf(shape)[1] + dragging.by[1]] }); return; }
  const to = draggedBox(dragging), from = dragging.box, rate = [0, 1].map(i => (to[i + 2] - to[i]) / Math.max(1, from[i + 2] - from[i]));
  for (const shape of those) { c.save(); c.translate(to[0] - from[0] * rate[0], to[1] - from[1] * rate[1]); c.scale(rate[0], rate[1]); paint(c, shape); c.restore(); }
}

// Tools.
const ICONS = {
  choose: ["Select (V)", "M6 3l12 9-5.2 1.2L16 20l-2.6 1.1-3-6.7L6 18z"], pen: ["Pen (P)", "M4 20l1-4L16 5l3 3L8 19z M14 7l3 3"], line: ["Line (L)", "M5 19L19 5"], arrow: ["Arrow (A)", "M5 19L19 5 M11 5h8v8"],
  rect: ["Rectangle (R)", "M4 6h16v12H4z"], oval: ["Ellipse (O)", "M3 12a9 6.5 0 1 0 18 0a9 6.5 0 1 0-18 0"],
  text: ["Text (T)", "M6 6V5h12v1 M12 5v14 M9.5 19h5"], wipe: ["Eraser (E)", "M8 19l-4-4a1.5 1.5 0 0 1 0-2l8-8a1.5 1.5 0 0 1 2 0l5 5a1.5 1.5 0 0 1 0 2l-7 7z M9 9l6.5 6.5 M8 19h12"] };
// All are darker than any member's own colour.
const COLOURS = { "-": "Your own colour", "1e1e24": "Black", "9b1c1c": "Red", "6b4e00": "Brown", "0b4f1f": "Green", "153a8a": "Blue", "561b8a": "Violet" };
const WIDTHS = { 6: "Thin", 12: "Middle", 28: "Thick" }, SIZES = { 6: 60, 12: 90, 28: 150 };
const FILLS = { "": ["No filling", "M5 6h14v12H5z"], f: ["Filled lightly", "M5 6h14v12H5z M5 12l6-6 M5 18L17 6 M11 18l8-8"], s: ["Filled", "M5 6h14v12H5z M6 8h12 M6 10h12 M6 12h12 M6 14h12 M6 16h12"] };
let { tool = "pen", colour = "-", width = 12, isDashed = false, fill = "" } = stored(ALL, "ink", {});
if (!Object.hasOwn(ICONS, tool)) tool = "pen";
if (!Object.hasOwn(COLOURS, colour)) colour = "-";
if (!Object.hasOwn(WIDTHS, width)) width = 12;
if (!Object.hasOwn(FILLS, fill)) fill = "";
function setTool(name) { paper.style.cursor = ""; if (name !== "choose") choose([]); if (tool === "text" && name !== "text") endWords(); tool = name; showTools(); }
function setColour(dye) { colour = dye; placeWords(); restyle(() => ({ colour: dye === "-" ? dyeOf(me).slice(1) : dye })); }
function setWidth(broad) { width = broad; placeWords(); restyle(shape => ({ width: shape.kind === "text" ? SIZES[broad] : broad })); }
const styled = (kind, dash, filling) => kind === "text" || kind === "note" ? undefined : (dash ? "d" : "") + (kind === "rect" || kind === "oval" ? filling : "") || "-";
const fillingOf = shape => /[fs]$/.test(shape.style) ? shape.style.slice(-1) : "";
function setDash() { isDashed = !isDashed; restyle(shape => ({ style: styled(shape.kind, isDashed, fillingOf(shape)) })); }
function setFill() { const fills = Object.keys(FILLS); fill = fills[(fills.indexOf(fill) + 1) % fills.length]; restyle(shape => ({ style: styled(shape.kind, /^d/.test(shape.style), fill) })); }
function choice(id, isOn, does, title, className, ...kids) {
  const button = made("button", { id, className, title, onclick: () => { does(); showTools(); } }, ...kids);
  button.setAttribute("aria-pressed", isOn);
  button.setAttribute("aria-label", title);
  return button;
}
function icon(path) {
  const svg = document.createElementNS("http://www.w3.org/2000/svg", "svg"), line = document.createElementNS("http://www.w3.org/2000/svg", "path");
  svg.setAttribute("viewBox", "0 0 24 24"); svg.setAttribute("aria-hidden", "true"); line.setAttribute("d", path); svg.append(line);
  return svg;
}
function dyeButton(dye, title, i) {
  const button = choice("dye-" + dye, colour === dye, () => setColour(dye), `${title} (${i + 1})`, "dye", made("i"));
  button.style.setProperty("--c", seen(dye === "-" ? dyeOf(me) : "#" + dye));
  return button;
}
function widthButton([broad, title]) {
  const button = choice("width-" + broad, width === Number(broad), () => setWidth(Number(broad)), title + " ([ and ])", "thick", made("i"));
  button.style.setProperty("--w", 3 + broad / 2.4 + "px");
  return button;
}
function showTools() {
  const bar = $("tools"), focused = document.activeElement && document.activeElement.id;
  const kinds = Object.entries(ICONS).map(([name, [title, path]]) => choice("tool-" + name, tool === name, () => setTool(name), title, "tool", icon(path)));
  const dyes = Object.entries(COLOURS).map(([dye, title], i) => dyeButton(dye, title, i));
  const styles = [choice("dashed", isDashed, setDash, "Dashed (S)", "tool", icon("M3 12h4 M10 12h4 M17 12h4")), choice("fill", fill !== "", setFill, `${FILLS[fill][0]} (F)`, "tool", icon(FILLS[fill][1]))];
  bar.replaceChildren(made("div", { className: "row" }, ...kinds), made("span", { className: "gap" }), made("div", { className: "row looks" }, made("div", { className: "row" }, ...dyes), made("span", { className: "gap" }), made("div", { className: "row" }, ...Object.entries(WIDTHS).map(widthButton), made("span", { className: "gap" }), ...styles)));
  if (focused && bar.querySelector("#" + CSS.escape(focused))) $(focused).focus();
  paper.className = isOver ? "still" : ["wipe", "text", "choose"].includes(tool) ? tool : "";
  keepStored(ALL, "ink", { tool, colour, width, isDashed, fill });
}


// Pages and people.
// Whether what is to stand at a node is new: what stands there already is left, as somebody may be about to click it.
function isNew(node, ...what) { const text = JSON.stringify(what); if (node.dataset.what === text) return false; node.dataset.what = text; return true; }
const MOST_PAGES = 8;
let entitling = false;
function showPages() {
  const bar = $("pages"), holed = new Set(holes.map(hole => hole[1])), all = order();
  if (entitling || !isNew(bar, here, isOver, all.map(p => [p.name, titleOf(p), p.isFresh, holed.has(p.name)]))) return;
  const tabs = all.map(p => {
    const isFresh = p.isFresh && p.name !== here, isHoled = holed.has(p.name), [creator, number] = p.name.split(".");
    const button = made("button", { className: "tab" + (isFresh ? " new" : "") + (isHoled ? " hole" : ""), title: `Page ${p.name}: number ${number} of ${nameOf(Number(creator))}. Click twice to name it`, onclick: () => turnTo(p.name), ondblclick: () => entitle() }, made("bdi", { textContent: titleOf(p) }));
    button.setAttribute("aria-label", titleOf(p) + (isFresh ? ", with something new" : "") + (isHoled ? ", with something missing" : ""));
    if (p.name === here) button.setAttribute("aria-current", "true");
    return button;
  });
  if (all.length < MOST_PAGES && !isOver) { const more = made("button", { className: "tab", id: "more", textContent: "+", title: "A new page", onclick: newPage }); more.setAttribute("aria-label", "A new page"); tabs.push(more); }
  bar.replaceChildren(...tabs);
  const current = bar.querySelector("[aria-current]");
  if (current) current.scrollIntoView({ block: "nearest", inline: "nearest" });
}
function turnTo(name) { endWords(); choose([]); here = name; keepStored(TAB, "here", here); const p = page(); if (p) p.isFresh = false; refresh(); showPages(); showPeople(); showPast(); label(); }
function turnBy(step) { const names = order().map(p => p.name), to = names[names.indexOf(here) + step]; if (to) turnTo(to); }
// The name of a new page: behind all others, and so that two tabs of a member who begin one at once hardly choose the same.
const APART_BY = 1000;
function freeName() { return `${me}.${1 + Math.max(...[...pages.keys()].map(name => Number(name.split(".")[1]))) + Math.floor(Math.random() * APART_BY)}`; }
function newPage() {
  const name = freeName();
  pages.set(name, madePage(name, null));
  turnTo(name);
  toast("A new page: it is there for all once you draw on it or name it");
  return name;
}
// Names the page that is shown.
function entitle() {
  const button = $("pages").querySelector("[aria-current]"), p = page();
  if (entitling || isOver || !button || !p) return;
  entitling = true;
  const input = field("The name of this page", p.title || "", title => {
    entitling = false; $("pages").dataset.what = "";
    const stroke = { kind: "page", version: Math.min(GREATEST_NUMBER, (p.newestTitle() || { version: 0 }).version + 1), title };
    if (title && title !== p.title && strokeIn(bodyOf(stroke))) give(stroke, p.name);
    showPages(); paper.focus();
  });
  button.replaceWith(input); input.focus(); input.select();
}
// A field for a name: Enter and leaving it keep the name, Escape doesn't.
function field(title, value, then) {
  const input = made("input", { maxLength: LONGEST_NAME, value });
  let isDone = false;
  const end = isKept => { if (isDone) return; isDone = true; then(isKept ? input.value.trim() : null); };
  input.setAttribute("aria-label", title);
  input.addEventListener("keydown", e => { e.stopPropagation(); if (e.key === "Enter") end(true); if (e.key === "Escape") end(false); });
  input.addEventListener("blur", () => end(true));
  return input;
}
function label() {
  const p = page(), count = p ? shapesOf(p).length : 0;
  const text = `${p ? titleOf(p) : "Page"}: ${count} ${count === 1 ? "shape" : "shapes"}. Arrow keys move the cross, Enter puts the pen down and lifts it.`;
  if (paper.getAttribute("aria-label") !== text) paper.setAttribute("aria-label", text);
}

const CELLS = 23;       // of each member the last drawops on this page, at most
function cellsOf(member) {
  const p = page(), one = p && p.sources.get(member), taken = one ? one.taken : 0;
  const gaps = new Set(holes.filter(hole => hole[0] === member && hole[1] === here).map(hole => hole[2]));
  const reach = Math.max(taken, ...gaps, ...reaches.filter(far => far[0] === member && far[1] === here).map(far => far[2])), count = Math.min(reach, CELLS);
  return Array.from({ length: count }, (_, i) => {
    const number = reach - count + 1 + i, key = keyOf(member, here, number), times = asked.get(key) || 0;
    if (gaps.has(number)) return ["hole", `${number} is missing` + (times ? `, asked for ${times} times` : "")];
    if (number > taken) return ["waits", `${number} is here and waits for one before it`];
    return mended.has(key) ? ["mended", `${number} was missing and came from ${nameOf(mended.get(key))}`] : ["", `${number}`];
  });
}
function stripOf(cells) {
  const strip = made("div", { className: "strip" }, ...cells.map(([className, title]) => made("i", { className, title })));
  const count = kind => cells.filter(cell => cell[0] === kind).length;
  strip.setAttribute("role", "img");
  strip.setAttribute("aria-label", `${count("") + count("mended")} held, ${count("mended")} of them repaired, ${count("waits")} waiting, ${count("hole")} missing`);
  return strip;
}
const lateAfter = () => Math.max(6, 2 * members) * 1000;
function stateOf(member, now) {
  const quiet = now - (heardAt[member] || 0);
  if (member === me) return isOver ? "left" : "you";
  if (left.has(member)) return "left";
  return !heard[member] ? "not heard yet" : quiet < lateAfter() ? "here" : `quiet ${quiet < 60000 ? Math.floor(quiet / 5000) * 5 + " s" : Math.floor(quiet / 60000) + " min"}`;
}
// Hides here all that a member drew, dropped, moved, raised and named, or shows it.
function mute(member) {
  if (!muted.delete(member)) muted.add(member);
  keepStored(TAB, "muted", [...muted]);
  for (const p of pages.values()) { p.mute(member, muted.has(member)); p.run(member); }
  say(`${nameOf(member)} is ${muted.has(member) ? "hidden from you alone" : "shown again"}`);
  wake(); showPanels();
}
function muteButton(member) {
  const isMuted = muted.has(member), button = made("button", { className: "mute", textContent: isMuted ? "unmute" : "mute", title: isMuted ? "Show what this member drew" : "Hide what this member drew, here alone", onclick: () => mute(member) });
  button.setAttribute("aria-pressed", isMuted);
  button.setAttribute("aria-label", `${isMuted ? "Show" : "Hide"} what ${nameOf(member)} drew`);
  return button;
}
let renaming = false;
function showPeople() {
  const box = $("list"), now = Date.now();
  while (box.children.length > members) box.lastChild.remove();
  for (let member = 0; member < members; member++) {
    const before = box.children[member] || box.appendChild(made("li", {})), state = stateOf(member, now), isHere = state === "you" || state === "here";
    if (member !== me && isHere !== present.has(member)) { if (isHere) present.add(member); else present.delete(member); say(`${nameOf(member)} is ${isHere ? "here" : state}`); }
    if (!isMembered || member === me && renaming) continue;
    const cells = cellsOf(member);
    if (!isNew(before, state, here, nameOf(member), cells, isDark, muted.has(member))) continue;
    const name = made("bdi", { textContent: nameOf(member), title: `Member ${member}` });
    const line = made("div", { className: "line" }, made("span", { className: "dot" }), name);
    if (nameOf(member) === ownNameOf(member) && ownNameOf(member) !== `Member ${member}`) line.append(made("span", { className: "number", textContent: member, title: `Member ${member}` }));
    if (member === me && !isOver) line.append(made("button", { id: "rename", textContent: "rename", title: "Your name (N)", onclick: rename }));
    line.append(made("span", { className: "state", textContent: state }));
    if (member !== me) line.append(muteButton(member));
    const row = made("li", { className: "who " + (state === "left" ? "left" : isHere ? "here" : "away") }, line);
    row.style.setProperty("--c", seen(dyeOf(member)));
    if (cells.length) row.append(stripOf(cells));
    row.dataset.what = before.dataset.what;
    before.replaceWith(row);
  }
}
function rename() {
  if (!isMembered) showMembers(true);
  const row = $("list").children[me], name = row && row.querySelector("bdi");
  if (!name || renaming || isOver) return;
  renaming = true;
  const first = pages.get("0.0"), one = first && first.sources.get(me);
  const input = field("Your name", one && one.name || "", text => {
    renaming = false;
    const body = bodyOf({ kind: "name", name: text });
    if (text && strokeIn(body)) give({ kind: "name", name: text }, "0.0");
    else if (text) toast("A name needs a sign that is seen");
    delete row.dataset.what;
    showPeople(); paper.focus();
  });
  name.replaceWith(input);
  if ($("rename")) $("rename").remove();
  input.focus();
}
function news(...parts) {
  $("news").prepend(made("li", {}, ...parts.map((part, i) => i % 2 ? made("b", { textContent: part }) : part)));
  while ($("news").children.length > 6) $("news").lastChild.remove();
}
function showCounts() {
  if (!isMembered) return;
  const { sent, came, requests, repairs, dropped } = last.counts;
  if (!isNew($("counts"), last.counts, last.missing, last.more)) return;
  const missing = last.missing ? made("b", { textContent: `missing ${last.missing}` + (last.more ? " and more" : "") }) : "missing 0";
  $("counts").replaceChildren(`sent ${sent} · came ${came} · asked ${requests} · repaired ${repairs} · `, missing, dropped ? ` · dropped ${dropped}` : "");
}
let toastTimer = 0, saidAt = 0;
function toast(text) { $("toast").textContent = text; $("toast").className = "on"; clearTimeout(toastTimer); toastTimer = setTimeout(() => { $("toast").className = ""; }, 4000); }
function veil(text) { if ($("veil").textContent === text) return; $("veil").textContent = text; $("veil").className = text ? "on" : ""; }
function say(text) { const now = Date.now(); $("said").textContent = now - saidAt < 1000 ? `${$("said").textContent}. ${text}` : text; saidAt = now; }


// How it stands: always seen, at any width.
const CUT_OFF = 5000, BRIEF = 1000;     // what mends sooner isn't told
const TIDIED = 20000;                   // what is hidden for so long keeps little room
let missingSince = 0, answeredAt = Date.now(), quietSince = Date.now(), failed = 0, wasAt = "";
const counted = (count, one, many) => `${count.toLocaleString("en")} ${count === 1 ? one : many}`;

// How many drawops this member knows of, which never become fewer, and how many of them are drawn here.
let known = 0;
function progress() {
  const reach = new Map(), waiting = new Map();
  for (const [source, name, number] of [...holes, ...reaches]) { const key = `${source} ${name}`; reach.set(key, Math.max(reach.get(key) || 0, number)); }
  for (const [member, bodies] of inbox) for (const [p] of bodies) { const key = `${member} ${p.name}`; waiting.set(key, (waiting.get(key) || 0) + 1); }
  let have = 0, all = 0;
  for (const p of pages.values()) for (const [source, one] of p.sources) {
    const key = `${source} ${p.name}`, got = one.taken + (waiting.get(key) || 0);
    have += one.taken; all += Math.max(got, reach.get(key) || 0);
    reach.delete(key); waiting.delete(key);
  }
  for (const number of [...reach.values(), ...waiting.values()]) all += number;
  // The member tells some of the missing names, and how many they are.
  known = Math.max(known, all, have + last.missing);
  return { have, all: known };
}
const others = () => Array.from({ length: members }, (_, i) => i).filter(i => i !== me && !left.has(i));
// How long nobody was heard, or null where nobody was ever heard, or nobody is left to be.
function quietFor(now) {
  const those = others().filter(i => heard[i]);
  return those.length ? Math.min(...those.map(i => now - (heardAt[i] || quietSince))) : null;
}
function unsentAt(now) {
  const waits = [...pending].filter(stroke => now - stroke.sentAt > BRIEF);
  return waits.length ? `${counted(waits.length, "step", "steps")} not sent yet` : "";
}
function standing(now = Date.now()) {
  if (isOver) return ["off", "You have left"];
  const unsent = unsentAt(now), silent = now - answeredAt;
  if (!last) return silent > 1500 ? ["bad", "Your member doesn't answer"] : ["wait", "Connecting"];
  if (failed > 1 || silent > CUT_OFF) return ["bad", `Your member doesn't answer for ${Math.round(silent / 1000)} s: what you draw waits here` + (unsent ? `, ${unsent}` : "")];
  if (last.stale) return ["bad", "Started anew as a member who drew before: the others don't get what you draw"];
  const quiet = quietFor(now);
  if (quiet !== null && quiet > CUT_OFF) return ["bad", `Cut off: nobody heard for ${Math.round(quiet / 1000)} s. What you draw goes out once they are heard`];
  if (opening) return ["wait", `Opening: ${(opening.count - openingLeft()).toLocaleString("en")} of ${opening.count.toLocaleString("en")} drawn`];
  const { have, all } = progress();
  if (all - have > 20) return ["wait", `Behind: ${have.toLocaleString("en")} of ${all.toLocaleString("en")}${last.more ? " or more" : ""} drawn`];
  if (unsent) return ["wait", unsent];
  if (last.missing && now - missingSince > 2 * BRIEF) return ["wait", `${last.missing} missing, asked for`];
  const those = others(), here = those.filter(i => stateOf(i, now) === "here").length;
  if (those.length && !those.some(i => heard[i])) return ["wait", "Alone so far: nobody else is heard yet"];
  return ["good", those.length ? `${here + 1} of ${those.length + 1} here` : members === 1 ? "Only you" : "Only you: the others have left"];
}
function showState() {
  const [kind, text] = standing();
  if (!isNew($("state"), kind, text)) return;
  $("state").className = "panel " + kind; $("state-text").textContent = text; $("state").title = text;
  if (kind === "bad" && wasAt !== "bad") say(text); else if (kind === "good" && wasAt === "bad") say("Connected again");
  wasAt = kind;
}

// One timer, for the next moment at which how it stands changes though nothing comes: while all is well each answer sets it anew, and it never fires.
let watchTimer = 0;
function watch() {
  clearTimeout(watchTimer);
  if (document.hidden || isOver) return;
  showState();
  const now = Date.now(), quiet = quietFor(now), silent = now - answeredAt, moments = [answeredAt + (last ? CUT_OFF : 1500) + 50];
  // Seconds are counted.
  if (silent > CUT_OFF || failed > 1 || quiet > CUT_OFF) moments.push(now + 1000);
  if (quiet !== null) moments.push(now + Math.max(0, CUT_OFF - quiet) + 50);
  if (last && last.missing) moments.push(missingSince + 2 * BRIEF + 50);
  if (pending.size) moments.push(now + BRIEF + 50);
  for (const member of others()) if (heard[member]) moments.push(heardAt[member] + lateAfter() + 50);
  const soonest = Math.min(...moments.filter(moment => moment > now));
  if (soonest < Infinity) watchTimer = setTimeout(() => { watch(); if (last) showPeople(); }, Math.max(50, soonest - now));
}
document.addEventListener("visibilitychange", watch);

// What was hidden is kept in little room once it stayed so for a while.
let tidyTimer = 0;
function tidyLater() {
  if (tidyTimer || ![...pages.values()].some(p => p.loose.size)) return;
  tidyTimer = setTimeout(tidyUp, TIDIED);
}
const TIDIED_AT_ONCE = 200;
function tidyUp() {
  tidyTimer = 0;
  for (const p of pages.values()) { p.tidy(TIDIED_AT_ONCE); if (p.loose.size) { tidyTimer = setTimeout(tidyUp, 40); return; } }
}

// How the window and the member speak: by a WebSocket, by which the member tells what is new, and takes what is drawn here. The window numbers what it draws, and the
// member knows it by its own number, so that nothing is drawn twice or left out where the connection is renewed.
const PATIENCE = 4000;  // the member says something each half second: so long after the last word it is given up, and twice as long each time that none came
const LONGEST_WAIT = 60000;
let line = null, hangUp = () => { }, asking = null, isGreeted = false, patienceTimer = 0;
// A window that isn't seen isn't told, unless something that was drawn here is on its way.
const isIdle = () => document.hidden && !queue.length && !asking;
const isSeen = () => new Promise(done => document.addEventListener("visibilitychange", done, { once: true }));
async function listen() {
  while (!isOver) {
    if (isIdle()) { await isSeen(); answeredAt = Date.now(); continue; }
    await hold();
    if (isOver || isIdle()) continue;
    failed++; watch();
    if (failed > 1 || isLeaving) await explain();
    await pause(Math.min(2000, 200 * failed));
  }
}
// Opens a WebSocket, and resolves once it is closed.
function hold() {
  return new Promise(done => {
    const address = new URL(`live?from=${from}&seen=${happened}&tab=${tabNumber}`, location.href);
    address.protocol = address.protocol.replace("http", "ws");
    const it = line = new WebSocket(address);
    hangUp = () => {
      if (line !== it) return;
      line = null; isGreeted = false; clearTimeout(patienceTimer); it.close();
      if (asking) asking.fail(new Error("cut off"));
      asking = null; done();
    };
    it.onmessage = event => { if (line === it) hear(JSON.parse(event.data)); };
    it.onclose = it.onerror = () => { if (line === it) hangUp(); };
    bePatient();
  });
}
function bePatient() {
  clearTimeout(patienceTimer);
  patienceTimer = setTimeout(() => hangUp(), Math.min(LONGEST_WAIT, PATIENCE * 2 ** failed));
}
document.addEventListener("visibilitychange", () => { if (line && isIdle()) hangUp(); });
function hear(told) {
  answeredAt = Date.now();
  if (failed) { failed = 0; veil(""); }
  bePatient();
  // What goes wrong in here is the page's own fault: it is no reason to ask again.
  try { if ("took" in told) hearTook(told); else apply(told); } catch (e) { console.error(e.stack); }
  if (isIdle()) hangUp();
}
// What the member says first, and then of each text that was drawn: up to which number all is settled.
function hearTook(told) {
  if (told.run !== undefined) {
    if (run !== null && told.run !== run) { reset(); settled = 0; hangUp(); return; }
    if (run === null) recall(told.run, told.took);
    isGreeted = true;
  }
  if (told.end === "ahead") { hangUp(); return; }
  if (told.end === "bad") refuse(queue[told.took - settled - 1], "the member takes no such line");
  settleTo(told.took);
  if (told.end === "over") { toast("Not drawn: the member has left"); for (const key of queue.splice(0)) awaited.delete(key); pending.clear(); refresh(); }
  if (asking && told.run === undefined) { asking.done(); asking = null; }
  pump();
}
// A WebSocket doesn't say why it can't be opened.
async function explain() {
  try {
    const answer = await fetch(`told?from=${from}&seen=${happened}`, { headers: MARK, cache: "no-store", signal: AbortSignal.timeout(PATIENCE) });
    if (answer.status === 404) veil("The member was started anew, and its page has another address: its terminal names it");
  } catch (e) {"##;

const PART_4: &str = r##"
    // A member that was told to leave may be gone before it says so to this window: then nothing listens there any more.
    if (isLeaving && e instanceof TypeError) end();
  }
}

const POSTED = 60000, LITTLE = 4000;    // bodies go to the member in texts of so many bytes at most; while it is full, of fewer
// Hands lines to the member, the first under the next number. Resolves once the member says how many are settled, and fails where the connection ends before.
function post(lines) {
  return new Promise((done, fail) => {
    if (!line || !isGreeted) { fail(new Error("cut off")); return; }
    asking = { done, fail };
    line.send([settled + 1, ...lines].join("\n"));
  });
}
let isLeaving = false;  // the member was told so by this window
async function sayLeave() {
  for (let tries = 0; !isLeaving && tries < 5; tries++) {
    try { isLeaving = (await fetch("leave", { method: "POST", headers: MARK })).ok; } catch (e) { await pause(300); }
  }
  if (!isLeaving) toast("Your member doesn't answer: it may not have left");
}

// What comes from the member: messages of its workers, and what befell it.
const WHY = { 1: "the member is leaving", 2: "the member has left", 3: "all eight pages are taken", 4: "you have drawn as much on this page as a page holds: begin a new page", 5: "the stroke is too long", 6: "memory ran out" };
// The member was started anew, at the same address: what the earlier run didn't take is drawn by this one.
function reset() {
  unsent.push(...queue.map(line => ({ line, isNumbered: false, isBack: false })));
  for (const one of unsent) one.isNumbered = false;
  from = happened = 0; run = null; pages = new Map(); slots = []; holes = []; reaches = []; asked = new Map(); mended = new Map(); left = new Set(); present = new Set(); heard = []; heardAt = []; quietSince = Date.now(); known = 0;
  kept.page = null; last = null; opening = null; pending.clear(); awaited.clear(); queue.length = 0; pasts.clear(); chosen.clear(); inbox.clear(); accounts.clear(); refresh();
}
// The session has ended for this member.
function end() {
  if (isOver) return;
  isOver = true; veil("You have left the session. The drawing stays here until you close it."); showTools(); refresh();
  if (last) showPanels(); else showState();
}
function begin(told) {
  run = told.run; me = told.me; members = told.members; called = told.names || []; quietSince = Date.now(); isLoading = true; beganAt = performance.now();
  $("session").textContent = `session ${told.session}`;
  document.title = `Ringyew ${told.session}: ${called[me] || `member ${me}`}`;
  showTools();
}
function takeMessage([word, slot, ...rest]) {
  if (word === "open") {
    if (pages.has(rest[0]) && !pages.get(rest[0]).isGiven && pages.get(rest[0]).slot === null) giveWay(rest[0]);
    const p = pages.get(rest[0]) || madePage(rest[0], slot);
    p.slot = slot; slots[slot] = p; pages.set(p.name, p);
    if (p.name !== here && !isLoading) { p.isFresh = true; say(`${titleOf(p)} is new`); }
  } else if (word === "draw" && slots[slot]) receive(slots[slot], ...rest);
  else if (word === "left") left.add(rest[0]);
}
// The next body of a source, on a page.
function takeBody(p, member, number, latin) {
  const said = p.take(member, number, latin);
  if (p.name !== here && !muted.has(member) && !isLoading) p.isFresh = true;
  if (member === me) { if (!settle(p.name, textOf(latin))) { pastOf(p.name, said.id).note(said); resumed(p.name, latin); } }
  else if (p.name === here) tellDrawing(member);
}
// Another tab of this member was the first to draw on a page that this one began too: so this one's is the next.
function giveWay(name) {
  const p = pages.get(name);
  p.name = freeName();
  pages.delete(name); pages.set(p.name, p);
  if (here === name) { here = p.name; keepStored(TAB, "here", here); if (shaping) shaping.page = here; if (writing) writing.page = here; }
}
function takeHappening([word, ...what]) {
  if (word === "refused") { takeRefusal(...what); return; }
  const key = keyOf(what[0], what[1], what[2]), name = `${what[2]} of ${nameOf(what[0])}`;
  if (word === "miss") news("missing ", name);
  else if (word === "ask") { asked.set(key, (asked.get(key) || 0) + 1); forgetOld(asked); news("asked for ", name); }
  else if (word === "gain") { mended.set(key, what[3]); forgetOld(mended); news("got ", name, ` from ${nameOf(what[3])}`); }
  else if (word === "fix") news("repaired ", name);
}
// What befell names long ago isn't kept.
const REMEMBERED = 5000;
function forgetOld(map) { if (map.size > REMEMBERED) map.delete(map.keys().next().value); }
function takeRefusal(name, why, latin) {
  const stroke = settle(name, textOf(latin));
  if (stroke && stroke.id) pastOf(name, stroke.id).forget(stroke.id);
  toast("Not drawn: " + (WHY[why] || "refused"));
}
// Whether something other than the counts has changed, which move as members say that they are there.
function isChanged(told, before) { return !before || told.taken.length || told.happenings.length || told.missing !== before.missing || told.ended !== before.ended || told.stale !== before.stale || told.lossy !== before.lossy; }
function apply(told) {
  const before = last, missed = before ? before.missing : 0, isNews = isChanged(told, before);
  if (run === null) begin(told);
  from += told.taken.length; happened = told.happened; last = told; holes = told.holes; reaches = told.reaches;
  told.heard.forEach((count, member) => { if (count !== heard[member]) { heard[member] = count; heardAt[member] = Date.now(); } });
  told.taken.forEach(takeMessage);
  told.happenings.forEach(takeHappening);
  if (isLoading && (told.taken.length < FEW || performance.now() - beganAt > LOADING)) { drainAll(); isLoading = false; resume(); }
  if (missed === 0 && told.missing > 0) { missingSince = Date.now(); say(`${told.missing} missing`); }
  if (missed > 0 && told.missing === 0) say("all is here again");
  if (told.lossy) veil("Memory ran out: the board isn't whole. Reload once there is some.");
  else if (told.stale) veil("Others hold strokes of this member from an earlier run, which it has lost: what it draws now doesn't reach them. Start it at an address that no member used.");
  if (told.ended) end();
  if (told.taken.length) drain();
  if (told.taken.length || holes.length || missed) wake();
  // A page that nobody drew on went with the reload.
  if (!pages.has(here) && pages.size && !isLoading) turnTo(order()[0].name);
  if (isNews) showSoon(told.ended || !before ? 0 : 200); else { showPeople(); showCounts(); }
  watch();
}
// All that came while the page loads: the frames paint it in slices.
function drainAll() { while (inbox.size) for (const member of [...inbox.keys()]) serve(member, performance.now() + 1000); }

// The panels follow a few times a second: what is drawn doesn't wait for them.
let panelTimer = 0;
function showSoon(ms) { if (!panelTimer) panelTimer = setTimeout(showPanels, ms); }
function showPanels() { panelTimer = 0; showPages(); showPeople(); showCounts(); showPast(); showState(); label(); }

// Who draws here now, for who doesn't see it: each at most each so many ms.
const TOLD_AGAIN = 15000;
const toldAt = new Map();
function tellDrawing(member) {
  const now = Date.now();
  if (isLoading || muted.has(member) || now - (toldAt.get(member) || 0) < TOLD_AGAIN) return;
  toldAt.set(member, now);
  say(`${nameOf(member)} draws`);
}

// What bodies do is done in slices, and each source has an account of the page's time: a source that floods waits, and nobody else. What this member drew itself,
// and all while the page loads, is charged to nobody.
const SHARE = .06;      // so much of the page's time each source may take for long
const BURST = 400;      // and so many ms at once: what an honest member draws costs less
const SLICE_TIME = 6;   // so many ms of work are done at once
const LOADING = 20000;  // a page loads so many ms at most
const FEW = 50;         // an answer with fewer drawops is the last of those that load
const accounts = new Map(), inbox = new Map();
let drainTimer = 0, isDraining = false;

function accountOf(member) {
  const now = performance.now(), account = accounts.get(member) || { left: BURST, at: now };
  account.left = Math.min(BURST, account.left + (now - account.at) * SHARE);
  account.at = now;
  accounts.set(member, account);
  return account;
}
const isFree = member => member === me || isLoading;
function charge(member, ms) { if (member !== null && !isFree(member)) accountOf(member).left -= ms; }
// In how many ms a source may go on.
const waitOf = member => isFree(member) ? 0 : Math.max(0, -accountOf(member).left / SHARE);

function receive(p, member, number, latin) {
  if (!inbox.has(member)) inbox.set(member, []);
  inbox.get(member).push([p, number, latin]);
}
// Who has something to be done: bodies, or work of bodies that were taken.
function busyMembers() {
  const all = new Set(inbox.keys());
  for (const p of pages.values()) for (const member of p.works.keys()) all.add(member);
  return all;
}
const tasks = new MessageChannel();
tasks.port1.onmessage = () => { isDraining = false; drain(); };
// Goes on once what else waits for the window had its turn.
function drainLater() { if (!isDraining) { isDraining = true; tasks.port2.postMessage(0); } }
function drain() {
  const busy = [...busyMembers()].sort((a, b) => (b === me) - (a === me)), each = (isLoading ? 4 : 1) * SLICE_TIME / Math.max(1, busy.length);
  let soonest = Infinity, isMore = false;
  // Each has its part of the slice, and this member is first.
  for (const member of busy) {
    const wait = waitOf(member);
    if (wait > 0) soonest = Math.min(soonest, wait);
    else if (serve(member, performance.now() + each)) isMore = true;
  }
  if (isMore) drainLater();
  else if (soonest < Infinity) { clearTimeout(drainTimer); drainTimer = setTimeout(drain, Math.max(10, soonest)); }
  wake();
}
// Does what a member waits for, until a moment, or its account is empty. Returns whether something is left.
function serve(member, end) {
  const began = performance.now(), most = isFree(member) ? Infinity : accountOf(member).left, bodies = inbox.get(member) || [];
  const isTime = () => { const now = performance.now(); return now >= end || now - began > most; };
  let done = 0;
  for (const p of pages.values()) if (p.hasWork(member)) p.run(member, isTime);
  while (done < bodies.length && !isTime()) {
    const [p, number, latin] = bodies[done++];
    takeBody(p, member, number, latin);
    if (p.hasWork(member)) p.run(member, isTime);
  }
  if (done === bodies.length) inbox.delete(member); else bodies.splice(0, done);
  charge(member, performance.now() - began);
  return inbox.has(member) || [...pages.values()].some(p => p.hasWork(member));
}

// What is drawn here, on its way to the member.
const pending = new Set();      // what was drawn here and hasn't come back whole
const awaited = new Map();      // of each page and body the strokes that await it
const queue = [];               // bodies to send, in order, each with its page. The first has the number behind `settled`
let settled = 0;                // up to this number all that this tab drew is settled: the member took it, or said that it didn't
let most = POSTED, isPumping = false;
// Of each page what this tab did, and what other tabs of this member did, by the four signs that begin their steps.
const pasts = new Map();
function pastOf(name, id) {
  const key = `${name} ${(id || "").slice(0, 4)}`;
  if (!pasts.has(key)) pasts.set(key, new Past());
  return pasts.get(key);
}
function send(stroke, body) {
  const key = `${stroke.page} ${body}`;
  stroke.awaits.add(key);
  stroke.sentAt = stroke.sentAt || Date.now();
  if (!awaited.has(key)) awaited.set(key, []);
  awaited.get(key).push(stroke);
  queue.push(key);
  const p = pages.get(stroke.page);
  if (p) p.isGiven = true;
}
// Draws what is whole already: its bodies, as one step.
function give(stroke, name = here, bodies = [bodyOf(stroke)]) {
  Object.assign(stroke, { page: name, awaits: new Set(), isDone: true, source: me });
  for (const body of bodies) send(stroke, body);
  pastOf(name, stroke.id).note(stroke);
  if (bodies.length) pending.add(stroke);
  showPast(); refresh(); pump(); watch();
}
// A body came back, or was refused. Returns the stroke that it is of, if that is drawn here.
function settle(name, body) {
  const key = `${name} ${body}`, who = awaited.get(key), stroke = who && who.shift();
  if (!stroke) return null;
  if (!who.length) awaited.delete(key);
  stroke.awaits.delete(key);
  opened();
  if (stroke.isDone && !stroke.awaits.size && pending.delete(stroke)) refresh();
  return stroke;
}
function batch() {
  const lines = [];
  let length = 0;
  for (const line of queue) {
    length += bytesOf(line) + 1;
    if (length > most && lines.length) break;
    lines.push(line);
  }
  return lines;
}
// The member says up to which number all is settled. A number that it doesn't know any more begins anew: what was on its way then may be drawn or not.
function settleTo(number) {
  let count = number - settled;
  settled = number;
  if (count < 0) {
    for (const line of queue.splice(0, onWay)) refuse(line, "it may be there all the same, since the member doesn't know this window any more");
    for (const one of unsent) one.isNumbered = false;
  }
  onWay = 0;
  while (count > 0 && unsent.length && unsent[0].isNumbered) { unsent.shift(); count--; }
  if (count > 0) queue.splice(0, count);
}
function refuse(line, why) { if (line !== undefined) { settle(...partsOf(line)); toast("Not drawn: " + why); } }
const partsOf = key => { const at = key.indexOf(" "); return [key.slice(0, at), key.slice(at + 1)]; };
let onWay = 0;          // so many of the queue were sent and not answered
async function pump() {
  if (isPumping || isLoading) return;
  isPumping = true;
  try {
    for (;;) {
      if (!queue.length) cutNow();
      if (!queue.length || isOver) break;
      const lines = batch(), before = settled;
      onWay = lines.length;
      // Where the connection ends before an answer, the next one begins with what is settled.
      try { await post(lines); } catch (e) { while (!isGreeted && !isOver) await pause(50); }
      const taken = settled - before;
      // What a full member has no place for isn't sent again and again.
      most = taken < lines.length ? Math.max(LITTLE, most / 2) : Math.min(POSTED, most * 2);
      if (taken <= 0) await pause(10);
    }
  } finally { isPumping = false; }
}

// What the member didn't take before a reload is kept with its numbers, and sent behind it under the same. What an earlier run of the member didn't take has none: it is sent
// but for what the member's list has already.
const SETTLED = 700;    // so long after loading what was on its way then has come back
const unsent = [];
// What the window before left, until the member says in which run it is.
let inherited = stored(TAB, "unsent", null);
keepStored(TAB, "unsent", null);
const ownLines = () => [...unsent.filter(one => one.isNumbered).map(one => one.line), ...queue, ...unsent.filter(one => !one.isNumbered).map(one => one.line)];
addEventListener("pagehide", () => keepStored(TAB, "unsent", isOver ? null : inherited ? { ...inherited, lines: [...inherited.lines, ...ownLines()] } : { run, settled, lines: ownLines() }));
function resumed(name, latin) {
  const line = `${name} ${textOf(latin)}`, one = unsent.find(one => !one.isBack && one.line === line);
  if (one) one.isBack = true;
}
// What was left in an earlier run is gone; what was drawn before any was known is of this one.
function recall(now, number) {
  const left = inherited;
  inherited = null;
  if (!left || left.run !== null && left.run !== now) return;
  settled = left.run === null ? number : left.settled;
  unsent.push(...left.lines.map(line => ({ line, isNumbered: true, isBack: false })));
}
function resume() {
  const behind = queue.splice(0);
  // What came back already is sent again under its number, which the member knows.
  for (const one of unsent.filter(one => one.isNumbered)) { if (one.isBack) queue.push(one.line); else giveAgain(one.line); }
  queue.push(...behind);
  unsent.splice(0, unsent.length, ...unsent.filter(one => !one.isNumbered));
  if (unsent.length) setTimeout(() => { for (const one of unsent.splice(0)) if (!one.isBack) giveAgain(one.line); }, SETTLED);
  pump();
}
function giveAgain(line) {
  const [name, body] = partsOf(line), stroke = strokeIn(body) || {};
  if (!pages.has(name)) pages.set(name, madePage(name, null));
  give(stroke.kind === "more" || stroke.spans ? { kind: stroke.kind, id: stroke.id, shapes: [], looks: [] } : stroke, name, [body]);
}
addEventListener("beforeunload", e => { endWords(); if (shaping) lift(); if (unsentAt(Date.now()) && !isOver) e.preventDefault(); });

// What the hand shapes: strokes, and what it wipes.
let shaping = null, wiping = new Set();
const at = (x, y) => [Math.max(0, Math.min(WIDE, Math.round((x - corner[0]) / scale))), Math.max(0, Math.min(HIGH, Math.round((y - corner[1]) / scale)))];
function nextHeight() {
  const p = page();
  if (p) p.shapes();
  let height = p ? p.greatest : 0;
  for (const other of pending) if (other.page === here) height = Math.max(height, other.height || 0);
  return Math.min(GREATEST_HEIGHT, height + 1);
}
const styleOf = kind => styled(kind, isDashed, fill);
function stroke(kind, point) {
  return { kind, height: nextHeight(), id: newStep(), colour, width: kind === "text" ? SIZES[width] : width, style: styleOf(kind), points: [point], source: me, page: here, awaits: new Set(), sent: 0, cutAt: Date.now(), isDone: false };
}
// A curve that is being drawn is cut so often at most, in ms: sooner where each piece of it has come back.
const CUT = 60, CUT_SOON = 24;
function cutNow() {
  if (!shaping || shaping.kind !== "pen" || shaping.points.length <= shaping.sent || shaping.page !== here && !pages.has(shaping.page)) return;
  if (Date.now() - shaping.cutAt >= (shaping.awaits.size ? CUT : CUT_SOON)) sendCut(shaping);
}
function sendCut(stroke) {
  if (!stroke.sent) pastOf(stroke.page, stroke.id).note(stroke);
  for (const body of cut(stroke, stroke.sent)) send(stroke, body);
  stroke.sent = stroke.points.length; stroke.cutAt = Date.now();
}
let pumpTimer = 0;
function start(point) {
  if (tool === "wipe") { wipeTo(point); return; }
  if (tool === "choose") { startChoice(point); return; }
  shaping = stroke(tool, point);
  if (tool !== "pen") shaping.points.push(point); else { clearInterval(pumpTimer); pumpTimer = setInterval(() => { if (shaping) pump(); else clearInterval(pumpTimer); }, CUT_SOON); }
  refresh();
}
function squared(from, to) {
  const side = Math.max(Math.abs(to[0] - from[0]), Math.abs(to[1] - from[1]));
  return [Math.max(0, Math.min(WIDE, from[0] + Math.sign(to[0] - from[0]) * side)), Math.max(0, Math.min(HIGH, from[1] + Math.sign(to[1] - from[1]) * side))];
}
// A line along one of eight directions.
function straightened(from, to) {
  const angle = Math.round(Math.atan2(to[1] - from[1], to[0] - from[0]) / (Math.PI / 4)) * Math.PI / 4, far = Math.hypot(to[0] - from[0], to[1] - from[1]);
  return [Math.max(0, Math.min(WIDE, Math.round(from[0] + far * Math.cos(angle)))), Math.max(0, Math.min(HIGH, Math.round(from[1] + far * Math.sin(angle))))];
}
function drawTo(points, isSquare) {
  if (tool === "wipe") { points.forEach(wipeTo); return; }
  if (tool === "choose") { moveChoice(points[points.length - 1], isSquare); return; }
  if (!shaping) return;
  const first = shaping.points[0], end = points[points.length - 1], near = Math.max(2, 4 / scale / 2), isLine = shaping.kind === "line" || shaping.kind === "arrow";
  if (shaping.kind !== "pen") { shaping.points[1] = isSquare ? (isLine ? straightened : squared)(first, end) : end; overStale = true; }
  else for (const point of points) { const before = shaping.points[shaping.points.length - 1]; if (Math.hypot(point[0] - before[0], point[1] - before[1]) >= near) shaping.points.push(point); }
  // A curve that a page would cut off goes on as another.
  if (shaping.points.length >= MOST_POINTS - 500) { lift(); start(end); }
  wake(); pump();
}
function lift() {
  if (tool === "choose") { endChoice(); return; }
  if (tool === "wipe" || wiping.size) { wipedAt = null; erase([...wiping]); wiping.clear(); refresh(); return; }
  const done = shaping;
  shaping = null;
  refresh();
  if (!done) return;
  if (done.kind === "pen") { sendCut(done); done.isDone = true; if (done.awaits.size) pending.add(done); showPast(); pump(); }
  else if (Math.hypot(done.points[1][0] - done.points[0][0], done.points[1][1] - done.points[0][1]) >= 8) give(done);
}
// Gives up what is being drawn.
function giveUp() {
  const gone = shaping;
  shaping = null; wiping.clear(); wipedAt = null; dragging = lasso = null;
  if (gone && gone.sent) { gone.isBack = true; turnStep("back", gone.id); }
  refresh();
}
let wipedAt = null;
function wipeTo(point) {        // all that lies between the last point and this one
  const p = page(), before = wipedAt || point, count = Math.ceil(Math.hypot(point[0] - before[0], point[1] - before[1]) / 12) || 1, slack = Math.max(8, 5 / scale);
  wipedAt = point;
  if (!p) return;
  for (let i = 1; i <= count; i++) {
    const q = [before[0] + (point[0] - before[0]) * i / count, before[1] + (point[1] - before[1]) * i / count];
    // What a filled shape covers isn't seen, and stays.
    for (const shape of [...p.shapes()].reverse()) { if (!wiping.has(shape) && isHit(shape, q, slack)) { wiping.add(shape); refresh(); } if (isCovering(shape, q)) break; }
  }
}
// What names these shapes: with it goes the check that this member took them.
const spansFor = (p, shapes) => spansOf(shapes.map(shape => [shape.source, shape.number]), (source, number) => p.checkAt(source, number));
function erase(shapes) {
  const p = page(), alive = shapes.filter(shape => !shape.isHidden);
  if (!p || !alive.length || isOver) return;
  const id = newStep();
  give({ kind: "drop", id, shapes: alive }, here, spread(`${VERSION} drop ${id}`, spansFor(p, alive)));
  for (const shape of alive) chosen.delete(shape);
}


// Taking back and doing again: this tab's last step on this page, and on each other page where it is the same step.
function turnStep(kind, id) {
  const names = [...pages.keys()].filter(name => name === here || pastOf(name, tab)[kind === "back" ? "done" : "undone"].includes(id));
  for (const name of names) {
    for (const one of pending) if (one.id === id && one.page === name) one.isBack = kind === "back";
    give({ kind, id }, name);
  }
}
function undo() {
  if (isOver || !last) return;
  if (shaping || wiping.size || dragging || lasso) { giveUp(); return; }
  if (writing) endWords();
  const id = pastOf(here, tab).done.at(-1);
  if (id) { turnStep("back", id); say("taken back"); } else toast("Nothing that this tab did is left to take back on this page");
}
function redo() {
  if (isOver || !last || shaping) return;
  const id = pastOf(here, tab).undone.at(-1);
  if (id) { turnStep("again", id); say("done again"); } else toast("Nothing is left to do again on this page");
}
function showPast() {
  const { done, undone } = pastOf(here, tab);
  $("undo").disabled = isOver || !(done.length || shaping);
  $("redo").disabled = isOver || !undone.length;
}

// Choosing shapes, and moving, sizing and copying them.
let chosen = new Set(), dragging = null, lasso = null, clip = [];
const GRIP = 10;        // how wide the grips of what is chosen are, in pixels; they are met from twice as far
const SIDES = [[0, 0], [.5, 0], [1, 0], [1, .5], [1, 1], [.5, 1], [0, 1], [0, .5]];
function choose(shapes) { if (!chosen.size && !shapes.length) return; chosen = new Set(shapes); refresh(); }
// What lies on top at a point; what a filled shape covers isn't seen there.
const topAt = point => { const p = page(); return p ? p.shapes().findLast(shape => isHit(shape, point, Math.max(8, 6 / scale))) : undefined; };
function alive() { for (const shape of chosen) if (shape.isHidden) chosen.delete(shape); return [...chosen]; }
const chosenBox = () => { const all = alive(); return all.length ? all.map(boxOf).reduce(joined) : null; };
const gripPlaces = box => SIDES.map(side => [0, 1].map(i => box[i] + side[i] * (box[i + 2] - box[i])));
function gripAt(point) {
  const box = chosenBox(), places = box && gripPlaces(grown(box, 8 / scale)), at = box ? places.findIndex(place => Math.hypot(place[0] - point[0], place[1] - point[1]) <= GRIP / scale) : -1;
  return at < 0 || alive().every(shape => shape.kind === "note") ? null : SIDES[at];
}
function startChoice(point) {
  const box = chosenBox(), grip = box && gripAt(point), inside = box && isIn(point, grown(box, 8 / scale)), hit = topAt(point);
  if (grip) dragging = { from: point, by: [0, 0], grip, box };
  else if (isShifted && hit) { if (chosen.has(hit)) chosen.delete(hit); else chosen.add(hit); }
  else {
    if (!(inside && (!hit || chosen.has(hit) || chosen.size > 1))) choose(hit ? [hit] : []);
    if (hit || inside) dragging = { from: point, by: [0, 0], grip: null, box: chosenBox() }; else lasso = [point, point];
  }
  refresh();
}
function moveChoice(point, isSquare) {
  if (dragging) Object.assign(dragging, { by: [point[0] - dragging.from[0], point[1] - dragging.from[1]], isSquare });
  else if (lasso) {
    lasso[1] = point;
    const [x, y, wide, high] = rectOf(lasso), p = page();
    chosen = new Set(p ? p.shapes().filter(shape => { const own = boxOf(shape); return own[0] >= x && own[1] >= y && own[2] <= x + wide && own[3] <= y + high; }) : []);
  }
  refresh();
}
// The box that the drag of a grip makes of what is chosen: a corner keeps the proportions where it is to.
function draggedBox({ box, grip, by, isSquare }) {
  const after = [...box];
  for (const i of [0, 1]) { if (grip[i] === 0) after[i] = Math.min(box[i] + by[i], box[i + 2] - 10); if (grip[i] === 1) after[i + 2] = Math.max(box[i + 2] + by[i], box[i] + 10); }
  if (isSquare && grip.every(side => side !== .5)) {
    const rate = Math.max(...[0, 1].map(i => (after[i + 2] - after[i]) / Math.max(1, box[i + 2] - box[i])));
    for (const i of [0, 1]) if (grip[i] === 0) after[i] = box[i + 2] - (box[i + 2] - box[i]) * rate; else after[i + 2] = box[i] + (box[i + 2] - box[i]) * rate;
  }
  return after;
}
function endChoice() {
  const drag = dragging;
  dragging = lasso = null;
  if (drag && Math.hypot(...drag.by) > 3 / scale) { if (drag.grip) sizeShapes(alive(), drag.box, draggedBox(drag)); else moveShapes(alive(), drag.by); }
  if (chosen.size) say(chosen.size === 1 ? `${described([...chosen][0])} is selected` : `${chosen.size} are selected`);
  refresh();
}

// Of each shape here that is on its way to another place, how it looks once that has come back.
function givenLooks() {
  const looks = new Map();
  for (const stroke of pending) if (stroke.lookOf && stroke.page === here && !stroke.isBack) for (const [shape, look] of stroke.lookOf) looks.set(shape, look);
  return looks;
}
// Shapes as they lie once all has come back that this tab gave them.
function givenShapes(shapes) {
  const looks = givenLooks();
  return shapes.map(shape => asGiven(shape, looks.get(shape)));
}
// Carries out what came back of this member, and reads edited texts again: it is on its way no more, and counts only then.
function runOwn() { const p = page(); if (p) { p.run(me); p.shapes(); } }
// What changes where shapes lie, as one step: each shape with the box around its points as it is to be. Shapes whose steps are equal share drawops.
function placeShapes(shapes, boxFor, extra = () => []) {
  runOwn();
  const p = page(), all = shapes.filter(shape => shape.kind !== "note" && !shape.isHidden), notes = shapes.length - all.length;
  if (notes) toast("Notes stay where they are");
  if (!p || !all.length || isOver) return;
  const id = newStep(), groups = new Map(), lookOf = new Map(), note = (kind, by, shape) => { if (!by[0] && !by[1]) return; const key = `${VERSION} ${kind} ${id} ${by}`; if (!groups.has(key)) groups.set(key, []); groups.get(key).push(shape); };
  for (const [i, given] of givenShapes(all).entries()) {
    const steps = stepsTo(given, boxFor(given));
    note("size", steps.sized, all[i]); note("move", steps.moved, all[i]);
    lookOf.set(all[i], stepped(given, steps));
  }
  const edits = extra(id, lookOf), bodies = [...[...groups].flatMap(([head, those]) => spread(head, spansFor(p, those))), ...edits];
  if (bodies.length) give({ kind: "place", id, shapes: all, looks: [...lookOf.values()], lookOf }, here, bodies);
}
function moveShapes(shapes, by) { placeShapes(shapes, shape => shifted(boundsOf(shape), by)); }
// Brings shapes from one box into another. A text gets other letters, or breaks elsewhere.
function sizeShapes(shapes, from, to) {
  const rate = [0, 1].map(i => (to[i + 2] - to[i]) / Math.max(1, from[i + 2] - from[i])), place = (at, i) => to[i] + (at - from[i]) * rate[i];
  const boxFor = shape => boundsOf(shape).map((at, i) => place(at, i % 2));
  placeShapes(shapes, boxFor, (id, lookOf) => [...lookOf].filter(([shape]) => shape.kind === "text").map(([shape, look]) => {
    const size = rate[1] === 1 ? 1 : Math.max(...rate.filter(by => by !== 1), 0) || 1, [left, , right] = boxOf(look);
    const width = Math.max(20, Math.min(400, Math.round(look.width * size))), breadth = look.breadth || rate[0] !== 1 && rate[1] === 1 ? Math.max(NARROWEST, Math.min(WIDE, Math.round((look.breadth || right - left) * rate[0]))) : 0;
    Object.assign(look, { width, breadth, lines: null, lies: null });
    return bodyOf(editOf(shape, id, { width, breadth }));
  }));
}
function sizeBy(steps) {
  runOwn();
  const all = alive();
  if (!all.length) return;
  const box = givenShapes(all).map(boxOf).reduce(joined);
  sizeShapes(all, box, [box[0], box[1], Math.max(box[0] + 10, box[2] + steps[0]), Math.max(box[1] + 10, box[3] + steps[1])]);
}
// A drawop that says how a text is from now on.
function editOf(shape, id, change) {
  const newest = page().newestEdit(shape);
  return { kind: "edit", id, version: Math.min(GREATEST_NUMBER, (newest ? newest.version : 0) + 1), spans: spansFor(page(), [shape]), ...saidBy(shape), ...change };
}

// What one can do with what is chosen; a colour, width or style that is picked goes to it too.
function showHandle() {
  const count = tool === "choose" && !dragging && !lasso && !isOver ? alive().length : 0;
  $("handle").hidden = !count;
  if (!count) return;
  $("count").textContent = count === 1 ? `by ${nameOf([...chosen][0].source)}` : `${count} selected`;
  const [x, y, right, low] = chosenBox(), wide = $("handle").offsetWidth, high = $("handle").offsetHeight, top = corner[1] + y * scale - high - 24, room = frameBox.y + frameBox.high - high - 8;
  Object.assign($("handle").style, { left: Math.max(6, Math.min(innerWidth - wide - 6, corner[0] + (x + right) / 2 * scale - wide / 2)) + "px", top: (top > frameBox.y ? top : Math.min(room, corner[1] + low * scale + 24)) + "px" });
}
// Draws shapes anew on top and takes these away, in one step.
function redraw(shapes, change) {
  const p = page(), all = p ? p.shapes().filter(shape => shapes.includes(shape) && shape.kind !== "note") : [];
  if (!all.length || isOver) return;
  const id = newStep(), height = nextHeight(), copies = frozen(all).map(shape => Object.assign(shape, change(shape), { lines: null, lies: null }));
  give({ kind: "place", id, shapes: all, looks: copies, height: height + all.length - 1 }, here, [...spread(`${VERSION} drop ${id}`, spansFor(p, all)), ...copiesOf(copies, id, height)]);
  awaitStep(here, id);
}
function restyle(change) { const all = tool === "choose" ? alive() : []; if (all.length) redraw(all, change); }
// Draws shapes anew, moved a little, and chooses them once they are there.
function paste(shapes, by) {
  if (!shapes.length || isOver) return;
  const id = newStep(), height = nextHeight();
  give({ kind: "copies", id, height: height + shapes.length - 1 }, here, copiesOf(shapes, id, height, by));
  setTool("choose");
  paper.focus();
  awaitStep(here, id);
}
function awaitStep(name, id, tries = 0) {
  const p = pages.get(name), step = p && p.source(me).steps.get(id);
  if (here !== name || tool !== "choose") return;
  if (step && ![...pending].some(stroke => stroke.id === id)) choose(step.shapes.filter(shape => !shape.isHidden)); else if (tries < 50) setTimeout(() => awaitStep(name, id, tries + 1), 60);
}
// Copies keep what they are of as it is now.
const frozen = shapes => shapes.map(shape => ({ ...shape, points: shape.points && shape.points.map(point => [...point]) }));
function copyChosen() { const all = alive(); if (!all.length) return false; clip = frozen(page().shapes().filter(shape => chosen.has(shape))); toast(`${all.length} copied`); return true; }
const double = () => { const all = alive(); if (all.length) paste(frozen(page().shapes().filter(shape => chosen.has(shape))), [60, 60]); };

// A shape in words.
const KINDS = { pen: "curve", line: "line", arrow: "arrow", rect: "rectangle", oval: "ellipse", text: "text", note: "note" };
function described(shape) {
  const [x, y] = boxOf(shape), what = shape.kind === "text" || shape.kind === "note" ? ` "${shape.text.slice(0, 60)}"` : "";
  return `${KINDS[shape.kind]}${what} by ${nameOf(shape.source)}, ${Math.round(100 * x / WIDE)} across, ${Math.round(100 * y / HIGH)} down`;
}
// Chooses the next shape, or the one before.
function chooseNext(step) {
  const p = page(), all = p ? p.shapes() : [], now = all.indexOf(alive()[0]);
  if (!all.length) { say("Nothing is drawn on this page"); return; }
  setTool("choose");
  const at = now < 0 ? (step > 0 ? 0 : all.length - 1) : (now + step + all.length) % all.length;
  choose([all[at]]); paper.focus();
  say(`${described(all[at])}, ${at + 1} of ${all.length}`);
}

// Pointers.
let pointer = null, penAt = 0, isSpaced = false, isShifted = false, hand = null, tapped = { at: 0, x: 0, y: 0 };
const touches = new Map();
function pinch() {
  const [a, b] = [...touches.values()];
  return { at: [(a[0] + b[0]) / 2, (a[1] + b[1]) / 2], apart: Math.max(1, Math.hypot(a[0] - b[0], a[1] - b[1])) };
}
// Whether this is the second of two quick taps at a place.
function isTwice(e) {
  const before = tapped;
  tapped = { at: e.timeStamp, x: e.clientX, y: e.clientY };
  const isIt = e.timeStamp - before.at < 450 && Math.hypot(e.clientX - before.x, e.clientY - before.y) < 12;
  if (isIt) tapped.at = 0;
  return isIt;
}
paper.addEventListener("pointerdown", e => {
  if (e.pointerType === "touch") {
    touches.set(e.pointerId, [e.clientX, e.clientY]);
    if (touches.size === 2) { if (pointer !== null) { if (shaping && shaping.sent === 0) giveUp(); else lift(); pointer = null; } hand = pinch(); return; }
  }
  if (isSpaced || e.button === 1) { hand = { id: e.pointerId, at: [e.clientX, e.clientY] }; paper.setPointerCapture(e.pointerId); e.preventDefault(); return; }
  if (pointer !== null || e.button > 0 || isOver || !last) return;
  if (e.pointerType === "pen") penAt = Date.now(); else if (e.pointerType === "touch" && Date.now() - penAt < 1500) return;   // the palm beside a pen
  e.preventDefault();
  const wasWriting = endWords(), point = at(e.clientX, e.clientY), twice = isTwice(e);
  paper.focus({ preventScroll: true });
  closeMenu();
  cross = null; isShifted = e.shiftKey;
  const text = tool === "text" || tool === "choose" && twice ? topAt(point) : null;
  if (text && text.kind === "text") { setTimeout(() => editWords(text)); return; }
  if (tool === "text") { if (!wasWriting) setTimeout(() => beginWords(point)); return; }
  pointer = e.pointerId;
  try { paper.setPointerCapture(pointer); } catch (x) { }       // a pointer that is gone already
  start(point);
});
paper.addEventListener("pointermove", e => {
  if (touches.has(e.pointerId)) touches.set(e.pointerId, [e.clientX, e.clientY]);
  if (hand && touches.size === 2) { const now = pinch(); moveBy(now.at[0] - hand.at[0], now.at[1] - hand.at[1]); zoomAt(now.apart / hand.apart, now.at); hand = now; return; }
  if (hand && hand.id === e.pointerId) { moveBy(e.clientX - hand.at[0], e.clientY - hand.at[1]); hand.at = [e.clientX, e.clientY]; return; }
  if (pointer === null && e.pointerType === "mouse" && !hand) pointAt(e);
  if (e.pointerId !== pointer) return;
  const all = e.getCoalescedEvents ? e.getCoalescedEvents() : [];
  drawTo((all.length ? all : [e]).map(one => at(one.clientX, one.clientY)), e.shiftKey);
});
// Who drew what the mouse rests on.
const RESTS = 300;
const CURSORS = { 0: "nwse-resize", 1: "ns-resize", 2: "nesw-resize", 3: "ew-resize" };
let tipTimeout = 0;
function hideTip() { clearTimeout(tipTimeout); $("tip").hidden = true; }
function pointAt(e) {
  const point = at(e.clientX, e.clientY);
  if (tool === "choose") { const grip = gripAt(point); paper.style.cursor = grip ? CURSORS[SIDES.indexOf(grip) % 4] : topAt(point) ? "move" : ""; }
  hideTip();
  tipTimeout = setTimeout(() => {
    const shape = pointer === null && topAt(point);
    if (!shape) return;
    const name = nameOf(shape.source), isMoved = isPlaced(shape), isEdited = Boolean(page().newestEdit(shape));
    $("tip").textContent = `${name}${shape.source === me ? " (you)" : ""}` + (isMoved || isEdited ? `; ${[isMoved && "moved", isEdited && "edited"].filter(word => word).join(" and ")} since` : "");
    $("tip").hidden = false;
    Object.assign($("tip").style, { left: Math.max(6, Math.min(innerWidth - $("tip").offsetWidth - 6, e.clientX + 14)) + "px", top: Math.min(innerHeight - $("tip").offsetHeight - 6, e.clientY + 18) + "px" });
  }, RESTS);
}
paper.addEventListener("pointerleave", hideTip);
paper.addEventListener("pointerdown", hideTip);
function release(e) {
  touches.delete(e.pointerId);
  if (hand && (hand.id === e.pointerId || touches.size < 2)) hand = null;
  if (e.pointerId !== pointer) return;
  pointer = null;
  lift();
}
paper.addEventListener("pointerup", release);
paper.addEventListener("pointercancel", release);
addEventListener("wheel", e => {
  if (e.target.closest(".panel, dialog")) return;
  e.preventDefault();
  if (e.ctrlKey || e.metaKey) zoomAt(Math.exp(-e.deltaY / 300), [e.clientX, e.clientY]);
  else moveBy(e.shiftKey ? -e.deltaY : -e.deltaX, e.shiftKey ? 0 : -e.deltaY);
}, { passive: false });


// Text.
const letters = document.createElement("canvas").getContext("2d"), ruled = new Map();
measureBy((text, size) => {
  const key = size + text;
  if (!ruled.has(key)) { if (ruled.size > 5000) ruled.clear(); letters.font = `${size}px sans-serif`; letters.textRendering = EXACT; ruled.set(key, letters.measureText(text).width); }
  return ruled.get(key);
});
const words = $("words"), COLUMN = 1700;
let writing = null;
function placeWords() {
  if (!writing) return;
  if (!writing.of) { writing.colour = colour; writing.width = SIZES[width]; }
  const offset = writing.of ? offsetOf(writing.of) : [0, 0], x = corner[0] + (writing.points[0][0] + offset[0]) * scale, y = corner[1] + (writing.points[0][1] + offset[1]) * scale, size = writing.width * scale;
  Object.assign(words.style, { display: "block", left: x + "px", top: y + "px", fontSize: size + "px", color: seen(colourOf(writing)), width: (writing.breadth || WIDE - writing.points[0][0]) * scale + "px", whiteSpace: writing.breadth ? "pre-wrap" : "pre", height: "0px" });
  words.style.height = Math.max(size * LINE, words.scrollHeight) + "px";
  const more = excess(words.value), low = writing.points[0][1] + offset[1] + linesOf({ ...writing, text: words.value, lines: null }).length * writing.width * LINE - HIGH;
  words.classList.toggle("long", more > 0 || low > 0);
  $("long").hidden = !more && low <= 0;
  $("long").textContent = [more ? `${more} bytes more than one drawop holds: the rest goes into another text below` : "", low > 0 ? "runs off the paper: a shorter text, or smaller letters" : ""].filter(part => part).join("; ");
  Object.assign($("long").style, { left: x + "px", top: y - 26 + "px" });
}
function beginWords(point) {"##;

const PART_5: &str = r##"
  const x = Math.max(0, Math.min(WIDE - 500, point[0])), y = Math.max(0, Math.min(HIGH - SIZES[width], point[1] - Math.round(SIZES[width] * .6)));
  writing = { ...stroke("text", [x, y]), breadth: Math.min(COLUMN, WIDE - 30 - x), of: null };
  words.value = ""; refresh(); placeWords(); words.focus();
}
function editWords(shape) {
  choose([]);
  writing = { ...saidBy(shape), points: shape.points, source: shape.source, of: shape, page: here };
  words.value = shape.text; wiping = new Set([shape]); refresh(); placeWords(); words.focus(); words.select();
}
// Keeps what is written, also at Escape: it can be taken back. Returns whether something was being written.
function endWords() {
  if (!writing) return false;
  const done = writing, text = words.value.replace(/\s+$/, "");
  writing = null; words.style.display = "none"; $("long").hidden = true;
  if (done.of) wiping.clear();
  refresh();
  if (isOver || done.page !== here) return true;
  if (done.of) editText(done, text); else if (text) writeText(done, text);
  return true;
}
// A text that is longer than a drawop goes on below.
function writeText(first, text) {
  const texts = columnOf({ ...first, kind: "text" }, pieces(text)).map((one, i) => ({ ...one, height: Math.min(GREATEST_HEIGHT, first.height + i) }));
  if (texts.length) give({ ...texts[0], id: first.id, looks: texts, shapes: [], kind: "place" }, here, texts.map(bodyOf));
}
function editText(done, text) {
  const shape = done.of;
  if (text === shape.text) return;
  // Somebody erased it meanwhile: what was written is kept.
  if (shape.isHidden) { if (text) writeText({ ...stroke("text", boundsOf(shape).slice(0, 2).map(Math.round)), ...saidBy(shape) }, text); return; }
  const [head, ...rest] = pieces(text), id = newStep();
  if (!head) { erase([shape]); return; }
  const look = { ...shape, text: head, lines: null, lies: null }, box = boxOf(look);
  const below = columnOf({ ...saidBy(shape), kind: "text", id, source: me, points: [[Math.round(box[0]), Math.min(HIGH, Math.round(box[3]))]] }, rest).map((one, i) => ({ ...one, height: Math.min(GREATEST_HEIGHT, nextHeight() + i) }));
  give({ kind: "place", id, shapes: [shape], looks: [look, ...below] }, here, [bodyOf(editOf(shape, id, { text: head })), ...below.map(bodyOf)]);
}
words.addEventListener("keydown", e => {
  e.stopPropagation();
  if (e.key === "Escape" || e.key === "Enter" && !e.shiftKey && !e.isComposing) { e.preventDefault(); endWords(); paper.focus(); }
});
words.addEventListener("input", placeWords);
words.addEventListener("blur", () => endWords());


// Keys.
let cross = null;       // where the keys draw, once one did
const WAYS = { ArrowLeft: [-1, 0], ArrowRight: [1, 0], ArrowUp: [0, -1], ArrowDown: [0, 1] };
function moveCross(key, reach) {
  const way = WAYS[key], from = cross || middle.map(Math.round);
  cross = [Math.max(0, Math.min(WIDE, from[0] + way[0] * reach)), Math.max(0, Math.min(HIGH, from[1] + way[1] * reach))];
  if (shaping || wiping.size || dragging || lasso) drawTo([cross], false);
  else sayBelow();
  refresh();
}
// Tells what lies under the cross, where that is another than before.
let below = null;
function sayBelow() { const shape = topAt(cross) || null; if (shape !== below && shape) say(described(shape)); below = shape; }
function strike() {
  if (isOver || !last) return;
  if (!cross) { moveCross("ArrowUp", 0); }
  const text = tool === "text" ? topAt(cross) : null;
  if (text && text.kind === "text") editWords(text);
  else if (tool === "text") beginWords(cross);
  else if (shaping || wipedAt || dragging || lasso) { lift(); say("pen up"); }
  else { isShifted = false; start(cross); if (tool === "pen") say("pen down"); }
}
paper.addEventListener("keydown", e => {
  if (pointer !== null) return;
  if ((e.ctrlKey || e.metaKey) && WAYS[e.key] && tool === "choose" && alive().length) { e.preventDefault(); sizeBy(WAYS[e.key].map(way => way * (e.shiftKey ? 250 : 50))); return; }
  if (e.ctrlKey || e.metaKey) return;
  const reach = e.shiftKey ? 250 : e.altKey ? 10 : 50;
  if (WAYS[e.key] && tool === "choose" && alive().length && !dragging && !lasso) { e.preventDefault(); moveShapes(alive(), WAYS[e.key].map(way => way * reach)); }
  else if (WAYS[e.key]) { e.preventDefault(); moveCross(e.key, reach); }
  else if (e.key === "Enter" || e.key === " " && cross) { e.preventDefault(); e.stopPropagation(); strike(); }
  else if (e.key === "Escape") { giveUp(); choose([]); cross = null; refresh(); }
});
const KEYS = {
  v: () => setTool("choose"), p: () => setTool("pen"), l: () => setTool("line"), a: () => setTool("arrow"), r: () => setTool("rect"), o: () => setTool("oval"), t: () => setTool("text"), e: () => setTool("wipe"),
  s: setDash, f: setFill,
  "[": () => thicker(-1), "]": () => thicker(1), "+": () => zoomAt(1.25), "=": () => zoomAt(1.25), "-": () => zoomAt(.8), 0: () => { zoom = 1; look(); },
  PageUp: () => turnBy(-1), PageDown: () => turnBy(1), F2: () => entitle(), n: rename, d: () => setDark(!isDark), m: () => showMembers(!isMembered), c: () => paper.focus(), Delete: () => erase(alive()), Backspace: () => erase(alive()), ",": () => chooseNext(-1), ".": () => chooseNext(1), "?": () => $("help").showModal() };
Object.keys(COLOURS).forEach((dye, i) => { KEYS[i + 1] = () => setColour(dye); });
const CHORDS = {
  z: e => e.shiftKey ? redo() : undo(), y: () => redo(), s: () => saveFile(), o: () => $("file").click(),
  a: () => { setTool("choose"); choose(page() ? page().shapes() : []); paper.focus(); }, c: () => copyChosen(), x: () => { if (copyChosen()) erase(alive()); }, v: () => paste(clip, [60, 60]), d: () => double() };
function thicker(step) { const all = Object.keys(WIDTHS).map(Number).sort((a, b) => a - b); setWidth(all[Math.max(0, Math.min(all.length - 1, all.indexOf(width) + step))]); }
// What a key stands for in a table. Letters count by their place on the keyboard, whatever Caps Lock or the layout make of them, and where that place has no meaning by
// what they write; signs by what they write, and else by their place. Redo by Y counts by what it writes, since layouts exchange it with Z.
const SIGNS = { BracketLeft: "[", BracketRight: "]", Equal: "=", Minus: "-", Comma: ",", Period: ".", Slash: "?" };
function meaningOf(e, table) {
  const place = /^Key[A-Z]$/.test(e.code) ? e.code[3].toLowerCase() : null, digit = /^(?:Digit|Numpad)(\d)$/.exec(e.code), written = e.key.length === 1 ? e.key.toLowerCase() : e.key;
  const all = [place === "y" ? null : place, written, digit && digit[1], e.code === "Slash" && !e.shiftKey ? null : SIGNS[e.code]];
  return all.find(one => one && Object.hasOwn(table, one));
}
// Where the focus is shows once a key was used, and no more once a pointer is.
addEventListener("keydown", () => document.body.classList.add("keyed"), true);
addEventListener("pointerdown", () => document.body.classList.remove("keyed"), true);
addEventListener("keydown", e => {
  if (document.querySelector("dialog[open]") || e.target instanceof Element && e.target.closest("input, textarea")) return;
  const table = e.ctrlKey || e.metaKey ? CHORDS : KEYS, meaning = meaningOf(e, table);
  if (e.key === "Escape") closeMenu();
  if (e.key === " " && document.activeElement === paper) { isSpaced = true; paper.classList.add("hand"); e.preventDefault(); return; }
  const does = meaning && table[meaning];
  if (!does || e.altKey || table === KEYS && shaping) return;
  e.preventDefault(); does(e); if (table === KEYS) showTools();
});
// In a bar of buttons the arrows go to the next one.
addEventListener("keydown", e => {
  const bar = e.target.closest("#tools, #foot .panel, #menu, #handle"), step = { ArrowRight: 1, ArrowDown: 1, ArrowLeft: -1, ArrowUp: -1 }[e.key];
  if (!bar || !step || e.target.tagName === "INPUT") return;
  const all = [...bar.querySelectorAll("button:not(:disabled)")].filter(button => button.offsetWidth);
  all[(all.indexOf(e.target) + step + all.length) % all.length].focus();
  e.preventDefault();
});
addEventListener("keyup", e => { if (e.key === " ") { isSpaced = false; paper.classList.remove("hand"); } });


// Dark or light.
const darkness = matchMedia("(prefers-color-scheme: dark)");
function setDark(dark, isChosen = true) {
  isDark = dark;
  if (isChosen) keepStored(ALL, "dark", dark);
  document.documentElement.classList.toggle("dark", dark);
  $("dark").textContent = dark ? "Light colours" : "Dark colours";
  showTools(); showPeople(); placeWords();
}
darkness.addEventListener("change", () => { if (stored(ALL, "dark", null) === null) setDark(darkness.matches, false); });


// Saving, opening, clearing, leaving.
function canvasOf(p, wide) {
  const canvas = made("canvas", { width: wide, height: wide * HIGH / WIDE }), c = canvas.getContext("2d");
  c.fillStyle = "#fff"; c.fillRect(0, 0, canvas.width, canvas.height);
  c.setTransform(wide / WIDE, 0, 0, wide / WIDE, 0, 0);
  p.shapes().forEach(shape => paint(c, shape));
  return canvas;
}
const drawnPages = () => { const all = order().filter(p => p.shapes().length); return all.length ? all : order().slice(0, 1); };
function canvasOfAll(all, wide) {
  const by = wide / WIDE, canvas = made("canvas", { width: wide, height: Math.round(sheetHigh(all) * by) }), c = canvas.getContext("2d");
  c.scale(by, by); c.fillStyle = "#eceef3"; c.fillRect(0, 0, WIDE, sheetHigh(all));
  for (const { page: p, y } of sheetPlaces(all)) {
    c.fillStyle = "#1e1e24"; c.font = `${SHEET.size}px sans-serif`; c.textBaseline = "alphabetic"; c.textRendering = EXACT; c.fillText(titleOf(p), 40, y - 50);
    c.save(); c.translate(0, y); c.beginPath(); c.rect(0, 0, WIDE, HIGH); c.clip(); c.fillStyle = "#fff"; c.fillRect(0, 0, WIDE, HIGH);
    p.shapes().forEach(shape => paint(c, shape)); c.restore();
  }
  return canvas;
}
function save(blob, name) {
  const link = made("a", { href: URL.createObjectURL(blob), download: name });
  link.click();
  setTimeout(() => URL.revokeObjectURL(link.href), 60000);
}
const fileName = kind => `board-${last ? last.session : 0}${kind}`;
function saveFile() { save(new Blob([fileOf(drawnPages())], { type: "text/plain" }), fileName(".board")); toast("Saved: all pages, as they are now"); }
function sure(question, verb, then) {
  $("sure-what").textContent = question; $("sure-yes").textContent = verb;
  $("sure").onclose = () => { if ($("sure").returnValue === "yes") then(); $("sure").returnValue = ""; };
  $("sure").showModal();
}
// A file that is being opened: how many drawops draw it, and the strokes that they are.
let opening = null;
const openingLeft = () => opening.strokes.reduce((sum, stroke) => sum + stroke.awaits.size, 0);
function opened() { if (opening && !openingLeft()) { toast(opening.told); opening = null; } }
// Opens a file: each of its pages on an empty one, all as one step.
function openText(text) {
  const file = fileIn(text);
  if (!file) { toast("This is no saved board"); return; }
  const isEmpty = p => !p.shapes().length && ![...pending].some(stroke => stroke.page === p.name);
  const drawn = file.pages.filter(one => one.shapes.length), empty = order().filter(isEmpty).sort((a, b) => (b.name === here) - (a.name === here)), room = drawn.slice(0, empty.length + MOST_PAGES - pages.size);
  const id = newStep(), strokes = [];
  for (const one of room) {
    const p = empty.shift() || pages.get(newPage()), stroke = { kind: "copies", id, height: one.shapes.length };
    give(stroke, p.name, copiesOf(one.shapes, id, Math.min(GREATEST_HEIGHT - one.shapes.length, p.greatest + 1)));
    if (one.title && !p.title) give({ kind: "page", version: p.titles.length + 1, title: one.title }, p.name);
    strokes.push(stroke);
  }
  if (room.length) turnTo(strokes[0].page);
  const shapes = room.reduce((sum, one) => sum + one.shapes.length, 0), lost = drawn.length - room.length;
  const told = `Opened ${counted(room.length, "page", "pages")}, ${counted(shapes, "shape", "shapes")}; one Undo takes it back` + (lost ? `; ${counted(lost, "page", "pages")} found no room` : "") + (file.odd ? `; ${counted(file.odd, "line is", "lines are")} of no board` : "");
  opening = { strokes, told, count: strokes.reduce((sum, stroke) => sum + stroke.awaits.size, 0) };
  opened(); watch();
}
$("file").onchange = async () => { const file = $("file").files[0]; $("file").value = ""; if (!file) return; if (file.size > 50e6) toast("The file is too large"); else openText(await file.text()); };
function closeMenu() { $("menu").hidden = true; $("menu-button").setAttribute("aria-expanded", "false"); }
$("menu-button").onclick = () => { const isOpen = $("menu").hidden; $("menu").hidden = !isOpen; $("menu-button").setAttribute("aria-expanded", isOpen); if (isOpen) $("menu").querySelector("button").focus(); };
addEventListener("pointerdown", e => { if (!e.target.closest("#menu, #menu-button")) closeMenu(); });
const ACTS = {
  open: () => $("file").click(), save: saveFile,
  svg: () => { if (page()) save(new Blob([svgOf(page().shapes())], { type: "image/svg+xml" }), fileName(`-${here}.svg`)); },
  png: () => { if (page()) canvasOf(page(), 2000).toBlob(blob => save(blob, fileName(`-${here}.png`))); },
  "all-svg": () => save(new Blob([svgOfAll(drawnPages(), titleOf)], { type: "image/svg+xml" }), fileName(".svg")),
  "all-png": () => canvasOfAll(drawnPages(), 2000).toBlob(blob => save(blob, fileName(".png"))),
  entitle: () => entitle(),
  clear: () => { const p = page(); if (p && p.shapes().length) sure("Erase all that is on this page, for everyone? You can take it back.", "Erase", () => erase(p.shapes())); },
  leave: () => { if (!isOver) sure("Leave the session? The others are told, and you draw no more.", "Leave", () => sayLeave()); },
  dark: () => setDark(!isDark), keys: () => $("help").showModal() };
for (const [name, does] of Object.entries(ACTS)) $(name).onclick = () => { closeMenu(); does(); };
$("undo").onclick = undo; $("redo").onclick = redo;
$("in").onclick = () => zoomAt(1.25); $("out").onclick = () => zoomAt(.8); $("zoom").onclick = KEYS[0];
$("double").onclick = double; $("front").onclick = () => redraw(alive(), () => ({})); $("rub").onclick = () => { erase(alive()); paper.focus(); };
$("who").onclick = KEYS.m; $("state").onclick = KEYS.m;
for (const [id, path] of Object.entries({ undo: "M8 5L4 9l4 4 M4 9h10a5 5 0 0 1 0 10h-4", redo: "M16 5l4 4-4 4 M20 9H10a5 5 0 0 0 0 10h4", "menu-button": "M4 7h16 M4 12h16 M4 17h16", who: "M9 11a3.5 3.5 0 1 0 0-7a3.5 3.5 0 0 0 0 7z M3 20a6 6 0 0 1 12 0 M16 4.5a3.5 3.5 0 0 1 0 6.5 M17.5 14.5A6 6 0 0 1 21 20" })) $(id).prepend(icon(path));
addEventListener("resize", fit);
for (const id of ["tools", "foot"]) new ResizeObserver(fit).observe($(id));
// For tests: what the page shows, as text and as the bytes of an image of a fixed size.
window.board = {
  shapes: name => { const p = pages.get(name || here); return p ? p.shapes().map(s => `${s.height} ${s.source}.${s.number} ${s.kind} ${s.colour || ""} ${s.width || ""} ${s.style || ""}${isPlaced(s) ? " +" + boundsOf(s) : ""} ${s.text || ""} ${(s.points || []).join(" ")}`) : []; },
  image: name => { const p = pages.get(name || here); return p ? canvasOf(p, 800).toDataURL() : ""; },
  svg: () => svgOf(page().shapes()), pending: () => pending.size + queue.length, holes: () => holes, left: () => [...left], last: () => last, pages: () => order().map(p => p.name), titles: () => order().map(titleOf), name: nameOf, turnTo,
  view: () => ({ zoom, scale, corner }), state: () => standing(), frames: () => painted, paintings: () => paintings, paintedAt: () => paintedAt, isIdle: () => !isAwaited && !job && !parts.length && !busyMembers().size, isLoaded: () => !isLoading,
  file: () => fileOf(drawnPages()), open: openText, undo, redo, chosen: () => [...chosen].map(s => `${s.source}.${s.number}`),
  send: (body, name) => { give({ kind: "sent" }, name || here, [body]); } };
setDark(stored(ALL, "dark", darkness.matches), false);
[zoom, middle] = stored(TAB, "view", [zoom, middle]);
showMembers(innerWidth > 900); fit(); showPast(); wake(); watch(); listen();
</script>
</body>
</html>
"##;
