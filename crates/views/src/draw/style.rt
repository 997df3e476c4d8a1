//! What surrounds the pictures.

/// The beginning of the page.
pub(crate) const HEAD: &str = "<!DOCTYPE html>
<html lang=\"en\">
<head>
<meta charset=\"utf-8\">
<meta name=\"viewport\" content=\"width=device-width, initial-scale=1\">
<title>nvmesgl: a script, step by step</title>
<style>
:root { color-scheme: light dark; --ink: #1b1f24; --dim: #59616b; --line: #c9ced6; --paper: #fff; --free: #eef0f3; }
@media (prefers-color-scheme: dark) { :root { --ink: #e6e9ed; --dim: #a2abb5; --line: #3d454f; --paper: #14171b; --free: #2a3038; } .ring .p, .ring .w { --bar: #8a5200; } }
body { font: 15px/1.45 system-ui, sans-serif; color: var(--ink); background: var(--paper); max-width: 76rem; margin: 0 auto; padding: 0 1rem 2rem; }
nav { position: sticky; top: 0; background: var(--paper); border-bottom: 1px solid var(--line); padding: .6rem 0; display: flex; gap: .6rem; align-items: center; z-index: 1; }
nav[hidden], section[hidden] { display: none; }
nav input { flex: 1; }
h2 { font-size: 1.05rem; margin: 1.1rem 0 .2rem; }
code, .pool b, td { font-family: ui-monospace, monospace; }
.reply { margin: 0 0 .8rem; white-space: pre-wrap; overflow-wrap: anywhere; }
.pool { display: grid; grid-template-columns: repeat(16, minmax(2.6rem, 1fr)); gap: 3px; max-width: 60rem; }
.pool b { font-weight: 400; font-size: 12px; text-align: center; padding: .3rem 0; border-radius: 3px; background: var(--free); color: var(--dim); border: 2px solid transparent; }
.pool .s { background: #3d5a80; color: #fff; }
.pool .c { background: #98c1d9; }
.pool .d { background: hsl(var(--h) 75% 72%); }
.pool .l { background: repeating-linear-gradient(45deg, hsl(var(--h) 75% 72%) 0 5px, hsl(var(--h) 75% 88%) 5px 10px); }
.pool .c, .pool .d, .pool .l, .ring .p, .ring .w { color: #1b1f24; }
.pool .n { border-color: var(--ink); }
.pool .t { text-decoration: underline 2px; font-weight: 700; }
table { border-collapse: collapse; margin: .8rem 0 0; font-size: 13px; }
th, td { text-align: left; padding: .15rem .8rem .15rem 0; border-bottom: 1px solid var(--line); vertical-align: top; }
th { color: var(--dim); font-weight: 600; }
.ring { display: flex; flex-wrap: wrap; gap: 2px; margin: .2rem 0; }
.ring b { font: 11px ui-monospace, monospace; min-width: 1.5rem; text-align: center; padding: .15rem 0; border-radius: 3px; background: var(--free); color: var(--dim); }
.ring .p { background: #f2b134; }
.ring .w { background: #fbe3b0; }
.ring .h { box-shadow: inset 3px 0 var(--bar, var(--ink)); }
.ring .e { box-shadow: inset -3px 0 var(--bar, var(--ink)); }
.ring .h.e { box-shadow: inset 3px 0 var(--bar, var(--ink)), inset -3px 0 var(--bar, var(--ink)); }
td i { display: inline-block; width: .8em; height: .8em; margin-right: .4em; border-radius: 2px; background: hsl(var(--h) 75% 72%); }
@media (max-width: 48rem) { .pool { grid-template-columns: repeat(8, minmax(2.6rem, 1fr)); } }
.key { color: var(--dim); font-size: 13px; margin: .4rem 0 0; }
@media print { nav { display: none; } section[hidden] { display: block; } section { break-inside: avoid; } * { print-color-adjust: exact; } }
</style>
</head>
<body>
<nav hidden><button type=\"button\" title=\"the step before (left arrow)\">&larr;</button><input type=\"range\" min=\"0\" value=\"0\" aria-label=\"step\"><button type=\"button\" title=\"the next step (right arrow)\">&rarr;</button><output></output></nav>
<p class=\"key\">A cell is a page of the pool. Dark blue: a submission queue; light blue: a completion queue; a colour for each command, plain where its data lies and
striped where its list lies; grey: free. A frame: it has another owner than before the step. Underlined: the controller touched it. In a ring, yellow: posted and not taken; pale: posted, and the doorbell not rung for it;
a bar at the left: the head, where the next one is taken; at the right: the tail, where the next one is posted.</p>
";

/// The end of the page: with it the browser shows one picture at a time.
pub(crate) const FOOT: &str = "<script>
const pictures = [...document.querySelectorAll('section')];
const bar = document.querySelector('nav');
const slider = bar.querySelector('input');
const told = bar.querySelector('output');
const [back, on] = bar.querySelectorAll('button');
let shown = 0;
function show(place) {
  shown = Math.max(0, Math.min(pictures.length - 1, place));
  pictures.forEach((picture, i) => { picture.hidden = i !== shown; });
  slider.value = shown;
  told.textContent = 'step ' + shown + ' of ' + (pictures.length - 1);
  history.replaceState(null, '', '#' + pictures[shown].id);
  scrollTo(0, 0);
}
slider.max = pictures.length - 1;
slider.oninput = () => show(Number(slider.value));
back.onclick = () => show(shown - 1);
on.onclick = () => show(shown + 1);
document.onkeydown = (event) => {
  const places = { ArrowLeft: shown - 1, ArrowRight: shown + 1, Home: 0, End: pictures.length - 1 };
  if (event.target !== slider && event.key in places) { show(places[event.key]); event.preventDefault(); }
};
bar.hidden = false;
show(Math.max(0, pictures.findIndex((picture) => '#' + picture.id === location.hash)));
</script>
</body>
</html>
";
