//! The texts of a page that are the same in each.

/// The head up to the style: nothing is loaded, and only the script of this sum runs.
pub const FRONT: &[u8] = b"\
<head>\n\
<meta charset=\"utf-8\">\n\
<meta http-equiv=\"Content-Security-Policy\" content=\"default-src &#39;none&#39;; style-src &#3\
9;unsafe-inline&#39;; script-src &#39;sha256-975QGUyIYYQuO/O8fGf8h8KGMzdoKnNK1RkC9cZaWOE=&#39;; \
base-uri &#39;none&#39;; form-action &#39;none&#39;\">\n\
<meta name=\"viewport\" content=\"width=device-width, initial-scale=1\">\n\
<title>Pipitsolder report</title>\n\
<style>\n";

/// The style, first part: colours, text, tables.
pub const STYLE: &[u8] = b"\
:root{color-scheme:light dark;--bg:#fbfaf8;--card:#fff;--ink:#1d2329;--soft:#59626d;--line:#dcd8\
d0;--tint:#f2f0eb;--link:#0b5394;--mark:#fff1b8;\n\
--never:#e8edf3;--sometimes:#fbe3c4;--always:#d3ecdd;--bad:#f6d4d4;\n\
--po:#3a424b;--rf:#b03a00;--co:#0060a0;--fr:#855600;--dep:#006b4c;--fence:#983a78;--named:#5248a\
c;--step:#111}\n\
@media screen and (prefers-color-scheme:dark){:root{--bg:#14171b;--card:#1b1f25;--ink:#e8eaed;--\
soft:#a5aeb9;--line:#353c46;--tint:#232932;--link:#8cc4ff;--mark:#544813;\n\
--never:#2a3440;--sometimes:#573c14;--always:#1c4631;--bad:#5c2a2a;\n\
--po:#c3cad3;--rf:#ff8f57;--co:#6cb8f0;--fr:#f0b840;--dep:#43cb9f;--fence:#e9a0cc;--named:#b0a8f\
f;--step:#fff}}\n\
*{box-sizing:border-box}\n\
body{margin:0;background:var(--bg);color:var(--ink);font:16px/1.5 system-ui,-apple-system,\"Sego\
e UI\",Roboto,\"DejaVu Sans\",sans-serif}\n\
header,main,footer{max-width:1280px;margin:0 auto;padding:0 24px}\n\
h1{font-size:1.6rem;margin:28px 0 2px;letter-spacing:-.01em}h2{font-size:1.15rem;margin:36px 0 1\
0px}h3{font-size:.95rem;margin:18px 0 6px}\n\
p{margin:4px 0 10px}.soft{color:var(--soft)}small,.small{font-size:.85rem}\n\
a{color:var(--link)}a:focus-visible,summary:focus-visible,input:focus-visible,select:focus-visib\
le{outline:3px solid var(--link);outline-offset:2px}\n\
code,pre,.m,td,.f{font-family:ui-monospace,\"DejaVu Sans Mono\",Menlo,Consolas,monospace;font-si\
ze:.875rem}\n\
.cards{display:flex;flex-wrap:wrap;gap:12px;margin:16px 0}.card{background:var(--card);border:1p\
x solid var(--line);border-radius:10px;padding:10px 18px;min-width:8.5em}.card b{display:block;f\
ont-size:1.7rem;line-height:1.25;font-weight:650}\n\
.wrap{overflow:auto;border:1px solid var(--line);border-radius:10px;background:var(--card);max-w\
idth:100%;width:fit-content}.big{max-height:78vh}\n\
table{border-collapse:separate;border-spacing:0}th,td{padding:5px 12px;border-bottom:1px solid v\
ar(--line);text-align:left;white-space:nowrap}tr:last-child>*{border-bottom:0}\n\
thead th{position:sticky;top:0;background:var(--tint);z-index:2;font-size:.85rem}tbody th{positi\
on:sticky;left:0;background:var(--card);font-weight:500;z-index:1;font-size:.9rem}thead th:first\
-child{left:0;z-index:3}\n\
.num td,.num th{text-align:right}.num th:first-child{text-align:left}\n\
.N,.S,.A,.X{color:var(--ink)}td.N{background:var(--never)}td.S{background:var(--sometimes)}td.A{\
background:var(--always)}td.X{background:var(--bad)}\n\
td a{color:inherit;text-decoration:none}td a:hover,tbody th a:hover{text-decoration:underline}tb\
ody th a{color:var(--link);text-decoration:none}\n\
sup{font-weight:700;margin-left:.35em;font-size:.72rem;border:1px solid;border-radius:4px;paddin\
g:0 3px;line-height:1}\n\
td.g{box-shadow:inset 4px 0 var(--ink)}\n";

/// The style, second part: filters, tests, drawings, print.
pub const MORE_STYLE: &[u8] = b"\
.bar{display:flex;flex-wrap:wrap;gap:8px 18px;align-items:center;margin:10px 0}.bar label{displa\
y:inline-flex;gap:6px;align-items:center;cursor:pointer;min-height:32px}\n\
input[type=search],select{font:inherit;background:var(--card);color:var(--ink);border:1px solid \
var(--soft);border-radius:6px;padding:4px 8px}\n\
.bar .js{display:none}.on .bar .js{display:inline-flex}\n\
.r{position:fixed;top:0;left:0;opacity:0;pointer-events:none}\n\
#w-differ:checked~main .same,#w-same:checked~main .differ,#w-refused:checked~main .fine,[hidden]\
{display:none!important}\n\
.bar label[for]{border:1px solid var(--soft);border-radius:99px;padding:1px 13px}#w-all:checked~\
main label[for=w-all],#w-differ:checked~main label[for=w-differ],#w-same:checked~main label[for=\
w-same],#w-refused:checked~main label[for=w-refused]{background:var(--ink);color:var(--bg);borde\
r-color:var(--ink)}\n\
#w-all:focus-visible~main label[for=w-all],#w-differ:focus-visible~main label[for=w-differ],#w-s\
ame:focus-visible~main label[for=w-same],#w-refused:focus-visible~main label[for=w-refused]{outl\
ine:3px solid var(--link);outline-offset:2px}\n\
details.t{background:var(--card);border:1px solid var(--line);border-radius:10px;margin:10px 0;c\
ontent-visibility:auto;contain-intrinsic-size:auto 52px}\n\
details.t>summary{padding:10px 16px;cursor:pointer;display:flex;flex-wrap:wrap;gap:6px 12px;alig\
n-items:baseline}details.t>summary::before{content:\"\\25B8\";color:var(--soft)}details.t[open]>\
summary::before{content:\"\\25BE\"}summary::-webkit-details-marker{display:none}\n\
.body{padding:0 16px 16px}.chip{border-radius:6px;padding:1px 8px;font-size:.82rem}.chip.N{backg\
round:var(--never)}.chip.S{background:var(--sometimes)}.chip.A{background:var(--always)}.chip.X{\
background:var(--bad)}\n\
.two{display:flex;flex-wrap:wrap;gap:12px 28px}.two>div{min-width:0;max-width:100%}\n\
pre{background:var(--tint);border-radius:8px;padding:10px 14px;overflow:auto;margin:6px 0;line-h\
eight:1.4}\n\
tr.d th,tr.d td{background:var(--mark)}\n\
figure{margin:16px 0;border:1px solid var(--line);border-radius:10px;overflow:auto}figcaption{\
padding:8px 14px;background:var(--tint);font-size:.9rem}figure .s{overflow:auto;padding:10px 14p\
x}\n\
svg{display:block;margin:0 auto;font-family:ui-monospace,\"DejaVu Sans Mono\",Menlo,Consolas,mon\
ospace}\n\
.th{fill:var(--tint);opacity:.75}.tn{fill:var(--soft);font-size:13px;font-weight:600;text-anchor\
:middle}.b{fill:var(--card);stroke:var(--soft)}.e{fill:var(--ink);font-size:13px;font-weight:600\
;text-anchor:middle}.i{fill:var(--soft);font-size:12px;text-anchor:middle}\n\
.a{font-size:12px;font-weight:600;paint-order:stroke;stroke:var(--card);stroke-width:4px;stroke-\
linejoin:round}.l{fill:none;stroke-width:1.7}.dep .l{stroke-dasharray:7 4}.fence .l{stroke-dasha\
rray:2 3}.step .l{stroke-width:4}.step.a{font-size:13px;font-weight:700}\n\
.po .l{stroke:var(--po)}.rf .l{stroke:var(--rf)}.co .l{stroke:var(--co)}.fr .l{stroke:var(--fr)}\
.dep .l{stroke:var(--dep)}.fence .l{stroke:var(--fence)}.named .l{stroke:var(--named)}.step .l{s\
troke:var(--step)}\n\
.po .h,.po.a{fill:var(--po)}.rf .h,.rf.a{fill:var(--rf)}.co .h,.co.a{fill:var(--co)}.fr .h,.fr.a\
{fill:var(--fr)}.dep .h,.dep.a{fill:var(--dep)}.fence .h,.fence.a{fill:var(--fence)}.named .h,.n\
amed.a{fill:var(--named)}.step .h,.step.a{fill:var(--step)}\n\
.legend{display:flex;flex-wrap:wrap;gap:4px 18px;font-size:.85rem;margin:8px 0}.legend svg{displ\
ay:inline-block;margin:0;vertical-align:middle}\n\
p,b,summary,figcaption,h1,.chip{overflow-wrap:anywhere}select,.bar>*,.bar label{max-width:100%;f\
lex-wrap:wrap}\n\
.w{white-space:nowrap}\n\
.many thead th{vertical-align:bottom}.many thead th span{writing-mode:vertical-rl;transform:rota\
te(180deg);max-height:14em;overflow:hidden;text-overflow:ellipsis}.many td,.many th{padding-left\
:8px;padding-right:8px}\n\
footer{padding-top:20px;padding-bottom:40px;font-size:.85rem;color:var(--soft)}\n\
@media(max-width:600px){header,main,footer{padding:0 12px}.card{padding:8px 12px;min-width:6.4em\
}.card b{font-size:1.3rem}th,td{padding:5px 8px}tbody th{max-width:11em;overflow:hidden;text-ove\
rflow:ellipsis}.body{padding:0 10px 12px}}\n\
@media print{:root{--bg:#fff;--tint:#f4f4f4}.bar,.js{display:none!important}.wrap,.big,pre,figur\
e .s{overflow:visible;max-height:none}figure,details.t{break-inside:avoid}thead th,tbody th{posi\
tion:static}body{font-size:11pt;print-color-adjust:exact;-webkit-print-color-adjust:exact}svg{ma\
x-width:100%;height:auto}}\n\
i{font-style:normal}figure svg{margin:8px auto}.many td i,.chip.many i{display:none}figure>b{dis\
play:block;padding:8px 14px 0;background:var(--tint)}\n";

/// What stands between the style and the numbers: the filters, which need no script.
pub const BODY: &[u8] = b"\
</style>\n\
</head>\n\
<body>\n\
<input class=\"r\" type=\"radio\" name=\"w\" id=\"w-all\" checked=\"\" aria-label=\"show all tes\
ts\">\n\
<input class=\"r\" type=\"radio\" name=\"w\" id=\"w-differ\" aria-label=\"show tests that tell m\
odels apart\">\n\
<input class=\"r\" type=\"radio\" name=\"w\" id=\"w-same\" aria-label=\"show tests on which all \
models agree\">\n\
<input class=\"r\" type=\"radio\" name=\"w\" id=\"w-refused\" aria-label=\"show tests with a ref\
usal\">\n";

/// The head of the table, up to the filters.
pub const BAR: &[u8] = b"\
<h2 id=\"table\">Table</h2>\n\
<div class=\"bar\" role=\"group\" aria-label=\"Which tests are shown\">";

/// What stands behind the filters.
pub const BAR_END: &[u8] = b"\
<label class=\"js\">name has <input type=\"search\" id=\"q\" size=\"12\"></label><span class=\"js\
\"><label>differ: <select id=\"ma\" aria-label=\"first model\"><option value=\"\">any</option></s\
elect></label> <label>and <select id=\"mb\" aria-label=\"second model\"><option value=\"\">any</o\
ption></select></label></span><span class=\"js soft\" id=\"n\" aria-live=\"polite\"></span></div>\
\n\
<p class=\"small soft\">&#9675; Never &#160; &#9680; Sometimes &#160; &#9679; Always, with how ma\
ny kept executions satisfy the proposition of the condition, and how many do not. In a row, cell\
s with one letter have the same final states, counts and flags; a bar marks those that differ fro\
m the first model.</p>\n";

/// The head of the tests.
pub const LEGEND: &[u8] = b"\
<h2>Tests</h2>\n\
<div class=\"legend\"><span><svg width=\"44\" height=\"14\" viewBox=\"0 0 44 14\" aria-hidden=\
\"true\"><g class=\"po\"><path class=\"l\" d=\"M2 7H36\"></path><path class=\"h\" d=\"M43 7l-9-5\
v10z\"></path></g></svg> program order</span><span><svg width=\"44\" height=\"14\" viewBox=\"0 \
0 44 14\" aria-hidden=\"true\"><g class=\"rf\"><path class=\"l\" d=\"M2 7H36\"></path><path clas\
s=\"h\" d=\"M43 7l-9-5v10z\"></path></g></svg> reads-from</span><span><svg width=\"44\" height=\
\"14\" viewBox=\"0 0 44 14\" aria-hidden=\"true\"><g class=\"co\"><path class=\"l\" d=\"M2 7H36\
\"></path><path class=\"h\" d=\"M43 7l-9-5v10z\"></path></g></svg> coherence</span><span><svg wi\
dth=\"44\" height=\"14\" viewBox=\"0 0 44 14\" aria-hidden=\"true\"><g class=\"fr\"><path class=\
\"l\" d=\"M2 7H36\"></path><path class=\"h\" d=\"M43 7l-9-5v10z\"></path></g></svg> from-reads</\
span><span><svg width=\"44\" height=\"14\" viewBox=\"0 0 44 14\" aria-hidden=\"true\"><g class=\
\"dep\"><path class=\"l\" d=\"M2 7H36\"></path><path class=\"h\" d=\"M43 7l-9-5v10z\"></path></g\
></svg> dependencies</span><span><svg width=\"44\" height=\"14\" viewBox=\"0 0 44 14\" aria-hidd\
en=\"true\"><g class=\"fence\"><path class=\"l\" d=\"M2 7H36\"></path><path class=\"h\" d=\"M43 \
7l-9-5v10z\"></path></g></svg> fences</span><span><svg width=\"44\" height=\"14\" viewBox=\"0 0 \
44 14\" aria-hidden=\"true\"><g class=\"named\"><path class=\"l\" d=\"M2 7H36\"></path><path cla\
ss=\"h\" d=\"M43 7l-9-5v10z\"></path></g></svg> shown by the model</span><span><svg width=\"44\
\" height=\"14\" viewBox=\"0 0 44 14\" aria-hidden=\"true\"><g class=\"step\"><path class=\"l\" \
d=\"M2 7H36\"></path><path class=\"h\" d=\"M43 7l-9-5v10z\"></path></g></svg> step of the reason\
</span></div>\n\
<p class=\"small soft\"><code>*&gt;</code> the state satisfies the proposition; a highlighted ro\
w has unlike counts.</p>\n";

/// The end, with the script.
pub const FOOT: &[u8] = b"\
<footer>Made by <code>pipitsolder report</code>. One file: it loads nothing and sends nothing.</\
footer>\n\
<script>(function(){var d=document,r=d.querySelectorAll(\"[data-k]\"),q=d.getElementById(\"q\"),\
a=d.getElementById(\"ma\"),b=d.getElementById(\"mb\"),n=d.getElementById(\"n\");\n\
d.body.className=\"on\";\n\
d.querySelectorAll(\"thead th span\").forEach(function(e,i){if(e.closest(\"#grid\"))[a,b].forEac\
h(function(s){s.add(new Option(e.textContent,s.length-1))})});\n\
function f(){var c=0,s=q.value.toLowerCase(),i=a.value,j=b.value;r.forEach(function(e){var k=e.g\
etAttribute(\"data-k\").split(\" \");e.hidden=e.getAttribute(\"data-n\").toLowerCase().indexOf(s\
)==-1||i!=\"\"&&j!=\"\"&&k[i]==k[j];if(!e.hidden&&e.tagName==\"TR\")c++});n.textContent=c+\" tes\
ts match\"}\n\
function o(){var e=location.hash&&d.getElementById(location.hash.slice(1));if(e){if(e.tagName==\
\"DETAILS\")e.open=true;e.scrollIntoView()}}\n\
q.oninput=a.onchange=b.onchange=f;window.onhashchange=o;\n\
var was;window.onbeforeprint=function(){was=[];d.querySelectorAll(\"details.t\").forEach(functio\
n(e){if(!e.open&&!e.hidden){was.push(e);e.open=true}})};window.onafterprint=function(){was.forEa\
ch(function(e){e.open=false})};\n\
f();o()})();\n\
</script>\n\
</body>\n\
</html>\n";
