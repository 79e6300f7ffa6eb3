//! What is the same in each picture.

use std::io;
use std::io::Write;

/// Writes it.
pub(crate) fn write_style<W: Write>(writer: &mut W) -> io::Result<()> {
    writer.write_all(STYLE.as_bytes())
}

/// Colours, fonts, the heads of arrows, and the paper.
const STYLE: &str = "\
<style>\n\
svg{fill:#1b2733;font:12px Inter,'Helvetica Neue','DejaVu Sans',sans-serif}\n\
.paper{fill:#fff}\n\
.band{fill:#f7f9fb}\n\
.mono{font:10px \"JetBrains Mono\",\"DejaVu Sans Mono\",monospace;fill:#5b6b7b}\n\
.line{text-anchor:end;fill:#9aa7b4}\n\
.title{font-size:19px;font-weight:600}\n\
.soft{font-size:12px;fill:#5b6b7b}\n\
.platform{fill:#e3e8ee;stroke:#aab6c2;stroke-width:.8}\n\
.a1{stroke:#2459a6;fill:#2459a6}\n\
.a2{stroke:#a3491e;fill:#a3491e}\n\
.a3{stroke:#4b6b1f;fill:#4b6b1f}\n\
.a4{stroke:#8a2f6b;fill:#8a2f6b}\n\
.a5{stroke:#1f6b68;fill:#1f6b68}\n\
.a6{stroke:#6b5a1f;fill:#6b5a1f}\n\
.a7{stroke:#3f3f8a;fill:#3f3f8a}\n\
.a8{stroke:#7a2f2f;fill:#7a2f2f}\n\
.life{stroke-width:1.6}\n\
.gone{stroke-width:1.2;stroke-dasharray:2 6}\n\
.box{stroke:none}\n\
.who{font-weight:600;fill:#fff;text-anchor:middle}\n\
.what{font-size:10px;fill:#fff;fill-opacity:.8;text-anchor:middle}\n\
.border{stroke:#d7dee6}\n\
.track{font-weight:600}\n\
.kind{font-size:10px;fill:#5b6b7b}\n\
.on{fill:#1a7f4b}\n\
.off{fill:#a9b4bf}\n\
.value{font-size:10px;font-weight:600;fill:#5b6b7b}\n\
.on.value{fill:#1a7f4b}\n\
.rate{fill:#0b6e99;stroke:#0b6e99}\n\
.rate.idle{fill:#fff}\n\
.hertz{font-size:10px;font-weight:600;fill:#0b6e99}\n\
.held{fill:url(#hatch);stroke:#b7791f;stroke-width:.8}\n\
.none{fill:#d5dbe2}\n\
.queue{stroke:none;opacity:.8}\n\
.count{stroke:none;font-size:10px;font-weight:600}\n\
.dropped{fill:#c0362c}\n\
.dropped text{font-size:10px;font-weight:600}\n\
.mark{stroke:#1b2733;fill:#1b2733}\n\
.mark text{stroke:#fff;stroke-width:3;stroke-linejoin:round;paint-order:stroke;text-anchor:middle}\n\
.name{font-weight:600}\n\
.object{fill:#1b2733}\n\
.tag{fill:#b7791f;font-weight:600}\n\
.way,.head{stroke-width:1.6}\n\
.wait{stroke-width:1.2;stroke-dasharray:2 3}\n\
.head{marker-end:url(#ink)}\n\
.lead{stroke:#9aa7b4;stroke-width:1;stroke-dasharray:1 3}\n\
.lost{stroke:#c0362c;stroke-width:2.2}\n\
.shut{stroke-width:2.2}\n\
.refused{stroke:#c0362c}\n\
.refused .way{stroke-dasharray:4 3}\n\
.refused .tag{fill:#c0362c}\n\
.refused .name{fill:#1b2733}\n\
.reply{stroke:#1a7f4b;fill:#1a7f4b}\n\
.reply .object{fill:#1a7f4b}\n\
.reply .way,.reply .head{stroke-dasharray:5 3}\n\
.reply .head{marker-end:url(#good)}\n\
.refusal{stroke:#c0362c;fill:#c0362c}\n\
.refusal .object{fill:#c0362c}\n\
.refusal .head{marker-end:url(#bad)}\n\
.pending{stroke:#b7791f;fill:#b7791f}\n\
.pending .object{fill:#b7791f}\n\
.pending .tag{font-weight:400}\n\
.pending .head{marker-end:url(#held)}\n\
.delayed{stroke:#0b6e99;fill:#0b6e99}\n\
.delayed .head{marker-end:url(#late)}\n\
.notification{stroke:#7a3fb0;fill:#7a3fb0}\n\
.notification .head{marker-end:url(#note)}\n\
.notification .tag{fill:#5b6b7b;font-weight:400}\n\
.token{fill:#fff;stroke-width:1.4}\n\
.delayed .token{stroke:#0b6e99;stroke-dasharray:2.5 1.5}\n\
.mark .in{stroke:none;font-size:9px;font-weight:600}\n\
.delayed .in{fill:#0b6e99}\n\
.post{fill:#fff;stroke:#1b2733;stroke-width:1.6}\n\
.run{stroke:none}\n\
.pill{fill:#fff6df;stroke:#b7791f;stroke-width:1.3;rx:11.5px}\n\
.mark .sign{stroke:none;font-size:11px}\n\
.advance .name{fill:#b7791f}\n\
.advance.idle .pill{fill:#fff;stroke:#d7dee6}\n\
.advance.idle .name,.advance.idle .object{fill:#5b6b7b}\n\
.mark .note{font-style:italic;fill:#5b6b7b;text-anchor:start}\n\
.mark .end{text-anchor:end}\n\
.closed .note{font-style:normal;font-weight:600;fill:#1b2733}\n\
.again{font-weight:600;text-anchor:middle;stroke:#fff;stroke-width:4;stroke-linejoin:round;paint-order:stroke}\n\
.again.left{text-anchor:start}\n\
.legend text{font-size:10.5px;fill:#5b6b7b;stroke:none;text-anchor:start}\n\
.legend .number{font-size:9px;font-weight:600}\n\
.legend .token{stroke:#5b6b7b;stroke-width:1.3}\n\
@media print{\n\
svg{fill:#000}\n\
.paper,.band{fill:none}\n\
.band,.border{stroke:#c3ccd5;stroke-width:.6}\n\
.mono,.soft,.kind,.value,.legend text{fill:#333}\n\
}\n\
@media screen and (prefers-color-scheme:dark){\n\
svg{fill:#e3e9ef}\n\
.paper{fill:#12181f}\n\
.band{fill:#19212a}\n\
.mono,.soft,.kind,.value,.legend text{fill:#9fb0c0}\n\
.line{fill:#6d7c8a}\n\
.platform{fill:#2b3743;stroke:#4d5b69}\n\
.box{fill:#3d4c5b}\n\
.a1{stroke:#79aef2;fill:#79aef2}\n\
.a2{stroke:#ee9a6b;fill:#ee9a6b}\n\
.a3{stroke:#a3cc6a;fill:#a3cc6a}\n\
.a4{stroke:#e08ac3;fill:#e08ac3}\n\
.a5{stroke:#64c7c2;fill:#64c7c2}\n\
.a6{stroke:#d3bc62;fill:#d3bc62}\n\
.a7{stroke:#a3a3f0;fill:#a3a3f0}\n\
.a8{stroke:#e58f8f;fill:#e58f8f}\n\
.box{stroke:none}\n\
.a1.box{fill:#2459a6}\n\
.a2.box{fill:#a3491e}\n\
.a3.box{fill:#4b6b1f}\n\
.a4.box{fill:#8a2f6b}\n\
.a5.box{fill:#1f6b68}\n\
.a6.box{fill:#6b5a1f}\n\
.a7.box{fill:#3f3f8a}\n\
.a8.box{fill:#7a2f2f}\n\
.who,.what{fill:#fff}\n\
.border{stroke:#33404d}\n\
.on,.on.value{fill:#4fc98a}\n\
.off,.none{fill:#566472}\n\
.rate{fill:#4db6e2;stroke:#4db6e2}\n\
.rate.idle{fill:#12181f}\n\
.hertz{fill:#4db6e2}\n\
.mark{stroke:#e3e9ef;fill:#e3e9ef}\n\
.mark text,.again{stroke:#12181f}\n\
.object,.refused .name,.closed .note{fill:#e3e9ef}\n\
.tag{fill:#e0a94a}\n\
.lost,.refused{stroke:#f0766c}\n\
.refused .tag{fill:#f0766c}\n\
.reply{stroke:#4fc98a;fill:#4fc98a}\n\
.reply .object{fill:#4fc98a}\n\
.refusal{stroke:#f0766c;fill:#f0766c}\n\
.refusal .object{fill:#f0766c}\n\
.pending{stroke:#e0a94a;fill:#e0a94a}\n\
.pending .object{fill:#e0a94a}\n\
.delayed{stroke:#4db6e2;fill:#4db6e2}\n\
.delayed .object{fill:#e3e9ef}\n\
.notification{stroke:#b98cec;fill:#b98cec}\n\
.notification .object{fill:#e3e9ef}\n\
.notification .tag,.mark .note{fill:#9fb0c0}\n\
.token,.post{fill:#12181f}\n\
.post{stroke:#e3e9ef}\n\
.delayed .token{stroke:#4db6e2}\n\
.delayed .in{fill:#4db6e2}\n\
.mark .in,.legend text{stroke:none}\n\
.pill{fill:#3a2f14;stroke:#e0a94a}\n\
.mark .sign{stroke:none}\n\
.advance .name{fill:#e0a94a}\n\
.advance.idle .pill{fill:#12181f;stroke:#4d5b69}\n\
.advance.idle .name,.advance.idle .object{fill:#9fb0c0}\n\
.count{stroke:none}\n\
.dropped{fill:#f0766c}\n\
.queue{stroke:none}\n\
#ink path{fill:#e3e9ef}\n\
#good path{fill:#4fc98a}\n\
#bad path{fill:#f0766c}\n\
#held path{fill:#e0a94a}\n\
#late path{fill:#4db6e2}\n\
#note path{fill:#b98cec}\n\
#hatch rect{fill:#3a2f14}\n\
}\n\
</style>\n\
<defs>\n\
<marker id=\"ink\" viewBox=\"0 0 10 10\" refX=\"9\" refY=\"5\" markerWidth=\"8\" markerHeight=\"8\" markerUnits=\"userSpaceOnUse\" orient=\"auto\"><path d=\"M0 0.8L10 5L0 9.2z\" fill=\"#1b2733\" stroke=\"none\"/></marker>\n\
<marker id=\"good\" viewBox=\"0 0 10 10\" refX=\"9\" refY=\"5\" markerWidth=\"8\" markerHeight=\"8\" markerUnits=\"userSpaceOnUse\" orient=\"auto\"><path d=\"M0 0.8L10 5L0 9.2z\" fill=\"#1a7f4b\" stroke=\"none\"/></marker>\n\
<marker id=\"bad\" viewBox=\"0 0 10 10\" refX=\"9\" refY=\"5\" markerWidth=\"8\" markerHeight=\"8\" markerUnits=\"userSpaceOnUse\" orient=\"auto\"><path d=\"M0 0.8L10 5L0 9.2z\" fill=\"#c0362c\" stroke=\"none\"/></marker>\n\
<marker id=\"held\" viewBox=\"0 0 10 10\" refX=\"9\" refY=\"5\" markerWidth=\"8\" markerHeight=\"8\" markerUnits=\"userSpaceOnUse\" orient=\"auto\"><path d=\"M0 0.8L10 5L0 9.2z\" fill=\"#b7791f\" stroke=\"none\"/></marker>\n\
<marker id=\"late\" viewBox=\"0 0 10 10\" refX=\"9\" refY=\"5\" markerWidth=\"8\" markerHeight=\"8\" markerUnits=\"userSpaceOnUse\" orient=\"auto\"><path d=\"M0 0.8L10 5L0 9.2z\" fill=\"#0b6e99\" stroke=\"none\"/></marker>\n\
<marker id=\"note\" viewBox=\"0 0 10 10\" refX=\"9\" refY=\"5\" markerWidth=\"8\" markerHeight=\"8\" markerUnits=\"userSpaceOnUse\" orient=\"auto\"><path d=\"M0 0.8L10 5L0 9.2z\" fill=\"#7a3fb0\" stroke=\"none\"/></marker>\n\
<pattern id=\"hatch\" width=\"6\" height=\"6\" patternUnits=\"userSpaceOnUse\" patternTransform=\"rotate(45)\"><rect width=\"6\" height=\"6\" fill=\"#fff6df\"/><line x1=\"0\" y1=\"0\" x2=\"0\" y2=\"6\" stroke=\"#b7791f\" stroke-width=\"2.4\"/></pattern>\n\
</defs>\n\
<rect class=\"paper\" width=\"100%\" height=\"100%\"/>\n\
";
