//! The fixed texts of a picture.
ghost use Rattle.std.specs.Prelude.{◌≡◌, ◌++◌, OnOk};
ghost use Rattle.gs_picture.specs.Pieces.{chart_words, crowd_words, legend_words, part, piece, style_text};

use crate::pen::push;
use std::alloc::AllocError;

const LEGEND_WORDS: &str = "\
    <g class=\"disc off\" transform=\"translate(69 660)\"><circle r=\"9\"/></g>\
    <text x=\"85\" y=\"664\">hollow: not subscribed to the topic</text>\n\
    <path class=\"both\" d=\"M316 660H340\"/>\
    <text x=\"345\" y=\"664\">each has the other in its mesh</text>\n\
    <path class=\"tail\" d=\"M576 660H592\"/>\
    <path class=\"tip\" d=\"M592 655L602 660L592 665z\"/>\
    <text x=\"605\" y=\"664\">the tail alone has the head in its mesh</text>\n";

const CROWD_WORDS: &str = "\
    <text class=\"middle\" x=\"460\" y=\"562\">\
    Peers stand clockwise from the top in the order of the scenario, without names. \
    Lines are faint, so a dense place has many.</text>\n\
    <g class=\"disc off\" transform=\"translate(69 660)\"><circle r=\"9\"/></g>\
    <text x=\"85\" y=\"664\">hollow: not subscribed to the topic</text>\n\
    <path class=\"both\" d=\"M316 660H340\"/>\
    <text x=\"345\" y=\"664\">each has the other in its mesh</text>\n\
    <path class=\"tail\" d=\"M576 660H600\"/>\
    <text x=\"605\" y=\"664\">only one has the other in its mesh</text>\n";

const CHART_WORDS: &str = "\
    <path class=\"course few\" d=\"M60 718H84\"/>\
    <text x=\"90\" y=\"722\">thin: one message</text>\n\
    <path class=\"course all\" d=\"M222 718H246\"/>\
    <text x=\"252\" y=\"722\">thick: all messages together</text>\n\
    <text class=\"middle\" transform=\"translate(14 840) rotate(-90)\">\
    of the subscribers</text>\n\
    <text class=\"middle\" x=\"460\" y=\"978\">\
    rounds after the publication</text>\n";

const STYLE: &str = "\
<style>
text{font-family:sans-serif;font-size:12px;fill:#1f2328}
.back{fill:#fff}
.title{font-size:18px;font-weight:bold}
.head{font-weight:bold}
.middle{text-anchor:middle}
.end{text-anchor:end}
.name{font-family:monospace;font-size:11px}
path{fill:none}
.both{stroke:#57606a;stroke-opacity:.55}
.one,.tail{stroke:#bc4c00;stroke-width:1.5}
.one{marker-end:url(#head)}
#head path,.tip{fill:#bc4c00}
.disc circle{stroke-width:2;stroke:#57606a}
.disc text{font-size:11px;font-weight:bold;text-anchor:middle;fill:#fff}
.fair circle{fill:#0969da;stroke:#0969da}
.zero circle{fill:#e3b341;stroke:#9a6700}
.zero text{fill:#1f2328}
.gossip circle{fill:#e16f24;stroke:#bc4c00}
.publish circle{fill:#cf222e;stroke:#cf222e}
.graylist circle{fill:#6e40c9;stroke:#6e40c9}
.unscored circle{fill:#6e7781;stroke:#6e7781}
.off circle{fill:#fff}
.off text{fill:#1f2328}
.grid{stroke:#d0d7de}
.course{stroke:#0969da;stroke-width:1.5}
.some{stroke-opacity:.5}
.many{stroke-opacity:.2}
.all{stroke:#1f2328;stroke-width:5;stroke-opacity:.6}
@media (prefers-color-scheme:dark){
text,.off text{fill:#e6edf3}
.back,.off circle{fill:#0d1117}
.both{stroke:#9198a1}
.grid{stroke:#30363d}
.course{stroke:#58a6ff}
.all{stroke:#e6edf3}
}
</style>
<defs><marker id=\"head\" refX=\"18\" refY=\"5\" \
    markerWidth=\"10\" markerHeight=\"10\" markerUnits=\"userSpaceOnUse\" orient=\"auto\">\
    <path d=\"M0 0L10 5L0 10z\"/></marker></defs>
<rect class=\"back\" width=\"100%\" height=\"100%\"/>
";

/// The style of small discs, faint edges and bars, and the beginning of the group of these discs and edges.
const CROWD: &str = "\
<style>
.crowd .disc circle{stroke-width:.5}
.crowd path{marker-end:none}
.hundreds path{stroke-opacity:.4}
.thousands path{stroke-opacity:.05}
.bar{stroke-width:9}
</style>
<g class=\"crowd ";

/// A text in the circle or the legend.
#[derive(Clone, Copy, Debug, PartialEq, Eq)]
pub(crate) enum Piece {
    EdgeBegins,
    EdgeFrom,
    EdgeTo,
    PathEnds,
    DiscBegins,
    MarkPlace,
    DiscMark,
    DiscEnds,
    DotRadius,
    DotEnds,
    NameBegins,
    NameTurn,
    NameText,
    TextEnds,
    WordsAcross,
    WordsDown,
    TagEnds,
    LegendHead,
    LegendHeadEnds,
}

/// A text around the circle, in the chart or next to it.
#[derive(Clone, Copy, Debug, PartialEq, Eq)]
pub(crate) enum Part {
    Opening,
    OpeningTall,
    ViewBox,
    ViewBoxTall,
    OpeningEnds,
    TitleBegins,
    Peers,
    Rounds,
    Messages,
    GroupBegins,
    GroupPlaced,
    GroupEnds,
    CrowdBegins,
    PictureEnds,
    ChartHead,
    ChartHeadEnds,
    MissedBegins,
    MissedOf,
    MissedEnds,
    LevelBegins,
    LevelLabel,
    LevelEnds,
    TickBegins,
    TickLabel,
    TickText,
    CourseBegins,
    CourseLine,
    CourseEnds,
    TableHead,
    TableHeadEnds,
    RowBegins,
    RowBar,
    RowBarTo,
    RowReached,
    RowShare,
    RowEnds,
}

#[tactic(auto, unfolding(crate::specs::Pieces::piece))]
fn piece_text(one: Piece) -> &'static str
    ensures { result.now ≡ piece one }
{
    match one {
        Piece::EdgeBegins => "<path class=\"",
        Piece::EdgeFrom => "\" d=\"M",
        Piece::EdgeTo => "L",
        Piece::PathEnds => "\"/>\n",
        Piece::DiscBegins => "<g class=\"disc ",
        Piece::MarkPlace => "\" transform=\"translate(",
        Piece::DiscMark => ")\"><circle r=\"9\"/><text y=\"4\">",
        Piece::DiscEnds => "</text></g>\n",
        Piece::DotRadius => ")\"><circle r=\"",
        Piece::DotEnds => "\"/></g>\n",
        Piece::NameBegins => "<text class=\"name ",
        Piece::NameTurn => ") rotate(",
        Piece::NameText => ")\" y=\"4\">",
        Piece::TextEnds => "</text>\n",
        Piece::WordsAcross => "<text x=\"",
        Piece::WordsDown => "\" y=\"",
        Piece::TagEnds => "\">",
        Piece::LegendHead => {
            "<text class=\"head\" x=\"60\" y=\"590\">Each disc is a peer, by the lowest score that a neighbour"
        }
        Piece::LegendHeadEnds => " gives it at the end</text>\n",
    }
}

#[tactic(auto, unfolding(crate::specs::Pieces::part))]
fn text_of(one: Part) -> &'static str
    ensures { result.now ≡ part one }
{
    match one {
        Part::Opening => "<svg xmlns=\"http://www.w3.org/2000/svg\" width=\"",
        Part::OpeningTall => "\" height=\"",
        Part::ViewBox => "\" viewBox=\"0 0 ",
        Part::ViewBoxTall => " ",
        Part::OpeningEnds => "\">\n",
        Part::TitleBegins => "<text class=\"title middle\" x=\"460\" y=\"32\">Topic ",
        Part::Peers => "</text>\n<text class=\"middle\" x=\"460\" y=\"52\">peers: ",
        Part::Rounds => ", rounds: 0 to ",
        Part::Messages => ", messages drawn: ",
        Part::GroupBegins => "<g transform=\"translate(0 ",
        Part::GroupPlaced => ")\">\n",
        Part::GroupEnds => "</g>\n",
        Part::CrowdBegins => CROWD,
        Part::PictureEnds => "</g>\n</svg>\n",
        Part::ChartHead => { "<text class=\"head\" x=\"60\" y=\"700\">Share of the subscribers" }
        Part::ChartHeadEnds => " that each message reached</text>\n",
        Part::MissedBegins => "<text class=\"end\" x=\"860\" y=\"722\">missed: ",
        Part::MissedOf => " of ",
        Part::MissedEnds => " pairs of a message and a subscriber</text>\n",
        Part::LevelBegins => "<path class=\"grid\" d=\"M60 ",
        Part::LevelLabel => "H860\"/><text class=\"end\" x=\"52\" y=\"",
        Part::LevelEnds => "%</text>\n",
        Part::TickBegins => "<path class=\"grid\" d=\"M",
        Part::TickLabel => " 740V940\"/><text class=\"middle\" x=\"",
        Part::TickText => "\" y=\"958\">",
        Part::CourseBegins => "<path class=\"course ",
        Part::CourseLine => "\" d=\"M60 940",
        Part::CourseEnds => "H860\"/>\n",
        Part::TableHead => "<text class=\"head\" x=\"900\" y=\"",
        Part::TableHeadEnds => "\">Pairs reached within a number of rounds</text>\n",
        Part::RowBegins => "<text class=\"end\" x=\"950\" y=\"",
        Part::RowBar => "</text><path class=\"course bar\" d=\"M960 ",
        Part::RowBarTo => "h",
        Part::RowReached => "\"/><text x=\"1070\" y=\"",
        Part::RowShare => " (",
        Part::RowEnds => "%)</text>\n",
    }
}

/// Adds a text of the circle or the legend.
pub(crate) fn push_piece(text: &mut Vec<u8>, one: Piece) -> Result<(), AllocError>
    ensures { OnOk result (text.new.items ≡ text.old.items ++ piece one) }
{
    push(text, piece_text(one))
}

/// Adds a text that stands around the circle, in the chart or next to it.
pub(crate) fn push_part(text: &mut Vec<u8>, one: Part) -> Result<(), AllocError>
    ensures { OnOk result (text.new.items ≡ text.old.items ++ part one) }
{
    push(text, text_of(one))
}

/// Adds the legend except its head and the classes.
#[tactic(auto, unfolding(crate::specs::Pieces::legend_words))]
pub(crate) fn push_legend_words(text: &mut Vec<u8>) -> Result<(), AllocError>
    ensures { OnOk result (text.new.items ≡ text.old.items ++ legend_words) }
{
    push(text, LEGEND_WORDS)
}

/// Adds the same where peers have no names. Lines then have no arrowheads, and discs no marks.
#[tactic(auto, unfolding(crate::specs::Pieces::crowd_words))]
pub(crate) fn push_crowd_words(text: &mut Vec<u8>) -> Result<(), AllocError>
    ensures { OnOk result (text.new.items ≡ text.old.items ++ crowd_words) }
{
    push(text, CROWD_WORDS)
}

/// Adds the words at the axes of the chart.
#[tactic(auto, unfolding(crate::specs::Pieces::chart_words))]
pub(crate) fn push_chart_words(text: &mut Vec<u8>) -> Result<(), AllocError>
    ensures { OnOk result (text.new.items ≡ text.old.items ++ chart_words) }
{
    push(text, CHART_WORDS)
}

/// Adds the style.
#[tactic(auto, unfolding(crate::specs::Pieces::style_text))]
pub(crate) fn push_style(text: &mut Vec<u8>) -> Result<(), AllocError>
    ensures { OnOk result (text.new.items ≡ text.old.items ++ style_text) }
{
    push(text, STYLE)
}
